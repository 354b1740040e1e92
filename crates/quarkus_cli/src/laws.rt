ghost use Rattle.std.specs.Prelude.{◌≡◌, ◌↔◌, ◌⊎◌, ◌<◌, ◌≤◌, ℕ, List, length, Option, Some, None, Ok, codes};
ghost use Rattle.aug_base.specs.Files.{Files};
ghost use Rattle.class_dump.specs.Dump.{dump_text};
ghost use Rattle.class_grammar.specs.Grammar.{Spells, IsStuck};
ghost use Rattle.class_grammar.specs.Layout.{IsBytes};
ghost use Rattle.class_pool.specs.declared.class.Class.{Class};
ghost use Rattle.class_pool.specs.declared.fault.ClassFault.{ClassFault};
ghost use Rattle.class_grammar.specs.FaultText as class_fault;
ghost use Rattle.build_history.specs.declared.event.Event.{Event};
ghost use Rattle.build_history.specs.Kinds.{IsComplete, IsFailed, IsFinished};
ghost use Rattle.build_report.specs.BuildText.{build_text};
ghost use Rattle.ext_parser.specs.ProjectOfTheBytes.{project};
ghost use Rattle.ext_parser.specs.declared.project.Project.{Project};
ghost use Rattle.project_job.specs.JobOf.{job_of};
ghost use Rattle.command_words.specs.declared.command.Command.{Command};
ghost use Rattle.quarkus_cli.specs.declared.outcome.Outcome.{Outcome};
ghost use Rattle.command_words.specs.Words.{command_of};
ghost use Rattle.quarkus_cli.specs.Outcomes.{CommandOutcome, WordsOutcome, IsAcceptedProject, said, absent, no_class};
ghost use Rattle.quarkus_cli.specs.Answers.{Outside, Quiet, AnswersCommand, AnswersWords};
ghost use Rattle.quarkus_cli.specs.Causes.{HoldsProject, HoldsNoProject, TellsBuild, CanCount};

use build_report::a_plan_has_one_text;
use chain_builder::{fault_is_the_only_one, no_fault_is_accepted};
use class_grammar::one_reading;
use project_job::steps_are_named;
use run_laws::{a_text_is_of_one_run, one_least_first};

/// A law: each status of an outcome of `plan` and of `build` stands for its cause, and comes
/// exactly where that holds. It does nothing.
pub fn a_status_tells_its_cause()
    ensures refused { (words : List (List ℕ)) (files : Option Files) (o : Outcome) → WordsOutcome words files o → (o.status ≡ 1) ↔ (command_of words ≡ None) }
    ensures absent { (file : List ℕ) (m : Files) (o : Outcome) → CommandOutcome (Command.Plan file) m o → (o.status ≡ 6) ↔ (m file ≡ None) }
    ensures no_project { (file : List ℕ) (m : Files) (o : Outcome) → CommandOutcome (Command.Plan file) m o → (o.status ≡ 2) ↔ HoldsNoProject (m file) }
    ensures no_chain { (file : List ℕ) (m : Files) (o : Outcome) → CommandOutcome (Command.Plan file) m o → (o.status ≡ 3) ↔ ((p : Project) × HoldsProject (m file) p × (IsAcceptedProject p → ⊥)) }
    ensures done { (file : List ℕ) (m : Files) (o : Outcome) → CommandOutcome (Command.Plan file) m o → (o.status ≡ 0) ↔ ((p : Project) × HoldsProject (m file) p × IsAcceptedProject p) }
    ensures build_absent { (file out : List ℕ) (workers : ℕ) (m : Files) (o : Outcome) → CommandOutcome (Command.Build file out workers) m o → (o.status ≡ 6) ↔ (m file ≡ None) }
    ensures build_no_project { (file out : List ℕ) (workers : ℕ) (m : Files) (o : Outcome) → CommandOutcome (Command.Build file out workers) m o → (o.status ≡ 2) ↔ HoldsNoProject (m file) }
    ensures build_no_chain { (file out : List ℕ) (workers : ℕ) (m : Files) (o : Outcome) → CommandOutcome (Command.Build file out workers) m o → (o.status ≡ 3) ↔ ((p : Project) × HoldsProject (m file) p × (IsAcceptedProject p → ⊥)) }
    ensures step_failed { (file out : List ℕ) (workers : ℕ) (m : Files) (o : Outcome) → CommandOutcome (Command.Build file out workers) m o → (o.status ≡ 4) ↔ ((p : Project) × (h : List Event) × TellsBuild (m file) out workers o p h × IsFailed h) }
    ensures built { (file out : List ℕ) (workers : ℕ) (m : Files) (o : Outcome) → CommandOutcome (Command.Build file out workers) m o → (o.status ≡ 0) ↔ ((p : Project) × (h : List Event) × TellsBuild (m file) out workers o p h × IsComplete (job_of p) h × (IsFailed h → ⊥)) }
{
    no_fault_is_accepted();
}

/// A law: an outcome of `build` tells its project and its history, so what is written and printed
/// is of one run; and a printed text alone tells the history, over a project. It does nothing.
pub fn a_build_tells_its_history()
    ensures printed { (bytes : List ℕ) (p : Project) (h k : List Event) → project bytes ≡ Ok p → IsFinished (job_of p) h → IsFinished (job_of p) k → build_text p.app (job_of p) h ≡ build_text p.app (job_of p) k → h ≡ k }
    ensures outcome { (file : Option (List ℕ)) (out : List ℕ) (workers others : ℕ) (o : Outcome) (p q : Project) (h k : List Event) → TellsBuild file out workers o p h → TellsBuild file out others o q k → (p ≡ q) × (h ≡ k) }
{
    steps_are_named();
    a_text_is_of_one_run();
}

/// A law: over given files `build` by one worker has at most one outcome. It does nothing.
pub fn one_worker_has_one_outcome()
    ensures { (file out : List ℕ) (m : Files) (o other : Outcome) → CommandOutcome (Command.Build file out 1) m o → CommandOutcome (Command.Build file out 1) m other → o ≡ other }
{
    no_fault_is_accepted();
    fault_is_the_only_one();
    one_least_first();
}

/// A law: where nothing outside failed and the file holds a project whose chain is accepted,
/// `build` answers 0, 4 or want of memory. It does nothing.
pub fn an_accepted_project_is_built()
    ensures { (file out : List ℕ) (workers : ℕ) (before now : Outside) (status : ℕ) (m : Files) (p : Project) → AnswersCommand (Command.Build file out workers) before now status → CanCount before → Quiet before now → before.shelf.files ≡ Some m → HoldsProject (m file) p → IsAcceptedProject p → (status ≡ 0) ⊎ ((status ≡ 4) ⊎ (status ≡ 8)) }
{
    no_fault_is_accepted();
}

/// A law: where nothing outside failed and the file holds a project whose chain is accepted,
/// `plan` answers 0 or want of memory. It does nothing.
pub fn an_accepted_project_is_planned()
    ensures { (file : List ℕ) (before now : Outside) (status : ℕ) (m : Files) (p : Project) → AnswersCommand (Command.Plan file) before now status → CanCount before → Quiet before now → before.shelf.files ≡ Some m → HoldsProject (m file) p → IsAcceptedProject p → (status ≡ 0) ⊎ (status ≡ 8) }
{
    no_fault_is_accepted();
}

/// A law: where nothing outside failed and the file's bytes, at most 2,000,000, spell a class,
/// `dump` answers 0 or want of memory. It does nothing.
pub fn a_class_file_is_dumped()
    ensures { (file bytes : List ℕ) (before now : Outside) (status : ℕ) (m : Files) (c : Class) → AnswersCommand (Command.Dump file) before now status → CanCount before → Quiet before now → before.shelf.files ≡ Some m → m file ≡ Some bytes → IsBytes bytes → length bytes ≤ 2000000 → Spells bytes c → (status ≡ 0) ⊎ (status ≡ 8) }
{
    one_reading();
}

/// A law: where a shelf that tells its files lacks the file, the answer is that it isn't there, or
/// want of memory, whatever else fails. It does nothing.
pub fn a_missing_file_is_told()
    ensures plan { (file : List ℕ) (before now : Outside) (status : ℕ) (m : Files) → AnswersCommand (Command.Plan file) before now status → before.shelf.files ≡ Some m → m file ≡ None → (status ≡ 6) ⊎ (status ≡ 8) }
    ensures build { (file out : List ℕ) (workers : ℕ) (before now : Outside) (status : ℕ) (m : Files) → AnswersCommand (Command.Build file out workers) before now status → before.shelf.files ≡ Some m → m file ≡ None → (status ≡ 6) ⊎ (status ≡ 8) }
    ensures dump { (file : List ℕ) (before now : Outside) (status : ℕ) (m : Files) → AnswersCommand (Command.Dump file) before now status → before.shelf.files ≡ Some m → m file ≡ None → (status ≡ 6) ⊎ (status ≡ 8) }
{}

/// A law: words of no form are answered by the usage line, or by what became of its put; no read is
/// answered for. It does nothing.
pub fn words_of_no_form_read_nothing()
    ensures { (words : List (List ℕ)) (before now : Outside) (status : ℕ) → AnswersWords words before now status → command_of words ≡ None → (status ≡ 1) ⊎ ((status ≡ 7) ⊎ (status ≡ 8)) }
{}

/// A law: where a write failed, no byte has reached the sink. It does nothing.
pub fn a_text_is_put_last()
    ensures { (words : List (List ℕ)) (before now : Outside) (status : ℕ) → AnswersWords words before now status → (now.shelf.write_faults ≡ before.shelf.write_faults → ⊥) → now.sink.bytes ≡ before.sink.bytes }
{}

/// A law: over given files `plan` has at most one outcome. It does nothing.
pub fn plan_has_one_outcome()
    ensures { (file : List ℕ) (m : Files) (o other : Outcome) → CommandOutcome (Command.Plan file) m o → CommandOutcome (Command.Plan file) m other → o ≡ other }
{
    no_fault_is_accepted();
    fault_is_the_only_one();
    a_plan_has_one_text();
}

/// A law: over given files `dump` has one outcome, which the file alone decides: it isn't there, it
/// is too large, its bytes spell a class, or they go wrong first at one place. It does nothing.
pub fn a_class_file_has_one_dump()
    ensures absent { (file : List ℕ) (m : Files) (o : Outcome) → m file ≡ None → CommandOutcome (Command.Dump file) m o → o ≡ absent }
    ensures large { (file bytes : List ℕ) (m : Files) (o : Outcome) → m file ≡ Some bytes → 2000000 < length bytes → CommandOutcome (Command.Dump file) m o → o ≡ no_class file (codes "too large") }
    ensures dumped { (file bytes : List ℕ) (m : Files) (c : Class) (o : Outcome) → m file ≡ Some bytes → IsBytes bytes → length bytes ≤ 2000000 → Spells bytes c → CommandOutcome (Command.Dump file) m o → o ≡ said 0 (dump_text c) }
    ensures refused { (file bytes : List ℕ) (m : Files) (fault : ClassFault) (o : Outcome) → m file ≡ Some bytes → IsBytes bytes → length bytes ≤ 2000000 → IsStuck bytes fault → CommandOutcome (Command.Dump file) m o → o ≡ no_class file (class_fault.fault_text fault) }
{
    one_reading();
}

/// A law: where no read, write or put failed, the answer is the status of an outcome that the words
/// and the files allow, or want of memory. It does nothing.
pub fn an_outcome_is_answered()
    ensures { (words : List (List ℕ)) (before now : Outside) (status : ℕ) → AnswersWords words before now status → CanCount before → Quiet before now → (status ≡ 8) ⊎ ((o : Outcome) × WordsOutcome words before.shelf.files o × (o.status ≡ status)) }
{}
