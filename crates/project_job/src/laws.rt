ghost use Rattle.std.specs.Prelude.{◌≡◌, ℕ, List, length, IfOk};
ghost use Rattle.ext_parser.specs.ProjectOfTheBytes.{project};
ghost use Rattle.project_job.specs.JobOf.{job_of};
ghost use Rattle.run_laws.specs.Named.{IsNamed};

use ext_draft::drafts_keep_limits;

/// A law: a project has a body for each step. It does nothing.
pub fn a_body_for_each_step()
    ensures { (bytes : List ℕ) → IfOk (project bytes) (λ p. length p.bodies ≡ length p.steps) }
{}

/// A law: the names of a project's steps tell them apart in a text. It does nothing.
pub fn steps_are_named()
    ensures { (bytes : List ℕ) → IfOk (project bytes) (λ p. IsNamed (job_of p)) }
{
    drafts_keep_limits();
}
