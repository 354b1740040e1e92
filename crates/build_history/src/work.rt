ghost use Rattle.std.specs.Prelude.{◌≡◌, ◌<◌, length, IfOk};
ghost use Rattle.build_history.specs.Jobs.{meaning_at};
ghost use Rattle.build_history.specs.Works.{IsMeant};

use crate::job::Job;
use item_types::Memory;
use std::alloc::Global;
use std::marker::Model;
use step_eval::{Inputs, Outcome, eval};

/// How the evaluation of the step's body ends on these inputs.
///
/// # Errors
/// `Memory` for want of memory.
#[tactic(auto, unfolding(crate::specs::Jobs::meaning_at))]
pub fn evaluate(alloc: Global, job: &Job, step: u32, inputs: &Inputs) -> Result<Outcome, Memory>
    requires { step < length job.now.plan.steps }
    ensures { IfOk result (λ o. o ≡ meaning_at job.now step inputs.now.lists) }
{
    let outcome = eval(
        alloc,
        job.names(),
        job.decl(step),
        step,
        job.body(step),
        inputs,
    )?;
    Ok(outcome)
}

/// The evaluation of a step's body on what the step took. It borrows its job, and its outcome is
/// what the body means.
#[derive(Drop)]
pub struct Work<'j> {
    job: &'j Job,
    step: u32,
    inputs: Inputs,
    outcome: Outcome,
}

impl<'j> Model for Work<'j> {
    ghost use Rattle.item_types.specs.contracts.value.Value as value;
    ghost use Rattle.syntax_tree.specs.contracts.tree.Stmt as stmt;
    ghost use Rattle.std.specs.Coded.{codes};
    ghost use Rattle.build_history.specs.Works.{Worked, IsMeant};

    ghost Value = { Worked };

    ghost coded = { Prim.hlevel (codes, value.the_row.coded, stmt.the_row.coded) };

    ghost view = { λ w. record { job = w.job.now; step = w.step; inputs = w.inputs; outcome = w.outcome } };

    ghost invariant = { λ w. IsMeant (record { job = w.job.now; step = w.step; inputs = w.inputs; outcome = w.outcome }) };
}

impl<'j> Work<'j> {
    /// Evaluates the body of the step on these inputs.
    ///
    /// # Errors
    /// `Memory` for want of memory: the inputs are given up.
    pub fn make(alloc: Global, job: &'j Job, step: u32, inputs: Inputs) -> Result<Work<'j>, Memory>
        requires { step < length job.now.plan.steps }
        ensures job { IfOk result (λ w. w.job ≡ job.now) }
        ensures step { IfOk result (λ w. w.step ≡ step) }
        ensures inputs { IfOk result (λ w. w.inputs ≡ inputs) }
        ensures outcome { IfOk result (λ w. w.outcome ≡ meaning_at job.now step inputs.lists) }
    {
        let outcome = evaluate(alloc, job, step, &inputs)?;
        Ok(Work::of(job, step, inputs, outcome))
    }

    /// The work whose outcome is known already. It takes no memory.
    pub fn of(job: &'j Job, step: u32, inputs: Inputs, outcome: Outcome) -> Work<'j>
        requires meant { IsMeant (record { job = job.now; step = step; inputs = inputs; outcome = outcome }) }
        ensures { result ≡ record { job = job.now; step = step; inputs = inputs; outcome = outcome } }
    {
        Work {
            job,
            step,
            inputs,
            outcome,
        }
    }

    /// What the step took, and how the evaluation ends. It takes no memory.
    pub fn into_parts(self) -> (Inputs, Outcome)
        ensures inputs { result.0 ≡ self.entry.inputs }
        ensures outcome { result.1 ≡ self.entry.outcome }
        ensures meant { IsMeant self.entry }
    {
        let Work {
            job: _,
            step: _,
            inputs,
            outcome,
        } = self;
        (inputs, outcome)
    }

    /// The job. It takes no memory.
    pub fn job(&self) -> &'j Job
        ensures { result.now ≡ self.now.job }
    {
        self.job
    }

    /// The step's number. It takes no memory.
    pub fn step(&self) -> u32
        ensures value { result ≡ self.now.step }
        ensures meant { IsMeant self.now }
    {
        self.step
    }

    /// What the step took. It takes no memory.
    pub fn inputs(&self) -> &Inputs
        ensures { result.now ≡ self.now.inputs }
    {
        &self.inputs
    }

    /// How the evaluation ends. It takes no memory.
    pub fn outcome(&self) -> &Outcome
        ensures value { result.now ≡ self.now.outcome }
        ensures meant { IsMeant self.now }
    {
        &self.outcome
    }
}
