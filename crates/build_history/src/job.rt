ghost use Rattle.std.specs.Prelude.{◌≡◌, ◌<◌, ◌↔◌, IsTrue, IsSome, IfSome, length, slice_get, Option, Some};
ghost use Rattle.item_types.specs.Numbered.{IsNumbered};
ghost use Rattle.chain_builder.specs.Rank.{HasRank};
ghost use Rattle.build_history.specs.Jobs.{Fit, decl_at, body_at, is_effective};

use chain_builder::Plan;
use item_types::{Names, Phase, Same, Seq, StepDecl};
use std::marker::Model;
use syntax_tree::Body;

/// What is run: the plan of an accepted chain, the declared names, and a body for each step.
#[derive(Drop)]
pub struct Job {
    plan: Plan,
    names: Names,
    bodies: Seq<Body>,
}

impl Model for Job {
    ghost use Rattle.syntax_tree.specs.contracts.tree.Stmt as stmt;
    ghost use Rattle.std.specs.Coded.{codes};
    ghost use Rattle.build_history.specs.Jobs.{JobView, Fit};

    ghost Value = { JobView };

    ghost coded = { Prim.hlevel (codes, stmt.the_row.coded) };

    ghost view = { λ j. record { plan = j.plan; names = j.names; bodies = j.bodies } };

    ghost invariant = { λ j. Fit j.plan j.names j.bodies };
}

impl Job {
    /// The job of these parts. It takes no memory.
    pub fn new(plan: Plan, names: Names, bodies: Seq<Body>) -> Job
        requires { Fit plan names bodies }
        ensures { result ≡ record { plan = plan; names = names; bodies = bodies } }
    {
        Job {
            plan,
            names,
            bodies,
        }
    }

    /// The plan of the chain. It takes no memory.
    pub fn plan(&self) -> &Plan
        ensures value { result.now ≡ self.now.plan }
        ensures fit { Fit self.now.plan self.now.names self.now.bodies }
    {
        &self.plan
    }

    /// The declared names. It takes no memory.
    pub fn names(&self) -> &Names
        ensures { result.now ≡ self.now.names }
    {
        &self.names
    }

    /// The steps' bodies, by the steps' numbers. It takes no memory.
    pub fn bodies(&self) -> &Seq<Body>
        ensures { result.now ≡ self.now.bodies }
    {
        &self.bodies
    }

    /// Whether both are equal. It takes no memory.
    pub fn same(&self, other: &Job) -> bool
        ensures { IsTrue result ↔ (self.now ≡ other.now) }
    {
        self.plan.steps().same(other.plan.steps())
            && self.plan.items().same(other.plan.items())
            && self.plan.finals().same(other.plan.finals())
            && self.names.same(&other.names)
            && self.bodies.same(&other.bodies)
    }

    /// The declaration of the step. It takes no memory.
    pub fn decl(&self, step: u32) -> &StepDecl
        requires { step < length self.now.plan.steps }
        ensures { result.now ≡ decl_at self.now step }
    {
        &self.plan.steps().as_slice()[step as usize]
    }

    /// The body of the step. It takes no memory.
    pub fn body(&self, step: u32) -> &Body
        requires { step < length self.now.plan.steps }
        ensures { result.now ≡ body_at self.now step }
    {
        &self.bodies.as_slice()[step as usize]
    }

    /// The phase of the step, if it has one; `None` for a number that is no step's. It takes no
    /// memory.
    pub fn phase(&self, step: u32) -> Option<Phase>
        ensures { result ≡ (decl_at self.now step).phase }
    {
        match self.plan.steps().as_slice().get(step as usize) {
            Some(decl) => decl.phase,
            None => None,
        }
    }

    /// Whether the step effectively produces the item. It takes no memory.
    pub fn keeps(&self, step: u32, item: u32) -> bool
        ensures { result ≡ is_effective self.now.plan.steps step item }
    {
        self.plan.effective(step, item)
    }
}
