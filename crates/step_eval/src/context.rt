ghost use Rattle.std.specs.Prelude.{◌≡◌};
ghost use Rattle.step_eval.specs.Taken as spec;

use item_types::{Names, Phase, StepDecl, Value};
use std::marker::Model;
use step_state::Inputs;

/// What an evaluation is given: the declared names, the step's declaration and number, and what
/// the step took.
#[derive(Drop)]
pub struct Context<'a> {
    pub names: &'a Names,
    pub decl: &'a StepDecl,
    pub step: u32,
    pub inputs: &'a Inputs,
}

impl<'a> Model for Context<'a> {
    ghost use Rattle.item_types.specs.contracts.value.Value as value;
    ghost use Rattle.std.specs.Coded.{codes};
    ghost use Rattle.step_eval.specs.Setting.{Setting};

    ghost Value = { Setting };

    ghost coded = { Prim.hlevel (codes, value.the_row.coded) };

    ghost view = { λ c. record { names = c.names.now; decl = c.decl.now; step = c.step; lists = c.inputs.now.lists } };
}

impl<'a> Context<'a> {
    /// The declared names.
    pub fn names(&self) -> &Names
        ensures { result.now ≡ self.now.names }
    {
        self.names
    }

    /// The step's declaration.
    pub fn decl(&self) -> &StepDecl
        ensures { result.now ≡ self.now.decl }
    {
        self.decl
    }

    /// The step's number.
    pub fn step(&self) -> u32
        ensures { result ≡ self.now.step }
    {
        self.step
    }

    /// When the step's calls are played.
    pub fn phase(&self) -> Option<Phase>
        ensures { result ≡ self.now.decl.phase }
    {
        self.decl.phase
    }

    /// What was taken of the item.
    #[tactic(auto, unfolding(crate::specs::Taken::taken))]
    pub fn taken(&self, item: u32) -> &[Value]
        ensures { result.now ≡ spec.taken self.now item }
    {
        match self.consumption(item) {
            Some(place) => self.list_at(place),
            None => &[],
        }
    }

    fn consumption(&self, item: u32) -> Option<usize>
        ensures { result ≡ spec.consumption self.now.decl item }
    {
        self.decl
            .consumes
            .as_slice()
            .iter()
            .position(|c| c.item == item)
    }

    /// What was taken for the consumption at that place.
    pub fn list_at(&self, place: usize) -> &[Value]
        ensures { result.now ≡ spec.list_at self.now.lists place }
    {
        match self.inputs.lists.as_slice().get(place) {
            Some(values) => values.as_slice(),
            None => &[],
        }
    }
}
