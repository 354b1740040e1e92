ghost use Rattle.std.specs.Prelude.{◌≡◌, ◌+◌};

use std::marker::Model;
use std::sync::ledger::{Blank, Book, Ledger, Share};

/// What calls cost, in steps of their work: contracts see how many were taken so far. Nothing of it
/// is left in the program: it has no bytes, and taking a step has no code.
#[derive(Drop)]
pub struct Steps<L: Ledger> {
    taken: Book<L>,
    pen: Share<L>,
}

impl<L: Ledger> Model for Steps<L> {
    ghost use Rattle.std.specs.Prelude.{ℕ, ◌<◌};

    ghost Value = { ℕ };

    ghost view = { λ s. s.taken.total };

    ghost invariant = { λ s. 0 < s.pen.parts };
}

impl<L: Ledger> Steps<L> {
    ghost use Rattle.std.specs.Prelude.{◌≡◌, ◌<◌};

    /// None taken yet, written into this ledger.
    pub fn on(ledger: Blank) -> Steps<L>
        requires name { ledger.name ≡ L.name }
        requires parts { ledger.parts ≡ L.parts }
        requires some { 0 < L.parts }
        ensures { result ≡ 0 }
    {
        let (taken, pen) = ledger.open();
        Steps { taken, pen }
    }

    /// Takes one more.
    pub fn take(&mut self)
        ensures { self.new ≡ self.old + 1 }
    {
        self.taken.add(&mut self.pen, 1);
    }
}
