ghost use Rattle.std.specs.Prelude.{◌≡◌};

use item_types::Names;
use std::marker::Model;

/// What a method stands in: the declared names, its recorder, the object that it is called on, and
/// how many turns may be spent in all.
#[derive(Drop)]
pub struct Setting<'a> {
    pub names: &'a Names,
    pub recorder: u32,
    pub me: u32,
    pub turns: u64,
}

impl<'a> Model for Setting<'a> {
    ghost use Rattle.startup_rules.specs.Methods.{Setting as Stands};

    ghost Value = { Stands };

    ghost view = { λ c. record { within = record { names = c.names.now; recorder = c.recorder; turns = c.turns }; me = c.me } };
}

impl<'a> Setting<'a> {
    /// The declared names.
    pub fn names(&self) -> &Names
        ensures { result.now ≡ self.now.within.names }
    {
        self.names
    }

    /// The recorder's number.
    pub fn recorder(&self) -> u32
        ensures { result ≡ self.now.within.recorder }
    {
        self.recorder
    }

    /// The object that the method is called on.
    pub fn me(&self) -> u32
        ensures { result ≡ self.now.me }
    {
        self.me
    }

    /// How many turns may be spent in all.
    pub fn turns(&self) -> u64
        ensures { result ≡ self.now.within.turns }
    {
        self.turns
    }
}
