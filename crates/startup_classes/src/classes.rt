ghost use Rattle.std.specs.Prelude.{◌≡◌};
ghost use Rattle.startup_classes.specs.Loading.{AreKept};

use class_pool::Class;
use item_types::Seq;
use std::marker::Model;

/// The loaded classes of an application: at most 2,049 valid ones. Contracts see the list.
#[derive(Drop)]
pub struct Classes {
    list: Seq<Class>,
}

impl Model for Classes {
    ghost use Rattle.std.specs.Prelude.{List};
    ghost use Rattle.std.specs.Coded.{codes};
    ghost use Rattle.class_pool.specs.contracts.class.Class as class;
    ghost use Rattle.class_pool.specs.declared.class.Class.{Class};
    ghost use Rattle.startup_classes.specs.Loading.{AreKept};

    ghost Value = { List Class };

    ghost coded = { Prim.hlevel (codes, class.the_row.coded) };

    ghost view = { λ c. c.list };

    ghost invariant = { λ c. AreKept c.list };
}

impl Classes {
    /// The classes of a list of at most 2,049 valid ones. It takes no memory.
    pub(crate) fn of(list: Seq<Class>) -> Classes
        requires { AreKept list }
        ensures { result ≡ list }
    {
        Classes { list }
    }

    /// The loaded classes, in the order of the list. It takes no memory.
    pub fn list(&self) -> &Seq<Class>
        ensures list { result.now ≡ self.now }
        ensures kept { AreKept self.now }
    {
        &self.list
    }
}
