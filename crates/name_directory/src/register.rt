ghost use Rattle.std.specs.Prelude.{◌≡◌, IfOk, map};
ghost use Rattle.name_directory.specs.Numbers.{AreMethods, IsRegister};

use crate::places::places_of;
use item_types::{Memory, Names, RecorderDecl, Seq};
use std::alloc::Global;
use std::collections::HashMap;

/// Maps from the names of all that is declared to their places. A [`crate::Directory`] looks names
/// up in it.
#[derive(Drop)]
pub struct Register {
    pub(crate) items: HashMap<String, usize>,
    pub(crate) beans: HashMap<String, usize>,
    pub(crate) recorders: HashMap<String, usize>,
    /// For each recorder, those of its methods.
    pub(crate) methods: Seq<HashMap<String, usize>>,
}

/// The places of each recorder's methods.
fn places_of_methods(
    alloc: Global,
    recorders: &[RecorderDecl],
) -> Result<Seq<HashMap<String, usize>>, Memory>
    ensures { IfOk result (λ all. AreMethods all recorders.now) }
{
    let mut found = Seq::new(alloc);
    for recorder in recorders {
        found.push(places_of(alloc, recorder.methods.as_slice())?)?;
    }
    Ok(found)
}

impl Register {
    /// The register of all that is declared.
    ///
    /// # Errors
    /// `Memory` for want of memory.
    pub fn new(alloc: Global, names: &Names) -> Result<Register, Memory>
        ensures { IfOk result (λ register. IsRegister names.now register) }
    {
        let items = places_of(alloc, names.items.as_slice())?;
        let beans = places_of(alloc, names.beans.as_slice())?;
        let recorders = places_of(alloc, names.recorders.as_slice())?;
        let methods = places_of_methods(alloc, names.recorders.as_slice())?;
        Ok(Register {
            items,
            beans,
            recorders,
            methods,
        })
    }
}
