ghost use Rattle.std.specs.Prelude.{◌≡◌};
ghost use Rattle.startup_classes.specs.declared.load_fault.LoadFault.TheVariants.{Memory};

use class_pool::ClassFault;

/// Why a list of files isn't that of an application: the first fault in the order of the list.
/// Each `index` is a place in the list, from 0.
#[derive(Clone, Copy, Debug)]
pub enum LoadFault {
    /// The bytes are no class (JVMS 4).
    Class { index: u32, fault: ClassFault },
    /// The file holds another class than the listed one, or the name begins with neither `app/` nor
    /// `steps/`.
    Name { index: u32 },
    /// The name was listed before.
    Twice { index: u32 },
    /// A class other than `app/Main` has a method `<clinit>`.
    Initializer { index: u32 },
    /// `app/Main` isn't listed.
    NoMain,
    /// Want of memory. It says nothing of the files.
    Memory,
}

impl From<item_types::Memory> for LoadFault {
    ghost from_gives = { λ _ e. e ≡ Memory };

    fn from(_error: item_types::Memory) -> LoadFault {
        LoadFault::Memory
    }
}
