use crate::host::Host;
use crate::reading::{Fault, read_file};
use crate::writing::write_file;
use crate::{Shelf, ShelfErr, System};
use item_types::Bytes;
use std::alloc::Global;
use std::fs::File;
use std::rt::Files;

/// Real files. A name is a path, from the folder that the program runs in. It tells nothing of
/// what the files hold.
///
/// What it makes of the system's calls is proved; the calls themselves are an edge of the product.
#[derive(Drop)]
pub struct FileShelf<S: System> {
    system: S,
    alloc: Global,
    read_faults: u64,
    write_faults: u64,
}

impl<R: Files<File = File> + AllocGlobal> FileShelf<Host<R>> {
    ghost use Rattle.std.specs.Prelude.{◌≡◌, None};
    ghost use Rattle.aug_base.specs.Edges.{file_shelved};

    /// The files that the runtime reaches, and no fault is counted. It takes no memory.
    pub fn new(rt: R) -> FileShelf<Host<R>>
        ensures { file_shelved result ≡ record { read_faults = 0; write_faults = 0; files = None } }
    {
        let alloc = rt.alloc();
        FileShelf {
            system: Host::new(rt),
            alloc,
            read_faults: 0,
            write_faults: 0,
        }
    }
}

impl<S: System> Shelf for FileShelf<S> {
    ghost use Rattle.std.specs.Prelude.{◌≡◌, IfOk, IfErr, IfSome, OnOk, OnErr};
    ghost use Rattle.aug_base.specs.Causes.{Ends, Rose};
    ghost use Rattle.aug_base.specs.Edges.{file_shelved, system_of};
    ghost use Rattle.aug_base.specs.Shelves.{Holds, Reads, Writes};
    ghost use Rattle.aug_base.specs.Systems.{Replaced, StaysBut};

    ghost state = { file_shelved };

    /// `Failed` also where there is no such file, since the map isn't told; never `Absent`.
    fn read(&mut self, alloc: Global, name: &str, limit: usize) -> Result<Bytes, ShelfErr>
        ensures reads { Reads name.now limit (file_shelved self.old) (file_shelved self.new) result }
        ensures ends { Ends (file_shelved self.old).read_faults (file_shelved self.new).read_faults }
        ensures bytes { IfOk result (λ bytes. IfSome (S.state (system_of self.old)).files (λ m. Holds m name.now limit bytes)) }
        ensures stays { (S.state (system_of self.new)).files ≡ (S.state (system_of self.old)).files }
        ensures cause { IfErr result (λ err. err ≡ ShelfErr.Failed → Rose (S.state (system_of self.old)).faults (S.state (system_of self.new)).faults) }
    {
        match read_file(&mut self.system, alloc, name, limit) {
            Ok(bytes) => Ok(bytes),
            Err(Fault::Memory) => Err(ShelfErr::Memory),
            Err(Fault::Failed) => {
                self.read_faults = self.read_faults.saturating_add(1);
                Err(ShelfErr::Failed)
            }
        }
    }

    /// Makes the folders that are missing. The bytes go to a new file in the same folder, named
    /// `NAME.0.part` or with a higher number, and the system then gives it the name in one step:
    /// whoever reads finds the old bytes or the new ones, and after a refusal the old ones.
    fn write(&mut self, name: &str, bytes: &[u8]) -> Result<(), ShelfErr>
        ensures writes { Writes name.now bytes.now (file_shelved self.old) (file_shelved self.new) result }
        ensures ends { Ends (file_shelved self.old).write_faults (file_shelved self.new).write_faults }
        ensures replaced { OnOk result (Replaced name.now bytes.now (S.state (system_of self.old)).files (S.state (system_of self.new)).files) }
        ensures stays { OnErr result (StaysBut name.now (S.state (system_of self.old)).files (S.state (system_of self.new)).files) }
        ensures cause { IfErr result (λ err. err ≡ ShelfErr.Failed → Rose (S.state (system_of self.old)).faults (S.state (system_of self.new)).faults) }
    {
        match write_file(&mut self.system, self.alloc, name, bytes) {
            Ok(()) => Ok(()),
            Err(Fault::Memory) => Err(ShelfErr::Memory),
            Err(Fault::Failed) => {
                self.write_faults = self.write_faults.saturating_add(1);
                Err(ShelfErr::Failed)
            }
        }
    }
}
