ghost use Rattle.std.specs.Prelude.{[]};
ghost use Rattle.aug_base.specs.Files.{with_file};
ghost use Rattle.aug_base.specs.Sinks.{Taken};
ghost use Rattle.aug_base.specs.Systems.{Disk, Opens, Gives, Changes, Stays, AppendsSome, Streams, without, renamed};

/// Why a call of the system refused.
#[derive(Debug, Drop)]
pub enum SystemErr {
    /// A signal broke into it.
    Interrupted,
    /// Somebody else holds the name.
    Held,
    /// Anything else.
    Failed,
}

/// The calls of a system that real files are read and written by. This project's own.
///
/// One file at a time is open to be read, and one to be written. A system counts the calls that
/// refused; it may tell what each name holds, and contracts then say what a call makes of that.
pub trait System {
    ghost state: { Self → Disk };

    /// Opens a file, to be read from its first byte on.
    fn open(&mut self, name: &str) -> Result<(), SystemErr>
        ensures { Opens name.now (state self.old) (state self.new) result };

    /// The next bytes of the file that is read, at most as many as there is room for, and how many
    /// there are: none only at its end.
    fn read(&mut self, buffer: &mut [u8]) -> Result<usize, SystemErr>
        ensures { Gives buffer.new (state self.old) (state self.new) result };

    /// Makes a folder and those above it, where they are missing.
    fn make_folders(&mut self, folder: &str) -> Result<(), SystemErr>
        ensures { Stays (state self.old) (state self.new) result };

    /// Opens an empty file to be written, under a name that nobody else holds.
    fn create(&mut self, name: &str) -> Result<(), SystemErr>
        ensures { Changes (with_file (name.now, [])) (state self.old) (state self.new) result };

    /// Puts the first bytes of the piece at the end of the file that is written, which has this
    /// name, and says how many: none only of an empty piece.
    fn append(&mut self, name: &str, piece: &[u8]) -> Result<usize, SystemErr>
        ensures { AppendsSome name.now piece.now (state self.old) (state self.new) result };

    /// Waits until the bytes of the file that is written would outlast the system.
    fn sync(&mut self) -> Result<(), SystemErr>
        ensures { Stays (state self.old) (state self.new) result };

    /// Gives the file that is written another name, in one step, and closes it.
    fn rename(&mut self, from: &str, to: &str) -> Result<(), SystemErr>
        ensures { Changes (renamed from.now to.now) (state self.old) (state self.new) result };

    /// Closes the file that is written and takes it away.
    fn remove(&mut self, name: &str) -> Result<(), SystemErr>
        ensures { Changes (without name.now) (state self.old) (state self.new) result };
}

/// The calls by which bytes go to a stream of the system. This project's own.
pub trait Stream {
    ghost state: { Self → Taken };

    /// Takes the first bytes of the piece, and says how many: none only of an empty piece.
    fn write(&mut self, piece: &[u8]) -> Result<usize, SystemErr>
        ensures { Streams piece.now (state self.old) (state self.new) result };
}
