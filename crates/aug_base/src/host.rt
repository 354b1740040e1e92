ghost use Rattle.std.specs.Prelude.{◌≡◌, ◌≤◌, length, IfOk};
ghost use Rattle.aug_base.specs.Causes.{Rose};

use crate::{System, SystemErr};
use std::fs::{File, Metadata, OpenOptions, TryLockError};
use std::io::{ErrorKind, Read, Write};
use std::os::unix::fs::MetadataExt;
use std::rt::Files;
use std::{fs, io};

/// The system's own calls. It tells nothing of what the files hold.
///
/// It is an edge of the product: that the system does what it is asked is taken on trust.
#[derive(Drop)]
pub struct Host<R: Files<File = File>> {
    rt: R,
    input: Option<File>,
    output: Option<File>,
    faults: u64,
}

/// Opens a file to be read. What isn't a plain file is refused before it is opened, since a pipe
/// or a device may keep whoever opens it waiting without end.
fn open_plain<R: Files<File = File>>(rt: &R, name: &str) -> io::Result<File> {
    if !fs::metadata(rt, name)?.is_file() {
        return Err(io::Error::from(ErrorKind::InvalidInput));
    }
    let file = File::open(rt, name)?;
    if !file.metadata()?.is_file() {
        return Err(io::Error::from(ErrorKind::InvalidInput));
    }
    Ok(file)
}

fn is_same(one: &Metadata, other: &Metadata) -> bool {
    one.dev() == other.dev() && one.ino() == other.ino()
}

/// Whether the file still has the name.
fn has_name<R: Files<File = File>>(rt: &R, file: &File, name: &str) -> io::Result<bool> {
    let opened = file.metadata()?;
    let named = fs::symlink_metadata(rt, name)?;
    Ok(is_same(&opened, &named))
}

/// A new file, locked; none where another run has taken it over since. Where the system has no
/// locks, nothing is taken over, so that none is needed.
fn make<R: Files<File = File>>(rt: &R, name: &str) -> io::Result<Option<File>> {
    let file = File::create_new(rt, name)?;
    if let Err(TryLockError::WouldBlock) = file.try_lock() {
        return Ok(None);
    }
    if has_name(rt, &file, name)? {
        Ok(Some(file))
    } else {
        Ok(None)
    }
}

/// What a run that was stopped has left behind, locked and empty; none where it is no plain file,
/// or one that another run has locked.
fn take_over<R: Files<File = File>>(rt: &R, name: &str) -> io::Result<Option<File>> {
    if !fs::symlink_metadata(rt, name)?.is_file() {
        return Ok(None);
    }
    let file = OpenOptions::new().write(true).open(rt, name)?;
    if file.try_lock().is_err() || !has_name(rt, &file, name)? {
        return Ok(None);
    }
    file.set_len(0)?;
    Ok(Some(file))
}

/// A file under this name that is this run's alone; none where it is another's.
fn claim<R: Files<File = File>>(rt: &R, name: &str) -> io::Result<Option<File>> {
    match make(rt, name) {
        Ok(made) => Ok(made),
        Err(error) => {
            if error.kind() != ErrorKind::AlreadyExists {
                return Err(error);
            }
            match take_over(rt, name) {
                Ok(taken) => Ok(taken),
                Err(_) => Ok(None),
            }
        }
    }
}

/// Counts a call that refused.
fn counted(faults: &mut u64, error: &io::Error) -> SystemErr
    ensures later { faults.old ≤ faults.new }
    ensures rose { Rose faults.old faults.new }
{
    *faults = faults.saturating_add(1);
    if error.kind() == ErrorKind::Interrupted {
        SystemErr::Interrupted
    } else {
        SystemErr::Failed
    }
}

fn not_open() -> io::Error {
    io::Error::from(ErrorKind::InvalidInput)
}

fn read_once(input: &mut Option<File>, buffer: &mut [u8]) -> io::Result<usize>
    ensures { IfOk result (λ n. n ≤ length buffer.new) }
{
    match input {
        Some(file) => file.read(buffer),
        None => Err(not_open()),
    }
}

/// One write; a write that takes nothing of bytes that there are has failed.
fn append_once(output: &mut Option<File>, piece: &[u8]) -> io::Result<usize>
    ensures within { IfOk result (λ n. n ≤ length piece.now) }
    ensures some { IfOk result (λ n. n ≡ 0 → length piece.now ≡ 0) }
{
    let Some(file) = output else {
        return Err(not_open());
    };
    let count = file.write(piece)?;
    if count == 0 && !piece.is_empty() {
        return Err(io::Error::from(ErrorKind::WriteZero));
    }
    Ok(count)
}

fn sync_once(output: &Option<File>) -> io::Result<()> {
    match output {
        Some(file) => file.sync_all(),
        None => Err(not_open()),
    }
}

impl<R: Files<File = File>> Host<R> {
    ghost use Rattle.std.specs.Prelude.{◌≡◌, None};
    ghost use Rattle.aug_base.specs.Edges.{host_disk};

    /// The files that the runtime reaches; none is open, and no fault is counted.
    pub fn new(rt: R) -> Host<R>
        ensures { host_disk result ≡ record { faults = 0; files = None; left = None } }
    {
        Host {
            rt,
            input: None,
            output: None,
            faults: 0,
        }
    }
}

impl<R: Files<File = File>> System for Host<R> {
    ghost use Rattle.aug_base.specs.Edges.{host_disk};

    ghost state = { host_disk };

    fn open(&mut self, name: &str) -> Result<(), SystemErr> {
        match open_plain(&self.rt, name) {
            Ok(file) => {
                self.input = Some(file);
                Ok(())
            }
            Err(error) => Err(counted(&mut self.faults, &error)),
        }
    }

    fn read(&mut self, buffer: &mut [u8]) -> Result<usize, SystemErr> {
        match read_once(&mut self.input, buffer) {
            Ok(count) => Ok(count),
            Err(error) => Err(counted(&mut self.faults, &error)),
        }
    }

    fn make_folders(&mut self, folder: &str) -> Result<(), SystemErr> {
        match fs::create_dir_all(&self.rt, folder) {
            Ok(()) => Ok(()),
            Err(error) => Err(counted(&mut self.faults, &error)),
        }
    }

    /// What a run that was stopped has left under the name is taken over. The file stays locked
    /// until it is closed, so that no other run takes it over in turn.
    fn create(&mut self, name: &str) -> Result<(), SystemErr> {
        match claim(&self.rt, name) {
            Ok(Some(file)) => {
                self.output = Some(file);
                Ok(())
            }
            Ok(None) => {
                self.faults = self.faults.saturating_add(1);
                Err(SystemErr::Held)
            }
            Err(error) => Err(counted(&mut self.faults, &error)),
        }
    }

    fn append(&mut self, _name: &str, piece: &[u8]) -> Result<usize, SystemErr> {
        match append_once(&mut self.output, piece) {
            Ok(count) => Ok(count),
            Err(error) => Err(counted(&mut self.faults, &error)),
        }
    }

    fn sync(&mut self) -> Result<(), SystemErr> {
        match sync_once(&self.output) {
            Ok(()) => Ok(()),
            Err(error) => Err(counted(&mut self.faults, &error)),
        }
    }

    fn rename(&mut self, from: &str, to: &str) -> Result<(), SystemErr> {
        match fs::rename(&self.rt, from, to) {
            Ok(()) => {
                self.output = None;
                Ok(())
            }
            Err(error) => Err(counted(&mut self.faults, &error)),
        }
    }

    fn remove(&mut self, name: &str) -> Result<(), SystemErr> {
        let removed = fs::remove_file(&self.rt, name);
        self.output = None;
        match removed {
            Ok(()) => Ok(()),
            Err(error) => Err(counted(&mut self.faults, &error)),
        }
    }
}
