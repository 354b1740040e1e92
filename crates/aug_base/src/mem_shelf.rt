ghost use Rattle.std.specs.Prelude.{◌≡◌, ◌<◌, ◌++◌, [], ◌∷◌, OnOk, OnErr, IfOk, IfErr, option_map, vec_len, vec_capacity};
ghost use Rattle.aug_base.specs.Files.{place, with_file};
ghost use Rattle.aug_base.specs.MapOfFiles.{files_over, map_files};

use crate::{Shelf, ShelfErr};
use item_types::{Bytes, Memory, Seq, Text};
use std::alloc::Global;
use std::collections::BTreeMap;

/// A shelf in memory, for tests and for trying a command out. It tells its map, and fails at the
/// calls whose numbers are listed; reads and writes are counted together, from 0.
#[derive(Debug, Drop)]
pub struct MemShelf {
    alloc: Global,
    /// What it was made with, until a call puts it into the map.
    given: Vec<(Text, Bytes)>,
    files: BTreeMap<String, Bytes>,
    failing: Seq<u64>,
    calls: u64,
    read_faults: u64,
    write_faults: u64,
}

/// Where the first file of this name stands, or the length.
fn find(files: &[(Text, Bytes)], name: &str) -> usize
    ensures { result ≡ place name.now files.now }
{
    for (at, file) in files.iter().enumerate() {
        if name == file.0.as_str() {
            return at;
        }
    }
    files.len()
}

/// Puts a file into the map, in place of what stood under its name.
///
/// # Errors
/// Want of memory: the map stays, and the file comes back.
fn put(files: &mut BTreeMap<String, Bytes>, file: (Text, Bytes)) -> Result<(), (Text, Bytes)>
    ensures ok { OnOk result (map_files files.new ≡ with_file file (map_files files.old)) }
    ensures err { OnErr result (map_files files.new ≡ map_files files.old) }
    ensures back { IfErr result (λ back. back ≡ file) }
{
    let (name, bytes) = file;
    match files.insert(name.into_string(), bytes) {
        Ok(_) => Ok(()),
        Err(failed) => {
            let (name, bytes) = failed.value;
            Err((Text::from_string(name), bytes))
        }
    }
}

/// Puts back the file that was taken off the end.
fn put_back(given: &mut Vec<(Text, Bytes)>, file: (Text, Bytes))
    requires { vec_len given.old < vec_capacity given.old }
    ensures { given.new.items ≡ given.old.items ++ file ∷ [] }
{
    let _ = given.push(file);
}

/// Puts all that was given into the map, the last file first, so that the first of a name stays.
///
/// # Errors
/// Want of memory: the rest stays where it is.
fn settle(given: &mut Vec<(Text, Bytes)>, files: &mut BTreeMap<String, Bytes>) -> Result<(), Memory>
    ensures same { files_over given.new.items (map_files files.new) ≡ files_over given.old.items (map_files files.old) }
    ensures ok { OnOk result (given.new.items ≡ []) }
{
    while let Some(file) = given.pop() {
        if let Err(file) = put(files, file) {
            put_back(given, file);
            return Err(Memory);
        }
    }
    Ok(())
}

/// Puts a file into the map; where there is no memory for it the map stays.
fn add(files: &mut BTreeMap<String, Bytes>, file: (Text, Bytes)) -> Result<(), Memory>
    ensures ok { OnOk result (map_files files.new ≡ with_file file (map_files files.old)) }
    ensures err { OnErr result (map_files files.new ≡ map_files files.old) }
{
    if put(files, file).is_err() {
        return Err(Memory);
    }
    Ok(())
}

fn copy_of(alloc: Global, bytes: &[u8]) -> Result<Bytes, Memory>
    ensures { IfOk result (λ copy. copy ≡ bytes.now) }
{
    Ok(Seq::from_vec(Vec::from_slice(alloc, bytes)?))
}

/// What the map has under a name.
fn found<'a>(files: &'a BTreeMap<String, Bytes>, name: &str) -> Option<&'a [u8]>
    ensures { option_map (λ bytes. bytes.now) result ≡ map_files files.now name.now }
{
    match files.get(name) {
        Some(bytes) => Some(bytes.as_slice()),
        None => None,
    }
}

impl MemShelf {
    ghost use Rattle.std.specs.Prelude.{Some};
    ghost use Rattle.aug_base.specs.Fakes.{mem_files, mem_shelved, mem_failing, mem_calls};
    ghost use Rattle.aug_base.specs.Files.{files_of};

    /// A shelf with these files, the first of a name before the others, and no fault is counted.
    /// It takes no memory.
    pub fn new(alloc: Global, files: Seq<(Text, Bytes)>, failing: Seq<u64>) -> MemShelf
        ensures state { mem_shelved result ≡ record { read_faults = 0; write_faults = 0; files = Some (files_of files) } }
        ensures failing { mem_failing result ≡ failing }
        ensures calls { mem_calls result ≡ 0 }
    {
        MemShelf {
            alloc,
            given: files.into_vec(),
            files: BTreeMap::new(alloc),
            failing,
            calls: 0,
            read_faults: 0,
            write_faults: 0,
        }
    }

    /// A file's bytes; None exactly where the name isn't there. It takes no memory, and counts as
    /// no call.
    pub fn file(&self, name: &str) -> Option<&[u8]>
        ensures { option_map (λ bytes. bytes.now) result ≡ mem_files self.now name.now }
    {
        let given = self.given.as_slice();
        let at = find(given, name);
        if at < given.len() {
            Some(given[at].1.as_slice())
        } else {
            found(&self.files, name)
        }
    }
}

/// Writes a file into the map.
fn write_in(
    alloc: Global,
    given: &mut Vec<(Text, Bytes)>,
    files: &mut BTreeMap<String, Bytes>,
    name: &str,
    bytes: &[u8],
) -> Result<(), Memory>
    ensures ok { OnOk result (files_over given.new.items (map_files files.new) ≡ with_file (name.now, bytes.now) (files_over given.old.items (map_files files.old))) }
    ensures err { OnErr result (files_over given.new.items (map_files files.new) ≡ files_over given.old.items (map_files files.old)) }
{
    settle(given, files)?;
    let file = (Text::of(alloc, name)?, copy_of(alloc, bytes)?);
    add(files, file)
}

impl Shelf for MemShelf {
    ghost use Rattle.std.specs.Prelude.{◌↔◌, Contains, Err, IfErr};
    ghost use Rattle.aug_base.specs.Causes.{Ends, next};
    ghost use Rattle.aug_base.specs.Fakes.{mem_shelved, mem_failing, mem_calls};
    ghost use Rattle.aug_base.specs.Fakes.{read_failed, write_failed};
    ghost use Rattle.aug_base.specs.Shelves.{Reads, Writes};

    ghost state = { mem_shelved };

    /// Fails exactly at the listed calls. Any other read is of the file, or `Absent`, or answers
    /// `Memory` and has changed nothing.
    fn read(&mut self, alloc: Global, name: &str, limit: usize) -> Result<Bytes, ShelfErr>
        ensures reads { Reads name.now limit (mem_shelved self.old) (mem_shelved self.new) result }
        ensures ends { Ends (mem_shelved self.old).read_faults (mem_shelved self.new).read_faults }
        ensures listed { (result ≡ Err ShelfErr.Failed) ↔ Contains (mem_failing self.old) (mem_calls self.old) }
        ensures failed { IfErr result (λ err. err ≡ ShelfErr.Failed → mem_shelved self.new ≡ read_failed (mem_shelved self.old)) }
        ensures memory { IfErr result (λ err. err ≡ ShelfErr.Memory → mem_shelved self.new ≡ mem_shelved self.old) }
        ensures failing { mem_failing self.new ≡ mem_failing self.old }
        ensures calls { mem_calls self.new ≡ next (mem_calls self.old) }
    {
        let number = self.calls;
        self.calls = number.saturating_add(1);
        if self.failing.as_slice().contains(&number) {
            self.read_faults = self.read_faults.saturating_add(1);
            return Err(ShelfErr::Failed);
        }
        if settle(&mut self.given, &mut self.files).is_err() {
            return Err(ShelfErr::Memory);
        }
        match self.file(name) {
            Some(bytes) => {
                let count = limit.min(bytes.len());
                match copy_of(alloc, &bytes[..count]) {
                    Ok(bytes) => Ok(bytes),
                    Err(_) => Err(ShelfErr::Memory),
                }
            }
            None => Err(ShelfErr::Absent),
        }
    }

    /// Fails exactly at the listed calls, and then leaves the files as they were. Any other write
    /// is done, or answers `Memory` and has changed nothing.
    fn write(&mut self, name: &str, bytes: &[u8]) -> Result<(), ShelfErr>
        ensures writes { Writes name.now bytes.now (mem_shelved self.old) (mem_shelved self.new) result }
        ensures ends { Ends (mem_shelved self.old).write_faults (mem_shelved self.new).write_faults }
        ensures listed { (result ≡ Err ShelfErr.Failed) ↔ Contains (mem_failing self.old) (mem_calls self.old) }
        ensures failed { IfErr result (λ err. err ≡ ShelfErr.Failed → mem_shelved self.new ≡ write_failed (mem_shelved self.old)) }
        ensures memory { IfErr result (λ err. err ≡ ShelfErr.Memory → mem_shelved self.new ≡ mem_shelved self.old) }
        ensures failing { mem_failing self.new ≡ mem_failing self.old }
        ensures calls { mem_calls self.new ≡ next (mem_calls self.old) }
    {
        let number = self.calls;
        self.calls = number.saturating_add(1);
        if self.failing.as_slice().contains(&number) {
            self.write_faults = self.write_faults.saturating_add(1);
            return Err(ShelfErr::Failed);
        }
        match write_in(self.alloc, &mut self.given, &mut self.files, name, bytes) {
            Ok(()) => Ok(()),
            Err(_) => Err(ShelfErr::Memory),
        }
    }
}
