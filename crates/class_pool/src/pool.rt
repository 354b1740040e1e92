ghost use Rattle.std.specs.Prelude.{◌≡◌, ◌≤◌, ◌<◌, ◌++◌, [], ◌∷◌, Some, None, true, length, take, IfOk, IfSome, OnOk, OnErr};
ghost use Rattle.std.specs.Option.{option_copied};
ghost use Rattle.class_pool.specs.declared.entry.Entry.TheVariants as entry;
ghost use Rattle.class_pool.specs.Entries as spec;
ghost use Rattle.class_pool.specs.Index.{key, IsSound, IsBelow, verified};
ghost use Rattle.class_pool.specs.Showing.{least, shows, Holds, first_from};
ghost use Rattle.class_pool.specs.Enter.{put, put_two, Enters, Steps};

use crate::entry::Entry;
use crate::pool_err::PoolErr;
use crate::shown::{Shown, entry_at, holds, key_of, shows};
use std::alloc::{AllocError, Global};
use std::collections::BTreeMap;
use std::marker::Model;

/// The constant pool of a class file (JVMS 4.4). Contracts see it as the list of its entries from
/// index 1 on; a `Gap` follows each `Long` and `Double`.
#[derive(Drop)]
pub struct Pool {
    alloc: Global,
    entries: Vec<Entry>,
    index: BTreeMap<Vec<u8>, u16>,
    indexed: bool,
}

impl Model for Pool {
    ghost use Rattle.std.specs.Prelude.{List};
    ghost use Rattle.class_pool.specs.declared.entry.Entry.{Entry};
    ghost use Rattle.class_pool.specs.Index.{IsKept, entries_of};

    ghost Value = { List Entry };

    ghost view = { entries_of };

    ghost invariant = { IsKept };
}

impl Pool {
    /// The pool without entries. It takes no memory.
    pub fn new(alloc: Global) -> Pool
        ensures { result ≡ [] }
    {
        Pool {
            alloc,
            entries: Vec::new(alloc),
            index: BTreeMap::new(alloc),
            indexed: true,
        }
    }

    /// The pool of these entries, as they stood in a file. It takes no memory.
    pub fn from_entries(alloc: Global, entries: Vec<Entry>) -> Pool
        requires { length entries.items < 65535 }
        ensures { result ≡ entries.items }
    {
        Pool {
            alloc,
            entries,
            index: BTreeMap::new(alloc),
            indexed: false,
        }
    }

    /// The entries in order, the first of them at index 1. It takes no memory.
    pub fn entries(&self) -> &[Entry]
        ensures { result.now ≡ self.now }
    {
        self.entries.as_slice()
    }

    /// The entry at an index: none at 0 and past the end. It takes no memory.
    pub fn entry(&self, index: u16) -> Option<&Entry>
        ensures { option_copied result ≡ spec.entry_at self.now index }
    {
        entry_at(self.entries.as_slice(), index)
    }

    /// What allocates here.
    pub fn alloc(&self) -> Global {
        self.alloc
    }

    /// The least index that holds an entry which shows this.
    pub(crate) fn find(&self, what: &Shown) -> Result<Option<u16>, AllocError>
        ensures least { IfOk result (λ o. o ≡ least what.now self.now) }
        ensures holds { IfOk result (λ o. IfSome o (λ i. Holds self.now i what.now)) }
    {
        if !self.indexed {
            return Ok(scan(self.entries.as_slice(), what));
        }
        let key = key_of(self.alloc, what)?;
        let hint = self.index.get(key.as_slice()).copied();
        Ok(verified(self.entries.as_slice(), what, hint))
    }

    /// The entry, which shows this, at the next index. In a pool from a file an earlier entry may
    /// show the same by now, since the parts that were just entered can have been what it lacked.
    pub(crate) fn put(&mut self, entry: Entry, what: &Shown) -> Result<u16, PoolErr>
        requires { shows self.old what.now entry ≡ true }
        ensures does { Enters (put entry self.old) result self.old self.new }
        ensures holds { IfOk result (λ i. Holds self.new i what.now) }
        ensures stays { take (length self.old) self.new ≡ self.old }
    {
        let len = self.entries.len();
        if 65533 < len {
            return Err(PoolErr::Full);
        }
        let key = key_of(self.alloc, what)?;
        let known = self.find(what)?;
        self.entries.push(entry)?;
        let index = len as u16 + 1;
        if known.is_some() {
            return Ok(index);
        }
        match self.index.insert(key, index) {
            Ok(_) => Ok(index),
            Err(_) => {
                self.entries.truncate(len);
                Err(PoolErr::Memory)
            }
        }
    }

    /// The gap behind an entry of two indices.
    fn put_gap(&mut self) -> Result<(), AllocError>
        requires { length self.old < 65534 }
        ensures ok { OnOk result (self.new ≡ self.old ++ entry.Gap ∷ []) }
        ensures err { OnErr result (self.new ≡ self.old) }
    {
        self.entries.push(Entry::Gap)?;
        Ok(())
    }

    /// The entry, which shows this, and a gap at the next two indices.
    pub(crate) fn put_two(&mut self, entry: Entry, what: &Shown) -> Result<u16, PoolErr>
        requires { shows self.old what.now entry ≡ true }
        ensures does { Enters (put_two entry self.old) result self.old self.new }
        ensures holds { IfOk result (λ i. Holds self.new i what.now) }
        ensures stays { take (length self.old) self.new ≡ self.old }
    {
        let len = self.entries.len();
        if 65532 < len {
            return Err(PoolErr::Full);
        }
        let index = self.put(entry, what)?;
        match self.put_gap() {
            Ok(()) => Ok(index),
            Err(_) => {
                self.cut(len);
                Err(PoolErr::Memory)
            }
        }
    }

    /// The first so many entries alone.
    pub(crate) fn cut(&mut self, len: usize)
        requires { len ≤ length self.old }
        ensures { self.new ≡ take len self.old }
    {
        self.entries.truncate(len);
    }
}

/// The hint, where its entry shows what is looked for.
fn verified(pool: &[Entry], what: &Shown, hint: Option<u16>) -> Option<u16>
    ensures { result ≡ verified pool.now what.now hint }
{
    match hint {
        Some(index) => {
            if holds(pool, index, what) {
                Some(index)
            } else {
                None
            }
        }
        None => None,
    }
}

/// The same without an index.
fn scan(pool: &[Entry], what: &Shown) -> Option<u16>
    requires { length pool.now < 65535 }
    ensures { result ≡ least what.now pool.now }
{
    let mut index: u16 = 1;
    for entry in pool {
        if shows(pool, what, entry) {
            return Some(index);
        }
        index += 1;
    }
    None
}
