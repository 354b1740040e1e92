ghost use Rattle.std.specs.Prelude.{◌≡◌, ◌≤◌, ◌<◌, ◌^◌, List, ℕ, length, Ok, Err, None, IfOk};
ghost use Rattle.std.specs.Result.{IfErr};
ghost use Rattle.std.specs.Option.{option_copied};
ghost use Rattle.name_index.specs.Place.{has};
ghost use Rattle.class_pool.specs.Entries.{entry_at};
ghost use Rattle.class_pool.specs.Showing.{is_text, is_class_of};
ghost use Rattle.class_pool.specs.declared.class.Class.{Class};
ghost use Rattle.class_grammar.specs.Layout.{IsBytes};
ghost use Rattle.class_grammar.specs.Valid.{IsValid};
ghost use Rattle.startup_classes.specs.declared.load_fault.LoadFault.{LoadFault};
ghost use Rattle.startup_classes.specs.declared.load_fault.LoadFault.TheVariants.{Memory};
ghost use Rattle.startup_classes.specs.Loading as spec;

use crate::classes::Classes;
use crate::load_fault::LoadFault;
use class_grammar::one_reading;
use class_pool::{CLASS_LIMIT, Class, ClassFault, Entry, Member};
use class_reader::read_class;
use item_types::{Bytes, Seq, Text};
use name_index::Index;
use std::alloc::Global;

/// Whether the entry is this text.
fn is_text(text: &str, entry: Option<&Entry>) -> bool
    ensures { result ≡ is_text text.now (option_copied entry.entry) }
{
    match entry {
        Some(Entry::Utf8(found)) => text == found.as_str(),
        _ => false,
    }
}

fn is_class_called(class: &Class, name: &str) -> bool
    ensures { result ≡ is_class_of class.now.pool name.now (entry_at class.now.pool class.now.this) }
{
    match class.pool.entry(class.this) {
        Some(Entry::Class(n)) => is_text(name, class.pool.entry(*n)),
        _ => false,
    }
}

fn in_packages(name: &str) -> bool
    ensures { result ≡ spec.in_packages name.now }
{
    let name = name.as_bytes();
    name.starts_with("app/".as_bytes()) || name.starts_with("steps/".as_bytes())
}

fn is_named(name: &str, class: &Class) -> bool
    ensures { result ≡ spec.is_named name.now class.now }
{
    is_class_called(class, name) && in_packages(name)
}

fn has_initializer(class: &Class) -> bool
    ensures { result ≡ spec.has_initializer class.now }
{
    for method in class.methods.as_slice() {
        if is_text("<clinit>", class.pool.entry(method.name)) {
            return true;
        }
    }
    false
}

fn may_initialize(name: &str, class: &Class) -> bool
    ensures { result ≡ spec.may_initialize name.now class.now }
{
    name == "app/Main" || !has_initializer(class)
}

fn class_fault(index: u32, fault: ClassFault) -> LoadFault
    ensures { result ≡ spec.class_fault index fault }
{
    match fault {
        ClassFault::Memory => LoadFault::Memory,
        _ => LoadFault::Class { index, fault },
    }
}

/// The class, where it stands every check of the list that follows the reading.
fn checked(earlier: &Index<'_>, index: u32, name: &str, class: Class) -> Result<Class, LoadFault>
    ensures { result ≡ spec.checked earlier.now index name.now class }
{
    if !is_named(name, &class) {
        return Err(LoadFault::Name { index });
    }
    if earlier.place(name).is_some() {
        return Err(LoadFault::Twice { index });
    }
    if !may_initialize(name, &class) {
        return Err(LoadFault::Initializer { index });
    }
    Ok(class)
}

/// The class of one file of the list, or the first check that fails.
fn class_at(
    alloc: Global,
    earlier: &Index<'_>,
    index: u32,
    name: &str,
    bytes: &[u8],
) -> Result<Class, LoadFault>
    requires { length bytes.now ≤ CLASS_LIMIT }
    ensures class { IfOk result (λ c. spec.IsClassOf earlier.now name.now bytes.now c) }
    ensures valid { IfOk result (λ c. IsValid c) }
    ensures fault { (f : LoadFault) → result ≡ Err f → (f ≡ Memory → ⊥) → spec.IsFaultAt earlier.now index name.now bytes.now f }
    ensures whole { IfErr result (λ f. spec.HoldsNone f) }
    ensures bytes { IsBytes bytes.now }
{
    match read_class(alloc, bytes) {
        Ok(class) => checked(earlier, index, name, class),
        Err(fault) => Err(class_fault(index, fault)),
    }
}

/// The classes of all files, or the first fault at a place of the list.
fn classes_of(alloc: Global, listed: &[Text], files: &[Bytes]) -> Result<Seq<Class>, LoadFault>
    requires same { length listed.now ≡ length files.now }
    requires few { length listed.now ≤ 2049 }
    requires small { spec.first_large files.now ≡ None }
    ensures all { IfOk result (λ cs. spec.AllLoaded listed.now files.now cs) }
    ensures stops { (f : LoadFault) → result ≡ Err f → (f ≡ Memory → ⊥) → spec.Stopped listed.now files.now f }
    ensures whole { IfErr result (λ f. spec.HoldsNone f) }
{
    let mut earlier = Index::new(alloc);
    let mut found = Seq::new(alloc);
    for index in 0..listed.len() {
        let name = listed[index].as_str();
        let class = class_at(alloc, &earlier, index as u32, name, files[index].as_slice())?;
        earlier.push(name)?;
        found.push(class)?;
    }
    Ok(found)
}

fn lists(listed: &[Text], name: &str) -> bool
    ensures { result ≡ has listed.now name.now }
{
    for listed in listed {
        if name == listed.as_str() {
            return true;
        }
    }
    false
}

/// The first place of a file that has more bytes than a class may have, [`CLASS_LIMIT`].
pub fn first_large(files: &Seq<Bytes>) -> Option<usize>
    ensures { result ≡ spec.first_large files.now }
{
    let files = files.as_slice();
    for index in 0..files.len() {
        if files[index].len() > CLASS_LIMIT as usize {
            return Some(index);
        }
    }
    None
}

/// The classes of an application, whose files are given in the order of its list.
///
/// # Errors
/// For each file in order: `Class` where its bytes are no class; `Name` where it holds another class
/// than the listed one, or the name begins with neither `app/` nor `steps/`; `Twice` where the name
/// was listed before; `Initializer` where a class other than `app/Main` has a method `<clinit>`. Then
/// `NoMain` where `app/Main` isn't listed. Each comes exactly there. `Memory` for want of memory.
pub fn load(alloc: Global, listed: &Seq<Text>, files: &Seq<Bytes>) -> Result<Classes, LoadFault>
    requires same { length listed.now ≡ length files.now }
    requires few { length listed.now ≤ 2049 }
    requires small { spec.first_large files.now ≡ None }
    ensures loads { IfOk result (λ cs. spec.Loads listed.now files.now cs) }
    ensures only { (cs : List Class) → spec.Loads listed.now files.now cs → spec.Told (Ok cs) result }
    ensures refused { (f : LoadFault) → result ≡ Err f → (f ≡ Memory → ⊥) → spec.IsRefused listed.now files.now f }
    ensures first { (f : LoadFault) → spec.IsRefused listed.now files.now f → spec.Told (Err f) result }
    ensures whole { IfErr result (λ f. spec.HoldsNone f) }
{
    one_reading();
    let list = classes_of(alloc, listed.as_slice(), files.as_slice())?;
    if !lists(listed.as_slice(), "app/Main") {
        return Err(LoadFault::NoMain);
    }
    Ok(Classes::of(list))
}
