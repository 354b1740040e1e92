ghost use Rattle.std.specs.Prelude.{◌≡◌, ◌≤◌, ◌<◌, [], length, take, option_map, string_bytes, IfOk, OnOk, OnErr, IfErr, IfSome, IsNone, IsTrue, false};
ghost use Rattle.aug_base.specs.Causes.{Rose};
ghost use Rattle.aug_base.specs.Files.{with_file};
ghost use Rattle.aug_base.specs.Systems.{IsPart, OthersStay, Replaced, StaysBut, renamed, with_more};

use crate::reading::Fault;
use crate::{System, SystemErr};
use std::alloc::Global;
use std::path::Path;

/// Puts the first bytes of the piece at the end of the part, again where a signal broke in, and
/// says how many; none where a call refused.
fn append_some<S: System>(system: &mut S, part: &str, piece: &[u8]) -> Option<usize>
    ensures within { IfSome result (λ n. n ≤ length piece.now) }
    ensures some { IfSome result (λ n. n ≡ 0 → length piece.now ≡ 0) }
    ensures later { (S.state system.old).faults ≤ (S.state system.new).faults }
    ensures ok { IfSome result (λ n. (S.state system.new).files ≡ option_map (with_more part.now (take n piece.now)) (S.state system.old).files) }
    ensures err { IsNone result → (S.state system.new).files ≡ (S.state system.old).files }
    ensures failed { IsNone result → Rose (S.state system.old).faults (S.state system.new).faults }
{
    for _ in 0..u64::MAX {
        match system.append(part, piece) {
            Ok(count) => return Some(count),
            Err(SystemErr::Interrupted) => {}
            Err(_) => return None,
        }
    }
    system.append(part, piece).ok()
}

/// Puts all the bytes at the end of the part.
fn fill<S: System>(system: &mut S, part: &str, bytes: &[u8]) -> Result<(), Fault>
    ensures later { (S.state system.old).faults ≤ (S.state system.new).faults }
    ensures ok { OnOk result ((S.state system.new).files ≡ option_map (with_more part.now bytes.now) (S.state system.old).files) }
    ensures err { OnErr result (OthersStay part.now (S.state system.old).files (S.state system.new).files) }
    ensures failed { OnErr result (Rose (S.state system.old).faults (S.state system.new).faults) }
{
    let mut done = 0;
    while done < bytes.len() {
        match append_some(system, part, &bytes[done..]) {
            Some(count) => done += count,
            None => return Err(Fault::Failed),
        }
    }
    Ok(())
}

/// Fills the part, has it outlast the system, and gives it the file's name. It answers whether
/// that was done.
fn fill_and_rename<S: System>(system: &mut S, part: &str, name: &str, bytes: &[u8]) -> bool
    ensures later { (S.state system.old).faults ≤ (S.state system.new).faults }
    ensures done { IsTrue result → (S.state system.new).files ≡ option_map (λ m. renamed part.now name.now (with_more part.now bytes.now m)) (S.state system.old).files }
    ensures not_done { result ≡ false → OthersStay part.now (S.state system.old).files (S.state system.new).files }
    ensures failed { result ≡ false → Rose (S.state system.old).faults (S.state system.new).faults }
{
    if fill(system, part, bytes).is_err() {
        return false;
    }
    if system.sync().is_err() {
        return false;
    }
    system.rename(part, name).is_ok()
}

/// Replaces the file by the part, once it has the bytes. Where that fails, the part is taken away.
fn replace_by<S: System>(system: &mut S, part: &str, name: &str, bytes: &[u8]) -> Result<(), Fault>
    ensures later { (S.state system.old).faults ≤ (S.state system.new).faults }
    ensures ok { OnOk result ((S.state system.new).files ≡ option_map (λ m. renamed part.now name.now (with_more part.now bytes.now m)) (S.state system.old).files) }
    ensures err { OnErr result (OthersStay part.now (S.state system.old).files (S.state system.new).files) }
    ensures failed { OnErr result (Rose (S.state system.old).faults (S.state system.new).faults) }
{
    if fill_and_rename(system, part, name, bytes) {
        return Ok(());
    }
    let _ = system.remove(part);
    Err(Fault::Failed)
}

/// A new, empty part of a file, under a name that nobody else holds. There is always one more name.
fn new_part<S: System>(system: &mut S, alloc: Global, name: &str) -> Result<String, Fault>
    ensures later { (S.state system.old).faults ≤ (S.state system.new).faults }
    ensures part { IfOk result (λ part. IsPart name.now (string_bytes part)) }
    ensures empty { IfOk result (λ part. (S.state system.new).files ≡ option_map (with_file (string_bytes part, [])) (S.state system.old).files) }
    ensures err { OnErr result ((S.state system.new).files ≡ (S.state system.old).files) }
    ensures failed { IfErr result (λ fault. fault ≡ Fault.Failed → Rose (S.state system.old).faults (S.state system.new).faults) }
{
    let mut number = 0u64;
    while number < u64::MAX {
        let part = match format!(in alloc; "{name}.{number}.part") {
            Ok(part) => part,
            Err(_) => return Err(Fault::Memory),
        };
        match system.create(part.as_str()) {
            Ok(()) => return Ok(part),
            Err(SystemErr::Held) => number += 1,
            Err(_) => return Err(Fault::Failed),
        }
    }
    Err(Fault::Failed)
}

/// Makes the folders of a file, where they are missing. It answers whether they are there.
fn has_folder<S: System>(system: &mut S, name: &str) -> bool
    ensures later { (S.state system.old).faults ≤ (S.state system.new).faults }
    ensures files { (S.state system.new).files ≡ (S.state system.old).files }
    ensures failed { result ≡ false → Rose (S.state system.old).faults (S.state system.new).faults }
{
    match Path::new(name).parent() {
        Some(folder) => system.make_folders(folder.as_str()).is_ok(),
        None => true,
    }
}

/// Replaces a file whole, or makes it: the bytes are gathered in a part beside it, which then
/// takes its name. It makes the folders that are missing.
///
/// # Errors
/// `Failed` only where a call of the system refused; `Memory` for want of memory. The file is as
/// before.
pub fn write_file<S: System>(
    system: &mut S,
    alloc: Global,
    name: &str,
    bytes: &[u8],
) -> Result<(), Fault>
    ensures ok { OnOk result (Replaced name.now bytes.now (S.state system.old).files (S.state system.new).files) }
    ensures err { OnErr result (StaysBut name.now (S.state system.old).files (S.state system.new).files) }
    ensures failed { IfErr result (λ fault. fault ≡ Fault.Failed → Rose (S.state system.old).faults (S.state system.new).faults) }
{
    if !has_folder(system, name) {
        return Err(Fault::Failed);
    }
    match new_part(system, alloc, name) {
        Ok(part) => replace_by(system, part.as_str(), name, bytes),
        Err(fault) => Err(fault),
    }
}
