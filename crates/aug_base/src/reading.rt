ghost use Rattle.std.specs.Prelude.{◌≡◌, ◌≤◌, ◌<◌, ◌++◌, [], length, take, option_map, IfOk, IfErr, IfSome, IsNone};
ghost use Rattle.aug_base.specs.Causes.{Rose};
ghost use Rattle.aug_base.specs.Shelves.{Holds};

use crate::{System, SystemErr};
use item_types::{Bytes, Seq};
use std::alloc::Global;

/// Why a file wasn't read or written.
#[derive(Debug, Drop)]
pub enum Fault {
    /// A call of the system refused.
    Failed,
    /// Want of memory.
    Memory,
}

/// How many bytes one call reads at most.
const PIECE: usize = 16384;

/// The next bytes of the open file, read again where a signal broke in; none where a call refused.
fn read_some<S: System>(system: &mut S, buffer: &mut [u8]) -> Option<usize>
    ensures within { IfSome result (λ n. n ≤ length buffer.new) }
    ensures later { (S.state system.old).faults ≤ (S.state system.new).faults }
    ensures files { (S.state system.new).files ≡ (S.state system.old).files }
    ensures bytes { IfSome result (λ n. (S.state system.old).left ≡ option_map (λ rest. take n buffer.new ++ rest) (S.state system.new).left) }
    ensures end { IfSome result (λ n. n ≡ 0 → 0 < length buffer.new → (S.state system.new).left ≡ option_map (λ rest. []) (S.state system.new).left) }
    ensures failed { IsNone result → Rose (S.state system.old).faults (S.state system.new).faults }
{
    for _ in 0..u64::MAX {
        match system.read(buffer) {
            Ok(count) => return Some(count),
            Err(SystemErr::Interrupted) => {}
            Err(_) => return None,
        }
    }
    system.read(buffer).ok()
}

/// What the open file has left, at most `limit` bytes of it.
fn read_left<S: System>(system: &mut S, alloc: Global, limit: usize) -> Result<Bytes, Fault>
    ensures within { IfOk result (λ bytes. length bytes ≤ limit) }
    ensures later { (S.state system.old).faults ≤ (S.state system.new).faults }
    ensures files { (S.state system.new).files ≡ (S.state system.old).files }
    ensures bytes { IfOk result (λ bytes. IfSome (S.state system.old).left (λ whole. bytes ≡ take limit whole)) }
    ensures failed { IfErr result (λ fault. fault ≡ Fault.Failed → Rose (S.state system.old).faults (S.state system.new).faults) }
{
    let mut found = Vec::new(alloc);
    let mut buffer = [0u8; PIECE];
    while found.len() < limit {
        let room = (limit - found.len()).min(PIECE);
        let count = match read_some(system, &mut buffer[..room]) {
            Some(count) => count,
            None => return Err(Fault::Failed),
        };
        if count == 0 {
            return Ok(Seq::from_vec(found));
        }
        if found.extend_from_slice(&buffer[..count]).is_err() {
            return Err(Fault::Memory);
        }
    }
    Ok(Seq::from_vec(found))
}

/// The first bytes of a file, at most `limit`. What comes after them isn't read.
///
/// # Errors
/// `Failed` only where a call of the system refused; `Memory` for want of memory.
pub fn read_file<S: System>(
    system: &mut S,
    alloc: Global,
    name: &str,
    limit: usize,
) -> Result<Bytes, Fault>
    ensures within { IfOk result (λ bytes. length bytes ≤ limit) }
    ensures files { (S.state system.new).files ≡ (S.state system.old).files }
    ensures bytes { IfOk result (λ bytes. IfSome (S.state system.old).files (λ m. Holds m name.now limit bytes)) }
    ensures failed { IfErr result (λ fault. fault ≡ Fault.Failed → Rose (S.state system.old).faults (S.state system.new).faults) }
{
    if system.open(name).is_err() {
        return Err(Fault::Failed);
    }
    read_left(system, alloc, limit)
}
