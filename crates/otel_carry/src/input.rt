//! Reads the whole input of the program.
ghost use Rattle.std.specs.Prelude.{IfOk, IfSome, IfErr, ◌≡◌, ◌⊎◌};

use crate::failure::Failure;
use std::alloc::Global;
use std::io::Read;

/// The maximum number of reads, for a reader that never ends.
const READS: u32 = 1_048_576;

/// The maximum number of bytes that one read returns.
const ROOM: usize = 4096;

/// Returns all remaining bytes of the input.
///
/// Reads at most 1,048,576 times, each time up to 4,096 bytes.
///
/// # Errors
///
/// `Unreadable` if a read fails, or if no read reports the end. `NoMemory` if out of memory. The
/// bytes read so far are dropped.
pub fn read_whole<R: Read + Drop>(alloc: Global, mut input: R) -> Result<Vec<u8>, Failure>
    ensures whole { IfOk result (λ bytes. IfSome (R.remaining input) (λ left.
        bytes.items ≡ left)) }
    ensures failure { IfErr result (λ failure.
        (failure ≡ Failure.Unreadable) ⊎ (failure ≡ Failure.NoMemory)) }
{
    let mut bytes = Vec::new(alloc);
    let mut room = [0u8; ROOM];
    // A loop, because `read_to_end` promises no number of reads.
    for _ in 0..READS {
        match input.read(&mut room) {
            Ok(0) => return Ok(bytes),
            Ok(count) => bytes.extend_from_slice(&room[..count])?,
            Err(_) => return Err(Failure::Unreadable),
        }
    }
    Err(Failure::Unreadable)
}
