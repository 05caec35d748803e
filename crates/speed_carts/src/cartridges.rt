ghost use Rattle.std.specs.Prelude.{◌≡◌, ◌≤◌, ◌+◌, IfOk, length, vec_len};

use crate::bytes::{MODE7_0, MODE7_1, MODE7_HEADER, SIEVE_0, SIEVE_HEADER, TUNE_0, TUNE_HEADER};
use std::alloc::{AllocError, Global};

/// The length of each cartridge: one bank of 32 KiB.
pub const SIZE: usize = 0x8000;

/// The offset at which header and vectors begin.
const HEADER_AT: usize = 0x7fc0;

/// Returns a cartridge: its program in two parts, zeros, header and vectors.
fn image(
    alloc: Global,
    first: &[u8],
    second: &[u8],
    header: &[u8; 64],
) -> Result<Vec<u8>, AllocError>
    requires fits { length first.now + length second.now ≤ 0x7fc0 }
    ensures size { IfOk result (λ image. vec_len image ≡ 32768) }
{
    let mut image = vec![in alloc; 0u8; SIZE]?;
    let bytes = image.as_mut_slice();
    let end = first.len() + second.len();
    bytes[0..first.len()].copy_from_slice(first);
    bytes[first.len()..end].copy_from_slice(second);
    bytes[HEADER_AT..SIZE].copy_from_slice(header);
    Ok(image)
}

/// Returns `sieve.sfc`: the processor works in work RAM, by words, all the time.
pub fn sieve_cartridge(alloc: Global) -> Result<Vec<u8>, AllocError>
    ensures size { IfOk result (λ image. vec_len image ≡ 32768) }
{
    image(alloc, &SIEVE_0, &[], &SIEVE_HEADER)
}

/// Returns `mode7.sfc`: a plane in mode 7 turns, by HDMA on each line and tables that are computed in each frame.
pub fn mode7_cartridge(alloc: Global) -> Result<Vec<u8>, AllocError>
    ensures size { IfOk result (λ image. vec_len image ≡ 32768) }
{
    image(alloc, &MODE7_0, &MODE7_1, &MODE7_HEADER)
}

/// Returns `tune.sfc`: eight voices with an echo, a sound processor that works all the time, a console that waits.
pub fn tune_cartridge(alloc: Global) -> Result<Vec<u8>, AllocError>
    ensures size { IfOk result (λ image. vec_len image ≡ 32768) }
{
    image(alloc, &TUNE_0, &[], &TUNE_HEADER)
}
