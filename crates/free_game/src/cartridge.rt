ghost use Rattle.std.specs.Prelude.{◌≡◌, IfOk, vec_len};

use crate::bytes::{HEADER, PART_0, PART_1, PART_2, PART_3, PART_4, PART_5, PART_6};
use std::alloc::{AllocError, Global};

/// The length of the cartridge: one bank of 32 KiB.
pub const SIZE: usize = 0x8000;

/// The offset at which header and vectors begin.
const HEADER_AT: usize = 0x7fc0;

/// Returns the cartridge of the game.
pub fn game_cartridge(alloc: Global) -> Result<Vec<u8>, AllocError>
    ensures size { IfOk result (λ image. vec_len image ≡ 32768) }
{
    let mut image = vec![in alloc; 0u8; SIZE]?;
    let bytes = image.as_mut_slice();
    bytes[0..1024].copy_from_slice(&PART_0);
    bytes[1024..2048].copy_from_slice(&PART_1);
    bytes[2048..3072].copy_from_slice(&PART_2);
    bytes[3072..4096].copy_from_slice(&PART_3);
    bytes[4096..5120].copy_from_slice(&PART_4);
    bytes[5120..6144].copy_from_slice(&PART_5);
    bytes[6144..6144 + PART_6.len()].copy_from_slice(&PART_6);
    bytes[HEADER_AT..SIZE].copy_from_slice(&HEADER);
    Ok(image)
}
