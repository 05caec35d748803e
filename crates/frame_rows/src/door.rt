use frame_player::ConsoleInputs;
use snes_defs::Region;
use std::alloc::{AllocError, Global};

/// The program of the door, from 8000 on. It waits for the end of the automatic reading of the pads, and writes colour 0.
const PROGRAM: [u8; 35] = [
    0x78, 0x18, 0xfb, 0xa9, 0x0f, 0x8d, 0x00, 0x21, 0xa9, 0x01, 0x8d, 0x00, 0x42, 0xa2, 0x1f, 0xad,
    0x19, 0x42, 0x29, 0x10, 0xf0, 0x02, 0xa2, 0xe0, 0x9c, 0x21, 0x21, 0x8e, 0x22, 0x21, 0x9c, 0x22,
    0x21, 0x80, 0xec,
];

/// The cartridge: 32 KiB of LoROM without RAM, whose program begins at 8000.
pub fn door(alloc: Global) -> Result<Vec<u8>, AllocError> {
    let mut image = vec![in alloc; 0u8; 32_768]?;
    image[..35].copy_from_slice(&PROGRAM);
    image[0x7fd5] = 0x20;
    image[0x7ffd] = 0x80;
    Ok(image)
}

/// What a console is made of, with the free boot ROM and table: 20 frames, and two slots.
pub fn inputs(cart: &[u8], region: Region) -> ConsoleInputs<'_> {
    ConsoleInputs {
        cart,
        boot: &[],
        table: &[],
        region,
        most: 20,
        slots: 2,
    }
}
