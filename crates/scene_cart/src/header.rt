//! The LoROM header: title, map, chip, sizes, sums and vectors.

use crate::image::{HEADER, Image};

/// Puts the header, with the addresses at which a reset and an NMI begin. Its checksum is over the whole image, so it
/// comes last.
pub fn put_header(image: &mut Image, reset: u16, nmi: u16) {
    image.put(HEADER, b"SCENE AT DUSK        ");
    // Slow LoROM, ROM alone, 2^7 KiB, no RAM.
    image.put(HEADER + 0x15, &[0x20, 0x00, 0x07, 0x00]);
    image.put_word(HEADER + 0x2a, nmi);
    image.put_word(HEADER + 0x3c, reset);
    // The sum and its complement add as much to the sum as these do.
    image.put_word(HEADER + 0x1c, 0xffff);
    let mut sum = 0u16;
    for byte in image.bytes() {
        sum = sum.wrapping_add(u16::from(*byte));
    }
    image.put_word(HEADER + 0x1c, 0xffff - sum);
    image.put_word(HEADER + 0x1e, sum);
}
