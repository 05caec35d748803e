ghost use Rattle.std.specs.Prelude.{◌≡◌, ℕ, ◌+◌, ◌-◌, ◌<◌, IfOk, length, slice_index, vec_len};
ghost use Rattle.demo_files.specs.Image.{head_of, number_next, byte_of};

use snes_defs::NoMemory;
use std::alloc::Global;

/// The bytes of an image, and of its first page, which the generator doesn't make.
const SIZE: usize = 0x8_0000;

const HEAD: usize = 0x8000;

/// The place of the header in the image.
const HEADER_AT: usize = 0x7fc0;

/// The program, at 8000 of bank 00: it moves tiles and colours by DMA, and scrolls by what port 0 gives.
static PROGRAM: [u8; 124] = [
    0x78, 0x18, 0xfb, 0xe2, 0x30, 0xa9, 0x80, 0x8d, 0x00, 0x21, 0x8d, 0x15, 0x21, 0x9c, 0x16, 0x21,
    0x9c, 0x17, 0x21, 0xa9, 0x01, 0x8d, 0x00, 0x43, 0xa9, 0x18, 0x8d, 0x01, 0x43, 0x9c, 0x02, 0x43,
    0xa9, 0x80, 0x8d, 0x03, 0x43, 0xa9, 0x01, 0x8d, 0x04, 0x43, 0x9c, 0x05, 0x43, 0xa9, 0x80, 0x8d,
    0x06, 0x43, 0xa9, 0x01, 0x8d, 0x0b, 0x42, 0x9c, 0x21, 0x21, 0x9c, 0x00, 0x43, 0xa9, 0x22, 0x8d,
    0x01, 0x43, 0x9c, 0x02, 0x43, 0xa9, 0x80, 0x8d, 0x03, 0x43, 0xa9, 0x02, 0x8d, 0x04, 0x43, 0x9c,
    0x05, 0x43, 0x8d, 0x06, 0x43, 0xa9, 0x01, 0x8d, 0x0b, 0x42, 0x8d, 0x05, 0x21, 0x8d, 0x2c, 0x21,
    0x9c, 0x07, 0x21, 0xa9, 0x02, 0x8d, 0x0b, 0x21, 0xa9, 0x0f, 0x8d, 0x00, 0x21, 0xad, 0x40, 0x21,
    0x1a, 0x8d, 0x40, 0x21, 0x8d, 0x0d, 0x21, 0x9c, 0x0d, 0x21, 0x80, 0xf1,
];

/// The header with the vectors: title, map 20, no chip, 512 KiB, no RAM, and RESET at 8000.
static HEADER: [u8; 64] = [
    0x53, 0x4e, 0x45, 0x53, 0x20, 0x44, 0x45, 0x4d, 0x4f, 0x20, 0x20, 0x20, 0x20, 0x20, 0x20, 0x20,
    0x20, 0x20, 0x20, 0x20, 0x20, 0x20, 0x00, 0x09, 0x00, 0x00, 0x00, 0x00, 0xff, 0xff, 0x00, 0x00,
    0x00, 0x00, 0x00, 0x00, 0x00, 0x00, 0x00, 0x00, 0x00, 0x00, 0x00, 0x00, 0x00, 0x00, 0x00, 0x00,
    0x00, 0x00, 0x00, 0x00, 0x00, 0x00, 0x00, 0x00, 0x00, 0x00, 0x00, 0x00, 0x00, 0x80, 0x00, 0x00,
];

/// The cartridge that a number makes: 512 KiB of LoROM with a small program. Its other pages are the upper bytes of x
/// = 1664525 x + 1013904223 modulo 2^32, from the number on.
#[tactic(auto, using(crate::proofs::Numbers::number_none, crate::proofs::Numbers::number_more, crate::proofs::Numbers::byte_head, crate::proofs::Numbers::byte_behind))]
pub fn image(alloc: Global, number: u32) -> Result<Vec<u8>, NoMemory>
    ensures size { IfOk result (λ image. vec_len image ≡ 524288) }
    ensures bytes { IfOk result (λ image. (offset : ℕ) → offset < 524288 → slice_index image.items offset ≡ byte_of number offset) }
{
    let mut image = first_page(alloc)?;
    let mut x = number;
    'pages: while image.len() < SIZE {
        x = next(x);
        if image.push((x / 0x100_0000) as u8).is_err() {
            return Err(NoMemory);
        }
    }
    Ok(image)
}

/// The first page of the image, with room for the others.
fn first_page(alloc: Global) -> Result<Vec<u8>, NoMemory>
    ensures size { IfOk result (λ page. vec_len page ≡ 32768) }
    ensures bytes { IfOk result (λ page. (offset : ℕ) → offset < 32768 → slice_index page.items offset ≡ head_of offset) }
{
    let Ok(mut page) = Vec::with_capacity(alloc, SIZE) else {
        return Err(NoMemory);
    };
    for offset in 0..HEAD {
        if page.push(head(offset)).is_err() {
            return Err(NoMemory);
        }
    }
    Ok(page)
}

/// A byte of the first page: program, header or zero.
#[tactic(auto, unfolding(crate::specs::Image::program, crate::specs::Image::header, crate::specs::Image::head_of))]
fn head(offset: usize) -> u8
    requires { offset < 32768 }
    ensures { result ≡ head_of offset }
{
    if offset < PROGRAM.len() {
        return PROGRAM[offset];
    }
    if offset < HEADER_AT {
        return 0;
    }
    HEADER[offset - HEADER_AT]
}

/// The generator's next number.
fn next(x: u32) -> u32
    ensures { result ≡ number_next x }
{
    ((1_664_525 * u64::from(x) + 1_013_904_223) % 0x1_0000_0000) as u32
}
