//! Into which files a header is written.
ghost use Rattle.std.specs.Prelude.{◌≡◌, ◌≤◌, ◌||◌, nat_eq, length, slice_index, None};
ghost use Rattle.snes_defs.specs.declared.cart.MapKind.TheVariants.{LoRom, HiRom};
ghost use Rattle.std.specs.List.{list_all};
ghost use Rattle.cart_map.specs.Accept.{rom_of, is_map_byte};
ghost use Rattle.header_writer.specs.Refusal.{has_header, refusal, is_unused};

use crate::refused::HeaderRefused;

/// The fewest and the most bytes of an image.
const SMALLEST: usize = 0x8000;

const LARGEST: usize = 0x40_0000;

/// The places of the two map bytes in an image.
const LOROM_MAP: usize = 0x7fd5;

const HIROM_MAP: usize = 0xffd5;

/// The place of the high byte of the reset vector (emulation mode).
const RESET: usize = 0x7ffd;

/// Returns whether a byte is a LoROM map byte.
fn is_lorom(byte: u8) -> bool
    ensures { result ≡ is_map_byte LoRom byte }
{
    byte == 0x20 || byte == 0x30
}

/// Returns whether a byte is a HiROM map byte.
fn is_hirom(byte: u8) -> bool
    ensures { result ≡ is_map_byte HiRom byte }
{
    byte == 0x21 || byte == 0x31
}

/// Returns a byte of an image, or 0 behind it.
fn byte_at(image: &[u8], place: usize) -> u8
    ensures { result ≡ slice_index image.now place }
{
    if place < image.len() { image[place] } else { 0 }
}

/// Returns whether a header of either map is in an image.
#[tactic(auto, using(crate::proofs::Stands::lorom_stands, crate::proofs::Stands::hirom_stands))]
fn has_header(image: &[u8]) -> bool
    ensures { result ≡ has_header (rom_of image.now) }
{
    is_lorom(byte_at(image, LOROM_MAP)) || is_hirom(byte_at(image, HIROM_MAP))
}

/// Returns why no header is written into an image, if it is refused.
#[tactic(auto, unfolding(crate::specs::Refusal::refusal))]
pub(crate) fn refusal(image: &[u8]) -> Option<HeaderRefused>
    ensures refusal { result ≡ refusal image.now }
    ensures least { result ≡ None → 32768 ≤ length image.now }
{
    if image.len() < SMALLEST {
        return Some(HeaderRefused::TooShort);
    }
    if image.len() > LARGEST {
        return Some(HeaderRefused::TooLong);
    }
    if has_header(image) {
        return Some(HeaderRefused::HasHeader);
    }
    let reset = image[RESET];
    if reset < 0x80 {
        return Some(HeaderRefused::Reset(reset));
    }
    None
}

/// Returns whether all bytes are 00.
fn all_clear(bytes: &[u8]) -> bool
    ensures { result ≡ list_all (λ byte. nat_eq byte 0) bytes.now }
{
    bytes.iter().all(|byte| *byte == 0)
}

/// Returns whether all bytes are FF.
fn all_set(bytes: &[u8]) -> bool
    ensures { result ≡ list_all (λ byte. nat_eq byte 255) bytes.now }
{
    bytes.iter().all(|byte| *byte == 0xff)
}

/// Returns whether bytes are all 00 or all FF.
#[tactic(auto, unfolding(crate::specs::Refusal::is_unused))]
pub(crate) fn is_unused(bytes: &[u8]) -> bool
    ensures { result ≡ is_unused bytes.now }
{
    all_clear(bytes) || all_set(bytes)
}
