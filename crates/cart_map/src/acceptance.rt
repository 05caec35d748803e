//! Which files are cartridges, by their size and their header.
ghost use Rattle.std.specs.Prelude.{◌≡◌, ℕ, ◌*◌, ◌+◌, ◌<◌, ◌≤◌, Ok, Err, IfOk, OnOk, OnErr, length, slice_index};
ghost use Rattle.cart_map.specs.declared.refused.CartRefused.{CartRefused};
ghost use Rattle.cart_map.specs.Accept.{image_of, missing, rom_of, header_at, chosen, sums_add, stands, asks_for, judged, verdict};

use crate::header::Header;
use crate::refused::{CartEnd, CartRefused};
use byteorder::{ByteOrder, LittleEndian};
use snes_defs::{Bytes, Cart, MapKind};
use std::alloc::AllocError;

/// The fewest and the most bytes of an image, and the size of a page, to which it is filled.
const SMALLEST: usize = 0x8000;

const LARGEST: usize = 0x40_0000;

const PAGE: usize = 0x8000;

/// The bytes that a copier may have put in front of an image.
const FRONT: usize = 512;

/// The places in an image at which the two headers begin. The processor sees both at FFC0 of bank 00.
const LOROM_HEADER: usize = 0x7fc0;

const HIROM_HEADER: usize = 0xffc0;

/// The places of a header's fields.
const MAP_BYTE: usize = 0x15;

const CHIP_BYTE: usize = 0x16;

const RAM_SIZE_BYTE: usize = 0x18;

const COMPLEMENT: usize = 0x1c;

const CHECKSUM: usize = 0x1e;

/// Accepts the file of a cartridge, or returns why it is refused.
///
/// If the file has 512 bytes more than whole KiB, its first 512 are dropped. The image that is left must have
/// 32,768 to 4,194,304 bytes, and is filled with zeros to whole pages of 32 KiB.
///
/// There is a LoROM header at 7FC0 if its map byte is 20 or 30. There is a HiROM header at FFC0 if its map byte is
/// 21 or 31. If there are both, HiROM is taken if only its complement and checksum add to FFFF, else LoROM.
///
/// The chip byte must be at most 02, and the RAM size byte at most 7. The first rule that fails, in this order,
/// refuses.
pub fn accept(file: Vec<u8>) -> Result<Cart, CartEnd>
    ensures header { IfOk result (λ cart. verdict file.items ≡ Ok (record { map = cart.map; ram = cart.ram })) }
    ensures rom { IfOk result (λ cart. cart.rom ≡ rom_of (image_of file.items)) }
    ensures refused { (cause : CartRefused) → result ≡ Err (CartEnd.Refused cause) → verdict file.items ≡ Err cause }
    ensures memory { result ≡ Err CartEnd.NoMemory → 0 < missing (length (image_of file.items)) }
{
    let image = image_in(file);
    if image.len() < SMALLEST {
        return Err(CartEnd::Refused(CartRefused::TooShort));
    }
    if image.len() > LARGEST {
        return Err(CartEnd::Refused(CartRefused::TooLong));
    }
    let Ok(rom) = filled(image) else {
        return Err(CartEnd::NoMemory);
    };
    match judge(rom.as_slice()) {
        Ok(header) => Ok(Cart {
            map: header.map,
            rom: Bytes::of(rom),
            ram: header.ram,
        }),
        Err(cause) => Err(CartEnd::Refused(cause)),
    }
}

/// Returns the image in a file.
#[tactic(auto, using(crate::proofs::Front::front_dropped), unfolding(crate::specs::Accept::image_of))]
fn image_in(mut file: Vec<u8>) -> Vec<u8>
    ensures { result.items ≡ image_of file.items }
{
    if file.len() % 1024 == FRONT {
        file.rotate_left(FRONT);
        file.truncate(file.len() - FRONT);
    }
    file
}

/// Fills an image with zeros to whole pages.
#[tactic(auto, unfolding(crate::specs::Accept::rom_of))]
fn filled(mut image: Vec<u8>) -> Result<Vec<u8>, AllocError>
    requires { length image.items ≤ 4194304 }
    ensures rom { IfOk result (λ rom. rom.items ≡ rom_of image.items) }
    ensures size { IfOk result (λ rom. length image.items ≤ length rom.items) }
    ensures memory { OnErr result (0 < missing (length image.items)) }
{
    let missing = (PAGE - image.len() % PAGE) % PAGE;
    image.resize(image.len() + missing, 0)?;
    Ok(image)
}

/// Returns what the headers of a ROM say.
#[tactic(auto, unfolding(crate::specs::Accept::judged))]
fn judge(rom: &[u8]) -> Result<Header, CartRefused>
    requires { 32768 ≤ length rom.now }
    ensures { result ≡ judged rom.now }
{
    match chosen_map(rom) {
        None => Err(CartRefused::NoHeader),
        Some(MapKind::LoRom) => asked(
            MapKind::LoRom,
            rom[LOROM_HEADER + CHIP_BYTE],
            rom[LOROM_HEADER + RAM_SIZE_BYTE],
        ),
        Some(MapKind::HiRom) => asked(
            MapKind::HiRom,
            rom[HIROM_HEADER + CHIP_BYTE],
            rom[HIROM_HEADER + RAM_SIZE_BYTE],
        ),
    }
}

/// Returns the map whose header is taken.
fn chosen_map(rom: &[u8]) -> Option<MapKind>
    requires { 32768 ≤ length rom.now }
    ensures chosen { result ≡ chosen rom.now }
    ensures large { result ≡ Some MapKind.HiRom → 65536 ≤ length rom.now }
{
    let lorom = matches!(rom[LOROM_HEADER + MAP_BYTE], 0x20 | 0x30);
    let hirom = rom.len() >= 0x1_0000 && matches!(rom[HIROM_HEADER + MAP_BYTE], 0x21 | 0x31);
    if hirom {
        if lorom && !(sums_add(rom, HIROM_HEADER) && !sums_add(rom, LOROM_HEADER)) {
            return Some(MapKind::LoRom);
        }
        return Some(MapKind::HiRom);
    }
    if lorom { Some(MapKind::LoRom) } else { None }
}

/// Returns whether a header's complement and checksum add to FFFF.
fn sums_add(rom: &[u8], header: usize) -> bool
    requires { header + 32 ≤ length rom.now }
    ensures { result ≡ sums_add rom.now header }
{
    word(rom, header + COMPLEMENT) + word(rom, header + CHECKSUM) == 0xffff
}

/// Returns a number of 16 bits, low byte first.
fn word(rom: &[u8], at: usize) -> u32
    requires { at + 2 ≤ length rom.now }
    ensures number { result ≡ slice_index rom.now at + 256 * slice_index rom.now (at + 1) }
    ensures small { result < 65536 }
{
    u32::from(LittleEndian::read_u16(&rom[at..]))
}

/// Returns what a header's chip and RAM size ask for.
fn asked(map: MapKind, chip: u8, size: u8) -> Result<Header, CartRefused>
    ensures { result ≡ asks_for map chip size }
{
    if chip > 2 {
        return Err(CartRefused::Coprocessor(chip));
    }
    match size {
        0 => Ok(Header { map, ram: 0 }),
        1..=7 => Ok(Header {
            map,
            ram: 1024u32 << u32::from(size),
        }),
        _ => Err(CartRefused::RamSize(size)),
    }
}
