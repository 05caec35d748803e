//! The rules of the cartridge's file.

ghost use Rattle.std.specs.Prelude.{◌≤◌};

use crate::watch::at_of;
use cart_map::place;
use lint_rules::{
    Cause, Finding, Findings, MapPlace, Moment, Rule, Unit, checksum_rule, map_rule, reset_rule,
    size_rule,
};
use snes_defs::{Cart, MapKind};
use std::alloc::AllocError;

/// The bytes that a copier put in front of an image.
const FRONT: u32 = 512;

/// The places of the two headers in an image.
const LOROM: usize = 0x7fc0;

const HIROM: usize = 0xffc0;

/// The places of a header's fields.
const MAP_BYTE: usize = 0x15;

const SIZE_BYTE: usize = 0x17;

const COMPLEMENT: usize = 0x1c;

const CHECKSUM: usize = 0x1e;

const RESET: usize = 0x3c;

/// The moment of what is found before the run.
const BEFORE: Moment = Moment {
    frame: 0,
    line: 0,
    clock: 0,
    overscan: false,
    forced: false,
};

/// Adds a finding in the file, if a rule was broken.
fn tell(
    findings: &mut Findings,
    rule: Option<Rule>,
    offset: u32,
    detail: u32,
) -> Result<(), AllocError> {
    match rule {
        Some(rule) => {
            let cause = Cause {
                unit: Unit::File,
                address: offset,
            };
            findings.add(Finding::new(rule, cause, detail, BEFORE))
        }
        None => Ok(()),
    }
}

/// Returns the place of the header in the ROM.
fn header_of(cart: &Cart) -> usize
    ensures { result ≤ 65472 }
{
    match cart.map {
        MapKind::LoRom => LOROM,
        MapKind::HiRom => HIROM,
    }
}

/// Returns a byte of the ROM.
fn byte(rom: &[u8], at: usize) -> u8 {
    match rom.get(at) {
        Some(byte) => *byte,
        None => 0,
    }
}

/// Returns two bytes of the ROM as a number, low byte first.
fn word(rom: &[u8], at: usize) -> u16 {
    u16::from(byte(rom, at)) + 256 * u16::from(byte(rom, at.saturating_add(1)))
}

/// Whether complement and checksum of the header at a place add to FFFF.
fn sums_add(rom: &[u8], header: usize) -> bool {
    let complement = u32::from(word(rom, header.saturating_add(COMPLEMENT)));
    complement + u32::from(word(rom, header.saturating_add(CHECKSUM))) == 0xffff
}

/// Returns the rule that the map byte of the header at a place breaks.
fn map_rule_at(rom: &[u8], place: MapPlace, header: usize) -> Option<Rule> {
    let map_byte = byte(rom, header.saturating_add(MAP_BYTE));
    map_rule(place, map_byte, sums_add(rom, header))
}

/// Whether a header is at a place: its map byte is this one, with bit 4 or without, and its sums add.
fn is_header(rom: &[u8], header: usize, map_byte: u8) -> bool {
    byte(rom, header.saturating_add(MAP_BYTE)) / 32 == 1
        && byte(rom, header.saturating_add(MAP_BYTE)) % 16 == map_byte
        && sums_add(rom, header)
}

/// Returns the place in an image of a map byte that is that of the other place, if there is one, and no header is where it belongs.
fn other_map_in(rom: &[u8]) -> Option<u32> {
    if is_header(rom, LOROM, 0) || is_header(rom, HIROM, 1) {
        return None;
    }
    if map_rule_at(rom, MapPlace::LoRom, LOROM).is_some() {
        return Some(0x7fd5);
    }
    if map_rule_at(rom, MapPlace::HiRom, HIROM).is_some() {
        return Some(0xffd5);
    }
    None
}

/// Returns the place in a file of a map byte that is that of the other place, if there is one, and no header is where it belongs.
pub fn other_map_byte(file: &[u8]) -> Option<u32> {
    let front = front_of(file.len());
    let image = file.get(front as usize..)?;
    Some(other_map_in(image)?.saturating_add(front))
}

/// Returns the sum of bytes.
fn sum(bytes: &[u8]) -> u64 {
    let mut sum = 0u64;
    for byte in bytes {
        sum = sum.saturating_add(u64::from(*byte));
    }
    sum
}

/// Returns the largest power of two from 32 KiB to 4 MiB that is at most a number of bytes.
fn power_below(bytes: usize) -> usize {
    let mut power = 32_768usize;
    for _ in 0..7 {
        let twice = power.saturating_mul(2);
        if twice <= bytes {
            power = twice;
        }
    }
    power
}

/// Returns the sum of a ROM as a console sees it: what is behind a power of two is repeated until it is as long as that.
/// None if it can't be.
fn mirrored_sum(rom: &[u8]) -> Option<u64> {
    let power = power_below(rom.len());
    if rom.len() < power {
        return None;
    }
    let (first, rest) = rom.split_at(power);
    let more = rest.len();
    if more == 0 {
        return Some(sum(first));
    }
    if power % more != 0 {
        return None;
    }
    let times = (power / more) as u64;
    Some(sum(first).saturating_add(sum(rest).saturating_mul(times)))
}

/// Returns the right checksum of a ROM: the sum of its bytes, with FF, FF, 00 and 00 for the complement and checksum.
pub fn checksum_of(cart: &Cart) -> Option<u16> {
    let rom = cart.rom.get();
    let header = header_of(cart);
    let mut stated = 0u64;
    for at in 0..4 {
        stated = stated.saturating_add(u64::from(byte(rom, header + COMPLEMENT + at)));
    }
    let whole = mirrored_sum(rom)?
        .saturating_add(510)
        .saturating_sub(stated);
    Some((whole % 65_536) as u16)
}

/// Returns how many bytes a copier put in front of the image, in a file of so many bytes: 512 or 0.
pub fn front_of(size: usize) -> u32
    ensures { result ≤ 512 }
{
    if size % 1024 == FRONT as usize {
        FRONT
    } else {
        0
    }
}

/// Checks the file of a cartridge that has a header. `size` is the number of its bytes.
pub fn check_file(findings: &mut Findings, size: usize, cart: &Cart) -> Result<(), AllocError> {
    let front = front_of(size);
    if front > 0 {
        tell(findings, Some(Rule::CopierHeader), 0, 0)?;
    }
    let rom = cart.rom.get();
    let header = header_of(cart);
    let offset = header as u32 + front;
    if let Some(right) = checksum_of(cart) {
        let stated = word(rom, header + CHECKSUM);
        let rule = checksum_rule(stated, word(rom, header + COMPLEMENT), right);
        tell(findings, rule, offset + COMPLEMENT as u32, u32::from(right))?;
    }
    if let Some(at) = other_map_in(rom) {
        tell(findings, Some(Rule::MapByte), at.saturating_add(front), 0)?;
    }
    let image = size.saturating_sub(front as usize) % 8_388_608;
    let rule = size_rule(byte(rom, header + SIZE_BYTE), image as u32);
    tell(findings, rule, offset + SIZE_BYTE as u32, 0)?;
    let target = word(rom, header + RESET);
    let rule = reset_rule(at_of(place(cart, u32::from(target))));
    tell(findings, rule, offset + RESET as u32, u32::from(target))
}

/// Tells of a file that has no header, and of the map byte that `other_map_byte` returned of it.
pub fn no_header(findings: &mut Findings, map_byte: Option<u32>) -> Result<(), AllocError> {
    if let Some(at) = map_byte {
        tell(findings, Some(Rule::MapByte), at, 0)?;
    }
    tell(findings, Some(Rule::NoHeader), LOROM as u32, 0)
}
