//! The cartridge's file: its checksum, its size and its vectors.

ghost use Rattle.std.specs.Prelude.{◌≡◌, ◌-◌, ◌+◌};
ghost use Rattle.lint_rules.specs.Places.{checksum_broken, size_broken, is_other_map, map_broken, speed_broken, reset_broken, interrupt_broken};

use crate::addresses::At;
use crate::rule::Rule;

/// Returns the complement that belongs to a checksum: both add to FFFF.
pub fn complement_of(sum: u16) -> u16
    ensures { result ≡ 65535 - sum }
{
    65_535 - sum
}

/// Returns the rule that a header's checksum and complement break, given the right checksum.
///
/// Source: fullsnes, "SNES Cartridge ROM Header".
pub fn checksum_rule(checksum: u16, complement: u16, right: u16) -> Option<Rule>
    ensures { result ≡ checksum_broken checksum complement right }
{
    if checksum == right && complement == complement_of(right) {
        None
    } else {
        Some(Rule::Checksum)
    }
}

/// Returns the rule that a header's size byte breaks, given the file's bytes: 2^n KiB have to hold them, and half of that not.
///
/// Source: fullsnes, "SNES Cartridge ROM Header".
pub fn size_rule(size: u8, bytes: u32) -> Option<Rule>
    ensures { result ≡ size_broken size bytes }
{
    let fits = match size {
        5 => bytes <= 32_768,
        6 => 32_768 < bytes && bytes <= 65_536,
        7 => 65_536 < bytes && bytes <= 131_072,
        8 => 131_072 < bytes && bytes <= 262_144,
        9 => 262_144 < bytes && bytes <= 524_288,
        10 => 524_288 < bytes && bytes <= 1_048_576,
        11 => 1_048_576 < bytes && bytes <= 2_097_152,
        12 => 2_097_152 < bytes && bytes <= 4_194_304,
        _ => false,
    };
    if fits { None } else { Some(Rule::SizeByte) }
}

/// A place of a header in an image, by the map whose header it is.
#[derive(Clone, Copy)]
pub enum MapPlace {
    /// 7FC0: LoROM, by a map byte of 20 or 30.
    LoRom,
    /// FFC0: HiROM, by a map byte of 21 or 31.
    HiRom,
}

/// Whether a map byte is that of the other place.
fn is_other_map(place: MapPlace, byte: u8) -> bool
    ensures { result ≡ is_other_map place byte }
{
    match place {
        MapPlace::LoRom => byte == 0x21 || byte == 0x31,
        MapPlace::HiRom => byte == 0x20 || byte == 0x30,
    }
}

/// Returns the rule that a map byte breaks by its place. `adds` says whether complement and checksum there add to FFFF: only then
/// a header is there.
///
/// Source: fullsnes, "SNES Cartridge ROM Header".
pub fn map_rule(place: MapPlace, byte: u8, adds: bool) -> Option<Rule>
    ensures { result ≡ map_broken place byte adds }
{
    if adds && is_other_map(place, byte) {
        Some(Rule::MapByte)
    } else {
        None
    }
}

/// Returns the rule that a write of 420D breaks, given the map byte: bit 0 turns on 3.58 MHz, and bit 4 of the map byte, which says
/// that the ROM is fast enough, is clear.
///
/// Source: fullsnes, "SNES Cartridge ROM Header" and 420Dh MEMSEL.
pub fn speed_rule(map_byte: u8, written: u8) -> Option<Rule>
    ensures { result ≡ speed_broken map_byte written }
{
    if written % 2 == 1 && map_byte / 16 % 2 == 0 {
        Some(Rule::MapByte)
    } else {
        None
    }
}

/// Returns the rule that the RESET vector breaks, by what lies where it leads: at a reset, RAM holds no program.
pub fn reset_rule(at: At) -> Option<Rule>
    ensures { result ≡ reset_broken at }
{
    match at {
        At::Rom => None,
        _ => Some(Rule::ResetVector),
    }
}

/// Returns the rule that the vector of an interrupt breaks that is enabled, by what lies where it leads.
pub fn interrupt_rule(at: At) -> Option<Rule>
    ensures { result ≡ interrupt_broken at }
{
    match at {
        At::Wram | At::Rom | At::Ram => None,
        At::Register | At::Nothing => Some(Rule::InterruptVector),
    }
}
