//! Accesses to the memories of the picture unit.

ghost use Rattle.std.specs.Prelude.{◌≡◌};
ghost use Rattle.lint_rules.specs.Picture.{memory_at, memory_broken, broken_at, memory_written, memory_read};

use crate::moment::Moment;
use crate::rule::Rule;

/// A memory of the picture unit.
#[derive(Clone, Copy)]
pub enum Memory {
    /// Tiles and maps.
    Vram,
    /// Colours.
    Cgram,
    /// Objects.
    Oam,
}

/// Returns the memory that a register writes, as an offset from 2100.
fn memory_of_write(register: u8) -> Option<Memory>
    ensures { result ≡ memory_written register }
{
    match register {
        0x04 => Some(Memory::Oam),
        0x18 | 0x19 => Some(Memory::Vram),
        0x22 => Some(Memory::Cgram),
        _ => None,
    }
}

/// Returns the memory that a register reads, as an offset from 2100.
fn memory_of_read(register: u8) -> Option<Memory>
    ensures { result ≡ memory_read register }
{
    match register {
        0x38 => Some(Memory::Oam),
        0x39 | 0x3a => Some(Memory::Vram),
        0x3b => Some(Memory::Cgram),
        _ => None,
    }
}

/// Returns the memory that an access to a register reads or writes. The register is an offset from 2100.
pub fn memory_of(register: u8, writes: bool) -> Option<Memory>
    ensures { result ≡ memory_at register writes }
{
    if writes {
        memory_of_write(register)
    } else {
        memory_of_read(register)
    }
}

/// Returns the rule that an access to a memory breaks at a moment.
fn memory_rule(memory: Memory, moment: &Moment) -> Option<Rule>
    ensures { result ≡ memory_broken moment.now memory }
{
    match memory {
        Memory::Vram => {
            if moment.is_blank() {
                None
            } else {
                Some(Rule::VramOutsideBlank)
            }
        }
        Memory::Oam => {
            if moment.is_blank() {
                None
            } else {
                Some(Rule::OamOutsideBlank)
            }
        }
        Memory::Cgram => {
            if moment.is_drawn() {
                Some(Rule::CgramOutsideBlank)
            } else {
                None
            }
        }
    }
}

/// Returns the rule that an access to a register of the picture unit breaks at a moment, if it is a port of a memory. The
/// register is an offset from 2100.
///
/// Source: fullsnes, 2104h OAMDATA, 2118h VMDATAL, 2122h CGDATA, and their reads.
pub fn picture_rule(register: u8, writes: bool, moment: &Moment) -> Option<Rule>
    ensures { result ≡ broken_at moment.now (memory_at register writes) }
{
    match memory_of(register, writes) {
        Some(memory) => memory_rule(memory, moment),
        None => None,
    }
}
