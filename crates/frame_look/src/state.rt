//! A state that `snes dump` wrote: its parts, and how it is read and shown (`docs/use/STATE.md`).

use crate::films;
use anyhow::{Result, bail};
use clap::ArgMatches;
use std::fmt;
use std::rt::Files;

/// The text that a state begins with.
const TEXT: &[u8; 8] = b"SNESDUMP";

/// The version of the format that is read here.
const VERSION: u32 = 1;

/// The bytes of a state without the cartridge's RAM.
const FIXED: usize = 0x5_0000;

/// More bytes than a state has: the cartridge has at most 128 KiB of RAM.
const MOST: usize = FIXED + 0x4_0000;

/// The bytes of a line.
const LINE: usize = 16;

/// A number of the header or a register: its name, its offset and its bytes.
#[derive(Clone, Copy)]
pub struct Field {
    pub name: &'static str,
    pub at: usize,
    pub size: usize,
}

/// A table of fields: of each its name, offset and bytes.
macro_rules! fields {
    ($($name:literal $at:literal $size:literal,)*) => {
        [$(Field {
            name: $name,
            at: $at,
            size: $size,
        },)*]
    };
}

/// The fields in their order.
pub static FIELDS: [Field; 25] = fields![
    "version" 0x08 1,
    "region" 0x09 1,
    "frames" 0x0C 4,
    "cartridge RAM" 0x10 4,
    "A" 0x20 2,
    "X" 0x22 2,
    "Y" 0x24 2,
    "S" 0x26 2,
    "D" 0x28 2,
    "PC" 0x2A 2,
    "DBR" 0x2C 1,
    "PBR" 0x2D 1,
    "P" 0x2E 1,
    "E" 0x2F 1,
    "SPC700 A" 0x30 1,
    "SPC700 X" 0x31 1,
    "SPC700 Y" 0x32 1,
    "SPC700 SP" 0x33 1,
    "SPC700 PC" 0x34 2,
    "SPC700 PSW" 0x36 1,
    "ports F4 to F7" 0x38 4,
    "ports 2140 to 2143" 0x3C 4,
    "zeros 0A" 0x0A 2,
    "zeros 14" 0x14 4,
    "zero 37" 0x37 1,
];

/// A memory: its name, its offset and its bytes.
#[derive(Clone, Copy)]
pub struct Memory {
    pub name: &'static str,
    pub at: usize,
    pub size: usize,
}

/// The memories of a fixed size in their order; `sram`, that of the cartridge, comes last.
static MEMORIES: [Memory; 6] = [
    Memory {
        name: "dsp",
        at: 0x80,
        size: 128,
    },
    Memory {
        name: "cgram",
        at: 0x200,
        size: 512,
    },
    Memory {
        name: "oam",
        at: 0x400,
        size: 544,
    },
    Memory {
        name: "wram",
        at: 0x1_0000,
        size: 131_072,
    },
    Memory {
        name: "vram",
        at: 0x3_0000,
        size: 65_536,
    },
    Memory {
        name: "aram",
        at: 0x4_0000,
        size: 65_536,
    },
];

/// A state that was read whole.
#[derive(Drop)]
pub struct State {
    bytes: Vec<u8>,
    ram: usize,
}

impl State {
    /// Reads the state of a file.
    pub fn read<R: Files + AllocGlobal>(rt: &R, name: &str) -> Result<State> {
        let mut bytes = vec![in rt.alloc(); 0u8; MOST]?;
        let count = films::read_into(rt, name, bytes.as_mut_slice())?;
        let mut state = State { bytes, ram: 0 };
        state.ram = state.number(0x10, 4) as usize;
        state.check(name, count)?;
        Ok(state)
    }

    /// Checks the header of a file that has `count` bytes.
    fn check(&self, name: &str, count: usize) -> Result<()> {
        if !self.bytes.as_slice().starts_with(TEXT) {
            bail!("{name} is not a state: it does not begin with SNESDUMP");
        }
        let version = self.number(0x08, 1);
        if version != VERSION {
            bail!("{name} has the format {version}, and this program reads the format {VERSION}");
        }
        let size = FIXED.saturating_add(self.ram);
        if count != size {
            bail!("{name} has {count} bytes, and its header says {size}");
        }
        Ok(())
    }

    /// The byte at an offset, 0 behind the last.
    pub fn byte(&self, at: usize) -> u8 {
        match self.bytes.as_slice().get(at) {
            Some(byte) => *byte,
            None => 0,
        }
    }

    /// The number of some bytes, low byte first.
    pub fn number(&self, at: usize, size: usize) -> u32 {
        let mut number = 0u32;
        for n in 0..size {
            number = (number >> 8) | (u32::from(self.byte(at.saturating_add(n))) << 24);
        }
        for _ in size..4 {
            number >>= 8;
        }
        number
    }

    /// The memory of a number in their order, nothing behind the last.
    pub fn memory(&self, number: usize) -> Option<Memory> {
        if number == MEMORIES.len() {
            return Some(Memory {
                name: "sram",
                at: FIXED,
                size: self.ram,
            });
        }
        MEMORIES.as_slice().get(number).copied()
    }

    /// How many memories there are.
    pub fn memories() -> usize {
        MEMORIES.len() + 1
    }
}

/// Some bytes of a state.
#[derive(Clone, Copy)]
struct Bytes<'a> {
    state: &'a State,
    at: usize,
    count: usize,
}

impl Bytes<'_> {
    /// Whether all of them are 0.
    fn are_zero(self) -> bool {
        for n in 0..self.count {
            if self.state.byte(self.at.saturating_add(n)) != 0 {
                return false;
            }
        }
        true
    }
}

impl fmt::Display for Bytes<'_> {
    fn fmt<W: fmt::Write>(&self, f: &mut fmt::Formatter<W>) -> fmt::Result {
        for n in 0..self.count {
            write!(f, " {:02x}", self.state.byte(self.at.saturating_add(n)))?;
        }
        Ok(())
    }
}

/// The registers of the 65C816 as they are printed, without the last: of each the text before it, its offset and its
/// bytes.
static MAIN_REGISTERS: [Field; 9] = fields![
    "65C816 A " 0x20 2,
    " X " 0x22 2,
    " Y " 0x24 2,
    " S " 0x26 2,
    " D " 0x28 2,
    " PC " 0x2D 1,
    ":" 0x2A 2,
    " DBR " 0x2C 1,
    " P " 0x2E 1,
];

/// Those of the SPC700.
static SOUND_REGISTERS: [Field; 6] = fields![
    "SPC700 A " 0x30 1,
    " X " 0x31 1,
    " Y " 0x32 1,
    " SP " 0x33 1,
    " PC " 0x34 2,
    " PSW " 0x36 1,
];

/// Registers of a state.
#[derive(Clone, Copy)]
struct Registers<'a> {
    state: &'a State,
    fields: &'static [Field],
}

impl fmt::Display for Registers<'_> {
    fn fmt<W: fmt::Write>(&self, f: &mut fmt::Formatter<W>) -> fmt::Result {
        for field in self.fields {
            let number = self.state.number(field.at, field.size);
            if field.size == 1 {
                write!(f, "{}{number:02x}", field.name)?;
            } else {
                write!(f, "{}{number:04x}", field.name)?;
            }
        }
        Ok(())
    }
}

/// The name of a region's number.
fn region_name(number: u32) -> &'static str {
    if number == 0 { "ntsc" } else { "pal" }
}

/// Prints the header and the registers.
fn say_registers<R: Print>(rt: &R, s: &State) -> Result<()> {
    println!(rt;
        "{} frames, {}, cartridge RAM {} bytes",
        s.number(0x0C, 4),
        region_name(s.number(0x09, 1)),
        s.number(0x10, 4)
    )?;
    let main = Registers {
        state: s,
        fields: &MAIN_REGISTERS,
    };
    println!(rt; "{main} E {}", s.number(0x2F, 1))?;
    let sound = Registers {
        state: s,
        fields: &SOUND_REGISTERS,
    };
    println!(rt; "{sound}")?;
    let read = |at| Bytes {
        state: s,
        at,
        count: 4,
    };
    println!(rt; "ports  F4{}  2140{}", read(0x38), read(0x3C))?;
    Ok(())
}

/// Prints some bytes of a memory, line by line; lines of zeros only where they are asked for.
fn say_lines<R: Print>(
    rt: &R,
    state: &State,
    memory: Memory,
    from: usize,
    count: usize,
    blank: bool,
) -> Result<()> {
    let end = from.saturating_add(count).min(memory.size);
    for line in 0..usize::MAX / LINE {
        let from = from.saturating_add(line.saturating_mul(LINE));
        if from >= end {
            break;
        }
        let bytes = Bytes {
            state,
            at: memory.at.saturating_add(from),
            count: (end - from).min(LINE),
        };
        if blank || !bytes.are_zero() {
            println!(rt; "{:<5} {from:05x} {bytes}", memory.name)?;
        }
    }
    Ok(())
}

/// A number as it is given: decimal, or hexadecimal behind 0x.
fn number_in(text: &str) -> Option<usize> {
    let number = match text.strip_prefix("0x") {
        Some(digits) => u32::from_str_radix(digits, 16).ok()?,
        None => text.parse::<u32>().ok()?,
    };
    Some(number as usize)
}

/// The number behind an option, or another one where it is not there.
fn number_of(words: &ArgMatches<'_>, option: &str, other: usize) -> Result<usize> {
    match words.get_str(option) {
        None => Ok(other),
        Some(text) => match number_in(text) {
            Some(number) => Ok(number),
            None => bail!("--{option} wants a number, decimal or from 0x on, and not {text}"),
        },
    }
}

/// The memory of a name.
fn memory_of(state: &State, name: &str) -> Result<Memory> {
    for number in 0..State::memories() {
        if let Some(memory) = state.memory(number)
            && memory.name == name
        {
            return Ok(memory);
        }
    }
    bail!("there is no memory {name}: dsp, cgram, oam, wram, vram, aram and sram are some")
}

/// Prints the bytes of one memory that are asked for.
fn say_memory<R: Print>(rt: &R, state: &State, words: &ArgMatches<'_>, name: &str) -> Result<()> {
    let memory = memory_of(state, name)?;
    let from = number_of(words, "from", 0)?;
    let count = number_of(words, "count", memory.size)?;
    if from >= memory.size {
        bail!("{name} has {} bytes, and none at {from}", memory.size);
    }
    say_lines(rt, state, memory, from, count, true)
}

/// Prints the registers, and the lines of each memory that are not blank.
fn say_whole<R: Print>(rt: &R, state: &State) -> Result<()> {
    say_registers(rt, state)?;
    for number in 0..State::memories() {
        if let Some(memory) = state.memory(number) {
            say_lines(rt, state, memory, 0, memory.size, false)?;
        }
    }
    Ok(())
}

/// `look state FILE`.
pub fn say_state<R: Files + Print + AllocGlobal>(rt: &R, words: &ArgMatches<'_>) -> Result<()> {
    let state = State::read(rt, films::name_in(words, "FILE"))?;
    match words.get_str("memory") {
        Some(name) => say_memory(rt, &state, words, name),
        None => say_whole(rt, &state),
    }
}
