//! The bytes of the console's memories.

use audio_side::AudioSide;
use bench_checks::Memory;
use cart_map::Place;
use console_bus::Bus;
use console_machine::ConsoleSide;

/// The bytes of work RAM.
const WORK_RAM: usize = 131_072;

/// The byte at an offset of a list of words, low byte first.
fn byte_of_words(words: &[u16], at: usize) -> Option<u8> {
    let word = *words.get(at / 2)?;
    let [low, high] = word.to_le_bytes();
    Some(if at % 2 == 0 { low } else { high })
}

/// The byte at an address of the 65C816, if there is memory.
fn byte_on_bus(bus: &Bus, at: u32) -> Option<u8> {
    match bus.place(at) {
        Place::Wram(_) | Place::Ram(_) | Place::Rom(_) => Some(bus.take(at)),
        Place::BBus(_) | Place::Cpu(_) | Place::Open => None,
    }
}

/// The byte at an offset of the memory of the console, within its first `most` bytes from `first` on.
fn byte_within(bus: &Bus, first: usize, most: usize, at: usize) -> Option<u8> {
    if at < most {
        bus.memory().get(first.saturating_add(at)).copied()
    } else {
        None
    }
}

/// Returns a byte of a memory, or none if the memory is shorter.
pub fn byte_at(console: &ConsoleSide, sound: &AudioSide, memory: Memory, at: u32) -> Option<u8> {
    let bus = console.bus();
    let offset = at as usize;
    match memory {
        Memory::Wram => byte_within(bus, 0, WORK_RAM, offset),
        Memory::Sram => byte_within(bus, WORK_RAM, bus.cart_ram() as usize, offset),
        Memory::Vram => byte_of_words(bus.picture().vram(), offset),
        Memory::Cgram => byte_of_words(bus.picture().cgram().as_slice(), offset),
        Memory::Oam => bus.picture().oam().as_slice().get(offset).copied(),
        Memory::Aram => sound.ram().get(offset).copied(),
        Memory::Bus => byte_on_bus(bus, at),
    }
}

/// What reports call a memory.
pub fn name_of(memory: Memory) -> &'static str {
    match memory {
        Memory::Wram => "wram",
        Memory::Sram => "sram",
        Memory::Vram => "vram",
        Memory::Cgram => "cgram",
        Memory::Oam => "oam",
        Memory::Aram => "aram",
        Memory::Bus => "bus",
    }
}
