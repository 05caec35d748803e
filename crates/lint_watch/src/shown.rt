//! Which places of the picture unit's memories nothing has written, and which of them a line shows.

use crate::ports::{CGRAM, OAM, VRAM};
use lint_moments::{Ports, oam_place, vram_place};
use lint_rules::Written;
use std::alloc::{AllocError, Global};

/// The words of VRAM.
const WORDS: u16 = 32_768;

/// Places that are told: the first, and how many.
#[derive(Clone, Copy)]
pub struct Tally {
    /// The first.
    pub first: u32,
    /// How many.
    pub count: u64,
}

impl Tally {
    /// Returns no places.
    pub fn nothing() -> Tally {
        Tally { first: 0, count: 0 }
    }

    /// Adds a place.
    fn add(&mut self, at: usize) {
        if self.count == 0 {
            self.first = (at % 65_536) as u32;
        }
        self.count = self.count.saturating_add(1);
    }
}

/// A memory: which of its places have been written, and which were told as shown.
#[derive(Drop)]
pub struct Shown {
    written: Written,
    told: Written,
    /// How many places have not been written.
    left: usize,
    /// The places that are told of this line.
    pub tally: Tally,
}

impl Shown {
    /// Returns that nothing has been written of a memory of so many places.
    fn nothing(alloc: Global, size: usize) -> Result<Shown, AllocError> {
        let written = Written::nothing(alloc, size)?;
        let told = Written::nothing(alloc, size)?;
        Ok(Shown {
            written,
            told,
            left: size,
            tally: Tally::nothing(),
        })
    }

    /// Whether all has been written.
    pub fn is_whole(&self) -> bool {
        self.left == 0
    }

    /// Whether a place has been written.
    pub fn has(&self, at: usize) -> bool {
        self.left == 0 || self.written.has(at)
    }

    /// Takes note of a write to a place.
    fn write(&mut self, at: usize) {
        if !self.has(at) {
            self.left = self.left.saturating_sub(1);
            self.written.write(at);
        }
    }

    /// Takes note that a line shows a place, and returns whether it has been written. If not, it is told once.
    pub fn show(&mut self, at: usize) -> bool {
        if self.has(at) {
            return true;
        }
        if self.told.read(at) {
            self.tally.add(at);
        }
        false
    }
}

/// The memories of the picture unit.
#[derive(Drop)]
pub struct ShownMemories {
    /// The bytes of VRAM, the low byte of a word first.
    pub vram: Shown,
    /// The colours of CGRAM.
    pub cgram: Shown,
    /// The bytes of OAM.
    pub oam: Shown,
}

impl ShownMemories {
    /// Returns that nothing has been written.
    pub fn new(alloc: Global) -> Result<ShownMemories, AllocError> {
        let vram = Shown::nothing(alloc, VRAM)?;
        let cgram = Shown::nothing(alloc, CGRAM)?;
        let oam = Shown::nothing(alloc, OAM)?;
        Ok(ShownMemories { vram, cgram, oam })
    }

    /// Whether all of them have been written.
    pub fn is_whole(&self) -> bool {
        self.vram.is_whole() && self.cgram.is_whole() && self.oam.is_whole()
    }

    /// Begins a line.
    pub fn begin_line(&mut self) {
        self.vram.tally = Tally::nothing();
        self.cgram.tally = Tally::nothing();
        self.oam.tally = Tally::nothing();
    }

    /// Takes note of a write of 2104. Below 512 bytes go to OAM in pairs, at the odd address.
    fn write_oam(&mut self, address: u16) {
        if 512 <= address {
            self.oam.write(usize::from(oam_place(address)));
        } else if address % 2 == 1 {
            self.oam.write(usize::from(address - 1));
            self.oam.write(usize::from(address));
        }
    }

    /// Takes note of a write to a register, as an offset from 2100, with the ports as they were before.
    pub fn write(&mut self, register: u8, ports: &Ports) {
        match register {
            0x04 => self.write_oam(ports.oam.address),
            0x18 => self.vram.write(2 * usize::from(vram_place(&ports.vram))),
            0x19 => self
                .vram
                .write(2 * usize::from(vram_place(&ports.vram)) + 1),
            0x22 if ports.cgram.high => self.cgram.write(usize::from(ports.cgram.index)),
            _ => {}
        }
    }

    /// Takes note that a line shows a word of VRAM, and returns whether both of its bytes have been written.
    pub fn show_word(&mut self, word: u16) -> bool {
        let at = 2 * usize::from(word % WORDS);
        let low = self.vram.show(at);
        let high = self.vram.show(at + 1);
        low && high
    }
}
