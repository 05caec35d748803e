//! Cases of cartridges, such as `data/cart.txt`: acceptance, addresses and access times.
//!
//! A case is a block of lines from `cart` to `end`. `image SIZE SEED ANDS` makes its file from the
//! generator x = 1664525 x + 1013904223 modulo 2^32: a byte is the AND of ANDS of its upper bytes.
//! `zeros SIZE` makes it of zeros; `p OFFSET BYTES` puts bytes into it. `accept ANSWER` says how it
//! ends: `lorom` or `hirom` with the sizes of ROM and RAM, or the refusal. `at ADDRESS PLACE INDEX SLOW
//! FAST` says what is at an address and its clocks with MEMSEL bit 0 clear and set, `at ADDRESS -`
//! that the file was refused. Sizes and clocks are decimal, all other numbers hexadecimal.

use crate::line::Line;
use cart_map::{CartEnd, CartRefused, Place, accept, clocks, place};
use case_text::{Generator, hexadecimal, put};
use snes_defs::{Cart, MapKind};
use std::alloc::{AllocError, Global};
use std::mem;

/// The current case: its file until it is read, and then the cartridge that it gave, if any.
#[derive(Drop)]
pub struct CartridgeCase {
    alloc: Global,
    file: Vec<u8>,
    cart: Option<Cart>,
}

impl CartridgeCase {
    /// Returns a case with an empty file and no cartridge.
    pub fn new(alloc: Global) -> CartridgeCase {
        CartridgeCase {
            alloc,
            file: Vec::new(alloc),
            cart: None,
        }
    }

    /// Whether a line holds. One that makes the file holds, and one that can't be read doesn't.
    pub fn holds(&mut self, line: &str) -> bool {
        self.result_of(line).unwrap_or(false)
    }

    /// Does a line, and returns whether it holds; `None` for a line that can't be read.
    fn result_of(&mut self, line: &str) -> Option<bool> {
        let mut words = Line::new(line);
        match words.word()? {
            "image" => self.is_generated(words),
            "zeros" => {
                self.file = zeros(self.alloc, words.decimal()?).ok()?;
                Some(true)
            }
            "p" => {
                let offset = words.hexadecimal()?;
                put(self.file.as_mut_slice(), offset, words.word()?)?;
                Some(true)
            }
            "accept" => self.answers(words),
            "at" => self.lies(words),
            kind => Some(kind == "cart" || kind == "end"),
        }
    }

    /// Makes the file from the generator.
    fn is_generated(&mut self, mut words: Line<'_>) -> Option<bool> {
        let size = words.decimal()?;
        let seed = words.hexadecimal()?;
        let ands = words.hexadecimal()?;
        self.file = generated(self.alloc, size, seed, ands).ok()?;
        Some(true)
    }

    /// Whether the file is accepted or refused as the line says.
    fn answers(&mut self, mut words: Line<'_>) -> Option<bool> {
        let file = mem::replace(&mut self.file, Vec::new(self.alloc));
        let kind = words.word()?;
        match accept(file) {
            Ok(cart) => {
                let Some(map) = map_named(kind) else {
                    return Some(false);
                };
                let same = is_as(&cart, map, &mut words)?;
                self.cart = Some(cart);
                Some(same)
            }
            Err(CartEnd::NoMemory) => Some(false),
            Err(CartEnd::Refused(cause)) => {
                self.cart = None;
                is_named(cause, kind, words.word())
            }
        }
    }

    /// Whether an address has the place and the clocks that the line says. If the file was refused,
    /// the line says nothing.
    fn lies(&mut self, mut words: Line<'_>) -> Option<bool> {
        let addr = words.hexadecimal()?;
        let kind = words.word()?;
        if kind == "-" {
            return Some(self.cart.is_none());
        }
        if addr >= 0x100_0000 {
            return None;
        }
        let index = words.hexadecimal::<u32>()?;
        let slow = words.decimal::<u8>()?;
        let fast = words.decimal::<u8>()?;
        let cart = self.cart.as_ref()?;
        let (named, number) = named(place(cart, addr));
        let same = named == kind && number == index;
        Some(same && clocks(addr, false) == slow && clocks(addr, true) == fast)
    }
}

/// Returns the map of a name.
fn map_named(name: &str) -> Option<MapKind> {
    match name {
        "lorom" => Some(MapKind::LoRom),
        "hirom" => Some(MapKind::HiRom),
        _ => None,
    }
}

/// Whether a cartridge is of this map, and has the sizes that the next words say.
fn is_as(cart: &Cart, map: MapKind, words: &mut Line<'_>) -> Option<bool> {
    let size = words.decimal::<usize>()?;
    let ram = words.decimal::<u32>()?;
    Some(cart.map == map && cart.rom.get().len() == size && cart.ram == ram)
}

/// Returns the name of a place, and its number.
fn named(place: Place) -> (&'static str, u32) {
    match place {
        Place::Wram(index) => ("wram", index),
        Place::Rom(index) => ("rom", index),
        Place::Ram(index) => ("ram", index),
        Place::BBus(register) => ("bbus", u32::from(register)),
        Place::Cpu(register) => ("cpu", u32::from(register)),
        Place::Open => ("open", 0),
    }
}

/// Whether a refusal is the one of this name, with this byte if it has one.
fn is_named(cause: CartRefused, kind: &str, byte: Option<&str>) -> Option<bool> {
    match cause {
        CartRefused::TooShort => Some(kind == "tooshort"),
        CartRefused::TooLong => Some(kind == "toolong"),
        CartRefused::NoHeader => Some(kind == "noheader"),
        CartRefused::Coprocessor(chip) => {
            Some(kind == "coprocessor" && hexadecimal::<u8>(byte?)? == chip)
        }
        CartRefused::RamSize(size) => Some(kind == "ramsize" && byte?.parse::<u8>().ok()? == size),
    }
}

/// Returns a file of `size` generated bytes: each is the AND of the upper bytes of `ands` numbers.
fn generated(alloc: Global, size: usize, seed: u32, ands: u32) -> Result<Vec<u8>, AllocError> {
    let mut bytes = Vec::new(alloc);
    let mut generator = Generator::new(seed);
    for _ in 0..size {
        bytes.push(generator.byte(ands))?;
    }
    Ok(bytes)
}

/// Returns a file of zeros.
fn zeros(alloc: Global, size: usize) -> Result<Vec<u8>, AllocError> {
    vec![in alloc; 0u8; size]
}
