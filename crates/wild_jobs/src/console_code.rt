//! Makes a cartridge with a random program.

use crate::bytes::{Bytes, below};
use case_text::Generator;
use std::alloc::Global;

/// The size of a cartridge, and the most bytes of its program.
const SIZE: usize = 32_768;

const MOST_CODE: usize = 1_500;

/// The offsets of the header's map byte, of the vectors, and of an interrupt's RTI.
const MAP: usize = 0x7fd5;

const VECTORS: usize = 0x7fe0;

const RETURN: usize = 0x7f00;

/// Returns the low byte of the address of one of the four ports, sometimes of a mirror.
fn port(generator: &mut Generator) -> u8 {
    let mirror = if below(generator, 8) == 0 { 0x7c } else { 0x40 };
    mirror + below(generator, 4)
}

/// Adds instructions at the ports: a store, a copy, a sum, a count, a copy of 16 bits.
fn talk(code: &mut Bytes, g: &mut Generator) -> Option<()> {
    let (from, to, v) = (port(g), port(g), g.byte(1));
    match below(g, 6) {
        0 => code.add(&[0xa9, v, 0x8d, to, 0x21]),
        1 => code.add(&[0xad, from, 0x21, 0x8d, to, 0x21]),
        2 => code.add(&[0xad, from, 0x21, 0x18, 0x69, v, 0x8d, to, 0x21]),
        3 => code.add(&[0xee, to, 0x21]),
        4 => code.add(&[0xc2, 0x20, 0xad, from, 0x21, 0x8d, to, 0x21, 0xe2, 0x20]),
        _ => code.add(&[0xa2, v, 0x8e, to, 0x21, 0xac, from, 0x21]),
    }
}

/// Adds a wait: some iterations of a loop, a poll of a port that gives up, and rarely one that doesn't.
fn wait(code: &mut Bytes, g: &mut Generator) -> Option<()> {
    let (from, other, v) = (port(g), port(g), g.byte(1));
    match below(g, 8) {
        0..=2 => code.add(&[0xa2, v, 0xca, 0xd0, 0xfd]),
        3..=6 => code.add(&[
            0xa2, v, 0xad, from, 0x21, 0xcd, other, 0x21, 0xf0, 0x03, 0xca, 0xd0, 0xf5,
        ]),
        _ => code.add(&[0xad, from, 0x21, 0xc9, v % 4, 0xd0, 0xf9]),
    }
}

/// Adds a transfer of bytes of the program to the ports, by DMA immediately or by HDMA from the next frame on.
fn transfer(code: &mut Bytes, g: &mut Generator) -> Option<()> {
    let channel = below(g, 8);
    let (pattern, to) = (below(g, 8), port(g));
    let (low, high) = (g.byte(1), 0x80 + below(g, 4));
    for (register, v) in [
        (0u8, pattern),
        (1, to),
        (2, low),
        (3, high),
        (4, 0),
        (5, g.byte(2)),
        (6, 0),
    ] {
        code.add(&[0xa9, v, 0x8d, 16 * channel + register, 0x43])?;
    }
    let register = if below(g, 2) == 0 { 0x0b } else { 0x0c };
    let mask = g.byte(2);
    code.add(&[0xa9, mask, 0x8d, register, 0x42])
}

/// Adds writes of the PPU's and the processor's registers, and changes of the processor's modes.
fn switch(code: &mut Bytes, g: &mut Generator) -> Option<()> {
    let v = g.byte(1);
    match below(g, 8) {
        0 => code.add(&[0x18, 0xfb]),
        1 => code.add(&[0x38, 0xfb]),
        2 => code.add(&[0xa9, v, 0x8d, 0x00, 0x42]),
        3 => code.add(&[0xad, 0x10, 0x42, 0xad, 0x11, 0x42]),
        4 => code.add(&[0x58]),
        5 => code.add(&[0x78]),
        6 => code.add(&[0xa9, v % 16, 0x8d, 0x00, 0x21]),
        _ => code.add(&[0xa9, v, 0x8d, below(g, 0x34), 0x21]),
    }
}

/// Adds something wild: random bytes, a jump somewhere, rarely a wait for an interrupt or a stop.
fn stray(code: &mut Bytes, g: &mut Generator) -> Option<()> {
    match below(g, 16) {
        0..=6 => code.add(&[g.byte(1), g.byte(1)]),
        7..=13 => code.add(&[0x4c, g.byte(1), 0x80 + below(g, 6)]),
        14 => code.add(&[0xcb]),
        _ => code.add(&[0xdb]),
    }
}

/// Returns the program, which starts again at its end.
fn program(alloc: Global, g: &mut Generator) -> Option<Bytes> {
    let mut code = Bytes::new(alloc);
    let strays = 1 + below(g, 6);
    for _ in 0..1_000u32 {
        if code.len() > MOST_CODE {
            break;
        }
        match below(g, 40) {
            0..=21 => talk(&mut code, g)?,
            22..=30 => wait(&mut code, g)?,
            31 | 32 => transfer(&mut code, g)?,
            33..=36 => switch(&mut code, g)?,
            _ => {
                if below(g, 6) < strays {
                    stray(&mut code, g)?;
                }
            }
        }
    }
    code.add(&[0x4c, 0x00, 0x80])?;
    Some(code)
}

/// Returns a cartridge of LoROM whose program begins at 8000; one in eight has random bytes all over instead.
pub fn cartridge(alloc: Global, g: &mut Generator) -> Option<Bytes> {
    let is_wild = below(g, 8) == 0;
    let mut image = Bytes::new(alloc);
    if !is_wild {
        image = program(alloc, g)?;
    }
    for _ in image.len()..SIZE {
        image.add(&[if is_wild { g.byte(1) } else { 0xea }])?;
    }
    for at in MAP..VECTORS {
        image.put(at, 0)?;
    }
    image.put(MAP, 0x20)?;
    image.put(RETURN, 0x40)?;
    for at in VECTORS..SIZE {
        image.put(at, if at % 2 == 0 { 0x00 } else { 0xff })?;
    }
    image.put(0x7ffd, 0x80).map(|_| image)
}
