//! Makes a boot ROM with a random program.

use crate::bytes::{Bytes, below};
use case_text::Generator;
use std::alloc::Global;

/// The size of a boot ROM, and the offsets of its last branch and its vector.
const SIZE: usize = 64;

const BRANCH: usize = 60;

/// Returns the address of one of the four ports.
fn port(generator: &mut Generator) -> u8 {
    0xf4 + below(generator, 4)
}

/// Adds some instructions.
fn piece(g: &mut Generator, code: &mut Bytes) -> Option<()> {
    let (from, to, v) = (port(g), port(g), g.byte(1));
    match below(g, 16) {
        0..=2 => code.add(&[0xe4, from, 0xc4, to]),
        3 | 4 => code.add(&[0x8f, v, to]),
        5 => code.add(&[0xab, to]),
        6 => code.add(&[0x8b, to]),
        7 => code.add(&[0x8f, 0x80 + v % 0x40, 0xf1]),
        8 => code.add(&[0x8d, v, 0xfe, 0xfe]),
        9 => code.add(&[0xba, 0xf4, 0xda, 0xf6]),
        10 => code.add(&[0xfa, from, to]),
        11 => code.add(&[0x8f, v % 16, 0xfa, 0xe4, 0xfd, 0xc4, to]),
        12 => code.add(&[0x8f, v % 0x80, 0xf2, 0x8f, g.byte(1), 0xf3]),
        13 => code.add(&[0x64, from, 0xf0, 0x00]),
        14 => {
            if below(g, 8) == 0 {
                code.add(&[v])
            } else {
                code.add(&[0x60])
            }
        }
        _ => {
            if below(g, 8) == 0 {
                code.add(&[0x64, from, 0xd0, 0xfc])
            } else {
                code.add(&[0x00])
            }
        }
    }
}

/// Returns a boot ROM whose program starts again at its end, and whose vector leads to it.
pub fn boot_rom(alloc: Global, g: &mut Generator) -> Option<Bytes> {
    let mut code = Bytes::new(alloc);
    for _ in 0..64u32 {
        if code.len() > BRANCH - 7 {
            break;
        }
        piece(g, &mut code)?;
    }
    for _ in code.len()..BRANCH {
        code.add(&[0x00])?;
    }
    code.add(&[0x2f, 0xc2, 0xc0, 0xff])?;
    for _ in code.len()..SIZE {
        code.add(&[0x00])?;
    }
    Some(code)
}
