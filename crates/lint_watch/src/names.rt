//! Labels and lines of source, by a symbol file.

use anyhow::{Result, bail};
use cart_map::{Place, place};
use lint_rules::{Finding, Unit};
use snes_defs::Cart;
use std::alloc::Global;
use symbol_files::{SourceLines, Symbols};

/// How a debug file of ld65 begins: only such a file has lines of source.
const DEBUG_FILE: &str = "version\tmajor=2,";

/// The difference of an address and its mirror in the other half of the banks.
const MIRROR: u32 = 0x80_0000;

/// An instruction that is farther behind a label than this is not told by it.
const FARTHEST: u32 = 4096;

/// What a symbol file has, or nothing.
#[derive(Drop)]
pub struct Sources {
    symbols: Option<Symbols>,
    lines: Option<SourceLines>,
}

impl Sources {
    /// Returns no labels and no lines.
    pub fn none() -> Sources {
        Sources {
            symbols: None,
            lines: None,
        }
    }

    /// Reads the text of a symbol file. Fails if it has none of the forms of symbol files; `name` is the file's.
    pub fn read(alloc: Global, name: &str, text: &str) -> Result<Sources> {
        let symbols = match Symbols::read(alloc, text) {
            Ok(symbols) => symbols,
            Err(refused) => bail!("{name} refused: {refused}"),
        };
        let lines = if text.starts_with(DEBUG_FILE) {
            SourceLines::read(alloc, text).ok()
        } else {
            None
        };
        Ok(Sources {
            symbols: Some(symbols),
            lines,
        })
    }

    /// Returns the last label at an address or before it.
    fn nearest(&self, address: u32) -> Option<(&str, u64)> {
        match &self.symbols {
            Some(symbols) => match symbols.nearest(address) {
                Some((name, offset)) if offset < FARTHEST => Some((name, u64::from(offset))),
                _ => None,
            },
            None => None,
        }
    }

    /// Returns the last label at an address or before it, there or in the mirror of the bank.
    fn label(&self, address: u32) -> Option<(&str, u64)> {
        match self.nearest(address) {
            Some(found) => Some(found),
            None => {
                let mirror = if address < MIRROR {
                    address + MIRROR
                } else {
                    address - MIRROR
                };
                self.nearest(mirror)
            }
        }
    }

    /// Returns the line of source that made a byte of the file: the one with the fewest bytes.
    fn source(&self, offset: u32) -> Option<(&str, u32)> {
        let Some(lines) = &self.lines else {
            return None;
        };
        let mut found = None;
        let mut fewest = u32::MAX;
        for line in lines.lines() {
            let is_there = line.first <= offset && offset - line.first < line.size;
            if is_there && line.size < fewest {
                fewest = line.size;
                found = Some((line.file, line.line));
            }
        }
        let (file, line) = found?;
        Some((lines.name_of(file)?, line))
    }

    /// Returns the last label at a finding's instruction or before it, and how many bytes behind it the instruction is.
    pub fn label_of(&self, finding: &Finding) -> Option<(&str, u64)> {
        match finding.cause.unit {
            Unit::Console => self.label(finding.cause.address),
            Unit::Sound | Unit::File => None,
        }
    }

    /// Returns the file and line of source of a finding's instruction. `front` is how many bytes a copier put in front of the image.
    pub fn line_of(&self, cart: &Cart, front: u32, finding: &Finding) -> Option<(&str, u32)> {
        match finding.cause.unit {
            Unit::Console => match place(cart, finding.cause.address % 0x100_0000) {
                Place::Rom(at) => self.source(at.saturating_add(front)),
                _ => None,
            },
            Unit::Sound | Unit::File => None,
        }
    }
}
