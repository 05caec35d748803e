//! Labels of a symbol file, by what lies at their addresses: so a label is found through any mirror.

use crate::breaks::number_of;
use crate::step::{Instruction, Kind, Step};
use crate::targets::target_of;
use console_bus::Bus;
use snes_defs::Side;
use std::alloc::{AllocError, Global};
use symbol_files::{Found, Symbols};

/// An instruction that is farther behind a label than this is not told by it.
const FARTHEST: u64 = 4096;

/// A label by the number of what lies at its address, and its place in the file's order of addresses.
#[derive(Clone, Copy)]
struct Row {
    number: u64,
    place: usize,
}

/// The labels of a symbol file, or none.
#[derive(Drop)]
pub struct Labels {
    symbols: Option<Symbols>,
    /// By number.
    rows: Vec<Row>,
}

/// The labels of a step.
#[derive(Clone, Copy)]
pub struct Named<'a> {
    /// The last label at the instruction or before it, and how many bytes lie between them.
    pub here: Option<(&'a str, u64)>,
    /// The label of the operand's address, or of the address of an access.
    pub there: Option<&'a str>,
}

/// The labels of a step that has none.
pub const NAMELESS: Named<'static> = Named {
    here: None,
    there: None,
};

impl Labels {
    /// Returns the labels of a file, or none.
    pub fn new(alloc: Global, symbols: Option<Symbols>) -> Labels {
        Labels {
            symbols,
            rows: Vec::new(alloc),
        }
    }

    /// Whether there is a file of symbols.
    pub fn is_given(&self) -> bool {
        self.symbols.is_some()
    }

    /// Returns what a name stands for.
    pub fn find(&self, name: &str) -> Found {
        match &self.symbols {
            Some(symbols) => symbols.find(name),
            None => Found::Nothing,
        }
    }

    /// Finds out what lies at the address of each label.
    pub fn settle(&mut self, bus: &Bus) -> Result<(), AllocError> {
        if let Some(symbols) = &self.symbols {
            for place in 0..symbols.count() {
                if let Some((_, address)) = symbols.label(place) {
                    let number = number_of(bus.place(address), address);
                    self.rows.push(Row { number, place })?;
                }
            }
        }
        self.rows.sort_by_key(|row| row.number)
    }

    /// Returns how many labels have a number below this one.
    fn count_below(&self, number: u64) -> usize {
        let rows = self.rows.as_slice();
        let mut first = 0usize;
        let mut left = rows.len();
        for _ in 0..64 {
            if left == 0 {
                break;
            }
            let half = left / 2;
            match rows.get(first.saturating_add(half)) {
                Some(middle) if middle.number < number => {
                    first = first.saturating_add(half).saturating_add(1);
                    left = left - half - 1;
                }
                _ => left = half,
            }
        }
        first
    }

    /// Returns the name of a row.
    fn name_of(&self, row: Row) -> Option<&str> {
        match &self.symbols {
            Some(symbols) => match symbols.label(row.place) {
                Some((name, _)) => Some(name),
                None => None,
            },
            None => None,
        }
    }

    /// Returns the first label of exactly this number.
    fn exact(&self, number: u64) -> Option<&str> {
        let row = *self.rows.as_slice().get(self.count_below(number))?;
        if row.number == number {
            self.name_of(row)
        } else {
            None
        }
    }

    /// Returns the last label of this number or of a lower one, and how far behind it the number is.
    fn nearest(&self, number: u64) -> Option<(&str, u64)> {
        let count = self.count_below(number.saturating_add(1));
        let row = *self.rows.as_slice().get(count.checked_sub(1)?)?;
        let offset = number.checked_sub(row.number)?;
        if offset >= FARTHEST {
            return None;
        }
        Some((self.exact(row.number)?, offset))
    }

    /// Returns the labels of a step.
    pub fn names_of(&self, bus: &Bus, step: &Step) -> Named<'_> {
        let (Some(address), Some(place)) = (step.address, step.place) else {
            return NAMELESS;
        };
        if self.rows.is_empty() || step.side == Side::Sound || step.kind == Kind::Fetch {
            return NAMELESS;
        }
        let number = number_of(place, address);
        match step.instruction {
            Instruction::Console(regs, bytes) => Named {
                here: self.nearest(number),
                there: match target_of(&regs, bytes) {
                    Some(target) => self.exact(number_of(bus.place(target), target)),
                    None => None,
                },
            },
            _ => Named {
                here: None,
                there: self.exact(number),
            },
        }
    }
}
