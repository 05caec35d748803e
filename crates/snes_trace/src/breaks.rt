//! Breakpoints: the addresses, sides and kinds of the steps that are searched for.

use crate::labels::Labels;
use crate::step::{Kind, Step, Way};
use anyhow::{Result, bail};
use cart_map::Place;
use console_bus::Bus;
use snes_defs::Side;
use std::alloc::{AllocError, Global};
use symbol_files::Found;

/// A number greater than the count of bytes or registers of any kind.
const KIND: u64 = 1 << 32;

/// The numbers of adjacent bytes.
#[derive(Clone, Copy)]
struct Span {
    first: u64,
    last: u64,
}

/// A breakpoint: an address or a range of them, and which steps at them hit.
#[derive(Drop)]
pub struct Break {
    first: u32,
    last: u32,
    /// Whether the address names a bank, and so a byte: one of four digits or fewer is meant in every bank.
    in_bank: bool,
    /// The bytes at these addresses, if a bank is named.
    spans: Vec<Span>,
    side: Option<Side>,
    kind: Option<Kind>,
}

/// Returns the address in hexadecimal digits, with or without a dollar sign, and whether it names a bank.
fn address_of(word: &str) -> Option<(u32, bool)> {
    let digits = match word.strip_prefix("$") {
        Some(digits) => digits,
        None => word,
    };
    if digits.is_empty() || digits.len() > 6 {
        return None;
    }
    for byte in digits.as_bytes() {
        if !byte.is_ascii_hexdigit() {
            return None;
        }
    }
    let number = u32::from_str_radix(digits, 16).ok()?;
    Some((number, digits.len() > 4))
}

/// Returns the address that a label or digits name, and whether it names a bank. Digits behind a dollar sign are
/// never a label. A label that stands for several addresses names none.
pub fn place_of(labels: &Labels, word: &str) -> Option<(u32, bool)> {
    match labels.find(word) {
        Found::One(address) if address < 0x100_0000 => Some((address, true)),
        Found::Nothing => address_of(word),
        _ => None,
    }
}

/// Returns the two ends of a range, or twice the same word. A label may have a `-` in its name.
fn ends_of<'a>(labels: &Labels, word: &'a str) -> (&'a str, &'a str) {
    match (labels.find(word), word.split_once("-")) {
        (Found::Nothing, Some(ends)) => ends,
        _ => (word, word),
    }
}

/// Reads an address or a label, or the first and the last of a range.
fn range_of(alloc: Global, labels: &Labels, word: &str) -> Option<Break> {
    let (from, to) = ends_of(labels, word);
    let (first, in_bank) = place_of(labels, from)?;
    let (last, last_in_bank) = place_of(labels, to)?;
    if last < first || in_bank != last_in_bank {
        return None;
    }
    Some(Break {
        first,
        last,
        in_bank,
        spans: Vec::new(alloc),
        side: None,
        kind: None,
    })
}

/// Returns the kind of step that a word names.
fn kind_of(word: &str) -> Option<Kind> {
    match word.as_bytes() {
        b"opcode" => Some(Kind::Opcode),
        b"fetch" => Some(Kind::Fetch),
        b"read" => Some(Kind::Read),
        b"write" => Some(Kind::Write),
        b"dma" => Some(Kind::Dma),
        b"hdma" => Some(Kind::Hdma),
        _ => None,
    }
}

/// Reads a breakpoint: an address or a range, then a side and a kind, each at most once.
pub fn break_of(alloc: Global, labels: &Labels, text: &str) -> Option<Break> {
    let mut words = text.split_whitespace();
    let mut found = range_of(alloc, labels, words.next()?)?;
    for word in words {
        match word.as_bytes() {
            b"console" if found.side.is_none() => found.side = Some(Side::Console),
            b"sound" if found.side.is_none() => found.side = Some(Side::Sound),
            _ if found.kind.is_none() => found.kind = Some(kind_of(word)?),
            _ => return None,
        }
    }
    Some(found)
}

/// Returns the text before a `#`, without spaces at its ends.
fn without_comment(line: &str) -> &str {
    match line.split_once("#") {
        Some((before, _)) => before.trim(),
        None => line.trim(),
    }
}

/// Reads the breakpoints of a file. An invalid line is reported by its number, from 1.
pub fn read_breaks(alloc: Global, labels: &Labels, name: &str, file: &str) -> Result<Vec<Break>> {
    let mut breaks = Vec::new(alloc);
    let mut number = 0u64;
    for line in file.lines() {
        number = number.saturating_add(1);
        let text = without_comment(line);
        if text.is_empty() {
            continue;
        }
        match break_of(alloc, labels, text) {
            Some(found) => breaks.push(found)?,
            None => bail!("{name} refused: line {number} is no breakpoint (see --help)"),
        }
    }
    if breaks.is_empty() {
        bail!("{name} refused: it has no breakpoint");
    }
    Ok(breaks)
}

/// Returns the number of what is at an address. Adjacent bytes and registers have adjacent numbers; an address with
/// nothing at it has a number of its own.
pub fn number_of(place: Place, address: u32) -> u64 {
    match place {
        Place::Wram(at) => u64::from(at),
        Place::Rom(at) => KIND + u64::from(at),
        Place::Ram(at) => 2 * KIND + u64::from(at),
        Place::BBus(port) => 3 * KIND + u64::from(port),
        Place::Cpu(register) => 4 * KIND + u64::from(register),
        Place::Open => 5 * KIND + u64::from(address),
    }
}

/// Whether a number is in one of these spans.
fn holds(spans: &[Span], number: u64) -> bool {
    for span in spans {
        if span.first <= number && number <= span.last {
            return true;
        }
    }
    false
}

/// Keeps a span, unless one that is kept covers all of it: mirrors have the same numbers.
fn keep(spans: &mut Vec<Span>, next: Span) -> Result<(), AllocError> {
    for span in spans.as_slice() {
        if span.first <= next.first && next.last <= span.last {
            return Ok(());
        }
    }
    spans.push(next)?;
    Ok(())
}

/// Returns the numbers of what is at a range of addresses of a console.
fn spans_of(alloc: Global, bus: &Bus, first: u32, last: u32) -> Result<Vec<Span>, AllocError> {
    let mut spans = Vec::new(alloc);
    let number = number_of(bus.place(first), first);
    let mut span = Span {
        first: number,
        last: number,
    };
    for address in first..last {
        let next = address.saturating_add(1);
        let number = number_of(bus.place(next), next);
        if span.last.saturating_add(1) == number {
            span.last = number;
        } else {
            keep(&mut spans, span)?;
            span = Span {
                first: number,
                last: number,
            };
        }
    }
    keep(&mut spans, span)?;
    Ok(spans)
}

/// Finds out what is at the addresses of each breakpoint that names a bank.
pub fn settle_breaks(alloc: Global, bus: &Bus, breaks: &mut [Break]) -> Result<(), AllocError> {
    for one in breaks {
        if one.in_bank {
            one.spans = spans_of(alloc, bus, one.first, one.last)?;
        }
    }
    Ok(())
}

impl Break {
    /// Returns the same breakpoint; if it names no kind, opcodes alone hit it.
    pub fn or_opcode(self) -> Break {
        let mut found = self;
        if found.kind.is_none() {
            found.kind = Some(Kind::Opcode);
        }
        found
    }

    /// Whether an address of this place is one of the breakpoint's.
    fn has(&self, place: Place, address: u32) -> bool {
        if self.in_bank {
            return holds(self.spans.as_slice(), number_of(place, address));
        }
        let seen = address % 65_536;
        self.first <= seen && seen <= self.last
    }

    /// Whether a register of the B bus is one of the breakpoint's.
    fn has_port(&self, port: u8) -> bool {
        self.has(Place::BBus(port), 0x2100 + u32::from(port))
    }

    /// Whether a step hits the breakpoint.
    fn is_hit(&self, step: &Step) -> bool {
        if self.in_bank && step.side == Side::Sound {
            return false;
        }
        if self.side.is_some_and(|side| side != step.side) {
            return false;
        }
        if self.kind.is_some_and(|kind| kind != step.kind) {
            return false;
        }
        let at_port = match step.way {
            Way::To(port) | Way::From(port) => self.has_port(port),
            Way::Table | Way::Nowhere => false,
        };
        let place = step.place.unwrap_or(Place::Open);
        at_port || step.address.is_some_and(|address| self.has(place, address))
    }
}

/// Whether a step hits one of these breakpoints.
pub fn hits(breaks: &[Break], step: &Step) -> bool {
    for one in breaks {
        if one.is_hit(step) {
            return true;
        }
    }
    false
}
