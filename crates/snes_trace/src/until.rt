//! The end of a trace before the end of its range: at a step, at a frame or at a value.

use crate::breaks::{Break, break_of, hits, place_of, settle_breaks};
use crate::labels::Labels;
use crate::pair::Pair;
use crate::step::Step;
use anyhow::{Result, bail};
use cart_map::Place;
use clock_ratio::end_stamp_in;
use snes_defs::{MOST_FRAMES, Region, Side};
use std::alloc::Global;

/// Where work RAM begins on the bus.
const WORK_RAM: u32 = 0x7E_0000;

/// What ends a trace.
#[derive(Drop)]
pub enum Until {
    /// Nothing but the end of its range.
    Nothing,
    /// A step that hits the breakpoint, of which there is one.
    Step(Vec<Break>),
    /// The begin of a frame, at this stamp.
    Frame(u64),
    /// This byte at this address of a memory.
    Value(u32, u8),
}

/// Returns a number in decimal digits, or in hexadecimal ones behind `0x` or `$`.
fn number_of(text: &str) -> Option<u32> {
    let digits = match text.strip_prefix("0x") {
        Some(digits) => digits,
        None => match text.strip_prefix("$") {
            Some(digits) => digits,
            None => return text.parse::<u32>().ok(),
        },
    };
    for byte in digits.as_bytes() {
        if !byte.is_ascii_hexdigit() {
            return None;
        }
    }
    u32::from_str_radix(digits, 16).ok()
}

/// Returns the address of a byte: `wram[OFFSET]`, a label, or an address of five or six digits.
fn byte_of(labels: &Labels, text: &str) -> Option<u32> {
    if let Some(rest) = text.strip_prefix("wram[") {
        let offset = number_of(rest.strip_suffix("]")?.trim())?;
        return if offset < 0x2_0000 {
            Some(WORK_RAM + offset)
        } else {
            None
        };
    }
    match place_of(labels, text)? {
        (address, true) => Some(address),
        _ => None,
    }
}

/// Reads a value that ends a trace.
fn value_of(labels: &Labels, left: &str, right: &str) -> Option<Until> {
    let byte = u8::try_from(number_of(right.trim())?).ok()?;
    Some(Until::Value(byte_of(labels, left.trim())?, byte))
}

/// Reads the frame whose begin ends a trace.
fn frame_of(region: Region, text: &str) -> Option<Until> {
    let frame = text.trim().parse::<u32>().ok()?;
    if frame <= MOST_FRAMES {
        Some(Until::Frame(end_stamp_in(region, frame)))
    } else {
        None
    }
}

/// Reads what ends a trace.
fn read_until(alloc: Global, region: Region, labels: &Labels, text: &str) -> Result<Option<Until>> {
    if let Some((left, right)) = text.split_once("=") {
        return Ok(value_of(labels, left, right));
    }
    if let Some(frame) = text.strip_prefix("frame ") {
        return Ok(frame_of(region, frame));
    }
    match break_of(alloc, labels, text) {
        Some(found) => {
            let mut breaks = Vec::new(alloc);
            breaks.push(found.or_opcode())?;
            Ok(Some(Until::Step(breaks)))
        }
        None => Ok(None),
    }
}

/// Reads what ends a trace, if the command line says so.
pub fn until_of(
    alloc: Global,
    region: Region,
    labels: &Labels,
    text: Option<&str>,
) -> Result<Until> {
    match text {
        Some(text) => match read_until(alloc, region, labels, text.trim())? {
            Some(until) => Ok(until),
            None => bail!("--until {text}: no address, frame or value (see --help)"),
        },
        None => Ok(Until::Nothing),
    }
}

impl Until {
    /// Whether a trace is to end before its range does.
    pub fn is_given(&self) -> bool {
        match self {
            Until::Nothing => false,
            _ => true,
        }
    }

    /// Finds out what lies at the address. Only a memory has a value.
    pub fn settle(&mut self, alloc: Global, pair: &Pair) -> Result<()> {
        let (console, _) = pair.machines();
        match self {
            Until::Step(breaks) => {
                settle_breaks(alloc, console.bus(), breaks.as_mut_slice())?;
            }
            Until::Value(address, _) => match console.bus().place(*address) {
                Place::Wram(_) | Place::Ram(_) | Place::Rom(_) => {}
                _ => bail!("--until: no memory lies at {address:06X}"),
            },
            Until::Frame(_) | Until::Nothing => {}
        }
        Ok(())
    }

    /// Whether the frame that ends the trace has begun.
    pub fn is_begun(&self, pair: &Pair) -> bool {
        match self {
            Until::Frame(stamp) => pair.is_past(*stamp),
            _ => false,
        }
    }

    /// Whether a step that was taken ends the trace.
    pub fn is_reached(&self, pair: &Pair, step: &Step) -> bool {
        match self {
            Until::Step(breaks) => hits(breaks.as_slice(), step),
            Until::Value(address, byte) if step.side == Side::Console => {
                let (console, _) = pair.machines();
                console.bus().take(*address) == *byte
            }
            _ => false,
        }
    }
}
