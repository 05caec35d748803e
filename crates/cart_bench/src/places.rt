//! Memory checks: what is in a memory at the end of a frame, and what is said if it is not as expected.

use crate::memories::{byte_at, name_of};
use crate::played::Played;
use bench_checks::{Address, Expected, MemoryCheck};
use std::alloc::{AllocError, Global};

/// The bytes of a place as far as the memory goes, so many at most.
fn bytes_at(
    alloc: Global,
    played: &Played,
    check: &MemoryCheck,
    first: u32,
    count: usize,
) -> Result<Vec<u8>, AllocError> {
    let (console, sound) = played.machines();
    let mut bytes = Vec::new(alloc);
    for offset in 0..count {
        let Some(at) = first.checked_add(offset.min(0xFFFF_FFFF) as u32) else {
            break;
        };
        match byte_at(console, sound, check.memory, at) {
            Some(byte) => bytes.push(byte)?,
            None => break,
        }
    }
    Ok(bytes)
}

/// What reports call a place.
fn place_text(alloc: Global, check: &MemoryCheck, at: u32) -> Result<String, AllocError> {
    match &check.place {
        Address::Label(label, 0) => format!(in alloc; "{} (0x{at:06X})", label.as_str()),
        Address::Label(label, offset) => {
            format!(in alloc; "{} + {offset} (0x{at:06X})", label.as_str())
        }
        Address::At(_) => {
            let name = name_of(check.memory);
            format!(in alloc; "{name} 0x{at:04X}")
        }
    }
}

/// The number of these bytes, low byte first.
fn number_of(bytes: &[u8]) -> u32 {
    match bytes {
        [low] => u32::from(*low),
        [low, high] => u32::from(u16::from_le_bytes([*low, *high])),
        _ => 0,
    }
}

/// Says which number is not as expected.
fn other_number(
    alloc: Global,
    place: &str,
    number: u32,
    least: u32,
    most: u32,
) -> Result<String, AllocError> {
    if least == most {
        format!(in alloc; "{place} is {number} (0x{number:02X}), expected {least} (0x{least:02X})")
    } else {
        format!(in alloc; "{place} is {number} (0x{number:02X}), expected {least} to {most}")
    }
}

/// Says how many bytes are not as expected, and the first.
fn other_bytes(
    alloc: Global,
    check: &MemoryCheck,
    first: u32,
    came: &[u8],
    expected: &[u8],
) -> Result<String, AllocError> {
    let mut count = 0u32;
    let mut apart = None;
    let mut offset = 0u32;
    for (byte, wanted) in came.iter().zip(expected.iter()) {
        if *byte != *wanted {
            count = count.saturating_add(1);
            if apart.is_none() {
                apart = Some((offset, *byte, *wanted));
            }
        }
        offset = offset.saturating_add(1);
    }
    let (offset, byte, wanted) = apart.unwrap_or((0, 0, 0));
    let all = expected.len();
    let place = place_text(alloc, check, first)?;
    format!(in alloc;
        "{count} of the {all} bytes at {} differ: the first is byte {offset}, {byte:02X}, expected {wanted:02X}",
        place.as_str()
    )
}

/// Says what these bytes are, which are not as expected. `place` is what reports call theirs.
fn other_value(
    alloc: Global,
    check: &MemoryCheck,
    first: u32,
    place: &str,
    came: &[u8],
) -> Result<String, AllocError> {
    if came.len() < check.expected.size() {
        return format!(in alloc; "{place} is not all memory");
    }
    match &check.expected {
        Expected::Byte(least, most) | Expected::Word(least, most) => {
            other_number(alloc, place, number_of(came), *least, *most)
        }
        Expected::Bytes(bytes) => other_bytes(alloc, check, first, came, bytes.as_slice()),
    }
}

/// Says what is not as expected: these bytes.
fn line_of(
    alloc: Global,
    check: &MemoryCheck,
    first: u32,
    came: &[u8],
) -> Result<String, AllocError> {
    let place = place_text(alloc, check, first)?;
    let what = other_value(alloc, check, first, place.as_str(), came)?;
    let frame = check.at;
    format!(in alloc; "frame {frame}: {}", what.as_str())
}

/// Compares a memory with what is expected of it, from this offset or address on. Returns what is not as expected.
pub fn compare_memory(
    alloc: Global,
    played: &Played,
    check: &MemoryCheck,
    first: u32,
) -> Result<Option<String>, AllocError> {
    let came = bytes_at(alloc, played, check, first, check.expected.size())?;
    if check.expected.is_met(came.as_slice()) {
        return Ok(None);
    }
    Ok(Some(line_of(alloc, check, first, came.as_slice())?))
}
