//! In which bytes two states differ.

use crate::state::{FIELDS, Memory, State};
use anyhow::Result;
use companion_words::NO;
use std::rt::Files;

/// The bytes of the header, whose numbers are printed in decimal.
const HEADER: usize = 0x20;

/// What was found so far of two states, and how many lines may still be printed.
#[derive(Drop)]
struct Found {
    differing: u64,
    lines: u64,
}

impl Found {
    /// Counts a difference; whether it is to be printed.
    fn count(&mut self) -> bool {
        self.differing = self.differing.saturating_add(1);
        if self.lines == 0 {
            return false;
        }
        self.lines -= 1;
        true
    }
}

/// Compares the numbers of the header and the registers.
fn compare_fields<R: Print>(rt: &R, a: &State, b: &State, found: &mut Found) -> Result<()> {
    for field in FIELDS.iter() {
        let first = a.number(field.at, field.size);
        let second = b.number(field.at, field.size);
        if first != second && found.count() {
            if field.at < HEADER {
                println!(rt; "{}: {first} and {second}", field.name)?;
            } else {
                println!(rt; "{}: {first:02x} and {second:02x}", field.name)?;
            }
        }
    }
    Ok(())
}

/// Compares a memory that both have, as far as the shorter one goes.
fn compare_memory<R: Print>(
    rt: &R,
    a: &State,
    b: &State,
    memory: &Memory,
    size: usize,
    found: &mut Found,
) -> Result<()> {
    for address in 0..size {
        let at = memory.at.saturating_add(address);
        let first = a.byte(at);
        let second = b.byte(at);
        if first != second && found.count() {
            println!(rt;
                "{} {address:05x}: {first:02x} and {second:02x}",
                memory.name
            )?;
        }
    }
    Ok(())
}

/// Prints the first `lines` differences of two states, and how many there are; returns the status.
fn compare<R: Print>(rt: &R, a: &State, b: &State, lines: u64) -> Result<u8> {
    let mut found = Found {
        differing: 0,
        lines,
    };
    compare_fields(rt, a, b, &mut found)?;
    for number in 0..State::memories() {
        if let (Some(memory), Some(other)) = (a.memory(number), b.memory(number)) {
            let size = memory.size.min(other.size);
            compare_memory(rt, a, b, &memory, size, &mut found)?;
        }
    }
    if found.differing == 0 {
        println!(rt; "alike")?;
        return Ok(0);
    }
    println!(rt; "different: {} registers and bytes", found.differing)?;
    Ok(NO)
}

/// `look diff --state A B`: the first `lines` differences, and how many there are.
pub fn say_difference<R: Files + Print + AllocGlobal>(
    rt: &R,
    first: &str,
    second: &str,
    lines: u64,
) -> Result<u8> {
    let a = State::read(rt, first)?;
    let b = State::read(rt, second)?;
    compare(rt, &a, &b, lines)
}
