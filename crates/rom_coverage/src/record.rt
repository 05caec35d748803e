//! The record of executed lines of source, as `lcov` reads it.

use crate::marks::{Coverage, OPCODE, Use, use_of};
use itoa::Buffer;
use std::alloc::{AllocError, Global};
use symbol_files::{SourceLine, SourceLines};

/// A line of source with what the run did with its bytes.
#[derive(Clone, Copy)]
struct Tally {
    file: u32,
    line: u32,
    /// Whether an instruction of it was executed.
    is_executed: bool,
    /// Whether its bytes were read, and none executed.
    is_read: bool,
}

/// Returns a line of source by what the run did with some of its bytes.
fn tally_of(coverage: &Coverage, line: &SourceLine) -> Tally {
    let mut is_executed = false;
    let mut is_read = false;
    let first = line.first as usize;
    for at in first..first.saturating_add(line.size as usize) {
        if let Some(marks) = coverage.marks().get(at) {
            is_executed = is_executed || *marks & OPCODE != 0;
            is_read = is_read || use_of(*marks) == Use::Data || use_of(*marks) == Use::Transfer;
        }
    }
    Tally {
        file: line.file,
        line: line.line,
        is_executed,
        is_read,
    }
}

/// Returns what the run did with all bytes of a line, given the same of some of them.
fn joined(before: Tally, more: Tally) -> Tally {
    Tally {
        file: before.file,
        line: before.line,
        is_executed: before.is_executed || more.is_executed,
        is_read: before.is_read || more.is_read,
    }
}

/// Returns the lines of instructions, each once. A line whose bytes were read and not executed is no such line.
fn tallies_of(
    alloc: Global,
    coverage: &Coverage,
    source: &SourceLines,
) -> Result<Vec<Tally>, AllocError> {
    let mut tallies: Vec<Tally> = Vec::new(alloc);
    for line in source.lines() {
        let next = tally_of(coverage, line);
        match tallies.pop() {
            Some(last) if last.file == next.file && last.line == next.line => {
                tallies.push(joined(last, next))?;
            }
            Some(last) => {
                tallies.push(last)?;
                tallies.push(next)?;
            }
            None => tallies.push(next)?,
        }
    }
    tallies.retain(|tally| tally.is_executed || !tally.is_read);
    Ok(tallies)
}

/// Adds a decimal number.
fn push_number(out: &mut Vec<u8>, number: u64) -> Result<(), AllocError> {
    let mut digits = Buffer::new();
    out.extend_from_slice(digits.format(number).as_bytes())
}

/// Adds a name and a number as a line.
fn push_named(out: &mut Vec<u8>, name: &str, number: u64) -> Result<(), AllocError> {
    out.extend_from_slice(name.as_bytes())?;
    push_number(out, number)?;
    out.push(b'\n')?;
    Ok(())
}

/// The file of source that a record is about.
#[derive(Clone, Copy)]
struct Section {
    file: u32,
    /// Its lines, and how many of them were executed.
    found: u64,
    hit: u64,
}

/// Begins the section of a file.
fn begin(out: &mut Vec<u8>, source: &SourceLines, file: u32) -> Result<Section, AllocError> {
    out.extend_from_slice(b"TN:\nSF:")?;
    out.extend_from_slice(source.name_of(file).unwrap_or("").as_bytes())?;
    out.push(b'\n')?;
    Ok(Section {
        file,
        found: 0,
        hit: 0,
    })
}

/// Ends the section of a file.
fn end(out: &mut Vec<u8>, section: Section) -> Result<(), AllocError> {
    push_named(out, "LF:", section.found)?;
    push_named(out, "LH:", section.hit)?;
    out.extend_from_slice(b"end_of_record\n")
}

/// Returns the section that a line belongs to: the one that is open, or that of its file.
fn section_for(
    out: &mut Vec<u8>,
    source: &SourceLines,
    open: Option<Section>,
    file: u32,
) -> Result<Section, AllocError> {
    match open {
        Some(section) if section.file == file => Ok(section),
        Some(section) => {
            end(out, section)?;
            begin(out, source, file)
        }
        None => begin(out, source, file),
    }
}

/// Returns the record of the lines of source, whose bytes are those of the ROM.
pub fn record_file(
    alloc: Global,
    coverage: &Coverage,
    source: &SourceLines,
) -> Result<Vec<u8>, AllocError> {
    let mut out = Vec::new(alloc);
    let mut open: Option<Section> = None;
    let tallies = tallies_of(alloc, coverage, source)?;
    for tally in tallies.as_slice() {
        let mut section = section_for(&mut out, source, open, tally.file)?;
        section.found = section.found.saturating_add(1);
        if tally.is_executed {
            section.hit = section.hit.saturating_add(1);
        }
        let hits = if tally.is_executed { ",1\n" } else { ",0\n" };
        out.extend_from_slice(b"DA:")?;
        push_number(&mut out, u64::from(tally.line))?;
        out.extend_from_slice(hits.as_bytes())?;
        open = Some(section);
    }
    if let Some(section) = open {
        end(&mut out, section)?;
    }
    Ok(out)
}
