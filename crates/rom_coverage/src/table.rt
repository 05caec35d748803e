//! A table of how much of each bank was used, and how.

use crate::marks::{Coverage, Use, use_of};
use itoa::Buffer;
use std::alloc::AllocError;

/// How many bytes were used in each way.
#[derive(Clone, Copy)]
struct Counts {
    bytes: u64,
    executed: u64,
    data: u64,
    transfer: u64,
}

/// The counts of no bytes.
const NOTHING: Counts = Counts {
    bytes: 0,
    executed: 0,
    data: 0,
    transfer: 0,
};

/// Spaces: as many as a column may need.
static SPACES: [u8; 20] = [b' '; 20];

/// The names of the columns.
const HEAD: &str = "bank offset    bytes  executed      data       DMA     never\n";

const CSV_HEAD: &str = "bank,offset,bytes,executed,data,dma,never\n";

/// The digits of a hexadecimal number.
static DIGITS: [u8; 16] = *b"0123456789ABCDEF";

/// Returns the counts with one more byte of these marks.
fn counted(before: Counts, marks: u8) -> Counts {
    let mut counts = before;
    counts.bytes = counts.bytes.saturating_add(1);
    match use_of(marks) {
        Use::Executed => counts.executed = counts.executed.saturating_add(1),
        Use::Data => counts.data = counts.data.saturating_add(1),
        Use::Transfer => counts.transfer = counts.transfer.saturating_add(1),
        Use::Never => {}
    }
    counts
}

/// Returns the counts of these bytes.
fn counts_of(marks: &[u8]) -> Counts {
    marks
        .iter()
        .fold(NOTHING, |counts, marks| counted(counts, *marks))
}

/// Adds a text.
fn push_text(out: &mut Vec<u8>, text: &str) -> Result<(), AllocError> {
    out.extend_from_slice(text.as_bytes())
}

/// Adds a text, padded with spaces on the left up to a width of at most 20.
fn push_right(out: &mut Vec<u8>, text: &[u8], width: usize) -> Result<(), AllocError> {
    out.extend_from_slice(&SPACES[..width.saturating_sub(text.len()).min(20)])?;
    out.extend_from_slice(text)
}

/// Adds a number, padded up to a width.
fn push_number(out: &mut Vec<u8>, number: u64, width: usize) -> Result<(), AllocError> {
    let mut digits = Buffer::new();
    push_right(out, digits.format(number).as_bytes(), width)
}

/// Adds a number as hexadecimal digits, as many as these places.
fn push_hex(out: &mut Vec<u8>, number: u64, places: &[u32]) -> Result<(), AllocError> {
    for place in places {
        let digit = (number >> (*place % 64)) % 16;
        out.push(DIGITS[digit as usize])?;
    }
    Ok(())
}

/// Adds a share in hundredths of a percent, rounded to the nearest.
fn push_share(out: &mut Vec<u8>, part: u64, whole: u64) -> Result<(), AllocError> {
    let doubled = part.min(1 << 40) * 20_000;
    let share = match doubled
        .saturating_add(whole)
        .checked_div(whole.saturating_mul(2))
    {
        Some(share) => share,
        None => 0,
    };
    push_number(out, share / 100, 6)?;
    out.push(b'.')?;
    let rest = share % 100;
    out.push(b'0' + (rest / 10) as u8)?;
    out.push(b'0' + (rest % 10) as u8)?;
    out.push(b'%')?;
    Ok(())
}

/// Adds the counts of a bank.
fn push_counts(out: &mut Vec<u8>, counts: Counts, is_csv: bool) -> Result<(), AllocError> {
    let touched = counts
        .executed
        .saturating_add(counts.data)
        .saturating_add(counts.transfer);
    let never = counts.bytes.saturating_sub(touched);
    let parts = [counts.executed, counts.data, counts.transfer, never];
    push_number(out, counts.bytes, if is_csv { 0 } else { 9 })?;
    for part in parts {
        if is_csv {
            out.push(b',')?;
            push_number(out, part, 0)?;
        } else {
            push_share(out, part, counts.bytes)?;
        }
    }
    out.push(b'\n')?;
    Ok(())
}

/// Adds the table: a line for each bank of `bank` bytes, and one for the whole ROM. A byte counts once, in the first
/// column that it fits. CSV has numbers of bytes, text has shares.
pub fn push_table(
    out: &mut Vec<u8>,
    coverage: &Coverage,
    bank: usize,
    is_csv: bool,
) -> Result<(), AllocError> {
    push_text(out, if is_csv { CSV_HEAD } else { HEAD })?;
    let mut number = 0u64;
    let mut offset = 0u64;
    for marks in coverage.marks().chunks(bank.max(1)) {
        push_hex(out, number, &[4, 0])?;
        push_text(out, if is_csv { "," } else { "   " })?;
        push_hex(out, offset, &[20, 16, 12, 8, 4, 0])?;
        push_text(out, if is_csv { "," } else { "" })?;
        push_counts(out, counts_of(marks), is_csv)?;
        number = number.saturating_add(1);
        offset = offset.saturating_add(marks.len() as u64);
    }
    push_text(out, if is_csv { "all,," } else { "all        " })?;
    push_counts(out, counts_of(coverage.marks()), is_csv)
}
