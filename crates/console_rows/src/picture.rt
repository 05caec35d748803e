//! Prints a frame that a console shows.

use crate::run::make;
use console_machine::ConsoleSide;
use side_law::Machine;
use std::io;

/// The bytes of a row of 512 dots, and the rows of a frame.
const ROW: usize = 1024;

const ROWS: u64 = 239;

/// More steps than the rows of a frame take.
const MOST_STEPS: u32 = 2_000_000;

/// The dots of a row, two bytes each.
type Dots = [u8; ROW];

/// Returns a dot of a row.
fn dot(row: &Dots, e: usize) -> u16 {
    if e >= 512 {
        return 0;
    }
    row[2 * e] as u16 + 256 * (row[2 * e + 1] as u16)
}

/// Prints the runs of equal dots, every `step`th from `first` on.
fn show_runs(rt: &impl Print, row: &Dots, first: usize, step: usize) -> io::Result<()> {
    let mut count = 0u32;
    for k in 0..512usize {
        let e = k.wrapping_mul(step).wrapping_add(first);
        let next = e.wrapping_add(step);
        if e >= 512 {
            break;
        }
        count = count.saturating_add(1);
        if next >= 512 || dot(row, next) != dot(row, e) {
            print!(rt; " {count} x {:04X}", dot(row, e))?;
            count = 0;
        }
    }
    Ok(())
}

/// Whether both dots of each pixel are alike.
fn has_pixels(row: &Dots) -> bool {
    for x in 0..256usize {
        if dot(row, 2 * x) != dot(row, 2 * x + 1) {
            return false;
        }
    }
    true
}

/// Prints a row by its pixels, or by the first and the second dots of the pixels where they differ.
fn show_row(rt: &impl Print, row: &Dots) -> io::Result<()> {
    if has_pixels(row) {
        show_runs(rt, row, 0, 2)?;
    } else {
        print!(rt; " first dots")?;
        show_runs(rt, row, 0, 2)?;
        print!(rt; ", second dots")?;
        show_runs(rt, row, 1, 2)?;
    }
    println!(rt; "")
}

/// Prints the equal rows from one to another.
fn show_rows(rt: &impl Print, row: &Dots, from: u64, to: u64) -> io::Result<()> {
    print!(rt; "rows {from} to {to}:")?;
    show_row(rt, row)
}

/// Prints a frame of a console, counted from 0 from its start on.
pub fn show_frame(rt: &impl Print, side: &mut ConsoleSide, frame: u64) -> io::Result<()> {
    let mut last = [0u8; ROW];
    let mut from = 0u64;
    let mut rows = 0u64;
    let begin = ROWS.saturating_mul(frame);
    for _ in 0..MOST_STEPS {
        let mut row = [0u8; ROW];
        if side.pending() >= ROW && side.drain(&mut row) == ROW {
            let place = rows.saturating_sub(begin);
            if rows > begin && row != last {
                show_rows(rt, &last, from, place.saturating_sub(1))?;
                from = place;
            }
            last = row;
            rows = rows.saturating_add(1);
            if rows == begin.saturating_add(ROWS) {
                return show_rows(rt, &last, from, ROWS - 1);
            }
        }
        if !make(side, 0, &mut row) {
            return println!(rt; "no room");
        }
    }
    println!(rt; "too few rows")
}
