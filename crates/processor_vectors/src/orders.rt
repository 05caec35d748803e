//! Compares the tables of access orders on the pages about the processors with what the proved processors do.
//!
//! A page's table has a row for each order, `| instructions | opcodes | width | cycles |`, as a data sheet has. Each of
//! its opcodes is run in many states, access by access. Every cycle must be of the kind that the row names, and the
//! instruction must end after the last one. Each opcode must be in exactly one row. `65c816.md` and `spc700.md` of the
//! program's data are the pages themselves. A line with `of the SPC700` before its table marks a page about the SPC700.
//! The rows of `orders_differing.md` are wrong in one thing each, and must differ.

mod cpu;
mod cycle;
mod row;
mod spc;
mod trial;

use cpu::CpuRun;
use row::Row;
use spc::SpcRun;
use std::io;

/// Runs the rows of a page, and prints those that differ and last the number of rows.
pub(crate) fn follow<R: Print>(rt: &R, name: &str, text: &str) -> io::Result<()> {
    let mut rows = 0u64;
    let mut runs = 0u64;
    let mut seen = [0u8; 256];
    let mut is_spc = false;
    for line in text.lines() {
        is_spc = is_spc || line.contains("of the SPC700");
        let Some(row) = Row::of(line) else {
            continue;
        };
        rows = rows.saturating_add(1);
        for word in row.begins.split_whitespace() {
            let (made, fits) = if is_spc {
                trial::run_all::<SpcRun>(&row, word, &mut seen)
            } else {
                trial::run_all::<CpuRun>(&row, word, &mut seen)
            };
            runs = runs.saturating_add(made);
            if !fits {
                println!(rt; "differs: {word} in {line}")?;
            }
        }
    }
    let once = seen.iter().filter(|times| **times == 1).count();
    println!(rt; "{name}: {rows} orders, {once} opcodes in one row each, {runs} instructions run")
}
