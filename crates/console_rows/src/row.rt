//! Follows the lines of a file of rows.

use crate::cartridge::Cartridge;
use crate::picture::show_frame;
use crate::run::{Run, Show};
use console_machine::ConsoleSide;
use snes_defs::{Job, Region};
use std::alloc::Global;
use std::io;
use std::str::SplitWhitespace;

/// The current row: its cartridge, its script, and what was kept.
#[derive(Drop)]
pub struct Row {
    cartridge: Cartridge,
    /// The cartridge that a line `keep` kept.
    kept: Cartridge,
    is_torn: bool,
}

/// Reads the next number of a line.
fn number(words: &mut SplitWhitespace<'_>) -> Option<u64> {
    words.next()?.parse().ok()
}

/// Reads the clocks between which acts are shown.
fn between(show: Show, mut words: SplitWhitespace<'_>) -> Option<(Show, u64, u64)> {
    let from = number(&mut words)?;
    Some((show, from, number(&mut words)?))
}

/// Reads which acts a line shows, from which clock on, and up to which.
fn shown(line: &str) -> Option<(Show, u64, u64)> {
    let mut words = line.split_whitespace();
    let kind = words.next()?;
    match kind.as_bytes() {
        b"acts" => between(Show::Places, words),
        b"lines" => between(Show::Lines, words),
        b"since" => between(Show::Differences, words),
        b"bytes" => Some((Show::Bytes, 0, number(&mut words)?)),
        _ => None,
    }
}

/// Reads the frame of a line `picture FRAME`.
fn frame_of(line: &str) -> Option<u64> {
    line.strip_prefix("picture ")?.parse().ok()
}

/// Puts a copy of a cartridge in the place of another, if there is one.
fn set(cartridge: &mut Cartridge, copy: Option<Cartridge>) -> Option<()> {
    *cartridge = copy?;
    Some(())
}

/// Prints a line that is invalid.
fn name_line(rt: &impl Print, line: &str) -> io::Result<()> {
    println!(rt; "no line of a row: {line}")
}

impl Row {
    /// Returns a row with an empty cartridge.
    pub fn new(alloc: Global) -> Row {
        Row {
            cartridge: Cartridge::new(alloc),
            kept: Cartridge::new(alloc),
            is_torn: false,
        }
    }

    /// Follows a line that makes the row's cartridge or script.
    fn prepare(&mut self, alloc: Global, line: &str) -> Option<()> {
        if let Some(text) = line.strip_prefix("script ") {
            return self.cartridge.script(text);
        }
        let mut words = line.split_whitespace();
        let kind = words.next()?;
        match kind.as_bytes() {
            b"code" => self.cartridge.code(words),
            b"set" => self.cartridge.set(words),
            b"line" => self.cartridge.wait(words),
            b"put" => self.cartridge.put(words),
            b"keep" => set(&mut self.kept, self.cartridge.copied(alloc)),
            b"kept" => set(&mut self.cartridge, self.kept.copied(alloc)),
            b"torn" => {
                self.is_torn = true;
                Some(())
            }
            _ => None,
        }
    }

    /// Runs the row's console as a line asks for.
    fn show(
        &self,
        rt: &impl Print,
        side: &mut ConsoleSide,
        region: Region,
        line: &str,
    ) -> io::Result<()> {
        if let Some((show, from, to)) = shown(line) {
            return Run::new(show, from, to, self.is_torn).show_acts(rt, side, region);
        }
        match frame_of(line) {
            Some(frame) => show_frame(rt, side, frame),
            None => name_line(rt, line),
        }
    }

    /// Makes the row's console, and runs it as a line asks for.
    fn run(&self, rt: &impl Print, job: &Job, alloc: Global, line: &str) -> io::Result<()> {
        match ConsoleSide::new(alloc, job) {
            Ok(mut side) => self.show(rt, &mut side, job.region, line),
            Err(_) => println!(rt; "no memory"),
        }
    }

    /// Follows a line, unless it is empty or a comment. Prints it if it is invalid.
    pub fn follow(&mut self, rt: &impl Print, alloc: Global, line: &str) -> io::Result<()> {
        if line.is_empty() || line.starts_with("#") {
            return Ok(());
        }
        if let Some(title) = line.strip_prefix("row ") {
            self.is_torn = false;
            if self.cartridge.begin(alloc).is_none() {
                return println!(rt; "no memory");
            }
            return println!(rt; "{title}");
        }
        if self.prepare(alloc, line).is_some() {
            return Ok(());
        }
        match self.cartridge.job(alloc) {
            Some(job) => self.run(rt, &job, alloc, line),
            None => name_line(rt, line),
        }
    }
}
