//! The trace: which steps are written, and how.

use crate::breaks::{Break, hits};
use crate::comma::{HEAD, LABEL_HEAD, push_labels, push_row};
use crate::cover::note;
use crate::labels::Labels;
use crate::line::Line;
use crate::pair::Pair;
use crate::step::{Kind, Step};
use crate::text::{push_line, push_names};
use crate::until::Until;
use anyhow::{Context, Result, bail};
use rom_coverage::Coverage;
use snes_defs::{Region, Side};
use std::alloc::Global;
use std::io::{self, Write};

/// Which steps are written.
#[derive(Drop)]
pub struct Wanted {
    /// The first stamp: earlier steps are not written.
    pub from: u64,
    /// The end: steps that begin at this stamp or later are not written.
    pub to: u64,
    /// The side whose steps are written, or none for both.
    pub side: Option<Side>,
    /// Whether only opcodes and resets are written, except for hits.
    pub instructions: bool,
    /// The breakpoints: if there are any, only the steps that hit are written, and `then` steps after each hit.
    pub breaks: Vec<Break>,
    /// How many steps are written after each hit.
    pub then: u64,
    /// The most lines that are written.
    pub lines: u64,
    /// Whether lines are CSV.
    pub is_csv: bool,
    /// Whether steps are written at all.
    pub tells_steps: bool,
    /// Whether what steps do to the cartridge's ROM is noted.
    pub notes: bool,
    /// What ends the trace before its range ends.
    pub until: Until,
}

/// What messages say of a failed write.
const FAULT: &str = "cannot write the trace";

/// How a trace ended.
#[derive(Clone, Copy)]
pub struct Told {
    /// The number of lines that were written, without a head.
    pub lines: u64,
    /// Whether what ends the trace was reached. If nothing is to end it: whether a breakpoint was hit, or there is
    /// none. Also if the reader closed the pipe.
    pub is_hit: bool,
}

/// A trace in progress.
#[derive(Drop)]
struct Telling<'a> {
    wanted: &'a Wanted,
    /// How many steps are still to be written after the last hit.
    left: u64,
    /// Whether the reader has closed the pipe: then no more steps are written.
    is_closed: bool,
    told: Told,
}

impl Telling<'_> {
    /// Begins a trace.
    fn new(wanted: &Wanted) -> Telling<'_> {
        Telling {
            wanted,
            left: 0,
            is_closed: false,
            told: Told {
                lines: 0,
                is_hit: wanted.breaks.is_empty() && !wanted.until.is_given(),
            },
        }
    }

    /// Whether a step is at a stamp that is wanted.
    fn is_in_time(&self, step: &Step) -> bool {
        step.stamp >= self.wanted.from && step.stamp < self.wanted.to
    }

    /// Whether a step is of a side and at a stamp that are wanted.
    fn is_in_range(&self, step: &Step) -> bool {
        self.is_in_time(step) && !self.wanted.side.is_some_and(|side| side != step.side)
    }

    /// Whether a step is of a kind that is wanted.
    fn is_of_kind(&self, step: &Step) -> bool {
        !self.wanted.instructions || step.kind == Kind::Opcode || step.kind == Kind::Reset
    }

    /// Whether a step is written.
    fn tells(&mut self, step: &Step) -> bool {
        if !self.wanted.tells_steps || self.is_closed || !self.is_in_range(step) {
            return false;
        }
        if self.wanted.breaks.is_empty() {
            return self.is_of_kind(step);
        }
        if hits(self.wanted.breaks.as_slice(), step) {
            if !self.wanted.until.is_given() {
                self.told.is_hit = true;
            }
            self.left = self.wanted.then;
            return true;
        }
        if self.left > 0 && self.is_of_kind(step) {
            self.left -= 1;
            return true;
        }
        false
    }

    /// Whether the trace ends before its next step.
    fn ends(&mut self, pair: &Pair) -> bool {
        if self.wanted.until.is_begun(pair) {
            self.told.is_hit = true;
            return true;
        }
        let is_cut = self.is_closed && !self.wanted.notes;
        is_cut || pair.is_past(self.wanted.to) || self.told.lines >= self.wanted.lines
    }

    /// Whether the trace ends with a step that was taken.
    fn ends_with(&mut self, pair: &Pair, step: &Step) -> bool {
        if self.is_in_time(step) && self.wanted.until.is_reached(pair, step) {
            self.told.is_hit = true;
            return true;
        }
        false
    }
}

/// Writes the line of a step.
fn write_step<W: Write>(
    out: &mut W,
    line: &mut Line,
    pair: &Pair,
    labels: &Labels,
    step: &Step,
    is_csv: bool,
) -> io::Result<()> {
    line.clear();
    let (console, _) = pair.machines();
    let named = labels.names_of(console.bus(), step);
    if is_csv {
        push_row(line, pair.region(), step);
        if labels.is_given() {
            push_labels(line, named);
        }
    } else {
        push_line(line, pair.region(), step);
        push_names(line, named);
    }
    line.text("\n");
    out.write_all(line.bytes()?)
}

/// Writes the head of CSV.
fn write_head<W: Write>(out: &mut W, labels: &Labels) -> io::Result<()> {
    out.write_all(HEAD.as_bytes())?;
    if labels.is_given() {
        out.write_all(LABEL_HEAD.as_bytes())?;
    }
    out.write_all(b"\n")
}

/// Whether the reader has closed the pipe, as `head` does, by the result of a write. Another failed write is an error.
pub fn is_closed(written: io::Result<()>, fault: &'static str) -> Result<bool> {
    match written {
        Ok(()) => Ok(false),
        Err(error) if error.kind() == io::ErrorKind::BrokenPipe => Ok(true),
        Err(error) => Err(error).context(fault),
    }
}

/// Takes the steps up to the end of what is wanted, writes those that are wanted, each as a line in the buffer, and notes
/// what they do to ROM.
fn tell_steps<W: Write>(
    telling: &mut Telling<'_>,
    pair: &mut Pair,
    labels: &Labels,
    coverage: &mut Coverage,
    line: &mut Line,
    out: &mut W,
) -> Result<()> {
    let wanted = telling.wanted;
    for _ in 0..u64::MAX {
        if telling.ends(pair) {
            break;
        }
        let Some(step) = pair.next() else {
            bail!("the machines cannot go on");
        };
        if telling.tells(&step) {
            let written = write_step(out, line, pair, labels, &step, wanted.is_csv);
            telling.is_closed = is_closed(written, FAULT)?;
            telling.told.lines = telling.told.lines.saturating_add(1);
        }
        if wanted.notes && telling.is_in_time(&step) {
            note(coverage, &step);
        }
        if telling.ends_with(pair, &step) {
            break;
        }
    }
    Ok(())
}

/// Writes the steps up to the end of what is wanted, behind a head if they are CSV, and notes what they do to ROM.
pub fn write_trace<W: Write>(
    alloc: Global,
    pair: &mut Pair,
    wanted: &Wanted,
    labels: &Labels,
    coverage: &mut Coverage,
    out: &mut W,
) -> Result<Told> {
    let mut line = Line::new(alloc)?;
    let mut telling = Telling::new(wanted);
    if wanted.is_csv && wanted.tells_steps {
        telling.is_closed = is_closed(write_head(out, labels), FAULT)?;
    }
    tell_steps(&mut telling, pair, labels, coverage, &mut line, out)?;
    let is_cut = is_closed(out.flush(), FAULT)? || telling.is_closed;
    let Told { lines, is_hit } = telling.told;
    Ok(Told {
        lines,
        is_hit: is_hit || is_cut,
    })
}
