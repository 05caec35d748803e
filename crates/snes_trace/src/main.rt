//! Traces a run of `snes`: each step of both processors, for people who debug a cartridge.
//!
//! `trace --help` lists its arguments. It takes the steps of the serial console (`serial_console`) one after another,
//! with the two machines of `snes`. It reads each step from the machines before the step is taken, so the trace shows
//! what `snes serial` does. `docs/use/TRACE.md` describes a line. If a processor has stopped for good, or the sound
//! side waits in its boot ROM, a message on standard error says so at the end.
//!
//! With `--coverage` it tells no step, but which bytes of the cartridge's ROM the run used (`rom_coverage`).
//!
//! The status is 0 if the trace was written. It is 1 if what was to end it was not reached, or if there are breakpoints
//! and none was hit. It is 2 if something could not be read or written or was refused, or if the command line is
//! invalid.
#![tactic(auto)]

mod breaks;
mod comma;
mod cover;
mod digits;
mod ends;
mod labels;
mod line;
mod looks;
mod mnemonics;
mod operands;
mod pair;
mod parts;
mod position;
mod spc_mnemonics;
mod spc_operands;
mod step;
mod targets;
mod text;
mod trace;
mod until;
mod words;

use anyhow::{Context, Result, bail};
use clap::ArgMatches;
use clock_ratio::end_stamp_in;
use companion_words::{Companion, DONE, NO, Program, run};
use cover::{Asked, Form, asked_of, bank_of, write_file};
use ends::tell_ends;
use job_files::{Names, job_of};
use labels::Labels;
use pair::Pair;
use rom_coverage::{Coverage, push_table};
use snes_defs::{Job, MOST_FRAMES, Region, Side};
use std::alloc::Global;
use std::fs;
use std::io::{self, BufWriter, Write};
use std::process::ExitCode;
use std::rt::Files;
use symbol_files::{SourceLines, Symbols};
use trace::{Told, Wanted, is_closed, write_trace};
use until::until_of;

/// Returns the stamp at which a frame begins.
fn frame_stamp(region: Region, frame: u64) -> Result<u64> {
    match u32::try_from(frame) {
        Ok(frame) if frame <= MOST_FRAMES => Ok(end_stamp_in(region, frame)),
        _ => bail!("a run has at most {MOST_FRAMES} frames"),
    }
}

/// Returns the stamps in the arguments, or none.
fn stamps_of(words: &ArgMatches<'_>) -> Result<Option<(u64, u64)>> {
    let from = words.get_one::<u64>("from");
    let to = words.get_one::<u64>("to");
    match (from, to) {
        (Some(from), Some(to)) if to < from => bail!("--to {to} is before --from {from}"),
        (Some(from), Some(to)) => Ok(Some((from, to))),
        (None, None) => Ok(None),
        _ => bail!("--from and --to go together"),
    }
}

/// Returns the first stamp that is traced, and the one after the last.
fn range_of(
    region: Region,
    stamps: Option<(u64, u64)>,
    words: &ArgMatches<'_>,
) -> Result<(u64, u64)> {
    match stamps {
        Some((from, to)) => {
            if to > end_stamp_in(region, MOST_FRAMES) {
                bail!("a run has at most {MOST_FRAMES} frames");
            }
            Ok((from, to))
        }
        None => {
            let first = words.get_one::<u64>("frame").unwrap_or(0);
            let count = words.get_one::<u64>("frames").unwrap_or(1);
            let from = frame_stamp(region, first)?;
            Ok((from, frame_stamp(region, first.saturating_add(count))?))
        }
    }
}

/// Returns the side whose steps are traced, or none for both.
fn side_of(words: &ArgMatches<'_>) -> Option<Side> {
    match words.get_str("side") {
        Some("console") => Some(Side::Console),
        Some("sound") => Some(Side::Sound),
        _ => None,
    }
}

/// Reads the breakpoints of the file that is named, if one is.
fn breaks_of<R: Files + AllocGlobal>(
    rt: &R,
    alloc: Global,
    labels: &Labels,
    words: &ArgMatches<'_>,
) -> Result<Vec<breaks::Break>> {
    match words.get_str("break") {
        Some(name) => {
            let file = fs::read_to_string(rt, name).context(format_args!("cannot read {name}"))?;
            breaks::read_breaks(alloc, labels, name, file.as_str())
        }
        None => Ok(Vec::new(alloc)),
    }
}

/// Reads the text of the symbol file that is named, if one is.
fn symbol_text<R: Files + AllocGlobal>(rt: &R, words: &ArgMatches<'_>) -> Result<Option<String>> {
    match words.get_str("symbols") {
        Some(name) => {
            let text = fs::read_to_string(rt, name).context(format_args!("cannot read {name}"))?;
            Ok(Some(text))
        }
        None => Ok(None),
    }
}

/// Reads the labels of a symbol file, if there is one.
fn labels_of(alloc: Global, words: &ArgMatches<'_>, text: Option<&str>) -> Result<Labels> {
    let Some(text) = text else {
        return Ok(Labels::new(alloc, None));
    };
    match Symbols::read(alloc, text) {
        Ok(symbols) => Ok(Labels::new(alloc, Some(symbols))),
        Err(refused) => {
            let name = words.get_str("symbols").unwrap_or("");
            bail!("{name} refused: {refused}")
        }
    }
}

/// Reads the lines of source, if a record of them is asked for.
fn source_of(
    alloc: Global,
    asked: Option<Asked<'_>>,
    text: Option<&str>,
) -> Result<Option<SourceLines>> {
    match (asked, text) {
        (Some(asked), Some(text)) if asked.form == Form::Record => {
            match SourceLines::read(alloc, text) {
                Ok(source) => Ok(Some(source)),
                Err(refused) => bail!("{}: no lines of source: {refused}", asked.name),
            }
        }
        (Some(asked), None) if asked.form == Form::Record => {
            bail!("{}: needs a debug file of ld65 as --symbols", asked.name)
        }
        _ => Ok(None),
    }
}

/// Reads the job of the files that are named.
fn job_in<R: Files + Print>(rt: &R, alloc: Global, words: &ArgMatches<'_>) -> Result<Job> {
    let cart = words.get_str("cart").unwrap_or("");
    let names = Names {
        cart,
        boot: words.get_str("boot"),
        table: words.get_str("table"),
        script: words.get_str("script"),
    };
    job_of(rt, alloc, names)
}

/// Returns what the arguments ask for.
fn wanted_in<R: Files + AllocGlobal>(
    rt: &R,
    words: &ArgMatches<'_>,
    (from, to): (u64, u64),
    region: Region,
    labels: &Labels,
    covers: bool,
) -> Result<Wanted> {
    let alloc = rt.alloc();
    Ok(Wanted {
        from,
        to,
        side: side_of(words),
        instructions: words.get_flag("instructions"),
        breaks: breaks_of(rt, alloc, labels, words)?,
        then: words.get_one::<u64>("then").unwrap_or(0),
        lines: words.get_one::<u64>("lines").unwrap_or(u64::MAX),
        is_csv: words.get_flag("csv"),
        tells_steps: !covers || words.get_flag("steps"),
        notes: covers,
        until: until_of(alloc, region, labels, words.get_str("until"))?,
    })
}

/// Traces a job, and writes the table of coverage where it is asked for.
fn tell_job<R: Print>(
    rt: &R,
    alloc: Global,
    job: &Job,
    pair: &mut Pair,
    wanted: &Wanted,
    labels: &Labels,
    coverage: &mut Coverage,
) -> Result<Told> {
    let mut out = BufWriter::new(alloc, io::writer(rt))?;
    let told = write_trace(alloc, pair, wanted, labels, coverage, &mut out)?;
    if wanted.notes {
        let mut table = Vec::new(alloc);
        push_table(&mut table, coverage, bank_of(&job.cart), wanted.is_csv)?;
        let fault = "cannot write the table";
        let _closed = is_closed(out.write_all(table.as_slice()), fault)?;
        let _closed = is_closed(out.flush(), fault)?;
    }
    Ok(told)
}

/// What a run is traced with: it is read, and lent to those that trace.
#[derive(Clone, Copy)]
struct Given<'a> {
    job: &'a Job,
    /// What is asked for of coverage.
    asked: Option<Asked<'a>>,
    /// The lines of source, for a record of them.
    source: Option<&'a SourceLines>,
}

/// Traces the machines of a job, notes what the run does to ROM, and writes the file of coverage, if one is asked for.
fn trace_pair<R: Files + Print + AllocGlobal>(
    rt: &R,
    given: Given<'_>,
    wanted: &Wanted,
    labels: &Labels,
    pair: &mut Pair,
    coverage: &mut Coverage,
) -> Result<Told> {
    let alloc = rt.alloc();
    let told = tell_job(rt, alloc, given.job, pair, wanted, labels, coverage)?;
    if let Some(asked) = given.asked {
        let rom = given.job.cart.rom.get();
        write_file(rt, alloc, asked, coverage, rom, given.source)?;
    }
    Ok(told)
}

/// Traces the machines of a job, and returns the status.
fn trace_settled<R: Files + Print + Eprint + AllocGlobal>(
    rt: &R,
    given: Given<'_>,
    wanted: &Wanted,
    labels: &Labels,
    pair: &mut Pair,
) -> Result<u8> {
    let count = if wanted.notes {
        given.job.cart.rom.get().len()
    } else {
        0
    };
    let mut coverage = Coverage::new(rt.alloc(), count)?;
    let told = trace_pair(rt, given, wanted, labels, pair, &mut coverage)?;
    // A failed write of the message changes no status.
    let _ = tell_ends(rt, pair);
    Ok(if told.is_hit { DONE } else { NO })
}

/// Traces a job, and returns the status.
fn trace_job<R: Files + Print + Eprint + AllocGlobal>(
    rt: &R,
    given: Given<'_>,
    wanted: &mut Wanted,
    labels: &mut Labels,
) -> Result<u8> {
    let Ok(mut pair) = Pair::new(rt.alloc(), given.job) else {
        bail!("no memory");
    };
    pair.settle(rt.alloc(), labels, wanted)?;
    trace_settled(rt, given, wanted, labels, &mut pair)
}

/// Traces the job of the arguments with these labels, and returns the status.
fn trace_labelled<R: Files + Print + Eprint + AllocGlobal>(
    rt: &R,
    words: &ArgMatches<'_>,
    stamps: Option<(u64, u64)>,
    given: Given<'_>,
    labels: &mut Labels,
) -> Result<u8> {
    let region = given.job.region;
    let range = range_of(region, stamps, words)?;
    let mut wanted = wanted_in(rt, words, range, region, labels, given.asked.is_some())?;
    trace_job(rt, given, &mut wanted, labels)
}

/// Traces the job of the arguments by this text of a symbol file, and returns the status.
fn trace_by<R: Files + Print + Eprint + AllocGlobal>(
    rt: &R,
    words: &ArgMatches<'_>,
    stamps: Option<(u64, u64)>,
    asked: Option<Asked<'_>>,
    text: Option<&str>,
) -> Result<u8> {
    let alloc = rt.alloc();
    let mut labels = labels_of(alloc, words, text)?;
    let source = source_of(alloc, asked, text)?;
    let job = job_in(rt, alloc, words)?;
    let given = Given {
        job: &job,
        asked,
        source: source.as_ref(),
    };
    trace_labelled(rt, words, stamps, given, &mut labels)
}

/// Returns what is asked for of coverage, if anything is.
fn asked_in<'a>(words: &'a ArgMatches<'_>) -> Result<Option<Asked<'a>>> {
    match words.get_str("coverage") {
        Some(name) => Ok(Some(asked_of(name)?)),
        None => Ok(None),
    }
}

/// Traces the job that the arguments name, and returns the status.
fn write_job<R: Files + Print + Eprint + AllocGlobal>(
    rt: &R,
    words: &ArgMatches<'_>,
) -> Result<u8> {
    let stamps = stamps_of(words)?;
    let asked = asked_in(words)?;
    match symbol_text(rt, words)? {
        Some(text) => trace_by(rt, words, stamps, asked, Some(text.as_str())),
        None => trace_by(rt, words, stamps, asked, None),
    }
}

/// This program, as a companion of `snes`.
#[derive(Drop)]
struct Tracer;

impl Companion for Tracer {
    fn program(&self) -> Program {
        words::program()
    }

    fn obey<R: Files + Print + Eprint + AllocGlobal>(
        &self,
        rt: &R,
        _command: &str,
        words: &ArgMatches<'_>,
    ) -> Result<u8> {
        write_job(rt, words)
    }
}

fn main(rt: HostRuntime) -> ExitCode {
    run(&rt, &Tracer)
}
