//! Warns of what a cartridge does that a console would not forgive.
//!
//! `lint --help` lists its arguments. `lint_watch` runs the cartridge and hands each access to the rules of `lint_rules`,
//! `lint_report` writes what was found. `docs/use/LINT.md` has the rules.
//!
//! The status is 0 if there is nothing to warn of, 1 if there is, and 2 if something could not be read or was refused, or if
//! the command line is invalid.
#![tactic(auto)]

mod inputs;
mod words;

use anyhow::{Context, Result, bail};
use clap::ArgMatches;
use companion_words::{Companion, DONE, NO, Program, run};
use inputs::{Opened, open_job};
use job_files::Names;
use lint_report::{Format, Report, Told, text_of};
use lint_rules::{Finding, Findings, Rule, Severity, complement_of};
use lint_watch::{
    Allowed, Sources, WatchedRun, check_file, checksum_of, front_of, no_header, remaining,
};
use snes_defs::{Cart, MOST_FRAMES};
use std::alloc::Global;
use std::fs;
use std::io::{self, Write};
use std::process::ExitCode;
use std::rt::Files;

/// The frames between two lines of progress.
const STRIDE: u32 = 60;

/// Reads what is allowed.
fn allowed_of<R: Files + AllocGlobal>(rt: &R, words: &ArgMatches<'_>) -> Result<Allowed> {
    let alloc = rt.alloc();
    let mut allowed = Allowed::nothing(alloc);
    if let Some(list) = words.get_str("allow") {
        allowed.allow_rules(list).context("--allow")?;
    }
    if let Some(name) = words.get_str("allowed") {
        let file = fs::read_to_string(rt, name).context(format_args!("cannot read {name}"))?;
        allowed.allow_file(alloc, name, file.as_str())?;
    }
    Ok(allowed)
}

/// Reads the symbols and the lines of source of the file that is named, if one is.
fn sources_of<R: Files + AllocGlobal>(rt: &R, words: &ArgMatches<'_>) -> Result<Sources> {
    let alloc = rt.alloc();
    let Some(name) = words.get_str("symbols") else {
        return Ok(Sources::none());
    };
    let text = fs::read_to_string(rt, name).context(format_args!("cannot read {name}"))?;
    Sources::read(alloc, name, text.as_str())
}

/// Returns the number of frames that are run.
fn frames_of(words: &ArgMatches<'_>) -> Result<u32> {
    let frames = words.get_one::<u64>("frames").unwrap_or(600);
    match u32::try_from(frames) {
        Ok(frames) if 1 <= frames && frames <= MOST_FRAMES => Ok(frames),
        _ => bail!("--frames {frames}: a run has 1 to {MOST_FRAMES} frames"),
    }
}

/// Returns the format of the report.
fn format_of(words: &ArgMatches<'_>) -> Format {
    match words.get_str("format") {
        Some("json") => Format::Json,
        Some("sarif") => Format::Sarif,
        Some("tap") => Format::Tap,
        _ => Format::People,
    }
}

/// Whether findings of these severities make the status 1.
fn fails(words: &ArgMatches<'_>, report: &Report<'_>) -> bool {
    match words.get_str("fail-on") {
        Some("never") => false,
        Some("note") => !report.told.is_empty() || report.more > 0,
        _ => report.count(Severity::Warning) > 0 || report.more > 0,
    }
}

/// Runs a job frame by frame, and tells how far it is if this is asked for.
fn run_frames<R: Eprint>(rt: &R, run: &mut WatchedRun, frames: u32, tells: bool) -> Result<()> {
    for frame in 0..frames {
        run.next_frame()?;
        if tells && frame % STRIDE == STRIDE - 1 {
            let done = frame + 1;
            // A failed write of the progress changes nothing.
            let _ = eprint!(rt; "\rlint: {done} of {frames} frames");
        }
    }
    if tells {
        let _ = eprint!(rt; "\r                                        \r");
    }
    Ok(())
}

/// A finding that is not allowed, with what tells a person where it is.
fn told_of<'a>(
    sources: &'a Sources,
    cart: Option<&Cart>,
    finding: &Finding,
    front: u32,
    advice: &'a str,
) -> Told<'a> {
    Told {
        finding: *finding,
        label: sources.label_of(finding),
        source: match cart {
            Some(cart) => sources.line_of(cart, front, finding),
            None => None,
        },
        advice: advice_on(finding.rule, advice),
    }
}

/// Returns what more there is to say of a rule.
fn advice_on(rule: Rule, checksum: &str) -> &str {
    match rule {
        Rule::Checksum => checksum,
        Rule::NoHeader =>
            "add one at FFC0 of bank 00, with a map byte at FFD5 (20 LoROM, 21 HiROM)",
        _ => "",
    }
}

/// Returns the text that tells the right checksum and complement.
fn checksum_text(alloc: Global, cart: Option<&Cart>) -> Result<String> {
    let right = match cart {
        Some(cart) => checksum_of(cart),
        None => None,
    };
    match right {
        Some(sum) => {
            let complement = complement_of(sum);
            Ok(format!(in alloc;
                "the right complement is {complement:04X}, the checksum {sum:04X}"
            )?)
        }
        None => Ok(String::new(alloc)),
    }
}

/// Prints a report, and returns whether it makes the status 1.
fn print_report<R: Print>(
    rt: &R,
    alloc: Global,
    words: &ArgMatches<'_>,
    report: &Report<'_>,
) -> Result<u8> {
    let text = text_of(alloc, format_of(words), report)?;
    let mut out = io::writer(rt);
    out.write_all(text.as_slice())
        .context("cannot write the report")?;
    out.flush().context("cannot write the report")?;
    Ok(if fails(words, report) { NO } else { DONE })
}

/// What a run found.
#[derive(Drop)]
struct Run {
    findings: Findings,
    frames: u32,
    /// The bytes of a copier at the beginning of the file.
    front: u32,
    cart: Option<Cart>,
}

/// Checks the file, and runs its job.
fn run_opened<R: Eprint + AllocGlobal>(
    rt: &R,
    words: &ArgMatches<'_>,
    opened: Opened,
) -> Result<Run> {
    let alloc = rt.alloc();
    let Opened {
        size,
        map_byte,
        job,
    } = opened;
    let front = front_of(size);
    let Some(job) = job else {
        let mut findings = Findings::new(alloc);
        no_header(&mut findings, map_byte)?;
        return Ok(Run {
            findings,
            frames: 0,
            front,
            cart: None,
        });
    };
    let frames = frames_of(words)?;
    let mut findings = Findings::in_profile(alloc, job.script.profile());
    check_file(&mut findings, size, &job.cart)?;
    let mut run = WatchedRun::new(alloc, &job, findings)?;
    run_frames(rt, &mut run, frames, words.get_flag("progress"))?;
    Ok(Run {
        findings: run.into_findings()?,
        frames,
        front,
        cart: Some(job.cart),
    })
}

/// Runs the cartridge that the arguments name, prints the report, and returns the status.
fn lint<R: Files + Print + Eprint + AllocGlobal>(rt: &R, words: &ArgMatches<'_>) -> Result<u8> {
    let alloc = rt.alloc();
    let allowed = allowed_of(rt, words)?;
    let sources = sources_of(rt, words)?;
    let cart = words.get_str("cart").unwrap_or("");
    let names = Names {
        cart,
        boot: words.get_str("boot"),
        table: words.get_str("table"),
        script: words.get_str("script"),
    };
    let opened = open_job(rt, alloc, names)?;
    let run = run_opened(rt, words, opened)?;
    let advice = checksum_text(alloc, run.cart.as_ref())?;
    let left = remaining(alloc, &run.findings, &allowed, &sources)?;
    let mut told = Vec::new(alloc);
    for finding in left.as_slice() {
        told.push(told_of(
            &sources,
            run.cart.as_ref(),
            finding,
            run.front,
            advice.as_str(),
        ))?;
    }
    let report = Report {
        cart,
        frames: u64::from(run.frames),
        told: told.as_slice(),
        more: run.findings.more(),
    };
    print_report(rt, alloc, words, &report)
}

/// This program, as a companion of `snes`.
#[derive(Drop)]
struct Linter;

impl Companion for Linter {
    fn program(&self) -> Program {
        words::program()
    }

    fn obey<R: Files + Print + Eprint + AllocGlobal>(
        &self,
        rt: &R,
        _command: &str,
        words: &ArgMatches<'_>,
    ) -> Result<u8> {
        lint(rt, words)
    }
}

fn main(rt: HostRuntime) -> ExitCode {
    run(&rt, &Linter)
}
