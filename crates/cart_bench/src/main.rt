//! Runs the cases of a bench file, and says which is not as expected: for the CI of who writes a cartridge.
//!
//! `bench --help` lists its arguments, and `docs/use/BENCH.md` has the form of the file. The runs are those of the
//! serial console (`serial_console`), with the two machines of `snes`, stopped at the end of each frame.
//!
//! The status is 0 if each case is as expected, and 1 if one is not. It is 2 if a case could not be run, if a file
//! could not be read or written, or if the command line is invalid.
#![tactic(auto)]

ghost use Rattle.std.specs.Prelude.{◌≡◌, nat_eq, if◌then◌else◌};

mod cases;
mod golden;
mod inputs;
mod jobs;
mod judging;
mod labels;
mod memories;
mod pictures;
mod places;
mod played;
mod warnings;
mod watching;
mod words;

use anyhow::{Context, Result, bail};
use bench_cases::read_cases;
use bench_checks::{Case, Counts, Verdict, counts_of};
use bench_report::{Page, junit_text, print_case, print_counts};
use cases::Wanted;
use clap::ArgMatches;
use companion_words::{DONE, FAULT, NO, Program, answer, command, exit_of};
use jobs::{Crew, judge_wave};
use standard_streams::hold_standard_streams;
use std::io::IsTerminal;
use std::process::ExitCode;
use std::rt::{Env, Files};
use std::thread::Threads;
use std::{env, fs};

/// The folder of a file: empty, or with a slash at its end.
fn folder_of<'a>(name: &'a str) -> &'a str {
    match name.rfind('/') {
        Some(slash) => name.get(..slash.saturating_add(1)).unwrap_or(""),
        None => "",
    }
}

/// Drops all cases but those of the name that is given, if one is.
fn keep_chosen(name: Option<&str>, cases: &mut Vec<Case>) -> Result<()> {
    let Some(name) = name else {
        return Ok(());
    };
    cases.retain(|case| case.name.as_str() == name);
    if cases.is_empty() {
        bail!("no case has the name that --case gives");
    }
    Ok(())
}

/// How the cases are run and told.
#[derive(Clone, Copy)]
struct Told<'a> {
    wanted: Wanted<'a>,
    crew: Crew,
    /// Whether what is printed is TAP.
    is_tap: bool,
}

/// Prints what is known of a case, the `number`th, and adds it to the page, if there is one.
fn tell_case<R: Files + Print + AllocGlobal>(
    rt: &R,
    is_tap: bool,
    number: usize,
    case: &Case,
    verdict: &Verdict,
    page: &mut Option<Page<'_>>,
) -> Result<()> {
    print_case(rt, is_tap, number, case, verdict)?;
    match page {
        Some(page) => page.add(rt, case, verdict),
        None => Ok(()),
    }
}

/// Tells the verdicts on the cases of a wave, and drops their pictures and sound. `before` is how many cases came before.
fn tell_wave<R: Files + Print + AllocGlobal>(
    rt: &R,
    is_tap: bool,
    before: usize,
    wave: &[Case],
    judged: &mut [Verdict],
    page: &mut Option<Page<'_>>,
) -> Result<()> {
    let mut number = before;
    for (case, verdict) in wave.iter().zip(judged.iter_mut()) {
        number = number.saturating_add(1);
        tell_case(rt, is_tap, number, case, verdict, page)?;
        verdict.forget();
    }
    Ok(())
}

/// Runs the cases, prints what is known of each, and adds it to the page, if there is one.
fn run_cases<R: Files + Print + Eprint + AllocGlobal + Threads + Sync>(
    rt: &R,
    told: &Told<'_>,
    cases: &[Case],
    page: &mut Option<Page<'_>>,
    verdicts: &mut Vec<Verdict>,
) -> Result<()> {
    let crew = told.crew;
    for wave in cases.chunks(crew.wave()) {
        let before = verdicts.len();
        let mut judged = judge_wave(rt, &told.wanted, crew, before, wave)?;
        tell_wave(rt, told.is_tap, before, wave, judged.as_mut_slice(), page)?;
        verdicts.append(&mut judged)?;
    }
    Ok(())
}

/// The exit status: that of a fault if a case could not be run, else that of a no if one failed.
fn status_of(counts: &Counts) -> u8
    ensures { result ≡ (if nat_eq counts.now.faults 0 then (if nat_eq counts.now.failed 0 then 0 else 1) else 2) }
{
    if counts.faults > 0 {
        FAULT
    } else if counts.failed > 0 {
        NO
    } else {
        DONE
    }
}

/// How the cases of a file ended.
fn counts_in<R: AllocGlobal>(rt: &R, verdicts: &[Verdict]) -> Result<Counts> {
    let mut ends = Vec::new(rt.alloc());
    for verdict in verdicts {
        ends.push(verdict.end())?;
    }
    Ok(counts_of(ends.as_slice()))
}

/// The page that the command line asks for, if it does.
fn page_of<'a, R: Files + AllocGlobal>(
    rt: &R,
    folder: Option<&'a str>,
    name: &str,
) -> Result<Option<Page<'a>>> {
    match folder {
        Some(folder) => Ok(Some(Page::new(rt, folder, name)?)),
        None => Ok(None),
    }
}

/// The cases of the file of this name that are run.
fn cases_of<R: Files + AllocGlobal>(
    rt: &R,
    name: &str,
    chosen_name: Option<&str>,
) -> Result<Vec<Case>> {
    let text = fs::read_to_string(rt, name).context(format_args!("cannot read {name}"))?;
    let mut cases = read_cases(rt.alloc(), name, text.as_str())?;
    keep_chosen(chosen_name, &mut cases)?;
    Ok(cases)
}

/// Writes JUnit's XML, if the command line asks for it.
fn write_junit<R: Files + AllocGlobal>(
    rt: &R,
    words: &ArgMatches<'_>,
    name: &str,
    counts: &Counts,
    cases: &[Case],
    verdicts: &[Verdict],
) -> Result<()> {
    let Some(out) = words.get_str("junit") else {
        return Ok(());
    };
    let text = junit_text(rt.alloc(), name, counts, cases, verdicts)?;
    fs::write(rt, out, text.as_bytes()).context(format_args!("cannot write {out}"))
}

/// Writes the page, if there is one.
fn write_page<R: Files + AllocGlobal>(
    rt: &R,
    page: Option<Page<'_>>,
    count: usize,
    passed: usize,
) -> Result<()> {
    let Some(page) = page else {
        return Ok(());
    };
    let line = format!(in rt.alloc(); "{passed} of {count} cases are as expected.")?;
    page.write(rt, line.as_str())
}

/// Runs the cases, and adds them to the page, if there is one. Writes the reports but for the page.
fn report_cases<R: Files + Print + Eprint + AllocGlobal + Threads + Sync>(
    rt: &R,
    words: &ArgMatches<'_>,
    name: &str,
    told: &Told<'_>,
    cases: &[Case],
    page: &mut Option<Page<'_>>,
    verdicts: &mut Vec<Verdict>,
) -> Result<Counts> {
    if told.is_tap {
        println!(rt; "TAP version 13\n1..{}", cases.len())?;
    }
    run_cases(rt, told, cases, page, verdicts)?;
    let counts = counts_in(rt, verdicts.as_slice())?;
    if !told.is_tap {
        print_counts(rt, cases.len(), &counts)?;
    }
    write_junit(rt, words, name, &counts, cases, verdicts.as_slice())?;
    Ok(counts)
}

/// Runs the cases of the file of this name, writes the reports, and returns the status.
fn judge_cases<R: Files + Print + Eprint + AllocGlobal + Threads + Sync>(
    rt: &R,
    words: &ArgMatches<'_>,
    name: &str,
    shows: bool,
    cases: &[Case],
) -> Result<u8> {
    let out = words.get_str("out");
    let jobs = words.get_one::<u32>("jobs").unwrap_or(1);
    let told = Told {
        wanted: Wanted {
            folder: folder_of(name),
            keeps: out.is_some(),
            updates: words.get_flag("update"),
        },
        crew: Crew::new(jobs, shows, cases.len()),
        is_tap: words.get_flag("tap"),
    };
    let mut page = page_of(rt, out, name)?;
    let mut verdicts = Vec::new(rt.alloc());
    let counts = report_cases(rt, words, name, &told, cases, &mut page, &mut verdicts)?;
    write_page(rt, page, cases.len(), counts.passed)?;
    Ok(status_of(&counts))
}

/// Runs the file that the words name, and returns the status.
fn run_file<R: Files + Print + Eprint + AllocGlobal + Threads + Sync>(
    rt: &R,
    words: &ArgMatches<'_>,
    shows: bool,
) -> Result<u8> {
    let name = words.get_str("FILE").unwrap_or("");
    let cases = cases_of(rt, name, words.get_str("case"))?;
    judge_cases(rt, words, name, shows, cases.as_slice())
}

/// Reads the command line, and does what it asks for.
fn obey<R: Files + Print + Eprint + AllocGlobal + Env + Threads + Sync>(
    rt: &R,
    program: &Program,
    shows: bool,
) -> Result<u8> {
    let alloc = rt.alloc();
    let given: Vec<String> = env::args(rt)?.collect(alloc)?;
    match command(alloc, program)?.try_get_matches_from(given.as_slice()) {
        Ok(words) => run_file(rt, &words, shows),
        Err(error) => answer(rt, &error),
    }
}

fn main(rt: HostRuntime) -> ExitCode {
    let has_terminal = rt.stderr().is_terminal();
    let _streams = hold_standard_streams(&rt);
    let program = words::program();
    exit_of(&rt, &program, obey(&rt, &program, has_terminal))
}
