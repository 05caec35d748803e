//! The report of all cases: lines for people, TAP, or JUnit's XML.

use crate::escape::push_escaped;
use anyhow::{Context, Result};
use bench_checks::{Case, Counts, End, Verdict};
use std::alloc::{AllocError, Global};

/// The word with which the line of a case begins.
fn word_of(end: End, is_tap: bool) -> &'static str {
    match (end, is_tap) {
        (End::Passed, _) => "ok",
        (_, true) => "not ok",
        (End::Failed, false) => "FAILED",
        (End::Fault, false) => "FAULT",
    }
}

/// What messages say if a print fails.
const FAULT: &str = "cannot write standard output";

/// Prints a text on one line: each line end in it becomes a space.
fn print_line<R: Print>(rt: &R, before: &str, text: &str) -> Result<()> {
    print!(rt; "{before}").context(FAULT)?;
    let mut is_first = true;
    for part in text.lines() {
        if !is_first {
            print!(rt; " ").context(FAULT)?;
        }
        is_first = false;
        print!(rt; "{part}").context(FAULT)?;
    }
    println!(rt; "").context(FAULT)?;
    Ok(())
}

/// Prints what is known of a case, the `number`th.
pub fn print_case<R: Print + AllocGlobal>(
    rt: &R,
    is_tap: bool,
    number: usize,
    case: &Case,
    verdict: &Verdict,
) -> Result<()> {
    let word = word_of(verdict.end(), is_tap);
    let before = if is_tap {
        format!(in rt.alloc(); "{word} {number} - ")?
    } else {
        format!(in rt.alloc(); "{word} ")?
    };
    print_line(rt, before.as_str(), case.name.as_str())?;
    let before = if is_tap { "# " } else { "    " };
    for line in verdict.lines.as_slice() {
        print_line(rt, before, line.as_str())?;
    }
    for line in verdict.notes.as_slice() {
        print_line(rt, before, line.as_str())?;
    }
    Ok(())
}

/// Prints the counts of so many cases.
pub fn print_counts<R: Print>(rt: &R, all: usize, counts: &Counts) -> Result<()> {
    let Counts {
        passed,
        failed,
        faults,
    } = *counts;
    let cases = if all == 1 { "case" } else { "cases" };
    println!(rt;
        "{all} {cases}: {passed} as expected, {failed} failed, {faults} could not be run"
    ).context(FAULT)?;
    Ok(())
}

/// Adds the element of a case.
fn push_case(
    alloc: Global,
    text: &mut String,
    case: &Case,
    verdict: &Verdict,
) -> Result<(), AllocError> {
    text.push_str("  <testcase classname=\"bench\" name=\"")?;
    push_escaped(text, case.name.as_str())?;
    let element = match verdict.end() {
        End::Passed => return text.push_str("\"/>\n"),
        End::Failed => "failure",
        End::Fault => "error",
    };
    let head = format!(in alloc; "\">\n    <{element} message=\"")?;
    text.push_str(head.as_str())?;
    if let Some(line) = verdict.lines.first() {
        push_escaped(text, line.as_str())?;
    }
    text.push_str("\">")?;
    for line in verdict.lines.as_slice() {
        push_escaped(text, line.as_str())?;
        text.push_str("\n")?;
    }
    let tail = format!(in alloc; "</{element}>\n  </testcase>\n")?;
    text.push_str(tail.as_str())
}

/// Returns the results as JUnit's XML. `name` is that of the file of the cases.
pub fn junit_text(
    alloc: Global,
    name: &str,
    counts: &Counts,
    cases: &[Case],
    verdicts: &[Verdict],
) -> Result<String, AllocError> {
    let mut text = String::from_str(
        alloc,
        "<?xml version=\"1.0\" encoding=\"UTF-8\"?>\n<testsuite name=\"",
    )?;
    push_escaped(&mut text, name)?;
    let (all, failed, faults) = (verdicts.len(), counts.failed, counts.faults);
    let head = format!(in alloc;
        "\" tests=\"{all}\" failures=\"{failed}\" errors=\"{faults}\">\n"
    )?;
    text.push_str(head.as_str())?;
    for (case, verdict) in cases.iter().zip(verdicts.iter()) {
        push_case(alloc, &mut text, case, verdict)?;
    }
    text.push_str("</testsuite>\n")?;
    Ok(text)
}
