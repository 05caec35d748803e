//! The warnings of a run: it is made once more under the watch of `lint`'s rules, and what is not allowed is told.

use crate::judging::Judging;
use crate::watching::Watching;
use anyhow::Result;
use bench_checks::{is_without_warnings, warnings_in};
use lint_rules::{Finding, Findings, Severity, Unit};
use lint_watch::{Sources, front_of, remaining, watch_job};
use snes_defs::{Cart, Job};
use std::alloc::{AllocError, Global};

/// The most warnings of which a report has a line.
const MOST_LINES: usize = 8;

/// The instruction or the byte that a finding is at, with the last label before it.
fn place_text(
    alloc: Global,
    finding: &Finding,
    label: Option<(&str, u64)>,
) -> Result<String, AllocError> {
    let address = finding.cause.address;
    match finding.cause.unit {
        Unit::Sound => return format!(in alloc; "{address:04X} of the SPC700"),
        Unit::File => return format!(in alloc; "byte {address:X} of the file"),
        Unit::Console => {}
    }
    match label {
        Some((name, 0)) => format!(in alloc; "{address:06X} {name}"),
        Some((name, offset)) => format!(in alloc; "{address:06X} {name}+{offset:02X}"),
        None => format!(in alloc; "{address:06X}"),
    }
}

/// How often an instruction broke a rule, and when first.
fn times_text(alloc: Global, finding: &Finding) -> Result<String, AllocError> {
    let (frame, line) = (finding.first.frame, finding.first.line);
    match (finding.cause.unit, finding.count) {
        (Unit::File, _) => Ok(String::new(alloc)),
        (_, 1) => format!(in alloc; ", once, in frame {frame}, line {line}"),
        (_, count) => { format!(in alloc; ", {count} times, first in frame {frame}, line {line}") }
    }
}

/// The address that was accessed, if a finding has one.
fn accessed_text(alloc: Global, finding: &Finding) -> Result<String, AllocError> {
    match (finding.cause.unit, finding.detail) {
        (Unit::File, _) | (_, 0) => Ok(String::new(alloc)),
        (_, detail) => format!(in alloc; " at {detail:06X}"),
    }
}

/// The line of a finding: rule, line of source, instruction, what was accessed, how often, and what a console does.
fn line_of(
    alloc: Global,
    sources: &Sources,
    cart: &Cart,
    front: u32,
    finding: &Finding,
) -> Result<String, AllocError> {
    let (rule, sentence) = (finding.rule.name(), finding.rule.text());
    let place = place_text(alloc, finding, sources.label_of(finding))?;
    let accessed = accessed_text(alloc, finding)?;
    let times = times_text(alloc, finding)?;
    match sources.line_of(cart, front, finding) {
        Some((file, line)) => {
            format!(in alloc; "{rule}: {file}:{line}, {place}{accessed}{times}: {sentence}")
        }
        None => format!(in alloc; "{rule}: {place}{accessed}{times}: {sentence}"),
    }
}

/// The severities of findings.
fn severities(alloc: Global, found: &[Finding]) -> Result<Vec<Severity>, AllocError> {
    let mut list = Vec::new(alloc);
    for finding in found {
        list.push(finding.rule.severity())?;
    }
    Ok(list)
}

/// Adds a line for each of the first warnings.
fn add_lines(
    alloc: Global,
    watching: &Watching,
    cart: &Cart,
    found: &[Finding],
    judging: &mut Judging<'_>,
) -> Result<()> {
    let front = front_of(watching.size);
    let mut count = 0usize;
    for finding in found {
        if count < MOST_LINES && finding.rule.severity() == Severity::Warning {
            count += 1;
            judging.fail(line_of(alloc, &watching.sources, cart, front, finding)?)?;
        }
    }
    Ok(())
}

/// How many findings are warnings, if a run is not without them. `more` is how often rules were broken at places that are not
/// kept.
fn count_of(alloc: Global, found: &[Finding], more: u64) -> Result<Option<usize>, AllocError> {
    let weights = severities(alloc, found)?;
    if is_without_warnings(weights.as_slice(), more) {
        Ok(None)
    } else {
        Ok(Some(warnings_in(weights.as_slice())))
    }
}

/// Adds lines on what no line names: further warnings, and places that are not kept.
fn add_rest(alloc: Global, count: usize, more: u64, judging: &mut Judging<'_>) -> Result<()> {
    if count > MOST_LINES {
        let further = count - MOST_LINES;
        judging.fail(format!(in alloc; "{further} more: ./lint prints all")?)?;
    }
    if more > 0 {
        judging.fail(format!(in alloc; "rules are broken {more} times more, at further places")?)?;
    }
    Ok(())
}

/// Judges the findings that are not allowed: a line says how many are warnings, and the next ones which.
fn judge_found(
    alloc: Global,
    watching: &Watching,
    cart: &Cart,
    found: &[Finding],
    more: u64,
    judging: &mut Judging<'_>,
) -> Result<()> {
    let Some(count) = count_of(alloc, found, more)? else {
        return Ok(());
    };
    let noun = if count == 1 { "warning" } else { "warnings" };
    judging.fail(format!(in alloc; "{count} {noun} of lint, expected none")?)?;
    add_lines(alloc, watching, cart, found, judging)?;
    add_rest(alloc, count, more, judging)
}

/// Judges the findings of a run.
fn judge_findings(
    alloc: Global,
    watching: &Watching,
    cart: &Cart,
    findings: &Findings,
    judging: &mut Judging<'_>,
) -> Result<()> {
    let found = remaining(alloc, findings, &watching.allowed, &watching.sources)?;
    let more = findings.more();
    judge_found(alloc, watching, cart, found.as_slice(), more, judging)
}

/// Runs a job under the watch, if the case expects no warnings, and notes which there are.
pub fn judge_warnings(
    alloc: Global,
    watching: &Option<Watching>,
    job: &Job,
    judging: &mut Judging<'_>,
) -> Result<()> {
    let Some(watching) = watching else {
        return Ok(());
    };
    let findings = watch_job(alloc, watching.size, job, job.frames)?;
    judge_findings(alloc, watching, &job.cart, &findings, judging)
}
