//! A report for people: two lines a finding, the first in the form of a compiler's message.

use crate::told::{Place, Report, Sentence, Told, dot, severity_name};
use lint_rules::{Finding, Moment, Severity, Unit};
use std::alloc::{AllocError, Global};
use std::fmt;

/// When something was found.
#[derive(Drop)]
struct When<'a>(&'a Moment);

impl fmt::Display for When<'_> {
    fn fmt<W: fmt::Write>(&self, f: &mut fmt::Formatter<W>) -> fmt::Result {
        let (frame, line, at) = (self.0.frame, self.0.line, dot(self.0.clock));
        write!(f, "frame {frame}, line {line}, dot {at}")
    }
}

/// A number and a noun, in the plural if need be.
#[derive(Drop)]
struct Counted {
    count: u64,
    noun: &'static str,
}

impl fmt::Display for Counted {
    fn fmt<W: fmt::Write>(&self, f: &mut fmt::Formatter<W>) -> fmt::Result {
        let (count, noun) = (self.count, self.noun);
        if count == 1 {
            write!(f, "1 {noun}")
        } else {
            write!(f, "{count} {noun}s")
        }
    }
}

/// Adds the beginning of a message: the line of source, or else the cartridge.
fn push_head(out: &mut String, cart: &str, told: &Told<'_>) -> Result<(), AllocError> {
    match told.source {
        Some((file, line)) => write!(out, "{file}:{line}"),
        None => write!(out, "{cart}"),
    }
}

/// Adds the first line of a finding: where it is, what a console does, and the rule.
fn push_message(out: &mut String, cart: &str, told: &Told<'_>) -> Result<(), AllocError> {
    let rule = told.finding.rule;
    let (severity, name) = (severity_name(rule.severity()), rule.name());
    let sentence = Sentence(told);
    push_head(out, cart, told)?;
    write!(out, ": {severity}: {sentence} [{name}]\n")
}

/// Adds the instruction of a finding, and what it accessed, if an address tells it.
fn push_place(out: &mut String, told: &Told<'_>) -> Result<(), AllocError> {
    let (place, detail) = (Place(told), told.finding.detail);
    if detail == 0 {
        write!(out, "    {place}")
    } else {
        write!(out, "    {place} at {detail:06X}")
    }
}

/// Adds when a finding was made: the first time, and the last.
fn push_times(out: &mut String, finding: &Finding) -> Result<(), AllocError> {
    let count = finding.count;
    let (first, last) = (When(&finding.first), When(&finding.last));
    if count <= 1 {
        write!(out, ": once, in {first}\n")
    } else {
        write!(out, ": {count} times, first in {first}, last in {last}\n")
    }
}

/// Adds the lines of a finding.
fn push_told(out: &mut String, cart: &str, told: &Told<'_>) -> Result<(), AllocError> {
    push_message(out, cart, told)?;
    if told.finding.cause.unit == Unit::File {
        return Ok(());
    }
    push_place(out, told)?;
    push_times(out, &told.finding)
}

/// Adds the last lines: how many findings there are.
fn push_counts(out: &mut String, report: &Report<'_>) -> Result<(), AllocError> {
    let cart = report.cart;
    let warnings = Counted {
        count: report.count(Severity::Warning),
        noun: "warning",
    };
    let notes = Counted {
        count: report.count(Severity::Note),
        noun: "note",
    };
    let frames = Counted {
        count: report.frames,
        noun: "frame",
    };
    write!(out, "{cart}: {warnings}, {notes}, in {frames}\n")
}

/// Adds how often rules were broken at places that are not told, if they were.
fn push_more(out: &mut String, report: &Report<'_>) -> Result<(), AllocError> {
    let (cart, more) = (report.cart, report.more);
    if more == 0 {
        return Ok(());
    }
    write!(out, "{cart}: {more} times more, at further places\n")
}

/// Adds the text of a report.
fn push_report(out: &mut String, report: &Report<'_>) -> Result<(), AllocError> {
    for told in report.told {
        push_told(out, report.cart, told)?;
    }
    push_counts(out, report)?;
    push_more(out, report)
}

/// Returns the text of a report.
pub(crate) fn text_of(alloc: Global, report: &Report<'_>) -> Result<Vec<u8>, AllocError> {
    let mut out = String::new(alloc);
    push_report(&mut out, report)?;
    Ok(out.into_bytes())
}
