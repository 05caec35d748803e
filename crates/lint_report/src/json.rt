//! A report as one object of JSON.

use crate::members::{Items, Members, written};
use crate::told::{Address, Report, Sentence, Told, dot, severity_name, unit_name};
use lint_rules::Moment;
use serde_json::Value;
use std::alloc::{AllocError, Global};

/// Returns the object of a moment.
fn moment_of(alloc: Global, moment: &Moment) -> Result<Value, AllocError> {
    let mut object = Members::new(alloc);
    object.number("frame", moment.frame);
    object.number("line", moment.line);
    object.number("dot", dot(moment.clock));
    object.end()
}

/// Adds what only some findings have: the bytes too many of the longest transfer, the address that was accessed, the label
/// before the cause, and the line of source.
fn add_known(object: &mut Members, told: &Told<'_>) {
    if told.finding.most > 0 {
        object.number("bytes", told.finding.most);
    }
    if told.finding.detail > 0 {
        object.number("accessed", u64::from(told.finding.detail));
    }
    if let Some((name, offset)) = told.label {
        object.text("label", name);
        object.number("offset", offset);
    }
    if let Some((file, line)) = told.source {
        object.text("file", file);
        object.number("line", u64::from(line));
    }
}

/// Returns the object of a finding.
fn told_of(alloc: Global, told: &Told<'_>) -> Result<Value, AllocError> {
    let finding = &told.finding;
    let mut object = Members::new(alloc);
    object.text("rule", finding.rule.name());
    object.text("severity", severity_name(finding.rule.severity()));
    object.shown("text", Sentence(told));
    object.text("unit", unit_name(finding.cause.unit));
    object.shown("address", Address(finding));
    object.number("count", finding.count);
    object.value("first", moment_of(alloc, &finding.first));
    object.value("last", moment_of(alloc, &finding.last));
    add_known(&mut object, told);
    object.end()
}

/// Returns the array of the findings.
fn findings_of(alloc: Global, told: &[Told<'_>]) -> Result<Value, AllocError> {
    let mut findings = Items::new(alloc);
    for told in told {
        findings.add(told_of(alloc, told));
    }
    findings.end()
}

/// Returns the object of a report.
fn report_of(alloc: Global, report: &Report<'_>) -> Result<Value, AllocError> {
    let mut object = Members::new(alloc);
    object.text("cartridge", report.cart);
    object.number("frames", report.frames);
    object.number("more", report.more);
    object.value("findings", findings_of(alloc, report.told));
    object.end()
}

/// Returns the text of a report.
pub(crate) fn text_of(alloc: Global, report: &Report<'_>) -> Result<Vec<u8>, AllocError> {
    written(alloc, report_of(alloc, report))
}
