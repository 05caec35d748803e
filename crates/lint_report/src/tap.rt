//! A report as TAP: a test for each rule, which fails if the rule was broken. A note fails no test.

use crate::told::{Place, Report, Sentence, Told};
use lint_rules::{RULES, Rule, Severity};
use std::alloc::{AllocError, Global};

/// Adds the line of a rule's test.
fn push_test(
    out: &mut String,
    report: &Report<'_>,
    number: u64,
    rule: Rule,
) -> Result<(), AllocError> {
    let fails = report.count_of(rule) > 0 && rule.severity() == Severity::Warning;
    let answer = if fails { "not ok" } else { "ok" };
    let name = rule.name();
    write!(out, "{answer} {number} - {name}\n")
}

/// Adds the diagnostic line of a finding.
fn push_place(out: &mut String, told: &Told<'_>) -> Result<(), AllocError> {
    let (place, text) = (Place(&*told), Sentence(&*told));
    let count = told.finding.count;
    match told.source {
        Some((file, at)) => write!(out, "# {file}:{at}: {place}: {text}, {count} times\n"),
        None => write!(out, "# {place}: {text}, {count} times\n"),
    }
}

/// Adds the diagnostic lines of a rule.
fn push_places(out: &mut String, report: &Report<'_>, rule: Rule) -> Result<(), AllocError> {
    for told in report.told {
        if told.finding.rule == rule {
            push_place(out, told)?;
        }
    }
    Ok(())
}

/// Adds the text of a report.
fn push_report(out: &mut String, report: &Report<'_>) -> Result<(), AllocError> {
    let rules = RULES.len();
    write!(out, "TAP version 14\n1..{rules}\n")?;
    let mut number = 0u64;
    for rule in &RULES {
        number = number.saturating_add(1);
        push_test(out, report, number, *rule)?;
        push_places(out, report, *rule)?;
    }
    Ok(())
}

/// Returns the text of a report.
pub(crate) fn text_of(alloc: Global, report: &Report<'_>) -> Result<Vec<u8>, AllocError> {
    let mut out = String::new(alloc);
    push_report(&mut out, report)?;
    Ok(out.into_bytes())
}
