//! A report as a log of SARIF 2.1.0, which tools for code review show beside the lines of a change.

use crate::members::{Items, Members, one, written};
use crate::told::{Place, Report, Sentence, Told, severity_name};
use crate::uri::uri_of;
use lint_rules::{RULES, Rule, Unit};
use serde_json::Value;
use std::alloc::{AllocError, Global};

/// Where the schema of a log is.
const SCHEMA: &str = "https://json.schemastore.org/sarif-2.1.0.json";

/// Returns the object of one text.
fn text_alone(alloc: Global, name: &str, text: &str) -> Result<Value, AllocError> {
    let mut object = Members::new(alloc);
    object.text(name, text);
    object.end()
}

/// Returns the object of one value.
fn value_alone(
    alloc: Global,
    name: &str,
    value: Result<Value, AllocError>,
) -> Result<Value, AllocError> {
    let mut object = Members::new(alloc);
    object.value(name, value);
    object.end()
}

/// Returns the object of a rule.
fn rule_of(alloc: Global, rule: Rule) -> Result<Value, AllocError> {
    let level = severity_name(rule.severity());
    let mut object = Members::new(alloc);
    object.text("id", rule.name());
    object.value("shortDescription", text_alone(alloc, "text", rule.text()));
    object.value("defaultConfiguration", text_alone(alloc, "level", level));
    object.end()
}

/// Returns the objects of all rules.
fn rules(alloc: Global) -> Result<Value, AllocError> {
    let mut list = Items::new(alloc);
    for rule in &RULES {
        list.add(rule_of(alloc, *rule));
    }
    list.end()
}

/// Returns the object of a file.
fn file_of(alloc: Global, name: &str) -> Result<Value, AllocError> {
    let mut object = Members::new(alloc);
    object.made_text("uri", uri_of(alloc, name));
    object.end()
}

/// Returns the object of a line of source.
fn line_of(alloc: Global, line: u32) -> Result<Value, AllocError> {
    let mut object = Members::new(alloc);
    object.number("startLine", u64::from(line));
    object.end()
}

/// Returns the object of a byte of the cartridge's file.
fn byte_of(alloc: Global, offset: u32) -> Result<Value, AllocError> {
    let mut object = Members::new(alloc);
    object.number("byteOffset", u64::from(offset));
    object.number("byteLength", 1);
    object.end()
}

/// Returns the object of a place in a file: the line of source, the byte of the cartridge, or the cartridge as a whole.
fn physical(alloc: Global, cart: &str, told: &Told<'_>) -> Result<Value, AllocError> {
    let cause = told.finding.cause;
    let mut object = Members::new(alloc);
    if let Some((file, line)) = told.source {
        object.value("artifactLocation", file_of(alloc, file));
        object.value("region", line_of(alloc, line));
    } else {
        object.value("artifactLocation", file_of(alloc, cart));
        if cause.unit == Unit::File {
            object.value("region", byte_of(alloc, cause.address));
        }
    }
    object.end()
}

/// Returns the object of what people call a finding's place.
fn logical(alloc: Global, told: &Told<'_>) -> Result<Value, AllocError> {
    let mut object = Members::new(alloc);
    object.shown("fullyQualifiedName", Place(told));
    object.end()
}

/// Returns the object of a finding's place.
fn location(alloc: Global, cart: &str, told: &Told<'_>) -> Result<Value, AllocError> {
    let mut object = Members::new(alloc);
    object.value("logicalLocations", one(alloc, logical(alloc, told)));
    object.value("physicalLocation", physical(alloc, cart, told));
    object.end()
}

/// Returns the object of what a finding says.
fn message(alloc: Global, told: &Told<'_>) -> Result<Value, AllocError> {
    let mut object = Members::new(alloc);
    object.shown("text", Sentence(told));
    object.end()
}

/// Returns the object of a finding.
fn result(alloc: Global, cart: &str, told: &Told<'_>) -> Result<Value, AllocError> {
    let rule = told.finding.rule;
    let mut object = Members::new(alloc);
    object.text("ruleId", rule.name());
    object.text("level", severity_name(rule.severity()));
    object.value("message", message(alloc, told));
    object.number("occurrenceCount", told.finding.count);
    object.value("locations", one(alloc, location(alloc, cart, told)));
    object.end()
}

/// Returns the array of the findings.
fn results(alloc: Global, report: &Report<'_>) -> Result<Value, AllocError> {
    let mut results = Items::new(alloc);
    for told in report.told {
        results.add(result(alloc, report.cart, told));
    }
    results.end()
}

/// Returns the object of the program and its rules.
fn driver(alloc: Global) -> Result<Value, AllocError> {
    let mut object = Members::new(alloc);
    object.text("name", "lint");
    object.value("rules", rules(alloc));
    object.end()
}

/// Returns the object of a run.
fn run(alloc: Global, report: &Report<'_>) -> Result<Value, AllocError> {
    let mut object = Members::new(alloc);
    object.value("tool", value_alone(alloc, "driver", driver(alloc)));
    object.value("results", results(alloc, report));
    object.end()
}

/// Returns the object of a log.
fn log_of(alloc: Global, report: &Report<'_>) -> Result<Value, AllocError> {
    let mut object = Members::new(alloc);
    object.text("$schema", SCHEMA);
    object.text("version", "2.1.0");
    object.value("runs", one(alloc, run(alloc, report)));
    object.end()
}

/// Returns the text of a report.
pub(crate) fn text_of(alloc: Global, report: &Report<'_>) -> Result<Vec<u8>, AllocError> {
    written(alloc, log_of(alloc, report))
}
