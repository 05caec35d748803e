//! A report: findings, each with what tells a person where it is.

use lint_rules::{Finding, Rule, Severity, Unit};
use std::fmt;

/// The format of a report.
#[derive(Clone, Copy)]
pub enum Format {
    /// Lines for people.
    People,
    /// One object of JSON.
    Json,
    /// A log of SARIF 2.1.0.
    Sarif,
    /// The Test Anything Protocol: a test for each rule.
    Tap,
}

/// A finding, and where it is.
#[derive(Clone, Copy)]
pub struct Told<'a> {
    /// The finding.
    pub finding: Finding,
    /// The last label at the cause or before it, and how many bytes behind it the cause is.
    pub label: Option<(&'a str, u64)>,
    /// The file of source and its line, from 1.
    pub source: Option<(&'a str, u32)>,
    /// What more there is to say, as the right checksum; empty for nothing.
    pub advice: &'a str,
}

/// A report on a run of a cartridge.
#[derive(Clone, Copy)]
pub struct Report<'a> {
    /// The name of the cartridge's file.
    pub cart: &'a str,
    /// How many frames were run.
    pub frames: u64,
    /// The findings, in order.
    pub told: &'a [Told<'a>],
    /// How often rules were broken by causes that are not told.
    pub more: u64,
}

impl Report<'_> {
    /// Returns how many findings have a severity.
    pub fn count(&self, severity: Severity) -> u64 {
        let mut count = 0u64;
        for told in self.told {
            if told.finding.rule.severity() == severity {
                count = count.saturating_add(1);
            }
        }
        count
    }

    /// Returns how many findings are of a rule.
    pub fn count_of(&self, rule: Rule) -> u64 {
        let mut count = 0u64;
        for told in self.told {
            if told.finding.rule == rule {
                count = count.saturating_add(1);
            }
        }
        count
    }
}

/// Returns the word of a severity.
pub(crate) fn severity_name(severity: Severity) -> &'static str {
    match severity {
        Severity::Warning => "warning",
        Severity::Note => "note",
    }
}

/// Returns the word of a unit.
pub(crate) fn unit_name(unit: Unit) -> &'static str {
    match unit {
        Unit::Console => "console",
        Unit::Sound => "sound",
        Unit::File => "file",
    }
}

/// The address of a cause as reports have it: six digits on the console, four on the sound side; a byte of the file is named
/// as one.
#[derive(Drop)]
pub(crate) struct Address<'a>(pub &'a Finding);

impl fmt::Display for Address<'_> {
    fn fmt<W: fmt::Write>(&self, f: &mut fmt::Formatter<W>) -> fmt::Result {
        let address = self.0.cause.address;
        match self.0.cause.unit {
            Unit::Console => write!(f, "{address:06X}"),
            Unit::Sound => write!(f, "{address:04X}"),
            Unit::File => write!(f, "byte {address:X}"),
        }
    }
}

/// The address of a finding's cause with its label.
#[derive(Drop)]
pub(crate) struct Place<'a>(pub &'a Told<'a>);

impl fmt::Display for Place<'_> {
    fn fmt<W: fmt::Write>(&self, f: &mut fmt::Formatter<W>) -> fmt::Result {
        let address = Address(&self.0.finding);
        match self.0.label {
            Some((name, 0)) => write!(f, "{address} {name}"),
            Some((name, offset)) => write!(f, "{address} {name}+{offset:02X}"),
            None => write!(f, "{address}"),
        }
    }
}

/// The sentence of a finding, with the bytes that a transfer is too long by, and with what more there is to say.
#[derive(Drop)]
pub(crate) struct Sentence<'a>(pub &'a Told<'a>);

impl fmt::Display for Sentence<'_> {
    fn fmt<W: fmt::Write>(&self, f: &mut fmt::Formatter<W>) -> fmt::Result {
        let text = self.0.finding.rule.text();
        let (most, advice) = (self.0.finding.most, self.0.advice);
        if most > 0 {
            write!(f, "{text} ({most} bytes)")
        } else if advice.is_empty() {
            write!(f, "{text}")
        } else {
            write!(f, "{text}: {advice}")
        }
    }
}

/// Returns the dot of a line clock: four clocks each.
pub(crate) fn dot(clock: u64) -> u64 {
    clock / 4
}
