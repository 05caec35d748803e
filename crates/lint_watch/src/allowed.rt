//! What is allowed: rules, everywhere or at a place.

use crate::names::Sources;
use anyhow::{Result, bail};
use lint_rules::{Finding, Findings, Rule, rule_named};
use std::alloc::{AllocError, Global};

/// Where a rule may be broken.
#[derive(Drop)]
enum Place {
    /// Everywhere.
    Everywhere,
    /// At this address.
    Address(u32),
    /// Behind this label.
    Label(String),
}

/// A rule that may be broken, and where.
#[derive(Drop)]
struct Entry {
    rule: Rule,
    place: Place,
}

/// What is allowed.
#[derive(Drop)]
pub struct Allowed {
    entries: Vec<Entry>,
}

/// Returns the text before a `#`, without spaces at its ends.
fn without_comment(line: &str) -> &str {
    match line.split_once("#") {
        Some((before, _)) => before.trim(),
        None => line.trim(),
    }
}

/// Returns the address in four to six hexadecimal digits.
fn address_of(word: &str) -> Option<u32> {
    if word.len() < 4 || word.len() > 6 {
        return None;
    }
    for byte in word.as_bytes() {
        if !byte.is_ascii_hexdigit() {
            return None;
        }
    }
    u32::from_str_radix(word, 16).ok()
}

/// Returns the place that a word names.
fn place_of(alloc: Global, word: &str) -> Result<Place> {
    match address_of(word) {
        Some(address) => Ok(Place::Address(address)),
        None => Ok(Place::Label(String::from_str(alloc, word)?)),
    }
}

/// Reads a line: a rule, and a place if there is one.
fn entry_of(alloc: Global, text: &str) -> Result<Option<Entry>> {
    let mut words = text.split_whitespace();
    let Some(first) = words.next() else {
        return Ok(None);
    };
    let Some(rule) = rule_named(first) else {
        return Ok(None);
    };
    let place = match words.next() {
        Some(word) => place_of(alloc, word)?,
        None => Place::Everywhere,
    };
    match words.next() {
        Some(_) => Ok(None),
        None => Ok(Some(Entry { rule, place })),
    }
}

impl Allowed {
    /// Returns that nothing is allowed.
    pub fn nothing(alloc: Global) -> Allowed {
        Allowed {
            entries: Vec::new(alloc),
        }
    }

    /// Allows the rules of a list, with commas between them. Fails if one of them is no rule.
    pub fn allow_rules(&mut self, list: &str) -> Result<()> {
        for name in list.split(",") {
            match rule_named(name.trim()) {
                Some(rule) => self.entries.push(Entry {
                    rule,
                    place: Place::Everywhere,
                })?,
                None => bail!("{name} is not a rule (see docs/use/LINT.md)"),
            }
        }
        Ok(())
    }

    /// Allows what the text of a file says, a rule a line. Fails at a line that is none; `name` is the file's.
    pub fn allow_file(&mut self, alloc: Global, name: &str, text: &str) -> Result<()> {
        let mut number = 0u64;
        for line in text.lines() {
            number = number.saturating_add(1);
            let said = without_comment(line);
            if said.is_empty() {
                continue;
            }
            match entry_of(alloc, said)? {
                Some(entry) => self.entries.push(entry)?,
                None => bail!(
                    "{name} refused: line {number} is not a rule, and a place (see docs/use/LINT.md)"
                ),
            }
        }
        Ok(())
    }

    /// Whether a finding is allowed, given the last label before its cause.
    pub fn holds(&self, finding: &Finding, label: Option<(&str, u64)>) -> bool {
        for entry in self.entries.as_slice() {
            let is_there = match &entry.place {
                Place::Everywhere => true,
                Place::Address(address) => *address == finding.cause.address,
                Place::Label(name) => match label {
                    Some((last, _)) => last == name.as_str(),
                    None => false,
                },
            };
            if is_there && entry.rule == finding.rule {
                return true;
            }
        }
        false
    }
}

/// Returns the findings that are not allowed, in their order. `sources` has the labels that places are named by.
pub fn remaining(
    alloc: Global,
    findings: &Findings,
    allowed: &Allowed,
    sources: &Sources,
) -> Result<Vec<Finding>, AllocError> {
    let mut left = Vec::new(alloc);
    for finding in findings.list() {
        if !allowed.holds(finding, sources.label_of(finding)) {
            left.push(*finding)?;
        }
    }
    Ok(left)
}
