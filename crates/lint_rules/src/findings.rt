//! Where rules were broken: by which instruction, how often, and when first and last.

ghost use Rattle.std.specs.Prelude.{◌≡◌, ◌<◌, ◌≤◌, ◌+◌, ◌^◌, OnOk};

use crate::moment::Moment;
use crate::rule::Rule;
use snes_defs::Profile;
use std::alloc::{AllocError, Global};

/// The most findings that are kept: further ones are counted only.
const MOST: usize = 1024;

/// What a cause is a place of.
#[derive(Clone, Copy, PartialEq, Eq, PartialOrd, Ord)]
pub enum Unit {
    /// An instruction of the console's processor: a 24-bit address.
    Console,
    /// An instruction of the sound side's processor: a 16-bit address.
    Sound,
    /// The cartridge's file: the offset of a byte.
    File,
}

/// The cause of a finding: the instruction, or the byte of the file.
#[derive(Clone, Copy, PartialEq, Eq, PartialOrd, Ord)]
pub struct Cause {
    /// What the address is one of.
    pub unit: Unit,
    /// The address.
    pub address: u32,
}

/// A rule that was broken, and by what.
#[derive(Clone, Copy)]
pub struct Finding {
    /// The rule.
    pub rule: Rule,
    /// What broke it.
    pub cause: Cause,
    /// The address that was accessed, or another number that tells more; that of the first time.
    pub detail: u32,
    /// How often.
    pub count: u64,
    /// The bytes too many of the longest transfer; else 0.
    pub most: u64,
    /// When first.
    pub first: Moment,
    /// When last.
    pub last: Moment,
}

impl Finding {
    /// Returns a finding that is new.
    pub fn new(rule: Rule, cause: Cause, detail: u32, moment: Moment) -> Finding
        ensures rule { result.rule ≡ rule }
        ensures cause { result.cause ≡ cause }
        ensures count { result.count ≡ 1 }
        ensures first { result.first ≡ moment }
        ensures last { result.last ≡ moment }
    {
        Finding {
            rule,
            cause,
            detail,
            count: 1,
            most: 0,
            first: moment,
            last: moment,
        }
    }

    /// Whether this is of the same rule and the same cause as another one. Each register that was not set is a finding of its own.
    pub fn is_same(&self, other: &Finding) -> bool {
        self.rule == other.rule
            && self.cause == other.cause
            && (self.rule != Rule::RegistersUnset || self.detail == other.detail)
    }

    /// Adds another time to a finding. The count stops at its greatest number.
    fn see_again(&mut self, other: &Finding)
        ensures rule { self.new.rule ≡ self.old.rule }
        ensures cause { self.new.cause ≡ self.old.cause }
        ensures first { self.new.first ≡ self.old.first }
        ensures last { self.new.last ≡ other.now.last }
        ensures count { self.old.count + other.now.count < 2 ^ 64 → self.new.count ≡ self.old.count + other.now.count }
        ensures most { (self.old.most ≤ self.new.most) × (other.now.most ≤ self.new.most) }
    {
        self.count = self.count.saturating_add(other.count);
        self.most = self.most.max(other.most);
        self.last = other.last;
    }
}

/// The findings of a run.
#[derive(Drop)]
pub struct Findings {
    /// The profile of the machine that runs.
    profile: Profile,
    list: Vec<Finding>,
    /// How often rules were broken whose causes are not kept.
    more: u64,
}

impl Findings {
    /// Returns no findings, of a run in the first profile.
    pub fn new(alloc: Global) -> Findings {
        Findings::in_profile(alloc, Profile::First)
    }

    /// Returns no findings, of a run in a profile.
    pub fn in_profile(alloc: Global, profile: Profile) -> Findings {
        Findings {
            profile,
            list: Vec::new(alloc),
            more: 0,
        }
    }

    /// Returns the findings: one for each rule and cause.
    pub fn list(&self) -> &[Finding] {
        self.list.as_slice()
    }

    /// Returns how often rules were broken whose causes are not kept, since there are too many.
    pub fn more(&self) -> u64 {
        self.more
    }

    /// Adds a finding to the one of the same rule and cause, or as a new one. A finding of a rule that is silent in the profile of
    /// the run is dropped.
    pub fn add(&mut self, found: Finding) -> Result<(), AllocError> {
        if found.rule.is_mended(self.profile) {
            return Ok(());
        }
        for kept in self.list.iter_mut() {
            if kept.is_same(&found) {
                kept.see_again(&found);
                return Ok(());
            }
        }
        if self.list.len() < MOST {
            self.list.push(found)?;
        } else {
            self.more = self.more.saturating_add(found.count);
        }
        Ok(())
    }

    /// Puts the findings into order: by rule, and then by cause.
    pub fn sort(&mut self) -> Result<(), AllocError> {
        self.list.sort_by_key(|found| (found.rule, found.cause))
    }
}
