//! The comparison of two films or of two sounds, what it found, and how it is told.

use anyhow::Result;
use companion_words::NO;
use std::fmt;

/// A film or a sound that is read part by part: frame by frame, or sample by sample.
pub trait Parts {
    /// Where two parts differ.
    type Place: fmt::Display + Copy;

    /// Reads the next part, and returns false if there is none.
    fn read_next(&mut self) -> Result<bool>;

    /// Where the part that was read last differs from that of another film or sound. `number` is that of both.
    fn place(&self, other: &Self, number: u64) -> Option<Self::Place>;
}

/// Counts the parts from one on that was read, if it was.
fn count_from<P: Parts>(parts: &mut P, read: bool) -> Result<u64> {
    let mut count = 0u64;
    let mut is_there = read;
    for _ in 0..u64::MAX {
        if !is_there {
            break;
        }
        count = count.saturating_add(1);
        is_there = parts.read_next()?;
    }
    Ok(count)
}

/// How many parts, frames or samples, were compared, and in how many of them the two differ, first at `place`.
#[derive(Drop)]
pub struct Found<P: Copy> {
    both: u64,
    differing: u64,
    place: Option<P>,
    /// How many parts more the first has.
    only_first: u64,
    /// How many parts more the second has.
    only_second: u64,
}

impl<P: fmt::Display + Copy> Found<P> {
    /// Nothing was compared yet.
    pub fn new() -> Found<P> {
        Found {
            both: 0,
            differing: 0,
            place: None,
            only_first: 0,
            only_second: 0,
        }
    }

    /// Counts a part that both have, and where it differs, if it does. Returns whether it is the first that differs.
    fn count(&mut self, place: Option<P>) -> bool {
        self.both = self.both.saturating_add(1);
        if place.is_none() {
            return false;
        }
        self.differing = self.differing.saturating_add(1);
        if self.place.is_some() {
            return false;
        }
        self.place = place;
        true
    }

    /// Prints what was found of two of a kind, `whole`, that have `parts`, and returns the status.
    pub fn tell<R: Print>(&self, rt: &R, whole: &str, parts: &str) -> Result<u8> {
        let both = self.both;
        if self.differing == 0 && self.only_first == 0 && self.only_second == 0 {
            println!(rt; "alike: {both} {parts}")?;
            return Ok(0);
        }
        println!(rt; "different: {} of {both} {parts}", self.differing)?;
        if let Some(place) = self.place {
            println!(rt; "first: {place}")?;
        }
        if self.only_first > 0 {
            println!(rt; "the first {whole} has {} {parts} more", self.only_first)?;
        }
        if self.only_second > 0 {
            println!(rt; "the second {whole} has {} {parts} more", self.only_second)?;
        }
        Ok(NO)
    }
}

/// Compares two films or sounds up to the first part in which they differ, and returns true; if that was found before
/// or there is none, to their ends, and returns false.
pub fn compare<P: Parts>(a: &mut P, b: &mut P, found: &mut Found<P::Place>) -> Result<bool> {
    for _ in 0..u64::MAX {
        let (first, second) = (a.read_next()?, b.read_next()?);
        if !first || !second {
            found.only_first = count_from(a, first)?;
            found.only_second = count_from(b, second)?;
            return Ok(false);
        }
        let place = a.place(b, found.both);
        if found.count(place) {
            return Ok(true);
        }
    }
    Ok(false)
}
