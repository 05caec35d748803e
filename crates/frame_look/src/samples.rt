//! The comparison of two sounds, in `look diff --audio`.

use crate::films;
use crate::found::{Found, Parts, compare};
use anyhow::{Result, bail};
use film_formats::{Piece, SAMPLE_BYTES, read_piece};
use std::fmt;
use std::io::{BufReader, Read};
use std::rt::Files;

/// The bytes of a stereo sample: left, then right.
#[derive(Clone, Copy)]
struct Sample([u8; SAMPLE_BYTES]);

impl fmt::Display for Sample {
    fn fmt<W: fmt::Write>(&self, f: &mut fmt::Formatter<W>) -> fmt::Result {
        let [a, b, c, d] = self.0;
        write!(
            f,
            "{} {}",
            i16::from_le_bytes([a, b]),
            i16::from_le_bytes([c, d])
        )
    }
}

/// Raw samples, read one after another.
#[derive(Drop)]
struct Samples<'a, F: Read + Drop> {
    name: &'a str,
    file: BufReader<F>,
    /// The bytes of the sample that was read last.
    bytes: [u8; SAMPLE_BYTES],
    read: u64,
}

impl<F: Read + Drop> Parts for Samples<'_, F> {
    type Place = Place;

    fn read_next(&mut self) -> Result<bool> {
        let read = read_piece(&mut self.file, &mut self.bytes);
        match films::read_of(self.name, read)? {
            Piece::Whole => {
                self.read = self.read.saturating_add(1);
                Ok(true)
            }
            Piece::End => Ok(false),
            Piece::Cut(count) => bail!(
                "{} is cut: sample {} has {count} of its 4 bytes",
                self.name,
                self.read
            ),
        }
    }

    fn place(&self, other: &Self, number: u64) -> Option<Place> {
        if self.bytes == other.bytes {
            return None;
        }
        Some(Place {
            number,
            first: Sample(self.bytes),
            second: Sample(other.bytes),
        })
    }
}

/// The first sample in which two sounds differ.
#[derive(Clone, Copy)]
pub struct Place {
    number: u64,
    first: Sample,
    second: Sample,
}

impl fmt::Display for Place {
    fn fmt<W: fmt::Write>(&self, f: &mut fmt::Formatter<W>) -> fmt::Result {
        write!(
            f,
            "sample {}: {} and {}",
            self.number, self.first, self.second
        )
    }
}

/// Opens a sound, of which no sample is read yet.
fn open_samples<'a, R: Files + AllocGlobal>(rt: &R, name: &'a str) -> Result<Samples<'a, R::File>> {
    let file = films::open(rt, name)?;
    Ok(Samples {
        name,
        file: BufReader::new(rt.alloc(), file)?,
        bytes: [0; SAMPLE_BYTES],
        read: 0,
    })
}

/// Compares two sounds, sample by sample.
fn compare_samples<'a, F: Read + Drop>(
    a: &mut Samples<'a, F>,
    b: &mut Samples<'a, F>,
) -> Result<Found<Place>> {
    let mut found = Found::new();
    if compare(a, b, &mut found)? {
        compare(a, b, &mut found)?;
    }
    Ok(found)
}

/// Opens two sounds, and compares them.
fn compare_files<R: Files + AllocGlobal>(
    rt: &R,
    first: &str,
    second: &str,
) -> Result<Found<Place>> {
    let mut a = open_samples(rt, first)?;
    let mut b = open_samples(rt, second)?;
    compare_samples(&mut a, &mut b)
}

/// Obeys `look diff --audio A B`.
pub fn say_difference<R: Files + Print + AllocGlobal>(
    rt: &R,
    first: &str,
    second: &str,
) -> Result<u8> {
    let found = compare_files(rt, first, second)?;
    found.tell(rt, "sound", "samples")
}
