//! The golden PNGs of a case: they are read before its run, and compared with the pictures of their frames.

use crate::inputs::Reader;
use anyhow::{Result, bail};
use bench_checks::Case;
use film_formats::{Colour, FRAME_BYTES};
use golden_frame::{Found, Golden, Place};
use std::alloc::{AllocError, Global};
use std::rt::Files;

/// The most bytes of a PNG: one of 2,048 by 2,048 pixels without compression has fewer.
const PNG: usize = 33_554_432;

/// A golden PNG of a frame.
#[derive(Drop)]
pub struct GoldenPng {
    /// The frame.
    pub at: u32,
    /// What reports call it.
    name: String,
    /// The bytes of its file.
    pub file: Vec<u8>,
    golden: Golden,
}

/// Reads the file of a golden PNG.
fn file_of<R: Files + Print>(reader: &mut Reader<'_, R>, name: &str) -> Result<(Vec<u8>, Golden)> {
    let file = reader.load(name, PNG)?;
    let golden = Golden::read(reader.alloc, file.path.as_str(), file.bytes.as_slice())?;
    Ok((file.bytes, golden))
}

/// Reads the golden PNG of a frame.
fn png_of<R: Files + Print>(reader: &mut Reader<'_, R>, at: u32, name: &str) -> Result<GoldenPng> {
    let called = String::from_str(reader.alloc, name)?;
    let (file, golden) = file_of(reader, name)?;
    Ok(GoldenPng {
        at,
        name: called,
        file,
        golden,
    })
}

/// Reads the golden PNGs of a case.
pub fn read_pngs<R: Files + Print>(
    reader: &mut Reader<'_, R>,
    case: &Case,
    pngs: &mut Vec<GoldenPng>,
) -> Result<()> {
    for check in case.frame_checks.as_slice() {
        if let Some(name) = &check.png {
            pngs.push(png_of(reader, check.at, name.as_str())?)?;
        }
    }
    Ok(())
}

impl GoldenPng {
    /// Compares a picture with this one.
    pub fn compare(&self, alloc: Global, picture: &[u8]) -> Result<Found> {
        if picture.len() != FRAME_BYTES {
            bail!("a picture has {FRAME_BYTES} bytes");
        }
        Ok(self.golden.compare(alloc, picture)?)
    }

    /// Says how many half-pixels differ, and the first.
    pub fn line_of(
        &self,
        alloc: Global,
        differing: u32,
        place: Place,
    ) -> Result<String, AllocError> {
        let (frame, name, all) = (self.at, self.name.as_str(), self.golden.half_pixels());
        let came = Colour::of_dot(place.film);
        let [red, green, blue] = place.golden;
        format!(in alloc;
            "frame {frame}: {differing} of {all} half-pixels are other than in {name}: the first, row {} dot {}, is ({} {} {}), expected ({red} {green} {blue})",
            place.row, place.dot, came.red, came.green, came.blue
        )
    }
}
