//! The region of a film, and how many samples its frames have.

use crate::films;
use anyhow::{Result, bail};
use clap::ArgMatches;
use clock_ratio::{end_stamp_in, samples_before_in};
use film_formats::{FRAME_BYTES, SAMPLE_BYTES};
use snes_defs::Region;
use std::rt::Files;

/// The most frames of a run.
pub const MOST_FRAMES: u32 = 36_000;

/// The number of samples in the first `frames` frames.
pub fn samples_upto(region: Region, frames: u32) -> Result<u64> {
    if frames > MOST_FRAMES {
        bail!("a run has at most {MOST_FRAMES} frames");
    }
    Ok(samples_before_in(region, end_stamp_in(region, frames)))
}

/// The name of a region.
pub fn name_of(region: Region) -> &'static str {
    match region {
        Region::Ntsc => "ntsc",
        Region::Pal => "pal",
    }
}

/// Whether files of these lengths are frames and samples of a region.
fn fits(region: Region, video: u64, audio: u64) -> bool {
    match u32::try_from(video / FRAME_BYTES as u64) {
        Ok(frames) => samples_upto(region, frames).is_ok_and(|samples| samples
            == audio / SAMPLE_BYTES as u64),
        Err(_) => false,
    }
}

/// The region that is given, if one is.
fn region_given(words: &ArgMatches<'_>) -> Option<Region> {
    match words.get_str("region")? {
        "pal" => Some(Region::Pal),
        _ => Some(Region::Ntsc),
    }
}

/// The region of a film: the one given, else the one that the lengths of the two files fit. For a pipe it is NTSC.
pub fn region_of<R: Files>(rt: &R, words: &ArgMatches<'_>, video: &str, audio: &str) -> Region {
    if let Some(region) = region_given(words) {
        return region;
    }
    match (films::length(rt, video), films::length(rt, audio)) {
        (Some(video), Some(audio))
            if fits(Region::Pal, video, audio) && !fits(Region::Ntsc, video, audio) => Region::Pal,
        _ => Region::Ntsc,
    }
}

/// Whether so many samples are those of a whole number of frames of a region.
fn is_whole(region: Region, samples: u64) -> bool {
    for frames in 0..=MOST_FRAMES {
        if samples_upto(region, frames).is_ok_and(|upto| upto == samples) {
            return true;
        }
    }
    false
}

/// The region of a sound alone: the one given, else the only one of which its length is a whole number of frames.
pub fn region_of_sound<R: Files>(rt: &R, words: &ArgMatches<'_>, audio: &str) -> Result<Region> {
    if let Some(region) = region_given(words) {
        return Ok(region);
    }
    if let Some(bytes) = films::length(rt, audio) {
        let samples = bytes / SAMPLE_BYTES as u64;
        match (
            is_whole(Region::Ntsc, samples),
            is_whole(Region::Pal, samples),
        ) {
            (true, false) => return Ok(Region::Ntsc),
            (false, true) => return Ok(Region::Pal),
            _ => {}
        }
    }
    bail!("the length of {audio} does not tell its region: give --region ntsc or pal")
}
