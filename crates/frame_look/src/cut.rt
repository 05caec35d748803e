//! Some frames of a film alone, or their samples, for `look cut`.

use crate::films::{self, Frames};
use crate::regions::{name_of, region_of_sound, samples_upto};
use crate::sounds::open_sounds;
use anyhow::{Result, ensure};
use clap::ArgMatches;
use film_formats::SAMPLE_BYTES;
use snes_defs::Region;
use std::io::{Read, Write};
use std::rt::Files;

/// The frames that are wanted: `count` of them from `from` on.
#[derive(Clone, Copy)]
struct Span {
    from: u64,
    count: u64,
}

impl Span {
    /// The number of the frame behind the last one.
    fn upto(self) -> u64 {
        self.from.saturating_add(self.count)
    }
}

/// Writes the frames of a film that was opened before the first of them.
fn write_frames<F: Read + Drop, W: Write>(
    frames: &mut Frames<'_, F>,
    span: Span,
    file: &mut W,
    out: &str,
) -> Result<()> {
    for number in span.from..span.upto() {
        frames.reach(number)?;
        films::write_to(file, out, frames.frame())?;
    }
    Ok(())
}

/// Cuts the frames of a film.
fn cut_video<R: Files + AllocGlobal>(rt: &R, name: &str, span: Span, out: &str) -> Result<()> {
    if let Some(frames) = films::frames_of_file(rt, name) {
        ensure!(
            span.upto() <= frames,
            "{name} has no frame {}: it has {frames} frames",
            span.upto().saturating_sub(1)
        );
    }
    let mut frames = films::open_before(rt, name, span.from)?;
    let mut file = films::create(rt, out, &[name])?;
    write_frames(&mut frames, span, &mut file, out)
}

/// Checks that a sound has the samples of these frames, if its length is known.
fn check_sound<R: Files>(rt: &R, name: &str, region: Region, span: Span) -> Result<()> {
    let last = u32::try_from(span.upto()).unwrap_or(u32::MAX);
    let wanted = samples_upto(region, last)?;
    if let Some(bytes) = films::length(rt, name) {
        ensure!(
            wanted.saturating_mul(SAMPLE_BYTES as u64) <= bytes,
            "{name} has {bytes} bytes, but the {wanted} samples of {last} frames of {} have 4 each; is the region right?",
            name_of(region)
        );
    }
    Ok(())
}

/// Cuts the samples of a film's frames.
fn cut_audio<R: Files + AllocGlobal>(
    rt: &R,
    words: &ArgMatches<'_>,
    name: &str,
    span: Span,
    out: &str,
) -> Result<()> {
    let region = region_of_sound(rt, words, name)?;
    check_sound(rt, name, region, span)?;
    let mut sounds = open_sounds(rt, name, region)?;
    sounds.skip(span.from)?;
    let mut file = films::create_buffered(rt, out, &[name])?;
    sounds.copy_frames(span.count, &mut file, out)
}

/// Obeys `look cut FILM FROM COUNT OUT`.
pub fn write_cut<R: Files + Print + AllocGlobal>(rt: &R, words: &ArgMatches<'_>) -> Result<()> {
    let name = films::name_in(words, "FILM");
    let out = films::name_in(words, "OUT");
    let span = Span {
        from: words.get_one::<u64>("FROM").unwrap_or(0),
        count: words.get_one::<u64>("COUNT").unwrap_or(0),
    };
    if words.get_flag("audio") {
        cut_audio(rt, words, name, span, out)
    } else {
        cut_video(rt, name, span, out)
    }
}
