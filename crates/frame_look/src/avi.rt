//! A film with its sound as AVI.

ghost use Rattle.std.specs.Prelude.{◌<◌, ◌≤◌};

use crate::films::{self, Frames};
use crate::regions::{MOST_FRAMES, name_of, region_of, samples_upto};
use crate::sounds::{Sounds, open_sounds};
use anyhow::{Context, Result, bail, ensure};
use clap::ArgMatches;
use film_avi::{
    Layout, PART_FRAMES, PICTURE_BYTES, file_head, indexes, part_head, push_chunk, push_head,
    push_turned,
};
use film_formats::{FRAME_BYTES, SAMPLE_BYTES};
use snes_defs::Region;
use std::alloc::{AllocError, Global};
use std::collections::VecDeque;
use std::io::{BufWriter, Read, Seek, SeekFrom, Write};
use std::rt::Files;

/// How many frames of the picture are read before the first one's samples, as `look sums` does.
const AHEAD: usize = 12;

/// The chunk of the picture that was read last.
fn picture_chunk<F: Read + Drop>(
    alloc: Global,
    frames: &Frames<'_, F>,
) -> Result<Vec<u8>, AllocError> {
    let mut chunk = Vec::new(alloc);
    push_head(&mut chunk, b"00db", PICTURE_BYTES)?;
    push_turned(&mut chunk, frames.frame())?;
    Ok(chunk)
}

/// The pictures of a film as their chunks are written, some of them read ahead.
#[derive(Drop)]
struct Chunks<'a, F: Read + Drop> {
    frames: Frames<'a, F>,
    ahead: VecDeque<Vec<u8>>,
    ended: bool,
}

impl<F: Read + Drop> Chunks<'_, F> {
    /// Reads ahead.
    fn fill(&mut self, alloc: Global) -> Result<()> {
        for _ in self.ahead.len()..AHEAD {
            if self.ended {
                break;
            }
            if self.frames.next()? {
                let chunk = picture_chunk(alloc, &self.frames)?;
                self.ahead.push_back(chunk)?;
            } else {
                self.ended = true;
            }
        }
        Ok(())
    }

    /// The chunk of the next picture, or nothing after the last one.
    fn next(&mut self, alloc: Global) -> Result<Option<Vec<u8>>> {
        self.fill(alloc)?;
        Ok(self.ahead.pop_front())
    }

    /// Whether there is no further picture.
    fn is_over(&mut self, alloc: Global) -> Result<bool> {
        self.fill(alloc)?;
        Ok(self.ahead.is_empty())
    }
}

/// The film that becomes an AVI, and the file that it is written to.
#[derive(Drop)]
struct Making<'a, F: Read + Drop, W: Write + Drop> {
    chunks: Chunks<'a, F>,
    sounds: Sounds<'a, F>,
    out: BufWriter<W>,
}

impl<F: Read + Drop, W: Write + Drop> Making<'_, F, W> {
    /// Writes the chunks of a part's frames, as many as are left, and returns how many.
    fn write_chunks(&mut self, alloc: Global) -> Result<u32> {
        let mut written = 0u32;
        for frame in 0..PART_FRAMES {
            let Some(picture) = self.chunks.next(alloc)? else {
                break;
            };
            self.write_chunk_of_each(alloc, picture.as_slice())?;
            written = frame + 1;
        }
        Ok(written)
    }

    /// Writes the chunk of a picture, and that of its frame's samples.
    fn write_chunk_of_each(&mut self, alloc: Global, picture: &[u8]) -> Result<()> {
        self.out.write_all(picture)?;
        let samples = self.sounds.next()?;
        let mut chunk = Vec::new(alloc);
        push_chunk(&mut chunk, b"01wb", samples)?;
        self.out.write_all(chunk.as_slice())?;
        Ok(())
    }
}

/// Writes all parts, whose heads say that there are `told` frames, and returns how many there are.
fn write_parts<F: Read + Drop, W: Write + Drop>(
    alloc: Global,
    making: &mut Making<'_, F, W>,
    region: Region,
    told: u32,
) -> Result<u32>
    requires { told ≤ 36000 }
{
    let told = Layout::new(region, told);
    let mut frames = 0u32;
    for part in 0..20u32 {
        making
            .out
            .write_all(part_head(alloc, told, part)?.as_slice())?;
        let written = making.write_chunks(alloc)?;
        frames = frames.saturating_add(written).min(MOST_FRAMES);
        let counted = Layout::new(region, frames);
        making
            .out
            .write_all(indexes(alloc, counted, part)?.as_slice())?;
        if making.chunks.is_over(alloc)? {
            break;
        }
    }
    if !making.chunks.is_over(alloc)? {
        bail!("more than {MOST_FRAMES} frames: a run has no more");
    }
    making.sounds.end()?;
    Ok(frames)
}

/// Writes bytes again at a place in the file.
fn write_again<W: Write + Seek + Drop>(
    out: &mut BufWriter<W>,
    place: u64,
    bytes: &[u8],
) -> Result<()> {
    out.seek(SeekFrom::Start(place))?;
    out.write_all(bytes)?;
    Ok(())
}

/// Writes the heads of the first and of the last part again, once the frames are counted.
fn write_heads<W: Write + Seek + Drop>(
    alloc: Global,
    out: &mut BufWriter<W>,
    layout: Layout,
) -> Result<()> {
    let last = layout.parts().saturating_sub(1);
    let head = part_head(alloc, layout, last)?;
    write_again(out, layout.start(last), head.as_slice())?;
    write_again(out, 0, file_head(alloc, layout)?.as_slice())
}

/// The frames of a film whose length is known. It has to be a whole number of them.
fn known_frames<R: Files>(rt: &R, name: &str) -> Result<Option<u32>> {
    let Some(length) = films::length(rt, name) else {
        return Ok(None);
    };
    let frames = length / FRAME_BYTES as u64;
    ensure!(
        length % FRAME_BYTES as u64 == 0,
        "{name} is cut: {length} bytes are no whole number of frames"
    );
    match u32::try_from(frames) {
        Ok(frames) if frames <= MOST_FRAMES => Ok(Some(frames)),
        _ => bail!("{name} has more than {MOST_FRAMES} frames: a run has no more"),
    }
}

/// Checks that a sound has as many samples as a film with this many frames, if its length is known.
fn check_sound<R: Files>(rt: &R, name: &str, region: Region, frames: u32) -> Result<()> {
    let wanted = samples_upto(region, frames)?;
    match films::length(rt, name) {
        Some(length) if length != wanted.saturating_mul(SAMPLE_BYTES as u64) => bail!(
            "{name} has {length} bytes, but the {wanted} samples of {frames} frames of {} have 4 each",
            name_of(region)
        ),
        _ => Ok(()),
    }
}

/// The names of the files of an AVI: the film, its sound, and the AVI itself.
#[derive(Clone, Copy)]
struct Names<'a> {
    video: &'a str,
    audio: &'a str,
    out: &'a str,
}

impl<'a> Names<'a> {
    /// The frames of the film, if its length is known. The sound has to have as many.
    fn known<R: Files>(self, rt: &R, region: Region) -> Result<Option<u32>> {
        let known = known_frames(rt, self.video)?;
        if let Some(frames) = known {
            check_sound(rt, self.audio, region, frames)?;
        }
        Ok(known)
    }

    /// Opens the film and its sound, and creates the AVI.
    fn open<R: Files + AllocGlobal>(
        self,
        rt: &R,
        region: Region,
    ) -> Result<Making<'a, R::File, R::File>> {
        let chunks = Chunks {
            frames: films::open_film(rt, self.video)?,
            ahead: VecDeque::new(rt.alloc()),
            ended: false,
        };
        let sounds = open_sounds(rt, self.audio, region)?;
        let out = films::create_buffered(rt, self.out, &[self.video, self.audio])?;
        Ok(Making {
            chunks,
            sounds,
            out,
        })
    }
}

/// Writes an AVI whose number of frames is known before or is not.
fn write_whole<F: Read + Drop, W: Write + Seek + Drop>(
    alloc: Global,
    making: &mut Making<'_, F, W>,
    region: Region,
    known: Option<u32>,
    name: &str,
) -> Result<()> {
    let told = known.unwrap_or(MOST_FRAMES).min(MOST_FRAMES);
    let frames = write_parts(alloc, making, region, told)?;
    if known != Some(frames) && frames <= MOST_FRAMES {
        write_heads(alloc, &mut making.out, Layout::new(region, frames)).context(format_args!(
            "cannot go back in {name}"
        ))?;
    }
    films::write_of(name, making.out.flush())
}

/// Obeys `look avi VIDEO AUDIO OUT`. If the number of frames can't be known before, as of a pipe, OUT has to be a
/// file. Two heads in it are then written again at the end.
pub fn write_avi<R: Files + Print + AllocGlobal>(rt: &R, words: &ArgMatches<'_>) -> Result<()> {
    let names = Names {
        video: films::name_in(words, "VIDEO"),
        audio: films::name_in(words, "AUDIO"),
        out: films::name_in(words, "OUT"),
    };
    let region = region_of(rt, words, names.video, names.audio);
    let known = names.known(rt, region)?;
    let mut making = names.open(rt, region)?;
    write_whole(rt.alloc(), &mut making, region, known, names.out)
}
