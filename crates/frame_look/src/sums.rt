//! SHA-256 of each frame, and of both files, for `look sums`.

use crate::films::{self, Frames};
use crate::regions::{MOST_FRAMES, region_of};
use crate::sounds::{Sounds, open_sounds};
use anyhow::{Result, bail};
use clap::ArgMatches;
use sha2::{Digest, Sha256};
use std::collections::VecDeque;
use std::io::{BufWriter, Read, Write};
use std::rt::Files;
use std::{fmt, io};

/// How many frames of the picture are read before the first one's samples. A run gathers the sound of up to eight
/// frames before it writes it. If both come through pipes, the picture has to be read meanwhile.
const AHEAD: usize = 12;

/// A sum as it is printed.
#[derive(Clone, Copy)]
struct Sum([u8; 32]);

impl fmt::Display for Sum {
    fn fmt<W: fmt::Write>(&self, f: &mut fmt::Formatter<W>) -> fmt::Result {
        for byte in self.0 {
            write!(f, "{byte:02x}")?;
        }
        Ok(())
    }
}

/// The pictures of a film, some of them summed ahead.
#[derive(Drop)]
struct Pictures<'a, F: Read + Drop> {
    frames: Frames<'a, F>,
    all: Sha256,
    ahead: VecDeque<Sum>,
    ended: bool,
}

impl<F: Read + Drop> Pictures<'_, F> {
    /// The sum of the next picture, or nothing after the last one.
    fn next(&mut self) -> Result<Option<Sum>> {
        for _ in self.ahead.len()..AHEAD {
            if self.ended {
                break;
            }
            if self.frames.next()? {
                self.all.update(self.frames.frame());
                self.ahead
                    .push_back(Sum(Sha256::digest(self.frames.frame())))?;
            } else {
                self.ended = true;
            }
        }
        Ok(self.ahead.pop_front())
    }
}

/// The sound of a film, or none if only the pictures are summed.
#[derive(Drop)]
struct Heard<'a, F: Read + Drop> {
    sounds: Option<Sounds<'a, F>>,
    all: Sha256,
}

impl<F: Read + Drop> Heard<'_, F> {
    /// The sum of the next frame's samples.
    fn next(&mut self) -> Result<Option<Sum>> {
        let Some(sounds) = &mut self.sounds else {
            return Ok(None);
        };
        let bytes = sounds.next()?;
        self.all.update(bytes);
        Ok(Some(Sum(Sha256::digest(bytes))))
    }

    /// The sum of all samples. Fails if anything is left after the last frame.
    fn end(&mut self) -> Result<Option<Sum>> {
        let Some(sounds) = &mut self.sounds else {
            return Ok(None);
        };
        sounds.end()?;
        Ok(Some(Sum(self.all.finalize_reset())))
    }
}

/// How the sums are written.
#[derive(Clone, Copy)]
enum Form {
    Csv,
    Json,
}

/// Writes what comes before the lines of the frames.
fn write_head<W: Write>(out: &mut W, form: Form, with_sound: bool) -> io::Result<()> {
    match (form, with_sound) {
        (Form::Csv, true) => writeln!(out, "frame,picture,sound"),
        (Form::Csv, false) => writeln!(out, "frame,picture"),
        (Form::Json, _) => write!(out, "{{\"each\": ["),
    }
}

/// The sum of a picture and that of its sound, if it is summed.
#[derive(Clone, Copy)]
struct Pair {
    form: Form,
    picture: Sum,
    sound: Option<Sum>,
}

impl fmt::Display for Pair {
    fn fmt<W: fmt::Write>(&self, f: &mut fmt::Formatter<W>) -> fmt::Result {
        let picture = self.picture;
        match (self.form, self.sound) {
            (Form::Csv, Some(sound)) => write!(f, "{picture},{sound}"),
            (Form::Csv, None) => write!(f, "{picture}"),
            (Form::Json, Some(sound)) => {
                write!(f, "\"picture\": \"{picture}\", \"sound\": \"{sound}\"")
            }
            (Form::Json, None) => write!(f, "\"picture\": \"{picture}\""),
        }
    }
}

/// Writes the line of a frame.
fn write_frame<W: Write>(out: &mut W, frame: u32, pair: Pair) -> io::Result<()> {
    let comma = if frame == 0 { "" } else { "," };
    match pair.form {
        Form::Csv => writeln!(out, "{frame},{pair}"),
        Form::Json => write!(out, "{comma}\n{{\"frame\": {frame}, {pair}}}"),
    }
}

/// Writes the sums of both files.
fn write_all<W: Write>(out: &mut W, frames: u32, pair: Pair) -> io::Result<()> {
    match pair.form {
        Form::Csv => writeln!(out, "all,{pair}"),
        Form::Json => writeln!(out, "\n],\n\"frames\": {frames}, {pair}}}"),
    }
}

/// Writes the lines of the frames, as many as a run may have, and returns how many there are.
fn write_frames<F: Read + Drop, W: Write>(
    pictures: &mut Pictures<'_, F>,
    heard: &mut Heard<'_, F>,
    out: &mut W,
    form: Form,
) -> Result<u32> {
    let mut frames = 0u32;
    for frame in 0..MOST_FRAMES {
        let Some(picture) = pictures.next()? else {
            break;
        };
        let pair = Pair {
            form,
            picture,
            sound: heard.next()?,
        };
        write_frame(out, frame, pair)?;
        frames = frame + 1;
    }
    Ok(frames)
}

/// Writes the sums of a film.
fn write_sums<F: Read + Drop, W: Write>(
    pictures: &mut Pictures<'_, F>,
    heard: &mut Heard<'_, F>,
    out: &mut W,
    form: Form,
) -> Result<()> {
    write_head(out, form, heard.sounds.is_some())?;
    let frames = write_frames(pictures, heard, out, form)?;
    if pictures.next()?.is_some() {
        bail!("more than {MOST_FRAMES} frames: a run has no more");
    }
    let pair = Pair {
        form,
        sound: heard.end()?,
        picture: Sum(pictures.all.finalize_reset()),
    };
    write_all(out, frames, pair)?;
    out.flush()?;
    Ok(())
}

/// Opens the sound that is named, if one is.
fn sounds_in<'a, R: Files + AllocGlobal>(
    rt: &R,
    words: &'a ArgMatches<'_>,
    video: &str,
) -> Result<Option<Sounds<'a, R::File>>> {
    let Some(audio) = words.get_str("AUDIO") else {
        return Ok(None);
    };
    let region = region_of(rt, words, video, audio);
    Ok(Some(open_sounds(rt, audio, region)?))
}

/// Obeys `look sums VIDEO [AUDIO]`.
pub fn say_sums<R: Files + Print + AllocGlobal>(rt: &R, words: &ArgMatches<'_>) -> Result<()> {
    let video = films::name_in(words, "VIDEO");
    let form = if words.get_flag("json") {
        Form::Json
    } else {
        Form::Csv
    };
    let mut pictures = Pictures {
        frames: films::open_film(rt, video)?,
        all: Sha256::new(),
        ahead: VecDeque::new(rt.alloc()),
        ended: false,
    };
    let mut heard = Heard {
        sounds: sounds_in(rt, words, video)?,
        all: Sha256::new(),
    };
    let mut out = BufWriter::new(rt.alloc(), io::writer(rt))?;
    write_sums(&mut pictures, &mut heard, &mut out, form)
}
