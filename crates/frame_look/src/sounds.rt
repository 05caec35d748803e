//! Raw samples: as a film's sound, frame by frame, and as WAV.

ghost use Rattle.std.specs.Prelude.{◌≡◌, IfOk, vec_len};

use crate::films;
use crate::regions::samples_upto;
use anyhow::{Context, Result, bail, ensure};
use clap::ArgMatches;
use film_formats::{Piece, SAMPLE_BYTES, read_piece, wav_header};
use snes_defs::Region;
use std::alloc::{AllocError, Global};
use std::io::{BufReader, BufWriter, Read, Seek, SeekFrom, Write};
use std::rt::Files;

/// The sound of a film, read frame by frame.
#[derive(Drop)]
pub struct Sounds<'a, F: Read + Drop> {
    name: &'a str,
    file: BufReader<F>,
    region: Region,
    bytes: Vec<u8>,
    frames: u32,
    /// The samples of these frames.
    samples: u64,
}

impl<F: Read + Drop> Sounds<'_, F> {
    /// Returns the bytes of the next frame's samples, which must all be there.
    pub fn next(&mut self) -> Result<&[u8]> {
        let upto = samples_upto(self.region, self.frames.saturating_add(1))?;
        let count = upto.saturating_sub(self.samples) as usize;
        self.bytes.clear();
        self.bytes.resize(count.saturating_mul(SAMPLE_BYTES), 0)?;
        if count > 0 {
            let read = read_piece(&mut self.file, self.bytes.as_mut_slice());
            match films::read_of(self.name, read)? {
                Piece::Whole => {}
                _ => bail!(
                    "{} is cut: it ends in frame {}; is the region right?",
                    self.name,
                    self.frames
                ),
            }
        }
        self.frames = self.frames.saturating_add(1);
        self.samples = upto;
        Ok(self.bytes.as_slice())
    }

    /// Writes the samples of the next `count` frames, and all that the buffer of the file `out` holds.
    pub fn copy_frames<W: Write + Drop>(
        &mut self,
        count: u64,
        to: &mut BufWriter<W>,
        out: &str,
    ) -> Result<()> {
        for _ in 0..count {
            films::write_to(to, out, self.next()?)?;
        }
        films::write_of(out, to.flush())
    }

    /// Goes on behind the next `count` frames.
    pub fn skip(&mut self, count: u64) -> Result<()> {
        for _ in 0..count {
            self.next()?;
        }
        Ok(())
    }

    /// Fails if anything is left after the last frame.
    pub fn end(&mut self) -> Result<()> {
        let mut byte = [0u8; 1];
        match films::read_of(self.name, read_piece(&mut self.file, &mut byte))? {
            Piece::End => Ok(()),
            _ => bail!(
                "{} goes on behind the last of {} frames; is the region right?",
                self.name,
                self.frames
            ),
        }
    }
}

/// Opens the sound of a film, of which no frame is read yet.
pub fn open_sounds<'a, R: Files + AllocGlobal>(
    rt: &R,
    name: &'a str,
    region: Region,
) -> Result<Sounds<'a, R::File>> {
    let file = films::open(rt, name)?;
    Ok(Sounds {
        name,
        file: BufReader::new(rt.alloc(), file)?,
        region,
        bytes: Vec::new(rt.alloc()),
        frames: 0,
        samples: 0,
    })
}

/// How many bytes are copied in one piece.
const COPIED: usize = 65_536;

/// Room for one piece of a copy.
fn part_of_copy(alloc: Global) -> Result<Vec<u8>, AllocError>
    ensures { IfOk result (λ v. vec_len v ≡ COPIED) }
{
    vec![in alloc; 0u8; COPIED]
}

/// Copies all samples, and returns how many bytes they have.
fn copy_samples<F: Read, W: Write>(
    alloc: Global,
    name: &str,
    from: &mut F,
    to: &mut W,
) -> Result<u64> {
    let mut part = part_of_copy(alloc)?;
    let mut copied = 0u64;
    for _ in 0..u64::MAX {
        let read = read_piece(from, part.as_mut_slice());
        let count = match films::read_of(name, read)? {
            Piece::Whole => COPIED,
            Piece::End => break,
            Piece::Cut(count) => count,
        };
        if let Some(bytes) = part.as_slice().get(..count) {
            to.write_all(bytes)?;
        }
        copied = copied.saturating_add(count as u64);
        if count < COPIED {
            break;
        }
    }
    Ok(copied)
}

/// The header before this many bytes of samples.
fn header_of(alloc: Global, name: &str, bytes: u64) -> Result<Vec<u8>> {
    ensure!(
        bytes % SAMPLE_BYTES as u64 == 0,
        "{name} is cut: {bytes} bytes are no whole number of samples"
    );
    match u32::try_from(bytes) {
        Ok(bytes) if bytes <= u32::MAX - 36 => Ok(wav_header(alloc, bytes)?),
        _ => bail!("{name} is too long for a WAV file: {bytes} bytes"),
    }
}

/// A sound that becomes a WAV: the names of both files, and the length of the sound's, if it is known before.
#[derive(Clone, Copy)]
struct Making<'a> {
    name: &'a str,
    out: &'a str,
    known: Option<u64>,
}

impl Making<'_> {
    /// Writes the samples behind a header, and the header again if it has another length.
    fn write<F: Read, W: Write + Seek + Drop>(
        self,
        alloc: Global,
        header: &[u8],
        from: &mut F,
        to: &mut BufWriter<W>,
    ) -> Result<()> {
        let Making { name, out, known } = self;
        films::write_to(to, out, header)?;
        let copied = copy_samples(alloc, name, from, to).context(format_args!(
            "cannot write {out}"
        ))?;
        if known != Some(copied) {
            let header = header_of(alloc, name, copied)?;
            to.seek(SeekFrom::Start(0))
                .context(format_args!("cannot go back in {out}"))?;
            films::write_to(to, out, header.as_slice())?;
        }
        films::write_of(out, to.flush())
    }
}

/// Obeys `look wav AUDIO OUT`. The header has the length. If that isn't known before, as of a pipe, OUT has to be a
/// file, whose header is written again at the end.
pub fn write_wav<R: Files + Print + AllocGlobal>(rt: &R, words: &ArgMatches<'_>) -> Result<()> {
    let alloc = rt.alloc();
    let name = films::name_in(words, "AUDIO");
    let out = films::name_in(words, "OUT");
    let mut from = films::open(rt, name)?;
    let known = films::length(rt, name);
    let header = header_of(alloc, name, known.unwrap_or(0))?;
    let mut to = films::create_buffered(rt, out, &[name])?;
    let making = Making { name, out, known };
    making.write(alloc, header.as_slice(), &mut from, &mut to)
}
