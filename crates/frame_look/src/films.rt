//! Films as they are read: frame by frame, with the number of each.

ghost use Rattle.std.specs.Prelude.{◌≡◌, ◌<◌, length, vec_len};

use anyhow::{Context, Result, bail, ensure};
use clap::ArgMatches;
use film_formats::{FRAME_BYTES, Piece, read_piece};
use std::fs::{self, Metadata, OpenFile, OpenOptions};
use std::io::{self, BufWriter, Read, Seek, SeekFrom, Write};
use std::os::unix::fs::MetadataExt;
use std::rt::Files;

/// The name of a file in the command line; `-` if it is left out.
pub fn name_in<'a>(words: &'a ArgMatches<'_>, word: &str) -> &'a str {
    match words.get_str(word) {
        Some(name) => name,
        None => "-",
    }
}

/// The path of a name that is read; `-` is standard input.
fn input_path(name: &str) -> &str {
    if name == "-" { "/dev/stdin" } else { name }
}

/// What a read of the file of a name returned. An error says which file can't be read.
pub fn read_of<T>(name: &str, done: io::Result<T>) -> Result<T> {
    done.context(format_args!("cannot read {name}"))
}

/// What a write of the file of a name returned. An error says which file can't be written.
pub fn write_of<T>(name: &str, done: io::Result<T>) -> Result<T> {
    done.context(format_args!("cannot write {name}"))
}

/// Opens the file of a name; `-` is standard input.
pub fn open<R: Files>(rt: &R, name: &str) -> Result<R::File> {
    read_of(name, fs::open(rt, input_path(name)))
}

/// Reads the whole file of a name.
pub fn read<R: Files + AllocGlobal>(rt: &R, name: &str) -> Result<Vec<u8>> {
    read_of(name, fs::read(rt, input_path(name)))
}

/// Reads the first bytes of the file of a name into some room, and returns how many there are: all the file has, or all
/// that there is room for.
pub fn read_into<R: Files>(rt: &R, name: &str, room: &mut [u8]) -> Result<usize>
    requires { 0 < length room.old }
{
    let mut file = open(rt, name)?;
    match read_of(name, read_piece(&mut file, room))? {
        Piece::Whole => Ok(room.len()),
        Piece::End => Ok(0),
        Piece::Cut(count) => Ok(count),
    }
}

/// Whether a name that is read leads to this regular file, by its device and its number there.
fn is_same<R: Files>(rt: &R, input: &str, file: &Metadata) -> bool {
    match fs::metadata(rt, input_path(input)) {
        Ok(about) => about.is_file()
            && file.is_file()
            && about.ino() != 0
            && about.ino() == file.ino()
            && about.dev() == file.dev(),
        Err(_) => false,
    }
}

/// Empties the file of a name. If it is one of the inputs, by whatever name, it is refused and stays as it is.
fn empty<R: Files>(rt: &R, file: &R::File, name: &str, inputs: &[&str]) -> Result<()> {
    let about = write_of(name, file.metadata())?;
    for input in inputs {
        ensure!(
            !is_same(rt, input, &about),
            "{name} is the file that is read as {input}: nothing is written"
        );
    }
    if about.is_file() {
        write_of(name, file.set_len(0))?;
    }
    Ok(())
}

/// Creates a file of a name; `-` is standard output. If it is one of the inputs, by whatever name, it is refused and
/// stays as it is.
pub fn create<R: Files>(rt: &R, name: &str, inputs: &[&str]) -> Result<R::File> {
    let path = if name == "-" { "/dev/stdout" } else { name };
    let opened = OpenOptions::new().write(true).create(true).open(rt, path);
    let file = write_of(name, opened)?;
    empty(rt, &file, name, inputs)?;
    Ok(file)
}

/// Creates a file of a name, which may be no input, to be written in small parts.
pub fn create_buffered<R: Files + AllocGlobal>(
    rt: &R,
    name: &str,
    inputs: &[&str],
) -> Result<BufWriter<R::File>> {
    Ok(BufWriter::new(rt.alloc(), create(rt, name, inputs)?)?)
}

/// Writes bytes to the file of a name.
pub fn write_to<W: Write>(file: &mut W, name: &str, bytes: &[u8]) -> Result<()> {
    write_of(name, file.write_all(bytes))
}

/// Writes a whole file of a name, which may be no input.
pub fn write<R: Files>(rt: &R, name: &str, inputs: &[&str], bytes: &[u8]) -> Result<()> {
    let mut file = create(rt, name, inputs)?;
    write_to(&mut file, name, bytes)
}

/// The length of a regular file, or none for anything else, such as a pipe.
pub fn length<R: Files>(rt: &R, name: &str) -> Option<u64> {
    match fs::metadata(rt, input_path(name)) {
        Ok(about) if about.is_file() => Some(about.len()),
        _ => None,
    }
}

/// Raw frames, read one after another.
#[derive(Drop)]
pub struct Frames<'a, F: Read + Drop> {
    name: &'a str,
    file: F,
    bytes: Vec<u8>,
    read: u64,
    ghost whole: { vec_len bytes ≡ 244736 },
}

impl<F: Read + Drop> Frames<'_, F> {
    /// Reads the next frame.
    fn piece(&mut self) -> Result<Piece> {
        let read = read_piece(&mut self.file, self.bytes.as_mut_slice());
        let piece = read_of(self.name, read)?;
        if piece == Piece::Whole {
            self.read = self.read.saturating_add(1);
        }
        Ok(piece)
    }

    /// Reads the next frame, and returns false if there is none. A cut frame is an error that names its number.
    pub fn next(&mut self) -> Result<bool> {
        match self.piece()? {
            Piece::Whole => Ok(true),
            Piece::End => Ok(false),
            Piece::Cut(count) => bail!(
                "{} is cut: frame {} has {count} of its {FRAME_BYTES} bytes",
                self.name,
                self.read
            ),
        }
    }

    /// Reads frames up to and with one of this number, and no further. If there is no such frame, the error says how
    /// many there are.
    pub fn reach(&mut self, wanted: u64) -> Result<()> {
        self.read_up_to(wanted.saturating_add(1), wanted)
    }

    /// Reads frames until this many were read. If there are fewer, the error says that the frame `wanted` is not there,
    /// and how many are.
    fn read_up_to(&mut self, count: u64, wanted: u64) -> Result<()> {
        for _ in self.read..count {
            match self.piece()? {
                Piece::Whole => {}
                Piece::End => bail!(
                    "{} has no frame {wanted}: it has {} frames",
                    self.name,
                    self.read
                ),
                Piece::Cut(bytes) => bail!(
                    "{} has no frame {wanted}: it has {} frames, and {bytes} bytes of the next",
                    self.name,
                    self.read
                ),
            }
        }
        Ok(())
    }

    /// Begins before the frame of this number. In a regular file of `whole` frames the frames before it are not read; of
    /// a pipe they are.
    fn begin_before(&mut self, wanted: u64, whole: Option<u64>) -> Result<()>
    where
        F: Seek,
    {
        let Some(whole) = whole else {
            return self.read_up_to(wanted, wanted);
        };
        let skipped = wanted.min(whole);
        let place = skipped.saturating_mul(FRAME_BYTES as u64);
        read_of(self.name, self.file.seek(SeekFrom::Start(place)))?;
        self.read = skipped;
        Ok(())
    }

    /// The frame that was read last.
    pub fn frame(&self) -> &[u8]
        ensures { length result.now ≡ 244736 }
    {
        self.bytes.as_slice()
    }
}

/// Opens a film, of which no frame is read yet.
pub fn open_film<'a, R: Files + AllocGlobal>(rt: &R, name: &'a str) -> Result<Frames<'a, R::File>> {
    let file = open(rt, name)?;
    Ok(Frames {
        name,
        file,
        bytes: vec![in rt.alloc(); 0u8; FRAME_BYTES]?,
        read: 0,
    })
}

/// The whole frames of a regular file, which may still grow; nothing of a pipe.
pub fn frames_of_file<R: Files>(rt: &R, name: &str) -> Option<u64> {
    Some(length(rt, name)? / FRAME_BYTES as u64)
}

/// Opens a film before its frame of this number. In a regular file the frames before it are not read; of a pipe they
/// are, and nothing behind them.
pub fn open_before<'a, R: Files + AllocGlobal>(
    rt: &R,
    name: &'a str,
    wanted: u64,
) -> Result<Frames<'a, R::File>> {
    let mut frames = open_film(rt, name)?;
    frames.begin_before(wanted, frames_of_file(rt, name))?;
    Ok(frames)
}

/// Opens a film, and reads its frame of this number and none behind it.
pub fn open_at<'a, R: Files + AllocGlobal>(
    rt: &R,
    name: &'a str,
    wanted: u64,
) -> Result<Frames<'a, R::File>> {
    let mut frames = open_before(rt, name, wanted)?;
    frames.reach(wanted)?;
    Ok(frames)
}
