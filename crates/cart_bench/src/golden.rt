//! The golden sums of a case: they are read, or made by its run.

ghost use Rattle.std.specs.Prelude.{◌≡◌, Ok, IfOk};
ghost use Rattle.frame_sums.specs.SumsFile.{sums_of_file};

use crate::inputs::Reader;
use anyhow::{Result, bail};
use bench_checks::read_golden;
use file_shelf::FileShelf;
use frame_sums::{FrameSums, SumsFile, put_sums};
use run_drive::Sink;
use shelf::{Out, Shelf};
use snes_defs::{MOST_FRAMES, NoMemory, Region, Side};
use std::alloc::Global;
use std::rt::Files;

/// The most bytes of a file of sums: 36,000 lines of at most 137, and two more.
const SUMS: usize = 5_000_000;

/// Reads the golden sums of a file.
pub fn golden_of<R: Files + Print>(reader: &mut Reader<'_, R>, name: &str) -> Result<SumsFile> {
    let mut file = reader.named(name)?;
    if let Err(error) = reader.read_into(&mut file, SUMS) {
        bail!("{error:#} (--update writes golden sums)");
    }
    read_golden(reader.alloc, file.path.as_str(), file.bytes.as_slice())
}

/// Creates the file of golden sums at this path. A file that the case reads is refused.
fn create_sums<R: Files + Print>(reader: &mut Reader<'_, R>, path: &str) -> Result<()> {
    if path.is_empty() || path.len() > 4096 {
        bail!("cannot write {path}");
    }
    match reader.shelf.create(Out::Sums, path) {
        Ok(()) => Ok(()),
        Err(_) => Err(reader.fault_of("write", path)),
    }
}

/// The sums of a run, while they are made.
#[derive(Drop)]
pub struct Recorder {
    sums: FrameSums,
    ghost same: { sums.video.cuts.of.frames ≡ sums.audio.cuts.of.frames },
}

impl Recorder {
    /// Returns the sums of a run of which nothing is known yet.
    pub fn new(alloc: Global, region: Region, frames: u32) -> Result<Recorder, NoMemory> {
        let frames = frames.min(MOST_FRAMES);
        Ok(Recorder {
            sums: FrameSums::new(alloc, region, frames)?,
        })
    }

    /// Takes the next frame.
    pub fn take(&mut self, picture: &[u8], sound: &[u8]) {
        let _ = self.sums.take(Side::Console, picture);
        let _ = self.sums.take(Side::Sound, sound);
    }

    /// Puts the sums of the whole run to the file that was created for them. Returns whether all is written.
    fn put<R: Files + Print>(self, shelf: &mut FileShelf<'_, R>) -> bool {
        let Recorder { sums } = self;
        let (video, audio) = sums.finish();
        put_sums(shelf, &video, &audio).is_ok() && shelf.flush(Out::Sums).is_ok()
    }

    /// Writes the sums of the whole run to a file, in the form that `snes sums` writes.
    pub fn write<R: Files + Print>(self, reader: &mut Reader<'_, R>, path: &str) -> Result<()> {
        create_sums(reader, path)?;
        if self.put(&mut reader.shelf) {
            Ok(())
        } else {
            Err(reader.fault_of("write", path))
        }
    }
}
