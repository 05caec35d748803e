ghost use Rattle.std.specs.Prelude.{◌≡◌, ◌≤◌, ◌<◌, ℕ, length, Ok, Err, IfOk};
ghost use Rattle.frame_sums.specs.SumsFile.{sums_of_file};
ghost use Rattle.frame_sums.specs.Compare.{pair_at};

use crate::reading::Reading;
use bstr::ByteSlice;
use std::alloc::Global;
use std::marker::Model;

/// The sums of a frame, or of all frames.
#[derive(Clone, Copy)]
pub struct SumPair {
    /// Of the picture, or of all video.
    pub picture: [u8; 32],
    /// Of the samples, or of all audio.
    pub sound: [u8; 32],
}

/// The sums that a file has: of each frame, and of all frames.
#[derive(Drop)]
pub struct SumsFile {
    frames: Vec<SumPair>,
    all: SumPair,
}

impl Model for SumsFile {
    ghost use Rattle.frame_sums.specs.SumsFile.{SumsIn};

    ghost Value = { SumsIn };

    ghost view = { λ f. record { frames = f.frames.items; all = f.all } };
}

impl SumsFile {
    /// Keeps these sums. No memory is taken.
    pub(crate) fn of(frames: Vec<SumPair>, all: SumPair) -> SumsFile
        ensures frames { result.frames ≡ frames.items }
        ensures all { result.all ≡ all }
    {
        SumsFile { frames, all }
    }

    /// How many frames it has sums of.
    pub fn frames(&self) -> usize
        ensures { result ≡ length self.now.frames }
    {
        self.frames.len()
    }

    /// The sums of a frame, from 0.
    pub fn pair(&self, frame: usize) -> SumPair
        requires { frame < length self.now.frames }
        ensures { result ≡ pair_at self.now frame }
    {
        self.frames[frame]
    }

    /// The sums of all frames.
    pub fn all(&self) -> SumPair
        ensures { result ≡ self.now.all }
    {
        self.all
    }
}

/// Why a file of sums was not read.
#[derive(Clone, Copy)]
pub enum SumsEnd {
    /// The first line, from 1, that is in no form, or that is missing.
    Line(u32),
    /// There was no memory.
    NoMemory,
}

/// Reads a file of sums, as `put_sums` writes it.
///
/// Lines end with LF or CR LF, and the last end may be missing. The first is `frame,picture,sound`. Each that follows is
/// a frame's number, from 0 on, or `all` in the last line, and two sums of 64 small hexadecimal digits, with commas between.
/// The first line of another form, at which there are more than 36,000 frames, or that is missing, is told by its number.
#[tactic(auto, unfolding(crate::specs::SumsFile::sums_of_file))]
pub fn read_sums(alloc: Global, file: &[u8]) -> Result<SumsFile, SumsEnd>
    ensures sums { IfOk result (λ sums. sums_of_file file.now ≡ Ok sums) }
    ensures refused { (line : ℕ) → result ≡ Err (SumsEnd.Line line) → sums_of_file file.now ≡ Err line }
{
    let mut reading = Reading::new(alloc);
    let mut number = 1u32;
    for line in file.lines() {
        reading.take(number, line)?;
        number = number.saturating_add(1);
    }
    reading.end(number)
}
