use crate::marks::{Frame, Marks, Track};
use crate::record::{Beginning, Record};
use cart_map::accept;
use case_text::{Generator, hexadecimal, put};
use input_files::{read_boot, read_script, read_table};
use snes_defs::Job;
use std::alloc::Global;
use std::str::{FromStr, SplitWhitespace};

/// The bytes of a frame of the picture.
const PICTURE: u64 = 244_736;

/// A job and its expected output, as far as its lines have been read.
#[derive(Drop)]
pub struct Case {
    image: Vec<u8>,
    boot: Vec<u8>,
    table: Vec<u8>,
    script: Vec<u8>,
    frames: u32,
    /// The most turns that the run may make.
    pub turns: u64,
    pictures: Vec<Frame>,
    sounds: Vec<Frame>,
    console_steps: Vec<Beginning>,
    sound_steps: Vec<Beginning>,
}

impl Case {
    /// Returns a job of which no line was read.
    pub fn new(alloc: Global) -> Case {
        Case {
            image: Vec::new(alloc),
            boot: Vec::new(alloc),
            table: Vec::new(alloc),
            script: Vec::new(alloc),
            frames: 0,
            turns: u64::MAX,
            pictures: Vec::new(alloc),
            sounds: Vec::new(alloc),
            console_steps: Vec::new(alloc),
            sound_steps: Vec::new(alloc),
        }
    }

    /// Begins another job, of which no line was read.
    pub fn begin(&mut self, alloc: Global) {
        *self = Case::new(alloc);
    }

    /// Reads a line of a job, other than its first and its last.
    pub fn line(&mut self, alloc: Global, line: &str) -> Option<()> {
        if let Some(text) = line.strip_prefix("script ") {
            return self.add_to_script(text);
        }
        let mut words = line.split_whitespace();
        let kind = words.next()?.as_bytes();
        match kind {
            b"v" | b"a" | b"c" | b"d" => self.expect(kind, &mut words),
            b"turns" => set(&mut self.turns, number(&mut words)),
            b"frames" => set(&mut self.frames, number(&mut words)),
            _ => self.read_file(alloc, kind, &mut words),
        }
    }

    /// Adds a line to the script.
    fn add_to_script(&mut self, text: &str) -> Option<()> {
        self.script.extend_from_slice(text.as_bytes()).ok()?;
        self.script.push(b'\n').ok()
    }

    /// Reads a line that makes a file of the job, or that puts bytes into the cartridge's.
    fn read_file(
        &mut self,
        alloc: Global,
        kind: &[u8],
        words: &mut SplitWhitespace<'_>,
    ) -> Option<()> {
        match kind {
            b"image" => set(&mut self.image, image_of(alloc, words)),
            b"fill" => set(&mut self.image, filled(alloc, words)),
            b"p" => put_bytes(self.image.as_mut_slice(), words),
            b"boot" => set(&mut self.boot, boot_of(alloc, words)),
            b"table" => set(&mut self.table, table_of(alloc, words.next()?)),
            _ => None,
        }
    }

    /// Reads a line of what is expected of the job.
    fn expect(&mut self, kind: &[u8], words: &mut SplitWhitespace<'_>) -> Option<()> {
        match kind {
            b"v" => expect_picture(&mut self.pictures, words),
            b"a" => expect_sound(&mut self.sounds, words),
            b"c" => expect_steps(&mut self.console_steps, words),
            b"d" => expect_steps(&mut self.sound_steps, words),
            _ => None,
        }
    }

    /// Returns the job.
    pub fn job(&self, alloc: Global) -> Option<Job> {
        let boot = read_boot(self.boot.as_slice())?;
        let table = read_table(self.table.as_slice()).ok()?;
        let image = self.image.as_slice().to_vec(alloc).ok()?;
        let cart = accept(image).ok()?;
        let script = read_script(alloc, self.script.as_slice()).ok()?;
        let region = script.region();
        Some(Job {
            cart,
            boot,
            table,
            script,
            frames: self.frames,
            region,
        })
    }

    /// Returns the frames that are expected.
    pub fn marks(&self, alloc: Global) -> Option<Marks> {
        Some(Marks {
            video: Track::of(self.pictures.as_slice().to_vec(alloc).ok()?),
            sound: Track::of(self.sounds.as_slice().to_vec(alloc).ok()?),
        })
    }

    /// Returns the first steps that are expected: the console's, then the sound side's.
    pub fn records(&self, alloc: Global) -> Option<(Record, Record)> {
        let console = self.console_steps.as_slice().to_vec(alloc).ok()?;
        let sound = self.sound_steps.as_slice().to_vec(alloc).ok()?;
        Some((Record::of(console), Record::of(sound)))
    }
}

/// Sets a field to the value of a line, if it has one.
fn set<T: Drop>(field: &mut T, value: Option<T>) -> Option<()> {
    *field = value?;
    Some(())
}

/// Reads the next word as a number.
fn number<T: FromStr>(words: &mut SplitWhitespace<'_>) -> Option<T>
where
    T::Err: Drop,
{
    words.next()?.parse().ok()
}

/// Puts bytes into a cartridge's file, at the offset before them.
fn put_bytes(image: &mut [u8], words: &mut SplitWhitespace<'_>) -> Option<()> {
    let offset = hexadecimal(words.next()?)?;
    put(image, offset, words.next()?)
}

/// Returns the bytes of a boot ROM.
fn boot_of(alloc: Global, words: &mut SplitWhitespace<'_>) -> Option<Vec<u8>> {
    hex::decode(alloc, words.next()?).ok()
}

/// Returns a cartridge's file of generated bytes.
fn image_of(alloc: Global, words: &mut SplitWhitespace<'_>) -> Option<Vec<u8>> {
    let size = words.next()?.parse::<usize>().ok()?;
    let mut generator = Generator::new(hexadecimal(words.next()?)?);
    let ands = words.next()?.parse().ok()?;
    let mut image = Vec::new(alloc);
    for _ in 0..size {
        image.push(generator.byte(ands)).ok()?;
    }
    Some(image)
}

/// Returns a cartridge's file of equal bytes.
fn filled(alloc: Global, words: &mut SplitWhitespace<'_>) -> Option<Vec<u8>> {
    let size = words.next()?.parse().ok()?;
    let byte = hexadecimal::<u8>(words.next()?)?;
    vec![in alloc; byte; size].ok()
}

/// Returns a table's file: the ramp, or that of a seed.
fn table_of(alloc: Global, word: &str) -> Option<Vec<u8>> {
    let mut file = Vec::new(alloc);
    if word == "ramp" {
        for i in 0..512u32 {
            add_entry(&mut file, (4 * i).min(2047))?;
        }
        return Some(file);
    }
    let mut generator = Generator::new(hexadecimal(word)?);
    for _ in 0..512u32 {
        add_entry(&mut file, generator.next() >> 21)?;
    }
    Some(file)
}

/// Adds an entry of a table, low byte first.
fn add_entry(file: &mut Vec<u8>, entry: u32) -> Option<()> {
    file.push((entry % 256) as u8).ok()?;
    file.push((entry / 256 % 256) as u8).ok()
}

/// Adds the hash of an expected frame of the picture; frames come in order.
fn expect_picture(frames: &mut Vec<Frame>, words: &mut SplitWhitespace<'_>) -> Option<()> {
    if words.next()?.parse::<usize>().ok()? != frames.len() {
        return None;
    }
    let hash = hexadecimal(words.next()?)?;
    frames
        .push(Frame {
            size: PICTURE,
            hash,
        })
        .ok()
}

/// Adds the number and the hash of a frame's expected samples; frames come in order.
fn expect_sound(frames: &mut Vec<Frame>, words: &mut SplitWhitespace<'_>) -> Option<()> {
    if words.next()?.parse::<usize>().ok()? != frames.len() {
        return None;
    }
    let size = words.next()?.parse::<u64>().ok()?.checked_mul(4)?;
    let hash = hexadecimal(words.next()?)?;
    frames.push(Frame { size, hash }).ok()
}

/// Adds a number of first steps with the hash of their records; the numbers rise.
fn expect_steps(beginnings: &mut Vec<Beginning>, words: &mut SplitWhitespace<'_>) -> Option<()> {
    let steps = words.next()?.parse::<u64>().ok()?;
    let before = match beginnings.last() {
        Some(beginning) => beginning.steps,
        None => 0,
    };
    if steps <= before {
        return None;
    }
    let hash = hexadecimal(words.next()?)?;
    beginnings.push(Beginning { steps, hash }).ok()
}
