ghost use Rattle.std.specs.Prelude.{◌≡◌, ◌≤◌, All, length};

use case_text::{Generator, hashed, hexadecimal, no_hash, part, put};
use sdsp_echo::Echo;
use sdsp_voice::Voices;
use snes_defs::{Profile, Table};
use std::str::SplitWhitespace;

/// The voices and the echo with a table, and the number of the next sample.
#[derive(Drop)]
pub struct Unit {
    voices: Voices,
    echo: Echo,
    table: Table,
    sample: u64,
}

/// The result of a line of a scene.
#[derive(Clone, Copy)]
pub enum Outcome {
    /// The line was done, or the unit shows what it says.
    Holds,
    /// The unit shows something else than the line says.
    Differs,
}

impl Unit {
    /// Returns new voices of the first profile and a new echo, with the ramp as table and the sample number 0.
    pub fn new() -> Unit {
        Unit {
            voices: Voices::new(Profile::First),
            echo: Echo::new(),
            table: ramp(),
            sample: 0,
        }
    }

    /// Does one line of a scene, other than its first and last. RAM has 64 KiB.
    pub fn line(&mut self, ram: &mut [u8], line: &str) -> Option<Outcome> {
        if ram.len() != 65536 {
            return None;
        }
        let mut words = line.split_whitespace();
        let kind = words.next()?;
        match kind.as_bytes() {
            b"ram" => fill(ram, words)?,
            b"p" => put(ram, hexadecimal(words.next()?)?, words.next()?)?,
            b"table" => self.table = table(words)?,
            b"start" => self.sample = words.next()?.parse().ok()?,
            b"w" => self.write(words)?,
            b"s" => return self.play(ram, words),
            b"q" => return self.read(words),
            b"m" => return same_hash(ram, words),
            _ => return None,
        }
        Some(Outcome::Holds)
    }

    /// Makes the next sample, and returns its left and right numbers.
    pub fn next_sample(&mut self, ram: &mut [u8]) -> (i16, i16)
        requires { length ram.old ≡ 65536 }
        ensures { length ram.new ≡ 65536 }
    {
        let sums = self.voices.sample(ram, &self.table, self.sample);
        self.sample = self.sample.wrapping_add(1);
        self.echo.mix(&self.voices, sums, ram)
    }

    /// Writes registers before a sample.
    fn write(&mut self, mut words: SplitWhitespace<'_>) -> Option<()> {
        if words.next()?.parse::<u64>().ok()? != self.sample {
            return None;
        }
        for word in words {
            let reg = part::<u8>(word, 0, 2)?;
            if reg >= 128 {
                return None;
            }
            self.voices.write(reg, part(word, 2, 4)?);
        }
        Some(())
    }

    /// Makes samples, and compares them with those of the line.
    fn play(&mut self, ram: &mut [u8], mut words: SplitWhitespace<'_>) -> Option<Outcome>
        requires { length ram.old ≡ 65536 }
    {
        let mut left_to_play = words.next()?.parse::<u64>().ok()?;
        let mut outcome = Outcome::Holds;
        'samples: for word in words {
            let expected = hexadecimal::<u64>(word)?;
            let (left, right) = self.next_sample(ram);
            left_to_play = left_to_play.checked_sub(1)?;
            let pair = left.cast_unsigned() as u64 * 65536 + right.cast_unsigned() as u64;
            if pair != expected {
                outcome = Outcome::Differs;
            }
        }
        if left_to_play == 0 {
            Some(outcome)
        } else {
            None
        }
    }

    /// Compares a register with the line's byte.
    fn read(&self, mut words: SplitWhitespace<'_>) -> Option<Outcome> {
        let reg = hexadecimal::<u8>(words.next()?)?;
        if reg >= 128 {
            return None;
        }
        let expected = hexadecimal::<u8>(words.next()?)?;
        Some(told(self.voices.read(reg) == expected))
    }
}

/// Returns the result of a comparison.
fn told(same: bool) -> Outcome {
    if same {
        Outcome::Holds
    } else {
        Outcome::Differs
    }
}

/// Returns the table whose entry i is 4 i, 2047 at most.
fn ramp() -> Table {
    let mut numbers = [0u16; 512];
    'numbers: for i in 0..512 {
        numbers[i] = (4 * i as u16).min(2047);
    }
    Table::of(numbers)
}

/// Returns the table of a line: the ramp, or that of a seed.
fn table(mut words: SplitWhitespace<'_>) -> Option<Table> {
    let word = words.next()?;
    if word.as_bytes() == b"ramp".as_slice() {
        return Some(ramp());
    }
    Some(random_table(hexadecimal(word)?))
}

/// Returns the table of a seed.
fn random_table(seed: u32) -> Table {
    let mut generator = Generator::new(seed);
    let mut numbers = [0u16; 512];
    'numbers: for i in 0..512 {
        numbers[i] = (generator.next() >> 21) as u16;
    }
    Table::of(numbers)
}

/// Fills RAM by a seed.
fn fill(ram: &mut [u8], mut words: SplitWhitespace<'_>) -> Option<()> {
    let mut generator = Generator::new(hexadecimal(words.next()?)?);
    let ands = words.next()?.parse().ok()?;
    for byte in ram {
        *byte = generator.byte(ands);
    }
    Some(())
}

/// Whether RAM has the hash of a line: 64-bit FNV-1a.
fn same_hash(ram: &[u8], mut words: SplitWhitespace<'_>) -> Option<Outcome> {
    let expected = hexadecimal::<u64>(words.next()?)?;
    let mut hash = no_hash();
    for byte in ram {
        hash = hashed(hash, *byte);
    }
    Some(told(hash == expected))
}
