//! Makes the samples of the scenes of a file.
//!
//! There are 32,000 samples a second, each of four bytes: left, then right, signed, low byte first. The
//! lines are those of `sound_scenes`; a line `s N` makes N samples, whatever it gives to compare. To make a WAV:
//! `ffmpeg -f s16le -ar 32000 -ac 2 -i OUT scenes.wav`. To hear it directly:
//! `aplay -f S16_LE -r 32000 -c 2 OUT`.

ghost use Rattle.std.specs.Prelude.{◌≡◌, length};

use sound_scenes::Unit;
use std::alloc::{AllocError, Global};
use std::io;

/// Returns the given number of zeros.
fn zeros(alloc: Global, size: usize) -> io::Result<Vec<u8>> {
    Ok(vec![in alloc; 0u8; size]?)
}

/// Returns how many samples a line `s N ..` makes.
fn samples_of(line: &str) -> Option<u64> {
    let mut words = line.split_whitespace();
    let kind = words.next()?;
    if kind.as_bytes() == b"s".as_slice() {
        words.next()?.parse().ok()
    } else {
        None
    }
}

/// Adds a number of a sample.
fn add(bytes: &mut Vec<u8>, number: i16) -> Result<(), AllocError> {
    let word = number.cast_unsigned();
    bytes.push((word % 256) as u8)?;
    bytes.push((word / 256) as u8)?;
    Ok(())
}

/// Makes the given number of samples, and adds them if they are wanted.
fn make(
    unit: &mut Unit,
    ram: &mut [u8],
    count: u64,
    wanted: bool,
    bytes: &mut Vec<u8>,
) -> Result<(), AllocError> {
    if ram.len() != 65536 {
        return Ok(());
    }
    'samples: for _ in 0..count {
        let (left, right) = unit.next_sample(ram);
        if wanted {
            add(bytes, left)?;
            add(bytes, right)?;
        }
    }
    Ok(())
}

/// Whether a line of a scene is neither empty nor a comment.
fn says_something(line: &str) -> bool {
    !line.is_empty() && !line.starts_with("#")
}

/// Returns the samples of a range of scenes of a text, and prints how many there were.
pub fn show_scenes(
    rt: &impl Print,
    alloc: Global,
    text: &str,
    from: u64,
    upto: u64,
) -> io::Result<Vec<u8>> {
    let mut bytes = Vec::new(alloc);
    let mut ram = zeros(alloc, 65536)?;
    let mut unit = Unit::new();
    let mut scene = 0u64;
    let mut shown = 0u64;
    for line in text.lines() {
        if line.starts_with("sound ") {
            unit = Unit::new();
            ram.as_mut_slice().fill(0);
        } else if line == "end" {
            if from <= scene && scene <= upto {
                shown = shown.saturating_add(1);
            }
            scene = scene.saturating_add(1);
        } else if let Some(count) = samples_of(line) {
            let wanted = from <= scene && scene <= upto;
            make(&mut unit, ram.as_mut_slice(), count, wanted, &mut bytes)?;
        } else if says_something(line) && unit.line(ram.as_mut_slice(), line).is_none() {
            println!(rt; "no line of a scene: {line}")?;
        }
    }
    println!(rt; "{shown} scenes, {} samples", bytes.len() / 4)?;
    Ok(bytes)
}
