//! Plays the cartridges of `examples/profiles` in both profiles, and compares what is shown and heard with rows.
//!
//! A row prints `as in the row`, or what came. A sound is a stretch of samples from one that is not zero to another, in
//! which fewer than 64 zeros follow one another. Most sums are those of another emulator's pictures; `data/idioms.txt`
//! says which.

mod film;

use cart_map::accept;
use film::Film;
use free_files::{free_boot_rom, interpolation_table};
use idiom_carts::{IDIOMS, Idiom, cartridge, first_script, name, second_script};
use input_files::read_script;
use job_player::Console;
use run_drive::Player;
use snes_defs::Job;
use std::alloc::Global;
use std::io;
use std::str::SplitWhitespace;

/// The cartridge, profile and number of a row.
#[derive(Clone, Copy)]
struct Play {
    idiom: Idiom,
    is_second: bool,
    frames: u32,
}

/// Returns the idiom of a name.
fn idiom_of(word: &str) -> Option<Idiom> {
    for idiom in &IDIOMS {
        if name(*idiom) == word {
            return Some(*idiom);
        }
    }
    None
}

/// Reads the cartridge, profile and number of a row.
fn play_of(words: &mut SplitWhitespace<'_>) -> Option<Play> {
    let idiom = idiom_of(words.next()?)?;
    let is_second = match words.next()?.as_bytes() {
        b"first" => false,
        b"second" => true,
        _ => return None,
    };
    let frames = words.next()?.parse::<u32>().ok()?;
    Some(Play {
        idiom,
        is_second,
        frames,
    })
}

/// Returns the job of a row, with the given number of frames.
fn job_of(alloc: Global, play: Play, frames: u32) -> Option<Job> {
    let text = if play.is_second {
        second_script(play.idiom)
    } else {
        first_script(play.idiom)
    };
    let cart = accept(cartridge(alloc, play.idiom).ok()?).ok()?;
    let script = read_script(alloc, text.as_bytes()).ok()?;
    let region = script.region();
    Some(Job {
        cart,
        boot: free_boot_rom(),
        table: interpolation_table(),
        script,
        frames,
        region,
    })
}

/// Plays a job by the serial console.
fn play_job(alloc: Global, job: &Job, film: &mut Film) -> Option<()> {
    if job.frames > 36_000 {
        return None;
    }
    let Ok(player) = Console::ready(alloc, job) else {
        return None;
    };
    player.play_serial(film).ok()
}

/// Plays a row.
fn play_row(alloc: Global, play: Play, frames: u32, film: &mut Film) -> Option<()> {
    let job = job_of(alloc, play, frames)?;
    play_job(alloc, &job, film)
}

/// Returns the sum of a row's frame in hexadecimal.
fn sum_of(alloc: Global, play: Play) -> Option<String> {
    let mut film = Film::new(play.frames);
    play_row(alloc, play, play.frames.checked_add(1)?, &mut film)?;
    hex::encode(alloc, film.sum()?).ok()
}

/// Returns the name of a row's profile.
fn profile_of(play: Play) -> &'static str {
    if play.is_second { "second" } else { "first" }
}

/// Prints the frame of a row.
fn show<R: Print + AllocGlobal>(
    rt: &R,
    line: &str,
    words: &mut SplitWhitespace<'_>,
) -> Option<io::Result<()>> {
    let play = play_of(words)?;
    let wanted = words.next()?;
    let sum = sum_of(rt.alloc(), play)?;
    let (stem, frame, profile) = (name(play.idiom), play.frames, profile_of(play));
    Some(if sum.as_str() == wanted {
        println!(rt; "{stem}, {profile} profile, frame {frame}: as in the row")
    } else {
        println!(rt; "{line}: the sum is {sum}")
    })
}

/// Prints the sounds of a row's film.
fn tell_sounds<R: Print>(
    rt: &R,
    line: &str,
    play: Play,
    film: &Film,
    words: &mut SplitWhitespace<'_>,
) -> Option<io::Result<()>> {
    let mut sound = 0usize;
    for word in words {
        let length = word.parse::<u32>().ok()?;
        if film.length(sound) != Some(length) {
            return Some(match film.length(sound) {
                Some(other) => println!(rt; "{line}: a sound has {other} samples"),
                None => println!(rt; "{line}: a sound is missing"),
            });
        }
        sound = sound.saturating_add(1);
    }
    let (stem, profile) = (name(play.idiom), profile_of(play));
    Some(match film.length(sound) {
        Some(other) => println!(rt; "{line}: one more sound, of {other} samples"),
        None => println!(rt; "{stem}, {profile} profile, {sound} sounds: as in the row"),
    })
}

/// Prints the sounds of a row.
fn hear<R: Print + AllocGlobal>(
    rt: &R,
    line: &str,
    words: &mut SplitWhitespace<'_>,
) -> Option<io::Result<()>> {
    let play = play_of(words)?;
    let mut film = Film::new(0);
    play_row(rt.alloc(), play, play.frames, &mut film)?;
    tell_sounds(rt, line, play, &film, words)
}

/// Returns whether a line is one of these rows.
pub fn is_idiom(line: &str) -> bool {
    line.starts_with("frame ") || line.starts_with("sounds ")
}

/// Follows a line.
pub fn follow<R: Print + AllocGlobal>(rt: &R, line: &str) -> io::Result<()> {
    let mut words = line.split_whitespace();
    let told = match words.next() {
        Some(word) if word == "frame" => show(rt, line, &mut words),
        Some(word) if word == "sounds" => hear(rt, line, &mut words),
        _ => None,
    };
    match told {
        Some(result) => result,
        None => println!(rt; "no line of a row: {line}"),
    }
}
