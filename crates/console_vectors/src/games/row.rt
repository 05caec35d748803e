//! Follows the lines of a file of rows.
ghost use Rattle.std.specs.Prelude.{◌≤◌};

use crate::games::film::Film;
use cart_map::accept;
use case_text::{hexadecimal, put};
use free_files::{free_boot_rom, interpolation_table};
use free_game::{SIZE, game_cartridge};
use input_files::read_script;
use job_player::Console;
use port_wire::OpenGate;
use run_drive::{Player, TurnPlayer};
use snes_defs::Job;
use std::alloc::Global;
use std::io;
use std::str::SplitWhitespace;
use std::thread::Threads;

/// How a job is played.
#[derive(Clone, Copy)]
enum By {
    Serial,
    Run,
    Lockless,
}

/// The current row: cartridges, script, and what was kept.
#[derive(Drop)]
pub struct Row {
    hello: Vec<u8>,
    is_game: bool,
    script: Vec<u8>,
    kept: Option<Film>,
}

/// Returns the job of a row with the given number of frames: the game or the other cartridge, with the free boot ROM
/// and table.
fn job_of(alloc: Global, row: &Row, frames: u32) -> Option<Job> {
    let image = if row.is_game {
        game_cartridge(alloc).ok()?
    } else {
        row.hello.as_slice().to_vec(alloc).ok()?
    };
    let cart = accept(image).ok()?;
    let script = read_script(alloc, row.script.as_slice()).ok()?;
    let region = script.region();
    Some(Job {
        cart,
        boot: free_boot_rom(),
        table: interpolation_table(),
        script,
        frames,
        region,
    })
}

/// Plays a job by the serial console.
fn play_serial(alloc: Global, job: &Job, film: &mut Film) -> Option<()>
    requires { job.now.frames ≤ 36000 }
{
    let Ok(player) = Console::ready(alloc, job) else {
        return None;
    };
    player.play_serial(film).ok()
}

/// Plays a job by turns over the log behind its lock.
fn play_turns<R: AllocGlobal + Threads>(rt: &R, job: &Job, film: &mut Film) -> Option<()>
    requires { job.now.frames ≤ 36000 }
{
    let Ok(turning) = Console::ready_turns(rt.alloc(), job) else {
        return None;
    };
    Console::play_turns(turning, rt, &OpenGate, film).ok()
}

/// Plays a job by turns over words without a lock.
fn play_words<R: AllocGlobal + Threads>(rt: &R, job: &Job, film: &mut Film) -> Option<()>
    requires { job.now.frames ≤ 36000 }
{
    let Ok(turning) = Console::ready_turns(rt.alloc(), job) else {
        return None;
    };
    Console::play_words(turning, rt, &OpenGate, film).ok()
}

/// Plays a job.
fn play<R: AllocGlobal + Threads>(rt: &R, job: &Job, by: By, film: &mut Film) -> Option<()> {
    if job.frames > 36_000 {
        return None;
    }
    match by {
        By::Serial => play_serial(rt.alloc(), job, film),
        By::Run => play_turns(rt, job, film),
        By::Lockless => play_words(rt, job, film),
    }
}

/// Plays a row.
fn play_row<R: AllocGlobal + Threads>(
    rt: &R,
    row: &Row,
    by: By,
    frames: u32,
    film: &mut Film,
) -> Option<()> {
    let job = job_of(rt.alloc(), row, frames)?;
    play(rt, &job, by, film)
}

/// Plays a row, and returns the hashes of its sound and of the wanted frames.
fn film_of<R: AllocGlobal + Threads>(
    rt: &R,
    row: &Row,
    by: By,
    frames: u32,
    wanted: Vec<bool>,
) -> Option<Film> {
    let mut film = Film::new(rt.alloc(), wanted).ok()?;
    play_row(rt, row, by, frames, &mut film)?;
    Some(film)
}

/// Returns which of the frames the words name; all of them if `all` is set.
fn wanted(alloc: Global, frames: u32, all: bool, words: SplitWhitespace<'_>) -> Option<Vec<bool>> {
    let mut wanted = vec![in alloc; all; frames as usize].ok()?;
    for word in words {
        *wanted.get_mut(word.parse::<usize>().ok()?)? = true;
    }
    Some(wanted)
}

/// Returns the way of playing that a word names.
fn by_of(word: &str) -> Option<By> {
    match word.as_bytes() {
        b"serial" => Some(By::Serial),
        b"run" => Some(By::Run),
        b"lockless" => Some(By::Lockless),
        _ => None,
    }
}

impl Row {
    /// Returns a row whose cartridge `hello` is zeros, or has no bytes if allocation fails.
    pub fn new(alloc: Global) -> Row {
        let hello = match vec![in alloc; 0u8; SIZE] {
            Ok(bytes) => bytes,
            Err(_) => Vec::new(alloc),
        };
        Row {
            hello,
            is_game: true,
            script: Vec::new(alloc),
            kept: None,
        }
    }

    /// Follows a line that says what is played.
    fn prepare(&mut self, line: &str) -> Option<()> {
        if let Some(text) = line.strip_prefix("script ") {
            self.script.extend_from_slice(text.as_bytes()).ok()?;
            return self.script.push(b'\n').ok();
        }
        let mut words = line.split_whitespace();
        match words.next()?.as_bytes() {
            b"put" => {
                let offset = hexadecimal(words.next()?)?;
                put(self.hello.as_mut_slice(), offset, words.next()?)
            }
            b"cart" => {
                self.is_game = words.next()? == "game";
                Some(())
            }
            _ => None,
        }
    }

    /// Follows a line that plays, and returns its hashes and the frames that it names.
    fn played<'a, R: AllocGlobal + Threads>(
        &self,
        rt: &R,
        line: &'a str,
    ) -> Option<(Film, SplitWhitespace<'a>)> {
        let mut words = line.split_whitespace();
        let (by, all) = match words.next()?.as_bytes() {
            b"show" => (by_of(words.next()?)?, false),
            b"keep" => (By::Serial, true),
            b"compare" => (By::Serial, true),
            _ => return None,
        };
        let frames = words.next()?.parse::<u32>().ok()?;
        let wanted = wanted(rt.alloc(), frames, all, words.clone().ok()?)?;
        Some((film_of(rt, self, by, frames, wanted)?, words))
    }

    /// Prints the result of a line that plays.
    fn tell<R: Print>(
        &mut self,
        rt: &R,
        line: &str,
        film: Film,
        frames: SplitWhitespace<'_>,
    ) -> io::Result<()> {
        if line.starts_with("keep") {
            self.kept = Some(film);
            return Ok(());
        }
        if line.starts_with("show") {
            show(rt, &film, frames)
        } else {
            self.compare(rt, &film)
        }
    }

    /// Prints the first frame that differs from what was kept.
    fn compare<R: Print>(&self, rt: &R, film: &Film) -> io::Result<()> {
        match &self.kept {
            Some(kept) => match kept.first_difference(film) {
                Some(frame) => println!(rt; "the first frame that differs: {frame}"),
                None => println!(rt; "no frame differs"),
            },
            None => println!(rt; "nothing was kept"),
        }
    }

    /// Follows a line.
    pub fn follow<R: Print + AllocGlobal + Threads>(
        &mut self,
        rt: &R,
        line: &str,
    ) -> io::Result<()> {
        if let Some(title) = line.strip_prefix("row ") {
            self.script.clear();
            return println!(rt; "{title}");
        }
        if self.prepare(line).is_some() {
            return Ok(());
        }
        match self.played(rt, line) {
            Some((film, frames)) => self.tell(rt, line, film, frames),
            None => println!(rt; "no line of a row: {line}"),
        }
    }
}

/// Prints the hash of each of these frames, and of the sound.
fn show<R: Print>(rt: &R, film: &Film, frames: SplitWhitespace<'_>) -> io::Result<()> {
    for word in frames {
        let Ok(frame) = word.parse::<usize>() else {
            return println!(rt; "no frame: {word}");
        };
        match film.picture(frame) {
            Some(hash) => println!(rt; "frame {frame}: {hash:016x}")?,
            None => println!(rt; "frame {frame} didn't come")?,
        }
    }
    let (hash, samples) = film.sound();
    println!(rt; "sound of {samples} samples: {hash:016x}")
}
