//! Writes the scenes of files as pictures and sound, for people to look at and hear.
//!
//! `scene_show KIND FILE OUT FROM UPTO`: the scenes FROM to UPTO (decimal) of FILE go one after another into OUT. KIND
//! is `picture` or `sound`; the modules of these names describe OUT. Any number of such groups of five arguments may
//! follow one another. The program prints how much it wrote, and names each invalid line of a scene.
#![tactic(auto)]

mod picture;
mod sound;

use std::rt::Files;
use std::{env, fs, io};

/// The message for invalid arguments.
const USAGE: &str = "usage: scene_show picture|sound FILE OUT FROM UPTO";

/// More groups of arguments than a command line has.
const MOST_GROUPS: u32 = 100;

/// Writes a range of scenes of a file of a kind.
fn show<R: AllocGlobal + Print + Files>(
    rt: &R,
    kind: &str,
    name: &str,
    out: &str,
    from: u64,
    upto: u64,
) -> io::Result<()> {
    let text = fs::read_to_string(rt, name)?;
    let bytes = match kind {
        "picture" => picture::show_scenes(rt, rt.alloc(), text.as_str(), from, upto)?,
        "sound" => sound::show_scenes(rt, rt.alloc(), text.as_str(), from, upto)?,
        _ => return println!(rt; "{USAGE}"),
    };
    fs::write(rt, out, bytes.as_slice())
}

fn main(rt: HostRuntime) -> io::Result<()> {
    let mut words = env::args(&rt)?.skip(1);
    for number in 0..MOST_GROUPS {
        let Some(kind) = words.next() else {
            return if number == 0 {
                println!(rt; "{USAGE}")
            } else {
                Ok(())
            };
        };
        let (Some(name), Some(out), Some(from), Some(upto)) = (
            words.next(),
            words.next(),
            words.next(),
            words.next(),
        ) else {
            return println!(rt; "{USAGE}");
        };
        let (Ok(from), Ok(upto)) = (from.as_str().parse::<u64>(), upto.as_str().parse::<u64>())
        else {
            return println!(rt; "{USAGE}");
        };
        show(&rt, kind.as_str(), name.as_str(), out.as_str(), from, upto)?;
    }
    Ok(())
}
