//! Runs the scenes of the given files through the PPU, and through the voices and the echo of the S-DSP.
//!
//! The arguments are kinds and files: the files after `picture` have scenes of the picture, those after `sound` of the
//! sound. The argument `random` compares rows of random pictures. The modules of these names say what is compared and
//! printed. The scenes are external test vectors: two other programs agreed on them. Those of
//! `data/picture_differing.txt` and `data/sound_differing.txt` are wrong in one thing each, and must be named.
#![tactic(auto)]

mod picture;
mod random;
mod sound;

use std::{env, fs, io};

/// What the scenes of a file are of.
#[derive(Clone, Copy)]
enum Kind {
    Picture,
    Sound,
}

fn main(rt: HostRuntime) -> io::Result<()> {
    let mut kind = Kind::Picture;
    let mut pictures = picture::Tally::new();
    let mut sounds = sound::Tally::new();
    for word in env::args(&rt)?.skip(1) {
        match word.as_str() {
            "picture" => kind = Kind::Picture,
            "sound" => kind = Kind::Sound,
            "random" => random::compare(&rt)?,
            name => {
                let text = fs::read_to_string(&rt, name)?;
                match kind {
                    Kind::Picture => pictures.follow(&rt, text.as_str())?,
                    Kind::Sound => sounds.follow(&rt, text.as_str())?,
                }
            }
        }
    }
    pictures.tell(&rt)?;
    sounds.tell(&rt)
}
