//! The tags of a sound file, for `look tags`.

use crate::films;
use anyhow::{Result, bail};
use clap::ArgMatches;
use sound_tags::NotSoundFile;
use std::alloc::Global;
use std::io::{self, Write};
use std::rt::Files;
use tag_report::{ReportEnd, report};

/// One byte more than a sound file has.
const ROOM: usize = 1_048_577;

/// Reads the first bytes of a file: all of them, if it is not too long for a sound file.
fn first_bytes<R: Files + AllocGlobal>(rt: &R, name: &str) -> Result<Vec<u8>> {
    let mut bytes = vec![in rt.alloc(); 0u8; ROOM]?;
    let count = films::read_into(rt, name, bytes.as_mut_slice())?;
    bytes.truncate(count);
    Ok(bytes)
}

/// Why a file is not a sound file.
fn cause_of(why: NotSoundFile) -> &'static str {
    match why {
        NotSoundFile::TooLong => "it has more than 1048576 bytes",
        NotSoundFile::TooShort => "it has fewer than 65920 bytes",
        NotSoundFile::NoText => "it does not begin with SNES-SPC700 Sound File Data",
    }
}

/// The lines of a file.
fn lines(alloc: Global, name: &str, file: &[u8]) -> Result<Vec<u8>> {
    match report(alloc, file) {
        Ok(text) => Ok(text),
        Err(ReportEnd::Refused(why)) => bail!("{name} is not a sound file: {}", cause_of(why)),
        Err(ReportEnd::NoMemory) => bail!("out of memory"),
    }
}

/// Obeys `look tags FILE`.
pub fn say_tags<R: Files + Print + AllocGlobal>(rt: &R, words: &ArgMatches<'_>) -> Result<()> {
    let name = films::name_in(words, "FILE");
    let file = first_bytes(rt, name)?;
    let text = lines(rt.alloc(), name, file.as_slice())?;
    io::writer(rt).write_all(text.as_slice())?;
    Ok(())
}
