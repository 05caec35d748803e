//! Writes a LoROM header into a copy of a cartridge that has none.
//!
//! `header --help` lists its arguments. `header_writer` decides which files get a header, and writes it. The code here
//! opens files and says what was done. `docs/use/CARTRIDGES.md` has the rule.
//!
//! The status is 0 if the copy is written, 1 if the file is refused, and 2 if a file could not be read or written, or
//! if the command line is invalid.
#![tactic(auto)]

mod files;
mod words;

use anyhow::{Context, Result, bail};
use cart_map::{CartEnd, CartRefused, accept};
use clap::ArgMatches;
use companion_words::{Companion, DONE, NO, Program, run};
use header_writer::{HeaderRefused, write_header, write_least};
use std::process::ExitCode;
use std::rt::Files;

/// Returns a title of 21 bytes, filled with spaces.
fn title_of(text: &str) -> Result<[u8; 21]> {
    let given = text.as_bytes();
    if given.len() > 21 {
        bail!("--title: at most 21 characters");
    }
    let mut title = [b' '; 21];
    for (place, byte) in title.iter_mut().zip(given) {
        if *byte < 0x20 || *byte > 0x7e {
            bail!("--title: printable ASCII characters only");
        }
        *place = *byte;
    }
    Ok(title)
}

/// Says of a file that has a header whether `snes` takes it.
fn say_header<R: Print>(rt: &R, name: &str, file: Vec<u8>) -> Result<()> {
    match accept(file) {
        Ok(_) => println!(rt; "{name} has a header: snes takes it as it is")?,
        Err(CartEnd::Refused(CartRefused::Coprocessor(chip))) => println!(rt;
            "{name} has a header, which names a coprocessor (chip byte {chip:02X}): snes does not take it"
        )?,
        Err(CartEnd::Refused(CartRefused::RamSize(size))) => println!(rt;
            "{name} has a header, which asks for too much RAM (size byte {size}): snes does not take it"
        )?,
        Err(_) => println!(rt; "{name} has a header")?,
    }
    Ok(())
}

/// Says why a file is refused, and what to do.
fn say_refused<R: Print>(rt: &R, name: &str, file: Vec<u8>, cause: HeaderRefused) -> Result<()> {
    match cause {
        HeaderRefused::TooShort => println!(rt;
            "{name} is too short: fill it up to 32 KiB, with the vectors at 7FE0 to 7FFF"
        )?,
        HeaderRefused::TooLong => println!(rt; "{name} is too long: snes takes at most 4 MiB")?,
        HeaderRefused::HasHeader => say_header(rt, name, file)?,
        HeaderRefused::Reset(byte) => println!(rt;
            "{name} is not a LoROM program: its reset vector leads below 8000 (byte 7FFD is {byte:02X})"
        )?,
        HeaderRefused::InUse => println!(rt;
            "{name} uses its bytes 7FC0 to 7FDF: --least writes four of them only, 7FD5 to 7FD8"
        )?,
    }
    Ok(())
}

/// Writes the copy that the arguments name, and returns the status.
fn write_copy<R: Files + Print + AllocGlobal>(rt: &R, words: &ArgMatches<'_>) -> Result<u8> {
    let alloc = rt.alloc();
    let input = words.get_str("in").unwrap_or("");
    let output = words.get_str("out").unwrap_or("");
    let title = title_of(words.get_str("title").unwrap_or(""))?;
    let Some(mut file) = files::read(rt, alloc, input)? else {
        say_refused(rt, input, Vec::new(alloc), HeaderRefused::TooLong)?;
        return Ok(NO);
    };
    let is_least = words.get_flag("least");
    let written = if is_least {
        write_least(file.as_mut_slice())
    } else {
        write_header(file.as_mut_slice(), &title)
    };
    if let Err(cause) = written {
        say_refused(rt, input, file, cause).context("cannot write standard output")?;
        return Ok(NO);
    }
    files::write(rt, output, input, file.as_slice())?;
    let bytes = if is_least {
        "7FD5 to 7FD8"
    } else {
        "7FC0 to 7FDF"
    };
    println!(rt; "{output}: LoROM without RAM, by its bytes {bytes}").context(
        "cannot write standard output",
    )?;
    Ok(DONE)
}

/// This program, as a companion of `snes`.
#[derive(Drop)]
struct Header;

impl Companion for Header {
    fn program(&self) -> Program {
        words::program()
    }

    fn obey<R: Files + Print + Eprint + AllocGlobal>(
        &self,
        rt: &R,
        _command: &str,
        words: &ArgMatches<'_>,
    ) -> Result<u8> {
        write_copy(rt, words)
    }
}

fn main(rt: HostRuntime) -> ExitCode {
    run(&rt, &Header)
}
