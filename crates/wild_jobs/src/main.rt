//! Makes the files of a random job from a number.
//!
//! The programs of its cartridge and its boot ROM talk through the ports, wait for each other, time out, move bytes by
//! DMA and HDMA, switch interrupts, and run wild. It has a table, and a script with pads and resets.
//!
//! `wild_jobs NUMBER FOLDER` writes `cart.sfc`, `boot.bin`, `table.bin` and `script.txt` into FOLDER, which it makes.
//! It prints how many frames the job has. Equal numbers make equal files. `tools/evidence/soak.sh` runs many of them by
//! `run` and by `serial` and compares their outputs; no clause depends on them.
#![tactic(auto)]

mod bytes;
mod console_code;
mod script;
mod sound_code;

use bytes::Bytes;
use case_text::Generator;
use std::alloc::Global;
use std::{env, fs, io};

/// The number of entries of a table.
const ENTRIES: u32 = 512;

/// Returns a random table.
fn table(alloc: Global, generator: &mut Generator) -> Option<Bytes> {
    let mut table = Bytes::new(alloc);
    for _ in 0..ENTRIES {
        table.add_word((generator.next() >> 21) as u16)?;
    }
    Some(table)
}

/// The four files of a job, and the number of its frames.
#[derive(Drop)]
struct Files {
    cart: Bytes,
    boot: Bytes,
    table: Bytes,
    script: Bytes,
    frames: u32,
}

/// Returns the files of a number; `None` if allocation fails.
fn make_files(alloc: Global, number: u32) -> Option<Files> {
    let mut generator = Generator::new(number.wrapping_mul(2_654_435_761));
    let frames = 2 + generator.next() / 65_536 % 4;
    Some(Files {
        cart: console_code::cartridge(alloc, &mut generator)?,
        boot: sound_code::boot_rom(alloc, &mut generator)?,
        table: table(alloc, &mut generator)?,
        script: script::script(alloc, &mut generator, frames)?,
        frames,
    })
}

fn main(rt: HostRuntime) -> io::Result<()> {
    let alloc = rt.alloc();
    let mut words = env::args(&rt)?.skip(1);
    let (Some(number), Some(folder)) = (words.next(), words.next()) else {
        return println!(rt; "usage: wild_jobs NUMBER FOLDER");
    };
    let Ok(number) = number.as_str().parse::<u32>() else {
        return println!(rt; "usage: wild_jobs NUMBER FOLDER");
    };
    let Some(files) = make_files(alloc, number) else {
        return println!(rt; "no memory");
    };
    fs::create_dir_all(&rt, folder.as_str())?;
    fs::write(
        &rt,
        format!(in alloc; "{folder}/cart.sfc")?,
        files.cart.get(),
    )?;
    fs::write(
        &rt,
        format!(in alloc; "{folder}/boot.bin")?,
        files.boot.get(),
    )?;
    fs::write(
        &rt,
        format!(in alloc; "{folder}/table.bin")?,
        files.table.get(),
    )?;
    fs::write(
        &rt,
        format!(in alloc; "{folder}/script.txt")?,
        files.script.get(),
    )?;
    println!(rt; "{} frames", files.frames)
}
