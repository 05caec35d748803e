//! Makes a demonstration cartridge: an evening over a lake, in mode 1 with three backgrounds, 128 moving objects, a
//! window, colour arithmetic, three channels of HDMA, and a program that works as a game does.
//!
//! `scene_cart FOLDER` writes into FOLDER, which it makes, the cartridge `scene.sfc`, the game `game.sfc`, and what else a
//! run of them needs: the free boot ROM `boot.bin`, the interpolation table `table.bin` and the empty `script.txt`. Both
//! cartridges send a sound program to the APU. `scene_cart --measured FOLDER` writes the scene without its tune, with
//! the demo's boot ROM and table: the files by which speed has always been measured. Beside them it writes `sieve.sfc` and
//! `mode7.sfc`, and `tune.sfc` with the free boot ROM `tune_boot.bin` and the table `tune_table.bin`. `scene_cart --idioms
//! FOLDER` writes the cartridges that show the rules of both profiles (`examples/profiles`) in place of all these, each with a
//! script for each profile, and the free boot ROM and table. Without a folder it writes nothing. It prints the length of each
//! cartridge, once all is written.
//!
//! The status is 0 only if all was written and printed, else 2, as of every companion. Standard error says which file could
//! not be written, and what the system said.
#![tactic(auto)]

mod assembler;
mod graphics;
mod header;
mod idioms;
mod image;
mod landscape;
mod objects;
mod program;
mod sound;

use anyhow::{Context, Result, bail};
use assembler::Code;
use clap::ArgMatches;
use companion_words::{Companion, DONE, Kind, Program, Word, run, words};
use demo_files::{demo_boot_rom, demo_table};
use free_files::{free_boot_rom, interpolation_table};
use free_game::game_cartridge;
use idioms::{print_idioms, write_idioms};
use image::{Image, NUMBERS};
use snes_defs::Table;
use speed_carts::{mode7_cartridge, sieve_cartridge, tune_cartridge};
use std::alloc::{AllocError, Global};
use std::fs;
use std::process::ExitCode;
use std::rt::Files;

/// A cartridge beside the scene, and the name of its file.
#[derive(Drop)]
struct CartridgeFile {
    name: &'static str,
    bytes: Vec<u8>,
}

impl CartridgeFile {
    fn of(name: &'static str, bytes: Vec<u8>) -> CartridgeFile {
        CartridgeFile { name, bytes }
    }
}

/// All that a run of the scene needs, and further cartridges: the game, or those that speed is measured by.
#[derive(Drop)]
struct Scene {
    cartridge: Image,
    more: Vec<CartridgeFile>,
    boot: [u8; 64],
    table: Table,
    is_measured: bool,
}

/// Returns the whole cartridge with its tune or without; `None` if the program doesn't fit.
fn cartridge(alloc: Global, with_tune: bool) -> Result<Option<Image>, AllocError> {
    let mut image = Image::new(alloc)?;
    let mut code = Code::new();
    let (reset, nmi) = program::write_program(&mut code, with_tune);
    image.put(0, code.bytes());
    if with_tune {
        sound::put_sound(&mut image);
    }
    for number in 0..256u16 {
        image.put_word(NUMBERS + 2 * u32::from(number), 37 * number);
    }
    landscape::put_landscape(&mut image);
    objects::put_objects(&mut image);
    header::put_header(&mut image, reset.0, nmi.0);
    Ok(if code.fits() { Some(image) } else { None })
}

/// Returns the cartridges beside the scene: those that speed is measured by, or the game.
fn further(alloc: Global, is_measured: bool) -> Result<Vec<CartridgeFile>, AllocError> {
    let mut more = Vec::new(alloc);
    if is_measured {
        more.push(CartridgeFile::of("sieve.sfc", sieve_cartridge(alloc)?))?;
        more.push(CartridgeFile::of("mode7.sfc", mode7_cartridge(alloc)?))?;
        more.push(CartridgeFile::of("tune.sfc", tune_cartridge(alloc)?))?;
    } else {
        more.push(CartridgeFile::of("game.sfc", game_cartridge(alloc)?))?;
    }
    Ok(more)
}

/// Returns the files of the scene, or of the one that speed is measured by.
fn files(alloc: Global, is_measured: bool) -> Result<Option<Scene>, AllocError> {
    let Some(cartridge) = cartridge(alloc, !is_measured)? else {
        return Ok(None);
    };
    let more = further(alloc, is_measured)?;
    let (boot, table) = if is_measured {
        (demo_boot_rom(), demo_table())
    } else {
        (free_boot_rom(), interpolation_table())
    };
    Ok(Some(Scene {
        cartridge,
        more,
        boot,
        table,
        is_measured,
    }))
}

/// Returns the bytes of an interpolation table.
fn table_bytes(alloc: Global, table: &Table) -> Result<Vec<u8>, AllocError> {
    let mut bytes = Vec::new(alloc);
    for i in 0..512 {
        let number = table.at(i);
        bytes.push((number % 256) as u8)?;
        bytes.push((number / 256) as u8)?;
    }
    Ok(bytes)
}

/// Writes a file of a folder.
fn write_file<R: Files + AllocGlobal>(
    rt: &R,
    folder: &str,
    name: &str,
    bytes: &[u8],
) -> Result<()> {
    let path = format!(in rt.alloc(); "{folder}/{name}")?;
    fs::write(rt, path.as_str(), bytes).context(format_args!("cannot write {path}"))
}

/// Writes a boot ROM and an interpolation table into a folder.
fn write_inputs<R: Files + AllocGlobal>(
    rt: &R,
    folder: &str,
    names: (&str, &str),
    boot: &[u8; 64],
    table: &Table,
) -> Result<()> {
    let table = table_bytes(rt.alloc(), table)?;
    write_file(rt, folder, names.0, boot.as_slice())?;
    write_file(rt, folder, names.1, table.as_slice())
}

/// Makes a folder.
fn make_folder<R: Files + AllocGlobal>(rt: &R, folder: &str) -> Result<()> {
    fs::create_dir_all(rt, folder).context(format_args!("cannot write {folder}"))
}

/// Makes a folder, and writes the files into it. The tune is sent to the APU, so it gets a boot ROM that takes uploads.
fn write_all<R: Files + AllocGlobal>(rt: &R, folder: &str, files: &Scene) -> Result<()> {
    make_folder(rt, folder)?;
    write_file(rt, folder, "scene.sfc", files.cartridge.bytes())?;
    for one in &files.more {
        write_file(rt, folder, one.name, one.bytes.as_slice())?;
    }
    write_inputs(
        rt,
        folder,
        ("boot.bin", "table.bin"),
        &files.boot,
        &files.table,
    )?;
    if files.is_measured {
        let names = ("tune_boot.bin", "tune_table.bin");
        write_inputs(rt, folder, names, &free_boot_rom(), &interpolation_table())?;
    }
    write_file(rt, folder, "script.txt", b"")
}

/// Prints the length of a cartridge.
fn print_length<R: Print>(rt: &R, name: &str, bytes: &[u8]) -> Result<()> {
    println!(rt; "{name}: {} bytes", bytes.len()).context("cannot write standard output")
}

/// The words of the command line.
static WORDS: [Word; 3] = words![
    "" Kind::MayBePlaced, "FOLDER" "" "" "where the files go; it is made; without it only the lengths are printed";
    "" Kind::Flag, "measured" "" "" "the files by which speed is measured: the scene without its tune, with the boot ROM and table of snes demo; and sieve.sfc, mode7.sfc, tune.sfc";
    "" Kind::Flag, "idioms" "" "" "the cartridges that show what the two profiles do, with a script for each profile";
];

/// This program, as a companion of `snes`.
#[derive(Drop)]
struct SceneCart;

impl Companion for SceneCart {
    fn program(&self) -> Program {
        Program {
            name: "scene",
            about: "Writes scene.sfc, game.sfc, boot.bin, table.bin and script.txt into a folder: all that snes needs for a first run",
            commands: &[],
            words: &WORDS,
            needs_words: false,
            after: "Statuses: 0 all is written; 2 a file could not be written, or the command line is at fault: standard error says which.",
        }
    }

    fn obey<R: Files + Print + Eprint + AllocGlobal>(
        &self,
        rt: &R,
        _command: &str,
        words: &ArgMatches<'_>,
    ) -> Result<u8> {
        if words.get_flag("idioms") {
            if let Some(folder) = words.get_str("FOLDER") {
                make_folder(rt, folder)?;
                write_idioms(rt, folder)?;
            }
            print_idioms(rt)?;
            return Ok(DONE);
        }
        let Some(files) = files(rt.alloc(), words.get_flag("measured"))? else {
            bail!("the program doesn't fit into the cartridge");
        };
        if let Some(folder) = words.get_str("FOLDER") {
            write_all(rt, folder, &files)?;
        }
        print_length(rt, "scene.sfc", files.cartridge.bytes())?;
        for one in &files.more {
            print_length(rt, one.name, one.bytes.as_slice())?;
        }
        Ok(DONE)
    }
}

fn main(rt: HostRuntime) -> ExitCode {
    run(&rt, &SceneCart)
}
