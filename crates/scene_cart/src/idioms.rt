//! Writes the cartridges that show the rules of the two profiles, and what a run of them needs.

use crate::{print_length, write_file, write_inputs};
use anyhow::Result;
use free_files::{free_boot_rom, interpolation_table};
use idiom_carts::{IDIOMS, Idiom, cartridge, first_script, name, second_script};
use std::rt::Files;

/// Writes a cartridge into a folder, with a script for each profile.
fn write_idiom<R: Files + AllocGlobal>(rt: &R, folder: &str, idiom: Idiom) -> Result<()> {
    let stem = name(idiom);
    let image = cartridge(rt.alloc(), idiom)?;
    let file = format!(in rt.alloc(); "{stem}.sfc")?;
    write_file(rt, folder, file.as_str(), image.as_slice())?;
    let first = format!(in rt.alloc(); "{stem}.first.txt")?;
    write_file(rt, folder, first.as_str(), first_script(idiom).as_bytes())?;
    let second = format!(in rt.alloc(); "{stem}.second.txt")?;
    write_file(rt, folder, second.as_str(), second_script(idiom).as_bytes())
}

/// Writes all cartridges into a folder, which is there, with the free boot ROM and the interpolation table.
pub fn write_idioms<R: Files + AllocGlobal>(rt: &R, folder: &str) -> Result<()> {
    for idiom in &IDIOMS {
        write_idiom(rt, folder, *idiom)?;
    }
    let names = ("boot.bin", "table.bin");
    write_inputs(rt, folder, names, &free_boot_rom(), &interpolation_table())
}

/// Prints the length of each cartridge.
pub fn print_idioms<R: Print + AllocGlobal>(rt: &R) -> Result<()> {
    for idiom in &IDIOMS {
        let image = cartridge(rt.alloc(), *idiom)?;
        let file = format!(in rt.alloc(); "{}.sfc", name(*idiom))?;
        print_length(rt, file.as_str(), image.as_slice())?;
    }
    Ok(())
}
