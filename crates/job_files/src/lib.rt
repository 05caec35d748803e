//! Reads the files of a job, as `snes` takes them, for companions that run one. Each message names the file that was
//! refused, and says why.
#![tactic(auto)]

ghost use Rattle.std.specs.Prelude.{◌≡◌, []};

use anyhow::{Result, anyhow, bail};
use cart_map::{CartEnd, CartRefused, accept};
use file_shelf::FileShelf;
use free_files::{free_boot_rom, interpolation_table};
use input_files::{ScriptEnd, read_boot, read_script, read_table};
use shelf::{LoadEnd, Shelf};
use snes_defs::{Cart, Job, MOST_FRAMES, Spans, Table};
use std::alloc::Global;
use std::rt::Files;

/// The most bytes of a cartridge's file (4 MiB and a header of 512 bytes), of a boot ROM, of a table and of a script.
const CART: usize = 4_194_816;

const BOOT: usize = 64;

const TABLE: usize = 1024;

const SCRIPT: usize = 1_048_576;

/// The names of the files of a job. All but the cartridge may be left out: then they are the free boot ROM, the free
/// table and an empty script.
#[derive(Clone, Copy)]
pub struct Names<'a> {
    /// The cartridge.
    pub cart: &'a str,
    /// The boot ROM of the SPC700.
    pub boot: Option<&'a str>,
    /// The interpolation table of the S-DSP.
    pub table: Option<&'a str>,
    /// The controller script.
    pub script: Option<&'a str>,
}

/// Reads a whole file of at most `most` bytes into `bytes`.
fn load_into<R: Files + Print>(
    rt: &R,
    name: &str,
    most: usize,
    bytes: &mut Vec<u8>,
) -> std::result::Result<(), LoadEnd>
    requires { bytes.old.items ≡ [] }
{
    let mut shelf = FileShelf::new(rt);
    shelf.load(name, most, bytes)
}

/// Reads a whole file of at most `most` bytes.
fn load<R: Files + Print>(rt: &R, alloc: Global, name: &str, most: usize) -> Result<Vec<u8>> {
    let mut bytes = Vec::new(alloc);
    match load_into(rt, name, most, &mut bytes) {
        Ok(()) => Ok(bytes),
        Err(LoadEnd::Failed) => Err(anyhow!("cannot read {name}")),
        Err(LoadEnd::TooLong) => Err(anyhow!("{name} refused: more than {most} bytes")),
        Err(LoadEnd::NoMemory) => Err(anyhow!("no memory")),
    }
}

/// Takes the cartridge of a file of this name. None if the file has no header.
pub fn cart_of(name: &str, bytes: Vec<u8>) -> Result<Option<Cart>> {
    match accept(bytes) {
        Ok(cart) => Ok(Some(cart)),
        Err(CartEnd::NoMemory) => bail!("no memory"),
        Err(CartEnd::Refused(cause)) => match cause {
            CartRefused::TooShort => bail!("{name} refused: too short for a cartridge"),
            CartRefused::TooLong => bail!("{name} refused: too long for a cartridge"),
            CartRefused::NoHeader => Ok(None),
            CartRefused::Coprocessor(chip) => bail!("{name} refused: coprocessor {chip:02X}"),
            CartRefused::RamSize(size) => bail!("{name} refused: RAM size {size}"),
        },
    }
}

/// Reads the boot ROM of a file.
fn boot_of<R: Files + Print>(rt: &R, alloc: Global, name: Option<&str>) -> Result<[u8; 64]> {
    let Some(name) = name else {
        return Ok(free_boot_rom());
    };
    match read_boot(load(rt, alloc, name, BOOT)?.as_slice()) {
        Some(boot) => Ok(boot),
        None => Err(anyhow!("{name} refused: a boot ROM has 64 bytes")),
    }
}

/// Reads the table of a file.
fn table_of<R: Files + Print>(rt: &R, alloc: Global, name: Option<&str>) -> Result<Table> {
    let Some(name) = name else {
        return Ok(interpolation_table());
    };
    match read_table(load(rt, alloc, name, TABLE)?.as_slice()) {
        Ok(table) => Ok(table),
        Err(entry) => Err(anyhow!("{name} refused: no table, at entry {entry}")),
    }
}

/// Reads the script of a file.
fn script_of<R: Files + Print>(rt: &R, alloc: Global, name: Option<&str>) -> Result<Spans> {
    let (name, bytes) = match name {
        Some(name) => (name, load(rt, alloc, name, SCRIPT)?),
        None => ("", Vec::new(alloc)),
    };
    match read_script(alloc, bytes.as_slice()) {
        Ok(script) => Ok(script),
        Err(ScriptEnd::Line(line)) => Err(anyhow!("{name} refused: no script, at line {line}")),
        Err(ScriptEnd::NoMemory) => Err(anyhow!("no memory")),
    }
}

/// Reads the bytes of a cartridge's file.
pub fn cart_bytes<R: Files + Print>(rt: &R, alloc: Global, name: &str) -> Result<Vec<u8>> {
    load(rt, alloc, name, CART)
}

/// Reads the other files of these names, and returns the job of a cartridge with them. It has as many frames as a job
/// can have.
pub fn job_with<R: Files + Print>(
    rt: &R,
    alloc: Global,
    names: Names<'_>,
    cart: Cart,
) -> Result<Job> {
    let boot = boot_of(rt, alloc, names.boot)?;
    let table = table_of(rt, alloc, names.table)?;
    let script = script_of(rt, alloc, names.script)?;
    let region = script.region();
    Ok(Job {
        cart,
        boot,
        table,
        script,
        frames: MOST_FRAMES,
        region,
    })
}

/// Reads the job of the files of these names. A cartridge without a header is refused.
pub fn job_of<R: Files + Print>(rt: &R, alloc: Global, names: Names<'_>) -> Result<Job> {
    let bytes = cart_bytes(rt, alloc, names.cart)?;
    match cart_of(names.cart, bytes)? {
        Some(cart) => job_with(rt, alloc, names, cart),
        None => bail!("{} refused: no header of a cartridge", names.cart),
    }
}
