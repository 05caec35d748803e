//! Reads the files of a case, as `snes` takes them.

use anyhow::{Error, Result, anyhow, bail};
use bench_checks::Case;
use cart_map::{CartEnd, CartRefused, accept};
use file_shelf::FileShelf;
use free_files::{free_boot_rom, interpolation_table};
use input_files::{ScriptEnd, read_boot, read_script, read_table};
use shelf::{LoadEnd, Shelf};
use snes_defs::{Cart, Job, Profile, Region, Spans, Table};
use std::alloc::{AllocError, Global};
use std::rt::Files;
use std::str;

/// The most bytes of a cartridge's file (4 MiB and a header of 512 bytes), of a boot ROM, of a table and of a script.
const CART: usize = 4_194_816;

const BOOT: usize = 64;

const TABLE: usize = 1024;

const SCRIPT: usize = 1_048_576;

/// The cartridge of a case as the console takes it: the job of its run, or why it is refused.
#[derive(Drop)]
pub enum Input {
    /// The job of its run, and how many bytes the cartridge's file has.
    Runs(Job, usize),
    /// The words of the refusal.
    Refused(String),
}

/// Reads the files of cases, and writes their golden sums.
#[derive(Drop)]
pub struct Reader<'a, R: Files + Print> {
    /// The runtime that has the files.
    pub rt: &'a R,
    /// What the files are read into.
    pub alloc: Global,
    /// The folder of the bench file: empty, or with a slash at its end.
    folder: &'a str,
    /// The files that are read and written whole.
    pub shelf: FileShelf<'a, R>,
}

/// A file of a case.
#[derive(Drop)]
pub struct Loaded {
    /// Its path, as the system takes it and as messages call it.
    pub path: String,
    /// What it has, once it has been read.
    pub bytes: Vec<u8>,
}

impl<'a, R: Files + Print> Reader<'a, R> {
    /// Returns the reader of the files of a bench file's folder.
    pub fn new(rt: &'a R, alloc: Global, folder: &'a str) -> Reader<'a, R> {
        Reader {
            rt,
            alloc,
            folder,
            shelf: FileShelf::new(rt),
        }
    }

    /// The path of a file of the folder, as the system takes it.
    pub fn path_of(&self, name: &str) -> Result<String, AllocError> {
        let folder = self.folder;
        if folder.is_empty() || name.starts_with("/") {
            return String::from_str(self.alloc, name);
        }
        format!(in self.alloc; "{folder}{name}")
    }

    /// What is said if a file can't be read or written, and why.
    pub fn fault_of(&self, what: &str, path: &str) -> Error {
        match self.shelf.first_fault() {
            Some(cause) => anyhow!("cannot {what} {path}: {cause}"),
            None => anyhow!("cannot {what} {path}"),
        }
    }

    /// A file of the folder, of which nothing has been read yet.
    pub fn named(&self, name: &str) -> Result<Loaded, AllocError> {
        Ok(Loaded {
            path: self.path_of(name)?,
            bytes: Vec::new(self.alloc),
        })
    }

    /// Reads the whole of a named file, of at most `most` bytes.
    pub fn read_into(&mut self, file: &mut Loaded, most: usize) -> Result<()> {
        file.bytes.clear();
        let path = file.path.as_str();
        match self.shelf.load(path, most, &mut file.bytes) {
            Ok(()) => Ok(()),
            Err(LoadEnd::Failed) => Err(self.fault_of("read", path)),
            Err(LoadEnd::TooLong) => Err(anyhow!("{path} refused: more than {most} bytes")),
            Err(LoadEnd::NoMemory) => Err(anyhow!("no memory")),
        }
    }

    /// Reads a whole file of the folder, of at most `most` bytes.
    pub fn load(&mut self, name: &str, most: usize) -> Result<Loaded> {
        let mut file = self.named(name)?;
        self.read_into(&mut file, most)?;
        Ok(file)
    }
}

impl Loaded {
    /// Returns the text of the file.
    pub fn text(&self) -> Result<&str> {
        match str::from_utf8(self.bytes.as_slice()) {
            Ok(text) => Ok(text),
            Err(_) => Err(anyhow!("{} refused: it is no text", self.path.as_str())),
        }
    }
}

/// Why a cartridge is refused, in words.
fn words_of(alloc: Global, cause: CartRefused) -> Result<String, AllocError> {
    match cause {
        CartRefused::TooShort => String::from_str(alloc, "too short"),
        CartRefused::TooLong => String::from_str(alloc, "too long"),
        CartRefused::NoHeader => String::from_str(alloc, "no header"),
        CartRefused::Coprocessor(chip) => format!(in alloc; "coprocessor {chip:02X}"),
        CartRefused::RamSize(size) => format!(in alloc; "RAM size {size}"),
    }
}

/// Reads the boot ROM of a case.
fn boot_of<R: Files + Print>(reader: &mut Reader<'_, R>, case: &Case) -> Result<[u8; 64]> {
    let Some(name) = &case.boot else {
        return Ok(free_boot_rom());
    };
    let file = reader.load(name.as_str(), BOOT)?;
    match read_boot(file.bytes.as_slice()) {
        Some(boot) => Ok(boot),
        None => Err(anyhow!("{} refused: a boot ROM has 64 bytes", file.path.as_str())),
    }
}

/// Reads the table of a case.
fn table_of<R: Files + Print>(reader: &mut Reader<'_, R>, case: &Case) -> Result<Table> {
    let Some(name) = &case.table else {
        return Ok(interpolation_table());
    };
    let file = reader.load(name.as_str(), TABLE)?;
    match read_table(file.bytes.as_slice()) {
        Ok(table) => Ok(table),
        Err(entry) => Err(anyhow!("{} refused: no table, at entry {entry}", file.path.as_str())),
    }
}

/// The script of a case without one: it presses nothing.
fn empty_script(alloc: Global, case: &Case) -> Spans {
    let region = case.region.unwrap_or(Region::Ntsc);
    let profile = case.profile.unwrap_or(Profile::First);
    Spans::versioned(Vec::new(alloc), region, profile, Vec::new(alloc))
}

/// What of a script is other than the case says, if something is.
fn other_than_named(case: &Case, script: &Spans) -> Option<&'static str> {
    if case.region.is_some_and(|region| region != script.region()) {
        return Some("region");
    }
    if case
        .profile
        .is_some_and(|profile| profile != script.profile())
    {
        return Some("profile");
    }
    None
}

/// The script of a file. Its region and its profile are the case's, if the case names them.
fn script_in(alloc: Global, case: &Case, path: &str, bytes: &[u8]) -> Result<Spans> {
    let script = match read_script(alloc, bytes) {
        Ok(script) => script,
        Err(ScriptEnd::Line(line)) => bail!("{path} refused: no script, at line {line}"),
        Err(ScriptEnd::NoMemory) => bail!("no memory"),
    };
    match other_than_named(case, &script) {
        Some(what) => bail!("{path} is a script of the other {what}: its first line says which"),
        None => Ok(script),
    }
}

/// Reads the script of a case.
fn script_of<R: Files + Print>(reader: &mut Reader<'_, R>, case: &Case) -> Result<Spans> {
    let Some(name) = &case.script else {
        return Ok(empty_script(reader.alloc, case));
    };
    let file = reader.load(name.as_str(), SCRIPT)?;
    script_in(
        reader.alloc,
        case,
        file.path.as_str(),
        file.bytes.as_slice(),
    )
}

/// What a job has beside its cartridge.
#[derive(Drop)]
struct Inputs {
    boot: [u8; 64],
    table: Table,
    script: Spans,
}

/// Reads what a job has beside its cartridge.
fn inputs_of<R: Files + Print>(reader: &mut Reader<'_, R>, case: &Case) -> Result<Inputs> {
    let boot = boot_of(reader, case)?;
    let table = table_of(reader, case)?;
    let script = script_of(reader, case)?;
    Ok(Inputs {
        boot,
        table,
        script,
    })
}

/// The job of a cartridge.
fn job_of<R: Files + Print>(reader: &mut Reader<'_, R>, case: &Case, cart: Cart) -> Result<Job> {
    let Inputs {
        boot,
        table,
        script,
    } = inputs_of(reader, case)?;
    let region = script.region();
    Ok(Job {
        cart,
        boot,
        table,
        script,
        frames: case.frames,
        region,
    })
}

/// Reads the file of a case's cartridge.
fn cart_bytes<R: Files + Print>(reader: &mut Reader<'_, R>, case: &Case) -> Result<Vec<u8>> {
    Ok(reader.load(case.cart.as_str(), CART)?.bytes)
}

/// Reads what a case runs.
pub fn input_of<R: Files + Print>(reader: &mut Reader<'_, R>, case: &Case) -> Result<Input> {
    let bytes = cart_bytes(reader, case)?;
    let size = bytes.len();
    match accept(bytes) {
        Ok(cart) => Ok(Input::Runs(job_of(reader, case, cart)?, size)),
        Err(CartEnd::NoMemory) => bail!("no memory"),
        Err(CartEnd::Refused(cause)) => Ok(Input::Refused(words_of(reader.alloc, cause)?)),
    }
}
