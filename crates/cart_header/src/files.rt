//! The file that is read, and the file that is written.

use anyhow::{Context, Result, bail, ensure};
use file_shelf::FileShelf;
use shelf::{LoadEnd, Shelf};
use std::alloc::Global;
use std::fs::{self, Metadata, OpenFile, OpenOptions};
use std::io::Write;
use std::os::unix::fs::MetadataExt;
use std::rt::Files;

/// The most bytes of a cartridge's file: 4 MiB, and 512 in front of them.
const MOST: usize = 4_194_816;

/// Reads a whole file; none if it is too long for a cartridge.
pub fn read<R: Files + Print>(rt: &R, alloc: Global, name: &str) -> Result<Option<Vec<u8>>> {
    let mut shelf = FileShelf::new(rt);
    let mut bytes = Vec::new(alloc);
    match shelf.load(name, MOST, &mut bytes) {
        Ok(()) => Ok(Some(bytes)),
        Err(LoadEnd::TooLong) => Ok(None),
        Err(LoadEnd::Failed) => bail!("cannot read {name}"),
        Err(LoadEnd::NoMemory) => bail!("no memory"),
    }
}

/// Whether a name that was read leads to this regular file, by its device and its number there.
fn is_same<R: Files>(rt: &R, input: &str, file: &Metadata) -> bool {
    match fs::metadata(rt, input) {
        Ok(about) => about.is_file()
            && file.is_file()
            && about.ino() != 0
            && about.ino() == file.ino()
            && about.dev() == file.dev(),
        Err(_) => false,
    }
}

/// Writes a whole file of a name. If it is the input, by whatever name, it is refused and stays as it is.
pub fn write<R: Files>(rt: &R, name: &str, input: &str, bytes: &[u8]) -> Result<()> {
    let mut file = OpenOptions::new()
        .write(true)
        .create(true)
        .open(rt, name)
        .context(format_args!("cannot write {name}"))?;
    let about = file
        .metadata()
        .context(format_args!("cannot write {name}"))?;
    ensure!(
        !is_same(rt, input, &about),
        "{name} is the file that is read as {input}: nothing is written"
    );
    if about.is_file() {
        file.set_len(0)
            .context(format_args!("cannot write {name}"))?;
    }
    file.write_all(bytes)
        .context(format_args!("cannot write {name}"))
}
