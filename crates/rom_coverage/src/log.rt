//! The log of code and data (CDL), as the debugger of Mesen keeps it.

ghost use Rattle.std.specs.Prelude.{◌≡◌};
ghost use Rattle.rom_coverage.specs.Marks.{log_of};

use crate::marks::Coverage;
use film_formats::{crc_of_chunk, push_little4};
use std::alloc::{AllocError, Global};

/// Returns the byte of the log for a byte of ROM with these marks. Data is what the processor or DMA read.
pub fn log_byte(marks: u8) -> u8
    ensures { result ≡ log_of marks }
{
    let code = if marks % 4 == 0 { 0 } else { 1 };
    let data = if marks / 4 % 4 == 0 { 0 } else { 2 };
    let jump = marks / 16 % 2;
    let entry = marks / 32 % 2;
    let index = marks / 64 % 2;
    let memory = marks / 128 % 2;
    code + data + 4 * jump + 8 * entry + 16 * index + 32 * memory
}

/// Returns the log of a ROM: `CDLv2`, the CRC-32 of the ROM with its low byte first, and a byte for each byte of ROM.
pub fn log_file(alloc: Global, coverage: &Coverage, rom: &[u8]) -> Result<Vec<u8>, AllocError> {
    let mut out = Vec::new(alloc);
    out.extend_from_slice(b"CDLv2")?;
    push_little4(&mut out, crc_of_chunk(b"", rom))?;
    for marks in coverage.marks() {
        out.push(log_byte(*marks))?;
    }
    Ok(out)
}
