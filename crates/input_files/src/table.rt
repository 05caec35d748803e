ghost use Rattle.std.specs.Prelude.{◌≡◌, ◌+◌, ◌*◌, ◌<◌, IfOk, IfErr, length, slice_index};
ghost use Rattle.input_files.specs.Table.{entry_of, IsTableFile, IsRefusedAt};

use byteorder::{ByteOrder, LittleEndian};
use snes_defs::Table;

/// How many entries a table has, and the greatest of them.
const ENTRIES: usize = 512;

const GREATEST: u16 = 2047;

/// Reads the interpolation table of the S-DSP: 512 numbers of 16 bits, low byte first, each at most 2047. A file of
/// another length is refused at 512, any other at its first entry above 2047.
pub fn read_table(file: &[u8]) -> Result<Table, u16>
    ensures table { IfOk result (λ table. IsTableFile file.now table) }
    ensures refused { IfErr result (λ place. IsRefusedAt file.now place) }
{
    if file.len() != 2 * ENTRIES {
        return Err(512);
    }
    let mut numbers = [0u16; ENTRIES];
    for i in 0..ENTRIES {
        let number = entry(file, i);
        if number > GREATEST {
            return Err(i as u16);
        }
        numbers[i] = number;
    }
    Ok(Table::of(numbers))
}

/// An entry of a table's file.
fn entry(file: &[u8], i: usize) -> u16
    requires { 2 * i + 1 < length file.now }
    ensures { result ≡ entry_of file.now i }
{
    LittleEndian::read_u16(&file[2 * i..])
}
