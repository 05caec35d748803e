//! SHA-256 sums as a bench file and a report have them, and the file of a run's golden sums.

ghost use Rattle.std.specs.Prelude.{◌≡◌, Ok, IfOk};
ghost use Rattle.sha2.specs.Sha256.{sha256};
ghost use Rattle.frame_sums.specs.SumsFile.{sums_of_file};

use anyhow::{Result, bail};
use frame_sums::{SumsEnd, SumsFile, read_sums};
use sha2::{Digest, Sha256};
use std::alloc::Global;
use std::fmt;

/// A sum.
#[derive(Clone, Copy)]
pub struct Sum {
    /// Its bytes.
    pub bytes: [u8; 32],
}

impl fmt::Display for Sum {
    fn fmt<W: fmt::Write>(&self, f: &mut fmt::Formatter<W>) -> fmt::Result {
        for byte in self.bytes {
            write!(f, "{byte:02x}")?;
        }
        Ok(())
    }
}

impl Sum {
    /// Returns the sum of these bytes.
    pub fn of(bytes: &[u8]) -> Sum
        ensures { result.bytes ≡ sha256 bytes.now }
    {
        Sum {
            bytes: Sha256::digest(bytes),
        }
    }

    /// Reads 64 hexadecimal digits.
    pub fn read(text: &str) -> Option<Sum> {
        let mut bytes = [0u8; 32];
        match hex::decode_to_slice(text, &mut bytes) {
            Ok(()) => Some(Sum { bytes }),
            Err(_) => None,
        }
    }
}

/// Reads a file of golden sums, of the form that `snes sums` writes. `name` is what messages call it.
pub fn read_golden(alloc: Global, name: &str, text: &[u8]) -> Result<SumsFile>
    ensures { IfOk result (λ sums. sums_of_file text.now ≡ Ok sums) }
{
    match read_sums(alloc, text) {
        Ok(sums) => Ok(sums),
        Err(SumsEnd::Line(line)) => bail!("{name} refused: no file of sums, at line {line}"),
        Err(SumsEnd::NoMemory) => bail!("no memory"),
    }
}
