//! The addresses of labels, by the symbol file of a case.

use crate::inputs::Reader;
use anyhow::{Result, anyhow};
use bench_checks::{Address, Case};
use std::rt::Files;
use symbol_files::Symbols;

/// The most bytes of a symbol file.
pub const SYMBOLS: usize = 67_108_864;

/// Reads the symbol file of a case, if it names one.
pub fn symbols_of<R: Files + Print>(
    reader: &mut Reader<'_, R>,
    case: &Case,
) -> Result<Option<Symbols>> {
    let Some(name) = &case.symbols else {
        return Ok(None);
    };
    let file = reader.load(name.as_str(), SYMBOLS)?;
    match Symbols::read(reader.alloc, file.text()?) {
        Ok(symbols) => Ok(Some(symbols)),
        Err(error) => Err(anyhow!("{} refused: {error}", file.path.as_str())),
    }
}

/// Returns the number that an address stands for.
pub fn number_of(symbols: Option<&Symbols>, address: &Address) -> Result<u32> {
    match address {
        Address::At(number) => Ok(*number),
        Address::Label(label, offset) => match symbols {
            Some(symbols) => match symbols.address_of(label.as_str()) {
                Some(number) => Ok(number.saturating_add(*offset)),
                None => Err(anyhow!("the symbol file has no label {label}, or several")),
            },
            None => Err(anyhow!("the label {label} needs a symbol file: symbols = .. of the case")),
        },
    }
}
