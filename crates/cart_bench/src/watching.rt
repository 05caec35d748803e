//! What the watch of `lint`'s rules needs besides a job: what may be broken, and what places are called.

use crate::inputs::Reader;
use crate::labels::SYMBOLS;
use anyhow::Result;
use bench_checks::{Case, NoWarnings};
use lint_watch::{Allowed, Sources};
use std::rt::Files;

/// The most bytes of a file of allowed places.
const ALLOWED: usize = 1_048_576;

/// What the watch of a run needs.
#[derive(Drop)]
pub struct Watching {
    /// How many bytes the cartridge's file has.
    pub size: usize,
    /// What may be broken.
    pub allowed: Allowed,
    /// The labels and the lines of source.
    pub sources: Sources,
}

/// Adds what a file of allowed places names.
fn allow_file<R: Files + Print>(
    reader: &mut Reader<'_, R>,
    name: &str,
    allowed: &mut Allowed,
) -> Result<()> {
    let file = reader.load(name, ALLOWED)?;
    allowed.allow_file(reader.alloc, file.path.as_str(), file.text()?)?;
    Ok(())
}

/// Adds what may be broken in the run of a case.
fn allow_expected<R: Files + Print>(
    reader: &mut Reader<'_, R>,
    expected: &NoWarnings,
    allowed: &mut Allowed,
) -> Result<()> {
    for rule in expected.allow.as_slice() {
        allowed.allow_rules(rule.name())?;
    }
    match &expected.allowed {
        Some(name) => allow_file(reader, name.as_str(), allowed),
        None => Ok(()),
    }
}

/// Reads the labels and the lines of source of a case, if it names a symbol file.
fn sources_of<R: Files + Print>(reader: &mut Reader<'_, R>, case: &Case) -> Result<Sources> {
    let Some(name) = &case.symbols else {
        return Ok(Sources::none());
    };
    let file = reader.load(name.as_str(), SYMBOLS)?;
    Sources::read(reader.alloc, file.path.as_str(), file.text()?)
}

/// Reads what the watch of a run needs, if the case expects no warnings. `size` is that of the cartridge's file.
pub fn watching_of<R: Files + Print>(
    reader: &mut Reader<'_, R>,
    case: &Case,
    size: usize,
) -> Result<Option<Watching>> {
    let Some(expected) = &case.no_warnings else {
        return Ok(None);
    };
    let mut allowed = Allowed::nothing(reader.alloc);
    allow_expected(reader, expected, &mut allowed)?;
    let sources = sources_of(reader, case)?;
    Ok(Some(Watching {
        size,
        allowed,
        sources,
    }))
}
