//! What `lint` prints of its findings: a text for people, JSON, SARIF 2.1.0, or TAP.
//!
//! Nothing here opens a file or runs a console. JSON and SARIF are written by `serde_json`, whose clauses say that what it
//! writes reads back as the value that it was given.
#![tactic(auto)]

mod json;
mod members;
mod people;
mod sarif;
mod tap;
mod told;
mod uri;

use std::alloc::{AllocError, Global};
pub use told::{Format, Report, Told};

/// Returns the text of a report in a format.
pub fn text_of(alloc: Global, format: Format, report: &Report<'_>) -> Result<Vec<u8>, AllocError> {
    match format {
        Format::People => people::text_of(alloc, report),
        Format::Json => json::text_of(alloc, report),
        Format::Sarif => sarif::text_of(alloc, report),
        Format::Tap => tap::text_of(alloc, report),
    }
}
