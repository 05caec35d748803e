//! The name of a file as a relative reference of a URI.

use percent_encoding::{AsciiSet, NON_ALPHANUMERIC, ascii_set, utf8_percent_encode};
use std::alloc::{AllocError, Global};

/// The characters that are escaped: all but letters, digits, and these.
const ESCAPED: AsciiSet = ascii_set!(
    NON_ALPHANUMERIC
        .remove(b'/')
        .remove(b'-')
        .remove(b'.')
        .remove(b'_')
        .remove(b'~')
);

/// Returns a name with escapes for what a URI takes otherwise.
pub(crate) fn uri_of(alloc: Global, name: &str) -> Result<String, AllocError> {
    let mut uri = String::new(alloc);
    utf8_percent_encode(name, ESCAPED).append_to(&mut uri)?;
    Ok(uri)
}
