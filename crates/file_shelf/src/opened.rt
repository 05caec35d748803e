use crate::cause::Cause;
use crate::known::{Identity, KnownFiles};
use shelf::Out;
use std::fs::{self, Metadata, OpenFile, OpenOptions};
use std::os::unix::fs::MetadataExt;
use std::rt::Files;

/// The regular file that this metadata is of. A terminal, a pipe or a device is not one, nor is a file of a runtime
/// that gives no number.
fn identity_of(file: &Metadata) -> Option<Identity> {
    if !file.is_file() || file.ino() == 0 {
        return None;
    }
    Some(Identity {
        device: file.dev(),
        node: file.ino(),
    })
}

/// The regular file that a name leads to, if it leads to one.
pub(crate) fn identity_at<R: Files>(rt: &R, name: &str) -> Option<Identity> {
    match fs::metadata(rt, name) {
        Ok(file) => identity_of(&file),
        Err(_) => None,
    }
}

/// Opens a file to be read, and returns which regular file it is.
pub(crate) fn open_known<R: Files>(
    rt: &R,
    name: &str,
) -> Result<(R::File, Option<Identity>), Cause> {
    let file = fs::open(rt, name)?;
    let identity = identity_of(&file.metadata()?);
    Ok((file, identity))
}

/// Opens a file to be written, and empties it. A file that the shelf already uses is left as it is. A pipe or a
/// device is not emptied: it has no length.
pub(crate) fn create_apart<R: Files>(
    rt: &R,
    known: &KnownFiles,
    out: Out,
    name: &str,
) -> Result<(R::File, Option<Identity>), Cause> {
    let file = OpenOptions::new().write(true).create(true).open(rt, name)?;
    let metadata = file.metadata()?;
    let identity = identity_of(&metadata);
    if let Some(clash) = identity.and_then(|identity| known.clash(out, identity)) {
        return Err(Cause::Same(clash));
    }
    if metadata.is_file() {
        file.set_len(0)?;
    }
    Ok((file, identity))
}
