//! Opens a cartridge's file to be linted, and reads the job of it.

use anyhow::Result;
use job_files::{Names, cart_bytes, cart_of, job_with};
use lint_watch::other_map_byte;
use snes_defs::Job;
use std::alloc::Global;
use std::rt::Files;

/// A cartridge's file that was opened.
#[derive(Drop)]
pub struct Opened {
    /// The bytes of the file.
    pub size: usize,
    /// The place of a map byte that is that of another place, if there is one.
    pub map_byte: Option<u32>,
    /// The job, with as many frames as a job can have; none if the file has no header.
    pub job: Option<Job>,
}

/// Reads the job of the files of these names.
pub fn open_job<R: Files + Print>(rt: &R, alloc: Global, names: Names<'_>) -> Result<Opened> {
    let bytes = cart_bytes(rt, alloc, names.cart)?;
    let size = bytes.len();
    let map_byte = other_map_byte(bytes.as_slice());
    let job = match cart_of(names.cart, bytes)? {
        Some(cart) => Some(job_with(rt, alloc, names, cart)?),
        None => None,
    };
    Ok(Opened {
        size,
        map_byte,
        job,
    })
}
