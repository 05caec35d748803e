//! A frame as PNG, for `look png`.

use crate::films;
use anyhow::Result;
use clap::ArgMatches;
use film_formats::frame_png;
use std::rt::Files;

/// Obeys `look png VIDEO FRAME OUT`.
pub fn write_png<R: Files + Print + AllocGlobal>(rt: &R, words: &ArgMatches<'_>) -> Result<()> {
    let name = films::name_in(words, "VIDEO");
    let wanted = words.get_one::<u64>("FRAME").unwrap_or(0);
    let out = films::name_in(words, "OUT");
    let times = if words.get_flag("raw") { 1 } else { 2 };
    let frames = films::open_at(rt, name, wanted)?;
    let file = frame_png(rt.alloc(), frames.frame(), times)?;
    films::write(rt, out, &[name], file.as_slice())
}
