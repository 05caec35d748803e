ghost use Rattle.std.specs.Prelude.{◌≡◌, ◌+◌, ◌<◌, ◌≤◌, ◌^◌};

use crate::blocks::{
    main_bytes, picture_bytes, picture_format_bytes, push_chunk, push_chunk_entry, push_head,
    push_old_entry, push_part_entry, sound_bytes, sound_format_bytes,
};
use crate::layout::{Layout, chunk_bytes, samples_upto};
use film_formats::{push_little2, push_little4, push_little8};
use std::alloc::{AllocError, Global};

/// The bytes of a picture's chunk.
pub const PICTURE_BYTES: u64 = 489_472;

/// The bytes of the list `hdrl`, with its head: the same number in each file.
const HEADERS: u64 = 1658;

/// The entries of a stream's index of parts, of which a file uses the first.
const ENTRIES: u32 = 32;

/// The names of the chunks: those of the picture and those of the sound.
static CHUNKS: [&[u8; 4]; 2] = [b"00db", b"01wb"];

impl Layout {
    /// The bytes of a part's `RIFF`, after its length.
    fn riff_bytes(&self, part: u32) -> u64
        requires { part < 32 }
        ensures { result < 2 ^ 38 }
    {
        let frames = (self.upto(part).saturating_sub(self.from(part))) as u64;
        if part == 0 {
            4 + HEADERS + 8 + self.movi_bytes(part) + 8 + 32 * frames
        } else {
            4 + 8 + self.movi_bytes(part)
        }
    }

    /// The place in the file at which a part begins.
    pub fn start(&self, part: u32) -> u64
        requires { part < 32 }
    {
        let mut at = 0u64;
        for earlier in 0..part {
            at = at
                .saturating_add(8)
                .saturating_add(self.riff_bytes(earlier));
        }
        at
    }

    /// The place in the file of a part's name `movi`.
    fn movi_at(&self, part: u32) -> u64
        requires { part < 32 }
    {
        let ahead = if part == 0 { 12 + HEADERS + 8 } else { 20 };
        self.start(part).saturating_add(ahead)
    }

    /// The place in the file of a part's first index, after its chunks.
    fn indexes_at(&self, part: u32) -> u64
        requires { part < 32 }
    {
        let chunks = chunk_bytes(self.region, self.from(part), self.upto(part));
        self.movi_at(part).saturating_add(4).saturating_add(chunks)
    }
}

/// Adds the bytes of a stream's index of parts: stream 0 is the picture, 1 the sound.
fn push_part_index(index: &mut Vec<u8>, layout: Layout, stream: usize) -> Result<(), AllocError>
    requires { stream < 2 }
{
    let parts = layout.parts();
    push_little2(index, 4)?;
    push_little2(index, 0)?;
    push_little4(index, parts)?;
    index.extend_from_slice(CHUNKS[stream])?;
    push_little4(index, 0)?;
    push_little4(index, 0)?;
    push_little4(index, 0)?;
    for part in 0..ENTRIES {
        if part >= parts {
            push_part_entry(index, 0, 0, 0)?;
            continue;
        }
        let (from, upto) = (layout.from(part), layout.upto(part));
        let size = 32 + 8 * upto.saturating_sub(from) as u64;
        let at = layout.indexes_at(part);
        if stream == 0 {
            push_part_entry(index, at, size, upto.saturating_sub(from) as u64)?;
        } else {
            let samples = samples_upto(layout.region, upto).saturating_sub(samples_upto(
                layout.region,
                from,
            ));
            push_part_entry(index, at.saturating_add(size), size, samples)?;
        }
    }
    Ok(())
}

/// Adds the bytes of the picture's list `strl`.
fn push_picture(alloc: Global, list: &mut Vec<u8>, layout: Layout) -> Result<(), AllocError> {
    let frames = layout.frames as u64;
    list.extend_from_slice(b"strl")?;
    push_chunk(
        list,
        b"strh",
        picture_bytes(alloc, layout.region, frames)?.as_slice(),
    )?;
    push_chunk(list, b"strf", picture_format_bytes(alloc)?.as_slice())?;
    let mut index = Vec::new(alloc);
    push_part_index(&mut index, layout, 0)?;
    push_chunk(list, b"indx", index.as_slice())
}

/// Adds the bytes of the sound's list `strl`.
fn push_sound(alloc: Global, list: &mut Vec<u8>, layout: Layout) -> Result<(), AllocError> {
    let samples = samples_upto(layout.region, layout.frames);
    list.extend_from_slice(b"strl")?;
    push_chunk(list, b"strh", sound_bytes(alloc, samples)?.as_slice())?;
    push_chunk(list, b"strf", sound_format_bytes(alloc)?.as_slice())?;
    let mut index = Vec::new(alloc);
    push_part_index(&mut index, layout, 1)?;
    push_chunk(list, b"indx", index.as_slice())
}

/// Adds the bytes of the list `odml`: the frames of all parts.
fn push_whole(alloc: Global, list: &mut Vec<u8>, layout: Layout) -> Result<(), AllocError> {
    let mut whole = Vec::new(alloc);
    push_little4(&mut whole, layout.frames)?;
    whole.resize(248, 0)?;
    list.extend_from_slice(b"odml")?;
    push_chunk(list, b"dmlh", whole.as_slice())
}

/// Adds the bytes of the list `hdrl`, which describes both streams.
fn push_headers(alloc: Global, headers: &mut Vec<u8>, layout: Layout) -> Result<(), AllocError> {
    let frames = layout.upto(0) as u64;
    headers.extend_from_slice(b"hdrl")?;
    push_chunk(
        headers,
        b"avih",
        main_bytes(alloc, layout.region, frames)?.as_slice(),
    )?;
    let mut list = Vec::new(alloc);
    push_picture(alloc, &mut list, layout)?;
    push_chunk(headers, b"LIST", list.as_slice())?;
    list.clear();
    push_sound(alloc, &mut list, layout)?;
    push_chunk(headers, b"LIST", list.as_slice())?;
    list.clear();
    push_whole(alloc, &mut list, layout)?;
    push_chunk(headers, b"LIST", list.as_slice())
}

/// Adds the start of a file.
fn push_file_head(alloc: Global, out: &mut Vec<u8>, layout: Layout) -> Result<(), AllocError> {
    let mut headers = Vec::new(alloc);
    push_headers(alloc, &mut headers, layout)?;
    push_head(out, b"RIFF", layout.riff_bytes(0))?;
    out.extend_from_slice(b"AVI ")?;
    push_chunk(out, b"LIST", headers.as_slice())?;
    push_head(out, b"LIST", layout.movi_bytes(0))?;
    out.extend_from_slice(b"movi")
}

/// The start of a file: the head of its first part, and the description of both streams. It has the same number of
/// bytes whatever the frames are, so it can be written again once they are counted.
pub fn file_head(alloc: Global, layout: Layout) -> Result<Vec<u8>, AllocError> {
    let mut out = Vec::new(alloc);
    push_file_head(alloc, &mut out, layout)?;
    Ok(out)
}

/// The start of a part; of the first part it is the head of the file.
pub fn part_head(alloc: Global, layout: Layout, part: u32) -> Result<Vec<u8>, AllocError>
    requires { part < 32 }
{
    if part == 0 {
        return file_head(alloc, layout);
    }
    let mut out = Vec::new(alloc);
    push_head(&mut out, b"RIFF", layout.riff_bytes(part))?;
    out.extend_from_slice(b"AVIX")?;
    push_head(&mut out, b"LIST", layout.movi_bytes(part))?;
    out.extend_from_slice(b"movi")?;
    Ok(out)
}

/// Adds the bytes of the index of one stream's chunks in a part.
fn push_index(
    index: &mut Vec<u8>,
    layout: Layout,
    part: u32,
    stream: usize,
) -> Result<(), AllocError>
    requires part { part < 32 }
    requires stream { stream < 2 }
{
    let (from, upto) = (layout.from(part), layout.upto(part));
    push_little2(index, 2)?;
    push_little2(index, 256)?;
    push_little4(index, upto.saturating_sub(from))?;
    index.extend_from_slice(CHUNKS[stream])?;
    push_little8(index, layout.movi_at(part))?;
    push_little4(index, 0)?;
    for frame in from..upto {
        let behind = 4 + chunk_bytes(layout.region, from, frame);
        if stream == 0 {
            push_chunk_entry(index, behind + 8, PICTURE_BYTES)?;
        } else {
            let samples = samples_upto(layout.region, frame + 1).saturating_sub(samples_upto(
                layout.region,
                frame,
            ));
            push_chunk_entry(index, behind + 8 + PICTURE_BYTES + 8, 4 * samples)?;
        }
    }
    Ok(())
}

/// The indexes of a part, which come after its chunks. After those of the first part comes the index in the old form.
pub fn indexes(alloc: Global, layout: Layout, part: u32) -> Result<Vec<u8>, AllocError>
    requires { part < 32 }
{
    let mut out = Vec::new(alloc);
    let mut index = Vec::new(alloc);
    push_index(&mut index, layout, part, 0)?;
    push_chunk(&mut out, b"ix00", index.as_slice())?;
    index.clear();
    push_index(&mut index, layout, part, 1)?;
    push_chunk(&mut out, b"ix01", index.as_slice())?;
    if part == 0 {
        index.clear();
        push_old_index(&mut index, layout)?;
        push_chunk(&mut out, b"idx1", index.as_slice())?;
    }
    Ok(out)
}

/// Adds the bytes of the index in the old form, of the first part alone.
fn push_old_index(index: &mut Vec<u8>, layout: Layout) -> Result<(), AllocError> {
    for frame in 0..layout.upto(0) {
        let at = 4 + chunk_bytes(layout.region, 0, frame);
        let samples = samples_upto(layout.region, frame + 1).saturating_sub(samples_upto(
            layout.region,
            frame,
        ));
        push_old_entry(index, b"00db", at, PICTURE_BYTES)?;
        push_old_entry(index, b"01wb", at + 8 + PICTURE_BYTES, 4 * samples)?;
    }
    Ok(())
}
