ghost use Rattle.std.specs.Prelude.{◌≡◌, ◌++◌, codes, length, IfOk, OnOk};
ghost use Rattle.film_formats.specs.Numbers.{little4};
ghost use Rattle.film_avi.specs.Blocks.{chunk, rate_of, scale_of, microseconds_of, main_header, picture_header, picture_format, sound_header, sound_format, part_entry, chunk_entry, old_entry};

use film_formats::{push_little2, push_little4, push_little8, push_low4};
use snes_defs::Region;
use std::alloc::{AllocError, Global};

/// The frame rate of a region as two numbers, the first divided by the second.
pub(crate) fn rate(region: Region) -> (u32, u32)
    ensures rate { result.0 ≡ rate_of region }
    ensures scale { result.1 ≡ scale_of region }
{
    match region {
        Region::Ntsc => (236_250_000, 3_931_048),
        Region::Pal => (21_281_370, 425_568),
    }
}

/// The microseconds of a frame, rounded.
fn microseconds(region: Region) -> u32
    ensures { result ≡ microseconds_of region }
{
    match region {
        Region::Ntsc => 16_639,
        Region::Pal => 19_997,
    }
}

/// Adds a chunk.
pub fn push_chunk(out: &mut Vec<u8>, name: &[u8], bytes: &[u8]) -> Result<(), AllocError>
    ensures { OnOk result (out.new.items ≡ out.old.items ++ chunk name.now bytes.now) }
{
    out.extend_from_slice(name)?;
    push_low4(out, bytes.len() as u64)?;
    out.extend_from_slice(bytes)
}

/// Adds the head of a chunk whose bytes, this many, come later.
pub fn push_head(out: &mut Vec<u8>, name: &[u8], bytes: u64) -> Result<(), AllocError>
    ensures { OnOk result (out.new.items ≡ out.old.items ++ (name.now ++ little4 bytes)) }
{
    out.extend_from_slice(name)?;
    push_low4(out, bytes)
}

/// The bytes of `avih`.
pub(crate) fn main_bytes(alloc: Global, region: Region, frames: u64) -> Result<Vec<u8>, AllocError>
    ensures { IfOk result (λ v. v.items ≡ main_header region frames) }
{
    let mut out = Vec::new(alloc);
    push_little4(&mut out, microseconds(region))?;
    push_little4(&mut out, 0)?;
    push_little4(&mut out, 0)?;
    push_little4(&mut out, 272)?;
    push_low4(&mut out, frames)?;
    push_little4(&mut out, 0)?;
    push_little4(&mut out, 2)?;
    push_little4(&mut out, 489_472)?;
    push_little4(&mut out, 512)?;
    push_little4(&mut out, 478)?;
    push_little4(&mut out, 0)?;
    push_little4(&mut out, 0)?;
    push_little4(&mut out, 0)?;
    push_little4(&mut out, 0)?;
    Ok(out)
}

/// The bytes of the picture's `strh`.
pub(crate) fn picture_bytes(
    alloc: Global,
    region: Region,
    frames: u64,
) -> Result<Vec<u8>, AllocError>
    ensures { IfOk result (λ v. v.items ≡ picture_header region frames) }
{
    let (rate, scale) = rate(region);
    let mut out = Vec::new(alloc);
    out.extend_from_slice(b"vids")?;
    push_little4(&mut out, 0)?;
    push_little4(&mut out, 0)?;
    push_little4(&mut out, 0)?;
    push_little4(&mut out, 0)?;
    push_little4(&mut out, scale)?;
    push_little4(&mut out, rate)?;
    push_little4(&mut out, 0)?;
    push_low4(&mut out, frames)?;
    push_little4(&mut out, 489_472)?;
    push_little4(&mut out, 4_294_967_295)?;
    push_little4(&mut out, 0)?;
    push_little2(&mut out, 0)?;
    push_little2(&mut out, 0)?;
    push_little2(&mut out, 512)?;
    push_little2(&mut out, 478)?;
    Ok(out)
}

/// The bytes of the picture's `strf`.
pub(crate) fn picture_format_bytes(alloc: Global) -> Result<Vec<u8>, AllocError>
    ensures { IfOk result (λ v. v.items ≡ picture_format) }
{
    let mut out = Vec::new(alloc);
    push_little4(&mut out, 40)?;
    push_little4(&mut out, 512)?;
    push_little4(&mut out, 478)?;
    push_little2(&mut out, 1)?;
    push_little2(&mut out, 16)?;
    push_little4(&mut out, 0)?;
    push_little4(&mut out, 489_472)?;
    push_little4(&mut out, 0)?;
    push_little4(&mut out, 0)?;
    push_little4(&mut out, 0)?;
    push_little4(&mut out, 0)?;
    Ok(out)
}

/// The bytes of the sound's `strh`.
pub(crate) fn sound_bytes(alloc: Global, samples: u64) -> Result<Vec<u8>, AllocError>
    ensures { IfOk result (λ v. v.items ≡ sound_header samples) }
{
    let mut out = Vec::new(alloc);
    out.extend_from_slice(b"auds")?;
    push_little4(&mut out, 0)?;
    push_little4(&mut out, 0)?;
    push_little4(&mut out, 0)?;
    push_little4(&mut out, 0)?;
    push_little4(&mut out, 1)?;
    push_little4(&mut out, 32_000)?;
    push_little4(&mut out, 0)?;
    push_low4(&mut out, samples)?;
    push_little4(&mut out, 2560)?;
    push_little4(&mut out, 4_294_967_295)?;
    push_little4(&mut out, 4)?;
    push_little2(&mut out, 0)?;
    push_little2(&mut out, 0)?;
    push_little2(&mut out, 0)?;
    push_little2(&mut out, 0)?;
    Ok(out)
}

/// The bytes of the sound's `strf`.
pub(crate) fn sound_format_bytes(alloc: Global) -> Result<Vec<u8>, AllocError>
    ensures { IfOk result (λ v. v.items ≡ sound_format) }
{
    let mut out = Vec::new(alloc);
    push_little2(&mut out, 1)?;
    push_little2(&mut out, 2)?;
    push_little4(&mut out, 32_000)?;
    push_little4(&mut out, 128_000)?;
    push_little2(&mut out, 4)?;
    push_little2(&mut out, 16)?;
    push_little2(&mut out, 0)?;
    Ok(out)
}

/// Adds the entry of a part to the index of a stream.
pub(crate) fn push_part_entry(
    out: &mut Vec<u8>,
    offset: u64,
    size: u64,
    duration: u64,
) -> Result<(), AllocError>
    ensures { OnOk result (out.new.items ≡ out.old.items ++ part_entry offset size duration) }
{
    push_little8(out, offset)?;
    push_low4(out, size)?;
    push_low4(out, duration)
}

/// Adds an entry to a part's index of a stream.
pub(crate) fn push_chunk_entry(out: &mut Vec<u8>, offset: u64, size: u64) -> Result<(), AllocError>
    ensures { OnOk result (out.new.items ≡ out.old.items ++ chunk_entry offset size) }
{
    push_low4(out, offset)?;
    push_low4(out, size)
}

/// Adds an entry to the old index.
pub(crate) fn push_old_entry(
    out: &mut Vec<u8>,
    name: &[u8],
    offset: u64,
    size: u64,
) -> Result<(), AllocError>
    ensures { OnOk result (out.new.items ≡ out.old.items ++ old_entry name.now offset size) }
{
    out.extend_from_slice(name)?;
    push_little4(out, 16)?;
    push_low4(out, offset)?;
    push_low4(out, size)
}
