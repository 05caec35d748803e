//! Draws whole pictures of the scenes of a file.
//!
//! Each scene gives 224 rows of 512 dots, as they are after its last line. A dot is two bytes, low first: 15 bits, red
//! in bits 4-0, green in 9-5, blue in 14-10. To make a PNG:
//! `ffmpeg -f rawvideo -pix_fmt bgr555le -video_size 512x224 -i OUT p%03d.png`.

ghost use Rattle.std.specs.Prelude.{◌<◌};
ghost use Rattle.tile_cache.specs.Bitplanes.{IsInStep};

use picture_scenes::{acts, renew};
use ppu_line::draw;
use ppu_regs::Ppu;
use snes_defs::Profile;
use std::alloc::{AllocError, Global};
use std::io;
use tile_cache::TileCache;

/// Returns a new PPU and a tile cache.
fn new_unit(alloc: Global) -> Option<(Ppu, TileCache)> {
    match (Ppu::new(alloc, Profile::First), TileCache::new(alloc)) {
        (Ok(ppu), Ok(tiles)) => Some((ppu, tiles)),
        _ => None,
    }
}

/// Adds a row of the picture to the bytes.
fn show_row(ppu: &Ppu, tiles: &TileCache, row: u16, bytes: &mut Vec<u8>) -> Result<(), AllocError>
    requires row { row < 239 }
    requires step { IsInStep tiles.now ppu.now.vram }
{
    let mut drawn = [0u16; 512];
    let _over = draw(ppu, tiles, row + 1, &mut drawn);
    for dot in drawn {
        bytes.push((dot % 256) as u8)?;
        bytes.push((dot / 256) as u8)?;
    }
    Ok(())
}

/// Adds the whole picture to the bytes.
fn show(ppu: &Ppu, tiles: &mut TileCache, bytes: &mut Vec<u8>) -> Result<(), AllocError> {
    renew(ppu, tiles);
    for row in 0..224u16 {
        show_row(ppu, tiles, row, bytes)?;
    }
    Ok(())
}

/// Returns the pictures of a range of scenes of a text, and prints how many there were.
pub fn show_scenes(
    rt: &impl Print,
    alloc: Global,
    text: &str,
    from: u64,
    upto: u64,
) -> io::Result<Vec<u8>> {
    let mut bytes = Vec::new(alloc);
    let mut unit = new_unit(alloc);
    let mut scene = 0u64;
    let mut shown = 0u64;
    for line in text.lines() {
        if line.starts_with("scene ") {
            unit = new_unit(alloc);
        } else if let Some((ppu, tiles)) = &mut unit {
            if line == "end" {
                if from <= scene && scene <= upto {
                    show(ppu, tiles, &mut bytes)?;
                    shown = shown.saturating_add(1);
                }
                scene = scene.saturating_add(1);
            } else if !is_answer(line) && acts(ppu, line).is_none() {
                println!(rt; "no line of a scene: {line}")?;
            }
        }
    }
    println!(rt; "{shown} scenes, {} bytes", bytes.len())?;
    Ok(bytes)
}

/// Whether a line is an expected result, which a picture doesn't need.
fn is_answer(line: &str) -> bool {
    line.starts_with("q ") || line.starts_with("r ")
}
