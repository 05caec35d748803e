//! Map entries: their places in VRAM, and the tiles and lines that they name.
ghost use Rattle.std.specs.Prelude.{◌≡◌, ℕ, ◌<◌, ◌≤◌, ◌-◌, ◌%◌, ◌/◌, ◌==◌, ◌*◌, ◌+◌, slice_index};
ghost use Rattle.ppu_tiles.specs.Backgrounds.{map_word, entry_at, turned, tile_of, line_word, number_of, layer_dot_of};
ghost use Rattle.ppu_tiles.specs.Backgrounds.{block_start};

use crate::modes::{height, width};
use ppu_regs::{Background, Ppu, Registers};
use scanline_ops::spread_blocks;

/// Returns the first row or column of the mosaic block of `n`, or `n` if the layer has no mosaic.
#[inline(always)]
#[tactic(auto, unfolding(crate::specs::Backgrounds::block_start))]
pub fn block(r: &Registers, b: &Background, n: u16) -> u16
    ensures start { result ≡ block_start r.now b.now n }
    ensures before { result ≤ n }
{
    if b.mosaic {
        n - n % (r.mosaic as u16 + 1)
    } else {
        n
    }
}

/// Replaces each byte by that of the first dot of its mosaic block, if the layer has mosaic.
#[inline(always)]
#[tactic(auto, unfolding(crate::specs::Backgrounds::block_start))]
pub fn take_blocks(r: &Registers, b: &Background, row: &mut [u8; 256])
    requires { r.now.mosaic < 16 }
    ensures { (x : ℕ) → x < 256 → slice_index row.new x ≡ slice_index row.old (block_start r.now b.now x) }
{
    if b.mosaic {
        spread_blocks(row, r.mosaic as usize + 1);
    }
}

/// Returns the word of VRAM with the map entry at a column and a row of tiles.
#[inline(always)]
#[tactic(auto, unfolding(crate::specs::Backgrounds::map_word))]
pub fn map_place(b: &Background, col: u16, row: u16) -> usize
    ensures word { result ≡ map_word b.now col row }
    ensures within { result < 32768 }
{
    let right = if b.wide { 0x400 } else { 0 };
    let screens = if b.wide { 0x800 } else { 0x400 };
    let below = if b.tall { screens } else { 0 };
    let line = b.map_base as u32 + row as u32 % 32 * 32 + row as u32 / 32 % 2 * below;
    ((line + col as u32 % 32 + col as u32 / 32 % 2 * right) % 32768) as usize
}

/// Returns the map entry at a pixel of the map.
#[inline(always)]
#[tactic(auto, unfolding(crate::specs::Backgrounds::entry_at))]
pub fn entry(p: &Ppu, mode: u8, b: &Background, px: u16, py: u16) -> u16
    requires { mode ≡ p.now.registers.mode }
    ensures { result ≡ entry_at p.now b.now px py }
{
    p.vram()[map_place(b, px / width(mode, b), py / height(b))]
}

/// Returns the place of `n` in a tile of `size` pixels, counted from the other end if `flip`.
#[inline(always)]
pub fn turn(flip: bool, size: u16, n: u16) -> u16
    requires { 0 < size }
    ensures place { result ≡ turned flip size n }
    ensures within { result < size }
{
    let place = n % size;
    if flip { size - 1 - place } else { place }
}

/// Returns the number of the tile of 8 by 8 pixels at a place of an entry's tile.
#[inline(always)]
pub fn tile(entry: u16, x: u16, y: u16) -> u16
    requires x { x < 16 }
    requires y { y < 16 }
    ensures tile { result ≡ tile_of entry x y }
    ensures within { result < 1024 }
{
    (entry % 1024 + x / 8 + 16 * (y / 8)) % 1024
}

/// Returns the word of VRAM at which a line of a tile begins.
#[inline(always)]
#[tactic(auto, unfolding(crate::specs::Backgrounds::line_word))]
pub fn line_place(b: &Background, depth: u8, tile: u16, y: u16) -> u16
    requires depth { depth ≤ 8 }
    requires tile { tile < 1024 }
    ensures word { result ≡ line_word b.now depth tile y }
    ensures within { result < 32768 }
{
    let place = b.tile_base as u32 + tile as u32 * (4 * depth as u32) + (y % 8) as u32;
    (place % 32768) as u16
}
