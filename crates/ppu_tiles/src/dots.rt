//! Rows of a background as dots with their colours.
ghost use Rattle.std.specs.Prelude.{◌≡◌, ℕ, IsTrue, ◌<◌, ◌≤◌, ◌+◌, ◌*◌, ◌/◌, ◌%◌, ◌==◌, ◌||◌, ◌&&◌, ◌≢◌, length};
ghost use Rattle.std.specs.Prelude.{slice_index, slice_index_or};
ghost use Rattle.ppu_regs.specs.Dots.{dot_of, no_dot};
ghost use Rattle.tile_cache.specs.Bitplanes.{IsInStep};
ghost use Rattle.ppu_tiles.specs.Modes.{depth_of};
ghost use Rattle.ppu_tiles.specs.Backgrounds.{background_layer_dot};
ghost use Rattle.ppu_tiles.specs.Columns.{IsDepth, planes_layer_dot};

use crate::modes::depth;
use crate::rows::ranked_row;
use ppu_regs::{Dot, LayerDot, Ppu};
use tile_cache::TileCache;

/// The byte in the plane of ranks for priority 0.
const LOW: u8 = 16;

/// The byte in the plane of ranks for priority 1.
const HIGH: u8 = 32;

/// Returns whether the colours of a layer are direct.
#[inline(always)]
fn is_direct(p: &Ppu, layer: u8) -> bool
    ensures { result ≡ ((depth_of p.now.registers.mode layer == 8) && p.now.registers.colour.direct) }
{
    let r = p.registers();
    depth(r.mode, layer) == 8 && r.colour.direct
}

/// Returns the dot that two bytes of a row stand for.
#[inline(always)]
#[tactic(auto, unfolding(crate::specs::Columns::planes_layer_dot))]
fn dot(rank: u8, number: u8, direct: bool, cgram: &[u16; 256]) -> Dot
    ensures { result ≡ dot_of cgram.now (planes_layer_dot rank number direct) }
{
    let layer_dot = LayerDot {
        on: rank != 0,
        priority: rank / HIGH,
        number,
        direct,
        palette: rank % 8,
        math: true,
    };
    layer_dot.dot(cgram)
}

/// Writes the dots of two byte planes into every second place, from the first or the second.
fn fill(
    ranks: &[u8; 256],
    numbers: &[u8; 256],
    direct: bool,
    cgram: &[u16; 256],
    half: usize,
    out: &mut [Dot],
)
    requires half { half < 2 }
    requires dots { length out.old ≡ 512 }
    ensures size { length out.new ≡ 512 }
    ensures filled { (x : ℕ) → x < 256 → slice_index_or out.new (2 * x + half) no_dot ≡
        dot_of cgram.now (planes_layer_dot (slice_index ranks.now x) (slice_index numbers.now x) direct) }
    ensures others { (e : ℕ) → e % 2 ≢ half → slice_index_or out.new e no_dot ≡ slice_index_or out.old e no_dot }
{
    for x in 0..256usize {
        out[2 * x + half] = dot(ranks[x], numbers[x], direct, cgram);
    }
}

/// Writes a row of a background as 512 dots with their colours. Dots 2x and 2x + 1 are the same except in modes 5
/// and 6.
pub fn background_row(p: &Ppu, tiles: &TileCache, layer: u8, row: u16, out: &mut [Dot])
    requires first { 1 ≤ layer }
    requires last { layer ≤ 4 }
    requires depth { IsDepth (depth_of p.now.registers.mode layer) }
    requires row { row < 239 }
    requires dots { length out.old ≡ 512 }
    requires step { IsInStep tiles.now p.now.vram }
    ensures { (e : ℕ) → e < 512 → slice_index_or out.new e no_dot ≡
        dot_of p.now.cgram (background_layer_dot p.now layer row e) }
{
    let direct = is_direct(p, layer);
    let cgram = p.cgram();
    let mut ranks = [0u8; 256];
    let mut numbers = [0u8; 256];
    ranked_row(
        p,
        tiles,
        layer,
        row,
        false,
        LOW,
        HIGH,
        &mut ranks,
        &mut numbers,
    );
    fill(&ranks, &numbers, direct, cgram, 0, out);
    ranked_row(
        p,
        tiles,
        layer,
        row,
        true,
        LOW,
        HIGH,
        &mut ranks,
        &mut numbers,
    );
    fill(&ranks, &numbers, direct, cgram, 1, out);
}
