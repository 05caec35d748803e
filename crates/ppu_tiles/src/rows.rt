//! Rows of a background as two byte planes.
ghost use Rattle.std.specs.Prelude.{◌≡◌, ℕ, ◌<◌, ◌≤◌, ◌+◌, ◌-◌, ◌*◌, ◌/◌, ◌%◌, ◌==◌, slice_index, if◌then◌else◌};
ghost use Rattle.ppu_regs.specs.Reads.{bit_of};
ghost use Rattle.ppu_regs.specs.Dots.{rank_of};
ghost use Rattle.ppu_regs.specs.Picture.{background_of};
ghost use Rattle.tile_cache.specs.Bitplanes.{IsInStep};
ghost use Rattle.ppu_tiles.specs.Modes.{depth_of};
ghost use Rattle.ppu_tiles.specs.Backgrounds.{background_layer_dot};
ghost use Rattle.ppu_tiles.specs.Columns.{IsDepth, base_of, column_value, column_base, column_first};

use crate::columns::put_column;
use crate::entries::{block, take_blocks};
use crate::modes::depth;
use crate::scrolls::own;
use crate::small_tiles::small_row;
use ppu_regs::{Background, Ppu};
use tile_cache::TileCache;

/// Paints the 33 columns of a row, side by side: their values, and what they are counted from in both planes. `b` is
/// the background, `mode` the mode and `bits` the depth of the layer.
#[inline(always)]
fn paint_columns(
    p: &Ppu,
    tiles: &TileCache,
    b: &Background,
    mode: u8,
    bits: u8,
    layer: u8,
    y: u16,
    odd: bool,
    low: u8,
    high: u8,
    values: &mut [u8; 264],
    bases: &mut [u8; 264],
    firsts: &mut [u8; 264],
)
    requires first { 1 ≤ layer }
    requires last { layer ≤ 4 }
    requires mode { mode ≡ p.now.registers.mode }
    requires background { b.now ≡ background_of p.now.registers layer }
    requires bits { bits ≡ depth_of p.now.registers.mode layer }
    requires depth { IsDepth (depth_of p.now.registers.mode layer) }
    requires step { IsInStep tiles.now p.now.vram }
    requires y { y ≤ 239 }
    requires low { low ≤ 248 }
    requires high { high ≤ 248 }
    ensures values { (k : ℕ) → k < 264 → slice_index values.new k ≡
        column_value p.now layer y (bit_of odd) (k / 8) (k % 8) }
    ensures bases { (k : ℕ) → k < 264 → slice_index bases.new k ≡ column_base p.now layer y low high (k / 8) }
    ensures firsts { (k : ℕ) → k < 264 → slice_index firsts.new k ≡ column_first p.now layer y (k / 8) }
{
    let own = own(b);
    for c in 0..33usize {
        put_column(
            p, tiles, b, mode, bits, layer, own, y, odd, c, low, high, values, bases, firsts,
        );
    }
}

/// Paints the 33 columns of a row: their values, and what they are counted from in both planes. It is written out
/// by mode and depth, so that each case is one run of loads and stores.
#[inline(always)]
fn paint(
    p: &Ppu,
    tiles: &TileCache,
    layer: u8,
    y: u16,
    odd: bool,
    low: u8,
    high: u8,
    values: &mut [u8; 264],
    bases: &mut [u8; 264],
    firsts: &mut [u8; 264],
)
    requires first { 1 ≤ layer }
    requires last { layer ≤ 4 }
    requires depth { IsDepth (depth_of p.now.registers.mode layer) }
    requires step { IsInStep tiles.now p.now.vram }
    requires y { y ≤ 239 }
    requires low { low ≤ 248 }
    requires high { high ≤ 248 }
    ensures values { (k : ℕ) → k < 264 → slice_index values.new k ≡
        column_value p.now layer y (bit_of odd) (k / 8) (k % 8) }
    ensures bases { (k : ℕ) → k < 264 → slice_index bases.new k ≡ column_base p.now layer y low high (k / 8) }
    ensures firsts { (k : ℕ) → k < 264 → slice_index firsts.new k ≡ column_first p.now layer y (k / 8) }
{
    let mode = p.registers().mode;
    let bits = depth(mode, layer);
    let b = *p.registers().background(layer);
    match (mode, bits) {
        (0, 2) => paint_columns(
            p, tiles, &b, 0, 2, layer, y, odd, low, high, values, bases, firsts,
        ),
        (1, 2) => paint_columns(
            p, tiles, &b, 1, 2, layer, y, odd, low, high, values, bases, firsts,
        ),
        (1, 4) => paint_columns(
            p, tiles, &b, 1, 4, layer, y, odd, low, high, values, bases, firsts,
        ),
        (2, 4) => paint_columns(
            p, tiles, &b, 2, 4, layer, y, odd, low, high, values, bases, firsts,
        ),
        (3, 4) => paint_columns(
            p, tiles, &b, 3, 4, layer, y, odd, low, high, values, bases, firsts,
        ),
        (3, 8) => paint_columns(
            p, tiles, &b, 3, 8, layer, y, odd, low, high, values, bases, firsts,
        ),
        (4, 2) => paint_columns(
            p, tiles, &b, 4, 2, layer, y, odd, low, high, values, bases, firsts,
        ),
        (4, 8) => paint_columns(
            p, tiles, &b, 4, 8, layer, y, odd, low, high, values, bases, firsts,
        ),
        (5, 2) => paint_columns(
            p, tiles, &b, 5, 2, layer, y, odd, low, high, values, bases, firsts,
        ),
        (5, 4) => paint_columns(
            p, tiles, &b, 5, 4, layer, y, odd, low, high, values, bases, firsts,
        ),
        (6, 4) => paint_columns(
            p, tiles, &b, 6, 4, layer, y, odd, low, high, values, bases, firsts,
        ),
        _ => paint_columns(
            p, tiles, &b, mode, bits, layer, y, odd, low, high, values, bases, firsts,
        ),
    }
}

/// Returns the byte of a value in the plane of ranks.
#[inline(always)]
fn rank(value: u8, base: u8) -> u8
    ensures { result ≡ (if value == 0 then 0 else base) }
{
    if value == 0 { 0 } else { base }
}

/// Makes the two planes from a painted row, from one of its first eight pixels on.
#[inline(always)]
fn rank_pixels(
    values: &[u8; 264],
    bases: &[u8; 264],
    firsts: &[u8; 264],
    from: usize,
    ranks: &mut [u8; 256],
    numbers: &mut [u8; 256],
)
    requires { from < 8 }
    ensures ranks { (x : ℕ) → x < 256 → slice_index ranks.new x ≡
        (if slice_index values.now (x + from) == 0 then 0 else slice_index bases.now (x + from)) }
    ensures numbers { (x : ℕ) → x < 256 → slice_index numbers.new x ≡
        (slice_index firsts.now (x + from) + slice_index values.now (x + from)) % 256 }
{
    for x in 0..256usize {
        let value = values[x + from];
        ranks[x] = rank(value, bases[x + from]);
        numbers[x] = firsts[x + from].wrapping_add(value);
    }
}

/// Writes a row from its columns one by one, as `ranked_row` does. It is out of line, so that rows of small tiles,
/// which don't need it, have none of its registers and bytes to keep.
#[inline(never)]
fn columns_row(
    p: &Ppu,
    tiles: &TileCache,
    layer: u8,
    row: u16,
    odd: bool,
    low: u8,
    high: u8,
    ranks: &mut [u8; 256],
    numbers: &mut [u8; 256],
)
    requires first { 1 ≤ layer }
    requires last { layer ≤ 4 }
    requires depth { IsDepth (depth_of p.now.registers.mode layer) }
    requires row { row < 239 }
    requires low { low ≤ 248 }
    requires high { high ≤ 248 }
    requires step { IsInStep tiles.now p.now.vram }
    ensures ranks { (x : ℕ) → x < 256 → slice_index ranks.new x ≡
        (let c = background_layer_dot p.now layer row (2 * x + bit_of odd) in rank_of (base_of low high c) c) }
    ensures numbers { (x : ℕ) → x < 256 → slice_index numbers.new x ≡
        (background_layer_dot p.now layer row (2 * x + bit_of odd)).number }
{
    p.in_range();
    let r = p.registers();
    let b = r.background(layer);
    let y = block(r, b, row);
    let mut values = [0u8; 264];
    let mut bases = [0u8; 264];
    let mut firsts = [0u8; 264];
    paint(
        p,
        tiles,
        layer,
        y,
        odd,
        low,
        high,
        &mut values,
        &mut bases,
        &mut firsts,
    );
    let from = (b.scroll_x % 8) as usize;
    rank_pixels(&values, &bases, &firsts, from, ranks, numbers);
    take_blocks(r, b, ranks);
    take_blocks(r, b, numbers);
}

/// Writes a row of a layer as two byte planes: its even dots, or its odd ones if `odd`. Small tiles in modes without
/// scrolls by column are written out by mode and depth.
///
/// `ranks` has 0 where the layer has nothing, else `low` or `high` by the dot's priority, plus the palette of a
/// direct colour. `numbers` has the number of the colour. Place x is dot 2x of the row, or 2x + 1 if `odd`.
pub fn ranked_row(
    p: &Ppu,
    tiles: &TileCache,
    layer: u8,
    row: u16,
    odd: bool,
    low: u8,
    high: u8,
    ranks: &mut [u8; 256],
    numbers: &mut [u8; 256],
)
    requires first { 1 ≤ layer }
    requires last { layer ≤ 4 }
    requires depth { IsDepth (depth_of p.now.registers.mode layer) }
    requires row { row < 239 }
    requires low { low ≤ 248 }
    requires high { high ≤ 248 }
    requires step { IsInStep tiles.now p.now.vram }
    ensures ranks { (x : ℕ) → x < 256 → slice_index ranks.new x ≡
        (let c = background_layer_dot p.now layer row (2 * x + bit_of odd) in rank_of (base_of low high c) c) }
    ensures numbers { (x : ℕ) → x < 256 → slice_index numbers.new x ≡
        (background_layer_dot p.now layer row (2 * x + bit_of odd)).number }
{
    let mode = p.registers().mode;
    let bits = depth(mode, layer);
    let b = *p.registers().background(layer);
    match (mode, bits, b.large) {
        (0, 2, false) => {
            let b = Background { large: false, ..b };
            small_row(
                p, tiles, &b, 0, 2, layer, row, odd, low, high, ranks, numbers,
            )
        }
        (1, 2, false) => {
            let b = Background { large: false, ..b };
            small_row(
                p, tiles, &b, 1, 2, layer, row, odd, low, high, ranks, numbers,
            )
        }
        (1, 4, false) => {
            let b = Background { large: false, ..b };
            small_row(
                p, tiles, &b, 1, 4, layer, row, odd, low, high, ranks, numbers,
            )
        }
        (3, 4, false) => {
            let b = Background { large: false, ..b };
            small_row(
                p, tiles, &b, 3, 4, layer, row, odd, low, high, ranks, numbers,
            )
        }
        _ => columns_row(p, tiles, layer, row, odd, low, high, ranks, numbers),
    }
}
