//! One column of a background's row: the eight pixels of a map entry.
ghost use Rattle.std.specs.Prelude.{◌≡◌, ℕ, List, IsTrue, ◌<◌, ◌≤◌, ◌+◌, ◌*◌, ◌/◌, ◌%◌, ◌==◌, ◌||◌, ◌&&◌, ◌-◌};
ghost use Rattle.std.specs.Prelude.{slice_index, if◌then◌else◌};
ghost use Rattle.ppu_regs.specs.Reads.{bit_of};
ghost use Rattle.tile_cache.specs.Bitplanes.{IsInStep, eight};
ghost use Rattle.ppu_regs.specs.Picture.{background_of};
ghost use Rattle.ppu_tiles.specs.Modes.{depth_of, is_hires};
ghost use Rattle.ppu_tiles.specs.Backgrounds.{own_scroll, entry_at, pixel_at, number_of, tile_of, line_word};
ghost use Rattle.ppu_tiles.specs.Columns.{IsDepth, column_start, column_place, half_word, half_value, column_value};
ghost use Rattle.ppu_tiles.specs.Columns.{column_base, column_first};

use crate::entries::{entry, line_place, tile, turn};
use crate::modes::{height, hires, width};
use crate::scrolls::{Scroll, in_column};
use ppu_regs::{Background, Ppu, Registers};
use tile_cache::TileCache;

/// Puts eight bytes into a row.
#[inline(always)]
pub fn put_bytes(row: &mut [u8; 264], at: usize, bytes: &[u8; 8])
    requires { at + 8 ≤ 264 }
    ensures put { (k : ℕ) → k < 8 → slice_index row.new (at + k) ≡ slice_index bytes.now k }
    ensures below { (k : ℕ) → k < at → slice_index row.new k ≡ slice_index row.old k }
{
    for k in 0..8 {
        row[at + k] = bytes[k];
    }
}

/// Puts every second of eight bytes, from the first or the second.
#[inline(always)]
fn put_half(row: &mut [u8; 264], at: usize, bytes: &[u8; 8], odd: bool)
    requires { at + 4 ≤ 264 }
    ensures put { (k : ℕ) → k < 4 → slice_index row.new (at + k) ≡ slice_index bytes.now (2 * k + bit_of odd) }
    ensures below { (k : ℕ) → k < at → slice_index row.new k ≡ slice_index row.old k }
{
    for k in 0..4 {
        row[at + k] = bytes[2 * k + odd as usize];
    }
}

/// Returns the word of VRAM at which the line of one half of a tile begins, at row `py` of the map.
#[inline(always)]
#[tactic(auto, unfolding(crate::specs::Columns::half_word))]
pub fn half_place(b: &Background, depth: u8, entry: u16, x: u16, py: u16) -> usize
    requires depth { depth ≤ 8 }
    requires x { x < 16 }
    ensures word { result ≡ half_word b.now depth entry x py }
    ensures within { result < 32768 }
{
    let y = turn(entry / 32768 == 1, height(b), py);
    line_place(b, depth, tile(entry, x, y), y) as usize
}

/// Returns the eight pixels of one half of a tile at row `py` of the map, from the left on the screen. `n` is a
/// pixel of that half.
#[inline(always)]
#[tactic(auto, unfolding(crate::specs::Columns::half_value))]
fn half_line(
    tiles: &TileCache,
    b: &Background,
    depth: u8,
    entry: u16,
    size: u16,
    n: u16,
    py: u16,
) -> [u8; 8]
    requires depth { IsDepth depth }
    requires size { 0 < size }
    requires most { size ≤ 16 }
    ensures { (vram : List ℕ) → IsInStep tiles.now vram
        → result ≡ eight (λ k. half_value vram b.now depth entry size n py k) }
{
    let flip = entry / 16384 % 2 == 1;
    let word = half_place(b, depth, entry, turn(flip, size, n), py);
    tiles.turned_line(word, depth, flip)
}

/// Puts the eight pixels of a map entry in a column. `m` is the column's place in the map, in eights of pixels.
#[inline(always)]
fn put_values(
    p: &Ppu,
    tiles: &TileCache,
    row: &mut [u8; 264],
    at: usize,
    mode: u8,
    b: &Background,
    depth: u8,
    entry: u16,
    m: u16,
    odd: bool,
    py: u16,
)
    requires mode { mode ≡ p.now.registers.mode }
    requires room { at + 8 ≤ 264 }
    requires depth { IsDepth depth }
    requires m { m ≤ 160 }
    requires step { IsInStep tiles.now p.now.vram }
    ensures put { (k : ℕ) → k < 8 → slice_index row.new (at + k) ≡
        pixel_at p.now b.now depth entry (column_place p.now.registers.mode m (bit_of odd) k) py }
    ensures below { (k : ℕ) → k < at → slice_index row.new k ≡ slice_index row.old k }
{
    if hires(mode) {
        put_half(row, at, &half_line(tiles, b, depth, entry, 16, 0, py), odd);
        put_half(
            row,
            at + 4,
            &half_line(tiles, b, depth, entry, 16, 8, py),
            odd,
        );
    } else {
        put_bytes(
            row,
            at,
            &half_line(tiles, b, depth, entry, width(mode, b), 8 * m, py),
        );
    }
}

/// Returns the first pixel of the map in a column. `m` is the column's place there, in eights of pixels.
#[inline(always)]
pub fn start(mode: u8, m: u16) -> u16
    requires { m ≤ 160 }
    ensures { result ≡ column_start mode m }
{
    if hires(mode) { 16 * m } else { 8 * m }
}

/// Puts one byte into a row eight times.
#[inline(always)]
pub fn put_same(row: &mut [u8; 264], at: usize, v: u8)
    requires { at + 8 ≤ 264 }
    ensures put { (k : ℕ) → k < 8 → slice_index row.new (at + k) ≡ v }
    ensures below { (k : ℕ) → k < at → slice_index row.new k ≡ slice_index row.old k }
{
    for k in 0..8 {
        row[at + k] = v;
    }
}

/// Returns the number in CGRAM of a palette's first colour, for a layer of this depth.
#[inline(always)]
#[tactic(auto, unfolding(crate::specs::Backgrounds::number_of))]
pub fn first_number(mode: u8, layer: u8, depth: u8, palette: u8) -> u8
    requires palette { palette < 8 }
    requires first { 1 ≤ layer }
    requires last { layer ≤ 4 }
    ensures value { result ≡ number_of mode layer depth palette 0 }
    ensures small { result < 128 }
{
    match depth {
        2 => {
            let before = if mode == 0 { 32 * (layer - 1) } else { 0 };
            before + 4 * palette
        }
        4 => 16 * palette,
        _ => 0,
    }
}

/// Returns the palette of direct colour if colours are direct, else 0.
#[inline(always)]
fn direct_palette(r: &Registers, depth: u8, palette: u8) -> u8
    requires { palette < 8 }
    ensures small { result < 8 }
    ensures palette { result ≡ (if (depth == 8) && r.now.colour.direct then palette else 0) }
{
    if depth == 8 && r.colour.direct {
        palette
    } else {
        0
    }
}

/// Returns the byte of a map entry in the plane of ranks: that of its priority, plus the palette of direct colour.
#[inline(always)]
fn base(entry: u16, low: u8, high: u8, palette: u8) -> u8
    requires low { low ≤ 248 }
    requires high { high ≤ 248 }
    requires palette { palette < 8 }
    ensures { result ≡ (if entry / 8192 % 2 == 1 then high else low) + palette }
{
    if entry / 8192 % 2 == 1 {
        high + palette
    } else {
        low + palette
    }
}

/// Paints column `c` of a layer: its values, and what they are counted from in both planes. `y` is the row after
/// mosaic.
#[inline(always)]
#[tactic(auto, unfolding(crate::specs::Columns::column_value, crate::specs::Columns::column_base, crate::specs::Columns::column_first))]
pub fn put_column(
    p: &Ppu,
    tiles: &TileCache,
    b: &Background,
    mode: u8,
    bits: u8,
    layer: u8,
    own: Scroll,
    y: u16,
    odd: bool,
    c: usize,
    low: u8,
    high: u8,
    values: &mut [u8; 264],
    bases: &mut [u8; 264],
    firsts: &mut [u8; 264],
)
    requires first { 1 ≤ layer }
    requires last { layer ≤ 4 }
    requires mode { mode ≡ p.now.registers.mode }
    requires own { own ≡ own_scroll b.now }
    requires across { own.across < 1024 }
    requires down { own.down < 1024 }
    requires background { b.now ≡ background_of p.now.registers layer }
    requires bits { bits ≡ depth_of p.now.registers.mode layer }
    requires depth { IsDepth bits }
    requires step { IsInStep tiles.now p.now.vram }
    requires c { c ≤ 32 }
    requires y { y ≤ 239 }
    requires low { low ≤ 248 }
    requires high { high ≤ 248 }
    ensures values { (k : ℕ) → k < 8 → slice_index values.new (8 * c + k) ≡
        column_value p.now layer y (bit_of odd) c k }
    ensures values_below { (k : ℕ) → k < 8 * c → slice_index values.new k ≡ slice_index values.old k }
    ensures bases { (k : ℕ) → k < 8 → slice_index bases.new (8 * c + k) ≡ column_base p.now layer y low high c }
    ensures bases_below { (k : ℕ) → k < 8 * c → slice_index bases.new k ≡ slice_index bases.old k }
    ensures firsts { (k : ℕ) → k < 8 → slice_index firsts.new (8 * c + k) ≡ column_first p.now layer y c }
    ensures firsts_below { (k : ℕ) → k < 8 * c → slice_index firsts.new k ≡ slice_index firsts.old k }
{
    let s = in_column(p, mode, layer, own, c as u16);
    let m = c as u16 + s.across / 8;
    let py = y + 1 + s.down;
    let entry = entry(p, mode, b, start(mode, m), py);
    let palette = (entry / 1024 % 8) as u8;
    let direct = direct_palette(p.registers(), bits, palette);
    put_same(bases, 8 * c, base(entry, low, high, direct));
    put_same(firsts, 8 * c, first_number(mode, layer, bits, palette));
    put_values(p, tiles, values, 8 * c, mode, b, bits, entry, m, odd, py);
}
