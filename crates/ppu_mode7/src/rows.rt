//! Rows of mode 7, as dots and as planes.

ghost use Rattle.std.specs.Prelude.{◌≡◌, ℕ, ◌+◌, ◌*◌, ◌/◌, ◌%◌, ◌<◌, ◌≤◌, ◌-◌, ◌⊎◌, ◌==◌, not, Bool, length};
ghost use Rattle.std.specs.Prelude.{slice_index, slice_index_or, if◌then◌else◌};
ghost use Rattle.ppu_regs.specs.Dots.{no_dot, dot_of, rank_of};
ghost use Rattle.ppu_mode7.specs.Rotated.{place_at, value_at, turned, rotated_value, layer_dot_of, rotated_layer_dot};
ghost use Rattle.ppu_mode7.specs.Lines.{rank_at};

use crate::places::{Line, line_at};
use crate::texels::values;
use ppu_regs::{Dot, LayerDot, Ppu, RankedRow};
use scanline_ops::spread_blocks;

/// Writes a row mirrored.
fn turn_row(from: &[u8; 256], out: &mut [u8; 256])
    ensures { (x : ℕ) → x < 256 → slice_index out.new x ≡ slice_index from.now (255 - x) }
{
    for x in 0..256usize {
        out[x] = from[255 - x];
    }
}

/// Writes the values of the columns of a line, as a row shows them without mosaic.
#[inline(always)]
#[tactic(auto, unfolding(crate::specs::Rotated::turned))]
fn turned_values(p: &Ppu, along: &Line, out: &mut [u8; 256])
    ensures { (x : ℕ) → x < 256 → slice_index out.new x ≡
        value_at p.now.registers.rotation.outside p.now.vram
        (place_at along.now.start_x along.now.a (turned p.now.registers.rotation.flip_x x))
        (place_at along.now.start_y along.now.c (turned p.now.registers.rotation.flip_x x)) }
{
    let r = &p.registers().rotation;
    if r.flip_x {
        let mut columns = [0u8; 256];
        values(r.outside, p.vram(), along, &mut columns);
        turn_row(&columns, out);
    } else {
        values(r.outside, p.vram(), along, out);
    }
}

/// Writes the values of a layer's row.
fn row_values(p: &Ppu, layer: u8, row: u16, out: &mut [u8; 256])
    requires { row < 239 }
    ensures { (x : ℕ) → x < 256 → slice_index out.new x ≡ rotated_value p.now layer row x }
{
    p.in_range();
    let r = p.registers();
    turned_values(p, &line_at(r, layer, row), out);
    if r.background(layer).mosaic {
        spread_blocks(out, r.mosaic as usize + 1);
    }
}

#[inline(always)]
#[tactic(auto, unfolding(crate::specs::Rotated::layer_dot_of))]
fn layer_dot(is_direct: bool, layer: u8, value: u8) -> LayerDot
    ensures value { result ≡ layer_dot_of is_direct layer value }
    ensures palette { result.palette ≡ 0 }
    ensures priority { result.priority < 2 }
{
    if layer == 2 {
        LayerDot {
            on: value % 128 != 0,
            priority: value / 128 % 2,
            number: value % 128,
            direct: false,
            palette: 0,
            math: true,
        }
    } else {
        LayerDot {
            on: value != 0,
            priority: 0,
            number: value,
            direct: is_direct,
            palette: 0,
            math: true,
        }
    }
}

#[inline(always)]
#[tactic(auto, unfolding(crate::specs::Rotated::rotated_layer_dot))]
fn layer_dot_in(p: &Ppu, is_direct: bool, layer: u8, row: u16, x: usize, value: u8) -> LayerDot
    requires direct { is_direct ≡ p.now.registers.colour.direct }
    requires value { value ≡ rotated_value p.now layer row x }
    ensures value { result ≡ rotated_layer_dot p.now layer row x }
    ensures palette { result.palette ≡ 0 }
    ensures priority { result.priority < 2 }
{
    layer_dot(is_direct, layer, value)
}

/// Writes the 256 dots of a layer's row: layer 1, or layer 2 of EXTBG.
pub fn rotated_row(p: &Ppu, layer: u8, row: u16, out: &mut [Dot])
    requires mode { p.now.registers.mode ≡ 7 }
    requires layer { (layer ≡ 1) ⊎ (layer ≡ 2) }
    requires row { row < 239 }
    requires room { length out.old ≡ 256 }
    ensures { (x : ℕ) → x < 256 → slice_index_or out.new x no_dot ≡
        dot_of p.now.cgram (rotated_layer_dot p.now layer row x) }
{
    let mut values = [0u8; 256];
    row_values(p, layer, row, &mut values);
    let direct = p.registers().colour.direct;
    for x in 0..256usize {
        out[x] = layer_dot_in(p, direct, layer, row, x, values[x]).dot(p.cgram());
    }
}

#[inline(always)]
#[tactic(auto, unfolding(ppu_regs::specs::Dots::rank_of))]
fn rank_byte(c: &LayerDot, low: u8, high: u8) -> u8
    requires { c.now.palette ≡ 0 }
    ensures { result ≡ rank_of (if c.now.priority == 1 then high else low) c.now }
{
    let base = if c.priority == 1 { high } else { low };
    if c.on { base } else { 0 }
}

/// Writes the two planes of a row's values.
#[inline(always)]
#[tactic(auto, unfolding(crate::specs::Lines::rank_at))]
fn planes_of(is_direct: bool, layer: u8, values: &[u8; 256], low: u8, high: u8, out: &mut RankedRow)
    ensures ranks { (x : ℕ) → x < 256 → slice_index out.new.ranks x ≡
        rank_at is_direct layer low high (slice_index values.now x) }
    ensures numbers { (x : ℕ) → x < 256 → slice_index out.new.numbers x ≡
        (layer_dot_of is_direct layer (slice_index values.now x)).number }
{
    for x in 0..256usize {
        let c = layer_dot(is_direct, layer, values[x]);
        out.ranks[x] = rank_byte(&c, low, high);
        out.numbers[x] = c.number;
    }
}

/// Writes a layer's row as two byte planes. `low` and `high` are the rank bytes of the two priorities.
#[tactic(auto, unfolding(crate::specs::Rotated::rotated_layer_dot, crate::specs::Lines::rank_at))]
pub fn rotated_planes(p: &Ppu, layer: u8, row: u16, low: u8, high: u8, out: &mut RankedRow)
    requires { row < 239 }
    ensures ranks { (x : ℕ) → x < 256 → slice_index out.new.ranks x ≡
        rank_of (if (rotated_layer_dot p.now layer row x).priority == 1 then high else low)
        (rotated_layer_dot p.now layer row x) }
    ensures numbers { (x : ℕ) → x < 256 → slice_index out.new.numbers x ≡ (rotated_layer_dot p.now layer row x).number }
{
    let mut values = [0u8; 256];
    row_values(p, layer, row, &mut values);
    let direct = p.registers().colour.direct;
    if layer == 2 {
        planes_of(direct, 2, &values, low, high, out);
    } else {
        planes_of(direct, layer, &values, low, high, out);
    }
}
