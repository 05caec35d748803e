//! A row's dots, from its layers.

ghost use Rattle.std.specs.Prelude.{◌≡◌, ℕ, ◌+◌, ◌-◌, ◌*◌, ◌<◌, ◌≤◌, IfSome, true, false, length, slice_index};
ghost use Rattle.scanline_ops.specs.RankedPixels.{no_pixel};
ghost use Rattle.tile_cache.specs.Bitplanes.{IsInStep};
ghost use Rattle.ppu_objects.specs.Objects.{passes_range};
ghost use Rattle.ppu_objects.specs.Slivers.{drawn_slivers, passes_time};
ghost use Rattle.ppu_screens.specs.Screens.{ranked_pixel_at, backdrop};
ghost use Rattle.ppu_line.specs.Line.{main_front, sub_front, pixel};

use crate::layers::{add_background, add_objects, are_objects_seen, is_shown};
use arrayvec::ArrayVec;
use ppu_objects::{Sliver, gather_row};
use ppu_regs::{Over, Ppu, RankedRow};
use ppu_screens::{backdrop_colour, finish, start};
use scanline_ops::fill_dots;
use tile_cache::TileCache;

fn empty_row() -> RankedRow {
    RankedRow {
        ranks: [0; 256],
        numbers: [0; 256],
    }
}

#[inline(always)]
fn is_none(first: bool, second: bool, third: bool, fourth: bool, objects: bool) -> bool
    ensures first { result ≡ true → first ≡ false }
    ensures second { result ≡ true → second ≡ false }
    ensures third { result ≡ true → third ≡ false }
    ensures fourth { result ≡ true → fourth ≡ false }
    ensures objects { result ≡ true → objects ≡ false }
{
    !first && !second && !third && !fourth && !objects
}

/// Returns whether no layer has anything on a row, by the registers and the slivers of the objects there.
#[inline(always)]
fn is_bare(p: &Ppu, row: u16, slivers: &ArrayVec<Sliver, 34>) -> bool
    requires slivers { slivers.now.items ≡ drawn_slivers p.now row }
    ensures main { (x : ℕ) → result ≡ true → main_front p.now row x ≡ backdrop p.now.registers }
    ensures sub { (x : ℕ) → result ≡ true → sub_front p.now row x ≡ no_pixel }
{
    let first = is_shown(p, 1);
    let second = is_shown(p, 2);
    let third = is_shown(p, 3);
    let fourth = is_shown(p, 4);
    let objects = are_objects_seen(p, row, slivers);
    is_none(first, second, third, fourth, objects)
}

/// Returns the colour of all dots of a row, if they are easily found to be alike. That is in forced blank, and if
/// there is nothing except the backdrop.
#[tactic(auto, using(crate::proofs::Halves::blank))]
fn one_colour(p: &Ppu, row: u16, slivers: &ArrayVec<Sliver, 34>) -> Option<u16>
    requires slivers { slivers.now.items ≡ drawn_slivers p.now row }
    ensures { IfSome result (λ c. (e : ℕ) → pixel p.now row e ≡ c) }
{
    if p.registers().display.blanked {
        Some(0)
    } else if is_bare(p, row, slivers) {
        backdrop_colour(p)
    } else {
        None
    }
}

/// Writes a row from its layers: what is in front on both screens, layer by layer, and the dots of that.
fn draw_layers(
    p: &Ppu,
    tiles: &TileCache,
    row: u16,
    slivers: &ArrayVec<Sliver, 34>,
    out: &mut [u16],
)
    requires row { row < 239 }
    requires room { length out.old ≡ 512 }
    requires step { IsInStep tiles.now p.now.vram }
    requires slivers { slivers.now.items ≡ drawn_slivers p.now row }
    ensures { (e : ℕ) → e < 512 → slice_index out.new e ≡ pixel p.now row e }
{
    let mut main = empty_row();
    let mut sub = empty_row();
    let mut odd = empty_row();
    let mut even = empty_row();
    start(p, &mut main, &mut sub);
    add_background(p, tiles, 1, row, &mut odd, &mut even, &mut main, &mut sub);
    add_background(p, tiles, 2, row, &mut odd, &mut even, &mut main, &mut sub);
    add_background(p, tiles, 3, row, &mut odd, &mut even, &mut main, &mut sub);
    add_background(p, tiles, 4, row, &mut odd, &mut even, &mut main, &mut sub);
    add_objects(p, row, slivers, &mut odd, &mut main, &mut sub);
    finish(p, &main, &sub, out);
}

/// Writes the 512 dots of the row `v - 1`. Returns which limits of the objects were passed. The decoded tiles must be
/// in step with VRAM.
pub fn draw(p: &Ppu, tiles: &TileCache, v: u16, out: &mut [u16]) -> Over
    requires first { 1 ≤ v }
    requires last { v ≤ 239 }
    requires room { length out.old ≡ 512 }
    requires step { IsInStep tiles.now p.now.vram }
    ensures dots { (e : ℕ) → e < 512 → slice_index out.new e ≡ pixel p.now (v - 1) e }
    ensures range { result.range ≡ passes_range p.now (v - 1) }
    ensures time { result.time ≡ passes_time p.now (v - 1) }
{
    let mut slivers: ArrayVec<Sliver, 34> = ArrayVec::new();
    let over = gather_row(p, v - 1, &mut slivers);
    match one_colour(p, v - 1, &slivers) {
        Some(colour) => fill_dots(colour, out),
        None => draw_layers(p, tiles, v - 1, &slivers, out),
    }
    over
}
