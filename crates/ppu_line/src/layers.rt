//! The layers of a row, each painted and laid over both screens.

ghost use Rattle.std.specs.Prelude.{◌≡◌, ℕ, ◌+◌, ◌*◌, ◌<◌, ◌≤◌, ◌==◌, true, false, []};
ghost use Rattle.scanline_ops.specs.RankedPixels.{RankedPixel, nearest};
ghost use Rattle.tile_cache.specs.Bitplanes.{IsInStep};
ghost use Rattle.ppu_regs.specs.Reads.{bit_of};
ghost use Rattle.ppu_tiles.specs.Modes.{is_hires, depth_of};
ghost use Rattle.ppu_objects.specs.Slivers.{drawn_slivers, object_layer_dot};
ghost use Rattle.ppu_screens.specs.Screens.{ranked_pixel_at};
ghost use Rattle.ppu_line.specs.Line.{has_background, has_depth, plane_layer_dot, ranked_pixel_of, main_pixel};
ghost use Rattle.ppu_line.specs.Line.{sub_pixel};

use arrayvec::ArrayVec;
use ppu_mode7::rotated_planes;
use ppu_objects::{Sliver, paint_drawn};
use ppu_regs::{Ppu, RankedRow};
use ppu_screens::{base, lay_layer};
use ppu_tiles::{depth, ranked_row};
use tile_cache::TileCache;

#[inline(always)]
fn is_depth(depth: u8) -> bool
    ensures { result ≡ has_depth depth }
{
    depth == 2 || depth == 4 || depth == 8
}

/// Returns whether a mode has a background.
#[inline(always)]
#[tactic(auto, unfolding(crate::specs::Line::has_background))]
fn has(mode: u8, layer: u8) -> bool
    ensures { result ≡ has_background mode layer }
{
    if mode == 7 {
        layer <= 2
    } else {
        is_depth(depth(mode, layer))
    }
}

/// Returns whether a mode is mode 7.
#[inline(always)]
fn rotates(mode: u8) -> bool
    ensures { result ≡ (mode == 7) }
{
    mode == 7
}

#[inline(always)]
fn hires(mode: u8) -> bool
    ensures { result ≡ is_hires mode }
{
    mode == 5 || mode == 6
}

/// Returns whether the mode has a background, and a screen shows it. Otherwise the background has nothing on either.
#[inline(always)]
#[tactic(auto, using(crate::proofs::Painted::absent, crate::proofs::Painted::unshown))]
pub fn is_shown(p: &Ppu, layer: u8) -> bool
    requires first { 1 ≤ layer }
    requires last { layer ≤ 4 }
    ensures has { result ≡ true → has_background p.now.registers.mode layer ≡ true }
    ensures main { (front : RankedPixel) → (row x : ℕ) → result ≡ false
        → nearest front (main_pixel p.now row x layer) ≡ front }
    ensures sub { (front : RankedPixel) → (row x : ℕ) → result ≡ false
        → nearest front (sub_pixel p.now row x layer) ≡ front }
{
    let screens = *p.registers().screens(layer);
    has(p.registers().mode, layer) && (screens.main || screens.sub)
}

/// Adds a background to both screens, if the mode has it and a screen shows it. In modes 5 and 6 it has 512 dots: the
/// odd ones go to the main screen, the even ones to the sub screen.
#[tactic(auto, unfolding(crate::specs::Line::has_background))]
pub fn add_background(
    p: &Ppu,
    tiles: &TileCache,
    layer: u8,
    row: u16,
    odd: &mut RankedRow,
    even: &mut RankedRow,
    main: &mut RankedRow,
    sub: &mut RankedRow,
)
    requires first { 1 ≤ layer }
    requires last { layer ≤ 4 }
    requires row { row < 239 }
    requires step { IsInStep tiles.now p.now.vram }
    ensures main { (x : ℕ) → x < 256 → ranked_pixel_at main.new x ≡
        nearest (ranked_pixel_at main.old x) (main_pixel p.now row x layer) }
    ensures sub { (x : ℕ) → x < 256 → ranked_pixel_at sub.new x ≡
        nearest (ranked_pixel_at sub.old x) (sub_pixel p.now row x layer) }
{
    if !is_shown(p, layer) {
        return;
    }
    let r = p.registers();
    let named = r.screens(layer).arithmetic;
    let low = base(r, layer, 0, named);
    let high = base(r, layer, 1, named);
    if rotates(r.mode) {
        rotated_planes(p, layer, row, low, high, odd);
        lay_layer(p, layer, odd, odd, main, sub);
        return;
    }
    ranked_row(
        p,
        tiles,
        layer,
        row,
        true,
        low,
        high,
        &mut odd.ranks,
        &mut odd.numbers,
    );
    if hires(r.mode) {
        ranked_row(
            p,
            tiles,
            layer,
            row,
            false,
            low,
            high,
            &mut even.ranks,
            &mut even.numbers,
        );
        lay_layer(p, layer, odd, even, main, sub);
    } else {
        lay_layer(p, layer, odd, odd, main, sub);
    }
}

/// Returns whether no sliver is drawn on a row.
#[inline(always)]
#[tactic(auto, using(crate::proofs::Painted::empty))]
fn is_sliverless(p: &Ppu, row: u16, slivers: &ArrayVec<Sliver, 34>) -> bool
    requires slivers { slivers.now.items ≡ drawn_slivers p.now row }
    ensures { result ≡ true → drawn_slivers p.now row ≡ [] }
{
    slivers.is_empty()
}

/// Returns whether the objects may have anything on a row of either screen: there are slivers, and a screen shows
/// them.
#[inline(always)]
#[tactic(auto, using(crate::proofs::Painted::objectless, crate::proofs::Painted::unshown))]
pub fn are_objects_seen(p: &Ppu, row: u16, slivers: &ArrayVec<Sliver, 34>) -> bool
    requires slivers { slivers.now.items ≡ drawn_slivers p.now row }
    ensures main { (front : RankedPixel) → (x : ℕ) → result ≡ false → nearest front (main_pixel p.now row x 5) ≡ front }
    ensures sub { (front : RankedPixel) → (x : ℕ) → result ≡ false → nearest front (sub_pixel p.now row x 5) ≡ front }
{
    let screens = *p.registers().screens(5);
    !is_sliverless(p, row, slivers) && (screens.main || screens.sub)
}

/// Paints the objects.
#[inline(always)]
fn paint_objects(p: &Ppu, row: u16, slivers: &ArrayVec<Sliver, 34>, out: &mut RankedRow)
    requires row { row < 239 }
    requires slivers { slivers.now.items ≡ drawn_slivers p.now row }
    ensures { (x : ℕ) → x < 256 → ranked_pixel_at out.new x ≡ ranked_pixel_of p.now 5 (object_layer_dot p.now row x) }
{
    let r = p.registers();
    let first = base(r, 5, 0, false);
    let second = base(r, 5, 1, false);
    let third = base(r, 5, 2, false);
    let fourth = base(r, 5, 3, false);
    let bases = [first, second, third, fourth];
    paint_drawn(p, row, slivers, &bases, r.screens(5).arithmetic, out);
}

/// Lays the objects over both screens.
fn lay_objects(
    p: &Ppu,
    row: u16,
    slivers: &ArrayVec<Sliver, 34>,
    work: &mut RankedRow,
    main: &mut RankedRow,
    sub: &mut RankedRow,
)
    requires row { row < 239 }
    requires slivers { slivers.now.items ≡ drawn_slivers p.now row }
    ensures main { (x : ℕ) → x < 256 → ranked_pixel_at main.new x ≡
        nearest (ranked_pixel_at main.old x) (main_pixel p.now row x 5) }
    ensures sub { (x : ℕ) → x < 256 → ranked_pixel_at sub.new x ≡
        nearest (ranked_pixel_at sub.old x) (sub_pixel p.now row x 5) }
{
    paint_objects(p, row, slivers, work);
    lay_layer(p, 5, work, work, main, sub);
}

/// Adds the objects to both screens, if a screen shows them. `slivers` are the drawn slivers of the row.
pub fn add_objects(
    p: &Ppu,
    row: u16,
    slivers: &ArrayVec<Sliver, 34>,
    work: &mut RankedRow,
    main: &mut RankedRow,
    sub: &mut RankedRow,
)
    requires row { row < 239 }
    requires slivers { slivers.now.items ≡ drawn_slivers p.now row }
    ensures main { (x : ℕ) → x < 256 → ranked_pixel_at main.new x ≡
        nearest (ranked_pixel_at main.old x) (main_pixel p.now row x 5) }
    ensures sub { (x : ℕ) → x < 256 → ranked_pixel_at sub.new x ≡
        nearest (ranked_pixel_at sub.old x) (sub_pixel p.now row x 5) }
{
    if are_objects_seen(p, row, slivers) {
        lay_objects(p, row, slivers, work, main, sub);
    }
}
