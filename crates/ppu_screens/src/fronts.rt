//! The pixels in front on the main and on the sub screen.

ghost use Rattle.std.specs.Prelude.{◌≡◌, ℕ, ◌<◌, ◌≤◌, true, false, slice_index};
ghost use Rattle.scanline_ops.specs.RankedPixels.{no_pixel, nearest};
ghost use Rattle.color_window.specs.Windows.{is_inside};
ghost use Rattle.ppu_screens.specs.Screens.{ranked_pixel_at, standing, on_main, on_sub, backdrop};

use color_window::mask_row;
use ppu_regs::{Ppu, RankedRow};
use scanline_ops::{fill_row, lay, lay_unmasked};

#[inline(always)]
#[tactic(auto, using(crate::proofs::FrontLemmas::ranked_pixels))]
fn fill(key: u8, planes: &mut RankedRow)
    ensures { (x : ℕ) → x < 256 → ranked_pixel_at planes.new x ≡ record { key = key; number = 0 } }
{
    fill_row(key, &mut planes.ranks);
    fill_row(0, &mut planes.numbers);
}

/// Begins a row with the backdrop on the main screen and nothing on the sub screen.
#[tactic(auto, unfolding(crate::specs::Screens::backdrop))]
pub fn start(p: &Ppu, main: &mut RankedRow, sub: &mut RankedRow)
    ensures main { (x : ℕ) → x < 256 → ranked_pixel_at main.new x ≡ backdrop p.now.registers }
    ensures sub { (x : ℕ) → x < 256 → ranked_pixel_at sub.new x ≡ no_pixel }
{
    let key = if p.registers().colour.backdrop { 8 } else { 0 };
    fill(key, main);
    fill(0, sub);
}

/// Returns whether a layer has anything on a row, by its keys.
fn is_any_there(keys: &[u8; 256]) -> bool
    ensures { (x : ℕ) → x < 256 → result ≡ false → slice_index keys.now x ≡ 0 }
{
    let mut most = 0u8;
    for x in 0..256usize {
        most = keys[x].max(most);
    }
    most != 0
}

/// Lays a layer over a screen, if it is on there and has anything on the row. With `masked` its windows hide it.
#[tactic(auto, using(crate::proofs::FrontLemmas::over))]
fn lay_over(p: &Ppu, layer: u8, on: bool, masked: bool, row: &RankedRow, front: &mut RankedRow)
    requires first { 1 ≤ layer }
    requires last { layer ≤ 5 }
    ensures { (x : ℕ) → x < 256 → ranked_pixel_at front.new x ≡ nearest (ranked_pixel_at front.old x)
        (standing on masked (is_inside p.now.registers layer x) (ranked_pixel_at row.now x)) }
{
    if !on {
        return;
    }
    if !is_any_there(&row.ranks) {
        return;
    }
    if masked {
        let mut hidden = [0u8; 256];
        mask_row(p, layer, &mut hidden);
        lay(
            &row.ranks,
            &row.numbers,
            &hidden,
            &mut front.ranks,
            &mut front.numbers,
        );
    } else {
        lay_unmasked(
            &row.ranks,
            &row.numbers,
            &mut front.ranks,
            &mut front.numbers,
        );
    }
}

/// Lays a layer (1 to 4 for BG1 to BG4, 5 for the objects) over both screens, where it is on and not masked. At each
/// pixel the nearer to the front stays.
///
/// The even dots go to the sub screen and the odd ones to the main screen. They differ in modes 5 and 6 alone.
#[tactic(auto, unfolding(crate::specs::Screens::on_main, crate::specs::Screens::on_sub))]
pub fn lay_layer(
    p: &Ppu,
    layer: u8,
    odd_dots: &RankedRow,
    even_dots: &RankedRow,
    main: &mut RankedRow,
    sub: &mut RankedRow,
)
    requires first { 1 ≤ layer }
    requires last { layer ≤ 5 }
    ensures main { (x : ℕ) → x < 256 → ranked_pixel_at main.new x ≡
        nearest (ranked_pixel_at main.old x) (on_main p.now.registers layer x (ranked_pixel_at odd_dots.now x)) }
    ensures sub { (x : ℕ) → x < 256 → ranked_pixel_at sub.new x ≡
        nearest (ranked_pixel_at sub.old x) (on_sub p.now.registers layer x (ranked_pixel_at even_dots.now x)) }
{
    let screens = *p.registers().screens(layer);
    lay_over(p, layer, screens.main, screens.main_masked, odd_dots, main);
    lay_over(p, layer, screens.sub, screens.sub_masked, even_dots, sub);
}
