//! The last step of a row: from the pixels in front on both screens to the 512 dots.

ghost use Rattle.std.specs.Prelude.{◌≡◌, ℕ, ◌+◌, ◌*◌, ◌<◌, true, false, IfSome, length, slice_index, if◌then◌else◌};
ghost use Rattle.ppu_regs.specs.declared.registers.WindowPart.TheVariants.{Never};
ghost use Rattle.scanline_ops.specs.RankedPixels.{no_pixel, is_named, is_found};
ghost use Rattle.scanline_ops.specs.Colours.{dimmed};
ghost use Rattle.color_window.specs.Windows.{is_inside};
ghost use Rattle.color_window.specs.Mixing.{is_mixed};
ghost use Rattle.ppu_screens.specs.Screens.{ranked_pixel_at, has_direct, front_pixel_colour, main_colour, empty_colour};
ghost use Rattle.ppu_screens.specs.Screens.{sub_colour, is_halved, backdrop, even_dot, odd_dot};

use crate::order::rank;
use color_window::{fixed, mark_mixed, mix_marked, mix_row};
use ppu_regs::{Ppu, RankedRow, Registers, WindowPart};
use scanline_ops::{
    any_named, dim_colour, dim_small_row, fill_dots, is_found_key, look_up_direct, write_dots,
    write_twice,
};
use snes_defs::Profile;

#[inline(always)]
#[tactic(auto, unfolding(crate::specs::Screens::has_direct))]
fn direct(r: &Registers) -> bool
    ensures { result ≡ has_direct r.now }
{
    r.colour.direct && (r.mode == 3 || r.mode == 4 || r.mode == 7)
}

/// Looks up the colours of the pixels in front in CGRAM, sixteen at a time, so that little is spent on counting them.
/// Direct colours have a loop of their own.
#[tactic(auto, unfolding(crate::specs::Screens::front_pixel_colour, scanline_ops::specs::Colours::pixel_colour))]
fn front_colours(p: &Ppu, front: &RankedRow, out: &mut [u16; 256])
    ensures { (x : ℕ) → x < 256 → slice_index out.new x ≡ front_pixel_colour p.now (ranked_pixel_at front.now x) }
{
    let r = p.registers();
    let cgram = p.cgram();
    if direct(r) {
        let low = rank(r, 1, 0);
        let high = rank(r, 1, 1);
        look_up_direct(cgram, low, high, &front.ranks, &front.numbers, out);
        return;
    }
    for group in 0..16usize {
        for place in 0..16usize {
            let x = 16 * group + place;
            out[x] = cgram[front.numbers[x] as usize];
        }
    }
}

/// Looks up the colours in front on the sub screen, if 2130 asks for them.
#[inline(always)]
fn asked_colours(p: &Ppu, sub: &RankedRow, out: &mut [u16; 256])
    ensures { p.now.registers.colour.sub_screen ≡ true → (x : ℕ) → x < 256
        → slice_index out.new x ≡ front_pixel_colour p.now (ranked_pixel_at sub.now x) }
{
    if p.registers().colour.sub_screen {
        front_colours(p, sub, out);
    }
}

#[inline(always)]
fn is_never(part: WindowPart) -> bool
    ensures { result ≡ true → part ≡ Never }
{
    match part {
        WindowPart::Never => true,
        _ => false,
    }
}

/// Mixes the main screen's colours wherever it is black or mixed. The sub screen's colours count only if 2130 asks for
/// them.
#[tactic(auto, unfolding(crate::specs::Screens::main_colour), using(crate::proofs::Mixes::apart))]
fn mix_everywhere(p: &Ppu, main: &RankedRow, sub: &RankedRow, colours: &mut [u16; 256])
    requires { (x : ℕ) → x < 256 → slice_index colours.old x ≡ front_pixel_colour p.now (ranked_pixel_at main.now x) }
    ensures { (x : ℕ) → x < 256 → slice_index colours.new x ≡
        main_colour p.now x (ranked_pixel_at main.now x) (ranked_pixel_at sub.now x) }
{
    let mut subs = [0u16; 256];
    asked_colours(p, sub, &mut subs);
    mix_row(p, &main.ranks, colours, &sub.ranks, &subs);
}

/// Mixes the main screen's colours at the marked pixels, if it is black nowhere.
#[tactic(auto, unfolding(crate::specs::Screens::main_colour), using(crate::proofs::Mixes::apart))]
fn mix_at_marks(
    p: &Ppu,
    main: &RankedRow,
    sub: &RankedRow,
    marks: &[u8; 256],
    colours: &mut [u16; 256],
)
    requires front { (x : ℕ) → x < 256 → slice_index colours.old x ≡
        front_pixel_colour p.now (ranked_pixel_at main.now x) }
    requires black { p.now.registers.colour.black ≡ Never }
    requires marks { (x : ℕ) → x < 256 → slice_index marks.now x ≡
        (if is_mixed p.now.registers.colour (is_inside p.now.registers 6 x) (is_named (slice_index main.now.ranks x))
        then 1 else 0) }
    ensures { (x : ℕ) → x < 256 → slice_index colours.new x ≡
        main_colour p.now x (ranked_pixel_at main.now x) (ranked_pixel_at sub.now x) }
{
    let mut subs = [0u16; 256];
    asked_colours(p, sub, &mut subs);
    mix_marked(p, marks, colours, &sub.ranks, &subs);
}

/// Mixes the main screen's colours, if it is black nowhere. The colour window says where arithmetic is done.
#[tactic(auto, unfolding(crate::specs::Screens::main_colour), using(crate::proofs::Mixes::unmixed))]
fn mix_by_window(p: &Ppu, main: &RankedRow, sub: &RankedRow, colours: &mut [u16; 256])
    requires front { (x : ℕ) → x < 256 → slice_index colours.old x ≡
        front_pixel_colour p.now (ranked_pixel_at main.now x) }
    requires black { p.now.registers.colour.black ≡ Never }
    ensures { (x : ℕ) → x < 256 → slice_index colours.new x ≡
        main_colour p.now x (ranked_pixel_at main.now x) (ranked_pixel_at sub.now x) }
{
    let mut marks = [0u8; 256];
    if mark_mixed(p, &main.ranks, &mut marks) {
        mix_at_marks(p, main, sub, &marks, colours);
    }
}

/// Makes of the colours in front the main screen's colours before brightness. They stay as they are if the screen is
/// black nowhere and arithmetic is done nowhere.
#[tactic(auto, unfolding(crate::specs::Screens::main_colour), using(crate::proofs::Mixes::unnamed))]
fn mix(p: &Ppu, main: &RankedRow, sub: &RankedRow, colours: &mut [u16; 256])
    requires { (x : ℕ) → x < 256 → slice_index colours.old x ≡ front_pixel_colour p.now (ranked_pixel_at main.now x) }
    ensures { (x : ℕ) → x < 256 → slice_index colours.new x ≡
        main_colour p.now x (ranked_pixel_at main.now x) (ranked_pixel_at sub.now x) }
{
    let colour = &p.registers().colour;
    if !is_never(colour.black) {
        mix_everywhere(p, main, sub, colours);
    } else if !is_never(colour.none) {
        mix_by_window(p, main, sub, colours);
    } else if any_named(&main.ranks) {
        mix_everywhere(p, main, sub, colours);
    }
}

/// Returns the colour of the even dots where no layer stands on the sub screen.
#[inline(always)]
#[tactic(auto, unfolding(crate::specs::Screens::empty_colour))]
fn empty(p: &Ppu) -> u16
    ensures { result ≡ empty_colour p.now.registers.profile p.now }
{
    match p.registers().profile {
        Profile::First => fixed(p),
        Profile::Second => p.cgram()[0],
    }
}

#[inline(always)]
#[tactic(auto, unfolding(crate::specs::Screens::sub_colour))]
fn or_empty(p: &Ppu, empty: u16, key: u8, number: u8, colour: u16) -> u16
    requires empty { empty ≡ empty_colour p.now.registers.profile p.now }
    requires colour { colour ≡ front_pixel_colour p.now (record { key = key; number = number }) }
    ensures { result ≡ sub_colour p.now (record { key = key; number = number }) }
{
    if is_found_key(key) { colour } else { empty }
}

/// Writes the sub screen's colours, for the even dots.
fn sub_colours(p: &Ppu, sub: &RankedRow, subs: &[u16; 256], out: &mut [u16; 256])
    requires { (x : ℕ) → x < 256 → slice_index subs.now x ≡ front_pixel_colour p.now (ranked_pixel_at sub.now x) }
    ensures { (x : ℕ) → x < 256 → slice_index out.new x ≡ sub_colour p.now (ranked_pixel_at sub.now x) }
{
    let empty = empty(p);
    for x in 0..256usize {
        out[x] = or_empty(p, empty, sub.ranks[x], sub.numbers[x], subs[x]);
    }
}

#[inline(always)]
#[tactic(auto, unfolding(crate::specs::Screens::is_halved))]
fn halved(r: &Registers) -> bool
    ensures { result ≡ is_halved r.now }
{
    r.settings.half_dots || r.mode == 5 || r.mode == 6
}

/// Writes the dots of a row whose even dots are the sub screen's.
#[tactic(auto, unfolding(crate::specs::Screens::even_dot, crate::specs::Screens::odd_dot), using(crate::proofs::Small::both_small))]
fn finish_halved(p: &Ppu, main: &RankedRow, sub: &RankedRow, out: &mut [u16])
    requires room { length out.old ≡ 512 }
    requires shown { p.now.registers.display.blanked ≡ false }
    requires halved { is_halved p.now.registers ≡ true }
    ensures even { (x : ℕ) → x < 256 → slice_index out.new (2 * x) ≡
        even_dot p.now x (ranked_pixel_at main.now x) (ranked_pixel_at sub.now x) }
    ensures odd { (x : ℕ) → x < 256 → slice_index out.new (2 * x + 1) ≡
        odd_dot p.now x (ranked_pixel_at main.now x) (ranked_pixel_at sub.now x) }
{
    p.in_range();
    let brightness = p.registers().display.brightness;
    let mut odd = [0u16; 256];
    front_colours(p, main, &mut odd);
    mix(p, main, sub, &mut odd);
    dim_small_row(brightness, &mut odd);
    let mut subs = [0u16; 256];
    front_colours(p, sub, &mut subs);
    let mut even = [0u16; 256];
    sub_colours(p, sub, &subs, &mut even);
    dim_small_row(brightness, &mut even);
    write_dots(&even, &odd, out);
}

/// Returns the colour of all dots of a row on which no layer has anything.
///
/// None if the dots may differ, or may not have the backdrop's colour. That is with half dots, if arithmetic takes
/// the backdrop, and if the main screen may be black.
#[tactic(auto, using(crate::proofs::Mixes::bare))]
pub fn backdrop_colour(p: &Ppu) -> Option<u16>
    requires shown { p.now.registers.display.blanked ≡ false }
    ensures even { IfSome result (λ c. (x : ℕ) → even_dot p.now x (backdrop p.now.registers) no_pixel ≡ c) }
    ensures odd { IfSome result (λ c. (x : ℕ) → odd_dot p.now x (backdrop p.now.registers) no_pixel ≡ c) }
{
    p.in_range();
    let r = p.registers();
    if !halved(r) && !r.colour.backdrop && is_never(r.colour.black) {
        Some(dim_colour(r.display.brightness, p.cgram()[0]))
    } else {
        None
    }
}

/// Writes the row's 512 dots from the pixels in front on the main and on the sub screen. Dots 2x and 2x + 1 are those
/// of the pixel x.
#[tactic(auto, unfolding(crate::specs::Screens::even_dot, crate::specs::Screens::odd_dot), using(crate::proofs::Small::main_small))]
pub fn finish(p: &Ppu, main: &RankedRow, sub: &RankedRow, out: &mut [u16])
    requires { length out.old ≡ 512 }
    ensures even { (x : ℕ) → x < 256 → slice_index out.new (2 * x) ≡
        even_dot p.now x (ranked_pixel_at main.now x) (ranked_pixel_at sub.now x) }
    ensures odd { (x : ℕ) → x < 256 → slice_index out.new (2 * x + 1) ≡
        odd_dot p.now x (ranked_pixel_at main.now x) (ranked_pixel_at sub.now x) }
{
    p.in_range();
    let r = p.registers();
    if r.display.blanked {
        fill_dots(0, out);
    } else if halved(r) {
        finish_halved(p, main, sub, out);
    } else {
        let mut row = [0u16; 256];
        front_colours(p, main, &mut row);
        mix(p, main, sub, &mut row);
        dim_small_row(r.display.brightness, &mut row);
        write_twice(&row, out);
    }
}
