//! The place of a pixel in the plane, in 256ths of a pixel: numbers modulo 2^32, a negative one as its complement.

ghost use Rattle.std.specs.Prelude.{◌≡◌, ℕ, ◌+◌, ◌*◌, ◌/◌, ◌%◌, ◌^◌, ◌<◌, ◌≤◌, if◌then◌else◌};
ghost use Rattle.ppu_regs.specs.Picture.{background_of};
ghost use Rattle.ppu_mode7.specs.Rotated.{signed_13, signed_16, clipped, line_start, place_at, distance, start_x};
ghost use Rattle.ppu_mode7.specs.Rotated.{start_y, blocked, turned, line_of};
ghost use Rattle.ppu_mode7.specs.Lines.{IsLine};

use ppu_regs::{Registers, Rotation};

#[inline(always)]
#[tactic(auto, unfolding(crate::specs::Rotated::signed_13))]
fn signed_thirteen(v: u16) -> u32
    ensures { result ≡ signed_13 v }
{
    let low = v as u32 % 8192;
    if low < 4096 { low } else { low + 4_294_959_104 }
}

#[inline(always)]
#[tactic(auto, unfolding(crate::specs::Rotated::signed_16))]
fn signed_sixteen(v: u16) -> u32
    ensures { result ≡ signed_16 v }
{
    let v = v as u32;
    if v < 32768 { v } else { v + 4_294_901_760 }
}

#[inline(always)]
#[tactic(auto, unfolding(crate::specs::Rotated::clipped))]
fn clip(n: u32) -> u32
    ensures { result ≡ clipped n }
{
    if n / 8192 % 2 == 1 {
        n % 1024 + 4_294_966_272
    } else {
        n % 1024
    }
}

#[inline(always)]
fn trim(n: u32) -> u32
    ensures { result ≡ n / 64 * 64 }
{
    n / 64 * 64
}

#[inline(always)]
#[tactic(auto, unfolding(crate::specs::Rotated::distance))]
fn distance_between(scroll: u16, centre: u16) -> u32
    ensures { result ≡ distance scroll centre }
{
    clip(signed_thirteen(scroll).wrapping_sub(signed_thirteen(centre)))
}

#[inline(always)]
#[tactic(auto, unfolding(crate::specs::Rotated::line_start))]
fn start_of_line(across: u32, along: u32, p: u32, q: u32, y: u32, centre: u32) -> u32
    ensures { result ≡ line_start across along p q y centre }
{
    let corner = trim(across.wrapping_mul(p)).wrapping_add(trim(along.wrapping_mul(q)));
    let line = trim(along.wrapping_mul(y)).wrapping_add(256u32.wrapping_mul(centre));
    corner.wrapping_add(line)
}

/// Returns the place of the column `x` of a line, across or down, in 256ths of a pixel modulo 2^32.
#[inline(always)]
#[tactic(auto, unfolding(crate::specs::Rotated::place_at))]
pub fn place(start: u32, across: u32, x: u32) -> u32
    ensures { result ≡ place_at start across x }
{
    start.wrapping_add(across.wrapping_mul(x))
}

/// Returns the place in the plane, across, at which a line begins.
#[tactic(auto, unfolding(crate::specs::Rotated::start_x))]
fn first_x(r: &Rotation, y: u32) -> u32
    ensures { result ≡ start_x r.now y }
{
    start_of_line(
        signed_sixteen(r.a),
        signed_sixteen(r.b),
        distance_between(r.scroll_x, r.center_x),
        distance_between(r.scroll_y, r.center_y),
        y,
        signed_thirteen(r.center_x),
    )
}

/// Returns the place in the plane, downwards, at which a line begins.
#[tactic(auto, unfolding(crate::specs::Rotated::start_y))]
fn first_y(r: &Rotation, y: u32) -> u32
    ensures { result ≡ start_y r.now y }
{
    start_of_line(
        signed_sixteen(r.c),
        signed_sixteen(r.d),
        distance_between(r.scroll_x, r.center_x),
        distance_between(r.scroll_y, r.center_y),
        y,
        signed_thirteen(r.center_y),
    )
}

#[inline(always)]
#[tactic(auto, unfolding(crate::specs::Rotated::blocked))]
fn block_of(is_on: bool, mosaic: u8, n: u32) -> u32
    ensures value { result ≡ blocked is_on mosaic n }
    ensures small { result ≤ n }
{
    if is_on {
        n - n % (mosaic as u32 + 1)
    } else {
        n
    }
}

#[inline(always)]
#[tactic(auto, unfolding(crate::specs::Rotated::turned))]
fn turn(is_flipped: bool, n: u32) -> u32
    requires { n ≤ 255 }
    ensures { result ≡ turned is_flipped n }
{
    if is_flipped { 255 - n } else { n }
}

/// Returns the line that a row shows.
#[tactic(auto, unfolding(crate::specs::Rotated::line_of))]
fn line_shown(r: &Registers, layer: u8, row: u16) -> u32
    requires { row < 239 }
    ensures { result ≡ line_of r.now layer row }
{
    let block = block_of(r.background(layer).mosaic, r.mosaic, row as u32);
    turn(r.rotation.flip_y, block + 1)
}

/// The numbers of a line that don't change along it, all modulo 2^32.
#[derive(Clone, Copy)]
pub struct Line {
    /// The place of its column 0 in the plane, across, in 256ths of a pixel.
    pub start_x: u32,
    /// The place of its column 0 in the plane, downwards, in 256ths of a pixel.
    pub start_y: u32,
    /// M7A, signed: the step across from one column to the next.
    pub a: u32,
    /// M7C, signed: the step downwards from one column to the next.
    pub c: u32,
}

/// Returns the line of a layer's row.
#[inline(always)]
pub fn line_at(r: &Registers, layer: u8, row: u16) -> Line
    requires { row < 239 }
    ensures { IsLine r.now layer row result }
{
    let y = line_shown(r, layer, row);
    Line {
        start_x: first_x(&r.rotation, y),
        start_y: first_y(&r.rotation, y),
        a: signed_sixteen(r.rotation.a),
        c: signed_sixteen(r.rotation.c),
    }
}
