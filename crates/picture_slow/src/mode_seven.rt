//! Draws one dot of the rotated plane of mode 7.

ghost use Rattle.std.specs.Prelude.{◌≡◌, ◌<◌, ◌≤◌};

use crate::background::block_start;
use crate::memory::{Seen, direct_colour, palette_colour, word};
use ppu_regs::{Outside, Ppu};

/// Returns the low `bits` bits of a register as a signed number.
fn signed(register: u16, bits: u32) -> i64
    requires { bits ≤ 16 }
{
    let whole = 1i64 << bits;
    let number = (register as i64).rem_euclid(whole);
    if 2 * number >= whole {
        number.wrapping_sub(whole)
    } else {
        number
    }
}

/// Returns a distance cut to ten bits, negative if it was.
fn clipped(distance: i64) -> i64 {
    let low = distance.rem_euclid(1024);
    if distance < 0 {
        low.wrapping_sub(1024)
    } else {
        low
    }
}

/// Returns a product without its low six bits.
fn coarse(one: i64, other: i64) -> i64 {
    one.wrapping_mul(other).div_euclid(64).wrapping_mul(64)
}

/// Returns one coordinate of the plane; `along` and `across` are its row of the matrix.
fn coordinate(along: i64, across: i64, centre: i64, p: i64, q: i64, x: i64, y: i64) -> i64 {
    let start = coarse(along, p)
        .wrapping_add(coarse(across, q))
        .wrapping_add(coarse(across, y))
        .wrapping_add(centre.wrapping_mul(256));
    start.wrapping_add(along.wrapping_mul(x)).div_euclid(256)
}

/// Returns the byte of the plane at a position, which may be outside of it.
fn plane_byte(p: &Ppu, x: i64, y: i64) -> u8 {
    let inside = x >= 0 && x < 1024 && y >= 0 && y < 1024;
    let in_x = x.rem_euclid(1024) as u32;
    let in_y = y.rem_euclid(1024) as u32;
    let by_map = word(p, 128 * (in_y / 8) + in_x / 8) % 256;
    let tile = match p.registers().rotation.outside {
        Outside::Wrap => by_map,
        Outside::Nothing => {
            if !inside {
                return 0;
            }
            by_map
        }
        Outside::TileZero => { if inside { by_map } else { 0 } }
    };
    (word(p, 64 * tile + in_y % 8 * 8 + in_x % 8) / 256) as u8
}

/// Returns the byte of the plane at a pixel of a row; a layer's mosaic comes before the flips.
fn byte_at(p: &Ppu, with_mosaic: bool, row: u16, x: u32) -> u8
    requires row { row < 239 }
    requires x { x < 256 }
{
    let r = p.registers();
    let m = &r.rotation;
    let mut column = block_start(with_mosaic, r.mosaic, x);
    let mut line = block_start(with_mosaic, r.mosaic, row as u32) + 1;
    if m.flip_x {
        column = 255 - column;
    }
    if m.flip_y {
        line = 255 - line;
    }
    let centre_x = signed(m.center_x, 13);
    let centre_y = signed(m.center_y, 13);
    let from_x = clipped(signed(m.scroll_x, 13).wrapping_sub(centre_x));
    let from_y = clipped(signed(m.scroll_y, 13).wrapping_sub(centre_y));
    let (a, b) = (signed(m.a, 16), signed(m.b, 16));
    let (c, d) = (signed(m.c, 16), signed(m.d, 16));
    let plane_x = coordinate(a, b, centre_x, from_x, from_y, column as i64, line as i64);
    let plane_y = coordinate(c, d, centre_y, from_x, from_y, column as i64, line as i64);
    plane_byte(p, plane_x, plane_y)
}

/// Returns what BG1 shows at a pixel of a row: the whole byte.
pub fn first_layer_at(p: &Ppu, row: u16, x: u32) -> Option<Seen>
    requires row { row < 239 }
    requires x { x < 256 }
{
    let r = p.registers();
    let value = byte_at(p, r.bg1.mosaic, row, x);
    if value == 0 {
        return None;
    }
    Some(Seen {
        colour: if r.colour.direct {
            direct_colour(value, 0)
        } else {
            palette_colour(p, value)
        },
        priority: 0,
        in_arithmetic: true,
    })
}

/// Returns what the second layer of EXTBG shows: a value of seven bits. The eighth bit is its priority.
pub fn second_layer_at(p: &Ppu, row: u16, x: u32) -> Option<Seen>
    requires row { row < 239 }
    requires x { x < 256 }
{
    let value = byte_at(p, p.registers().bg2.mosaic, row, x);
    if value % 128 == 0 {
        return None;
    }
    Some(Seen {
        colour: palette_colour(p, value % 128),
        priority: value / 128,
        in_arithmetic: true,
    })
}
