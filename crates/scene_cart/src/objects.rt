//! Makes the objects: the pictures, starts and paths of four letters, a snake of balls, and glints on the lake.

use crate::graphics::{blend, paint, put_colours};
use crate::image::{Image, OBJECTS, PATHS};
use crate::landscape::square;

/// The number of the first ball; the letters come before.
pub const BALLS: u8 = 4;

/// The number of the first glint; there are 128 objects in all.
pub const GLINTS: u8 = 68;

/// The tables of the paths, in their order: a byte for each angle.
#[derive(Clone, Copy)]
pub enum Table {
    BallX,
    BallY,
    BallFront,
    LetterY,
    GlintX,
    Wave,
}

/// The letters S, N, E and S: eight lines of eight bits each.
static FONT: [[u8; 8]; 4] = [
    [0x00, 0x3e, 0x60, 0x3c, 0x06, 0x06, 0x7c, 0x00],
    [0x00, 0x66, 0x76, 0x76, 0x6e, 0x6e, 0x66, 0x00],
    [0x00, 0x7e, 0x60, 0x7c, 0x60, 0x60, 0x7e, 0x00],
    [0x00, 0x3e, 0x60, 0x3c, 0x06, 0x06, 0x7c, 0x00],
];

/// Colours RRGGBB of the six kinds of balls.
static BALL_COLOURS: [u32; 6] = [0xf84040, 0xf8a020, 0xe0f030, 0x40e050, 0x30a0f8, 0xb050f8];

/// Whether a letter covers a pixel of its 32 by 32, each bit being 4 by 4.
fn covers(letter: &[u8; 8], x: u8, y: u8) -> bool {
    x < 32 && letter[usize::from(y / 4 % 8)] >> (7 - x / 4) & 1 == 1
}

/// Returns a letter's pixel: bright and dark edges, bands of gold between them, and a shadow.
fn letter(letter: &[u8; 8], x: u8, y: u8) -> u8 {
    let (left, right) = (x.wrapping_sub(1), x.wrapping_add(1));
    let (above, below) = (y.wrapping_sub(1), y.wrapping_add(1));
    if covers(letter, x, y) {
        if !covers(letter, left, y) || !covers(letter, x, above) {
            return 15;
        }
        if !covers(letter, right, y) || !covers(letter, x, below) {
            return 14;
        }
        return 2 + y % 32 / 3;
    }
    let is_edge = covers(letter, left, above)
        || covers(letter, right, y)
        || covers(letter, x, below);
    let is_shadow = covers(letter, x.wrapping_sub(2), y.wrapping_sub(2)) || covers(letter, left, y);
    u8::from(is_edge || is_shadow || covers(letter, x, above))
}

/// Returns a ball's pixel of 16 by 16: lit from the upper left.
fn ball(x: u8, y: u8) -> u8 {
    let (x, y) = (2 * (x % 16), 2 * (y % 16));
    if square(x.abs_diff(15)) + square(y.abs_diff(15)) > 225 {
        return 0;
    }
    let far = square(x.abs_diff(10)) + square(y.abs_diff(9));
    1 + (far / 30).min(13) as u8
}

/// Returns a glint's pixel of 16 by 16: a short stroke.
fn glint(x: u8, y: u8) -> u8 {
    match (y % 16, (2 * (x % 16)).abs_diff(15)) {
        (7, 0..=5) => 1,
        (7, 6..=9) => 2,
        (6 | 8, 0..=3) => 3,
        _ => 0,
    }
}

/// Returns a pixel of the pictures of all objects, sixteen tiles across: the letters, and below them a ball and a
/// glint.
fn pictures(x: u8, y: u8) -> u8 {
    match (x / 16, y / 16) {
        (_, 0 | 1) => letter(&FONT[usize::from(x / 32 % 4)], x % 32, y),
        (0, 2) => ball(x, y),
        (1, 2) => glint(x, y),
        _ => 0,
    }
}

/// Returns the four bytes of an object as it starts: x, y, tile, and palette with priority.
fn object(number: u8) -> [u8; 4] {
    if number < BALLS {
        return [54 + 38 * number, 14, 4 * number, 0x30];
    }
    if number < GLINTS {
        return [0, 0, 0x40, 0x20 + 2 * (1 + number / 4 % 6)];
    }
    let row = number % 64;
    [0, 160 + row % 20 * 5 / 2 + row / 20, 0x42, 0x3e]
}

/// Returns a wave of parabolas around a middle: highest at the angle 64, lowest at 192.
fn swing(angle: u8, middle: u8, most: u8) -> u8 {
    let high = 64u32.saturating_sub(square((angle % 128).abs_diff(64)) / 64) as u8;
    let reach = (u32::from(high) * u32::from(most) / 64) as u8;
    if angle < 128 {
        middle.saturating_add(reach)
    } else {
        middle.saturating_sub(reach)
    }
}

/// Puts the table of a path.
fn put_path<F: Fn(u8) -> u8>(image: &mut Image, table: Table, rule: F)
    requires { F.IsAlwaysCallable rule }
{
    for angle in 0..=255u8 {
        let at = PATHS + 256 * table as u32 + u32::from(angle);
        image.put(at, &[rule(angle)]);
    }
}

/// Puts the colours of palettes 0 (letters), 1 to 6 (balls) and 7 (glints).
fn put_object_colours(image: &mut Image) {
    put_colours(image, 129, &[0x180830]);
    for band in 0..12u8 {
        put_colours(
            image,
            130 + band,
            &[blend(0xf8f078, 0xf84018, 5 * u32::from(band))],
        );
    }
    put_colours(image, 142, &[0x882018, 0xf8f8d8]);
    let mut first = 145u8;
    for colour in BALL_COLOURS {
        put_colours(image, first, &[0xf8f8f8]);
        for shade in 1..14u8 {
            let dark = blend(colour, 0x080010, 4 * u32::from(shade));
            put_colours(image, first.wrapping_add(shade), &[dark]);
        }
        first = first.wrapping_add(16);
    }
    put_colours(image, 241, &[0xf8f8e0, 0xf8d080, 0xf0a060]);
}

/// Puts all that the objects need.
pub fn put_objects(image: &mut Image) {
    paint(image, 0x6000, 2, 16, 6, pictures);
    put_object_colours(image);
    for number in 0..128u8 {
        image.put(OBJECTS + 4 * u32::from(number), &object(number));
    }
    // Two bits for each object: the letters are large.
    image.put(OBJECTS + 512, &[0xaa]);
    put_path(image, Table::BallX, |angle| swing(angle, 120, 112));
    put_path(image, Table::BallY, |angle| swing(angle, 104, 44));
    put_path(
        image,
        Table::BallFront,
        |angle| if angle.wrapping_add(64) < 128 {
            0x20
        } else {
            0x10
        },
    );
    put_path(image, Table::LetterY, |angle| swing(angle, 16, 6));
    put_path(
        image,
        Table::GlintX,
        |angle| 88 + angle.min(255 - angle) / 2,
    );
    put_path(image, Table::Wave, |angle| swing(angle, 8, 6));
}
