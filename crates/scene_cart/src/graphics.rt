//! Paints tiles, maps and colours: a rule gives the colour of each pixel of a picture.

ghost use Rattle.std.specs.Prelude.{◌≤◌};

use crate::image::{COLOURS, Image, VIDEO};

/// The row of tiles where the lake begins: there a background's palette is the next one.
pub const SHORE: u8 = 21;

/// A background: a picture of 32 tiles across, side by side in a map.
#[derive(Clone, Copy)]
pub struct Layer {
    /// The word of VRAM where its map begins.
    pub map: u16,
    /// The number of its screens of 32 by 32 tiles.
    pub screens: u8,
    /// The word of VRAM where its tiles begin.
    pub word: u16,
    /// The number of its first tile, which is shown above and below it too.
    pub tile: u16,
    /// The pairs of bit planes in each tile.
    pub pairs: u8,
    /// Its first row of tiles.
    pub top: u8,
    /// Its height in rows of tiles.
    pub down: u8,
    /// The number of its palette.
    pub palette: u8,
}

/// Paints tiles from a word of VRAM on, row after row: the rule gives the colour at an x and a y.
pub fn paint<F: Fn(u8, u8) -> u8>(
    image: &mut Image,
    word: u16,
    pairs: u8,
    across: u8,
    down: u8,
    rule: F,
)
    requires { F.IsAlwaysCallable rule }
{
    for tile_y in 0..down {
        for tile_x in 0..across {
            let tile = u32::from(tile_y) * u32::from(across) + u32::from(tile_x);
            for y in 0..8u8 {
                let line = 2 * u32::from(word) + 16 * u32::from(pairs) * tile + 2 * u32::from(y);
                for x in 0..8u8 {
                    let (left, top) = (tile_x.wrapping_mul(8), tile_y.wrapping_mul(8));
                    let colour = rule(left.wrapping_add(x), top.wrapping_add(y));
                    plot(image, line, x, colour);
                }
            }
        }
    }
}

/// Sets the bits of a colour at the pixel x of a tile's line: planes come in pairs of neighbours.
fn plot(image: &mut Image, line: u32, x: u8, colour: u8) {
    let mut rest = colour;
    for plane in [0, 1, 16, 17] {
        if rest % 2 == 1 {
            image.set_bits(
                VIDEO.saturating_add(line).saturating_add(plane),
                0x80 >> (x % 8),
            );
        }
        rest /= 2;
    }
}

/// Paints a background, and fills its map.
pub fn put_layer<F: Fn(u8, u8) -> u8>(image: &mut Image, layer: &Layer, rule: F)
    requires { F.IsAlwaysCallable rule }
{
    paint(image, layer.word, layer.pairs, 32, layer.down, rule);
    for screen in 0..layer.screens {
        for row in 0..32u8 {
            for column in 0..32u8 {
                let entry = 0x400 * u32::from(screen) + 32 * u32::from(row) + u32::from(column);
                let at = VIDEO + 2 * (u32::from(layer.map) + entry);
                image.put_word(at, entry_at(layer, row, column));
            }
        }
    }
}

/// Returns an entry of a map: ten bits of tile, three of palette.
fn entry_at(layer: &Layer, row: u8, column: u8) -> u16 {
    let palette = u16::from(layer.palette % 8) + u16::from(row >= SHORE);
    let inside = row.wrapping_sub(layer.top);
    let further = if inside < layer.down {
        32 * u16::from(inside) + u16::from(column)
    } else {
        0
    };
    (layer.tile % 0x400 + further) % 0x400 + 0x400 * palette
}

/// Puts colours one after another into CGRAM.
pub fn put_colours(image: &mut Image, first: u8, colours: &[u32]) {
    let mut number = first;
    for colour in colours {
        image.put_word(COLOURS + 2 * u32::from(number), dots(*colour));
        number = number.wrapping_add(1);
    }
}

/// Returns the 15 bits of a colour RRGGBB.
pub fn dots(colour: u32) -> u16 {
    let (red, green, blue) = (colour / 0x8_0000 % 32, colour / 0x800 % 32, colour / 8 % 32);
    (red + 32 * green + 1024 * blue) as u16
}

/// Blends two colours RRGGBB: `part` parts of 64 of the second, and the rest of the first.
pub fn blend(from: u32, to: u32, part: u32) -> u32
    requires { part ≤ 64 }
{
    let mut sum = 0u32;
    for unit in [0x1_0000, 0x100, 1] {
        let (a, b) = (from / unit % 256, to / unit % 256);
        let mixed = a.wrapping_mul(64 - part).wrapping_add(b.wrapping_mul(part)) / 64;
        sum = sum.wrapping_add(mixed.wrapping_mul(unit));
    }
    sum
}
