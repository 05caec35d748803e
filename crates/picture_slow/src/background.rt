//! Draws one dot of a background of the modes 0 to 6.

ghost use Rattle.std.specs.Prelude.{◌≡◌, ◌<◌, ◌≤◌};

use crate::memory::{Seen, direct_colour, palette_colour, tile_pixel, word};
use ppu_regs::{Background, Ppu, Registers};

/// The bits of a pixel of BG1 to BG4 in the modes 0 to 6. 0: the mode lacks the layer.
const DEPTHS: [[u8; 4]; 7] = [
    [2, 2, 2, 2],
    [4, 4, 2, 0],
    [4, 4, 0, 0],
    [8, 4, 0, 0],
    [8, 2, 0, 0],
    [4, 2, 0, 0],
    [4, 0, 0, 0],
];

/// Returns the depth of a layer in bits, 0 if the mode lacks the layer.
fn depth_of(mode: u8, layer: u8) -> u8 {
    if mode < 7 && layer >= 1 && layer <= 4 {
        DEPTHS[mode as usize][(layer - 1) as usize]
    } else {
        0
    }
}

/// Returns the registers of BG1 to BG4.
fn registers_of(r: &Registers, layer: u8) -> &Background {
    match layer {
        1 => &r.bg1,
        2 => &r.bg2,
        3 => &r.bg3,
        _ => &r.bg4,
    }
}

/// The position of a dot in the plane of a layer, in pixels of that plane, and the size of the map's tiles.
#[derive(Clone, Copy)]
struct Spot {
    x: u32,
    y: u32,
    tile_width: u32,
    tile_height: u32,
}

/// Returns the entry of the map under a spot. The map is one screen of 32 by 32 entries, or two, or four.
fn entry_at(p: &Ppu, b: &Background, spot: Spot) -> u32
    requires width { 8 ≤ spot.tile_width }
    requires height { 8 ≤ spot.tile_height }
    ensures { result < 65536 }
{
    let column = spot.x / spot.tile_width;
    let line = spot.y / spot.tile_height;
    let right = if b.wide { column / 32 % 2 } else { 0 };
    let below = if b.tall { line / 32 % 2 } else { 0 };
    let screen = if b.wide { right + 2 * below } else { below };
    word(
        p,
        b.map_base as u32 + 0x400 * screen + 32 * (line % 32) + column % 32,
    )
}

/// Returns the first number of the mosaic block of n if mosaic is on, else n.
pub fn block_start(on: bool, size: u8, n: u32) -> u32
    ensures { result ≤ n }
{
    if on { n - n % (size as u32 + 1) } else { n }
}

/// Returns how far a layer is scrolled at pixel `x`, across and down. Its own scroll says so, or in the modes 2, 4 and
/// 6 the entries of BG3's map. There is one entry for every eight pixels from the second on.
fn moved_by(p: &Ppu, layer: u8, x: u32) -> (u32, u32)
    requires { x < 256 }
    ensures across { result.0 < 1024 }
    ensures down { result.1 < 1024 }
{
    let r = p.registers();
    let own = registers_of(r, layer);
    let across = own.scroll_x as u32 % 1024;
    let down = own.scroll_y as u32 % 1024;
    let column = (x + across % 8) / 8;
    let has_offsets = r.mode == 2 || r.mode == 4 || r.mode == 6;
    if !has_offsets || layer > 2 || column == 0 {
        return (across, down);
    }
    let of_first = Spot {
        x: 8 * (column - 1) + r.bg3.scroll_x as u32 % 1024 / 8 * 8,
        y: r.bg3.scroll_y as u32 % 1024,
        tile_width: if r.mode == 6 || r.bg3.large { 16 } else { 8 },
        tile_height: if r.bg3.large { 16 } else { 8 },
    };
    let first = entry_at(p, &r.bg3, of_first);
    let mut second = first;
    if r.mode != 4 {
        let mut of_second = of_first;
        of_second.y += 8;
        second = entry_at(p, &r.bg3, of_second);
    }
    // The bit that says that an entry is for this layer, and in mode 4 the one that says for which direction.
    let mine = 12 + layer as u32;
    let first_acts = mine < 16 && first >> mine & 1 == 1;
    let second_acts = mine < 16 && second >> mine & 1 == 1;
    let is_down = r.mode == 4 && first / 0x8000 == 1;
    let takes_across = first_acts && !is_down;
    let takes_down = if r.mode == 4 {
        first_acts && is_down
    } else {
        second_acts
    };
    (
        if takes_across {
            first % 1024 / 8 * 8 + across % 8
        } else {
            across
        },
        if takes_down { second % 1024 } else { down },
    )
}

/// Returns the number in CGRAM of a pixel's value.
fn number_of(mode: u8, layer: u8, depth: u8, palette: u32, value: u8) -> u8 {
    let number = match depth {
        2 => {
            let before = if mode == 0 {
                32 * (layer as u32 % 8).saturating_sub(1)
            } else {
                0
            };
            before + palette % 8 * 4 + value as u32
        }
        4 => palette % 8 * 16 + value as u32,
        _ => value as u32,
    };
    (number % 256) as u8
}

/// Returns what a background shows at the dot `e` (0 to 511) of a row, if anything.
pub fn background_at(p: &Ppu, layer: u8, row: u16, e: u32) -> Option<Seen>
    requires row { row < 239 }
    requires e { e < 512 }
{
    let r = p.registers();
    let own = registers_of(r, layer);
    let depth = depth_of(r.mode, layer);
    if depth == 0 {
        return None;
    }
    let fine = r.mode == 5 || r.mode == 6;
    let x = block_start(own.mosaic, r.mosaic, e / 2);
    let line = block_start(own.mosaic, r.mosaic, row as u32) + 1;
    let (across, down) = moved_by(p, layer, x);
    let spot = Spot {
        x: if fine {
            2 * (x + across) + e % 2
        } else {
            x + across
        },
        y: line + down,
        tile_width: if fine || own.large { 16 } else { 8 },
        tile_height: if own.large { 16 } else { 8 },
    };
    let entry = entry_at(p, own, spot);
    let mut in_x = spot.x % spot.tile_width;
    let mut in_y = spot.y % spot.tile_height;
    if entry >> 14 & 1 == 1 {
        in_x = spot.tile_width - 1 - in_x;
    }
    if entry >> 15 & 1 == 1 {
        in_y = spot.tile_height - 1 - in_y;
    }
    let tile = (entry + in_x / 8 + in_y / 8 * 16) % 1024;
    let tile_at = own.tile_base as u32 + tile * 4 * depth as u32;
    let value = tile_pixel(p, tile_at, depth, in_x % 8, in_y % 8);
    if value == 0 {
        return None;
    }
    let palette = entry >> 10 & 7;
    let is_direct = r.colour.direct && depth == 8;
    let colour = if is_direct {
        direct_colour(value, palette)
    } else {
        palette_colour(p, number_of(r.mode, layer, depth, palette, value))
    };
    Some(Seen {
        colour,
        priority: (entry >> 13 & 1) as u8,
        in_arithmetic: true,
    })
}
