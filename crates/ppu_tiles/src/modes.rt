//! The layers' depths and the tiles' sizes in modes 0 to 6.
ghost use Rattle.std.specs.Prelude.{◌≡◌, ◌<◌, ◌≤◌};
ghost use Rattle.ppu_tiles.specs.Modes.{by_layer, depth_of, is_hires, has_offsets, tile_width, tile_height};

use ppu_regs::Background;

/// Returns one of four numbers by the layer, 1 to 4, or 0 for any other.
#[inline(always)]
fn four(layer: u8, first: u8, second: u8, third: u8, fourth: u8) -> u8
    ensures { result ≡ by_layer layer first second third fourth }
{
    match layer {
        1 => first,
        2 => second,
        3 => third,
        4 => fourth,
        _ => 0,
    }
}

/// Returns the bits per pixel of a layer, 1 to 4, in a mode: 2, 4 or 8. It is 0 if the mode has no such layer.
#[inline(always)]
#[tactic(auto, unfolding(crate::specs::Modes::depth_of))]
pub fn depth(mode: u8, layer: u8) -> u8
    ensures { result ≡ depth_of mode layer }
{
    match mode {
        0 => four(layer, 2, 2, 2, 2),
        1 => four(layer, 4, 4, 2, 0),
        2 => four(layer, 4, 4, 0, 0),
        3 => four(layer, 8, 4, 0, 0),
        4 => four(layer, 8, 2, 0, 0),
        5 => four(layer, 4, 2, 0, 0),
        6 => four(layer, 4, 0, 0, 0),
        _ => 0,
    }
}

/// Returns whether the mode has 512 dots a row.
#[inline(always)]
pub fn hires(mode: u8) -> bool
    ensures { result ≡ is_hires mode }
{
    mode == 5 || mode == 6
}

/// Returns whether BG3's map has scrolls for each column in this mode.
#[inline(always)]
pub fn offsets(mode: u8) -> bool
    ensures { result ≡ has_offsets mode }
{
    mode == 2 || mode == 4 || mode == 6
}

/// Returns the width of a tile in pixels, 8 or 16.
#[inline(always)]
pub fn width(mode: u8, b: &Background) -> u16
    ensures width { result ≡ tile_width mode b.now }
    ensures positive { 0 < result }
{
    if hires(mode) || b.large { 16 } else { 8 }
}

/// Returns the height of a tile in pixels, 8 or 16.
#[inline(always)]
pub fn height(b: &Background) -> u16
    ensures height { result ≡ tile_height b.now }
    ensures positive { 0 < result }
{
    if b.large { 16 } else { 8 }
}
