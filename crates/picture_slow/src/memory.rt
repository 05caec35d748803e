//! Reads words of VRAM, pixels of tiles, and colours.

ghost use Rattle.std.specs.Prelude.{◌≡◌, ◌<◌, ◌≤◌};

use ppu_regs::Ppu;

/// What a layer shows at a dot: a colour, with its priority in the layer.
#[derive(Clone, Copy)]
pub struct Seen {
    /// The colour, in 15 bits.
    pub colour: u16,
    /// The priority: 0 or 1 for a background, 0 to 3 for an object.
    pub priority: u8,
    /// Whether the layer's bit of 2131 applies to it: among the objects only to those of the palettes 4 to 7.
    pub in_arithmetic: bool,
}

/// Returns a word of VRAM, which repeats itself after 32,768 words.
pub fn word(p: &Ppu, address: u32) -> u32
    ensures { result < 65536 }
{
    p.vram()[(address % 0x8000) as usize] as u32
}

/// Returns the value of a tile's pixel. Every two bits of depth are a word of the tile's line, the low bit in its low
/// byte; the leftmost pixel has the highest bits of both.
pub fn tile_pixel(p: &Ppu, tile_at: u32, depth: u8, x: u32, y: u32) -> u8
    requires x { x < 8 }
{
    let line = word(p, tile_at.wrapping_add(y));
    let mut value = two_bits(line, x);
    if depth >= 4 {
        value += 4 * two_bits(word(p, tile_at.wrapping_add(y).wrapping_add(8)), x);
    }
    if depth == 8 {
        value += 16 * two_bits(word(p, tile_at.wrapping_add(y).wrapping_add(16)), x);
        value += 64 * two_bits(word(p, tile_at.wrapping_add(y).wrapping_add(24)), x);
    }
    value
}

fn two_bits(line: u32, x: u32) -> u8
    requires { x < 8 }
    ensures { result < 4 }
{
    let low = line >> (7 - x) & 1;
    let high = line >> (15 - x) & 1;
    (low % 2 + 2 * (high % 2)) as u8
}

/// Returns the colour of a number in CGRAM.
pub fn palette_colour(p: &Ppu, number: u8) -> u16 {
    p.cgram()[number as usize]
}

/// Returns the direct colour of eight bits BBGGGRRR: each component's top bits, with a palette bit below.
pub fn direct_colour(value: u8, palette: u32) -> u16 {
    let red = (value as u32 & 7) << 2 | (palette & 1) << 1;
    let green = (value as u32 >> 3 & 7) << 2 | (palette >> 1 & 1) << 1;
    let blue = (value as u32 >> 6 & 3) << 3 | (palette >> 2 & 1) << 2;
    ((red % 32) + 32 * (green % 32) + 1024 * (blue % 32)) as u16
}
