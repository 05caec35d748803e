//! The plane of mode 7: the words of VRAM that a pixel is drawn from.

ghost use Rattle.std.specs.Prelude.{◌≡◌, ◌<◌};
ghost use Rattle.lint_rules.specs.Turned.{sum_of, difference_of, product_of, signed_13, signed_16, clipped, distance, trimmed, place_of, place_across, place_down, is_outside, pixel_of, turned_map_word, turned_tile_word};

/// The registers that turn and scale the plane of mode 7.
#[derive(Clone, Copy)]
pub struct Turned {
    /// 211B to 211E: M7A, M7B, M7C and M7D, signed 16 bits, 8 of them below the point.
    pub a: u16,
    /// M7B.
    pub b: u16,
    /// M7C.
    pub c: u16,
    /// M7D.
    pub d: u16,
    /// 211F M7X, of which 13 bits count, signed.
    pub center_x: u16,
    /// 2120 M7Y, as M7X.
    pub center_y: u16,
    /// 210D M7HOFS, as M7X.
    pub scroll_x: u16,
    /// 210E M7VOFS, as M7X.
    pub scroll_y: u16,
}

/// Returns the low 13 bits as a signed number, modulo 2^32.
#[tactic(auto, unfolding(crate::specs::Turned::signed_13))]
fn signed_thirteen(v: u16) -> u32
    ensures { result ≡ signed_13 v }
{
    let low = u32::from(v) % 8192;
    if low < 4096 { low } else { low + 4_294_959_104 }
}

/// Returns 16 bits as a signed number, modulo 2^32.
#[tactic(auto, unfolding(crate::specs::Turned::signed_16))]
fn signed_sixteen(v: u16) -> u32
    ensures { result ≡ signed_16 v }
{
    let v = u32::from(v);
    if v < 32_768 { v } else { v + 4_294_901_760 }
}

/// Cuts a difference to ten bits below its sign.
#[tactic(auto, unfolding(crate::specs::Turned::clipped))]
fn clip(n: u32) -> u32
    ensures { result ≡ clipped n }
{
    if n / 8192 % 2 == 1 {
        n % 1024 + 4_294_966_272
    } else {
        n % 1024
    }
}

/// Returns how far a scroll is from the centre.
#[tactic(auto, unfolding(crate::specs::Turned::distance))]
fn distance_between(scroll: u16, centre: u16) -> u32
    ensures { result ≡ distance scroll centre }
{
    clip(signed_thirteen(scroll).wrapping_sub(signed_thirteen(centre)))
}

/// Returns a product without its low six bits.
#[tactic(auto, unfolding(crate::specs::Turned::trimmed))]
fn trim(a: u32, b: u32) -> u32
    ensures { result ≡ trimmed a b }
{
    a.wrapping_mul(b) / 64 * 64
}

/// Returns the place of a pixel of a line, across or down, in 256ths of a pixel.
#[tactic(auto, unfolding(crate::specs::Turned::place_of))]
fn place(across: u32, along: u32, p: u32, q: u32, centre: u32, x: u32, y: u32) -> u32
    ensures { result ≡ place_of across along p q centre x y }
{
    let corner = trim(across, p).wrapping_add(trim(along, q));
    let line = trim(along, y).wrapping_add(256u32.wrapping_mul(centre));
    corner
        .wrapping_add(line)
        .wrapping_add(across.wrapping_mul(x))
}

impl Turned {
    /// Returns where the pixel of a column and a line lies in the plane, across, in 256ths of a pixel modulo 2^32.
    #[tactic(auto, unfolding(crate::specs::Turned::place_across))]
    pub fn place_across(&self, x: u32, y: u32) -> u32
        ensures { result ≡ place_across self.now x y }
    {
        place(
            signed_sixteen(self.a),
            signed_sixteen(self.b),
            distance_between(self.scroll_x, self.center_x),
            distance_between(self.scroll_y, self.center_y),
            signed_thirteen(self.center_x),
            x,
            y,
        )
    }

    /// Returns where it lies downwards.
    #[tactic(auto, unfolding(crate::specs::Turned::place_down))]
    pub fn place_down(&self, x: u32, y: u32) -> u32
        ensures { result ≡ place_down self.now x y }
    {
        place(
            signed_sixteen(self.c),
            signed_sixteen(self.d),
            distance_between(self.scroll_x, self.center_x),
            distance_between(self.scroll_y, self.center_y),
            signed_thirteen(self.center_y),
            x,
            y,
        )
    }
}

/// Whether a place is outside of the plane's 1,024 by 1,024 pixels.
pub fn is_outside(across: u32, down: u32) -> bool
    ensures { result ≡ is_outside across down }
{
    262_144 <= across || 262_144 <= down
}

/// Returns the pixel of a place, of the plane that is repeated for ever.
fn pixel_of(place: u32) -> u32
    ensures pixel { result ≡ pixel_of place }
    ensures within { result < 1024 }
{
    place / 256 % 1024
}

/// Returns the word of VRAM whose low byte is the tile of a place.
pub fn turned_map_word(across: u32, down: u32) -> u16
    ensures word { result ≡ turned_map_word across down }
    ensures within { result < 16384 }
{
    (128 * (pixel_of(down) / 8) + pixel_of(across) / 8) as u16
}

/// Returns the word of VRAM whose high byte is the pixel of a place, by its tile.
pub fn turned_tile_word(tile: u8, across: u32, down: u32) -> u16
    ensures word { result ≡ turned_tile_word tile across down }
    ensures within { result < 16384 }
{
    (64 * u32::from(tile) + 8 * (pixel_of(down) % 8) + pixel_of(across) % 8) as u16
}
