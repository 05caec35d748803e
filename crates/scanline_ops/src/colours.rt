//! Colours: look-up, arithmetic and brightness.

ghost use Rattle.std.specs.Prelude.{◌≡◌, ℕ, ◌+◌, ◌-◌, ◌*◌, ◌/◌, ◌%◌, ◌<◌, ◌≤◌, ◌^◌, Bool, true, false, not, ◌&&◌, ◌||◌};
ghost use Rattle.std.specs.Prelude.{◌==◌, length, slice_index, if◌then◌else◌};
ghost use Rattle.scanline_ops.specs.Colours.{component_with, colour_with, dimmed, direct_colour, pixel_colour};

use crate::ranked_pixels::is_found_key;

/// Returns the sum or the difference, not below 0, of two components that are in the same bits of their colours.
#[inline(always)]
fn joined(subtracts: bool, one: u16, two: u16) -> u16
    requires { one + two < 65536 }
    ensures { result ≡ (if subtracts then one - two else one + two) }
{
    let difference = one.saturating_sub(two);
    let sum = one + two;
    if subtracts { difference } else { sum }
}

// Components stay in their colours' bits: the unit of green is 32, that of blue 1,024. So none is shifted down and up
// again.

#[inline(always)]
#[tactic(auto, unfolding(crate::specs::Colours::component_with))]
fn red(subtracts: bool, halves: bool, one: u16, two: u16) -> u16
    ensures value { result ≡ component_with subtracts halves (one % 32) (two % 32) }
    ensures small { result ≤ 31 }
{
    let both = joined(subtracts, one % 32, two % 32);
    if halves { both / 2 } else { both.min(31) }
}

#[inline(always)]
#[tactic(auto, unfolding(crate::specs::Colours::component_with))]
fn green(subtracts: bool, halves: bool, one: u16, two: u16) -> u16
    ensures value { result ≡ 32 * component_with subtracts halves (one / 32 % 32) (two / 32 % 32) }
    ensures small { result ≤ 992 }
{
    let both = joined(subtracts, one / 32 % 32 * 32, two / 32 % 32 * 32);
    if halves {
        both / 64 * 32
    } else {
        both.min(992)
    }
}

#[inline(always)]
#[tactic(auto, unfolding(crate::specs::Colours::component_with))]
fn blue(subtracts: bool, halves: bool, one: u16, two: u16) -> u16
    ensures value { result ≡ 1024 * component_with subtracts halves (one / 1024 % 32) (two / 1024 % 32) }
    ensures small { result ≤ 31744 }
{
    let both = joined(subtracts, one / 1024 % 32 * 1024, two / 1024 % 32 * 1024);
    if halves {
        both / 2048 * 1024
    } else {
        both.min(31744)
    }
}

/// Returns the sum or the difference of two colours, component by component, all halved or none.
#[inline(always)]
#[tactic(auto, unfolding(crate::specs::Colours::colour_with))]
fn join_all(subtracts: bool, halves: bool, one: u16, two: u16) -> u16
    ensures value { result ≡ colour_with subtracts halves one two }
    ensures small { result < 2 ^ 15 }
{
    red(subtracts, halves, one, two)
        + green(subtracts, halves, one, two)
        + blue(subtracts, halves, one, two)
}

/// Returns the sum or the difference of two colours, component by component, halved or not, within 0 to 31.
///
/// Both the whole and the half are computed, so that a loop over pixels has one choice at each.
#[inline(always)]
pub fn join_colours(subtracts: bool, halves: bool, one: u16, two: u16) -> u16
    ensures value { result ≡ colour_with subtracts halves one two }
    ensures small { result < 2 ^ 15 }
{
    let whole = join_all(subtracts, false, one, two);
    let half = join_all(subtracts, true, one, two);
    if halves { half } else { whole }
}

/// Returns the colour of a direct byte with these palette bits.
#[inline(always)]
#[tactic(auto, unfolding(crate::specs::Colours::direct_colour))]
fn direct(byte: u8, tint: u8) -> u16
    ensures { result ≡ direct_colour byte tint }
{
    let byte = byte as u16;
    let tint = tint as u16;
    let red = byte % 8 * 4 + tint % 2 * 2;
    let green = byte / 8 % 8 * 4 + tint / 2 % 2 * 2;
    let blue = byte / 64 % 4 * 8 + tint / 4 % 2 * 4;
    red + 32 * green + 1024 * blue
}

#[inline(always)]
#[tactic(auto, unfolding(crate::specs::Colours::pixel_colour))]
fn colour_at(cgram: &[u16], is_direct: bool, low: u8, high: u8, key: u8, number: u8) -> u16
    requires { length cgram.now ≡ 256 }
    ensures { result ≡ pixel_colour cgram.now is_direct low high key number }
{
    if is_direct && is_found_key(key) && (key / 16 == low || key / 16 == high) {
        direct(number, key % 8)
    } else {
        cgram[number as usize]
    }
}

/// Looks up the colours of a row of ranked pixels in CGRAM. Those of the ranks `low` and `high` are direct colours.
pub fn look_up_direct(
    cgram: &[u16],
    low: u8,
    high: u8,
    keys: &[u8; 256],
    numbers: &[u8; 256],
    out: &mut [u16; 256],
)
    requires { length cgram.now ≡ 256 }
    ensures { (x : ℕ) → x < 256 → slice_index out.new x ≡
        pixel_colour cgram.now true low high (slice_index keys.now x) (slice_index numbers.now x) }
{
    for x in 0..256usize {
        out[x] = colour_at(cgram, true, low, high, keys[x], numbers[x]);
    }
}

/// Returns a colour at a brightness of 0, which is black, to 15, which is full.
#[inline(always)]
#[tactic(auto, unfolding(crate::specs::Colours::dimmed))]
pub fn dim_colour(brightness: u8, colour: u16) -> u16
    requires { brightness < 16 }
    ensures { result ≡ dimmed brightness colour }
{
    let parts = if brightness == 0 {
        0
    } else {
        brightness as u16 + 1
    };
    let red = colour % 32 * parts / 16;
    let green = colour / 32 % 32 * parts / 16;
    let blue = colour / 1024 % 32 * parts / 16;
    red + 32 * green + 1024 * blue
}

/// Dims a row at a brightness below 15.
fn dim_each(brightness: u8, row: &mut [u16; 256])
    requires { brightness < 16 }
    ensures { (x : ℕ) → x < 256 → slice_index row.new x ≡ dimmed brightness (slice_index row.old x) }
{
    for x in 0..256usize {
        row[x] = dim_colour(brightness, row[x]);
    }
}

/// Dims a row of colours of 15 bits at a brightness of 0 to 15. At 15 they stay unchanged.
#[tactic(auto, using(crate::proofs::Small::full))]
pub fn dim_small_row(brightness: u8, row: &mut [u16; 256])
    requires brightness { brightness < 16 }
    requires small { (x : ℕ) → x < 256 → slice_index row.old x < 32768 }
    ensures { (x : ℕ) → x < 256 → slice_index row.new x ≡ dimmed brightness (slice_index row.old x) }
{
    if brightness != 15 {
        dim_each(brightness, row);
    }
}

/// Writes one colour into all of a row's 512 dots.
pub fn fill_dots(colour: u16, out: &mut [u16])
    requires { length out.old ≡ 512 }
    ensures { (e : ℕ) → e < 512 → slice_index out.new e ≡ colour }
{
    for e in 0..512usize {
        out[e] = colour;
    }
}

/// Writes a row's 512 dots: dot 2x is `even[x]`, dot 2x + 1 is `odd[x]`.
pub fn write_dots(even: &[u16; 256], odd: &[u16; 256], out: &mut [u16])
    requires { length out.old ≡ 512 }
    ensures even { (x : ℕ) → x < 256 → slice_index out.new (2 * x) ≡ slice_index even.now x }
    ensures odd { (x : ℕ) → x < 256 → slice_index out.new (2 * x + 1) ≡ slice_index odd.now x }
{
    for x in 0..256usize {
        out[2 * x] = even[x];
        out[2 * x + 1] = odd[x];
    }
}

/// Writes a row's 512 dots: dots 2x and 2x + 1 are both `row[x]`.
pub fn write_twice(row: &[u16; 256], out: &mut [u16])
    requires { length out.old ≡ 512 }
    ensures even { (x : ℕ) → x < 256 → slice_index out.new (2 * x) ≡ slice_index row.now x }
    ensures odd { (x : ℕ) → x < 256 → slice_index out.new (2 * x + 1) ≡ slice_index row.now x }
{
    for x in 0..256usize {
        out[2 * x] = row[x];
        out[2 * x + 1] = row[x];
    }
}
