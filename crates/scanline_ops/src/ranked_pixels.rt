//! Ranked pixels: which of two is in front, at each pixel of a row.

ghost use Rattle.std.specs.Prelude.{◌≡◌, ℕ, ◌+◌, ◌*◌, ◌/◌, ◌%◌, ◌<◌, slice_index, if◌then◌else◌};
ghost use Rattle.scanline_ops.specs.RankedPixels.{RankedPixel, seen_key, chosen, nearest, seen, is_found, is_any_named};

#[inline(always)]
#[tactic(auto, unfolding(crate::specs::RankedPixels::seen_key))]
fn key_behind(hidden: u8, key: u8) -> u8
    ensures { result ≡ seen_key hidden key }
{
    key * (hidden == 0) as u8
}

#[inline(always)]
#[tactic(auto, unfolding(crate::specs::RankedPixels::is_nearer))]
fn second_is_nearer(first: u8, second: u8) -> bool
    ensures { result ≡ Rattle.scanline_ops.specs.RankedPixels.is_nearer first second }
{
    first / 16 * 16 + 15 < second
}

/// Returns one of two bytes, without a branch, so that loops become vector code.
#[inline(always)]
#[tactic(auto, unfolding(crate::specs::RankedPixels::chosen))]
pub fn choose(which: bool, taken: u8, other: u8) -> u8
    ensures { result ≡ chosen which taken other }
{
    taken * which as u8 + other * !which as u8
}

/// Lays a layer's ranked pixels over those of a screen. At each pixel the one nearer to the front stays, or the
/// screen's if both have the same rank. The layer has no pixel where `hidden` isn't 0.
#[tactic(auto, unfolding(crate::specs::RankedPixels::nearest, crate::specs::RankedPixels::seen))]
pub fn lay(
    keys: &[u8; 256],
    numbers: &[u8; 256],
    hidden: &[u8; 256],
    front_keys: &mut [u8; 256],
    front_numbers: &mut [u8; 256],
)
    ensures keys { (x : ℕ) → x < 256 → slice_index front_keys.new x ≡
        (nearest (record { key = slice_index front_keys.old x; number = slice_index front_numbers.old x })
        (seen (slice_index hidden.now x)
        (record { key = slice_index keys.now x; number = slice_index numbers.now x }))).key }
    ensures numbers { (x : ℕ) → x < 256 → slice_index front_numbers.new x ≡
        (nearest (record { key = slice_index front_keys.old x; number = slice_index front_numbers.old x })
        (seen (slice_index hidden.now x)
        (record { key = slice_index keys.now x; number = slice_index numbers.now x }))).number }
{
    for x in 0..256usize {
        let key = key_behind(hidden[x], keys[x]);
        let nearer = second_is_nearer(front_keys[x], key);
        front_keys[x] = choose(nearer, key, front_keys[x]);
        front_numbers[x] = choose(nearer, numbers[x], front_numbers[x]);
    }
}

/// Lays the ranked pixels of a layer that is hidden nowhere over those of a screen. At each pixel the one nearer to
/// the front stays, or the screen's if both have the same rank.
#[tactic(auto, unfolding(crate::specs::RankedPixels::nearest))]
pub fn lay_unmasked(
    keys: &[u8; 256],
    numbers: &[u8; 256],
    front_keys: &mut [u8; 256],
    front_numbers: &mut [u8; 256],
)
    ensures keys { (x : ℕ) → x < 256 → slice_index front_keys.new x ≡
        (nearest (record { key = slice_index front_keys.old x; number = slice_index front_numbers.old x })
        (record { key = slice_index keys.now x; number = slice_index numbers.now x })).key }
    ensures numbers { (x : ℕ) → x < 256 → slice_index front_numbers.new x ≡
        (nearest (record { key = slice_index front_keys.old x; number = slice_index front_numbers.old x })
        (record { key = slice_index keys.now x; number = slice_index numbers.now x })).number }
{
    for x in 0..256usize {
        let nearer = second_is_nearer(front_keys[x], keys[x]);
        front_keys[x] = choose(nearer, keys[x], front_keys[x]);
        front_numbers[x] = choose(nearer, numbers[x], front_numbers[x]);
    }
}

#[inline(always)]
#[tactic(auto, unfolding(crate::specs::RankedPixels::is_named))]
fn name_bit(key: u8) -> u8
    ensures { result ≡ key / 8 % 2 }
{
    key / 8 % 2
}

/// Returns whether arithmetic is named for any ranked pixel of a row.
pub fn any_named(keys: &[u8; 256]) -> bool
    ensures { result ≡ is_any_named keys.now 256 }
{
    let mut most = 0;
    for x in 0..256usize {
        most = name_bit(keys[x]).max(most);
    }
    most == 1
}

/// Returns whether a ranked pixel with this key is a pixel at all: its rank isn't 0.
#[inline(always)]
#[tactic(auto, unfolding(crate::specs::RankedPixels::is_found))]
pub fn is_found_key(key: u8) -> bool
    ensures { result ≡ is_found key }
{
    key / 16 > 0
}

/// Writes one value into every place of a row.
pub fn fill_row(value: u8, out: &mut [u8; 256])
    ensures { (x : ℕ) → x < 256 → slice_index out.new x ≡ value }
{
    for x in 0..256usize {
        out[x] = value;
    }
}
