//! Mosaic blocks along a row.

ghost use Rattle.std.specs.Prelude.{◌≡◌, ℕ, ◌+◌, ◌-◌, ◌%◌, ◌<◌, ◌≤◌, slice_index};

/// Returns the place in its block of the next dot.
#[inline(always)]
#[tactic(auto, using(crate::proofs::Mosaic::mod_next))]
fn next_place(place: usize, size: usize) -> usize
    requires positive { 1 ≤ size }
    requires small { size ≤ 16 }
    requires within { place < size }
    ensures { (x : ℕ) → place ≡ x % size → result ≡ (x + 1) % size }
{
    if place + 1 == size { 0 } else { place + 1 }
}

/// Replaces each byte by that of the first dot of its block of `size` dots.
pub fn spread_blocks(row: &mut [u8; 256], size: usize)
    requires positive { 1 ≤ size }
    requires small { size ≤ 16 }
    ensures { (x : ℕ) → x < 256 → slice_index row.new x ≡ slice_index row.old (x - x % size) }
{
    let mut place = 0;
    for x in 0..256 {
        row[x] = row[x - place];
        place = next_place(place, size);
    }
}
