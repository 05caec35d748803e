//! Folding: the byte of a ROM at an offset beyond its size.
ghost use Rattle.std.specs.Prelude.{◌≡◌, ◌-◌, ◌*◌, ◌%◌, ◌^◌, ◌<◌, ◌≤◌};
ghost use Rattle.cart_map.specs.Fold.{fold, fold_below};

/// Returns the byte of a ROM of `size` bytes that is seen at an offset of 22 bits.
#[tactic(auto, unfolding(crate::specs::Fold::fold))]
pub(crate) fn folded(size: usize, offset: u32) -> u32
    requires some { 0 < size }
    requires offset { offset < 4194304 }
    ensures folded { result ≡ fold size offset }
    ensures inside { result < size }
{
    folded_below(22, size, offset)
}

/// Returns the byte of a ROM of `size` bytes that is seen at an offset of `bits` bits.
#[tactic(auto, using(crate::proofs::FoldLemmas::fold_below_at, crate::proofs::FoldLemmas::fold_below_none))]
fn folded_below(bits: u32, size: usize, offset: u32) -> u32
    requires some { 0 < size }
    requires bits { bits ≤ 22 }
    requires offset { offset < 2 ^ bits }
    ensures folded { result ≡ fold_below bits size offset }
    ensures inside { result < size }
    ensures below { result < 2 ^ bits }
{
    if bits == 0 {
        return 0;
    }
    let half = half_of(bits);
    if size <= half as usize {
        return folded_below(bits - 1, size, seen_in(half, offset));
    }
    if size == 2 * half as usize || offset < half {
        return offset;
    }
    half + folded_below(bits - 1, size - half as usize, offset - half)
}

/// Returns half of the number of offsets of `bits` bits.
#[tactic(auto, using(crate::proofs::FoldLemmas::two_halves, crate::proofs::FoldLemmas::half_shift, crate::proofs::FoldLemmas::half_small))]
fn half_of(bits: u32) -> u32
    requires some { 0 < bits }
    requires few { bits ≤ 22 }
    ensures half { result ≡ 2 ^ (bits - 1) }
    ensures whole { 2 * result ≡ 2 ^ bits }
    ensures small { result < 2 ^ 31 }
{
    1u32 << (bits - 1)
}

/// Returns the offset in one half at which an offset in both halves is seen.
#[tactic(auto, using(crate::proofs::FoldLemmas::seen_in_half))]
fn seen_in(half: u32, offset: u32) -> u32
    requires { offset < 2 * half }
    ensures seen { result ≡ offset % half }
    ensures below { result < half }
{
    if offset < half { offset } else { offset - half }
}
