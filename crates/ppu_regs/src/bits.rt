//! Single bits of a byte.
ghost use Rattle.std.specs.Prelude.{◌≡◌, ◌<◌};
ghost use Rattle.ppu_regs.specs.Bits.{is_set};

/// Returns whether the bit of this weight (1, 2, 4, .. 128) is set.
#[inline(always)]
#[tactic(auto, unfolding(crate::specs::Bits::is_set))]
pub fn bit(v: u8, weight: u8) -> bool
    requires { 0 < weight }
    ensures { result ≡ is_set v weight }
{
    v / weight % 2 == 1
}
