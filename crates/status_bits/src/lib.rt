//! The bits of a processor's status byte, by their weight.
//!
//! A flag is named by the weight of its bit in the byte (1, 2, 4, .. 128). Both processors of the console keep their
//! flags this way, each with its own names for the weights. The crate depends on std alone, and promises what each call
//! returns, by the definitions `flag` and `put`.
#![tactic(auto)]

ghost use Rattle.std.specs.Prelude.{◌≡◌, ◌<◌, ◌%◌, ◌/◌, IsTrue};
ghost use Rattle.status_bits.specs.StatusBits.{is_weight, flag, put};

/// Whether the bit of this weight is set in the status byte.
#[inline(always)]
pub fn is_set(status: u8, weight: u8) -> bool
    requires { IsTrue (is_weight weight) }
    ensures { result ≡ flag status weight }
{
    status / weight % 2 == 1
}

/// Returns the status byte with the bit of this weight set or clear, and every other bit as it was.
#[inline(always)]
pub fn with_bit(status: u8, weight: u8, on: bool) -> u8
    requires { IsTrue (is_weight weight) }
    ensures { result ≡ put status weight on }
{
    let others = status - status / weight % 2 * weight;
    if on { others + weight } else { others }
}
