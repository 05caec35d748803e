ghost use Rattle.std.specs.Prelude.{◌≡◌, ◌≤◌, ◌^◌, ◌+◌, ◌*◌, ◌+ℤ◌, ◌-ℤ◌, pos, negsuc, unsigned_abs};
ghost use Rattle.sdsp_voice.specs.Signed.{clamped_16, wrapped_15, wrapped_16};

/// a + b, of numbers whose sum fits easily.
#[inline(always)]
pub fn sum(a: i32, b: i32) -> i32
    requires a { unsigned_abs a ≤ 2 ^ 28 }
    requires b { unsigned_abs b ≤ 2 ^ 28 }
    ensures value { result ≡ a +ℤ b }
    ensures small { unsigned_abs result ≤ unsigned_abs a + unsigned_abs b }
{
    a + b
}

/// a - b, of numbers whose difference fits easily.
#[inline(always)]
pub fn difference(a: i32, b: i32) -> i32
    requires a { unsigned_abs a ≤ 2 ^ 28 }
    requires b { unsigned_abs b ≤ 2 ^ 28 }
    ensures value { result ≡ a -ℤ b }
    ensures small { unsigned_abs result ≤ unsigned_abs a + unsigned_abs b }
{
    a - b
}

/// The nearest number of 16 bits.
#[tactic(auto, unfolding(crate::specs::Signed::clamped_16))]
#[inline(always)]
pub fn clamped(z: i32) -> i16
    ensures { result ≡ clamped_16 z }
{
    z.clamp(-32768, 32767) as i16
}

/// The low 16 bits, as a signed number.
#[tactic(auto, unfolding(crate::specs::Signed::wrapped_16))]
#[inline(always)]
pub fn low_16(z: i32) -> i16
    ensures { result ≡ wrapped_16 z }
{
    ((z.cast_unsigned() % 65536) as u16).cast_signed()
}

/// The low 15 bits, as a signed number.
#[tactic(auto, unfolding(crate::specs::Signed::wrapped_15))]
#[inline(always)]
pub fn low_15(z: i32) -> i16
    ensures { result ≡ wrapped_15 z }
{
    (2 * (z.cast_unsigned() % 32768) as u16).cast_signed() >> 1
}
