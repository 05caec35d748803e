ghost use Rattle.std.specs.Prelude.{◌≡◌};
ghost use Rattle.case_text.specs.Hash.{hash_after, hash_start};

/// Returns the 64-bit FNV-1a hash of no bytes.
pub fn no_hash() -> u64
    ensures { result ≡ hash_start }
{
    0xCBF2_9CE4_8422_2325
}

/// Returns the 64-bit FNV-1a hash of the bytes of a hash and one more.
pub fn hashed(hash: u64, byte: u8) -> u64
    ensures { result ≡ hash_after hash byte }
{
    (hash ^ byte as u64).wrapping_mul(0x100_0000_01B3)
}
