ghost use Rattle.std.specs.Prelude.{◌≡◌, ℕ, List};
ghost use Rattle.snes_defs.specs.Bytes.{AreBytes};

use std::marker::Model;

/// A list of bytes, such as a file or a ROM.
#[derive(Drop)]
pub struct Bytes {
    kept: Vec<u8>,
}

impl Model for Bytes {
    ghost Value = { List ℕ };

    ghost view = { λ b. b.kept.items };
}

impl Bytes {
    /// Makes a `Bytes` of a list. It does not allocate.
    pub fn of(v: Vec<u8>) -> Bytes
        ensures kept { result ≡ v.items }
    {
        Bytes { kept: v }
    }

    /// Returns the bytes, in order.
    pub fn get(&self) -> &[u8]
        ensures all { result.now ≡ self.now }
        ensures bytes { AreBytes self.now }
    {
        let all = self.kept.as_slice();
        are_bytes(all);
        all
    }
}

/// The numbers of a list of bytes are bytes.
#[inline(always)]
fn are_bytes(all: &[u8])
    ensures { AreBytes all.now }
{
    let _all = all;
}
