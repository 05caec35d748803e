ghost use Rattle.std.specs.Prelude.{◌≡◌, ◌<◌, ◌≤◌, ℕ, List, length, slice_index, All};

use std::marker::Model;

/// The 512 entries of the S-DSP's interpolation table, each 0 to 2047, kept inline.
#[derive(Drop)]
pub struct Table {
    numbers: [u16; 512],
}

impl Model for Table {
    ghost Value = { List ℕ };

    ghost view = { λ t. t.numbers };

    ghost invariant = { λ t. All (λ n. n ≤ 2047) t.numbers };
}

impl Table {
    /// Makes a table of the 512 numbers. It does not allocate.
    pub fn of(numbers: [u16; 512]) -> Table
        requires { All (λ n. n ≤ 2047) numbers }
        ensures kept { result ≡ numbers }
    {
        Table { numbers }
    }

    /// Returns entry `i`, from 0.
    #[inline(always)]
    pub fn at(&self, i: usize) -> u16
        requires { i < 512 }
        ensures entry { result ≡ slice_index self.now i }
        ensures small { result ≤ 2047 }
    {
        self.numbers[i]
    }

    /// Returns a separate table with the same entries. It does not allocate.
    pub fn copied(&self) -> Table
        ensures { result ≡ self.now }
    {
        Table {
            numbers: self.numbers,
        }
    }
}
