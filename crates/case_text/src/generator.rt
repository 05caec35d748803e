ghost use Rattle.std.specs.Prelude.{◌≡◌, ℕ};
ghost use Rattle.case_text.specs.Generator.{number_after, numbers_after, byte_after};

use std::marker::Model;

/// The generator of bytes and of tables: x becomes 1664525 x + 1013904223 modulo 2^32.
#[derive(Drop)]
pub struct Generator {
    x: u32,
}

impl Model for Generator {
    ghost Value = { ℕ };

    ghost view = { λ generator. generator.x };
}

impl Generator {
    /// Returns the generator that begins with a seed.
    pub fn new(seed: u32) -> Generator
        ensures { result ≡ seed }
    {
        Generator { x: seed }
    }

    /// Returns the next number.
    pub fn next(&mut self) -> u32
        ensures moves { self.new ≡ number_after self.old }
        ensures value { result ≡ self.new }
    {
        self.x = self.x.wrapping_mul(1_664_525).wrapping_add(1_013_904_223);
        self.x
    }

    /// Returns the AND of the upper bytes of the next `ands` numbers.
    pub fn byte(&mut self, ands: u32) -> u8
        ensures moves { self.new ≡ numbers_after ands self.old }
        ensures value { result ≡ byte_after ands self.old }
    {
        let mut byte = 255u8;
        for _ in 0..ands {
            byte &= (self.next() / 0x100_0000) as u8;
        }
        byte
    }
}
