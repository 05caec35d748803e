ghost use Rattle.std.specs.Prelude.{◌<◌};

use rand_core::utils::NextWord;
use rand_pcg::Pcg32;

/// A generator of numbers below limits, from a seed.
#[derive(Drop)]
pub(crate) struct Dice {
    words: Pcg32,
}

impl Dice {
    pub(crate) fn new(seed: u64) -> Dice {
        Dice {
            words: Pcg32::new(seed, 0),
        }
    }

    /// Returns a number below a limit.
    pub(crate) fn below(&mut self, limit: u64) -> u64
        requires { 0 < limit }
        ensures { result < limit }
    {
        self.words.next_word() as u64 % limit
    }
}
