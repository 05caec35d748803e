ghost use Rattle.std.specs.Prelude.{◌≡◌, ◌≢◌, ◌+◌, ◌%◌, ◌^◌, ℕ, List, [], sum, OnOk, OnErr};
ghost use Rattle.snes_defs.specs.declared.ports.Side.{Side};
ghost use Rattle.run_drive.specs.Run.{Adds, AddsSome};
ghost use Rattle.snes_commands.specs.Demo.{sum_in};

use run_drive::Sink;
use shelf::Failed;
use snes_defs::Side;

/// The sums of the bytes of video and of audio, modulo 2^64.
#[derive(Drop)]
pub struct Sums {
    pub video: u64,
    pub audio: u64,
}

impl Sums {
    /// Returns the sums of no bytes.
    pub fn new() -> Sums
        ensures video { result.video ≡ sum_in [] }
        ensures audio { result.audio ≡ sum_in [] }
    {
        Sums { video: 0, audio: 0 }
    }
}

/// Returns a sum after more bytes, modulo 2^64.
#[tactic(auto, using(crate::proofs::Adding::wraps))]
fn added(start: u64, bytes: &[u8]) -> u64
    ensures { result ≡ (start + sum bytes.now) % 2 ^ 64 }
{
    let mut total = start;
    for byte in bytes {
        total = total.wrapping_add(u64::from(*byte));
    }
    total
}

impl Sink for Sums {
    ghost use Rattle.snes_commands.specs.Sums.{HasTaken};

    ghost holds = { HasTaken };

    ghost only_takes = { λ _ _. Unit {0} };

    ghost failed = { λ _ _ _. ⊥ };

    #[tactic(auto, using(crate::proofs::Adding::sums))]
    fn take(&mut self, side: Side, bytes: &[u8]) -> Result<(), Failed> {
        match side {
            Side::Console => self.video = added(self.video, bytes),
            Side::Sound => self.audio = added(self.audio, bytes),
        }
        Ok(())
    }

    ghost takes_none = { λ _. tt };

    ghost takes_more = { λ _ _ _ _ _. tt };

    ghost failed_since = { λ _ _ _ _ _ none. none };
}
