// The first pairs (stereo samples) that a player emits, into a sink.
ghost use Rattle.std.specs.Prelude.{◌≡◌, ◌≢◌, ◌^◌, ◌≤◌, ℕ, List, [], length, OnOk, OnErr};
ghost use Rattle.snes_defs.specs.declared.ports.Side.{Side};
ghost use Rattle.spc_player.specs.Play.{Playing};
ghost use Rattle.spc_player.specs.Player.{HasGoneOn, IsPlaying, TookPairs, TookSome, stamp_of, waiting_of};

use crate::player::Player;
use run_drive::{Sink, pour};
use shelf::Failed;
use side_law::Machine;
use snes_defs::Side;

/// How many bytes may be pending before they are passed on: 128 samples.
const MANY: usize = 512;

impl Player {
    /// Plays `samples` samples, and passes the sink exactly these pairs (stereo samples), as the sound side's bytes.
    ///
    /// The player is then behind the last of them. If the sink fails to take some, it has taken a prefix of them.
    /// The player is then behind as many samples as it had played. No byte is pending in either case.
    pub fn play<K: Sink>(&mut self, samples: u32, sink: &mut K) -> Result<(), Failed>
        requires early { stamp_of self.old ≤ 2 ^ 60 }
        requires empty { waiting_of self.old ≡ [] }
        ensures whole { OnOk result ((w : Playing) → IsPlaying self.old w → TookPairs w samples (K.holds sink.old Side.Sound) (K.holds sink.new Side.Sound)) }
        ensures first { (w : Playing) → IsPlaying self.old w → TookSome w samples (K.holds sink.old Side.Sound) (K.holds sink.new Side.Sound) }
        ensures stands { OnOk result ((w : Playing) → IsPlaying self.old w → HasGoneOn self.new w samples) }
        ensures stops { OnErr result ((w : Playing) → IsPlaying self.old w → (played : ℕ) × (played ≤ samples) × HasGoneOn self.new w played) }
        ensures none_left { waiting_of self.new ≡ [] }
        ensures other { (other : Side) (had : List ℕ) → other ≢ Side.Sound → K.holds sink.old other had → K.holds sink.new other had }
        ensures failed { OnErr result (K.failed sink.old sink.new Side.Sound) }
        ensures only { K.only_takes sink.old sink.new }
    {
        let mut buffer = [0u8; 4096];
        'samples: for k in 0..samples {
            if self.side.pending() > MANY {
                let Ok(()) = pour(&mut self.side, Side::Sound, &mut buffer, sink) else {
                    return Err(Failed);
                };
            }
            self.to_next_sample();
        }
        let Ok(()) = pour(&mut self.side, Side::Sound, &mut buffer, sink) else {
            return Err(Failed);
        };
        Ok(())
    }
}
