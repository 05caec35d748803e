ghost use Rattle.std.specs.Prelude.{List, ℕ, []};
ghost use Rattle.snes_defs.specs.declared.cart.Job.{Job};
ghost use Rattle.frame_sums.specs.Digests.{AreSummed, AreNew, AreSumsOf};

use crate::digests::Digests;
use crate::sums::FrameSums;
use run_drive::Player;

/// Plays a job by the serial console, and returns the sums of its pictures and of its samples.
pub fn play_summed<P: Player>(player: P, sums: FrameSums) -> (Digests, Digests)
    requires at_start { (job : Job) × P.plays player job }
    requires no_video { AreSummed sums.video [] }
    requires no_audio { AreSummed sums.audio [] }
    ensures { (job : Job) → P.plays player job → AreNew sums job.region job.frames → AreSumsOf (P.emits job) job.region job.frames result.0 result.1 }
{
    let mut sums = sums;
    let Ok(()) = player.play_serial(&mut sums) else {
        unreachable!();
    };
    sums.finish()
}
