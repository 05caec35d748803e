ghost use Rattle.std.specs.Prelude.{◌≡◌, ℕ, ◌≤◌, List, [], OnOk, IfOk, IfErr};
ghost use Rattle.snes_defs.specs.declared.cart.Job.{Job};
ghost use Rattle.run_drive.specs.Played.{IsPlayable, PlayedWhole, PlayedFirst};

use crate::sink::Sink;
use snes_defs::{Job, NoMemory, Side};
use std::alloc::Global;

/// A player of a job by the serial console: two machines at their start, and all the memory that their run needs. It has
/// nothing that two workers need.
///
/// The top of the program is proved for every player. That of the console says what it emits: the output of the
/// serial console for that job.
pub trait Player: Drop {
    // A run of the job emits this video and this audio.
    ghost emits: { Job → List ℕ → List ℕ → Type 0 };

    // The player is at the start of the job.
    ghost plays: { Self → Job → Type 0 };

    /// Makes the machines at the start of a job, and allocates all the memory of their run.
    fn ready(alloc: Global, job: &Job) -> Result<Self, NoMemory>
        requires { job.now.frames ≤ 36000 }
        ensures starts { IfOk result (λ player. plays player job.now) }
        ensures ends { OnOk result (IsPlayable (emits job.now)) };

    /// Runs the job by the serial console.
    fn play_serial<K: Sink>(self, sink: &mut K) -> Result<(), Side>
        requires at_start { (job : Job) × plays self job }
        requires no_video { K.holds sink.old Side.Console [] }
        requires no_sound { K.holds sink.old Side.Sound [] }
        ensures whole { OnOk result ((job : Job) → plays self job → PlayedWhole (emits job) (K.holds sink.new)) }
        ensures first { (job : Job) → plays self job → PlayedFirst (emits job) (K.holds sink.new) }
        ensures failed { IfErr result (K.failed sink.old sink.new) }
        ensures only { K.only_takes sink.old sink.new };
}
