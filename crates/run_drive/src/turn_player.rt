ghost use Rattle.std.specs.Prelude.{◌≡◌, ℕ, ◌≤◌, List, [], OnOk, IfOk, IfErr};
ghost use Rattle.snes_defs.specs.declared.cart.Job.{Job};
ghost use Rattle.run_drive.specs.Played.{IsPlayable, PlayedWhole, PlayedFirst};

use crate::player::Player;
use crate::sink::Sink;
use snes_defs::{Job, NoMemory, Side};
use std::alloc::Global;
use std::thread::Threads;
use worker_gate::Gate;

/// A player that can also run a job by two workers. They emit what the serial console emits.
pub trait TurnPlayer: Player {
    /// The machines of a job, all the memory of their run, and what carries their entries between two workers.
    type Turning: Drop;

    // The machines are at the start of the job.
    ghost turns: { Self.Turning → Job → Type 0 };

    /// Makes the machines at the start of a job, and allocates all the memory of a run by two workers.
    fn ready_turns(alloc: Global, job: &Job) -> Result<Self::Turning, NoMemory>
        requires { job.now.frames ≤ 36000 }
        ensures starts { IfOk result (λ turning. turns turning job.now) }
        ensures ends { OnOk result (IsPlayable (Self.emits job.now)) };

    /// Runs the job by two workers, each of which reports to the gate as it starts a turn.
    fn play_turns<R: Threads, K: Sink>(
        turning: Self::Turning,
        rt: &R,
        gate: &dyn Gate,
        sink: &mut K,
    ) -> Result<(), Side>
        requires at_start { (job : Job) × turns turning job }
        requires no_video { K.holds sink.old Side.Console [] }
        requires no_sound { K.holds sink.old Side.Sound [] }
        ensures whole { OnOk result ((job : Job) → turns turning job
            → PlayedWhole (Self.emits job) (K.holds sink.new)) }
        ensures first { (job : Job) → turns turning job → PlayedFirst (Self.emits job) (K.holds sink.new) }
        ensures failed { IfErr result (K.failed sink.old sink.new) }
        ensures only { K.only_takes sink.old sink.new };

    /// Runs the job by two workers whose ports are words without a lock.
    fn play_words<R: Threads, K: Sink>(
        turning: Self::Turning,
        rt: &R,
        gate: &dyn Gate,
        sink: &mut K,
    ) -> Result<(), Side>
        requires at_start { (job : Job) × turns turning job }
        requires no_video { K.holds sink.old Side.Console [] }
        requires no_sound { K.holds sink.old Side.Sound [] }
        ensures whole { OnOk result ((job : Job) → turns turning job
            → PlayedWhole (Self.emits job) (K.holds sink.new)) }
        ensures first { (job : Job) → turns turning job → PlayedFirst (Self.emits job) (K.holds sink.new) }
        ensures failed { IfErr result (K.failed sink.old sink.new) }
        ensures only { K.only_takes sink.old sink.new };
}
