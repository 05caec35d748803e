ghost use Rattle.std.specs.Prelude.{◌≡◌, ◌≤◌, ℕ, List, OnOk, IfOk};
ghost use Rattle.snes_defs.specs.declared.cart.Job.{Job};
ghost use Rattle.run_drive.specs.Ended.{IsLeft};

use snes_defs::{Job, NoMemory};
use std::alloc::Global;

/// What plays a job for the state that its run ends in: registers and memories as bytes of a file.
///
/// The top of the program is proved of every such player. That of the console says which bytes they are: those of the
/// serial console where it has reached the end of the job's frames.
pub trait StatePlayer {
    /// The machines of a job, and all the memory of their run and of the bytes.
    type Machines: Drop;

    // A run of the job ends in a state with these bytes.
    ghost leaves: { Job → List ℕ → Type 0 };

    // The machines stand at the start of the job.
    ghost begins: { Self.Machines → Job → Type 0 };

    /// Makes the machines at the start of a job, and allocates all the memory of their run and of the bytes.
    fn ready_state(alloc: Global, job: &Job) -> Result<Self::Machines, NoMemory>
        requires { job.now.frames ≤ 36000 }
        ensures starts { IfOk result (λ machines. begins machines job.now) }
        ensures ends { OnOk result (IsLeft (leaves job.now)) };

    /// Runs the job by the serial console, drops what it emits, and returns the bytes of the state that it ends in.
    fn play_state(machines: Self::Machines) -> Vec<u8>
        requires at_start { (job : Job) × begins machines job }
        ensures { (job : Job) → begins machines job → leaves job result.items };
}
