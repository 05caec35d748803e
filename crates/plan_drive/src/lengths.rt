ghost use Rattle.std.specs.Prelude.{◌≡◌, ◌≤◌, ◌-◌, ◌+◌};
ghost use Rattle.input_files.specs.Plan.{frames_in};
ghost use Rattle.plan_drive.specs.Paths.{no_paths};
ghost use Rattle.plan_drive.specs.Samples.{samples_to, samples_in};

use clock_ratio::{end_stamp_in, samples_before_in};
use input_files::{Plan, PlanStep};
use snes_defs::Region;

/// The length of a plan.
#[derive(Clone, Copy)]
pub struct Lengths {
    /// The number of frames that its goes last.
    pub frames: u32,
    /// The number of samples that its goes last.
    pub samples: u64,
}

/// The number of samples before the end of the first `frames` frames.
fn samples_to(region: Region, frames: u32) -> u64
    requires { frames ≤ 36000 }
    ensures { result ≡ samples_to region frames }
{
    samples_before_in(region, end_stamp_in(region, frames))
}

/// The number of frames and of samples that the goes of a plan last.
pub fn measure(plan: &Plan) -> Lengths
    ensures frames { result.frames ≡ frames_in plan.now.steps }
    ensures samples { result.samples ≡ samples_in plan.now.region plan.now.steps no_paths }
{
    let region = plan.region();
    let mut frames = 0u32;
    let mut samples = 0u64;
    // The length of the path, and the path that each slot holds.
    let mut path = 0u32;
    let mut held = [0u32; 8];
    for step in plan.steps() {
        match *step {
            PlanStep::Go { count, .. } => {
                samples += samples_to(region, path + count) - samples_to(region, path);
                frames += count;
                path += count;
            }
            PlanStep::Keep(slot) => held[slot as usize] = path,
            PlanStep::Back(slot) => path = held[slot as usize],
            PlanStep::Reset => {}
        }
    }
    Lengths { frames, samples }
}
