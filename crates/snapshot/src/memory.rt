// How much memory a plan needs, and runs at their start.
ghost use Rattle.std.specs.Prelude.{◌≡◌, ◌<◌, ℕ, length, max, slice_index_or, IfOk};
ghost use Rattle.snapshot.specs.declared.run.Run.{Run};
ghost use Rattle.plan_drive.specs.Paths.{empty_path, room_of, slots_of, path_script};
ghost use Rattle.snapshot.specs.Positions.{HoldsPath};

use crate::run::{Run, first_run};
use input_files::PlanStep;
use snes_defs::{Job, NoMemory};
use std::alloc::Global;

/// For how many spans, and for how many resets, a plan needs memory.
pub fn count_room(steps: &[PlanStep]) -> usize
    ensures { result ≡ room_of steps.now }
{
    let mut count = 0;
    for step in steps {
        match step {
            PlanStep::Go { .. } => count += 1,
            PlanStep::Keep(_) => {}
            PlanStep::Back(_) => {}
            PlanStep::Reset => count += 1,
        }
    }
    count
}

/// The number of slots up to the highest that a plan names.
pub fn count_slots(steps: &[PlanStep]) -> usize
    ensures { result ≡ slots_of steps.now }
{
    let mut count = 0;
    for step in steps {
        match step {
            PlanStep::Go { .. } => {}
            PlanStep::Keep(slot) => count = count.max(*slot as usize + 1),
            PlanStep::Back(slot) => count = count.max(*slot as usize + 1),
            PlanStep::Reset => {}
        }
    }
    count
}

/// Returns `count` runs of a job at its start, each with memory for `spans` spans and resets. Fails only if allocation fails.
pub fn first_runs(
    alloc: Global,
    job: &Job,
    spans: usize,
    count: usize,
) -> Result<Vec<Run>, NoMemory>
    requires { job.now.script ≡ path_script job.now.region job.now.script.room empty_path }
    ensures count { IfOk result (λ runs. length runs.items ≡ count) }
    ensures starts { IfOk result (λ runs. (k : ℕ) (other : Run) → k < length runs.items → HoldsPath job.now (max job.now.script.room spans) empty_path (slice_index_or runs.items k other)) }
{
    let mut runs = Vec::new(alloc);
    'runs: for _ in 0..count {
        let run = first_run(alloc, job, spans)?;
        match runs.push(run) {
            Ok(()) => {}
            Err(_) => return Err(NoMemory),
        }
    }
    Ok(runs)
}
