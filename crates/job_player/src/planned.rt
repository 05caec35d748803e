use crate::console::{BUFFER, Console};
use input_files::Plan;
use plan_drive::PlanPlayer;
use run_drive::Sink;
use snapshot::Rewind;
use snes_defs::{Job, NoMemory, Side};
use std::alloc::Global;

/// A rewinder at the start of a job, with all memory for a plan, and a buffer.
#[derive(Drop)]
pub struct Planned {
    rewind: Rewind,
    buffer: Vec<u8>,
}

impl PlanPlayer for Console {
    ghost use Rattle.std.specs.Prelude.{◌≡◌, ◌≤◌, vec_len};
    ghost use Rattle.plan_drive.specs.Paths.{no_paths, room_of, slots_of};
    ghost use Rattle.snapshot.specs.Positions.{IsRested, slot_count};

    type Planned = Planned;

    ghost plans = { λ planned job plan. IsRested job (room_of plan.steps) no_paths planned.rewind
        × (slots_of plan.steps ≤ slot_count planned.rewind)
        × (vec_len planned.buffer ≡ 65536) };

    fn ready_plan(alloc: Global, job: &Job, plan: &Plan) -> Result<Planned, NoMemory> {
        let rewind = Rewind::new(alloc, job, plan)?;
        let Ok(buffer) = vec![in alloc; 0u8; BUFFER] else {
            return Err(NoMemory);
        };
        Ok(Planned { rewind, buffer })
    }

    fn play_plan<K: Sink>(planned: Planned, plan: &Plan, sink: &mut K) -> Result<(), Side> {
        let Planned {
            mut rewind,
            mut buffer,
        } = planned;
        rewind.play(plan, buffer.as_mut_slice(), sink)
    }
}
