use crate::marks::Marks;
use job_player::{Carrier, Console, play_by_turns};
use port_wire::Gate;
use run_drive::TurnPlayer;
use snes_defs::Job;
use std::thread::Threads;

/// Runs a job on two workers over this wire, marks what they emit, and returns how many turns they made.
pub fn play_on_two<R: AllocGlobal + Threads>(
    rt: &R,
    job: &Job,
    carrier: Carrier,
    gate: &dyn Gate,
    marks: &mut Marks,
) -> Option<u64> {
    if job.frames > 36_000 {
        return None;
    }
    let Ok(turning) = Console::ready_turns(rt.alloc(), job) else {
        return None;
    };
    play_by_turns(turning, rt, carrier, &gate, marks).ok()
}
