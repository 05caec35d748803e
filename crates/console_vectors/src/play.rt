use crate::marks::Marks;
use job_player::Console;
use run_drive::Player;
use snes_defs::Job;
use std::alloc::Global;

/// Plays a job by the serial console, and marks what both sides emit.
pub fn play(alloc: Global, job: &Job, marks: &mut Marks) -> Option<()> {
    if job.frames > 36_000 {
        return None;
    }
    let Ok(player) = Console::ready(alloc, job) else {
        return None;
    };
    player.play_serial(marks).ok()
}
