//! Counts through how many frames a rewinder steps its machines.
//!
//! It plays plans over a cartridge that passes bytes between both sides all the time. It prints through how many frames
//! the machines were stepped. These are the frames of the `go` lines alone, and not those of the path before them
//! again. The clauses of the rewinder say so (`steps` of `Rewind::play`); here a run is measured.

ghost use Rattle.std.specs.Prelude.{◌≡◌, []};
ghost use Rattle.plan_drive.specs.Paths.{empty_path, path_script};

mod jobs;
mod nowhere;

use clock_ratio::FRAME_STAMPS;
use input_files::{Plan, read_plan};
use jobs::talking_job;
use nowhere::Nowhere;
use snapshot::Rewind;
use snes_defs::{Job, NoMemory};
use std::alloc::Global;
use std::io;

/// A plan of three frames, and then one frame three times: twice with equal pads, and once with others in between.
const TRIES: &[u8] =
    b"go 3 0500 0000\nkeep 0\ngo 1 0300 0000\nback 0\ngo 1 0000 0000\nback 0\ngo 1 0300 0000\n";

/// A plan of as many frames without a return.
const STRAIGHT: &[u8] = b"go 6 0500 0000\n";

/// A plan of four frames, and returns to their end.
const RETURNS: &[u8] = b"go 4 0500 0000\nkeep 0\nback 0\nback 0\nkeep 1\nback 1\nback 0\n";

/// Plays a plan from the start of a job, and returns by how many stamps the machines were stepped.
fn play_job(alloc: Global, job: &Job, plan: &Plan) -> Result<Option<u64>, NoMemory>
    requires script { job.now.script ≡ path_script job.now.region 0 empty_path }
{
    let mut rewind = Rewind::new(alloc, job, plan)?;
    let mut buffer = [0u8; 1024];
    match rewind.play(plan, &mut buffer, &mut Nowhere) {
        Ok(()) => Ok(Some(rewind.stepped())),
        Err(_) => Ok(None),
    }
}

/// Returns to how many frames of both sides the stamps of a played plan amount, to the nearest.
fn frames_of(stepped: Result<Option<u64>, NoMemory>) -> Option<u64> {
    let stamps = stepped.ok()??;
    Some(stamps.saturating_add(FRAME_STAMPS) / (2 * FRAME_STAMPS))
}

/// Returns through how many frames a plan steps both sides of a job.
fn count_frames_of(alloc: Global, job: &Job, plan: &[u8]) -> Option<u64>
    requires script { job.now.script ≡ path_script job.now.region 0 empty_path }
{
    match read_plan(alloc, plan) {
        Ok(plan) => frames_of(play_job(alloc, job, &plan)),
        Err(_) => None,
    }
}

/// Returns through how many frames a plan steps both sides.
fn count_frames(alloc: Global, plan: &[u8]) -> Option<u64> {
    let job = talking_job(alloc)?;
    count_frames_of(alloc, &job, plan)
}

/// Prints a plan's count.
fn tell<R: Print>(rt: &R, name: &str, frames: Option<u64>) -> io::Result<()> {
    match frames {
        Some(frames) => println!(rt; "{name}: {frames} frames"),
        None => println!(rt; "{name}: no memory, or no end"),
    }
}

/// Plays all plans.
pub fn show_all<R: AllocGlobal + Print>(rt: &R) -> io::Result<()> {
    let alloc = rt.alloc();
    tell(
        rt,
        "3 frames, and 3 times 1 behind them",
        count_frames(alloc, TRIES),
    )?;
    tell(rt, "6 frames on", count_frames(alloc, STRAIGHT))?;
    tell(rt, "4 frames, and 4 returns", count_frames(alloc, RETURNS))
}
