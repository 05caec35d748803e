ghost use Rattle.std.specs.Prelude.{◌≡◌, ◌≤◌, Option, List, ℕ};
ghost use Rattle.shelf.specs.declared.shelves.Input.{Input};
ghost use Rattle.snes_commands.specs.Job.{ShowsJob, run_line};

use crate::boot::BootFile;
use crate::cart::CartFile;
use crate::loads::Loads;
use crate::script::ScriptFile;
use crate::table::TableFile;
use clock_ratio::{end_stamp_in, samples_before_in};
use run_io::{Line, frames_line};
use snes_defs::Job;

/// The inputs of a job, in their order.
pub type JobFiles = (CartFile, (BootFile, (TableFile, ScriptFile)));

/// Returns the job that the inputs make, with the given number of frames. Its region is that of the script.
pub fn job_of(files: <JobFiles as Loads>::Value, frames: u32) -> Job
    ensures frames { result.frames ≡ frames }
    ensures shows { (told : Input → Option (List ℕ)) → ⟦<JobFiles as Loads>⟧.reads told files → ShowsJob told frames result }
{
    let (cart, (boot, (table, script))) = files;
    let region = script.region();
    Job {
        cart,
        boot,
        table,
        script,
        frames,
        region,
    }
}

/// Returns the line of a job that was run.
pub fn line_of_run(job: &Job) -> Line
    requires { job.now.frames ≤ 36000 }
    ensures { result ≡ run_line job.now }
{
    let end = end_stamp_in(job.region, job.frames);
    frames_line(job.frames, samples_before_in(job.region, end))
}
