use crate::command::Performs;
use crate::job::{JobFiles, job_of, line_of_run};
use crate::loads::Loads;
use frame_sums::{FrameSums, play_summed, put_sums};
use port_wire::Gate;
use run_drive::Player;
use run_io::{Asked, Count, Form, Line};
use shelf::{Failed, Input, Out, Shelf};
use snes_defs::NoMemory;
use std::alloc::Global;
use std::marker::PhantomData;
use std::thread::Threads;

/// The command `sums`: the run of the job that four inputs make is summed, frame by frame.
#[derive(Drop)]
pub struct SumsRun<P> {
    player: PhantomData<P>,
}

/// A player at the start of a job, the sums of its run, and its line.
#[derive(Drop)]
pub struct ReadySums<P> {
    player: P,
    sums: FrameSums,
    line: Line,
}

static INPUTS: [Input; 4] = [Input::Cart, Input::Boot, Input::Table, Input::Script];

static OPTIONAL: [Input; 3] = [Input::Boot, Input::Table, Input::Script];

static OUTPUTS: [Out; 1] = [Out::Sums];

impl<P: Player> SumsRun<P> {
    pub fn new() -> SumsRun<P> {
        SumsRun {
            player: PhantomData,
        }
    }
}

impl<P: Player> Performs for SumsRun<P> {
    ghost use Rattle.std.specs.Prelude.{◌≡◌, refl};
    ghost use Rattle.snes_defs.specs.declared.cart.Job.{Job};
    ghost use Rattle.run_drive.specs.Played.{IsPlayable};
    ghost use Rattle.snes_commands.specs.Job.{ShowsJob, run_line};
    ghost use Rattle.snes_commands.specs.SumsRun.{sums};
    ghost use Rattle.frame_sums.specs.Digests.{AreNew};

    type Inputs = JobFiles;

    type Ready = ReadySums<P>;

    ghost command = { sums P.emits };

    ghost is_ready = { λ order told ready. (job : Job) × ShowsJob told order.count job × P.plays ready.player job × IsPlayable (P.emits job) × AreNew ready.sums job.region job.frames × (ready.line ≡ run_line job) };

    fn form() -> Form {
        Form {
            numbered: false,
            inputs: &INPUTS,
            optional: &OPTIONAL,
            count: Some(Count::Frames),
            settings: &[],
            outputs: &OUTPUTS,
        }
    }

    fn differs(_line: &Line) -> bool {
        false
    }

    fn ready(
        &self,
        alloc: Global,
        asked: &Asked<'_>,
        inputs: <JobFiles as Loads>::Value,
    ) -> Result<ReadySums<P>, NoMemory> {
        let job = job_of(inputs, asked.count);
        let player = P::ready(alloc, &job)?;
        let sums = FrameSums::new(alloc, job.region, job.frames)?;
        let line = line_of_run(&job);
        Ok(ReadySums { player, sums, line })
    }

    fn fill<R: Threads, H: Shelf>(
        &self,
        _rt: &R,
        _gate: &dyn Gate,
        _asked: &Asked<'_>,
        ready: ReadySums<P>,
        shelf: &mut H,
    ) -> Result<Line, Out> {
        let ReadySums { player, sums, line } = ready;
        let (video, audio) = play_summed(player, sums);
        match put_sums(shelf, &video, &audio) {
            Ok(()) => Ok(line),
            Err(Failed) => Err(Out::Sums),
        }
    }

    ghost inputs_are = { refl };

    ghost outputs_apart = { refl };
}
