ghost use Rattle.std.specs.Prelude.{◌≡◌};
ghost use Rattle.run_io.specs.Line.{line_of};
ghost use Rattle.snes_commands.specs.Check.{difference_text, says_difference};

use crate::command::Performs;
use crate::job::{JobFiles, job_of, line_of_run};
use crate::loads::Loads;
use crate::sums_file::SumsInput;
use frame_sums::{Difference, FrameSums, SumsFile, first_difference, play_summed};
use port_wire::Gate;
use run_drive::Player;
use run_io::{Asked, Count, Form, Line, all_differ_line, frame_differs_line, frames_differ_line};
use shelf::{Input, Out, Shelf};
use snes_defs::{NoMemory, Side};
use std::alloc::Global;
use std::marker::PhantomData;
use std::thread::Threads;

/// The command `check`: the sums of the run of a job are compared with those of a file.
#[derive(Drop)]
pub struct Check<P> {
    player: PhantomData<P>,
}

/// A player at the start of a job, the sums of its run, those of the file, and the line of the run.
#[derive(Drop)]
pub struct ReadyCheck<P> {
    player: P,
    sums: FrameSums,
    file: SumsFile,
    line: Line,
}

static INPUTS: [Input; 5] = [
    Input::Cart,
    Input::Boot,
    Input::Table,
    Input::Script,
    Input::Sums,
];

static OPTIONAL: [Input; 3] = [Input::Boot, Input::Table, Input::Script];

impl<P: Player> Check<P> {
    pub fn new() -> Check<P> {
        Check {
            player: PhantomData,
        }
    }
}

/// Returns the line of a difference.
fn difference_line(difference: Difference) -> Line
    ensures { result ≡ line_of (difference_text difference) }
{
    match difference {
        Difference::Picture(frame) => frame_differs_line(frame, Side::Console),
        Difference::Sound(frame) => frame_differs_line(frame, Side::Sound),
        Difference::Frames => frames_differ_line(),
        Difference::AllPictures => all_differ_line(Side::Console),
        Difference::AllSound => all_differ_line(Side::Sound),
    }
}

impl<P: Player> Performs for Check<P> {
    ghost use Rattle.std.specs.Prelude.{◌≡◌, refl, List, ℕ, IfSome};
    ghost use Rattle.shelf.specs.declared.shelves.Input.TheVariants as input;
    ghost use Rattle.snes_defs.specs.declared.cart.Job.{Job};
    ghost use Rattle.run_drive.specs.Played.{IsPlayable};
    ghost use Rattle.frame_sums.specs.Digests.{AreNew};
    ghost use Rattle.snes_commands.specs.Job.{ShowsJob, run_line};
    ghost use Rattle.snes_commands.specs.Kinds.{IsSumsIn};
    ghost use Rattle.snes_commands.specs.Check.{check};

    type Inputs = (JobFiles, SumsInput);

    type Ready = ReadyCheck<P>;

    ghost command = { check P.emits };

    ghost is_ready = { λ order told ready. (job : Job) × ShowsJob told order.count job × IfSome (told input.Sums) (λ bytes. IsSumsIn bytes ready.file) × P.plays ready.player job × IsPlayable (P.emits job) × AreNew ready.sums job.region job.frames × (ready.line ≡ run_line job) };

    fn form() -> Form {
        Form {
            numbered: false,
            inputs: &INPUTS,
            optional: &OPTIONAL,
            count: Some(Count::Frames),
            settings: &[],
            outputs: &[],
        }
    }

    fn differs(line: &Line) -> bool {
        line.bytes().starts_with(b"differs")
    }

    fn ready(
        &self,
        alloc: Global,
        asked: &Asked<'_>,
        inputs: <(JobFiles, SumsInput) as Loads>::Value,
    ) -> Result<ReadyCheck<P>, NoMemory> {
        let (files, file) = inputs;
        let job = job_of(files, asked.count);
        let player = P::ready(alloc, &job)?;
        let sums = FrameSums::new(alloc, job.region, job.frames)?;
        let line = line_of_run(&job);
        Ok(ReadyCheck {
            player,
            sums,
            file,
            line,
        })
    }

    /// Nothing is put: the line has the first difference, if there is one.
    fn fill<R: Threads, H: Shelf>(
        &self,
        _rt: &R,
        _gate: &dyn Gate,
        _asked: &Asked<'_>,
        ready: ReadyCheck<P>,
        _shelf: &mut H,
    ) -> Result<Line, Out> {
        let ReadyCheck {
            player,
            sums,
            file,
            line,
        } = ready;
        let (video, audio) = play_summed(player, sums);
        match first_difference(&file, &video, &audio) {
            Some(difference) => Ok(difference_line(difference)),
            None => Ok(line),
        }
    }

    ghost inputs_are = { refl };

    ghost outputs_apart = { refl };
}
