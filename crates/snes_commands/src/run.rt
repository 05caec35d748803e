ghost use Rattle.std.specs.Prelude.{◌≡◌, ◌≤◌, List, [], OnOk, IfOk, IfErr};
ghost use Rattle.snes_defs.specs.declared.cart.Job.{Job};
ghost use Rattle.shelf.specs.Told.{Holds, HasRisen};
ghost use Rattle.run_drive.specs.Outputs.{OnlyFills, output_of};
ghost use Rattle.run_drive.specs.Played.{IsPlayable, PlayedWhole, PlayedFirst};
ghost use Rattle.run_io.specs.Form.{form_by};
ghost use Rattle.snes_commands.specs.Run.{AreReady, run_form};

use crate::command::Performs;
use crate::job::{JobFiles, job_of, line_of_run};
use crate::loads::Loads;
use port_wire::Gate;
use run_drive::{TurnPlayer, out_of};
use run_io::{Asked, Count, Form, Line};
use shelf::{Input, Out, Shelf};
use snes_defs::{Job, NoMemory, Side};
use std::alloc::Global;
use std::marker::PhantomData;
use std::thread::Threads;

/// The way in which the two machines of a run are stepped. They emit the same each way.
#[derive(Clone, Copy)]
pub enum Way {
    /// By the serial console.
    Serial,
    /// By two workers, turn by turn.
    Turns,
    /// By two workers, with words without a lock as ports.
    Words,
}

/// The commands `run`, `serial` and `lockless`: run the job that four inputs make, and write its video and sound.
#[derive(Drop)]
pub struct Run<P> {
    way: Way,
    player: PhantomData<P>,
}

/// The machines of a run at the start of its job, by its way: those that two workers step have what carries their
/// entries too.
#[derive(Drop)]
pub enum Machines<P, T> {
    Serial(P),
    Turns(T),
    Words(T),
}

/// The machines at the start of a job, and the line of its run.
#[derive(Drop)]
pub struct ReadyRun<P, T> {
    machines: Machines<P, T>,
    line: Line,
}

static INPUTS: [Input; 4] = [Input::Cart, Input::Boot, Input::Table, Input::Script];

static OUTPUTS: [Out; 2] = [Out::Video, Out::Sound];

impl<P: TurnPlayer> Run<P> {
    /// Returns the command that steps its machines in this way.
    pub fn by(way: Way) -> Run<P> {
        Run {
            way,
            player: PhantomData,
        }
    }
}

/// Makes the machines of a job, with what they need to be stepped in the given way.
fn machines_by<P: TurnPlayer>(
    alloc: Global,
    way: Way,
    job: &Job,
) -> Result<Machines<P, P::Turning>, NoMemory>
    requires { job.now.frames ≤ 36000 }
    ensures starts { IfOk result (λ machines. AreReady P.plays P.turns machines job.now) }
    ensures ends { OnOk result (IsPlayable (P.emits job.now)) }
{
    match way {
        Way::Serial => Ok(Machines::Serial(P::ready(alloc, job)?)),
        Way::Turns => Ok(Machines::Turns(P::ready_turns(alloc, job)?)),
        Way::Words => Ok(Machines::Words(P::ready_turns(alloc, job)?)),
    }
}

/// Plays a job by its machines.
fn play_by<P: TurnPlayer, R: Threads, H: Shelf>(
    rt: &R,
    gate: &dyn Gate,
    machines: Machines<P, P::Turning>,
    shelf: &mut H,
) -> Result<(), Side>
    requires at_start { (job : Job) × AreReady P.plays P.turns machines job }
    requires video_created { Holds ((H.shown shelf.old).written Out.Video) [] }
    requires sound_created { Holds ((H.shown shelf.old).written Out.Sound) [] }
    ensures whole { OnOk result ((job : Job) → AreReady P.plays P.turns machines job
        → PlayedWhole (P.emits job) (λ side bytes. Holds ((H.shown shelf.new).written (output_of side)) bytes)) }
    ensures first { (job : Job) → AreReady P.plays P.turns machines job
        → PlayedFirst (P.emits job) (λ side bytes. Holds ((H.shown shelf.new).written (output_of side)) bytes) }
    ensures failed { IfErr result (λ side. HasRisen ((H.shown shelf.old).write_faults (output_of side))
        ((H.shown shelf.new).write_faults (output_of side))) }
    ensures only { OnlyFills (H.shown shelf.old) (H.shown shelf.new) }
{
    match machines {
        Machines::Serial(player) => player.play_serial(shelf),
        Machines::Turns(turning) => P::play_turns(turning, rt, gate, shelf),
        Machines::Words(turning) => P::play_words(turning, rt, gate, shelf),
    }
}

impl<P: TurnPlayer> Performs for Run<P> {
    ghost use Rattle.std.specs.Prelude.{◌≡◌, refl};
    ghost use Rattle.snes_defs.specs.declared.cart.Job.{Job};
    ghost use Rattle.run_drive.specs.Played.{IsPlayable};
    ghost use Rattle.snes_commands.specs.Job.{ShowsJob, run_line};
    ghost use Rattle.snes_commands.specs.Run.{run, AreReady};

    type Inputs = JobFiles;

    type Ready = ReadyRun<P, P::Turning>;

    ghost command = { run P.emits };

    ghost is_ready = { λ order told ready. (job : Job) × ShowsJob told order.count job × AreReady P.plays P.turns ready.machines job × IsPlayable (P.emits job) × (ready.line ≡ run_line job) };

    fn form() -> Form {
        Form {
            numbered: false,
            inputs: &INPUTS,
            optional: &[],
            count: Some(Count::Frames),
            settings: &[],
            outputs: &OUTPUTS,
        }
    }

    fn differs(_line: &Line) -> bool {
        false
    }

    fn ready(
        &self,
        alloc: Global,
        asked: &Asked<'_>,
        inputs: <JobFiles as Loads>::Value,
    ) -> Result<ReadyRun<P, P::Turning>, NoMemory> {
        let job = job_of(inputs, asked.count);
        let machines = machines_by::<P>(alloc, self.way, &job)?;
        let line = line_of_run(&job);
        Ok(ReadyRun { machines, line })
    }

    fn fill<R: Threads, H: Shelf>(
        &self,
        rt: &R,
        gate: &dyn Gate,
        _asked: &Asked<'_>,
        ready: ReadyRun<P, P::Turning>,
        shelf: &mut H,
    ) -> Result<Line, Out> {
        let ReadyRun { machines, line } = ready;
        match play_by::<P, R, H>(rt, gate, machines, shelf) {
            Ok(()) => Ok(line),
            Err(side) => Err(out_of(side)),
        }
    }

    ghost inputs_are = { refl };

    ghost outputs_apart = { refl };
}
