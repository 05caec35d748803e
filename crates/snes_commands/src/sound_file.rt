use crate::command::Performs;
use crate::job::{JobFiles, job_of, line_of_run};
use crate::loads::Loads;
use crate::tagging::{TAG_SETTINGS, tagged};
use port_wire::Gate;
use run_drive::StatePlayer;
use run_io::{Asked, Count, Form, Line};
use shelf::{Failed, Input, Out, Shelf};
use snes_defs::NoMemory;
use std::alloc::Global;
use std::marker::PhantomData;
use std::thread::Threads;

/// The command `spc`: the job that four inputs make is run, and the sound side at its end becomes a sound file, with tags.
#[derive(Drop)]
pub struct SoundFile<Z> {
    player: PhantomData<Z>,
}

/// The machines at the start of a job, and the line of its run.
#[derive(Drop)]
pub struct ReadySoundFile<M> {
    machines: M,
    line: Line,
}

static INPUTS: [Input; 4] = [Input::Cart, Input::Boot, Input::Table, Input::Script];

static OPTIONAL: [Input; 3] = [Input::Boot, Input::Table, Input::Script];

static OUTPUTS: [Out; 1] = [Out::Spc];

impl<Z: StatePlayer> SoundFile<Z> {
    pub fn new() -> SoundFile<Z> {
        SoundFile {
            player: PhantomData,
        }
    }
}

impl<Z: StatePlayer> Performs for SoundFile<Z> {
    ghost use Rattle.std.specs.Prelude.{◌≡◌, refl};
    ghost use Rattle.snes_defs.specs.declared.cart.Job.{Job};
    ghost use Rattle.run_drive.specs.Ended.{IsLeft};
    ghost use Rattle.snes_commands.specs.Job.{ShowsJob, run_line};
    ghost use Rattle.snes_commands.specs.SoundFile.{spc};

    type Inputs = JobFiles;

    type Ready = ReadySoundFile<Z::Machines>;

    ghost command = { spc Z.leaves };

    ghost is_ready = { λ order told ready. (job : Job) × ShowsJob told order.count job × Z.begins ready.machines job × IsLeft (Z.leaves job) × (ready.line ≡ run_line job) };

    fn form() -> Form {
        Form {
            numbered: false,
            inputs: &INPUTS,
            optional: &OPTIONAL,
            count: Some(Count::Frames),
            settings: &TAG_SETTINGS,
            outputs: &OUTPUTS,
        }
    }

    fn differs(_line: &Line) -> bool {
        false
    }

    fn ready(
        &self,
        alloc: Global,
        asked: &Asked<'_>,
        inputs: <JobFiles as Loads>::Value,
    ) -> Result<ReadySoundFile<Z::Machines>, NoMemory> {
        let job = job_of(inputs, asked.count);
        let machines = Z::ready_state(alloc, &job)?;
        let line = line_of_run(&job);
        Ok(ReadySoundFile { machines, line })
    }

    fn fill<R: Threads, H: Shelf>(
        &self,
        _rt: &R,
        _gate: &dyn Gate,
        asked: &Asked<'_>,
        ready: ReadySoundFile<Z::Machines>,
        shelf: &mut H,
    ) -> Result<Line, Out> {
        let ReadySoundFile { machines, line } = ready;
        let file = Z::play_state(machines);
        let bytes = tagged(asked.pairs, file);
        match shelf.put(Out::Spc, bytes.as_slice()) {
            Ok(()) => Ok(line),
            Err(Failed) => Err(Out::Spc),
        }
    }

    ghost inputs_are = { refl };

    ghost outputs_apart = { refl };
}
