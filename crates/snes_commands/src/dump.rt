use crate::command::Performs;
use crate::job::{JobFiles, job_of, line_of_run};
use crate::loads::Loads;
use port_wire::Gate;
use run_drive::StatePlayer;
use run_io::{Asked, Count, Form, Line};
use shelf::{Failed, Input, Out, Shelf};
use snes_defs::NoMemory;
use std::alloc::Global;
use std::marker::PhantomData;
use std::thread::Threads;

/// The command `dump`: the job that four inputs make is run, and the registers and memories at its end become a file.
#[derive(Drop)]
pub struct Dump<P> {
    player: PhantomData<P>,
}

/// The machines at the start of a job, and the line of its run.
#[derive(Drop)]
pub struct ReadyDump<M> {
    machines: M,
    line: Line,
}

static INPUTS: [Input; 4] = [Input::Cart, Input::Boot, Input::Table, Input::Script];

static OPTIONAL: [Input; 3] = [Input::Boot, Input::Table, Input::Script];

static OUTPUTS: [Out; 1] = [Out::State];

impl<P: StatePlayer> Dump<P> {
    pub fn new() -> Dump<P> {
        Dump {
            player: PhantomData,
        }
    }
}

impl<P: StatePlayer> Performs for Dump<P> {
    ghost use Rattle.std.specs.Prelude.{◌≡◌, refl};
    ghost use Rattle.snes_defs.specs.declared.cart.Job.{Job};
    ghost use Rattle.run_drive.specs.Ended.{IsLeft};
    ghost use Rattle.snes_commands.specs.Job.{ShowsJob, run_line};
    ghost use Rattle.snes_commands.specs.Dump.{dump};

    type Inputs = JobFiles;

    type Ready = ReadyDump<P::Machines>;

    ghost command = { dump P.leaves };

    ghost is_ready = { λ order told ready. (job : Job) × ShowsJob told order.count job × P.begins ready.machines job × IsLeft (P.leaves job) × (ready.line ≡ run_line job) };

    fn form() -> Form {
        Form {
            numbered: false,
            inputs: &INPUTS,
            optional: &OPTIONAL,
            count: Some(Count::Frames),
            settings: &[],
            outputs: &OUTPUTS,
        }
    }

    fn differs(_line: &Line) -> bool {
        false
    }

    fn ready(
        &self,
        alloc: Global,
        asked: &Asked<'_>,
        inputs: <JobFiles as Loads>::Value,
    ) -> Result<ReadyDump<P::Machines>, NoMemory> {
        let job = job_of(inputs, asked.count);
        let machines = P::ready_state(alloc, &job)?;
        let line = line_of_run(&job);
        Ok(ReadyDump { machines, line })
    }

    fn fill<R: Threads, H: Shelf>(
        &self,
        _rt: &R,
        _gate: &dyn Gate,
        _asked: &Asked<'_>,
        ready: ReadyDump<P::Machines>,
        shelf: &mut H,
    ) -> Result<Line, Out> {
        let ReadyDump { machines, line } = ready;
        let bytes = P::play_state(machines);
        match shelf.put(Out::State, bytes.as_slice()) {
            Ok(()) => Ok(line),
            Err(Failed) => Err(Out::State),
        }
    }

    ghost inputs_are = { refl };

    ghost outputs_apart = { refl };
}
