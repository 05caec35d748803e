ghost use Rattle.std.specs.Prelude.{◌≡◌, ℕ, List, [], Option, OnOk, IfErr};
ghost use Rattle.snes_defs.specs.declared.cart.Job.{Job};
ghost use Rattle.shelf.specs.declared.shelves.Input.{Input};
ghost use Rattle.shelf.specs.Told.{Holds, HasRisen};
ghost use Rattle.run_drive.specs.Outputs.{OnlyFills, output_of};
ghost use Rattle.run_drive.specs.Played.{PlayedWhole, PlayedFirst};
ghost use Rattle.plan_drive.specs.Paths.{empty_path, path_script};
ghost use Rattle.plan_drive.specs.Joins.{PlanEmits};
ghost use Rattle.snes_commands.specs.Rewind.{ShowsPlan, plan_line};

use crate::boot::BootFile;
use crate::cart::CartFile;
use crate::command::Performs;
use crate::loads::Loads;
use crate::plan::PlanFile;
use crate::table::TableFile;
use input_files::Plan;
use plan_drive::{Lengths, PlanPlayer, measure};
use port_wire::Gate;
use run_drive::out_of;
use run_io::{Asked, Form, Line, frames_line};
use shelf::{Input, Out, Shelf};
use snes_defs::{Job, NoMemory, Profile, Side, Spans};
use std::alloc::Global;
use std::marker::PhantomData;
use std::thread::Threads;

/// The command `rewind`: plays a plan with save states on the console that three inputs make. The plan's `go` lines
/// become video and sound.
#[derive(Drop)]
pub struct Rewind<P> {
    player: PhantomData<P>,
}

/// A player at the start of a plan, the plan, and the line of its run.
#[derive(Drop)]
pub struct ReadyRewind<N> {
    planned: N,
    plan: Plan,
    line: Line,
}

/// The inputs of the command, in their order.
type PlanFiles = (CartFile, (BootFile, (TableFile, PlanFile)));

static INPUTS: [Input; 4] = [Input::Cart, Input::Boot, Input::Table, Input::Plan];

static OUTPUTS: [Out; 2] = [Out::Video, Out::Sound];

impl<P: PlanPlayer> Rewind<P> {
    pub fn new() -> Rewind<P> {
        Rewind {
            player: PhantomData,
        }
    }
}

/// Returns the machines that the inputs make, as a job without a script in the region of the plan, and the plan. A plan is
/// played by the first profile.
fn machines_of(alloc: Global, files: <PlanFiles as Loads>::Value) -> (Job, Plan)
    ensures script { result.0.script ≡ path_script result.0.region 0 empty_path }
    ensures region { result.0.region ≡ result.1.region }
    ensures shows { (told : Input → Option (List ℕ)) → ⟦<PlanFiles as Loads>⟧.reads told files → ShowsPlan told result.0 result.1 }
{
    let (cart, (boot, (table, plan))) = files;
    let region = plan.region();
    let job = Job {
        cart,
        boot,
        table,
        script: Spans::versioned(Vec::new(alloc), region, Profile::First, Vec::new(alloc)),
        frames: 0,
        region,
    };
    (job, plan)
}

/// Returns the line of a plan that was played.
fn line_of_plan(plan: &Plan) -> Line
    ensures { result ≡ plan_line plan.now }
{
    let Lengths { frames, samples } = measure(plan);
    frames_line(frames, samples)
}

/// Plays a plan into video and sound.
fn play_into<P: PlanPlayer, H: Shelf>(
    planned: P::Planned,
    plan: &Plan,
    shelf: &mut H,
) -> Result<(), Side>
    requires at_start { (job : Job) × P.plans planned job plan.now }
    requires video_created { Holds ((H.shown shelf.old).written Out.Video) [] }
    requires sound_created { Holds ((H.shown shelf.old).written Out.Sound) [] }
    ensures whole { OnOk result ((job : Job) → P.plans planned job plan.now → PlayedWhole (PlanEmits P.emits job plan.now.steps) (λ side bytes. Holds ((H.shown shelf.new).written (output_of side)) bytes)) }
    ensures first { (job : Job) → P.plans planned job plan.now → PlayedFirst (PlanEmits P.emits job plan.now.steps) (λ side bytes. Holds ((H.shown shelf.new).written (output_of side)) bytes) }
    ensures failed { IfErr result (λ side. HasRisen ((H.shown shelf.old).write_faults (output_of side)) ((H.shown shelf.new).write_faults (output_of side))) }
    ensures only { OnlyFills (H.shown shelf.old) (H.shown shelf.new) }
{
    P::play_plan(planned, plan, shelf)
}

impl<P: PlanPlayer> Performs for Rewind<P> {
    ghost use Rattle.std.specs.Prelude.{◌≡◌, refl};
    ghost use Rattle.snes_defs.specs.declared.cart.Job.{Job};
    ghost use Rattle.run_drive.specs.Played.{IsPlayable};
    ghost use Rattle.plan_drive.specs.Joins.{PlanEmits};
    ghost use Rattle.snes_commands.specs.Rewind.{ShowsPlan, plan_line, rewind};

    type Inputs = PlanFiles;

    type Ready = ReadyRewind<P::Planned>;

    ghost command = { rewind P.emits };

    ghost is_ready = { λ order told ready. (job : Job) × ShowsPlan told job ready.plan × P.plans ready.planned job ready.plan × IsPlayable (PlanEmits P.emits job ready.plan.steps) × (ready.line ≡ plan_line ready.plan) };

    fn form() -> Form {
        Form {
            numbered: false,
            inputs: &INPUTS,
            optional: &[],
            count: None,
            settings: &[],
            outputs: &OUTPUTS,
        }
    }

    fn differs(_line: &Line) -> bool {
        false
    }

    fn ready(
        &self,
        alloc: Global,
        _asked: &Asked<'_>,
        inputs: <PlanFiles as Loads>::Value,
    ) -> Result<ReadyRewind<P::Planned>, NoMemory> {
        let (job, plan) = machines_of(alloc, inputs);
        let planned = P::ready_plan(alloc, &job, &plan)?;
        let line = line_of_plan(&plan);
        Ok(ReadyRewind {
            planned,
            plan,
            line,
        })
    }

    fn fill<R: Threads, H: Shelf>(
        &self,
        _rt: &R,
        _gate: &dyn Gate,
        _asked: &Asked<'_>,
        ready: ReadyRewind<P::Planned>,
        shelf: &mut H,
    ) -> Result<Line, Out> {
        let ReadyRewind {
            planned,
            plan,
            line,
        } = ready;
        match play_into::<P, H>(planned, &plan, shelf) {
            Ok(()) => Ok(line),
            Err(side) => Err(out_of(side)),
        }
    }

    ghost inputs_are = { refl };

    ghost outputs_apart = { refl };
}
