ghost use Rattle.std.specs.Prelude.{◌≡◌, ℕ, List, [], OnOk, IfOk, IfErr};
ghost use Rattle.snes_defs.specs.declared.cart.Job.{Job};
ghost use Rattle.input_files.specs.Plan.{PlanValue};
ghost use Rattle.run_drive.specs.Played.{IsPlayable, PlayedWhole, PlayedFirst};
ghost use Rattle.plan_drive.specs.Paths.{empty_path, path_script};
ghost use Rattle.plan_drive.specs.Joins.{PlanEmits};

use input_files::Plan;
use run_drive::{Player, Sink};
use snes_defs::{Job, NoMemory, Side};
use std::alloc::Global;

/// A player of plans: a console whose moments can be kept and gone back to, as save states.
///
/// A plan emits, one after another, what its goes emit. Each go emits the run of its path from the start on, without
/// what the path before had emitted.
pub trait PlanPlayer: Player {
    /// The machines of a job, and all the memory that a plan needs.
    type Planned: Drop;

    // The machines are at the start of the job, and have the memory for the plan.
    ghost plans: { Self.Planned → Job → PlanValue → Type 0 };

    /// Makes the machines of a job without a script, of the plan's region, and allocates all the memory that a plan needs.
    fn ready_plan(alloc: Global, job: &Job, plan: &Plan) -> Result<Self::Planned, NoMemory>
        requires script { job.now.script ≡ path_script job.now.region 0 empty_path }
        requires region { job.now.region ≡ plan.now.region }
        ensures starts { IfOk result (λ planned. plans planned job.now plan.now) }
        ensures ends { OnOk result (IsPlayable (PlanEmits Self.emits job.now plan.now.steps)) };

    /// Plays a plan, and passes the sink what it emits.
    fn play_plan<K: Sink>(planned: Self::Planned, plan: &Plan, sink: &mut K) -> Result<(), Side>
        requires at_start { (job : Job) × plans planned job plan.now }
        requires no_video { K.holds sink.old Side.Console [] }
        requires no_sound { K.holds sink.old Side.Sound [] }
        ensures whole { OnOk result ((job : Job) → plans planned job plan.now → PlayedWhole (PlanEmits Self.emits job plan.now.steps) (K.holds sink.new)) }
        ensures first { (job : Job) → plans planned job plan.now → PlayedFirst (PlanEmits Self.emits job plan.now.steps) (K.holds sink.new) }
        ensures failed { IfErr result (K.failed sink.old sink.new) }
        ensures only { K.only_takes sink.old sink.new };
}
