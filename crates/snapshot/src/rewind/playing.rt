// A whole plan, step by step.
ghost use Rattle.std.specs.Prelude.{◌≡◌, ◌≤◌, ℕ, List, [], length, OnOk, IfErr};
ghost use Rattle.snes_defs.specs.declared.cart.Job.{Job};
ghost use Rattle.snes_defs.specs.declared.ports.Side.{Side};
ghost use Rattle.run_drive.specs.Played.{PlayedWhole, PlayedFirst};
ghost use Rattle.plan_drive.specs.Paths.{no_paths, after_steps, room_of, slots_of};
ghost use Rattle.plan_drive.specs.Joins.{Joins};
ghost use Rattle.snapshot.specs.Path.{PathEmits};
ghost use Rattle.snapshot.specs.Positions.{IsRested, slot_count};
ghost use Rattle.snapshot.specs.Stepped.{StepsByGoes};

use super::Rewind;
use input_files::{Plan, PlanStep};
use run_drive::Sink;
use snes_defs::{Side, Span};

impl Rewind {
    /// Plays a plan from the start of its job, and passes the sink what its goes emit. Err names the side of which
    /// the sink failed to take some. The machines take the steps of the goes, and no others.
    pub fn play<K: Sink>(
        &mut self,
        plan: &Plan,
        buffer: &mut [u8],
        sink: &mut K,
    ) -> Result<(), Side>
        requires rested { (job : Job) × (n : ℕ) × IsRested job n no_paths self.old × (room_of plan.now.steps ≤ n) }
        requires slots { slots_of plan.now.steps ≤ slot_count self.old }
        requires no_video { K.holds sink.old Side.Console [] }
        requires no_audio { K.holds sink.old Side.Sound [] }
        requires fits { 1024 ≤ length buffer.old }
        ensures whole { OnOk result ((job : Job) (n : ℕ) → IsRested job n no_paths self.old → PlayedWhole (Joins (PathEmits job n) plan.now.steps no_paths) (K.holds sink.new)) }
        ensures rested { OnOk result ((job : Job) (n : ℕ) → IsRested job n no_paths self.old → IsRested job n (after_steps plan.now.steps no_paths) self.new) }
        ensures steps { OnOk result ((job : Job) (n : ℕ) → IsRested job n no_paths self.old → StepsByGoes job n plan.now.steps self.old self.new) }
        ensures first { (job : Job) (n : ℕ) → IsRested job n no_paths self.old → PlayedFirst (Joins (PathEmits job n) plan.now.steps no_paths) (K.holds sink.new) }
        ensures failed { IfErr result (K.failed sink.old sink.new) }
        ensures only { K.only_takes sink.old sink.new }
    {
        // A count is below 2^64, which the clause `steps` rests on.
        let _count = self.stepped();
        for step in plan.steps() {
            match *step {
                PlanStep::Go { count, pad1, pad2 } => {
                    self.begin(Span { count, pad1, pad2 });
                    match self.go_on(buffer, sink) {
                        Ok(()) => {}
                        Err(side) => return Err(side),
                    }
                }
                PlanStep::Keep(slot) => self.keep(slot),
                PlanStep::Back(slot) => self.back(slot),
                PlanStep::Reset => self.reset_if_may(),
            }
        }
        Ok(())
    }
}
