use crate::loads::{Loads, fetch};
use crate::status::{Status, Why};
use input_files::{Plan, PlanEnd, read_plan};
use run_io::Word;
use shelf::{Input, Shelf};
use std::alloc::Global;

/// The plan of the command `rewind`: at most 1,048,576 bytes.
pub struct PlanFile;

impl Loads for PlanFile {
    ghost use Rattle.std.specs.Prelude.{[], ◌∷◌, IfSome};
    ghost use Rattle.shelf.specs.declared.shelves.Input.TheVariants as input;
    ghost use Rattle.snes_commands.specs.Kinds.{IsPlanIn};

    type Value = Plan;

    ghost inputs = { input.Plan ∷ [] };

    ghost reads = { λ told plan. IfSome (told input.Plan) (λ bytes. IsPlanIn bytes plan) };

    #[tactic(auto, using(crate::proofs::Loading::told, crate::proofs::KindLemmas::plan))]
    fn load<H: Shelf>(alloc: Global, pairs: &[Word], shelf: &mut H) -> Result<Plan, Status> {
        let file = fetch(alloc, shelf, pairs, Input::Plan, 1_048_576, Why::Plan(0))?;
        match read_plan(alloc, file.as_slice()) {
            Ok(plan) => Ok(plan),
            Err(PlanEnd::Line(line)) => Err(Status::Refused(Why::Plan(line))),
            Err(PlanEnd::NoMemory) => Err(Status::NoMemory),
        }
    }
}
