ghost use Rattle.std.specs.Prelude.{◌≡◌, ℕ, List, Ok};
ghost use Rattle.input_files.specs.Plan.{PlanValue, plan_of};
ghost use Rattle.plan_drive.specs.Paths.{no_paths};
ghost use Rattle.plan_laws.specs.Presses.{AllPress};

/// States that in a plan that was read each reset line presses the button: the path may have a reset at its end there,
/// and gets it.
#[tactic(none)]
pub fn every_reset_is_a_press()
    ensures { (file : List ℕ) (plan : PlanValue) → plan_of file ≡ Ok plan → AllPress plan.steps no_paths }
{}
