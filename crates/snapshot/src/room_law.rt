// A law of the definitions. The function has no code to run: the law is its contract.
ghost use Rattle.std.specs.Prelude.{◌≤◌, ℕ, List};
ghost use Rattle.snes_defs.specs.declared.cart.Job.{Job};
ghost use Rattle.plan_drive.specs.Paths.{Path};
ghost use Rattle.snes_defs.specs.Script.{frames_of};
ghost use Rattle.snapshot.specs.Path.{PathEmits};

/// States that what the run of a path's job emits is the same for whatever number of spans and resets its script has memory.
pub fn room_is_not_seen()
    ensures { (job : Job) (n m : ℕ) (path : Path) (video audio : List ℕ) → frames_of path.spans ≤ 36000 → PathEmits job n path video audio → PathEmits job m path video audio }
{}
