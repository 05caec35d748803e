ghost use Rattle.std.specs.Prelude.{◌≤◌, ℕ, List};
ghost use Rattle.snes_defs.specs.declared.cart.Job.{Job};
ghost use Rattle.snes_defs.specs.Script.{frames_of};
ghost use Rattle.plan_drive.specs.Paths.{Path};
ghost use Rattle.snapshot.specs.Path.{PathEmits};
ghost use Rattle.recording_sizes.specs.Sizes.{HaveSizesOf};

/// States that a path of n frames, at most 36,000, emits 244,736 bytes of video for each, and 4 bytes for each sample
/// that lies before its end.
#[tactic(none)]
pub fn a_path_has_its_size()
    ensures { (job : Job) (n : ℕ) (path : Path) (video audio : List ℕ) → frames_of path.spans ≤ 36000
        → PathEmits job n path video audio → HaveSizesOf job.region (frames_of path.spans) video audio }
{}
