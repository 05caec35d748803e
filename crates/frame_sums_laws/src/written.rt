ghost use Rattle.std.specs.Prelude.{◌≡◌, ◌≤◌, ℕ, List, Ok};
ghost use Rattle.snes_defs.specs.declared.region.Region.{Region};
ghost use Rattle.frame_sums.specs.Text.{sums_text};
ghost use Rattle.frame_sums.specs.SumsFile.{sums_of_file};
ghost use Rattle.frame_sums_laws.specs.RunSums.{run_sums};

/// States that `read_sums` reads back what `put_sums` writes: the text of the sums of a run of at most 36,000 frames is
/// accepted, and has the sums of that run.
#[tactic(none)]
pub fn what_sums_writes_is_read()
    ensures { (region : Region) (frames : ℕ) (video audio : List ℕ) → frames ≤ 36000
        → sums_of_file (sums_text region frames video audio) ≡ Ok (run_sums region frames video audio) }
{}
