ghost use Rattle.std.specs.Prelude.{◌≡◌, ℕ, List, Some, None};
ghost use Rattle.snes_defs.specs.declared.region.Region.{Region};
ghost use Rattle.frame_sums.specs.declared.compare.Difference.{Difference};
ghost use Rattle.frame_sums.specs.SumsFile.{SumsIn};
ghost use Rattle.frame_sums.specs.Compare.{run_pair, run_all, IsFound};
ghost use Rattle.frame_sums_laws.specs.RunSums.{run_sums};

/// States that the sums of a run have no difference from that run, and that no difference can be found.
#[tactic(none)]
pub fn a_run_is_certified_by_its_own_sums()
    ensures none { (region : Region) (frames : ℕ) (video audio : List ℕ)
        → IsFound (run_sums region frames video audio) frames (run_pair region video audio) (run_all video audio) None }
    ensures no_other { (region : Region) (frames : ℕ) (video audio : List ℕ) (difference : Difference)
        → IsFound (run_sums region frames video audio) frames (run_pair region video audio) (run_all video audio)
        (Some difference) → ⊥ }
{}

/// States that a file in which no difference from a run is found has exactly the sums of that run.
#[tactic(none)]
pub fn a_certified_recording_has_these_sums()
    ensures { (region : Region) (frames : ℕ) (video audio : List ℕ) (file : SumsIn)
        → IsFound file frames (run_pair region video audio) (run_all video audio) None
        → file ≡ run_sums region frames video audio }
{}
