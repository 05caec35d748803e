ghost use Rattle.std.specs.Prelude.{◌≡◌, ◌≤◌, ℕ, List, Ok, Option, None};
ghost use Rattle.snes_defs.specs.declared.region.Region.{Region};
ghost use Rattle.frame_sums.specs.declared.compare.Difference.{Difference};
ghost use Rattle.frame_sums.specs.Text.{sums_text};
ghost use Rattle.frame_sums.specs.SumsFile.{SumsIn, sums_of_file};
ghost use Rattle.frame_sums.specs.Compare.{run_pair, run_all, IsFound};

/// States that `snes check` finds no difference between a run of at most 36,000 frames and the text that `snes sums`
/// writes of its video and audio: whatever is read of that text, and whatever is found, it is no difference.
#[tactic(none)]
pub fn sums_then_check_finds_no_difference()
    ensures { (region : Region) (frames : ℕ) (video audio : List ℕ) (file : SumsIn) (found : Option Difference)
        → frames ≤ 36000 → sums_of_file (sums_text region frames video audio) ≡ Ok file
        → IsFound file frames (run_pair region video audio) (run_all video audio) found → found ≡ None }
{}
