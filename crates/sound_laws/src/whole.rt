ghost use Rattle.std.specs.Prelude.{◌≡◌, ℕ};
ghost use Rattle.spc_player.specs.Play.{Playing, output, steps_of};
ghost use Rattle.stem_player.specs.Heard.{heard_pairs};

/// States that all nine parts without a fade are what the sound side emits: of n samples, the first k are its first k
/// samples.
#[tactic(none)]
pub fn all_parts_are_the_output()
    ensures { (w : Playing) (n k : ℕ) → heard_pairs (record { stem = 511; fade = 0 }) w n k ≡ output w (steps_of w k) }
{}
