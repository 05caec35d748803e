ghost use Rattle.std.specs.Prelude.{◌≡◌, ℕ, List};
ghost use Rattle.sdsp_voice.specs.Sample.{sums_of};
ghost use Rattle.sdsp_voice.specs.declared.voices.Voices.{Voices};
ghost use Rattle.sound_laws.specs.Parts.{IsUnheld, eight, left_alone, right_alone};

/// States that the voices add up: the sums of a sample are those of the eight stems of one voice each, added. This is
/// before the main volume and the echo. No sum and no voice may be held at the ends of 16 bits.
#[tactic(none)]
pub fn the_voices_add_up()
    ensures left { (ram table : List ℕ) (s : ℕ) (d : Voices) → IsUnheld ram table s d
        → (sums_of ram table s d).left ≡ eight (left_alone ram table s d) }
    ensures right { (ram table : List ℕ) (s : ℕ) (d : Voices) → IsUnheld ram table s d
        → (sums_of ram table s d).right ≡ eight (right_alone ram table s d) }
{}
