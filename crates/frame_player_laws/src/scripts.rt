ghost use Rattle.std.specs.Prelude.{◌≡◌, ◌≤◌, ℕ, List, [], length};
ghost use Rattle.snes_defs.specs.declared.cart.Job.{Job};
ghost use Rattle.snes_defs.specs.declared.profile.Profile.TheVariants.{First};
ghost use Rattle.snes_defs.specs.Script.{frames_of};
ghost use Rattle.plan_drive.specs.Paths.{Path};
ghost use Rattle.snapshot.specs.Path.{PathEmits};
ghost use Rattle.job_player.specs.Start.{Emits};
ghost use Rattle.frame_player.specs.Told.{Told, IsJobOf};
ghost use Rattle.frame_player.specs.Joined.{Frame, ArePlayed, pictures_of, samples_of};
ghost use Rattle.frame_player_laws.specs.Scripts.{HaveSamePads, HasPadsOf, ArePlayedWith, one_span_path, presses_from};

/// States that of a path only the pads of its frames and its resets count. Two paths may have other spans and memory
/// for other numbers of them. If they last the same number of frames, at most 36,000, have the same pads in each, and
/// the same resets, they emit the same.
#[tactic(none)]
pub fn only_the_pads_count()
    ensures { (job : Job) (n m : ℕ) (path other : Path) (video audio : List ℕ)
        → HaveSamePads path.spans other.spans → other.resets ≡ path.resets → frames_of path.spans ≤ 36000
        → PathEmits job n path video audio → PathEmits job m other video audio }
{}

/// States that frames from power-on, joined, are what any path with their pads emits. At most 36,000 frames were played
/// one after another. The path lasts as many frames, in spans of any lengths, gives each frame its pads, and has the
/// resets that were pressed before frames.
#[tactic(none)]
pub fn frames_are_what_any_script_emits()
    ensures { (told : Told) (frames : List Frame) (job : Job) (n : ℕ) (path : Path)
        → told.pads ≡ [] → told.resets ≡ [] → IsJobOf told job → ArePlayed told frames → length frames ≤ 36000
        → frames_of path.spans ≡ length frames → HasPadsOf path.spans frames → path.resets ≡ presses_from 0 frames
        → PathEmits job n path (pictures_of frames) (samples_of frames) }
{}

/// States that frames from power-on, joined, are the output of the job with as many frames whose script is of the first
/// profile, gives each its pads, and has the resets that were pressed. It may last longer than the frames; behind its
/// last span the pads are zeros.
#[tactic(none)]
pub fn frames_are_what_a_job_emits()
    ensures { (told : Told) (frames : List Frame) (job : Job)
        → told.pads ≡ [] → told.resets ≡ [] → IsJobOf told job → ArePlayed told frames → length frames ≤ 36000
        → job.script.profile ≡ First → job.frames ≡ length frames → job.script.resets ≡ presses_from 0 frames
        → HasPadsOf job.script.spans frames
        → Emits job (pictures_of frames) (samples_of frames) }
{}

/// States the plain case: frames from power-on, all played with the same pads, are what a path of one span emits.
#[tactic(none)]
pub fn held_pads_are_one_span()
    ensures { (told : Told) (frames : List Frame) (job : Job) (n pad1 pad2 : ℕ)
        → told.pads ≡ [] → told.resets ≡ [] → IsJobOf told job → ArePlayed told frames → length frames ≤ 36000
        → ArePlayedWith pad1 pad2 frames
        → PathEmits job n (one_span_path (length frames) pad1 pad2 (presses_from 0 frames))
        (pictures_of frames) (samples_of frames) }
{}
