ghost use Rattle.std.specs.Prelude.{◌≡◌, ◌≤◌, ◌<◌, ℕ, List, length};
ghost use Rattle.snes_defs.specs.declared.cart.Job.{Job};
ghost use Rattle.snes_defs.specs.declared.ports.Side.{Side};
ghost use Rattle.recording_sizes.specs.Sizes.{HaveSizesOf};
ghost use Rattle.job_player.specs.Start.{Emits};
ghost use Rattle.frame_player.specs.Told.{Told, IsJobOf};
ghost use Rattle.frame_player.specs.declared.ends.FrameEnd.{FrameEnd};
ghost use Rattle.frame_player.specs.Frames.{IsFrameOf, EndsFrame};

/// States that a job of n frames, at most 36,000, emits 244,736 bytes of video for each, and 4 bytes for each sample
/// that lies before its end. The status line of a run has these numbers of frames and samples.
#[tactic(none)]
pub fn a_recording_has_its_size()
    ensures { (job : Job) (video audio : List ℕ) → job.frames ≤ 36000
        → Emits job video audio → HaveSizesOf job.region job.frames video audio }
{}

/// States that a frame of a console that is held has a picture of 244,736 bytes, and at most 2,560 bytes of sound.
#[tactic(none)]
pub fn a_frame_has_its_size()
    ensures { (told : Told) (job : Job) (pad1 pad2 : ℕ) (picture samples : List ℕ) → IsJobOf told job
        → length told.pads < 36000 → IsFrameOf told pad1 pad2 picture samples
        → (length picture ≡ 244736) × (length samples ≤ 2560) }
{}

/// States that rooms of 244,736 and 2,560 bytes are too short for no frame.
#[tactic(none)]
pub fn such_rooms_serve_every_frame()
    ensures { (told : Told) (job : Job) (pad1 pad2 : ℕ) (video sound new_video new_sound : List ℕ) (side : Side)
        → IsJobOf told job → length told.pads < 36000 → 244736 ≤ length video → 2560 ≤ length sound
        → EndsFrame told pad1 pad2 video sound new_video new_sound (FrameEnd.TooShort side) → ⊥ }
{}
