ghost use Rattle.std.specs.Prelude.{◌≡◌, ◌+◌, ◌<◌, ◌≤◌, ◌↔◌, ℕ, false, [], length, max, OnOk, IfOk, IsTrue};
ghost use Rattle.snes_defs.specs.declared.cart.Job.{Job};
ghost use Rattle.snes_defs.specs.Script.{frames_of};
ghost use Rattle.input_files.specs.declared.plan.PlanStep.TheVariants.{Reset};
ghost use Rattle.plan_drive.specs.Paths.{Path, Paths, empty_path, no_paths, gone, reset_there, MayPress, kept, back, after_step, room_of, slots_of, path_script};
ghost use Rattle.side_law.specs.Serial.{SerialState};
ghost use Rattle.console_steps.specs.ConsoleState.{ConsoleState};
ghost use Rattle.console_machine.specs.Playing.{console_played};
ghost use Rattle.audio_side.specs.Sound.{SoundState};
ghost use Rattle.run_drive.specs.Played.{IsPlayable};
ghost use Rattle.plan_drive.specs.Joins.{Joins};
ghost use Rattle.snapshot.specs.Path.{PathEmits};
ghost use Rattle.snapshot.specs.Positions.{IsRested, IsGoing, StandsIn, slot_count, video_waiting, audio_waiting};
ghost use Rattle.snapshot.specs.Stepped.{stepped_of, StepsNone};

use crate::memory::{count_room, count_slots, first_runs};
use crate::run::{Run, copy_run, first_run};
use input_files::Plan;
use snes_defs::{Job, NoMemory, Side, Span};
use std::alloc::Global;

mod going;
mod playing;

/// A console and a sound side on a path, and their save states in slots.
#[derive(Drop)]
pub struct Rewind {
    run: Run,
    slots: Vec<Run>,
}

/// Whether the button may be pressed where a path of so many frames ends, of which a reset may begin the next one.
fn may_press(frames: u32, is_reset: bool) -> bool
    ensures { IsTrue result ↔ ((0 < frames) × (is_reset ≡ false)) }
{
    frames > 0 && !is_reset
}

impl Rewind {
    /// Returns the machines of a job with an empty script, at its start, and `slots` slots, which hold the start too.
    /// A path may have `spans` spans, or as many as the script has memory for, and as many resets.
    ///
    /// Allocates all memory for these, and fails only if allocation fails.
    pub fn with_room(
        alloc: Global,
        job: &Job,
        spans: usize,
        slots: usize,
    ) -> Result<Rewind, NoMemory>
        requires script { job.now.script ≡ path_script job.now.region job.now.script.room empty_path }
        ensures rested { IfOk result (λ r. IsRested job.now (max job.now.script.room spans) no_paths r) }
        ensures slots { IfOk result (λ r. slot_count r ≡ slots) }
        ensures stepped { IfOk result (λ r. stepped_of r ≡ 0) }
    {
        let run = first_run(alloc, job, spans)?;
        let held = first_runs(alloc, job, spans, slots)?;
        Ok(Rewind { run, slots: held })
    }

    /// Returns the machines of a job with an empty script, at its start, and the slots of a plan, which hold the start
    /// too.
    ///
    /// Allocates all memory that the plan needs, and fails only if allocation fails.
    pub fn new(alloc: Global, job: &Job, plan: &Plan) -> Result<Rewind, NoMemory>
        requires script { job.now.script ≡ path_script job.now.region job.now.script.room empty_path }
        ensures rested { IfOk result (λ r. IsRested job.now (max job.now.script.room (room_of plan.now.steps)) no_paths r) }
        ensures slots { IfOk result (λ r. slot_count r ≡ slots_of plan.now.steps) }
        ensures stepped { IfOk result (λ r. stepped_of r ≡ 0) }
        ensures ends { OnOk result (IsPlayable (Joins (PathEmits job.now (max job.now.script.room (room_of plan.now.steps))) plan.now.steps no_paths)) }
    {
        let room = count_room(plan.steps());
        let slots = count_slots(plan.steps());
        Rewind::with_room(alloc, job, room, slots)
    }

    /// The number of frames that the path lasts.
    pub fn frames(&self) -> u32
        ensures { (job : Job) (n : ℕ) (paths : Paths) → IsRested job n paths self.now → result ≡ frames_of paths.path.spans }
    {
        self.run.frames()
    }

    /// The number of slots.
    pub fn slots(&self) -> usize
        ensures { result ≡ slot_count self.now }
    {
        self.slots.len()
    }

    /// The stamps by which the two machines were stepped since `with_room`, added up. It stays at its highest number.
    pub fn stepped(&self) -> u64
        ensures { result ≡ stepped_of self.now }
    {
        self.run.stepped()
    }

    /// Puts a span at the end of the path, and starts to play it. The machines stay, except for the console's script
    /// and the pads that it gives. Nothing is allocated.
    pub fn begin(&mut self, span: Span)
        requires rested { (job : Job) × (n : ℕ) × (paths : Paths) × IsRested job n paths self.old × (length paths.path.spans < n) × (frames_of paths.path.spans + span.count ≤ 36000) }
        ensures going { (job : Job) (n : ℕ) (paths : Paths) → IsRested job n paths self.old → IsGoing job n (gone paths span) paths.path [] [] self.new }
        ensures no_video { video_waiting self.new ≡ [] }
        ensures no_audio { audio_waiting self.new ≡ [] }
        ensures machines { (w : SerialState ConsoleState SoundState) → StandsIn self.old w → StandsIn self.new (record w { console = console_played w.console span }) }
        ensures slots { slot_count self.new ≡ slot_count self.old }
        ensures waits { StepsNone self.old self.new }
    {
        self.run.play(span);
    }

    /// Whether the reset button may be pressed at the end of the path: there are frames before it, and the button was
    /// not pressed there.
    pub fn may_reset(&self) -> bool
        ensures { (job : Job) (n : ℕ) (paths : Paths) → IsRested job n paths self.now
            → IsTrue result ↔ MayPress paths.path }
    {
        let frames = self.run.frames();
        may_press(frames, self.run.is_reset_in(frames))
    }

    /// Presses the reset button at the end of the path, if it may be pressed there. Nothing is allocated.
    pub fn reset_if_may(&mut self)
        requires rested { (job : Job) × (n : ℕ) × (paths : Paths) × IsRested job n paths self.old
            × (length paths.path.resets < n) }
        ensures reset { (job : Job) (n : ℕ) (paths : Paths) → IsRested job n paths self.old
            → IsRested job n (after_step paths Reset) self.new }
        ensures slots { slot_count self.new ≡ slot_count self.old }
        ensures waits { StepsNone self.old self.new }
    {
        if self.may_reset() {
            self.reset();
        }
    }

    /// Presses the reset button at the end of the path, with the first step after it. The path must have frames, and
    /// the button must not have been pressed there. Nothing is allocated.
    pub fn reset(&mut self)
        requires rested { (job : Job) × (n : ℕ) × (paths : Paths) × IsRested job n paths self.old
            × (length paths.path.resets < n) × MayPress paths.path }
        ensures reset { (job : Job) (n : ℕ) (paths : Paths) → IsRested job n paths self.old
            → IsRested job n (reset_there paths) self.new }
        ensures slots { slot_count self.new ≡ slot_count self.old }
        ensures waits { StepsNone self.old self.new }
    {
        let frame = self.run.frames();
        self.run.press(frame);
    }

    /// Stores the path and its machines in a slot. Nothing is allocated.
    pub fn keep(&mut self, slot: u8)
        requires rested { (job : Job) × (n : ℕ) × (paths : Paths) × IsRested job n paths self.old }
        requires slot { slot < slot_count self.old }
        ensures kept { (job : Job) (n : ℕ) (paths : Paths) → IsRested job n paths self.old → IsRested job n (kept paths slot) self.new }
        ensures slots { slot_count self.new ≡ slot_count self.old }
        ensures waits { StepsNone self.old self.new }
    {
        copy_run(&self.run, &mut self.slots[slot as usize]);
    }

    /// Replaces the path and its machines by those that a slot holds. Nothing is allocated.
    pub fn back(&mut self, slot: u8)
        requires rested { (job : Job) × (n : ℕ) × (paths : Paths) × IsRested job n paths self.old }
        requires slot { slot < slot_count self.old }
        ensures back { (job : Job) (n : ℕ) (paths : Paths) → IsRested job n paths self.old → IsRested job n (back paths slot) self.new }
        ensures slots { slot_count self.new ≡ slot_count self.old }
        ensures waits { StepsNone self.old self.new }
    {
        copy_run(&self.slots[slot as usize], &mut self.run);
    }
}
