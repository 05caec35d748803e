ghost use Rattle.std.specs.Prelude.{◌≡◌, IfOk, IfErr};
ghost use Rattle.snes_defs.specs.declared.cart.Job.{Job};
ghost use Rattle.memory_player.specs.Inputs.{told_of};
ghost use Rattle.memory_player.specs.Slices.{OnlyFills};
ghost use Rattle.memory_player.specs.Played.{FilledWhole, EndsFill, PlayedInto, EndsShort};

use crate::filling::Filling;
use crate::inputs::{End, Inputs, job_in};
use crate::slices::{Counts, Slices};
use run_drive::Player;
use snes_defs::MOST_FRAMES;
use std::alloc::Global;

/// Reads a job of `frames` frames from four slices, plays it by the serial console, and fills a slice with its video
/// and one with its sound.
///
/// A frame has 244,736 bytes of video and about 533 samples, of 4 bytes each. At Ok both slices begin with the whole
/// output of the job, followed by what they held there before. At `TooShort` they hold a prefix of it, and that slice
/// is shorter than its output. At every other end they are unchanged.
#[tactic(auto, using(crate::proofs::Fronts::ends))]
pub fn play<P: Player>(
    alloc: Global,
    inputs: Inputs<'_>,
    frames: u32,
    video: &mut [u8],
    sound: &mut [u8],
) -> Result<Counts, End>
    ensures whole { IfOk result (λ counts. PlayedInto P.emits (told_of inputs.entry.cart.now inputs.entry.boot.now inputs.entry.table.now inputs.entry.script.now) frames video.old sound.old video.new sound.new counts.video counts.sound) }
    ensures ends { IfErr result (EndsShort P.emits (told_of inputs.entry.cart.now inputs.entry.boot.now inputs.entry.table.now inputs.entry.script.now) frames video.old sound.old video.new sound.new) }
{
    if frames > MOST_FRAMES {
        return Err(End::Frames);
    }
    let job = job_in(alloc, inputs, frames)?;
    let Ok(player) = P::ready(alloc, &job) else {
        return Err(End::NoMemory);
    };
    fill_from(alloc, player, video, sound)
}

/// Plays a job, and fills the slices with what it emits. The run fills copies, which are copied to the slices at its
/// end. If a sink kept a slice itself, nothing would say that it is still the caller's.
fn fill_from<P: Player>(
    alloc: Global,
    player: P,
    video: &mut [u8],
    sound: &mut [u8],
) -> Result<Counts, End>
    requires { (job : Job) × P.plays player job }
    ensures whole { (job : Job) → P.plays player job → IfOk result (λ counts. FilledWhole (P.emits job) video.old sound.old video.new sound.new counts.video counts.sound) }
    ensures short { (job : Job) → P.plays player job → IfErr result (EndsFill (P.emits job) video.old sound.old video.new sound.new) }
{
    let Ok(video_copy) = Filling::over(alloc, video) else {
        return Err(End::NoMemory);
    };
    let Ok(sound_copy) = Filling::over(alloc, sound) else {
        return Err(End::NoMemory);
    };
    let mut slices = Slices {
        video: video_copy,
        sound: sound_copy,
    };
    let filled = run_into(player, &mut slices);
    video.copy_from_slice(slices.video.bytes.as_slice());
    sound.copy_from_slice(slices.sound.bytes.as_slice());
    filled
}

/// Plays a job into the copies of the slices.
#[tactic(auto, using(crate::proofs::Fronts::fills))]
fn run_into<P: Player>(player: P, slices: &mut Slices) -> Result<Counts, End>
    requires at_start { (job : Job) × P.plays player job }
    requires no_video { slices.old.video.count ≡ 0 }
    requires no_sound { slices.old.sound.count ≡ 0 }
    ensures whole { (job : Job) → P.plays player job → IfOk result (λ counts. FilledWhole (P.emits job) slices.old.video.bytes.items slices.old.sound.bytes.items slices.new.video.bytes.items slices.new.sound.bytes.items counts.video counts.sound) }
    ensures short { (job : Job) → P.plays player job → IfErr result (EndsFill (P.emits job) slices.old.video.bytes.items slices.old.sound.bytes.items slices.new.video.bytes.items slices.new.sound.bytes.items) }
    ensures only { OnlyFills slices.old slices.new }
{
    match player.play_serial(slices) {
        Ok(()) => slices.counts(),
        Err(side) => Err(End::TooShort(side)),
    }
}
