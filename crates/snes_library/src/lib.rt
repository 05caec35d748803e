// The console for programs that are not written in Rattle: a static library.
//
// `snes_play` plays a whole job. It is a thin layer over `memory_player`: a player that has both sides of the console,
// and no lock and no thread. `snes_begin`, `snes_frame`, `snes_reset`, `snes_keep`, `snes_back` and `snes_end` are for
// a console that the caller holds between frames (`kept_frames`, `frame_player`). `embed/snes.h` declares the calls
// for C. `docs/use/EMBEDDING.md` says what is proved of them, and which duties of a caller nothing checks.
#![tactic(auto)]

ghost use Rattle.std.specs.Prelude.{◌≡◌, ◌≢◌};
ghost use Rattle.job_player.specs.Start.{Emits};
ghost use Rattle.memory_player.specs.declared.inputs.End.{End};
ghost use Rattle.memory_player.specs.Inputs.{told_of};
ghost use Rattle.memory_player.specs.Played.{PlayedInto, EndsShort};
ghost use Rattle.snes_library.specs.Answer.{IsToldAs};

mod answer;
mod fault;
mod holding;

pub use answer::SnesAnswer;
use answer::told;
pub use fault::Fault;
pub use holding::{snes_back, snes_begin, snes_end, snes_frame, snes_keep, snes_reset};
use job_player::Console;
use memory_player::{Inputs, play};
use std::alloc::Global;

/// Plays a job of `frames` frames by the serial console, and returns a status: 0 if it was done.
///
/// The cartridge, boot ROM, interpolation table and script are the bytes of the files that `snes serial` takes. At most
/// 36,000 frames. Video takes 244,736 bytes a frame, sound 4 bytes a sample. `answer` says how many bytes of each are
/// at the front of its slice, or the cause. All memory that the call allocates is freed before it returns.
#[unsafe(no_mangle)]
pub extern "C" fn snes_play(
    alloc: Global,
    cart: &[u8],
    boot: &[u8],
    table: &[u8],
    script: &[u8],
    frames: u32,
    video: &mut [u8],
    sound: &mut [u8],
    answer: &mut SnesAnswer,
) -> u32
    ensures whole { result ≡ 0 → PlayedInto Emits (told_of cart.now boot.now table.now script.now) frames
        video.old sound.old video.new sound.new answer.new.video answer.new.sound }
    ensures done { result ≡ 0 → (answer.new.cause ≡ 0) × (answer.new.place ≡ 0) }
    ensures ends { result ≢ 0 → (end : End) × IsToldAs end result answer.new
        × EndsShort Emits (told_of cart.now boot.now table.now script.now) frames
        video.old sound.old video.new sound.new end }
{
    let inputs = Inputs {
        cart,
        boot,
        table,
        script,
    };
    match play::<Console>(alloc, inputs, frames, video, sound) {
        Ok(counts) => {
            answer.cause = 0;
            answer.place = 0;
            answer.video = counts.video;
            answer.sound = counts.sound;
            0
        }
        Err(end) => told(end, answer),
    }
}
