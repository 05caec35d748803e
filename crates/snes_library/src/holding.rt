// The calls for a console that the caller holds between frames.
ghost use Rattle.std.specs.Prelude.{◌≡◌, ◌≢◌};
ghost use Rattle.frame_player.specs.Told.{MayReset, told_first, gone_on, kept_in, back_to, pressed_in, word_of};
ghost use Rattle.frame_player.specs.Frames.{FramePlayed};
ghost use Rattle.kept_frames.specs.Left.{AsLeft};
ghost use Rattle.snes_library.specs.declared.fault.Fault.{Fault};
ghost use Rattle.snes_library.specs.Holding.{HasEnded, HasBegun, Holds, Stays};
ghost use Rattle.snes_library.specs.Holding.{EndsBegun, EndsPlayed, EndsMoved, EndsReset};
ghost use Rattle.snes_library.specs.Fault.{IsFaultTold};

use crate::answer::SnesAnswer;
use crate::fault::{Fault, REFUSED, fault_status, fault_told, of_begin, of_frame};
use frame_player::{ConsoleInputs, Frames};
use kept_frames::SnesConsole;
use memory_player::End;
use snes_defs::Region;
use std::alloc::Global;

/// Makes a console before its first frame, and returns a status: 0 if it was done.
///
/// The cartridge, the boot ROM and the table are the bytes of the files that `snes serial` takes. No bytes of the last
/// two stand for the free ones. `region` is 0 for NTSC, 1 for PAL. A path may last `most` frames, 1 to 36,000. There are
/// `slots` slots for save states, at most 64. All that the console will need is allocated here, and freed by
/// `snes_end`.
#[unsafe(no_mangle)]
pub extern "C" fn snes_begin(
    alloc: Global,
    console: &mut SnesConsole,
    cart: &[u8],
    boot: &[u8],
    table: &[u8],
    region: u32,
    most: u32,
    slots: u32,
    answer: &mut SnesAnswer,
) -> u32
    requires left { AsLeft console.old }
    ensures left { AsLeft console.new }
    ensures begun { result ≡ 0
        → HasBegun console.old console.new (told_first cart.now boot.now table.now region most slots) }
    ensures done { result ≡ 0 → (answer.new.cause ≡ 0) × (answer.new.place ≡ 0) }
    ensures counts { result ≡ 0 → (answer.new.video ≡ 0) × (answer.new.sound ≡ 0) }
    ensures ends { result ≢ 0 → Stays console.old console.new × (fault : Fault) × IsFaultTold fault result answer.new
        × EndsBegun console.old cart.now boot.now table.now region most slots fault }
{
    if console.is_full() {
        return fault_told(Fault::Full, answer);
    }
    let region_of = match region {
        0 => Region::Ntsc,
        1 => Region::Pal,
        _ => return fault_told(Fault::Region, answer),
    };
    let inputs = ConsoleInputs {
        cart,
        boot,
        table,
        region: region_of,
        most,
        slots,
    };
    let frames = match Frames::begin(alloc, inputs) {
        Ok(frames) => frames,
        Err(end) => return fault_told(of_begin(end), answer),
    };
    let Ok(boxed) = Box::new(alloc, frames) else {
        return fault_told(Fault::End(End::NoMemory), answer);
    };
    console.tell_begun(cart, boot, table, region, most, slots);
    console.fill(boxed);
    done(answer, 0, 0)
}

/// Plays a frame with these pads, and returns a status: 0 if it was done.
///
/// The picture stands at the front of `video`, and the samples at the front of `sound`. `answer` says how many bytes
/// they have. A pad has from bit 15 down B, Y, Select, Start, Up, Down, Left, Right, A, X, L, R; its low four bits count as
/// 0. At every other status the console and both rooms are as they were.
#[unsafe(no_mangle)]
pub extern "C" fn snes_frame(
    alloc: Global,
    console: &mut SnesConsole,
    pad1: u16,
    pad2: u16,
    video: &mut [u8],
    sound: &mut [u8],
    answer: &mut SnesAnswer,
) -> u32
    requires left { AsLeft console.old }
    ensures left { AsLeft console.new }
    ensures played { result ≡ 0 → FramePlayed console.old.kept.told (word_of pad1) (word_of pad2)
        video.old sound.old video.new sound.new answer.new.video answer.new.sound }
    ensures on { result ≡ 0
        → Holds console.old console.new (gone_on console.old.kept.told (word_of pad1) (word_of pad2)) }
    ensures done { result ≡ 0 → (answer.new.cause ≡ 0) × (answer.new.place ≡ 0) }
    ensures ends { result ≢ 0 → Stays console.old console.new × (fault : Fault) × IsFaultTold fault result answer.new
        × EndsPlayed console.old (word_of pad1) (word_of pad2) video.old sound.old video.new sound.new fault }
{
    if !console.is_full() {
        return fault_told(Fault::Empty, answer);
    }
    let mut frames = console.take(alloc);
    match frames.frame(pad1, pad2, video, sound) {
        Ok(counts) => {
            console.tell_frame(pad1, pad2);
            console.fill(frames);
            done(answer, counts.video, counts.sound)
        }
        Err(end) => {
            console.fill(frames);
            fault_told(of_frame(end), answer)
        }
    }
}

/// Stores the present state in a slot, and returns a status: 0 if it was done.
#[unsafe(no_mangle)]
pub extern "C" fn snes_keep(alloc: Global, console: &mut SnesConsole, slot: u32) -> u32
    requires left { AsLeft console.old }
    ensures left { AsLeft console.new }
    ensures kept { result ≡ 0 → Holds console.old console.new (kept_in console.old.kept.told slot) }
    ensures ends { result ≢ 0 → Stays console.old console.new × EndsMoved console.old slot result }
{
    if !console.is_full() {
        return fault_status(Fault::Empty);
    }
    let mut frames = console.take(alloc);
    if !frames.keep(slot) {
        console.fill(frames);
        return fault_status(Fault::Slot);
    }
    console.tell_kept(slot);
    console.fill(frames);
    0
}

/// Returns to the state that a slot holds, and returns a status: 0 if it was done.
#[unsafe(no_mangle)]
pub extern "C" fn snes_back(alloc: Global, console: &mut SnesConsole, slot: u32) -> u32
    requires left { AsLeft console.old }
    ensures left { AsLeft console.new }
    ensures back { result ≡ 0 → Holds console.old console.new (back_to console.old.kept.told slot) }
    ensures ends { result ≢ 0 → Stays console.old console.new × EndsMoved console.old slot result }
{
    if !console.is_full() {
        return fault_status(Fault::Empty);
    }
    let mut frames = console.take(alloc);
    if !frames.back(slot) {
        console.fill(frames);
        return fault_status(Fault::Slot);
    }
    console.tell_back(slot);
    console.fill(frames);
    0
}

/// Presses the reset button, so that the next frame begins with a reset, and returns a status: 0 if it was done.
///
/// It is refused before the first frame of the path, and if it was just pressed.
#[unsafe(no_mangle)]
pub extern "C" fn snes_reset(alloc: Global, console: &mut SnesConsole) -> u32
    requires left { AsLeft console.old }
    ensures left { AsLeft console.new }
    ensures may { result ≡ 0 → MayReset console.old.kept.told }
    ensures pressed { result ≡ 0 → Holds console.old console.new (pressed_in console.old.kept.told) }
    ensures ends { result ≢ 0 → Stays console.old console.new × EndsReset console.old result }
{
    if !console.is_full() {
        return fault_status(Fault::Empty);
    }
    let mut frames = console.take(alloc);
    if !frames.reset() {
        console.fill(frames);
        return REFUSED;
    }
    console.tell_reset();
    console.fill(frames);
    0
}

/// Ends a console, frees all its memory, and returns a status: 0 if there was one.
#[unsafe(no_mangle)]
pub extern "C" fn snes_end(alloc: Global, console: &mut SnesConsole) -> u32
    requires left { AsLeft console.old }
    ensures left { AsLeft console.new }
    ensures ended { result ≡ 0 → HasEnded console.old console.new }
    ensures ends { result ≢ 0 → Stays console.old console.new × (console.old.kept.full ≡ 0) }
{
    if !console.is_full() {
        return fault_status(Fault::Empty);
    }
    drop(console.take(alloc));
    0
}

/// Writes that a call was done, and returns its status.
fn done(answer: &mut SnesAnswer, video: usize, sound: usize) -> u32
    ensures status { result ≡ 0 }
    ensures cause { answer.new.cause ≡ 0 }
    ensures place { answer.new.place ≡ 0 }
    ensures video { answer.new.video ≡ video }
    ensures sound { answer.new.sound ≡ sound }
{
    answer.cause = 0;
    answer.place = 0;
    answer.video = video;
    answer.sound = sound;
    0
}
