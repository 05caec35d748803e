// Turns of a serial console behind the end of a job, up to a moment at which a sound file can be taken.
ghost use Rattle.std.specs.Prelude.{◌≡◌, ◌^◌, ◌<◌, ◌≤◌, [], IsTrue, length, min};
ghost use Rattle.clock_ratio.specs.Stamp.{rate_of};
ghost use Rattle.snes_defs.specs.declared.ports.Side.TheVariants.{Sound};
ghost use Rattle.side_law.specs.Serial.{SerialState, turn};
ghost use Rattle.serial_console.specs.Serial.{IsAt, console_of, sound_of};
ghost use Rattle.console_machine.specs.Side as console_side;
ghost use Rattle.console_steps.specs.ConsoleState.{ConsoleState};
ghost use Rattle.audio_side.specs.Sound.{SoundState};
ghost use Rattle.audio_side.specs.Sound as sound_side;
ghost use Rattle.job_player.specs.Sounded.{IsInTime, IsMoment, HasGone};

use audio_side::AudioSide;
use clock_ratio::SOUND_RATE;
use console_machine::ConsoleSide;
use serial_console::Serial;
use side_law::Machine;
use snes_defs::Region;

/// For how many cycles the search is for a moment in a cycle that 128 divides.
const FAR: u64 = 100_000;

/// The most turns of the search.
const MOST_TURNS: u32 = 1_048_576;

/// The last stamp at which a turn is made. No job comes there.
const LAST: u64 = 1 << 62;

/// Drops the bytes that are pending in a machine.
fn hush<M: Machine>(machine: &mut M, bytes: &mut [u8])
    requires { 0 < length bytes.old }
    ensures state { (m : M.State) → M.stands machine.old m → M.stands machine.new m }
    ensures stamp { M.stamp_of machine.new ≡ M.stamp_of machine.old }
    ensures empty { M.waiting machine.new ≡ [] }
{
    'pending: while machine.pending() > 0 {
        let _count = machine.drain(bytes);
    }
}

/// Drops the bytes that are pending in both machines.
pub(crate) fn hush_both<C: Machine, S: Machine>(serial: &mut Serial<C, S>, bytes: &mut [u8])
    requires { 0 < length bytes.old }
    ensures stays { (w : SerialState C.State S.State) → IsAt C.stands S.stands serial.old w → IsAt C.stands S.stands serial.new w }
    ensures no_video { C.waiting (console_of serial.new) ≡ [] }
    ensures no_audio { S.waiting (sound_of serial.new) ≡ [] }
{
    hush(serial.console(), bytes);
    hush(serial.sound(), bytes);
}

/// Takes the next turn, and drops what is emitted.
fn silent_turn<C: Machine, S: Machine>(serial: &mut Serial<C, S>, bytes: &mut [u8])
    requires console_room { C.MOST ≤ C.CAP }
    requires sound_room { S.MOST ≤ S.CAP }
    requires some { 0 < length bytes.old }
    requires no_video { C.waiting (console_of serial.old) ≡ [] }
    requires no_audio { S.waiting (sound_of serial.old) ≡ [] }
    requires early { min (C.stamp_of (console_of serial.old)) (S.stamp_of (sound_of serial.old)) ≤ 2 ^ 62 }
    ensures turned { (w : SerialState C.State S.State) → IsAt C.stands S.stands serial.old w → IsAt C.stands S.stands serial.new (turn C.moves S.moves w) }
    ensures no_video { C.waiting (console_of serial.new) ≡ [] }
    ensures no_audio { S.waiting (sound_of serial.new) ≡ [] }
{
    let _side = serial.turn();
    hush_both(serial, bytes);
}

/// Stamps per cycle of the sound side.
fn rate(region: Region) -> u64
    ensures value { result ≡ rate_of region Sound }
    ensures positive { 0 < result }
{
    match region {
        Region::Ntsc => SOUND_RATE,
        Region::Pal => 2_128_137,
    }
}

/// The number of the sound side's next cycle.
fn cycle_of(sound: &AudioSide) -> u64
    ensures { result ≡ sound.now.clock.cycle }
{
    sound.stamp() / rate(sound.region())
}

/// Whether samples and ticks after this cycle come as in the job, or the search has gone on for long.
fn is_in_time(first: u64, cycle: u64) -> bool
    ensures { IsTrue result → IsInTime first cycle }
{
    if cycle % 128 == 0 {
        return true;
    }
    cycle > first && cycle - first > FAR
}

/// Whether a sound file can be taken here.
fn is_moment(sound: &AudioSide, first: u64) -> bool
    ensures { IsTrue result → (m : SoundState) → sound_side.StandsAt sound.now m → IsMoment first m }
{
    if sound.processor().is_halted() {
        return true;
    }
    if !is_in_time(first, cycle_of(sound)) {
        return false;
    }
    match sound.begins() {
        Some(_regs) => true,
        None => false,
    }
}

/// Runs on to the first moment that is found at which a sound file can be taken.
pub(crate) fn go_to_moment(serial: &mut Serial<ConsoleSide, AudioSide>, bytes: &mut [u8])
    requires some { 0 < length bytes.old }
    requires no_video { (console_of serial.old).waiting ≡ [] }
    requires no_audio { (sound_of serial.old).waiting ≡ [] }
    ensures gone { (w : SerialState ConsoleState SoundState) → IsAt console_side.StandsAt sound_side.StandsAt serial.old w → HasGone w serial.new }
{
    let (_, sound) = serial.machines();
    let first = cycle_of(sound);
    'turns: for turns in 0..MOST_TURNS {
        let (console, sound) = serial.machines();
        if is_moment(sound, first) {
            return;
        }
        if console.stamp() > LAST || sound.stamp() > LAST {
            return;
        }
        silent_turn(serial, bytes);
    }
}
