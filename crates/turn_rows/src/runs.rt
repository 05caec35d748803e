// The ways to run a pair of tapes: by the serial console, and by turns over either wire.
ghost use Rattle.std.specs.Prelude.{◌≡◌, ◌^◌, ◌<◌, ◌≤◌, ◌⊎◌, false, []};
ghost use Rattle.port_wire.specs.Reach.{IsInReach};

use crate::sums::Sums;
use pair_run::{Turned, turn};
use port_log::Ports;
use port_wire::{Gate, Wire};
use run_drive::{pour, run_serial};
use side_law::{Machine, Tape};
use snes_defs::Side;
use std::alloc::AllocGlobal;
use std::rt::Files;
use std::test::Fail;
use std::thread::Threads;
use turn_drive::run_turns;
use turn_watch::{Counts, Watch};
use word_log::Words;

/// The most turns of a run of tapes.
const MOST_TURNS: u64 = 100_000;

/// How the turns of a run follow one another.
#[derive(Clone, Copy)]
pub(crate) enum Manner {
    /// By `run_turns`, to near ends.
    Run,
    /// By turns that each have the end of the run as theirs.
    Bare,
}

/// What two workers emitted, and the counts of their turns.
#[derive(Clone, Copy)]
pub(crate) struct Ran {
    pub(crate) sums: Sums,
    pub(crate) counts: Counts,
}

/// Returns what the serial console emits.
pub(crate) fn by_serial(console: Tape, sound: Tape, end: u64) -> Result<Sums, Fail>
    requires one_region { console.state.region ≡ sound.state.region }
    requires console_empty { console.waiting ≡ [] }
    requires sound_empty { sound.waiting ≡ [] }
    requires early { end ≤ 2 ^ 51 }
{
    let mut sums = Sums::new();
    let mut buffer = [0u8; 1];
    match run_serial(console, sound, end, &mut buffer, &mut sums) {
        Ok(()) => Ok(sums),
        Err(_) => Err(Fail::new("the sink failed")),
    }
}

/// Whether both tapes have reached a stamp.
fn both_at(console: &Tape, sound: &Tape, end: u64) -> bool
    ensures { result ≡ false → (console.now.state.stamp < end) ⊎ (sound.now.state.stamp < end) }
{
    console.stamp() >= end && sound.stamp() >= end
}

/// Makes turns to the end stamp until both tapes are there. Returns whether they are.
fn turns_to<R: Threads, W: Wire, G: Gate>(
    rt: &R,
    wire: &W,
    whole: W::Whole,
    console: &mut Tape,
    sound: &mut Tape,
    gate: &G,
    end: u64,
    sums: &mut Sums,
) -> bool
where
    W::Whole: Drop,
    requires of { W.is_whole_of wire.now whole }
    requires console_region { console.old.state.region ≡ W.region_of wire.now }
    requires sound_region { sound.old.state.region ≡ W.region_of wire.now }
    requires console_clock { (W.both whole).console.at ≤ console.old.state.stamp }
    requires sound_clock { (W.both whole).sound.at ≤ sound.old.state.stamp }
    requires console_reach { IsInReach (W.region_of wire.now) console.old.state.stamp (W.both whole).console }
    requires sound_reach { IsInReach (W.region_of wire.now) sound.old.state.stamp (W.both whole).sound }
    requires console_empty { console.old.waiting ≡ [] }
    requires sound_empty { sound.old.waiting ≡ [] }
    requires early { end ≤ 2 ^ 51 }
{
    let mut whole = whole;
    let mut buffer = [0u8; 4096];
    'turns: for number in 0..MOST_TURNS {
        if both_at(console, sound, end) {
            return true;
        }
        let turned = turn(rt, wire, whole, console, sound, gate, number, end);
        let Turned {
            whole: again,
            console: _,
            sound: _,
            stepped: _,
        } = turned;
        whole = again;
        let _ = pour(console, Side::Console, &mut buffer, sums);
        let _ = pour(sound, Side::Sound, &mut buffer, sums);
    }
    false
}

/// Returns what turns over a new wire emit.
fn emitted<R: Threads, W: Wire, G: Gate>(
    rt: &R,
    wire: &W,
    whole: W::Whole,
    console: Tape,
    sound: Tape,
    gate: &G,
    end: u64,
    manner: Manner,
) -> Result<Sums, Fail>
where
    W::Whole: Drop,
    requires of { W.is_whole_of wire.now whole }
    requires console_region { console.state.region ≡ W.region_of wire.now }
    requires sound_region { sound.state.region ≡ W.region_of wire.now }
    requires no_console_entries { (W.both whole).console.mine ≡ [] }
    requires no_sound_entries { (W.both whole).sound.mine ≡ [] }
    requires console_clock { (W.both whole).console.at ≡ 0 }
    requires sound_clock { (W.both whole).sound.at ≡ 0 }
    requires console_start { console.state.stamp ≡ 0 }
    requires sound_start { sound.state.stamp ≡ 0 }
    requires console_empty { console.waiting ≡ [] }
    requires sound_empty { sound.waiting ≡ [] }
    requires early { end ≤ 2 ^ 51 }
{
    let mut sums = Sums::new();
    match manner {
        Manner::Run => {
            let mut buffer = [0u8; 4096];
            match run_turns(
                rt,
                wire,
                whole,
                console,
                sound,
                gate,
                end,
                &mut buffer,
                &mut sums,
            ) {
                Ok(_) => Ok(sums),
                Err(_) => Err(Fail::new("the sink failed")),
            }
        }
        Manner::Bare => {
            let mut console = console;
            let mut sound = sound;
            if turns_to(
                rt,
                wire,
                whole,
                &mut console,
                &mut sound,
                gate,
                end,
                &mut sums,
            ) {
                Ok(sums)
            } else {
                Err(Fail::new("too many turns"))
            }
        }
    }
}

/// Returns what turns over the log behind its lock emit. The watch is the gate too.
pub(crate) fn by_lock<R: AllocGlobal + Threads + Files>(
    rt: &R,
    watch: &Watch<'_, R>,
    gate: &dyn Gate,
    console: Tape,
    sound: Tape,
    end: u64,
    manner: Manner,
) -> Result<Ran, Fail>
    requires one_region { console.state.region ≡ sound.state.region }
    requires console_start { console.state.stamp ≡ 0 }
    requires sound_start { sound.state.stamp ≡ 0 }
    requires console_empty { console.waiting ≡ [] }
    requires sound_empty { sound.waiting ≡ [] }
    requires early { end ≤ 2 ^ 51 }
{
    let (ports, whole) = Ports::open(rt.alloc(), console.region())?;
    watch.begin();
    let sums = emitted(rt, &ports, whole, console, sound, &gate, end, manner)?;
    Ok(Ran {
        sums,
        counts: watch.counts(),
    })
}

/// Returns what turns over words without a lock emit. The watch is the gate too.
pub(crate) fn by_words<R: AllocGlobal + Threads + Files>(
    rt: &R,
    watch: &Watch<'_, R>,
    gate: &dyn Gate,
    console: Tape,
    sound: Tape,
    end: u64,
    manner: Manner,
) -> Result<Ran, Fail>
    requires one_region { console.state.region ≡ sound.state.region }
    requires console_start { console.state.stamp ≡ 0 }
    requires sound_start { sound.state.stamp ≡ 0 }
    requires console_empty { console.waiting ≡ [] }
    requires sound_empty { sound.waiting ≡ [] }
    requires early { end ≤ 2 ^ 51 }
{
    let (words, whole) = Words::open(rt.alloc(), console.region())?;
    watch.begin();
    let sums = emitted(rt, &words, whole, console, sound, &gate, end, manner)?;
    Ok(Ran {
        sums,
        counts: watch.counts(),
    })
}
