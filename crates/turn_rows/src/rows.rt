// Tests of pairs of tapes by turns, each against the serial console of the same two.
ghost use Rattle.std.specs.Prelude.{◌≤◌};

use crate::runs::{Manner, Ran, by_lock, by_serial, by_words};
use crate::sums::Sums;
use crate::tapes::{Style, style_of, tape, writes_and_reads};
use clock_ratio::least;
use port_wire::Gate;
use snes_defs::{Region, Side};
use std::alloc::AllocGlobal;
use std::rt::Files;
use std::test::Fail;
use std::thread::Threads;
use turn_watch::{Counts, Watch};

/// The number of pairs of each region.
const PAIRS: u64 = 100;

/// The end of a run, in least rises of the region: five and a half windows.
const LENGTH: u64 = 20_000;

/// The results of the pairs of a region.
#[derive(Clone, Copy, Debug, PartialEq, Eq)]
struct Compared {
    /// The pairs both of whose sides emitted the serial console's bytes.
    alike: u64,
    /// The pairs both of whose sides got something: they emitted a byte that is not 0. In twelve of a hundred one side
    /// only reads, so that the other one gets nothing.
    heard: u64,
    /// The pairs that emitted what the pair before them, of other tapes, did by the serial console. There must be none,
    /// or the sums would show nothing.
    as_before: u64,
    /// The pairs in which every turn had two threads, and those in which both legs of a turn overlapped, if there were
    /// four turns or more.
    on_two_threads: u64,
    overlapping: u64,
}

/// A pair of tapes of a region: its style and its seed.
#[derive(Clone, Copy)]
struct Pair {
    region: Region,
    style: Style,
    seed: u64,
}

/// What carries the entries of both sides.
#[derive(Clone, Copy)]
enum Carrier {
    /// One log behind a lock.
    Lock,
    /// Words without a lock.
    Words,
}

/// Returns what the serial console makes of a pair.
fn serially<R: AllocGlobal>(rt: &R, pair: Pair) -> Result<Sums, Fail>
    requires { pair.style.grid ≤ 6 }
{
    let Pair {
        region,
        style,
        seed,
    } = pair;
    let console = tape(rt.alloc(), region, Side::Console, style, seed)?;
    let sound = tape(rt.alloc(), region, Side::Sound, style, seed)?;
    by_serial(console, sound, least(region) * LENGTH)
}

/// Returns what turns make of a pair.
fn by_turns<R: AllocGlobal + Threads + Files>(
    rt: &R,
    watch: &Watch<'_, R>,
    gate: &dyn Gate,
    pair: Pair,
    carrier: Carrier,
    manner: Manner,
) -> Result<Ran, Fail>
    requires { pair.style.grid ≤ 6 }
{
    let Pair {
        region,
        style,
        seed,
    } = pair;
    let console = tape(rt.alloc(), region, Side::Console, style, seed)?;
    let sound = tape(rt.alloc(), region, Side::Sound, style, seed)?;
    let end = least(region) * LENGTH;
    match carrier {
        Carrier::Lock => by_lock(rt, watch, gate, console, sound, end, manner),
        Carrier::Words => by_words(rt, watch, gate, console, sound, end, manner),
    }
}

/// Runs the pairs of a region: four by `run_turns`, four by bare turns, and so on, and of these eight over the lock,
/// then eight over words.
fn compare<R: AllocGlobal + Threads + Files + Eprint>(
    rt: &R,
    watch: &Watch<'_, R>,
    gate: &dyn Gate,
    region: Region,
) -> Result<Compared, Fail> {
    let mut compared = Compared {
        alike: 0,
        heard: 0,
        as_before: 0,
        on_two_threads: 0,
        overlapping: 0,
    };
    let mut before = Sums::new();
    let mut counts = Counts::none();
    for number in 0..PAIRS {
        let pair = Pair {
            region,
            style: style_of(number),
            seed: number + 1,
        };
        let manner = if number / 4 % 2 == 0 {
            Manner::Run
        } else {
            Manner::Bare
        };
        let carrier = if number / 8 % 2 == 0 {
            Carrier::Lock
        } else {
            Carrier::Words
        };
        let serial = serially(rt, pair)?;
        let Ran {
            sums: turns,
            counts: counted,
        } = by_turns(rt, watch, gate, pair, carrier, manner)?;
        counts = counts.and(counted);
        if counted.all_on_two_threads() {
            compared.on_two_threads = compared.on_two_threads.wrapping_add(1);
        }
        if counted.overlaps() {
            compared.overlapping = compared.overlapping.wrapping_add(1);
        }
        if turns == serial {
            compared.alike = compared.alike.wrapping_add(1);
        }
        if serial.console.sounding > 0 && serial.sound.sounding > 0 {
            compared.heard = compared.heard.wrapping_add(1);
        }
        if turns == before {
            compared.as_before = compared.as_before.wrapping_add(1);
        }
        before = serial;
    }
    let _told = eprintln!(rt;
        "{region:?}: {} turns, {} on two threads, {} overlapped",
        counts.turns, counts.on_two_threads, counts.overlapped
    );
    Ok(compared)
}

#[test]
fn turns_emit_what_the_serial_console_emits(rt: HostRuntime) -> Result<(), Fail> {
    let watch = Watch::new(&rt);
    assert_eq!(rt;
        compare(&rt, &watch, &watch, Region::Ntsc)?,
        Compared {
            alike: 100,
            heard: 88,
            as_before: 0,
            on_two_threads: 100,
            overlapping: 100
        }
    );
    Ok(())
}

#[test]
fn turns_emit_what_the_serial_console_emits_in_pal(rt: HostRuntime) -> Result<(), Fail> {
    let watch = Watch::new(&rt);
    assert_eq!(rt;
        compare(&rt, &watch, &watch, Region::Pal)?,
        Compared {
            alike: 100,
            heard: 88,
            as_before: 0,
            on_two_threads: 100,
            overlapping: 100
        }
    );
    Ok(())
}

/// The ring of 8,192 entries without a lock wraps twice: 20,000 writes against 5,000 reads, each of which is emitted.
#[test]
fn the_ring_goes_round_twice(rt: HostRuntime) -> Result<(), Fail> {
    let (console, sound) = writes_and_reads(rt.alloc())?;
    let serial = by_serial(console, sound, 600_000_000)?;
    let (console, sound) = writes_and_reads(rt.alloc())?;
    let watch = Watch::new(&rt);
    let turns = by_words(
        &rt,
        &watch,
        &watch,
        console,
        sound,
        600_000_000,
        Manner::Bare,
    )?
    .sums;
    assert_eq!(rt; (serial.sound.count, turns), (5000, serial));
    Ok(())
}
