ghost use Rattle.std.specs.Prelude.{◌≡◌, ◌+◌, ◌^◌, ◌≤◌};
ghost use Rattle.snes_defs.specs.declared.region.Region.TheVariants.{Ntsc};

use port_log::Ports;
use port_wire::{PassLate, Wire};
use snes_defs::{Region, Side};
use std::test::Fail;
use std::thread::{Threads, join_mut};
use word_log::Words;

const WRITES: u64 = 1000;

const READS: u64 = 201;

// The stamps from one write to the next, and from one read to the next.
const WRITE_RISE: u64 = 33_792;

const READ_RISE: u64 = 118_125;

// Writes a byte to port 0 at a stamp, tried again while the other side has the log. Returns whether it was taken.
fn write_one<W: Wire>(wire: &W, console: &mut W::Pass, at: u64, byte: u8) -> bool
    requires of { W.is_pass_of wire.now console.old }
    requires region { W.region_of wire.now ≡ Ntsc }
    requires own_clock { (W.seen console.old).half.at ≤ at }
    requires range { at ≤ 2 ^ 40 }
    ensures of { W.is_pass_of wire.now console.new }
    ensures side { (W.seen console.new).side ≡ (W.seen console.old).side }
    ensures clock { (W.seen console.new).half.at ≤ at + 33792 }
{
    for again in 0..u64::MAX {
        match wire.write(console, at, 0, byte, at + WRITE_RISE) {
            Err(PassLate::Held { .. }) => {}
            answer => return answer.is_ok(),
        }
    }
    false
}

// Writes `k mod 256` at the k-th stamp, for each k below a thousand. Returns how many of them were refused.
fn writes<W: Wire>(wire: &W, console: &mut W::Pass) -> u32
    requires of { W.is_pass_of wire.now console.old }
    requires region { W.region_of wire.now ≡ Ntsc }
    requires start { (W.seen console.old).half.at ≡ 0 }
    ensures of { W.is_pass_of wire.now console.new }
    ensures side { (W.seen console.new).side ≡ (W.seen console.old).side }
{
    let mut refused = 0u32;
    for k in 0..WRITES {
        if !write_one(wire, console, k * WRITE_RISE, (k % 256) as u8) {
            refused = refused.wrapping_add(1);
        }
    }
    refused
}

// Reads port 0 at a stamp, tried again until the read is taken.
fn read_one<W: Wire>(wire: &W, sound: &mut W::Pass, at: u64) -> Option<u8>
    requires of { W.is_pass_of wire.now sound.old }
    requires own_clock { (W.seen sound.old).half.at ≤ at }
    ensures of { W.is_pass_of wire.now sound.new }
    ensures side { (W.seen sound.new).side ≡ (W.seen sound.old).side }
    ensures clock { (W.seen sound.new).half.at ≡ (W.seen sound.old).half.at }
{
    for again in 0..u64::MAX {
        if let Ok(byte) = wire.read(sound, at, 0) {
            return Some(byte);
        }
    }
    None
}

// Reads port 0 at each stamp up to the last write. Returns how many reads didn't give the last write at or before
// their stamp.
fn reads<W: Wire>(wire: &W, sound: &mut W::Pass) -> u32
    requires of { W.is_pass_of wire.now sound.old }
    requires start { (W.seen sound.old).half.at ≡ 0 }
    ensures of { W.is_pass_of wire.now sound.new }
    ensures side { (W.seen sound.new).side ≡ (W.seen sound.old).side }
    ensures clock { (W.seen sound.new).half.at ≡ 0 }
{
    let mut wrong = 0u32;
    for k in 0..READS {
        let at = k * READ_RISE;
        let last = (at / WRITE_RISE % 256) as u8;
        if read_one(wire, sound, at) != Some(last) {
            wrong = wrong.wrapping_add(1);
        }
    }
    wrong
}

// Writes and reads concurrently. Returns how many writes were refused, and how many reads were wrong.
fn race<R: Threads, W: Wire>(
    rt: &R,
    wire: &W,
    console: &mut W::Pass,
    sound: &mut W::Pass,
) -> (u32, u32)
    requires console { W.is_pass_of wire.now console.old × ((W.seen console.old).half.at ≡ 0) }
    requires sound { W.is_pass_of wire.now sound.old × ((W.seen sound.old).half.at ≡ 0) }
    requires region { W.region_of wire.now ≡ Ntsc }
    ensures console_of { W.is_pass_of wire.now console.new }
    ensures sound_of { W.is_pass_of wire.now sound.new }
    ensures console { (W.seen console.new).side ≡ (W.seen console.old).side }
    ensures sound { (W.seen sound.new).side ≡ (W.seen sound.old).side }
    ensures sound_clock { (W.seen sound.new).half.at ≡ 0 }
{
    join_mut(
        rt,
        &mut || -> u32
            requires { (W.is_pass_of wire.now console.now) × (W.region_of wire.now ≡ Ntsc) × ((W.seen console.now).half.at ≡ 0) }
        { writes(wire, console) },
        &mut || -> u32
            requires { (W.is_pass_of wire.now sound.now) × ((W.seen sound.now).half.at ≡ 0) }
        { reads(wire, sound) },
    )
}

/// Runs the race over the passes of new ports, and then a read by the sound side over the whole at the last write's
/// stamp. Returns how many writes were refused, how many reads were wrong, and 1 if that last read was wrong.
fn raced<R: Threads, W: Wire>(rt: &R, wire: &W, whole: W::Whole) -> [u32; 3]
where
    W::Whole: Drop,
    requires of { W.is_whole_of wire.now whole }
    requires region { W.region_of wire.now ≡ Ntsc }
    requires console { (W.both whole).console.at ≡ 0 }
    requires sound { (W.both whole).sound.at ≡ 0 }
{
    let (mut console, mut sound) = wire.part(whole);
    let (refused, wrong) = race(rt, wire, &mut console, &mut sound);
    let mut whole = wire.reunite(console, sound);
    let last = wire.read_whole(&mut whole, Side::Sound, 33_758_208, 0);
    [refused, wrong, if last == Ok(231) { 0 } else { 1 }]
}

#[test]
fn two_threads_hear_each_write_at_its_stamp(rt: HostRuntime) -> Result<(), Fail> {
    let (ports, whole) = Ports::open(rt.alloc(), Region::Ntsc)?;
    assert_eq!(rt; raced(&rt, &ports, whole), [0, 0, 0]);
    Ok(())
}

#[test]
fn two_threads_hear_each_write_without_a_lock(rt: HostRuntime) -> Result<(), Fail> {
    let (words, whole) = Words::open(rt.alloc(), Region::Ntsc)?;
    assert_eq!(rt; raced(&rt, &words, whole), [0, 0, 0]);
    Ok(())
}
