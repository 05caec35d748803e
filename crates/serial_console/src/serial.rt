// The serial console and its turn: one step of the earlier machine.
ghost use Rattle.std.specs.Prelude.{◌≡◌, ◌+◌, ◌/◌, ◌%◌, ◌^◌, ◌<◌, ◌≤◌, ◌==◌, ◌↔◌, ◌++◌, ℕ, IsTrue, if◌then◌else◌};
ghost use Rattle.std.specs.Prelude.{length, min};
ghost use Rattle.clock_ratio.specs.Stamp.{least_of, most_of};
ghost use Rattle.side_law.specs.Serial.{SerialState, serial_of, turn, console_emits, sound_emits, cleared_from};
ghost use Rattle.side_law.specs.Serial.{got_of, incoming_after, outgoing_after};
ghost use Rattle.side_law.specs.Moves.{IsAtPorts};
ghost use Rattle.side_law.specs.SerialRun.{IsPast};
ghost use Rattle.serial_console.specs.Serial.{IsAt, console_of, sound_of, earlier_side, LendsConsole, LendsSound};
ghost use Rattle.std.specs.Borrow.{sem};

use crate::behind::Rest;
use crate::bytes::Bytes;
use clock_ratio::console_first;
use side_law::Machine;
use snes_defs::{Act, Side};
use std::marker::Model;

/// Two machines that share four bytes each way and nothing else. The earlier one runs each step, the console if both
/// are at one stamp.
#[derive(Drop)]
pub struct Serial<C, S> {
    pub(crate) console: C,
    // The sound side and the bytes, as the console's ports.
    pub(crate) rest: Rest<S>,
}

impl<C, S> Model for Serial<C, S> {
    ghost use Rattle.serial_console.specs.Joined.{Joined};

    ghost Value = { Joined C S };

    ghost view = { λ s. record {
      console = s.console;
      sound = s.rest.sound;
      to_sound = s.rest.bytes.incoming;
      to_console = s.rest.bytes.outgoing;
    } };
}

/// Returns the byte of a port under a clear; `bit` is the port's bit of the mask.
#[inline(always)]
fn kept(mask: u8, bit: u8, byte: u8) -> u8
    requires { 0 < bit }
    ensures { result ≡ (if mask / bit % 2 == 1 then 0 else byte) }
{
    if mask / bit % 2 == 1 { 0 } else { byte }
}

/// The four bytes with those of the mask zeroed.
#[inline(always)]
fn cleared(mask: u8, bytes: [u8; 4]) -> [u8; 4]
    ensures { result ≡ cleared_from 0 mask bytes }
{
    let [first, second, third, fourth] = bytes;
    [
        kept(mask, 1, first),
        kept(mask, 2, second),
        kept(mask, 4, third),
        kept(mask, 8, fourth),
    ]
}

/// The byte that a step gets at its incoming ports.
#[inline(always)]
pub(crate) fn got(act: Act, incoming: &[u8; 4]) -> u8
    requires { IsAtPorts act }
    ensures { result ≡ got_of act incoming.now }
{
    match act {
        Act::Read(port) => incoming[port as usize],
        Act::Quiet => 0,
        Act::Write(_, _) => 0,
        Act::Clear(_) => 0,
    }
}

/// What a step does to the bytes: a write sets one that goes out, a clear zeroes some that came in.
#[inline(always)]
pub(crate) fn exchange(act: Act, incoming: &mut [u8; 4], outgoing: &mut [u8; 4])
    requires { IsAtPorts act }
    ensures incoming { incoming.new ≡ incoming_after act incoming.old }
    ensures outgoing { outgoing.new ≡ outgoing_after act outgoing.old }
{
    match act {
        Act::Write(port, byte) => outgoing[port as usize] = byte,
        Act::Clear(mask) => *incoming = cleared(mask, *incoming),
        Act::Quiet => {}
        Act::Read(_) => {}
    }
}

/// Runs one step of a machine against the bytes that come in to it and go out from it.
#[inline(always)]
#[tactic(auto, using(crate::proofs::Taken::taken_got))]
pub fn step<M: Machine>(machine: &mut M, incoming: &mut [u8; 4], outgoing: &mut [u8; 4])
    requires room { length (M.waiting machine.old) + M.MOST ≤ M.CAP }
    requires early { M.stamp_of machine.old ≤ 2 ^ 62 }
    ensures next { (m : M.State) → M.stands machine.old m
        → M.stands machine.new (M.moves.next m (got_of (M.moves.act m) incoming.old)) }
    ensures emits { (m : M.State) → M.stands machine.old m
        → M.waiting machine.new ≡ M.waiting machine.old ++ M.moves.bytes m (got_of (M.moves.act m) incoming.old) }
    ensures incoming { (m : M.State) → M.stands machine.old m
        → incoming.new ≡ incoming_after (M.moves.act m) incoming.old }
    ensures outgoing { (m : M.State) → M.stands machine.old m
        → outgoing.new ≡ outgoing_after (M.moves.act m) outgoing.old }
    ensures rises { M.stamp_of machine.old + least_of (M.region_of machine.old) ≤ M.stamp_of machine.new }
    ensures rises_at_most { M.stamp_of machine.new ≤ M.stamp_of machine.old + most_of (M.region_of machine.old) }
    ensures emits_at_most { length (M.waiting machine.new) ≤ length (M.waiting machine.old) + M.MOST }
    ensures same_region { M.region_of machine.new ≡ M.region_of machine.old }
{
    let act = machine.act();
    machine.step(got(act, incoming));
    exchange(act, incoming, outgoing);
}

impl<C: Machine, S: Machine> Serial<C, S> {
    /// Joins two machines by eight bytes, all zero.
    pub fn new(console: C, sound: S) -> Serial<C, S>
        ensures console { console_of result ≡ console }
        ensures sound { sound_of result ≡ sound }
        ensures starts { (c : C.State) (s : S.State) → C.stands console c → S.stands sound s
            → IsAt C.stands S.stands result (serial_of c s) }
    {
        Serial {
            console,
            rest: Rest {
                sound,
                bytes: Bytes {
                    incoming: [0; 4],
                    outgoing: [0; 4],
                    first: 0,
                    hold: 0,
                    last: 0,
                },
                end: 0,
                last: 0,
            },
        }
    }

    /// Runs one step of the earlier side, the console if both are at one stamp, and returns that side.
    #[inline(always)]
    pub fn turn(&mut self) -> Side
        requires console_room { C.stamp_of (console_of self.old) ≤ S.stamp_of (sound_of self.old)
            → length (C.waiting (console_of self.old)) + C.MOST ≤ C.CAP }
        requires sound_room { S.stamp_of (sound_of self.old) < C.stamp_of (console_of self.old)
            → length (S.waiting (sound_of self.old)) + S.MOST ≤ S.CAP }
        requires early { min (C.stamp_of (console_of self.old)) (S.stamp_of (sound_of self.old)) ≤ 2 ^ 62 }
        ensures side { result ≡ earlier_side (C.stamp_of (console_of self.old)) (S.stamp_of (sound_of self.old)) }
        ensures turns { (w : SerialState C.State S.State) → IsAt C.stands S.stands self.old w
            → IsAt C.stands S.stands self.new (turn C.moves S.moves w) }
        ensures console_emits { (w : SerialState C.State S.State) → IsAt C.stands S.stands self.old w
            → C.waiting (console_of self.new) ≡ C.waiting (console_of self.old) ++ console_emits C.moves S.moves w }
        ensures sound_emits { (w : SerialState C.State S.State) → IsAt C.stands S.stands self.old w
            → S.waiting (sound_of self.new) ≡ S.waiting (sound_of self.old) ++ sound_emits C.moves S.moves w }
        ensures console_rises { result ≡ Side.Console
            → C.stamp_of (console_of self.old) + least_of (C.region_of (console_of self.old))
            ≤ C.stamp_of (console_of self.new) }
        ensures console_rises_at_most { result ≡ Side.Console
            → C.stamp_of (console_of self.new)
            ≤ C.stamp_of (console_of self.old) + most_of (C.region_of (console_of self.old)) }
        ensures console_emits_at_most { length (C.waiting (console_of self.new))
            ≤ length (C.waiting (console_of self.old)) + C.MOST }
        ensures console_region { C.region_of (console_of self.new) ≡ C.region_of (console_of self.old) }
        ensures console_stays { result ≡ Side.Sound → console_of self.new ≡ console_of self.old }
        ensures sound_rises { result ≡ Side.Sound
            → S.stamp_of (sound_of self.old) + least_of (S.region_of (sound_of self.old))
            ≤ S.stamp_of (sound_of self.new) }
        ensures sound_rises_at_most { result ≡ Side.Sound
            → S.stamp_of (sound_of self.new)
            ≤ S.stamp_of (sound_of self.old) + most_of (S.region_of (sound_of self.old)) }
        ensures sound_emits_at_most { length (S.waiting (sound_of self.new))
            ≤ length (S.waiting (sound_of self.old)) + S.MOST }
        ensures sound_region { S.region_of (sound_of self.new) ≡ S.region_of (sound_of self.old) }
        ensures sound_stays { result ≡ Side.Console → sound_of self.new ≡ sound_of self.old }
    {
        let bytes = &mut self.rest.bytes;
        if console_first(self.console.stamp(), self.rest.sound.stamp()) {
            step(&mut self.console, &mut bytes.outgoing, &mut bytes.incoming);
            Side::Console
        } else {
            step(
                &mut self.rest.sound,
                &mut bytes.incoming,
                &mut bytes.outgoing,
            );
            Side::Sound
        }
    }

    /// Whether both stamps are at least `end`.
    #[inline(always)]
    pub fn finished(&self, end: u64) -> bool
        ensures stamps { IsTrue result ↔ ((end ≤ C.stamp_of (console_of self.now))
            × (end ≤ S.stamp_of (sound_of self.now))) }
        ensures past { (w : SerialState C.State S.State) → IsAt C.stands S.stands self.now w
            → IsTrue result ↔ IsPast C.moves S.moves end w }
    {
        self.console.stamp() >= end && self.rest.sound.stamp() >= end
    }

    /// Whether both stamps are at least `end` and neither machine has bytes buffered.
    #[inline(always)]
    pub fn is_over(&self, end: u64) -> bool
        ensures { IsTrue result ↔ ((end ≤ C.stamp_of (console_of self.now)) × (end ≤ S.stamp_of (sound_of self.now))
            × (length (C.waiting (console_of self.now)) ≡ 0) × (length (S.waiting (sound_of self.now)) ≡ 0)) }
    {
        self.finished(end) && self.console.pending() == 0 && self.rest.sound.pending() == 0
    }

    /// Lends the console.
    #[inline(always)]
    pub fn console(&mut self) -> &mut C
        ensures value { result.now ≡ console_of self.old }
        ensures* lends { sem 𝓛 (LendsConsole C.row S.row self.entry result) }
    {
        &mut self.console
    }

    /// Lends the sound side.
    #[inline(always)]
    pub fn sound(&mut self) -> &mut S
        ensures value { result.now ≡ sound_of self.old }
        ensures* lends { sem 𝓛 (LendsSound C.row S.row self.entry result) }
    {
        &mut self.rest.sound
    }
}
