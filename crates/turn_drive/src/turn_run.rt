ghost use Rattle.std.specs.Prelude.{◌≡◌, ◌*◌, ◌^◌, ◌≤◌, ℕ, [], length, OnOk, IfOk, IfErr};
ghost use Rattle.side_law.specs.Serial.{serial_of};
ghost use Rattle.side_law.specs.SerialRun.{RunsFor};
ghost use Rattle.clock_ratio.specs.Stamp.{end_stamp_of};
ghost use Rattle.port_wire.specs.Reach.{IsInReach};
ghost use Rattle.run_laws.specs.TurnBound.{most_turns};
ghost use Rattle.run_drive.specs.Run.{TookRun, TookFirst};
ghost use Rattle.turn_drive.specs.Cycle.{StepsByCycle};
ghost use Rattle.turn_drive.specs.Turns.{HasMadeTurns};

use crate::both::{both_at, pour_both};
use crate::ends::Ends;
use pair_run::{Apart, Turned, turn};
use port_wire::{Gate, Wire};
use run_drive::Sink;
use side_law::Machine;
use snes_defs::Side;
use std::thread::Threads;

/// Runs two machines of one region by turns, each in a worker of its own, until both stamps are at least `end`.
///
/// It passes the sink what they emit: after each turn the bytes of that turn. Returns how many turns it made. Exactly
/// that many lead from the start to the end, and no more than the serial run has. Err names the side of which the
/// sink failed to take some.
pub fn run_turns<R: Threads, W: Wire, C: Machine + Drop, S: Machine + Drop, G: Gate, K: Sink>(
    rt: &R,
    wire: &W,
    whole: W::Whole,
    console: C,
    sound: S,
    gate: &G,
    end: u64,
    buffer: &mut [u8],
    sink: &mut K,
) -> Result<u64, Side>
where
    W::Whole: Drop,
    requires of { W.is_whole_of wire.now whole }
    requires console_region { C.region_of console ≡ W.region_of wire.now }
    requires sound_region { S.region_of sound ≡ W.region_of wire.now }
    requires early { end ≤ 2 ^ 51 }
    requires no_console_entries { (W.both whole).console.mine ≡ [] }
    requires no_sound_entries { (W.both whole).sound.mine ≡ [] }
    requires console_clock { (W.both whole).console.at ≤ C.stamp_of console }
    requires sound_clock { (W.both whole).sound.at ≤ S.stamp_of sound }
    requires console_reach { IsInReach (W.region_of wire.now) (C.stamp_of console) (W.both whole).console }
    requires sound_reach { IsInReach (W.region_of wire.now) (S.stamp_of sound) (W.both whole).sound }
    requires console_room { 2 * C.MOST ≤ C.CAP }
    requires sound_room { 2 * S.MOST ≤ S.CAP }
    requires console_fits { C.CAP ≤ length buffer.old }
    requires sound_fits { S.CAP ≤ length buffer.old }
    requires console_empty { C.waiting console ≡ [] }
    requires sound_empty { S.waiting sound ≡ [] }
    requires no_video { K.holds sink.old Side.Console [] }
    requires no_sound { K.holds sink.old Side.Sound [] }
    ensures whole { OnOk result ((c : C.State) (s : S.State) → C.stands console c → S.stands sound s
        → TookRun C.moves S.moves c s end (K.holds sink.new)) }
    ensures first { (c : C.State) (s : S.State) → C.stands console c → S.stands sound s
        → TookFirst C.moves S.moves c s end (K.holds sink.new) }
    ensures made { IfOk result (λ turns. (c : C.State) (s : S.State) → C.stands console c → S.stands sound s
        → HasMadeTurns C.moves S.moves c s end turns (K.holds sink.new)) }
    ensures turns { IfOk result (λ turns. (c : C.State) (s : S.State) (most : ℕ) → C.stands console c → S.stands sound s
        → RunsFor C.moves S.moves (serial_of c s) end most → turns ≤ most) }
    ensures bounded { IfOk result (λ turns. (c : C.State) (s : S.State) (frames : ℕ) → C.stands console c
        → S.stands sound s → C.moves.stamp c ≡ 0 → S.moves.stamp s ≡ 0
        → StepsByCycle (W.region_of wire.now) (S.valid (W.region_of wire.now)) S.moves
        → end ≡ end_stamp_of (W.region_of wire.now) frames → turns ≤ most_turns (W.region_of wire.now) frames) }
    ensures failed { IfErr result (K.failed sink.old sink.new) }
    ensures only { K.only_takes sink.old sink.new }
{
    let mut whole = whole;
    let mut console = Apart {
        before: [0; 8],
        value: console,
        after: [0; 8],
    };
    let mut sound = Apart {
        before: [0; 8],
        value: sound,
        after: [0; 8],
    };
    let begin = console.value.stamp().min(sound.value.stamp());
    let mut ends = Ends::new(wire.region(), begin, end);
    let mut turns = 0;
    while !both_at(&console.value, &sound.value, end) {
        if both_at(&console.value, &sound.value, ends.near) {
            ends.go_on();
        } else {
            let turned = turn(
                rt,
                wire,
                whole,
                &mut console.value,
                &mut sound.value,
                gate,
                turns,
                ends.near,
            );
            let Turned {
                whole: again,
                console: _,
                sound: _,
                stepped: _,
            } = turned;
            whole = again;
            turns += 1;
            pour_both(&mut console.value, &mut sound.value, buffer, sink)?;
        }
    }
    Ok(turns)
}
