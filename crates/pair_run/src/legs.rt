ghost use Rattle.std.specs.Prelude.{◌^◌, ◌≤◌};
ghost use Rattle.pair_run.specs.Leg.{IsReady, HasMadeLeg};

use crate::again::{pause, publish};
use crate::ends::{LegEnd, held_back};
use crate::runs::run_on;
use port_wire::{Gate, Wire};
use side_law::Machine;

/// Lets a machine run by itself over its pass. It stops if it reaches `end` or has no room for the bytes of two more
/// steps. It also stops if its next step was refused `tries` times in a row.
///
/// Quiet steps call nothing, as far as the clock that the pass knows allows them. The own clock is published every four
/// lines, with each write, at a step that was refused, and as the leg ends.
pub fn leg<W: Wire, M: Machine, G: Gate>(
    wire: &W,
    pass: &mut W::Pass,
    machine: &mut M,
    gate: &G,
    turn: u64,
    end: u64,
    tries: u32,
) -> LegEnd
    requires of { W.is_pass_of wire.now pass.old }
    requires ready { IsReady (W.region_of wire.now) (M.region_of machine.old) M.MOST M.CAP (M.stamp_of machine.old)
        (W.seen pass.old).half (M.waiting machine.old) }
    requires tries { 1 ≤ tries }
    requires end { end ≤ 2 ^ 51 }
    ensures still_of { W.is_pass_of wire.now pass.new }
    ensures made { HasMadeLeg (W.region_of wire.now) (M.region_of machine.new) M.moves M.MOST M.CAP end tries
        (M.stands machine.old) (M.stands machine.new) (M.stamp_of machine.new) (W.seen pass.old) (W.seen pass.new)
        (M.waiting machine.old) (M.waiting machine.new) result }
{
    gate.arrive(wire.side(pass), turn);
    let mut tried = 0;
    'steps: while machine.stamp() < end && machine.ready() {
        match run_on(wire, pass, machine, end) {
            Ok(()) => tried = 0,
            Err(late) => {
                if tried >= tries {
                    return held_back(late);
                }
                pause(wire, pass, machine.stamp(), tried);
                tried += 1;
            }
        }
    }
    publish(wire, pass, machine.stamp());
    if machine.stamp() < end {
        LegEnd::Drain
    } else {
        LegEnd::Done
    }
}
