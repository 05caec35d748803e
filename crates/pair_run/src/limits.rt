// Up to which stamp a machine may run over its pass.
ghost use Rattle.std.specs.Prelude.{◌≡◌, ◌+◌, ◌<◌, ◌≤◌, ◌↔◌, IsTrue, OnOk, IfOk, IfErr};
ghost use Rattle.clock_ratio.specs.Stamp.{window_of};
ghost use Rattle.port_wire.specs.Reach.{IsInReach};
ghost use Rattle.port_wire.specs.Tally.{after_refusal};
ghost use Rattle.pair_run.specs.Over.{HasTold, IsLimit, MayRun, IsHeldOff};

use clock_ratio::window;
use port_wire::{CallName, PassLate, Wire};
use side_law::Machine;
use snes_defs::Act;

/// Whether a step is further ahead of the other side's clock than the window.
#[inline(always)]
fn is_ahead(at: u64, other: u64, window: u64) -> bool
    ensures { IsTrue result ↔ (other + window < at) }
{
    at > other && at - other > window
}

/// Publishes the clock of a side before a quiet step, and returns whether it may make that step. The other side's clock
/// decides: the one that it was given, or the one that it knew if the ports were held.
#[inline(always)]
#[tactic(auto, using(crate::proofs::Refusals::advance_counts, crate::proofs::Refusals::refusal_counts))]
fn tell_before<W: Wire>(wire: &W, pass: &mut W::Pass, at: u64) -> Result<(), PassLate>
    requires of { W.is_pass_of wire.now pass.old }
    requires clock { (W.seen pass.old).half.at ≤ at }
    requires reach { IsInReach (W.region_of wire.now) at (W.seen pass.old).half }
    ensures still_of { W.is_pass_of wire.now pass.new }
    ensures side { (W.seen pass.new).side ≡ (W.seen pass.old).side }
    ensures told { HasTold (W.region_of wire.now) at (W.seen pass.old).half (W.seen pass.new).half }
    ensures within { OnOk result (at ≤ (W.seen pass.new).half.known + window_of (W.region_of wire.now)) }
    ensures held_back { IfErr result (λ late. (W.seen pass.new).half.tally
        ≡ after_refusal (W.seen pass.old).half.tally CallName.Advance at late) }
{
    let window = window(wire.region());
    match wire.advance(pass, at) {
        Ok(other) => {
            if is_ahead(at, other, window) {
                return Err(PassLate::Ahead { at, other });
            }
        }
        Err(late) => {
            if is_ahead(at, wire.known(pass), window) {
                return Err(late);
            }
        }
    }
    Ok(())
}

/// Returns the stamp below which quiet steps need no call. The clock that the pass knows allows them. The own clock was
/// published at most four lines before, which are a quarter of the window.
#[inline(always)]
fn alone_until<W: Wire>(wire: &W, pass: &W::Pass, end: u64) -> u64
    ensures by_end { result ≤ end }
    ensures within { result ≤ (W.seen pass.now).half.known + window_of (W.region_of wire.now) }
{
    let window = window(wire.region());
    let known = wire.known(pass);
    let clock = wire.clock(pass);
    end.min(known.saturating_add(window))
        .min(clock.saturating_add(window / 4))
}

/// Returns the stamp before which steps may be begun, or why the next one is held back. If the clock that is known
/// allows none, that step alone may be tried: its call asks for the clock. A quiet step has no call, so the own clock
/// is published before it, which asks too.
#[inline(always)]
pub(crate) fn limit<W: Wire, M: Machine>(
    wire: &W,
    pass: &mut W::Pass,
    machine: &M,
    end: u64,
) -> Result<u64, PassLate>
    requires of { W.is_pass_of wire.now pass.old }
    requires may { MayRun (W.region_of wire.now) M.MOST M.CAP (M.stamp_of machine.now) end
        (W.seen pass.old).half (M.waiting machine.now) }
    ensures still_of { W.is_pass_of wire.now pass.new }
    ensures side { (W.seen pass.new).side ≡ (W.seen pass.old).side }
    ensures told { HasTold (W.region_of wire.now) (M.stamp_of machine.now)
        (W.seen pass.old).half (W.seen pass.new).half }
    ensures until { IfOk result (IsLimit M.moves (M.stands machine.now) (M.stamp_of machine.now) end
        ((W.seen pass.new).half.known + window_of (W.region_of wire.now))
        (W.seen pass.old).half (W.seen pass.new).half) }
    ensures held { IfErr result (IsHeldOff M.moves (M.stands machine.now) (M.stands machine.now)
        (M.stamp_of machine.now) (M.stamp_of machine.now) (W.seen pass.old).half (W.seen pass.new).half) }
{
    let at = machine.stamp();
    let until = alone_until(wire, pass, end);
    if at < until {
        return Ok(until);
    }
    match machine.act() {
        Act::Quiet => {
            tell_before(wire, pass, at)?;
            Ok(alone_until(wire, pass, end).max(at + 1))
        }
        Act::Read(_) => Ok(at + 1),
        Act::Write(_, _) => Ok(at + 1),
        Act::Clear(_) => Ok(at + 1),
    }
}
