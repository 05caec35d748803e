// What a side does before it tries a step again.
ghost use Rattle.std.specs.Prelude.{◌≡◌, ◌≤◌, IsTrue};
ghost use Rattle.port_wire.specs.Reach.{IsInReach};
ghost use Rattle.pair_run.specs.Over.{HasTold};

use port_wire::Wire;
use std::thread::yield_now;

/// How often a side tries to publish its clock if the ports are held.
const TELLS: u32 = 64;

/// The most yields between two tries of a step.
const WAITS: u32 = 8;

/// Lets other threads run before a step is tried again: the longer, the more often it was tried. A side that waits
/// for the other's clock, which is published every four lines, would else take the ports from it again and again.
fn wait(tried: u32) {
    for _ in 0..tried.saturating_add(1).min(WAITS) {
        yield_now();
    }
}

/// Tries once to publish a clock, and returns whether it is published.
#[inline(always)]
#[tactic(auto, using(crate::proofs::Refusals::advance_counts, crate::proofs::Refusals::refusal_counts))]
fn tell<W: Wire>(wire: &W, pass: &mut W::Pass, at: u64) -> bool
    requires of { W.is_pass_of wire.now pass.old }
    requires clock { (W.seen pass.old).half.at ≤ at }
    requires reach { IsInReach (W.region_of wire.now) at (W.seen pass.old).half }
    ensures still_of { W.is_pass_of wire.now pass.new }
    ensures side { (W.seen pass.new).side ≡ (W.seen pass.old).side }
    ensures told { HasTold (W.region_of wire.now) at (W.seen pass.old).half (W.seen pass.new).half }
    ensures published { IsTrue result → (W.seen pass.new).half.at ≡ at }
{
    match wire.advance(pass, at) {
        Ok(_) => true,
        Err(_) => false,
    }
}

/// Publishes a clock, unless the ports are held at each of `TELLS` tries.
pub(crate) fn publish<W: Wire>(wire: &W, pass: &mut W::Pass, at: u64)
    requires of { W.is_pass_of wire.now pass.old }
    requires clock { (W.seen pass.old).half.at ≤ at }
    requires reach { IsInReach (W.region_of wire.now) at (W.seen pass.old).half }
    ensures still_of { W.is_pass_of wire.now pass.new }
    ensures side { (W.seen pass.new).side ≡ (W.seen pass.old).side }
    ensures told { HasTold (W.region_of wire.now) at (W.seen pass.old).half (W.seen pass.new).half }
{
    for _ in 0..TELLS {
        if tell(wire, pass, at) {
            return;
        }
        yield_now();
    }
}

/// Waits before a step that was refused is tried again. At first the own clock is published, for which the other side
/// may be waiting.
pub(crate) fn pause<W: Wire>(wire: &W, pass: &mut W::Pass, at: u64, tried: u32)
    requires of { W.is_pass_of wire.now pass.old }
    requires clock { (W.seen pass.old).half.at ≤ at }
    requires reach { IsInReach (W.region_of wire.now) at (W.seen pass.old).half }
    ensures still_of { W.is_pass_of wire.now pass.new }
    ensures side { (W.seen pass.new).side ≡ (W.seen pass.old).side }
    ensures told { HasTold (W.region_of wire.now) at (W.seen pass.old).half (W.seen pass.new).half }
    ensures same { 1 ≤ tried → (W.seen pass.new).half ≡ (W.seen pass.old).half }
{
    if tried == 0 {
        publish(wire, pass, at);
    } else {
        wait(tried - 1);
    }
}
