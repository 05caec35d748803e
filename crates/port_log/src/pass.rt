// A pass: one side's access to the ports.
ghost use Rattle.std.specs.Prelude.{◌≡◌, ◌+◌, ◌<◌, ◌≤◌};
ghost use Rattle.clock_ratio.specs.Stamp.{least_of, window_of};
ghost use Rattle.port_wire.specs.Answers.{HearsOn, EndsRead, EndsClear, EndsWrite, EndsAdvance};
ghost use Rattle.port_log.specs.PassCalls.{IfHeld, IfTold};
ghost use Rattle.port_log.specs.Passes.{IsPassOf, IsMissed, WasTold};

use crate::ports::Ports;
use crate::seats::Seats;
use port_wire::{CallName, Counts, PassLate, counted};
use snes_defs::Side;
use std::marker::Model;

/// One side's access to the ports, with the tally of its refused calls. A thread holds it and needs nothing else.
#[derive(Drop)]
pub struct Pass {
    pub(crate) side: Side,
    pub(crate) seats: Seats,
    pub(crate) counts: Counts,
}

impl Model for Pass {
    ghost use Rattle.port_log.specs.Passes.{PassValue, pass_of, StandFor};

    ghost Value = { PassValue };

    ghost view = { λ p. pass_of p.side p.seats p.counts };

    ghost invariant = { λ p. StandFor p.side p.seats };
}

impl Pass {
    /// Returns the side whose pass it is.
    #[inline(always)]
    pub fn side(&self) -> Side
        ensures { result ≡ self.now.side }
    {
        self.side
    }

    /// Returns the clock that the side has published.
    #[inline(always)]
    pub fn clock(&self) -> u64
        ensures { result ≡ self.now.half.at }
    {
        self.seats.clocks.own
    }

    /// Returns the latest clock of the other side that the pass knows.
    #[inline(always)]
    pub fn known(&self) -> u64
        ensures { result ≡ self.now.half.known }
    {
        self.seats.clocks.known
    }
}

// Each call tries once to take the log. If it finds the other side's number in the turn word, it is refused as `Held`.
// Otherwise it returns or is refused as the log call of its name is, on the clock that it found.
impl Ports {
    /// Returns the byte that the side of the pass finds at its incoming port at the stamp `at`.
    #[inline(always)]
    pub fn read(&self, pass: &mut Pass, at: u64, port: u8) -> Result<u8, PassLate>
        requires of { IsPassOf self.now pass.old }
        requires port { port < 4 }
        requires own_clock { pass.old.half.at ≤ at }
        ensures still_of { IsPassOf self.now pass.new }
        ensures side { pass.new.side ≡ pass.old.side }
        ensures hears { HearsOn pass.old.half pass.new.half }
        ensures ends { EndsRead pass.old.side at port result pass.old.half pass.new.half }
        ensures held { IfHeld result (λ by. IsMissed by pass.old pass.new) }
        ensures told { IfTold result (WasTold pass.old pass.new) }
    {
        let answer = self.read_by(pass.side, &mut pass.seats, at, port);
        pass.counts = pass.counts.after(CallName::Read, at, &answer);
        answer
    }

    /// Zeroes the incoming ports of the mask, of the side of the pass, at the stamp `at`.
    #[inline(always)]
    pub fn clear(&self, pass: &mut Pass, at: u64, mask: u8) -> Result<(), PassLate>
        requires of { IsPassOf self.now pass.old }
        requires mask { (1 ≤ mask) × (mask ≤ 15) }
        requires own_clock { pass.old.half.at ≤ at }
        ensures still_of { IsPassOf self.now pass.new }
        ensures side { pass.new.side ≡ pass.old.side }
        ensures hears { HearsOn pass.old.half pass.new.half }
        ensures ends { EndsClear pass.old.side at mask result pass.old.half pass.new.half }
        ensures held { IfHeld result (λ by. IsMissed by pass.old pass.new) }
        ensures told { IfTold result (WasTold pass.old pass.new) }
    {
        let answer = self.clear_by(pass.side, &mut pass.seats, at, mask);
        pass.counts = pass.counts.after(CallName::Clear, at, &answer);
        answer
    }

    /// Logs that the side of the pass wrote a byte to an outgoing port at the stamp `at`, and publishes
    /// `next`.
    #[inline(always)]
    pub fn write(
        &self,
        pass: &mut Pass,
        at: u64,
        port: u8,
        v: u8,
        next: u64,
    ) -> Result<(), PassLate>
        requires of { IsPassOf self.now pass.old }
        requires port { port < 4 }
        requires own_clock { pass.old.half.at ≤ at }
        requires rises { at + least_of self.now.region ≤ next }
        ensures still_of { IsPassOf self.now pass.new }
        ensures side { pass.new.side ≡ pass.old.side }
        ensures hears { HearsOn pass.old.half pass.new.half }
        ensures ends { EndsWrite (window_of self.now.region) at port v next result pass.old.half pass.new.half }
        ensures held { IfHeld result (λ by. IsMissed by pass.old pass.new) }
        ensures told { IfTold result (WasTold pass.old pass.new) }
    {
        let answer = self.write_by(pass.side, &mut pass.seats, at, port, v, next);
        pass.counts = pass.counts.after(CallName::Write, at, &answer);
        answer
    }

    /// Publishes that each later step of the side of the pass is at `at` or later, and returns the other side's clock.
    /// If that is too early for a step at `at`, it counts as refused too.
    #[inline(always)]
    pub fn advance(&self, pass: &mut Pass, at: u64) -> Result<u64, PassLate>
        requires of { IsPassOf self.now pass.old }
        requires own_clock { pass.old.half.at ≤ at }
        ensures still_of { IsPassOf self.now pass.new }
        ensures side { pass.new.side ≡ pass.old.side }
        ensures hears { HearsOn pass.old.half pass.new.half }
        ensures ends { EndsAdvance (window_of self.now.region) at result pass.old.half pass.new.half }
        ensures held { IfHeld result (λ by. IsMissed by pass.old pass.new) }
        ensures told { IfTold result (WasTold pass.old pass.new) }
    {
        let answer = self.advance_by(pass.side, &mut pass.seats, at);
        let as_counted = counted(self.region, at, answer);
        pass.counts = pass.counts.after(CallName::Advance, at, &as_counted);
        answer
    }
}
