// A pass: one side's access to the words.
ghost use Rattle.std.specs.Prelude.{◌≡◌, ◌+◌, ◌<◌, ◌≤◌};
ghost use Rattle.clock_ratio.specs.Stamp.{least_of, most_of, window_of};
ghost use Rattle.port_wire.specs.Answers.{HearsOn, EndsRead, EndsClear, EndsWrite, EndsAdvance};
ghost use Rattle.word_log.specs.Layout.{end_of_stamps};
ghost use Rattle.word_log.specs.Passes.{IsPassOf, WasTold, IsNeverHeld};

use crate::desk::Desk;
use crate::plays::WordSeat;
use crate::words::Words;
use port_wire::{CallName, Counts, PassLate, counted};
use snes_defs::Side;
use std::marker::Model;

/// One side's access to the words, with the tally of its refused calls. A thread holds it and needs nothing else.
#[derive(Drop)]
pub struct Pass {
    pub(crate) side: Side,
    pub(crate) seat: WordSeat,
    pub(crate) desk: Desk,
    pub(crate) counts: Counts,
}

impl Model for Pass {
    ghost use Rattle.word_log.specs.Passes.{PassValue, pass_of, StandFor};

    ghost Value = { PassValue };

    ghost view = { λ p. pass_of p.side p.seat.table_id p.seat.me.0 p.counts };

    ghost invariant = { λ p. StandFor p.side p.seat.me p.desk };
}

impl Pass {
    /// Returns the side whose pass it is.
    #[inline(always)]
    pub fn side(&self) -> Side
        ensures { result ≡ self.now.side }
    {
        self.side
    }

    /// Returns the clock that the side has published.
    #[inline(always)]
    pub fn clock(&self) -> u64
        ensures { result ≡ self.now.half.at }
    {
        self.desk.log.clock(self.side)
    }

    /// Returns the latest clock of the other side that the pass knows.
    #[inline(always)]
    pub fn known(&self) -> u64
        ensures { result ≡ self.now.half.known }
    {
        self.desk.known
    }
}

// Each call loads the other side's clock and count, and takes all that the other has counted. Then it returns or is
// refused as the log call of its name is, on the clock that it loaded. None is held, and none waits.
impl Words {
    /// Returns the byte that the side of the pass finds at its incoming port at the stamp `at`.
    #[inline(always)]
    pub fn read(&self, pass: &mut Pass, at: u64, port: u8) -> Result<u8, PassLate>
        requires of { IsPassOf self.now pass.old }
        requires port { port < 4 }
        requires own_clock { pass.old.half.at ≤ at }
        ensures still_of { IsPassOf self.now pass.new }
        ensures side { pass.new.side ≡ pass.old.side }
        ensures hears { HearsOn pass.old.half pass.new.half }
        ensures ends { EndsRead pass.old.side at port result pass.old.half pass.new.half }
        ensures told { WasTold pass.old pass.new }
        ensures never_held { IsNeverHeld result }
    {
        let answer = self.read_by(pass.side, &mut pass.seat, &mut pass.desk, at, port);
        pass.counts = pass.counts.after(CallName::Read, at, &answer);
        answer
    }

    /// Zeroes the incoming ports of the mask, of the side of the pass, at the stamp `at`.
    #[inline(always)]
    pub fn clear(&self, pass: &mut Pass, at: u64, mask: u8) -> Result<(), PassLate>
        requires of { IsPassOf self.now pass.old }
        requires mask { (1 ≤ mask) × (mask ≤ 15) }
        requires own_clock { pass.old.half.at ≤ at }
        ensures still_of { IsPassOf self.now pass.new }
        ensures side { pass.new.side ≡ pass.old.side }
        ensures hears { HearsOn pass.old.half pass.new.half }
        ensures ends { EndsClear pass.old.side at mask result pass.old.half pass.new.half }
        ensures told { WasTold pass.old pass.new }
        ensures never_held { IsNeverHeld result }
    {
        let answer = self.clear_by(pass.side, &mut pass.seat, &mut pass.desk, at, mask);
        pass.counts = pass.counts.after(CallName::Clear, at, &answer);
        answer
    }

    /// Logs that the side of the pass wrote a byte to an outgoing port at the stamp `at`, and publishes `next`, which
    /// is at most one rise later. A write that is refused publishes nothing.
    #[inline(always)]
    pub fn write(
        &self,
        pass: &mut Pass,
        at: u64,
        port: u8,
        v: u8,
        next: u64,
    ) -> Result<(), PassLate>
        requires of { IsPassOf self.now pass.old }
        requires port { port < 4 }
        requires own_clock { pass.old.half.at ≤ at }
        requires stamp { at < end_of_stamps }
        requires rises { at + least_of self.now.region ≤ next }
        requires near { next ≤ at + most_of self.now.region }
        ensures still_of { IsPassOf self.now pass.new }
        ensures side { pass.new.side ≡ pass.old.side }
        ensures hears { HearsOn pass.old.half pass.new.half }
        ensures ends { EndsWrite (window_of self.now.region) at port v next result pass.old.half pass.new.half }
        ensures told { WasTold pass.old pass.new }
        ensures never_held { IsNeverHeld result }
    {
        let answer = self.write_by(pass.side, &mut pass.seat, &mut pass.desk, at, port, v, next);
        pass.counts = pass.counts.after(CallName::Write, at, &answer);
        answer
    }

    /// Publishes that each later step of the side of the pass is at `at` or later, and returns the other side's clock.
    /// The clock published is at most the window and one rise ahead of the one known. If the clock found is too early
    /// for a step at `at`, the call counts as refused too.
    #[inline(always)]
    pub fn advance(&self, pass: &mut Pass, at: u64) -> Result<u64, PassLate>
        requires of { IsPassOf self.now pass.old }
        requires own_clock { pass.old.half.at ≤ at }
        requires near { at ≤ pass.old.half.known + window_of self.now.region + most_of self.now.region }
        ensures still_of { IsPassOf self.now pass.new }
        ensures side { pass.new.side ≡ pass.old.side }
        ensures hears { HearsOn pass.old.half pass.new.half }
        ensures ends { EndsAdvance (window_of self.now.region) at result pass.old.half pass.new.half }
        ensures told { WasTold pass.old pass.new }
        ensures never_held { IsNeverHeld result }
    {
        let other = self.advance_by(pass.side, &mut pass.seat, &mut pass.desk, at);
        let as_counted = counted(self.region, at, Ok(other));
        pass.counts = pass.counts.after(CallName::Advance, at, &as_counted);
        Ok(other)
    }
}
