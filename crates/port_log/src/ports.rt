// The log of the ports under its lock, and the calls of a side over its seats.
ghost use Rattle.std.specs.Prelude.{◌≡◌, ◌+◌, ◌<◌, ◌≤◌, ℕ, [], ◌∷◌, None, Some, IfSome, IfNone, length};
ghost use Rattle.std.specs.List.{AllByRecursion};
ghost use Rattle.port_entries.specs.Entry.{entry_stamp};
ghost use Rattle.port_log.specs.Sums.{count_of};
ghost use Rattle.port_log.specs.LockRule.{side_number, given_back, holding};
ghost use Rattle.port_log.specs.ListRule.{clock_in, IsOrderly, logged, told_by, book_in, without_book};
ghost use Rattle.port_log.specs.KeptBook.{StandsForBook};
ghost use Rattle.port_log.specs.Events.{entries_of};
ghost use Rattle.port_log.specs.Seating.{AreSeatsOf, AreIdle, AreOut, MissesOnce};
ghost use Rattle.port_log.specs.Seating.{Enters, Leaves, half_option, half_in};
ghost use Rattle.port_log.specs.PassCalls.{IsTold, IfHeld, IfTold, ReadAnswers};
ghost use Rattle.port_log.specs.PassCalls.{ClearAnswers, WriteAnswers, AdvanceAnswers, logged_by, clock_by};
ghost use Rattle.clock_ratio.specs.Stamp.{least_of, window_of};
ghost use Rattle.port_entries.specs.Entry.{WriteAt, ClearAt};
ghost use Rattle.port_log.specs.Kept.{other_side};

use crate::event::Event;
use crate::kept::Kept;
use crate::lateness::over_pass;
use crate::plays::{
    Give, Joined, ListRule, ListSeat, LockKey, LockRule, Look, Note, Take, Tell, Telling,
};
use crate::port_log::PortLog;
use crate::seats::{Clocks, Seats};
use crate::seen::across;
use crate::views::{ListView, LockView};
use atomic_table::Table;
use port_wire::PassLate;
use snes_defs::{Region, Side};
use std::alloc::Global;
use std::marker::{Brand, Model};

/// The number of a side in the turn word.
#[inline(always)]
fn number(side: Side) -> u64
    ensures { result ≡ side_number side }
{
    match side {
        Side::Console => 1,
        Side::Sound => 2,
    }
}

/// How many entries an event adds.
#[inline(always)]
fn how_many(event: Event) -> u64
    ensures { result ≡ length (entries_of event) }
{
    match event {
        Event::Nothing => 0,
        Event::Wrote { .. } => 1,
        Event::Cleared { .. } => 1,
    }
}

/// The log of the ports under its lock, for two threads.
#[derive(Drop)]
pub struct Ports {
    pub(crate) lock: Table<Option<Kept>, LockView, LockKey, LockRule, Global>,
    pub(crate) list: Table<(), ListView, (), ListRule, Global>,
    pub(crate) region: Region,
}

impl Model for Ports {
    ghost use Rattle.std.specs.Prelude.{◌≡◌};
    ghost use Rattle.port_log.specs.PortsKnown.{PortsKnown};

    ghost Value = { PortsKnown };

    ghost view = { λ p. record {
      lock = p.lock.shared.table_id;
      list = p.list.shared.table_id;
      region = p.region;
    } };

    ghost invariant = { λ p. (p.lock.shared.table_id.words ≡ 1) × (p.lock.shared.table_id.slots ≡ 1)
        × (p.list.shared.table_id.words ≡ 2)
        × (p.lock.shared.key.list.table_id ≡ p.list.shared.table_id)
        × (p.lock.shared.key.region ≡ p.region) };
}

impl Ports {
    /// Returns the region of the two machines.
    #[inline(always)]
    pub fn region(&self) -> Region
        ensures { result ≡ self.now.region }
    {
        self.region
    }

    /// Tries once to take the log for a side. If it succeeds, the side has the log and the book; otherwise the other
    /// side had it.
    #[inline(always)]
    fn enter(&self, side: Side, seats: &mut Seats) -> Option<Box<PortLog>>
        requires seats { AreSeatsOf self.now seats.old }
        requires idle { AreIdle side seats.old }
        ensures missed { IfNone result (MissesOnce side seats.old seats.new) }
        ensures entered { IfSome result
            (λ log. Enters self.now.region side seats.old seats.new log.value) }
    {
        let found = self
            .lock
            .shared
            .compare_exchange::<Take>(&mut seats.lock, 0, 0, number(side));
        if found != 0 {
            return None;
        }
        let kept = self.lock.shared.exchange(&mut seats.lock, 0, None).unwrap();
        let Kept { log, note } = kept;
        self.list
            .shared
            .join_seat::<Joined>(&mut seats.list, note.into_seat());
        let _count = self.list.shared.load::<Look>(&mut seats.list, 0);
        Some(log)
    }

    /// Adds to the book what a call of a side logged, and the clock that it published.
    #[inline(always)]
    fn tell<T: Telling>(&self, side: Side, seat: &mut ListSeat, event: Event, clock: u64)
        requires entries { T.entries ≡ entries_of event }
        requires clock { T.clock ≡ clock }
        requires seat { seat.old.table_id ≡ self.now.list }
        requires no_slot { seat.old.me.1 ≡ [] }
        requires book { seat.old.me.0.book ≡ Some (book_in seat.old.me.0) }
        requires half { count_of (half_option side seat.old.me.0) ≡ 1 }
        requires rises { clock_in side (book_in seat.old.me.0) ≤ clock }
        requires later { AllByRecursion (λ e. clock_in side (book_in seat.old.me.0) ≤ entry_stamp e)
            (entries_of event) }
        requires orderly { IsOrderly
            (logged side (entries_of event) clock (book_in seat.old.me.0)) }
        ensures table { seat.new.table_id ≡ seat.old.table_id }
        ensures told { seat.new.me ≡
            (told_by (logged side (entries_of event) clock (book_in seat.old.me.0)) seat.old.me.0, []) }
    {
        let many = how_many(event);
        match side {
            Side::Console => {
                let _count = self.list.shared.fetch_add::<Tell<T>>(seat, 0, many);
            }
            Side::Sound => {
                let _count = self.list.shared.fetch_add::<Tell<T>>(seat, 1, many);
            }
        }
    }

    /// Gives the log back after a call of a side, which logged an event and published a clock.
    #[inline(always)]
    fn leave(&self, side: Side, seats: &mut Seats, log: Box<PortLog>, event: Event, clock: u64)
        requires seats { AreSeatsOf self.now seats.old }
        requires out { AreOut side seats.old }
        requires stands { StandsForBook log.value
            (logged side (entries_of event) clock (book_in seats.old.list.me.0)) }
        requires region { log.value.region ≡ self.now.region }
        requires rises { clock_in side (book_in seats.old.list.me.0) ≤ clock }
        requires later { AllByRecursion
            (λ e. clock_in side (book_in seats.old.list.me.0) ≤ entry_stamp e) (entries_of event) }
        ensures { Leaves side clock seats.old seats.new
            (logged side (entries_of event) clock (book_in seats.old.list.me.0)) }
    {
        let known = log.clock(across(side));
        self.tell::<Brand>(side, &mut seats.list, event, clock);
        let note = self
            .list
            .shared
            .split_seat::<Note>(&mut seats.list)
            .into_badge();
        let kept = Kept { log, note };
        let _empty = self.lock.shared.exchange(&mut seats.lock, 0, Some(kept));
        self.lock.shared.store::<Give>(&mut seats.lock, 0, 0);
        seats.clocks = Clocks { own: clock, known };
    }

    /// A read of a side, over its seats.
    #[inline(always)]
    pub(crate) fn read_by(
        &self,
        side: Side,
        seats: &mut Seats,
        at: u64,
        port: u8,
    ) -> Result<u8, PassLate>
        requires seats { AreSeatsOf self.now seats.old }
        requires idle { AreIdle side seats.old }
        requires port { port < 4 }
        requires own_clock { (half_in side seats.old.list.me.0).at ≤ at }
        ensures held { IfHeld result
            (λ by. (by ≡ other_side side) × MissesOnce side seats.old seats.new) }
        ensures told { IfTold result (IsTold side seats.old seats.new []
            (half_in side seats.old.list.me.0).at (ReadAnswers side at port result)) }
    {
        match self.enter(side, seats) {
            None => Err(PassLate::Held { by: across(side) }),
            Some(mut log) => {
                let clock = log.clock(side);
                let answer = log.read(side, at, port);
                self.leave(side, seats, log, Event::Nothing, clock);
                match answer {
                    Ok(byte) => Ok(byte),
                    Err(late) => Err(over_pass(late)),
                }
            }
        }
    }

    /// A clear of a side, over its seats.
    #[inline(always)]
    pub(crate) fn clear_by(
        &self,
        side: Side,
        seats: &mut Seats,
        at: u64,
        mask: u8,
    ) -> Result<(), PassLate>
        requires seats { AreSeatsOf self.now seats.old }
        requires idle { AreIdle side seats.old }
        requires mask { (1 ≤ mask) × (mask ≤ 15) }
        requires own_clock { (half_in side seats.old.list.me.0).at ≤ at }
        ensures held { IfHeld result
            (λ by. (by ≡ other_side side) × MissesOnce side seats.old seats.new) }
        ensures told { IfTold result (IsTold side seats.old seats.new
            (logged_by result (ClearAt at mask)) (half_in side seats.old.list.me.0).at
            (ClearAnswers side at result)) }
    {
        match self.enter(side, seats) {
            None => Err(PassLate::Held { by: across(side) }),
            Some(mut log) => {
                let clock = log.clock(side);
                match log.clear(side, at, mask) {
                    Ok(()) => {
                        self.leave(side, seats, log, Event::Cleared { at, mask }, clock);
                        Ok(())
                    }
                    Err(late) => {
                        self.leave(side, seats, log, Event::Nothing, clock);
                        Err(over_pass(late))
                    }
                }
            }
        }
    }

    /// A write of a side, over its seats.
    #[inline(always)]
    pub(crate) fn write_by(
        &self,
        side: Side,
        seats: &mut Seats,
        at: u64,
        port: u8,
        v: u8,
        next: u64,
    ) -> Result<(), PassLate>
        requires seats { AreSeatsOf self.now seats.old }
        requires idle { AreIdle side seats.old }
        requires port { port < 4 }
        requires own_clock { (half_in side seats.old.list.me.0).at ≤ at }
        requires rises { at + least_of self.now.region ≤ next }
        ensures held { IfHeld result
            (λ by. (by ≡ other_side side) × MissesOnce side seats.old seats.new) }
        ensures told { IfTold result (IsTold side seats.old seats.new
            (logged_by result (WriteAt at port v))
            (clock_by result next (half_in side seats.old.list.me.0).at)
            (WriteAnswers (window_of self.now.region) side at result)) }
    {
        match self.enter(side, seats) {
            None => Err(PassLate::Held { by: across(side) }),
            Some(mut log) => {
                let clock = log.clock(side);
                match log.write(side, at, port, v, next) {
                    Ok(()) => {
                        let event = Event::Wrote { at, port, byte: v };
                        self.leave(side, seats, log, event, next);
                        Ok(())
                    }
                    Err(late) => {
                        self.leave(side, seats, log, Event::Nothing, clock);
                        Err(over_pass(late))
                    }
                }
            }
        }
    }

    /// A clock of a side, over its seats.
    #[inline(always)]
    pub(crate) fn advance_by(&self, side: Side, seats: &mut Seats, at: u64) -> Result<u64, PassLate>
        requires seats { AreSeatsOf self.now seats.old }
        requires idle { AreIdle side seats.old }
        requires own_clock { (half_in side seats.old.list.me.0).at ≤ at }
        ensures held { IfHeld result
            (λ by. (by ≡ other_side side) × MissesOnce side seats.old seats.new) }
        ensures told { IfTold result (IsTold side seats.old seats.new [] at
            (AdvanceAnswers side result)) }
    {
        match self.enter(side, seats) {
            None => Err(PassLate::Held { by: across(side) }),
            Some(mut log) => {
                let other = log.advance(side, at);
                self.leave(side, seats, log, Event::Nothing, at);
                Ok(other)
            }
        }
    }
}
