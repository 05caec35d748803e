// The words of the two sides, and how a side takes what the other has written.
ghost use Rattle.std.specs.Prelude.{◌≡◌, ◌+◌, ◌*◌, ◌<◌, ◌≤◌, ℕ, [], List, length};
ghost use Rattle.std.specs.List.{AllByRecursion};
ghost use Rattle.clock_ratio.specs.Stamp.{least_of, most_of, window_of};
ghost use Rattle.port_log.specs.Kept.{other_clock};
ghost use Rattle.port_wire.specs.Seen.{writes_of};
ghost use Rattle.port_entries.specs.Entry.{Entry};
ghost use Rattle.word_log.specs.Known.{half_in, has};
ghost use Rattle.word_log.specs.Rule.{end_of};
ghost use Rattle.word_log.specs.Steps.{IsClearFrom, TellsClock, TellsLength, TellsEntry};
ghost use Rattle.word_log.specs.Desks.{clears_of, ReadsBy, IsDesk, IsReady, Takes, Listens};

use crate::desk::Desk;
use crate::layout::{across, clock_place, count_place, entry_place};
use crate::plays::{Clock, Length, Logging, Taking, WordRule, WordSeat};
use crate::views::View;
use atomic_table::Table;
use clock_ratio::least;
use snes_defs::{Region, Side};
use std::alloc::Global;
use std::marker::Model;

/// The words that carry the writes of two sides between two threads, without a lock.
#[derive(Drop)]
pub struct Words {
    pub(crate) table: Table<(), View, Region, WordRule, Global>,
    pub(crate) region: Region,
}

impl Model for Words {
    ghost use Rattle.std.specs.Prelude.{◌≡◌};
    ghost use Rattle.word_log.specs.WordsKnown.{WordsKnown};

    ghost Value = { WordsKnown };

    ghost view = { λ p. record { table = p.table.shared.table_id; region = p.region } };

    ghost invariant = { λ p. (p.table.shared.table_id.words ≡ 16448) × (p.table.shared.key ≡ p.region) };
}

impl Words {
    /// Returns the region of the two machines.
    #[inline(always)]
    pub fn region(&self) -> Region
        ensures { result ≡ self.now.region }
    {
        self.region
    }

    /// Loads the other side's clock.
    #[inline(always)]
    fn tell_clock<T: Logging>(&self, side: Side, seat: &mut WordSeat) -> u64
        requires seat { seat.old.table_id ≡ self.now.table }
        requires no_slot { seat.old.me.1 ≡ [] }
        requires half { has side seat.old.me.0 ≡ 1 }
        requires done { end_of (least_of self.now.region) (writes_of (half_in side seat.old.me.0).mine)
            ≤ (half_in side seat.old.me.0).at }
        requires clears { (found : ℕ) → AllByRecursion (IsClearFrom (half_in side seat.old.me.0).at) (T.logs found) }
        ensures table { seat.new.table_id ≡ seat.old.table_id }
        ensures no_slot { seat.new.me.1 ≡ [] }
        ensures told { TellsClock side seat.old.me.0 T.logs result seat.new.me.0 }
    {
        self.table
            .shared
            .load::<Clock<T>>(seat, clock_place(across(side)))
    }

    /// Loads how many writes the other side has counted.
    #[inline(always)]
    fn tell_length(&self, side: Side, seat: &mut WordSeat) -> u64
        requires seat { seat.old.table_id ≡ self.now.table }
        requires no_slot { seat.old.me.1 ≡ [] }
        requires half { has side seat.old.me.0 ≡ 1 }
        ensures table { seat.new.table_id ≡ seat.old.table_id }
        ensures no_slot { seat.new.me.1 ≡ [] }
        ensures told { TellsLength side seat.old.me.0 result seat.new.me.0 }
    {
        self.table
            .shared
            .load::<Length>(seat, count_place(across(side)))
    }

    /// Loads the other side's write of a number, the first that was not taken yet.
    #[inline(always)]
    fn tell_entry(&self, side: Side, seat: &mut WordSeat, number: u64) -> u64
        requires seat { seat.old.table_id ≡ self.now.table }
        requires no_slot { seat.old.me.1 ≡ [] }
        requires half { has side seat.old.me.0 ≡ 1 }
        requires number { number ≡ length (half_in side seat.old.me.0).heard }
        requires less { number < (half_in side seat.old.me.0).may }
        ensures table { seat.new.table_id ≡ seat.old.table_id }
        ensures no_slot { seat.new.me.1 ≡ [] }
        ensures told { TellsEntry side seat.old.me.0 result seat.new.me.0 }
    {
        self.table
            .shared
            .load::<Taking>(seat, entry_place(across(side), number))
    }

    /// Takes one more write of the other side, which has counted `many`.
    #[inline(always)]
    fn take(&self, side: Side, seat: &mut WordSeat, desk: &mut Desk, many: u64)
        requires seat { seat.old.table_id ≡ self.now.table }
        requires no_slot { seat.old.me.1 ≡ [] }
        requires half { has side seat.old.me.0 ≡ 1 }
        requires place { seat.old.me.0.region ≡ self.now.region }
        requires many { (half_in side seat.old.me.0).may ≡ many }
        requires less { desk.old.heard < many }
        requires desk { IsDesk side self.now.region (half_in side seat.old.me.0) desk.old }
        ensures table { seat.new.table_id ≡ seat.old.table_id }
        ensures no_slot { seat.new.me.1 ≡ [] }
        ensures takes { Takes side seat.old.me.0 seat.new.me.0 }
        ensures desk { IsDesk side self.now.region (half_in side seat.new.me.0) desk.new }
        ensures reads { (clears : List Entry) → ReadsBy side clears (half_in side seat.old.me.0) desk.old
            → ReadsBy side clears (half_in side seat.new.me.0) desk.new }
        ensures one { desk.new.heard ≡ desk.old.heard + 1 }
        ensures written { desk.new.written ≡ desk.old.written }
    {
        let other = across(side);
        let word = self.tell_entry(side, seat, desk.heard);
        let at = word / 1024;
        let port = (word / 256 % 4) as u8;
        let byte = (word % 256) as u8;
        match desk
            .log
            .write(other, at, port, byte, at + least(self.region))
        {
            Ok(()) => desk.heard += 1,
            Err(_) => unreachable!(),
        }
    }

    /// Takes all the writes that the other side has counted, which are `many`.
    #[inline(always)]
    fn take_all(&self, side: Side, seat: &mut WordSeat, desk: &mut Desk, many: u64)
        requires seat { seat.old.table_id ≡ self.now.table }
        requires no_slot { seat.old.me.1 ≡ [] }
        requires half { has side seat.old.me.0 ≡ 1 }
        requires place { seat.old.me.0.region ≡ self.now.region }
        requires many { (half_in side seat.old.me.0).may ≡ many }
        requires raised { many ≤ length (half_in side seat.old.me.0).heard
            → (half_in side seat.old.me.0).upto ≡ (half_in side seat.old.me.0).other }
        requires desk { IsDesk side self.now.region (half_in side seat.old.me.0) desk.old }
        ensures table { seat.new.table_id ≡ seat.old.table_id }
        ensures no_slot { seat.new.me.1 ≡ [] }
        ensures takes { Takes side seat.old.me.0 seat.new.me.0 }
        ensures written { desk.new.written ≡ desk.old.written }
        ensures all { many ≤ length (half_in side seat.new.me.0).heard }
        ensures desk { IsDesk side self.now.region (half_in side seat.new.me.0) desk.new }
        ensures reads { (clears : List Entry) → ReadsBy side clears (half_in side seat.old.me.0) desk.old
            → ReadsBy side clears (half_in side seat.new.me.0) desk.new }
    {
        'taking: while desk.heard < many {
            self.take(side, seat, desk, many);
        }
    }

    /// Loads the other side's clock, and takes all that the other has counted. A caller's clear at `_at`, about to be
    /// made, is logged at the load of that clock if the clock settles it. That is in proofs alone.
    #[inline(always)]
    pub(crate) fn listen<T: Logging>(
        &self,
        side: Side,
        seat: &mut WordSeat,
        desk: &mut Desk,
        _at: u64,
        _mask: u8,
    )
        requires seat { seat.old.table_id ≡ self.now.table }
        requires no_slot { seat.old.me.1 ≡ [] }
        requires half { has side seat.old.me.0 ≡ 1 }
        requires place { seat.old.me.0.region ≡ self.now.region }
        requires ready { IsReady side self.now.region (half_in side seat.old.me.0) desk.old }
        requires clears { (found : ℕ) → AllByRecursion (IsClearFrom (half_in side seat.old.me.0).at) (T.logs found) }
        ensures table { seat.new.table_id ≡ seat.old.table_id }
        ensures no_slot { seat.new.me.1 ≡ [] }
        ensures listens { Listens side seat.old.me.0 seat.new.me.0 (T.logs (half_in side seat.new.me.0).other)
            (half_in side seat.old.me.0).at }
        ensures desk { IsDesk side self.now.region (half_in side seat.new.me.0) desk.new }
        ensures reads { ReadsBy side (clears_of (half_in side seat.old.me.0).mine)
            (half_in side seat.new.me.0) desk.new }
        ensures known { desk.new.known ≡ (half_in side seat.new.me.0).other }
        ensures soon { (half_in side seat.new.me.0).other ≤ other_clock side desk.new.log }
        ensures written { desk.new.written ≡ desk.old.written }
    {
        let other = across(side);
        let clock = self.tell_clock::<T>(side, seat);
        let many = self.tell_length(side, seat);
        self.take_all(side, seat, desk, many);
        desk.known = clock;
        let latest = clock.max(desk.log.clock(other));
        let _own = desk.log.advance(other, latest);
    }
}
