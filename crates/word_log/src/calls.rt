// One call of a side, over its seat and its desk.
ghost use Rattle.std.specs.Prelude.{◌≡◌, ◌+◌, ◌^◌, ◌<◌, ◌≤◌, ◌↔◌, [], ◌∷◌, IsTrue, length};
ghost use Rattle.std.specs.Bool.{OnFalse};
ghost use Rattle.clock_ratio.specs.Stamp.{least_of, most_of, window_of};
ghost use Rattle.port_entries.specs.Entry.{WriteAt, ClearAt};
ghost use Rattle.port_entries.specs.Window.{IsSettled};
ghost use Rattle.port_log.specs.Kept.{other_clock};
ghost use Rattle.port_log.specs.Refused.{IsBehind, IsAhead};
ghost use Rattle.port_wire.specs.Seen.{writes_of};
ghost use Rattle.word_log.specs.Rule.{end_of};
ghost use Rattle.word_log.specs.Layout.{end_of_stamps};
ghost use Rattle.word_log.specs.Known.{half_in, has, changed};
ghost use Rattle.word_log.specs.Steps.{after_put, after_count, after_publish, MayCount};
ghost use Rattle.word_log.specs.Desks.{clears_of, ReadsBy, IsDesk, IsReady, Listens, nothing_at};
ghost use Rattle.word_log.specs.PassCalls.{ReadAnswers, ClearAnswers, WriteAnswers, logged_by, clock_by};

use crate::desk::Desk;
use crate::layout::{clock_place, count_place, entry_place, packed};
use crate::plays::{Count, Publish, Put, WordSeat};
use crate::words::Words;
use clock_ratio::window;
use port_wire::PassLate;
use snes_defs::Side;
use std::marker::Brand;

/// Whether the other side, whose clock is `other`, may still write what the side sees at `at`.
#[inline(always)]
fn is_behind(side: Side, at: u64, other: u64) -> bool
    ensures behind { IsTrue result ↔ IsBehind side at other }
    ensures settled { OnFalse result (IsSettled side at other) }
{
    match side {
        Side::Console => other < at,
        Side::Sound => other <= at,
    }
}

/// Whether `at` lies past a window of the other side's clock.
#[inline(always)]
fn is_ahead(window: u64, at: u64, other: u64) -> bool
    ensures { IsTrue result ↔ IsAhead window at other }
{
    at > other && at - other > window
}

impl Words {
    /// Loads the other side's clock, takes all that the other has counted, and logs nothing.
    #[inline(always)]
    fn hear(&self, side: Side, seat: &mut WordSeat, desk: &mut Desk)
        requires seat { seat.old.table_id ≡ self.now.table }
        requires no_slot { seat.old.me.1 ≡ [] }
        requires half { has side seat.old.me.0 ≡ 1 }
        requires place { seat.old.me.0.region ≡ self.now.region }
        requires ready { IsReady side self.now.region (half_in side seat.old.me.0) desk.old }
        ensures table { seat.new.table_id ≡ seat.old.table_id }
        ensures no_slot { seat.new.me.1 ≡ [] }
        ensures listens { Listens side seat.old.me.0 seat.new.me.0 [] (half_in side seat.old.me.0).at }
        ensures ready { IsReady side self.now.region (half_in side seat.new.me.0) desk.new }
    {
        self.listen::<Brand>(side, seat, desk, 0, 0);
    }

    /// A read of a side.
    #[inline(always)]
    pub(crate) fn read_by(
        &self,
        side: Side,
        seat: &mut WordSeat,
        desk: &mut Desk,
        at: u64,
        port: u8,
    ) -> Result<u8, PassLate>
        requires seat { seat.old.table_id ≡ self.now.table }
        requires no_slot { seat.old.me.1 ≡ [] }
        requires half { has side seat.old.me.0 ≡ 1 }
        requires place { seat.old.me.0.region ≡ self.now.region }
        requires ready { IsReady side self.now.region (half_in side seat.old.me.0) desk.old }
        requires port { port < 4 }
        requires own_clock { (half_in side seat.old.me.0).at ≤ at }
        ensures table { seat.new.table_id ≡ seat.old.table_id }
        ensures no_slot { seat.new.me.1 ≡ [] }
        ensures listens { Listens side seat.old.me.0 seat.new.me.0 [] (half_in side seat.old.me.0).at }
        ensures ready { IsReady side self.now.region (half_in side seat.new.me.0) desk.new }
        ensures answer { ReadAnswers side at port result (half_in side seat.new.me.0) }
    {
        self.hear(side, seat, desk);
        if is_behind(side, at, desk.known) {
            return Err(PassLate::Behind {
                need: at,
                other: desk.known,
            });
        }
        match desk.log.read(side, at, port) {
            Ok(byte) => Ok(byte),
            Err(_) => unreachable!(),
        }
    }

    /// A clear of a side. It is logged at the load of the other side's clock, if that settles it.
    #[inline(always)]
    pub(crate) fn clear_by(
        &self,
        side: Side,
        seat: &mut WordSeat,
        desk: &mut Desk,
        at: u64,
        mask: u8,
    ) -> Result<(), PassLate>
        requires seat { seat.old.table_id ≡ self.now.table }
        requires no_slot { seat.old.me.1 ≡ [] }
        requires half { has side seat.old.me.0 ≡ 1 }
        requires place { seat.old.me.0.region ≡ self.now.region }
        requires ready { IsReady side self.now.region (half_in side seat.old.me.0) desk.old }
        requires mask { (1 ≤ mask) × (mask ≤ 15) }
        requires own_clock { (half_in side seat.old.me.0).at ≤ at }
        ensures table { seat.new.table_id ≡ seat.old.table_id }
        ensures no_slot { seat.new.me.1 ≡ [] }
        ensures listens { Listens side seat.old.me.0 seat.new.me.0 (logged_by result (ClearAt at mask))
            (half_in side seat.old.me.0).at }
        ensures ready { IsReady side self.now.region (half_in side seat.new.me.0) desk.new }
        ensures answer { ClearAnswers side at result (half_in side seat.new.me.0).other }
    {
        self.listen::<Brand>(side, seat, desk, at, mask);
        if is_behind(side, at, desk.known) {
            return Err(PassLate::Behind {
                need: at,
                other: desk.known,
            });
        }
        match desk.log.clear(side, at, mask) {
            Ok(()) => Ok(()),
            Err(_) => unreachable!(),
        }
    }

    /// Puts a write into the side's next entry word.
    #[inline(always)]
    fn put(&self, side: Side, seat: &mut WordSeat, written: u64, at: u64, port: u8, v: u8)
        requires seat { seat.old.table_id ≡ self.now.table }
        requires no_slot { seat.old.me.1 ≡ [] }
        requires half { has side seat.old.me.0 ≡ 1 }
        requires port { port < 4 }
        requires stamp { at < end_of_stamps }
        requires written { written ≡ length (writes_of (half_in side seat.old.me.0).mine) }
        ensures table { seat.new.table_id ≡ seat.old.table_id }
        ensures put { seat.new.me
            ≡ (changed side (after_put (WriteAt at port v) (half_in side seat.old.me.0)) seat.old.me.0, []) }
    {
        let number = packed(at, port, v);
        self.table
            .shared
            .store::<Put>(seat, entry_place(side, written), number);
    }

    /// Counts the write that was put, which follows `written` others.
    #[inline(always)]
    fn count(&self, side: Side, seat: &mut WordSeat, written: u64)
        requires seat { seat.old.table_id ≡ self.now.table }
        requires no_slot { seat.old.me.1 ≡ [] }
        requires half { has side seat.old.me.0 ≡ 1 }
        requires written { written ≡ length (writes_of (half_in side seat.old.me.0).mine) }
        requires few { written < 2 ^ 63 }
        requires may { MayCount self.now.region (half_in side seat.old.me.0) }
        ensures table { seat.new.table_id ≡ seat.old.table_id }
        ensures counted { seat.new.me ≡ (changed side (after_count (half_in side seat.old.me.0)) seat.old.me.0, []) }
    {
        self.table
            .shared
            .store::<Count>(seat, count_place(side), written + 1);
    }

    /// Publishes a clock of the side.
    #[inline(always)]
    fn publish(&self, side: Side, seat: &mut WordSeat, clock: u64)
        requires seat { seat.old.table_id ≡ self.now.table }
        requires no_slot { seat.old.me.1 ≡ [] }
        requires half { has side seat.old.me.0 ≡ 1 }
        requires rises { (half_in side seat.old.me.0).at ≤ clock }
        requires near { clock
            ≤ (half_in side seat.old.me.0).upto + window_of self.now.region + most_of self.now.region }
        ensures table { seat.new.table_id ≡ seat.old.table_id }
        ensures published { seat.new.me
            ≡ (changed side (after_publish clock (half_in side seat.old.me.0)) seat.old.me.0, []) }
    {
        self.table
            .shared
            .store::<Publish>(seat, clock_place(side), clock);
    }

    /// Puts a write into the side's next entry word, counts it, and publishes a clock.
    #[inline(always)]
    fn log_write(
        &self,
        side: Side,
        seat: &mut WordSeat,
        written: u64,
        at: u64,
        port: u8,
        v: u8,
        next: u64,
    )
        requires seat { seat.old.table_id ≡ self.now.table }
        requires no_slot { seat.old.me.1 ≡ [] }
        requires half { has side seat.old.me.0 ≡ 1 }
        requires port { port < 4 }
        requires stamp { at < end_of_stamps }
        requires written { written ≡ length (writes_of (half_in side seat.old.me.0).mine) }
        requires few { written < 2 ^ 63 }
        requires done { end_of (least_of self.now.region) (writes_of (half_in side seat.old.me.0).mine)
            ≤ (half_in side seat.old.me.0).at }
        requires own_clock { (half_in side seat.old.me.0).at ≤ at }
        requires within { at ≤ (half_in side seat.old.me.0).other + window_of self.now.region }
        requires upto { (half_in side seat.old.me.0).upto ≡ (half_in side seat.old.me.0).other }
        requires rises { at ≤ next }
        requires near { next ≤ at + most_of self.now.region }
        ensures table { seat.new.table_id ≡ seat.old.table_id }
        ensures no_slot { seat.new.me.1 ≡ [] }
        ensures wrote { seat.new.me.0 ≡ changed side
            (after_publish next (after_count (after_put (WriteAt at port v) (half_in side seat.old.me.0))))
            seat.old.me.0 }
    {
        self.put(side, seat, written, at, port, v);
        self.count(side, seat, written);
        self.publish(side, seat, next);
    }

    /// A write of a side.
    #[inline(always)]
    pub(crate) fn write_by(
        &self,
        side: Side,
        seat: &mut WordSeat,
        desk: &mut Desk,
        at: u64,
        port: u8,
        v: u8,
        next: u64,
    ) -> Result<(), PassLate>
        requires seat { seat.old.table_id ≡ self.now.table }
        requires no_slot { seat.old.me.1 ≡ [] }
        requires half { has side seat.old.me.0 ≡ 1 }
        requires place { seat.old.me.0.region ≡ self.now.region }
        requires ready { IsReady side self.now.region (half_in side seat.old.me.0) desk.old }
        requires port { port < 4 }
        requires own_clock { (half_in side seat.old.me.0).at ≤ at }
        requires stamp { at < end_of_stamps }
        requires rises { at + least_of self.now.region ≤ next }
        requires near { next ≤ at + most_of self.now.region }
        ensures table { seat.new.table_id ≡ seat.old.table_id }
        ensures no_slot { seat.new.me.1 ≡ [] }
        ensures listens { Listens side seat.old.me.0 seat.new.me.0 (logged_by result (WriteAt at port v))
            (clock_by result next (half_in side seat.old.me.0).at) }
        ensures ready { IsReady side self.now.region (half_in side seat.new.me.0) desk.new }
        ensures answer { WriteAnswers (window_of self.now.region) at result (half_in side seat.new.me.0).other }
    {
        self.hear(side, seat, desk);
        if is_ahead(window(self.region), at, desk.known) {
            return Err(PassLate::Ahead {
                at,
                other: desk.known,
            });
        }
        self.log_write(side, seat, desk.written, at, port, v, next);
        desk.written += 1;
        let _other = desk.log.advance(side, next);
        Ok(())
    }

    /// A clock of a side.
    #[inline(always)]
    pub(crate) fn advance_by(
        &self,
        side: Side,
        seat: &mut WordSeat,
        desk: &mut Desk,
        at: u64,
    ) -> u64
        requires seat { seat.old.table_id ≡ self.now.table }
        requires no_slot { seat.old.me.1 ≡ [] }
        requires half { has side seat.old.me.0 ≡ 1 }
        requires place { seat.old.me.0.region ≡ self.now.region }
        requires ready { IsReady side self.now.region (half_in side seat.old.me.0) desk.old }
        requires own_clock { (half_in side seat.old.me.0).at ≤ at }
        requires near { at ≤ (half_in side seat.old.me.0).other + window_of self.now.region + most_of self.now.region }
        ensures table { seat.new.table_id ≡ seat.old.table_id }
        ensures no_slot { seat.new.me.1 ≡ [] }
        ensures listens { Listens side seat.old.me.0 seat.new.me.0 [] at }
        ensures ready { IsReady side self.now.region (half_in side seat.new.me.0) desk.new }
        ensures answer { result ≡ (half_in side seat.new.me.0).other }
    {
        self.hear(side, seat, desk);
        self.publish(side, seat, at);
        let _other = desk.log.advance(side, at);
        desk.known
    }
}
