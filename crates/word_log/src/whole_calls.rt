// The four calls over a whole: the log calls on its two lists. No other seat stands for a side.
ghost use Rattle.std.specs.Prelude.{◌≡◌, ◌+◌, ◌<◌, ◌≤◌, []};
ghost use Rattle.clock_ratio.specs.Stamp.{least_of, most_of, window_of};
ghost use Rattle.port_entries.specs.Entry.{WriteAt, ClearAt};
ghost use Rattle.port_log.specs.Kept.{other_side};
ghost use Rattle.port_wire.specs.Whole.{HearBoth};
ghost use Rattle.word_log.specs.Layout.{end_of_stamps};
ghost use Rattle.word_log.specs.Known.{half_in, has};
ghost use Rattle.word_log.specs.Desks.{IsReady};
ghost use Rattle.word_log.specs.PassCalls.{ReadAnswers, ClearAnswers, WriteAnswers, logged_by, clock_by};
ghost use Rattle.word_log.specs.Wholes.{IsWholeOf, both_of, own_half, other_half, whole_after};
ghost use Rattle.word_log.specs.WholeCalls.{Meets, ReadsWhole, ClearsWhole, WritesWhole};

use crate::desk::Desk;
use crate::plays::WordSeat;
use crate::whole::Whole;
use crate::words::Words;
use port_wire::PassLate;
use snes_defs::Side;

impl Words {
    /// A read of a side, over a seat that stands for both: it has heard all that the other side wrote.
    fn read_both(
        &self,
        side: Side,
        seat: &mut WordSeat,
        desk: &mut Desk,
        at: u64,
        port: u8,
    ) -> Result<u8, PassLate>
        requires seat { seat.old.table_id ≡ self.now.table }
        requires no_slot { seat.old.me.1 ≡ [] }
        requires half { has side seat.old.me.0 ≡ 1 }
        requires other_half { has (other_side side) seat.old.me.0 ≡ 1 }
        requires place { seat.old.me.0.region ≡ self.now.region }
        requires ready { IsReady side self.now.region (half_in side seat.old.me.0) desk.old }
        requires port { port < 4 }
        requires own_clock { (half_in side seat.old.me.0).at ≤ at }
        ensures table { seat.new.table_id ≡ seat.old.table_id }
        ensures no_slot { seat.new.me.1 ≡ [] }
        ensures ready { IsReady side self.now.region (half_in side seat.new.me.0) desk.new }
        ensures meets { Meets side seat.old.me.0 seat.new.me.0 [] (half_in side seat.old.me.0).at }
        ensures answer { ReadAnswers side at port result (half_in side seat.new.me.0) }
    {
        let answer = self.read_by(side, seat, desk, at, port);
        self.look(seat);
        answer
    }

    /// A clear of a side, over a seat that stands for both: it has heard all that the other side wrote.
    fn clear_both(
        &self,
        side: Side,
        seat: &mut WordSeat,
        desk: &mut Desk,
        at: u64,
        mask: u8,
    ) -> Result<(), PassLate>
        requires seat { seat.old.table_id ≡ self.now.table }
        requires no_slot { seat.old.me.1 ≡ [] }
        requires half { has side seat.old.me.0 ≡ 1 }
        requires other_half { has (other_side side) seat.old.me.0 ≡ 1 }
        requires place { seat.old.me.0.region ≡ self.now.region }
        requires ready { IsReady side self.now.region (half_in side seat.old.me.0) desk.old }
        requires mask { (1 ≤ mask) × (mask ≤ 15) }
        requires own_clock { (half_in side seat.old.me.0).at ≤ at }
        ensures table { seat.new.table_id ≡ seat.old.table_id }
        ensures no_slot { seat.new.me.1 ≡ [] }
        ensures ready { IsReady side self.now.region (half_in side seat.new.me.0) desk.new }
        ensures meets { Meets side seat.old.me.0 seat.new.me.0 (logged_by result (ClearAt at mask))
            (half_in side seat.old.me.0).at }
        ensures answer { ClearAnswers side at result (half_in side seat.new.me.0).other }
    {
        let answer = self.clear_by(side, seat, desk, at, mask);
        self.look(seat);
        answer
    }

    /// A write of a side, over a seat that stands for both: it has heard all that the other side wrote.
    fn write_both(
        &self,
        side: Side,
        seat: &mut WordSeat,
        desk: &mut Desk,
        at: u64,
        port: u8,
        v: u8,
        next: u64,
    ) -> Result<(), PassLate>
        requires seat { seat.old.table_id ≡ self.now.table }
        requires no_slot { seat.old.me.1 ≡ [] }
        requires half { has side seat.old.me.0 ≡ 1 }
        requires other_half { has (other_side side) seat.old.me.0 ≡ 1 }
        requires place { seat.old.me.0.region ≡ self.now.region }
        requires ready { IsReady side self.now.region (half_in side seat.old.me.0) desk.old }
        requires port { port < 4 }
        requires stamp { at < end_of_stamps }
        requires rises { at + least_of self.now.region ≤ next }
        requires near { next ≤ at + most_of self.now.region }
        requires own_clock { (half_in side seat.old.me.0).at ≤ at }
        ensures table { seat.new.table_id ≡ seat.old.table_id }
        ensures no_slot { seat.new.me.1 ≡ [] }
        ensures ready { IsReady side self.now.region (half_in side seat.new.me.0) desk.new }
        ensures meets { Meets side seat.old.me.0 seat.new.me.0 (logged_by result (WriteAt at port v))
            (clock_by result next (half_in side seat.old.me.0).at) }
        ensures answer { WriteAnswers (window_of self.now.region) at result (half_in side seat.new.me.0).other }
    {
        let answer = self.write_by(side, seat, desk, at, port, v, next);
        self.look(seat);
        answer
    }

    /// A clock of a side, over a seat that stands for both: it has heard all that the other side wrote.
    fn advance_both(&self, side: Side, seat: &mut WordSeat, desk: &mut Desk, at: u64) -> u64
        requires seat { seat.old.table_id ≡ self.now.table }
        requires no_slot { seat.old.me.1 ≡ [] }
        requires half { has side seat.old.me.0 ≡ 1 }
        requires other_half { has (other_side side) seat.old.me.0 ≡ 1 }
        requires place { seat.old.me.0.region ≡ self.now.region }
        requires ready { IsReady side self.now.region (half_in side seat.old.me.0) desk.old }
        requires near { at ≤ (half_in side seat.old.me.0).other + window_of self.now.region + most_of self.now.region }
        requires own_clock { (half_in side seat.old.me.0).at ≤ at }
        ensures table { seat.new.table_id ≡ seat.old.table_id }
        ensures no_slot { seat.new.me.1 ≡ [] }
        ensures ready { IsReady side self.now.region (half_in side seat.new.me.0) desk.new }
        ensures meets { Meets side seat.old.me.0 seat.new.me.0 [] at }
        ensures answer { result ≡ (half_in side seat.new.me.0).other }
    {
        let answer = self.advance_by(side, seat, desk, at);
        self.look(seat);
        answer
    }

    /// Returns the byte that a side finds at its incoming port at the stamp `at`. It is refused as `Behind` if the
    /// other side's clock is too early.
    pub fn read_whole(
        &self,
        whole: &mut Whole,
        side: Side,
        at: u64,
        port: u8,
    ) -> Result<u8, PassLate>
        requires of { IsWholeOf self.now whole.old }
        requires port { port < 4 }
        requires own_clock { (own_half side whole.old).at ≤ at }
        ensures answer { ReadsWhole side at port result whole.old }
        ensures whole { whole.new ≡ whole_after side [] (own_half side whole.old).at whole.old }
        ensures hears { HearBoth (both_of whole.old) (both_of whole.new) }
    {
        match side {
            Side::Console => {
                self.read_both(Side::Console, &mut whole.seat, &mut whole.console, at, port)
            }
            Side::Sound => {
                self.read_both(Side::Sound, &mut whole.seat, &mut whole.sound, at, port)
            }
        }
    }

    /// Zeroes the incoming ports of a side that the mask covers, at the stamp `at`. It is refused if a read is.
    pub fn clear_whole(
        &self,
        whole: &mut Whole,
        side: Side,
        at: u64,
        mask: u8,
    ) -> Result<(), PassLate>
        requires of { IsWholeOf self.now whole.old }
        requires mask { (1 ≤ mask) × (mask ≤ 15) }
        requires own_clock { (own_half side whole.old).at ≤ at }
        ensures answer { ClearsWhole side at result whole.old }
        ensures whole { whole.new
            ≡ whole_after side (logged_by result (ClearAt at mask)) (own_half side whole.old).at whole.old }
        ensures hears { HearBoth (both_of whole.old) (both_of whole.new) }
    {
        match side {
            Side::Console => {
                self.clear_both(Side::Console, &mut whole.seat, &mut whole.console, at, mask)
            }
            Side::Sound => {
                self.clear_both(Side::Sound, &mut whole.seat, &mut whole.sound, at, mask)
            }
        }
    }

    /// Logs that a side wrote a byte to its outgoing port at the stamp `at`, and publishes `next`. It is refused as
    /// `Ahead` if `at` lies past the window.
    pub fn write_whole(
        &self,
        whole: &mut Whole,
        side: Side,
        at: u64,
        port: u8,
        v: u8,
        next: u64,
    ) -> Result<(), PassLate>
        requires of { IsWholeOf self.now whole.old }
        requires port { port < 4 }
        requires stamp { at < end_of_stamps }
        requires rises { at + least_of self.now.region ≤ next }
        requires near { next ≤ at + most_of self.now.region }
        requires own_clock { (own_half side whole.old).at ≤ at }
        ensures answer { WritesWhole (window_of self.now.region) side at result whole.old }
        ensures whole { whole.new ≡ whole_after side (logged_by result (WriteAt at port v))
            (clock_by result next (own_half side whole.old).at) whole.old }
        ensures hears { HearBoth (both_of whole.old) (both_of whole.new) }
    {
        match side {
            Side::Console => {
                self.write_both(
                    Side::Console,
                    &mut whole.seat,
                    &mut whole.console,
                    at,
                    port,
                    v,
                    next,
                )
            }
            Side::Sound => {
                self.write_both(
                    Side::Sound,
                    &mut whole.seat,
                    &mut whole.sound,
                    at,
                    port,
                    v,
                    next,
                )
            }
        }
    }

    /// Publishes that each later step of a side is at `at` or later, and returns the other side's clock.
    pub fn advance_whole(&self, whole: &mut Whole, side: Side, at: u64) -> u64
        requires of { IsWholeOf self.now whole.old }
        requires near { at ≤ (own_half side whole.old).known + window_of self.now.region + most_of self.now.region }
        requires own_clock { (own_half side whole.old).at ≤ at }
        ensures answer { result ≡ (other_half side whole.old).at }
        ensures whole { whole.new ≡ whole_after side [] at whole.old }
        ensures hears { HearBoth (both_of whole.old) (both_of whole.new) }
    {
        match side {
            Side::Console => {
                self.advance_both(Side::Console, &mut whole.seat, &mut whole.console, at)
            }
            Side::Sound => { self.advance_both(Side::Sound, &mut whole.seat, &mut whole.sound, at) }
        }
    }
}
