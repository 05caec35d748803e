// The four calls over a whole: the log calls on its two lists. No other seat stands for a side, so the log
// is never held.
ghost use Rattle.std.specs.Prelude.{◌≡◌, ◌+◌, ◌<◌, ◌≤◌, []};
ghost use Rattle.clock_ratio.specs.Stamp.{least_of, window_of};
ghost use Rattle.port_entries.specs.Entry.{WriteAt, ClearAt};
ghost use Rattle.port_wire.specs.Whole.{HearBoth};
ghost use Rattle.port_log.specs.PassCalls.{logged_by, clock_by};
ghost use Rattle.port_log.specs.Wholes.{IsWholeOf, both_of};
ghost use Rattle.port_log.specs.WholeCalls.{own_half, other_half, whole_after, ReadsWhole};
ghost use Rattle.port_log.specs.WholeCalls.{ClearsWhole, WritesWhole, console_clocks, sound_clocks};

use crate::late::Late;
use crate::lateness::as_of_log;
use crate::ports::Ports;
use crate::seats::Clocks;
use crate::whole::Whole;
use snes_defs::Side;

/// Makes each side know the other's clock, after a call of a side over a whole. The clocks that the call left become
/// the console's, and the sound side's are returned.
#[inline(always)]
fn meet(side: Side, clocks: &mut Clocks) -> Clocks
    ensures console { clocks.new ≡ console_clocks side clocks.old }
    ensures sound { result ≡ sound_clocks side clocks.old }
{
    let told = *clocks;
    let across = Clocks {
        own: told.known,
        known: told.own,
    };
    match side {
        Side::Console => across,
        Side::Sound => {
            *clocks = across;
            told
        }
    }
}

impl Ports {
    /// Returns the byte that a side finds at its incoming port at the stamp `at`. It is refused as `Behind` if the
    /// other side's clock is too early.
    pub fn read_whole(&self, whole: &mut Whole, side: Side, at: u64, port: u8) -> Result<u8, Late>
        requires of { IsWholeOf self.now whole.old }
        requires port { port < 4 }
        requires own_clock { (own_half side whole.old).at ≤ at }
        ensures answer { ReadsWhole side at port result whole.old }
        ensures whole { whole.new ≡ whole_after side [] (own_half side whole.old).at whole.old }
        ensures hears { HearBoth (both_of whole.old) (both_of whole.new) }
    {
        let answer = self.read_by(side, &mut whole.seats, at, port);
        whole.sound = meet(side, &mut whole.seats.clocks);
        as_of_log(answer)
    }

    /// Zeroes the incoming ports of a side that the mask covers, at the stamp `at`. It is refused if a read is.
    pub fn clear_whole(&self, whole: &mut Whole, side: Side, at: u64, mask: u8) -> Result<(), Late>
        requires of { IsWholeOf self.now whole.old }
        requires mask { (1 ≤ mask) × (mask ≤ 15) }
        requires own_clock { (own_half side whole.old).at ≤ at }
        ensures answer { ClearsWhole side at result whole.old }
        ensures whole { whole.new ≡ whole_after side (logged_by result (ClearAt at mask))
            (own_half side whole.old).at whole.old }
        ensures hears { HearBoth (both_of whole.old) (both_of whole.new) }
    {
        let answer = self.clear_by(side, &mut whole.seats, at, mask);
        whole.sound = meet(side, &mut whole.seats.clocks);
        as_of_log(answer)
    }

    /// Logs that a side wrote a byte to its outgoing port at the stamp `at`, and publishes `next`. It is refused as
    /// `Ahead` if `at` lies past the window.
    pub fn write_whole(
        &self,
        whole: &mut Whole,
        side: Side,
        at: u64,
        port: u8,
        v: u8,
        next: u64,
    ) -> Result<(), Late>
        requires of { IsWholeOf self.now whole.old }
        requires port { port < 4 }
        requires own_clock { (own_half side whole.old).at ≤ at }
        requires rises { at + least_of self.now.region ≤ next }
        ensures answer { WritesWhole (window_of self.now.region) side at result whole.old }
        ensures whole { whole.new ≡ whole_after side (logged_by result (WriteAt at port v))
            (clock_by result next (own_half side whole.old).at) whole.old }
        ensures hears { HearBoth (both_of whole.old) (both_of whole.new) }
    {
        let answer = self.write_by(side, &mut whole.seats, at, port, v, next);
        whole.sound = meet(side, &mut whole.seats.clocks);
        as_of_log(answer)
    }

    /// Publishes that each later step of a side is at `at` or later, and returns the other side's clock.
    pub fn advance_whole(&self, whole: &mut Whole, side: Side, at: u64) -> u64
        requires of { IsWholeOf self.now whole.old }
        requires own_clock { (own_half side whole.old).at ≤ at }
        ensures answer { result ≡ (other_half side whole.old).at }
        ensures whole { whole.new ≡ whole_after side [] at whole.old }
        ensures hears { HearBoth (both_of whole.old) (both_of whole.new) }
    {
        let answer = self.advance_by(side, &mut whole.seats, at);
        whole.sound = meet(side, &mut whole.seats.clocks);
        match answer {
            Ok(other) => other,
            Err(_) => unreachable!(),
        }
    }
}
