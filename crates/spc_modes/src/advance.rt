ghost use Rattle.std.specs.Prelude.{◌≡◌};
ghost use Rattle.spc_alu.specs.Results.{internal, loaded, popped, word_loaded};
ghost use Rattle.spc_modes.specs.Addresses.{fetched, join, pulled, pushed};

use crate::address::{join_bytes, one_more, place_after, pushed_pointer};
use crate::micro::Micro;
use crate::place::Place;
use spc_alu::{load, load_word, pop, step_word, word_after_step, work_internally};

// The steps that have results are out of line, and each is the last thing that a transition does. So the transitions
// keep nothing over a call, and stay small.
impl Micro {
    ghost use Rattle.spc_modes.specs.Orders.{idles_for, step_word_high, x_grown};
    ghost use Rattle.spc_modes.specs.Plan.{after, ends, idles};
    ghost use Rattle.spc_modes.specs.Remaining.{remaining};

    /// Moves past the fetch of a byte of the program.
    #[inline(always)]
    pub(crate) fn pass_fetch(&mut self)
        ensures here { self.new ≡ record self.old { here = fetched self.old.here } }
    {
        self.here.pc = place_after(self.here.pc);
    }

    /// Moves past the push of a byte.
    #[inline(always)]
    pub(crate) fn pass_push(&mut self)
        ensures here { self.new ≡ record self.old { here = pushed self.old.here } }
    {
        self.here.sp = pushed_pointer(self.here.sp);
    }

    /// Moves past the pull of a byte.
    #[inline(always)]
    pub(crate) fn pass_pull(&mut self)
        ensures here { self.new ≡ record self.old { here = pulled self.old.here } }
    {
        self.here.sp = one_more(self.here.sp);
    }

    /// Moves past the read of the byte that an operation reads last.
    #[inline(never)]
    pub(crate) fn pass_load(&mut self, byte: u8)
        ensures left { remaining self.new ≡ ends (loaded self.old.row.op self.old.here byte) }
        ensures start { self.new.start ≡ self.old.start }
    {
        load(&mut self.here, self.row.op, byte);
        self.place = Place::Between;
    }

    /// `(X)+`: moves past the read of the byte, after which X grows by 1.
    #[inline(never)]
    pub(crate) fn pass_increment(&mut self, byte: u8)
        ensures left { remaining self.new ≡ idles (ends (x_grown (loaded self.old.row.op self.old.here byte))) }
        ensures start { self.new.start ≡ self.old.start }
    {
        load(&mut self.here, self.row.op, byte);
        self.here.x = one_more(self.here.x);
        self.byte = 0;
        self.place = Place::Cycles;
    }

    /// Moves past the read of a word's high byte.
    #[inline(never)]
    pub(crate) fn pass_word(&mut self, high: u8)
        ensures left { remaining self.new ≡ ends (word_loaded self.old.row.op self.old.here (join self.old.byte high)) }
        ensures start { self.new.start ≡ self.old.start }
    {
        load_word(&mut self.here, self.row.op, join_bytes(self.byte, high));
        self.place = Place::Between;
    }

    /// INCW and DECW: moves past the read of the high byte.
    #[inline(never)]
    pub(crate) fn pass_word_step(&mut self, high: u8)
        ensures left { remaining self.new ≡ after (step_word_high self.old.row self.old.here self.old.base self.old.byte) high }
        ensures start { self.new.start ≡ self.old.start }
    {
        let word = join_bytes(self.byte, high);
        step_word(&mut self.here, self.row.op, word);
        self.byte = (word_after_step(self.row.op, word) / 256) as u8;
        self.place = Place::WriteLast;
    }

    /// Moves past the pull of a register's byte.
    #[inline(never)]
    pub(crate) fn pass_pop(&mut self, byte: u8)
        ensures left { remaining self.new ≡ ends (popped self.old.row.op (pulled self.old.here) byte) }
        ensures start { self.new.start ≡ self.old.start }
    {
        self.pass_pull();
        pop(&mut self.here, self.row.op, byte);
        self.place = Place::Between;
    }

    /// Does what happens inside the processor, before its cycles.
    #[inline(always)]
    pub(crate) fn pass_inside(&mut self, cycles: u8)
        ensures left { remaining self.new ≡ idles_for cycles (ends (internal self.old.row.op self.old.row.mode self.old.here)) }
        ensures start { self.new.start ≡ self.old.start }
    {
        work_internally(&mut self.here, self.row.op, self.row.mode);
        self.end_after(cycles);
    }
}
