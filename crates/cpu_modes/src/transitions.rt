// The steps of a micro-state that all transitions are made of: registers moved, the next access set.
ghost use Rattle.std.specs.Prelude.{◌≡◌, ◌+◌, ◌/◌, ◌%◌, ◌<◌, IsTrue, true, false};
ghost use Rattle.cpu_tables.specs.declared.access.Access.TheVariants.{Fetch, Inner, Read, Write};
ghost use Rattle.cpu_modes.specs.Addresses.{code, fetched, pulled, pushed, second, stack};
ghost use Rattle.cpu_modes.specs.declared.place.Place.TheVariants.{ChangeReadHigh};
ghost use Rattle.cpu_modes.specs.Plan.{address_of};

use crate::address::{
    code_address, high_byte, low_byte, pull_address, pulled_stack, pushed_stack, second_address,
    stack_address,
};
use crate::micro::Micro;
use crate::place::{Place, Reach};
use cpu_alu::{finish, operand_written};
use cpu_tables::Access;

// What happens to a micro-state at an access, and what its next access is. The base, the word and the
// registers are set before the next access is.
impl Micro {
    ghost use Rattle.cpu_modes.specs.Orders.{done, immediate, load, pull_data, push_low, push_word, store, write_back, written_of};
    ghost use Rattle.cpu_modes.specs.Remaining.{Keeps, remaining};

    /// Advances the program counter past a fetched byte.
    #[inline(always)]
    pub(crate) fn pass_fetch(&mut self)
        ensures here { self.new ≡ record self.old { here = fetched self.old.here } }
    {
        self.here.pc = self.here.pc.wrapping_add(1);
    }

    /// Moves the stack pointer past a pushed byte.
    #[inline(always)]
    pub(crate) fn pass_push(&mut self)
        ensures here { self.new ≡ record self.old { here = pushed self.old.here } }
    {
        self.here.s = pushed_stack(&self.here);
    }

    /// Moves the stack pointer to a pulled byte.
    #[inline(always)]
    pub(crate) fn pass_pull(&mut self)
        ensures here { self.new ≡ record self.old { here = pulled self.old.here } }
    {
        self.here.s = pulled_stack(&self.here);
    }

    /// Sets the next access: the next byte of the program is fetched.
    #[inline(always)]
    pub(crate) fn to_fetch(&mut self, place: Place)
        ensures set { self.new ≡ record self.old { place = place; access = Fetch (code self.old.here) } }
        ensures within { address_of self.new.access < 16777216 }
    {
        self.place = place;
        self.access = Access::Fetch(code_address(&self.here));
    }

    /// Sets the next access: the byte at the base is read.
    #[inline(always)]
    pub(crate) fn to_read(&mut self, place: Place)
        ensures set { self.new ≡ record self.old { place = place; access = Read self.old.base } }
        ensures within { address_of self.new.access < 16777216 }
    {
        self.place = place;
        self.access = Access::Read(self.base);
    }

    /// Sets the next access: the high byte of data that is changed is read.
    #[inline(always)]
    pub(crate) fn to_read_second(&mut self, reach: Reach)
        ensures set { self.new ≡ record self.old { place = ChangeReadHigh reach; access = Read (second reach self.old.base) } }
        ensures within { address_of self.new.access < 16777216 }
    {
        self.place = Place::ChangeReadHigh(reach);
        self.access = Access::Read(second_address(reach, self.base));
    }

    /// Sets the next access: a byte is pulled.
    #[inline(always)]
    pub(crate) fn to_pull(&mut self, place: Place)
        ensures set { self.new ≡ record self.old { place = place; access = Read (stack (pulled self.old.here)) } }
        ensures within { address_of self.new.access < 16777216 }
    {
        self.place = place;
        self.access = Access::Read(pull_address(&self.here));
    }

    /// Sets the next access: a byte is pushed.
    #[inline(always)]
    pub(crate) fn to_push(&mut self, place: Place, byte: u8)
        ensures set { self.new ≡ record self.old { place = place; access = Write (stack self.old.here) byte } }
        ensures within { address_of self.new.access < 16777216 }
    {
        self.place = place;
        self.access = Access::Write(stack_address(&self.here), byte);
    }

    /// Sets the next access: a byte is written, at an address.
    #[inline(always)]
    pub(crate) fn to_write(&mut self, place: Place, at: u32, byte: u8)
        requires { at < 16777216 }
        ensures set { self.new ≡ record self.old { place = place; access = Write at byte } }
        ensures within { address_of self.new.access < 16777216 }
    {
        self.place = place;
        self.access = Access::Write(at, byte);
    }

    /// Sets the next access: an internal cycle.
    #[inline(always)]
    pub(crate) fn to_idle(&mut self, place: Place)
        ensures set { self.new ≡ record self.old { place = place; access = Inner } }
        ensures within { address_of self.new.access < 16777216 }
    {
        self.place = place;
        self.access = Access::Inner;
    }

    /// Ends the instruction after its last access, with its results, and returns true.
    #[inline(always)]
    pub(crate) fn finish(&mut self) -> bool
        ensures last { result ≡ true }
        ensures left { remaining self.new ≡ done self.old.row self.old.here self.old.word }
        ensures keeps { Keeps result self.new }
        ensures start { self.new.start ≡ self.old.start }
    {
        finish(&mut self.here, self.row, self.word);
        self.place = Place::Ended;
        true
    }

    /// Sets the next access: an immediate operand is fetched.
    #[inline(always)]
    #[tactic(auto, using(crate::proofs::Widths::narrow_immediate, crate::proofs::Widths::wide_immediate))]
    pub(crate) fn to_immediate(&mut self)
        ensures left { remaining self.new ≡ immediate self.old.traffic self.old.row self.old.here }
        ensures keeps { Keeps false self.new }
        ensures start { self.new.start ≡ self.old.start }
    {
        if self.traffic.wide {
            self.to_fetch(Place::ImmediateLow);
        } else {
            self.to_fetch(Place::OperandByte);
        }
    }

    /// Sets the next access: the data at the base is read.
    #[inline(always)]
    #[tactic(auto, using(crate::proofs::Widths::narrow_load, crate::proofs::Widths::wide_load))]
    pub(crate) fn to_load(&mut self, reach: Reach)
        ensures left { remaining self.new ≡ load self.old.traffic reach self.old.row self.old.here self.old.base }
        ensures keeps { Keeps false self.new }
        ensures start { self.new.start ≡ self.old.start }
    {
        if self.traffic.wide {
            self.to_read(Place::LoadLow(reach));
        } else {
            self.to_read(Place::LoadByte);
        }
    }

    /// Sets the next access: the data of a pull is read.
    #[inline(always)]
    #[tactic(auto, using(crate::proofs::Widths::narrow_pull, crate::proofs::Widths::wide_pull))]
    pub(crate) fn to_pulled(&mut self)
        ensures left { remaining self.new ≡ pull_data self.old.traffic self.old.row self.old.here }
        ensures keeps { Keeps false self.new }
        ensures start { self.new.start ≡ self.old.start }
    {
        if self.traffic.wide {
            self.to_pull(Place::PullLow);
        } else {
            self.to_pull(Place::PullByte);
        }
    }

    /// Sets the next access: what a store writes is written at the base. Out of line, as it is found by a large match.
    #[inline(never)]
    pub(crate) fn to_store(&mut self, reach: Reach)
        ensures left { remaining self.new ≡ store self.old.traffic reach self.old.here self.old.base (written_of self.old.row self.old.here 0) }
        ensures keeps { Keeps false self.new }
        ensures start { self.new.start ≡ self.old.start }
    {
        self.word = 0;
        let written = operand_written(self.row, self.here, 0);
        self.to_write(Place::StoreLow(reach), self.base, low_byte(written as u32));
    }

    /// Sets the next access: changed data is written back, its high byte first.
    #[inline(never)]
    pub(crate) fn to_change(&mut self, reach: Reach)
        ensures left { remaining self.new ≡ write_back self.old.traffic reach self.old.row self.old.here self.old.base self.old.word }
        ensures keeps { Keeps false self.new }
        ensures start { self.new.start ≡ self.old.start }
    {
        let written = operand_written(self.row, self.here, self.word) as u32;
        if self.traffic.wide {
            let at = second_address(reach, self.base);
            self.to_write(Place::ChangeWriteHigh(reach), at, high_byte(written));
        } else {
            self.to_write(Place::ChangeWriteLow, self.base, low_byte(written));
        }
    }

    /// Sets the next access: the base, a word, is pushed.
    #[inline(always)]
    pub(crate) fn to_push_word(&mut self)
        ensures left { remaining self.new ≡ push_word self.old.row self.old.here self.old.base self.old.word }
        ensures keeps { Keeps false self.new }
        ensures start { self.new.start ≡ self.old.start }
    {
        self.to_push(Place::PushHigh, high_byte(self.base));
    }

    /// Sets the next access: the low byte of the base is pushed.
    #[inline(always)]
    pub(crate) fn to_push_low(&mut self)
        ensures left { remaining self.new ≡ push_low self.old.row self.old.here self.old.base self.old.word }
        ensures keeps { Keeps false self.new }
        ensures start { self.new.start ≡ self.old.start }
    {
        self.to_push(Place::PushLow, low_byte(self.base));
    }
}
