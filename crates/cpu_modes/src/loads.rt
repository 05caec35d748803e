// What each place in an instruction's order becomes once its access, a read, has got its byte.
ghost use Rattle.std.specs.Prelude.{◌≡◌, ◌+◌, ◌*◌, ◌%◌, false};
ghost use Rattle.cpu_modes.specs.declared.place.Place.TheVariants.{PointerLow, PointerHigh, PointerBank, PointerBankY, LoadByte, LoadLow, LoadHigh, ChangeReadLow, ChangeReadHigh, TargetLow, TargetHigh, TargetBank, BlockRead};

use crate::address::{join, low_byte, next_in_bank, pointer_next, second_address};
use crate::micro::Micro;
use crate::place::{Place, PointerKind, Reach, TargetKind};

impl Micro {
    ghost use Rattle.cpu_modes.specs.Plan.{after};
    ghost use Rattle.cpu_modes.specs.Remaining.{Keeps, remaining};

    /// Moves on after a pointer's low byte was read.
    #[inline]
    pub(crate) fn took_pointer_low(&mut self, kind: PointerKind, got: u8)
        requires { self.old.place ≡ PointerLow kind }
        ensures left { remaining self.new ≡ after (remaining self.old) got }
        ensures keeps { Keeps false self.new }
        ensures start { self.new.start ≡ self.old.start }
    {
        self.base = pointer_next(kind, &self.here, self.base);
        self.word = got as u16;
        self.to_read(Place::PointerHigh(kind));
    }

    /// Moves on after a pointer's high byte was read.
    #[inline]
    pub(crate) fn took_pointer_high(&mut self, kind: PointerKind, got: u8)
        requires { self.old.place ≡ PointerHigh kind }
        ensures left { remaining self.new ≡ after (remaining self.old) got }
        ensures keeps { Keeps false self.new }
        ensures start { self.new.start ≡ self.old.start }
    {
        self.pass_pointer(kind, self.base, join(self.word, got));
    }

    /// Moves on after the bank of a pointer `[d]` was read.
    #[inline]
    pub(crate) fn took_pointer_bank(&mut self, got: u8)
        requires { self.old.place ≡ PointerBank }
        ensures left { remaining self.new ≡ after (remaining self.old) got }
        ensures keeps { Keeps false self.new }
        ensures start { self.new.start ≡ self.old.start }
    {
        let at = 65536 * got as u32 + self.word as u32;
        self.reach_data(Reach::NextAddress, at);
    }

    /// Moves on after the bank of a pointer `[d],Y` was read.
    #[inline]
    pub(crate) fn took_pointer_bank_y(&mut self, got: u8)
        requires { self.old.place ≡ PointerBankY }
        ensures left { remaining self.new ≡ after (remaining self.old) got }
        ensures keeps { Keeps false self.new }
        ensures start { self.new.start ≡ self.old.start }
    {
        let at = 65536 * got as u32 + self.word as u32;
        let to = (at + self.here.y as u32) % 16777216;
        self.reach_data(Reach::NextAddress, to);
    }

    /// Moves on after data of 8 bits was read: the instruction has ended.
    #[inline(always)]
    pub(crate) fn took_load_byte(&mut self, got: u8) -> bool
        requires { self.old.place ≡ LoadByte }
        ensures left { remaining self.new ≡ after (remaining self.old) got }
        ensures keeps { Keeps result self.new }
        ensures start { self.new.start ≡ self.old.start }
    {
        self.word = got as u16;
        self.finish()
    }

    /// Moves on after the low byte of data of 16 bits was read.
    #[inline(always)]
    pub(crate) fn took_load_low(&mut self, reach: Reach, got: u8)
        requires { self.old.place ≡ LoadLow reach }
        ensures left { remaining self.new ≡ after (remaining self.old) got }
        ensures keeps { Keeps false self.new }
        ensures start { self.new.start ≡ self.old.start }
    {
        self.base = second_address(reach, self.base);
        self.word = got as u16;
        self.to_read(Place::LoadHigh);
    }

    /// Moves on after the high byte of data of 16 bits was read: the instruction has ended.
    #[inline(always)]
    pub(crate) fn took_load_high(&mut self, got: u8) -> bool
        requires { self.old.place ≡ LoadHigh }
        ensures left { remaining self.new ≡ after (remaining self.old) got }
        ensures keeps { Keeps result self.new }
        ensures start { self.new.start ≡ self.old.start }
    {
        self.word = join(self.word, got);
        self.finish()
    }

    /// Moves on after data that is to be changed was read, or its low byte.
    #[inline(always)]
    pub(crate) fn took_change_read_low(&mut self, reach: Reach, got: u8)
        requires { self.old.place ≡ ChangeReadLow reach }
        ensures left { remaining self.new ≡ after (remaining self.old) got }
        ensures keeps { Keeps false self.new }
        ensures start { self.new.start ≡ self.old.start }
    {
        self.word = got as u16;
        if self.traffic.wide {
            self.to_read_second(reach);
        } else {
            self.to_idle(Place::ChangeCycle(reach));
        }
    }

    /// Moves on after the high byte of data that is to be changed was read.
    #[inline(always)]
    pub(crate) fn took_change_read_high(&mut self, reach: Reach, got: u8)
        requires { self.old.place ≡ ChangeReadHigh reach }
        ensures left { remaining self.new ≡ after (remaining self.old) got }
        ensures keeps { Keeps false self.new }
        ensures start { self.new.start ≡ self.old.start }
    {
        self.word = join(self.word, got);
        self.to_idle(Place::ChangeCycle(reach));
    }

    /// Moves on after a target's low byte was read.
    #[inline]
    pub(crate) fn took_target_low(&mut self, kind: TargetKind, got: u8)
        requires { self.old.place ≡ TargetLow kind }
        ensures left { remaining self.new ≡ after (remaining self.old) got }
        ensures keeps { Keeps false self.new }
        ensures start { self.new.start ≡ self.old.start }
    {
        self.base = next_in_bank(self.base);
        self.word = got as u16;
        self.to_read(Place::TargetHigh(kind));
    }

    /// Moves on after a target's high byte was read. Returns whether the instruction has ended.
    #[inline]
    pub(crate) fn took_target_high(&mut self, kind: TargetKind, got: u8) -> bool
        requires { self.old.place ≡ TargetHigh kind }
        ensures left { remaining self.new ≡ after (remaining self.old) got }
        ensures keeps { Keeps result self.new }
        ensures start { self.new.start ≡ self.old.start }
    {
        self.pass_target(kind, self.base, join(self.word, got))
    }

    /// Moves on after a target's bank was read: the instruction has ended.
    #[inline]
    pub(crate) fn took_target_bank(&mut self, got: u8) -> bool
        requires { self.old.place ≡ TargetBank }
        ensures left { remaining self.new ≡ after (remaining self.old) got }
        ensures keeps { Keeps result self.new }
        ensures start { self.new.start ≡ self.old.start }
    {
        self.here.pbr = got;
        self.finish()
    }

    /// MVN and MVP: moves on after a byte was read.
    #[inline]
    pub(crate) fn took_block_read(&mut self, got: u8)
        requires { self.old.place ≡ BlockRead }
        ensures left { remaining self.new ≡ after (remaining self.old) got }
        ensures keeps { Keeps false self.new }
        ensures start { self.new.start ≡ self.old.start }
    {
        self.word = got as u16;
        let at = 65536 * self.here.dbr as u32 + self.here.y as u32;
        self.to_write(Place::BlockWrite, at, low_byte(got as u32));
    }
}
