// What each place in an instruction's order becomes once its access, a pull, has got its byte.
ghost use Rattle.std.specs.Prelude.{◌≡◌, ◌+◌, ◌*◌, ◌%◌, false};
ghost use Rattle.cpu_modes.specs.declared.place.Place.TheVariants.{PullByte, PullLow, PullHigh, ReturnStatus, ReturnLow, ReturnHigh, ReturnBank};

use crate::address::join;
use crate::micro::Micro;
use crate::place::{Place, ReturnKind};

impl Micro {
    ghost use Rattle.cpu_modes.specs.Plan.{after};
    ghost use Rattle.cpu_modes.specs.Remaining.{Keeps, remaining};

    /// Moves on after the only byte was pulled: the instruction has ended.
    #[inline(always)]
    pub(crate) fn took_pull_byte(&mut self, got: u8) -> bool
        requires { self.old.place ≡ PullByte }
        ensures left { remaining self.new ≡ after (remaining self.old) got }
        ensures keeps { Keeps result self.new }
        ensures start { self.new.start ≡ self.old.start }
    {
        self.pass_pull();
        self.word = got as u16;
        self.finish()
    }

    /// Moves on after the low byte was pulled.
    #[inline(always)]
    pub(crate) fn took_pull_low(&mut self, got: u8)
        requires { self.old.place ≡ PullLow }
        ensures left { remaining self.new ≡ after (remaining self.old) got }
        ensures keeps { Keeps false self.new }
        ensures start { self.new.start ≡ self.old.start }
    {
        self.pass_pull();
        self.word = got as u16;
        self.to_pull(Place::PullHigh);
    }

    /// Moves on after the high byte was pulled: the instruction has ended.
    #[inline(always)]
    pub(crate) fn took_pull_high(&mut self, got: u8) -> bool
        requires { self.old.place ≡ PullHigh }
        ensures left { remaining self.new ≡ after (remaining self.old) got }
        ensures keeps { Keeps result self.new }
        ensures start { self.new.start ≡ self.old.start }
    {
        self.pass_pull();
        self.word = join(self.word, got);
        self.finish()
    }

    /// RTI: moves on after the status byte was pulled.
    #[inline]
    pub(crate) fn took_return_status(&mut self, got: u8)
        requires { self.old.place ≡ ReturnStatus }
        ensures left { remaining self.new ≡ after (remaining self.old) got }
        ensures keeps { Keeps false self.new }
        ensures start { self.new.start ≡ self.old.start }
    {
        self.pass_pull();
        self.here.p = got;
        self.to_pull(Place::ReturnLow(ReturnKind::Interrupt));
    }

    /// Moves on after the program counter's low byte was pulled.
    #[inline(always)]
    pub(crate) fn took_return_low(&mut self, kind: ReturnKind, got: u8)
        requires { self.old.place ≡ ReturnLow kind }
        ensures left { remaining self.new ≡ after (remaining self.old) got }
        ensures keeps { Keeps false self.new }
        ensures start { self.new.start ≡ self.old.start }
    {
        self.pass_pull();
        self.word = got as u16;
        self.to_pull(Place::ReturnHigh(kind));
    }

    /// Moves on after the program counter's high byte was pulled. Returns whether the instruction has ended.
    #[inline(always)]
    pub(crate) fn took_return_high(&mut self, kind: ReturnKind, got: u8) -> bool
        requires { self.old.place ≡ ReturnHigh kind }
        ensures left { remaining self.new ≡ after (remaining self.old) got }
        ensures keeps { Keeps result self.new }
        ensures start { self.new.start ≡ self.old.start }
    {
        self.pass_pull();
        self.pass_return(kind, join(self.word, got))
    }

    /// Moves on after the program bank was pulled: the instruction has ended.
    #[inline]
    pub(crate) fn took_return_bank(&mut self, got: u8) -> bool
        requires { self.old.place ≡ ReturnBank }
        ensures left { remaining self.new ≡ after (remaining self.old) got }
        ensures keeps { Keeps result self.new }
        ensures start { self.new.start ≡ self.old.start }
    {
        self.pass_pull();
        self.here.pbr = got;
        self.finish()
    }
}
