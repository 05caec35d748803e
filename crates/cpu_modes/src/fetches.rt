// What each place in an instruction's order becomes once its access, a fetch, has got its byte.
ghost use Rattle.std.specs.Prelude.{◌≡◌, ◌==◌, ◌+◌, ◌*◌, ◌%◌, false, not};
ghost use Rattle.cpu_modes.specs.declared.place.Place.TheVariants.{OperandByte, StatusOperand, ImmediateLow, ImmediateHigh, DirectOffset, StackOffset, StackPointerOffset, OperandLow, OperandHigh, OperandBank, CallBank, CallPointerLow, CallPointerHigh, BranchOffset, BreakOperand, BlockDestination, BlockSource};

use crate::address::{high_byte, join};
use crate::micro::Micro;
use crate::place::{BankKind, DirectKind, OperandKind, Place, PointerKind, Reach};
use cpu_tables::row;

impl Micro {
    ghost use Rattle.cpu_modes.specs.Plan.{after};
    ghost use Rattle.cpu_modes.specs.Orders.{instruction};
    ghost use Rattle.cpu_modes.specs.Remaining.{Keeps, remaining};

    /// Moves on after an opcode was fetched: the next instruction begins.
    #[inline(always)]
    pub(crate) fn took_opcode(&mut self, got: u8)
        ensures left { remaining self.new ≡ after (instruction self.old.here) got }
        ensures keeps { Keeps false self.new }
        ensures start { self.new.start ≡ self.old.here }
    {
        self.start = self.here;
        self.pass_fetch();
        self.row = row(got);
        self.enter();
    }

    /// Moves on after the only operand byte was fetched: the instruction has ended.
    #[inline(always)]
    pub(crate) fn took_operand_byte(&mut self, got: u8) -> bool
        requires { self.old.place ≡ OperandByte }
        ensures left { remaining self.new ≡ after (remaining self.old) got }
        ensures keeps { Keeps result self.new }
        ensures start { self.new.start ≡ self.old.start }
    {
        self.pass_fetch();
        self.word = got as u16;
        self.finish()
    }

    /// Moves on after the mask of REP or SEP was fetched.
    #[inline]
    pub(crate) fn took_status_operand(&mut self, got: u8)
        requires { self.old.place ≡ StatusOperand }
        ensures left { remaining self.new ≡ after (remaining self.old) got }
        ensures keeps { Keeps false self.new }
        ensures start { self.new.start ≡ self.old.start }
    {
        self.pass_fetch();
        self.word = got as u16;
        self.to_idle(Place::LastCycle);
    }

    /// Moves on after the low byte of an immediate operand was fetched.
    #[inline(always)]
    pub(crate) fn took_immediate_low(&mut self, got: u8)
        requires { self.old.place ≡ ImmediateLow }
        ensures left { remaining self.new ≡ after (remaining self.old) got }
        ensures keeps { Keeps false self.new }
        ensures start { self.new.start ≡ self.old.start }
    {
        self.pass_fetch();
        self.word = got as u16;
        self.to_fetch(Place::ImmediateHigh);
    }

    /// Moves on after the high byte of an immediate operand was fetched: the instruction has ended.
    #[inline(always)]
    pub(crate) fn took_immediate_high(&mut self, got: u8) -> bool
        requires { self.old.place ≡ ImmediateHigh }
        ensures left { remaining self.new ≡ after (remaining self.old) got }
        ensures keeps { Keeps result self.new }
        ensures start { self.new.start ≡ self.old.start }
    {
        self.pass_fetch();
        self.word = join(self.word, got);
        self.finish()
    }

    /// Whether an offset from the direct register takes one more cycle: it does if the register's low byte isn't 0.
    #[inline(always)]
    fn has_low_cycle(&self) -> bool
        ensures { result ≡ not (self.now.here.d % 256 == 0) }
    {
        self.here.d % 256 != 0
    }

    /// Moves on after an offset from the direct register was fetched.
    #[inline]
    pub(crate) fn took_direct_offset(&mut self, kind: DirectKind, got: u8)
        requires { self.old.place ≡ DirectOffset kind }
        ensures left { remaining self.new ≡ after (remaining self.old) got }
        ensures keeps { Keeps false self.new }
        ensures start { self.new.start ≡ self.old.start }
    {
        self.pass_fetch();
        if self.has_low_cycle() {
            self.word = got as u16;
            self.to_idle(Place::LowCycle(kind));
        } else {
            self.pass_offset(kind, got as u16);
        }
    }

    /// Moves on after the offset of data in the direct page was fetched.
    #[inline(always)]
    pub(crate) fn took_direct_data_offset(&mut self, got: u8)
        requires { self.old.place ≡ DirectOffset DirectKind.Plain }
        ensures left { remaining self.new ≡ after (remaining self.old) got }
        ensures keeps { Keeps false self.new }
        ensures start { self.new.start ≡ self.old.start }
    {
        self.pass_fetch();
        if self.has_low_cycle() {
            self.word = got as u16;
            self.to_idle(Place::LowCycle(DirectKind::Plain));
        } else {
            self.reach_direct(got as u16);
        }
    }

    /// Moves on after an offset from the stack pointer was fetched, for data there.
    #[inline]
    pub(crate) fn took_stack_offset(&mut self, got: u8)
        requires { self.old.place ≡ StackOffset }
        ensures left { remaining self.new ≡ after (remaining self.old) got }
        ensures keeps { Keeps false self.new }
        ensures start { self.new.start ≡ self.old.start }
    {
        self.pass_fetch();
        self.base = (self.here.s as u32 + got as u32) % 65536;
        self.to_idle(Place::DataCycle(Reach::NextInBankZero));
    }

    /// Moves on after an offset from the stack pointer was fetched, for a pointer there.
    #[inline]
    pub(crate) fn took_stack_pointer_offset(&mut self, got: u8)
        requires { self.old.place ≡ StackPointerOffset }
        ensures left { remaining self.new ≡ after (remaining self.old) got }
        ensures keeps { Keeps false self.new }
        ensures start { self.new.start ≡ self.old.start }
    {
        self.pass_fetch();
        self.base = (self.here.s as u32 + got as u32) % 65536;
        self.to_idle(Place::PointerCycle(PointerKind::StackY));
    }

    /// Moves on after the low byte of an operand was fetched.
    #[inline(always)]
    pub(crate) fn took_operand_low(&mut self, kind: OperandKind, got: u8)
        requires { self.old.place ≡ OperandLow kind }
        ensures left { remaining self.new ≡ after (remaining self.old) got }
        ensures keeps { Keeps false self.new }
        ensures start { self.new.start ≡ self.old.start }
    {
        self.pass_fetch();
        self.word = got as u16;
        self.to_fetch(Place::OperandHigh(kind));
    }

    /// Moves on after the high byte of an operand was fetched. Returns whether the instruction has ended.
    #[inline]
    pub(crate) fn took_operand_high(&mut self, kind: OperandKind, got: u8) -> bool
        requires { self.old.place ≡ OperandHigh kind }
        ensures left { remaining self.new ≡ after (remaining self.old) got }
        ensures keeps { Keeps result self.new }
        ensures start { self.new.start ≡ self.old.start }
    {
        self.pass_fetch();
        self.pass_operand(kind, join(self.word, got))
    }

    /// Moves on after the high byte of an address of data was fetched.
    #[inline(always)]
    pub(crate) fn took_address_high(&mut self, got: u8)
        requires { self.old.place ≡ OperandHigh OperandKind.Plain }
        ensures left { remaining self.new ≡ after (remaining self.old) got }
        ensures keeps { Keeps false self.new }
        ensures start { self.new.start ≡ self.old.start }
    {
        self.pass_fetch();
        self.reach_absolute(join(self.word, got));
    }

    /// Moves on after the high byte of an address that X is added to was fetched.
    #[inline(always)]
    pub(crate) fn took_x_address_high(&mut self, got: u8)
        requires { self.old.place ≡ OperandHigh OperandKind.X }
        ensures left { remaining self.new ≡ after (remaining self.old) got }
        ensures keeps { Keeps false self.new }
        ensures start { self.new.start ≡ self.old.start }
    {
        self.pass_fetch();
        self.reach_absolute_indexed(join(self.word, got), self.here.x);
    }

    /// Moves on after the high byte of an address that Y is added to was fetched.
    #[inline(always)]
    pub(crate) fn took_y_address_high(&mut self, got: u8)
        requires { self.old.place ≡ OperandHigh OperandKind.Y }
        ensures left { remaining self.new ≡ after (remaining self.old) got }
        ensures keeps { Keeps false self.new }
        ensures start { self.new.start ≡ self.old.start }
    {
        self.pass_fetch();
        self.reach_absolute_indexed(join(self.word, got), self.here.y);
    }

    /// Moves on after the bank of an operand was fetched. Returns whether the instruction has ended.
    #[inline]
    pub(crate) fn took_operand_bank(&mut self, kind: BankKind, got: u8) -> bool
        requires { self.old.place ≡ OperandBank kind }
        ensures left { remaining self.new ≡ after (remaining self.old) got }
        ensures keeps { Keeps result self.new }
        ensures start { self.new.start ≡ self.old.start }
    {
        self.pass_fetch();
        self.pass_bank(kind, got)
    }

    /// JSL: moves on after the bank was fetched.
    #[inline]
    pub(crate) fn took_call_bank(&mut self, got: u8)
        requires { self.old.place ≡ CallBank }
        ensures left { remaining self.new ≡ after (remaining self.old) got }
        ensures keeps { Keeps false self.new }
        ensures start { self.new.start ≡ self.old.start }
    {
        self.pass_fetch();
        self.base = self.here.pc.wrapping_sub(1) as u32;
        self.here.pbr = got;
        self.to_push_word();
    }

    /// JSR `(a,X)`: moves on after the low byte was fetched.
    #[inline]
    pub(crate) fn took_call_pointer_low(&mut self, got: u8)
        requires { self.old.place ≡ CallPointerLow }
        ensures left { remaining self.new ≡ after (remaining self.old) got }
        ensures keeps { Keeps false self.new }
        ensures start { self.new.start ≡ self.old.start }
    {
        self.pass_fetch();
        self.word = got as u16;
        self.to_push(Place::CallPointerPushHigh, high_byte(self.here.pc as u32));
    }

    /// JSR `(a,X)`: moves on after the high byte was fetched.
    #[inline]
    pub(crate) fn took_call_pointer_high(&mut self, got: u8)
        requires { self.old.place ≡ CallPointerHigh }
        ensures left { remaining self.new ≡ after (remaining self.old) got }
        ensures keeps { Keeps false self.new }
        ensures start { self.new.start ≡ self.old.start }
    {
        self.pass_fetch();
        let word = join(self.word, got);
        self.base = 65536 * self.here.pbr as u32 + (word as u32 + self.here.x as u32) % 65536;
        self.to_idle(Place::TargetCycle);
    }

    /// Moves on after a branch's distance was fetched. Returns whether the instruction has ended.
    #[inline(always)]
    pub(crate) fn took_branch_offset(&mut self, got: u8) -> bool
        requires { self.old.place ≡ BranchOffset }
        ensures left { remaining self.new ≡ after (remaining self.old) got }
        ensures keeps { Keeps result self.new }
        ensures start { self.new.start ≡ self.old.start }
    {
        self.pass_fetch();
        self.branch(got)
    }

    /// BRK and COP: moves on after the byte after the opcode was fetched.
    #[inline]
    pub(crate) fn took_break_operand(&mut self, got: u8)
        requires { self.old.place ≡ BreakOperand }
        ensures left { remaining self.new ≡ after (remaining self.old) got }
        ensures keeps { Keeps false self.new }
        ensures start { self.new.start ≡ self.old.start }
    {
        self.pass_fetch();
        self.interrupt();
    }

    /// MVN and MVP: moves on after the destination's bank was fetched.
    #[inline]
    pub(crate) fn took_block_destination(&mut self, got: u8)
        requires { self.old.place ≡ BlockDestination }
        ensures left { remaining self.new ≡ after (remaining self.old) got }
        ensures keeps { Keeps false self.new }
        ensures start { self.new.start ≡ self.old.start }
    {
        self.pass_fetch();
        self.here.dbr = got;
        self.to_fetch(Place::BlockSource);
    }

    /// MVN and MVP: moves on after the source's bank was fetched.
    #[inline]
    pub(crate) fn took_block_source(&mut self, got: u8)
        requires { self.old.place ≡ BlockSource }
        ensures left { remaining self.new ≡ after (remaining self.old) got }
        ensures keeps { Keeps false self.new }
        ensures start { self.new.start ≡ self.old.start }
    {
        self.pass_fetch();
        self.base = 65536 * got as u32 + self.here.x as u32;
        self.to_read(Place::BlockRead);
    }
}
