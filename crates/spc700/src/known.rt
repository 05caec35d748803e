// Calls for a caller that knows the place of the next access in the instruction's order. They return the address of
// that access, and move the processor past it. Inlined into that caller, each is that place's transition alone.
ghost use Rattle.std.specs.Prelude.{◌≡◌};
ghost use Rattle.spc_modes.specs.declared.place.Place.TheVariants.{Between, FirstByte, OperandHigh, DataCycle, Load, ChangeRead, WriteCycle, WriteLast, Cycles, BranchDistance, ReturnLow, ReturnHigh, PullFirstCycle, PullCycle, CallCycle, PushHigh, PushLow};

use crate::processor::Spc;
use spc_modes::Place;
use spc_modes::address::{pull_place, stack_place};

impl Spc {
    ghost use Rattle.spc_modes.specs.Addresses.{pulled, stack};
    ghost use Rattle.spc700.specs.Stands.{Advances};

    /// The place of the next access in the instruction's order.
    #[inline(always)]
    pub fn place(&self) -> Place
        ensures { result ≡ self.now.micro.place }
    {
        self.micro.place
    }

    /// The address from which the program's next byte is fetched.
    #[inline(always)]
    pub fn counter(&self) -> u16
        ensures { result ≡ self.now.micro.here.pc }
    {
        self.micro.here.pc
    }

    /// The address of the data.
    #[inline(always)]
    pub fn base(&self) -> u16
        ensures { result ≡ self.now.micro.base }
    {
        self.micro.base
    }

    /// The byte that is written last.
    #[inline(always)]
    pub fn last_byte(&self) -> u8
        ensures { result ≡ self.now.micro.byte }
    {
        self.micro.byte
    }

    /// Moves past the opcode fetch, which got `byte`.
    #[inline(always)]
    pub fn took_opcode(&mut self, byte: u8)
        requires known { self.old.micro.place ≡ Between }
        ensures { Advances self.old self.new byte }
    {
        self.micro.took_opcode(byte);
    }

    /// Moves past the fetch of the first byte after an opcode, which got `byte`.
    #[inline(always)]
    pub fn took_first_byte(&mut self, byte: u8)
        requires known { self.old.micro.place ≡ FirstByte }
        ensures { Advances self.old self.new byte }
    {
        self.micro.took_first_byte(byte);
    }

    /// Moves past the fetch of an operand's high byte, which got `byte`.
    #[inline(always)]
    pub fn took_operand_high(&mut self, byte: u8)
        requires known { self.old.micro.place ≡ OperandHigh }
        ensures { Advances self.old self.new byte }
    {
        self.micro.took_operand_high(byte);
    }

    /// Moves past the fetch of a branch's distance, which got `byte`.
    #[inline(always)]
    pub fn took_distance(&mut self, is_taken: bool, byte: u8)
        requires known { self.old.micro.place ≡ BranchDistance is_taken }
        ensures { Advances self.old self.new byte }
    {
        self.micro.took_distance(is_taken, byte);
    }

    /// Moves past the read of a byte of data, which got `byte`.
    #[inline(always)]
    pub fn took_data(&mut self, byte: u8)
        requires known { self.old.micro.place ≡ Load }
        ensures { Advances self.old self.new byte }
    {
        self.micro.took_data(byte);
    }

    /// Moves past the read of a byte that is to be changed, which got `byte`.
    #[inline(always)]
    pub fn took_data_to_change(&mut self, byte: u8)
        requires known { self.old.micro.place ≡ ChangeRead }
        ensures { Advances self.old self.new byte }
    {
        self.micro.took_data_to_change(byte);
    }

    /// Moves past the cycle before the data at an address.
    #[inline(always)]
    pub fn passed_data_cycle(&mut self)
        requires known { self.old.micro.place ≡ DataCycle }
        ensures { Advances self.old self.new 0 }
    {
        self.micro.passed_data_cycle();
    }

    /// Moves past the cycle before the last write.
    #[inline(always)]
    pub fn passed_write_cycle(&mut self)
        requires known { self.old.micro.place ≡ WriteCycle }
        ensures { Advances self.old self.new 0 }
    {
        self.micro.passed_write_cycle();
    }

    /// Moves past one of the last cycles.
    #[inline(always)]
    pub fn passed_cycle(&mut self)
        requires known { self.old.micro.place ≡ Cycles }
        ensures { Advances self.old self.new 0 }
    {
        self.micro.passed_cycle();
    }

    /// Moves past the last write.
    #[inline(always)]
    pub fn wrote_last(&mut self)
        requires known { self.old.micro.place ≡ WriteLast }
        ensures { Advances self.old self.new 0 }
    {
        self.micro.wrote_last();
    }

    /// The address that a push writes.
    #[inline(always)]
    pub fn push_place(&self) -> u16
        ensures { result ≡ stack self.now.micro.here }
    {
        stack_place(&self.micro.here)
    }

    /// The address that a pull reads.
    #[inline(always)]
    pub fn pull_place(&self) -> u16
        ensures { result ≡ stack (pulled self.now.micro.here) }
    {
        pull_place(&self.micro.here)
    }

    /// Moves past the pull of the return address's low byte, which got `byte`.
    #[inline(always)]
    pub fn took_return_low(&mut self, byte: u8)
        requires known { self.old.micro.place ≡ ReturnLow }
        ensures { Advances self.old self.new byte }
    {
        self.micro.took_return_low(byte);
    }

    /// Moves past the pull of the return address's high byte, which got `byte`.
    #[inline(always)]
    pub fn took_return_high(&mut self, byte: u8)
        requires known { self.old.micro.place ≡ ReturnHigh }
        ensures { Advances self.old self.new byte }
    {
        self.micro.took_return_high(byte);
    }

    /// Moves past the first cycle before a pull.
    #[inline(always)]
    pub fn passed_pull_first_cycle(&mut self)
        requires known { self.old.micro.place ≡ PullFirstCycle }
        ensures { Advances self.old self.new 0 }
    {
        self.micro.passed_pull_first_cycle();
    }

    /// Moves past the second cycle before a pull.
    #[inline(always)]
    pub fn passed_pull_cycle(&mut self)
        requires known { self.old.micro.place ≡ PullCycle }
        ensures { Advances self.old self.new 0 }
    {
        self.micro.passed_pull_cycle();
    }

    /// Moves past the cycle before the program counter is pushed.
    #[inline(always)]
    pub fn passed_call_cycle(&mut self)
        requires known { self.old.micro.place ≡ CallCycle }
        ensures { Advances self.old self.new 0 }
    {
        self.micro.passed_call_cycle();
    }

    /// Moves past the push of the program counter's high byte.
    #[inline(always)]
    pub fn wrote_counter_high(&mut self)
        requires known { self.old.micro.place ≡ PushHigh }
        ensures { Advances self.old self.new 0 }
    {
        self.micro.wrote_counter_high();
    }

    /// Moves past the push of the program counter's low byte.
    #[inline(always)]
    pub fn wrote_counter_low(&mut self)
        requires known { self.old.micro.place ≡ PushLow }
        ensures { Advances self.old self.new 0 }
    {
        self.micro.wrote_counter_low();
    }
}
