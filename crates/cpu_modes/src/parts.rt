// The parts that the orders of several instructions share: data, pointers, operands, targets, branches.
ghost use Rattle.std.specs.Prelude.{◌≡◌, ◌+◌, ◌*◌, ◌/◌, ◌%◌, ◌<◌, ◌^◌, false};
ghost use Rattle.cpu_modes.specs.Addresses.{direct, fetched, in_bank, pulled, pushed};
ghost use Rattle.cpu_modes.specs.declared.place.Reach.TheVariants.{NextAddress, NextInBankZero};

use crate::address::{direct_address, direct_always, has_index_cycle, high_byte, next_in_bank};
use crate::micro::Micro;
use crate::place::{
    BankKind, DirectKind, Direction, OperandKind, Place, PointerKind, Reach, ReturnKind, TargetKind,
};
use cpu_alu::{is_taken, operand_written, relative};

impl Micro {
    ghost use Rattle.cpu_modes.specs.Orders.{after_bank, after_offset, after_operand, after_pointer, after_return, after_target, branch_cycles, data_at, data_indexed, interrupted, push_data, return_pulls, written_of};
    ghost use Rattle.cpu_modes.specs.Remaining.{Keeps, remaining};

    /// Moves on to the data, at an address.
    #[inline(always)]
    pub fn reach_data(&mut self, reach: Reach, at: u32)
        requires { at < 2 ^ 24 }
        ensures left { remaining self.new ≡ data_at self.old.traffic reach self.old.row self.old.here at }
        ensures keeps { Keeps false self.new }
        ensures start { self.new.start ≡ self.old.start }
    {
        self.base = at;
        match self.traffic.direction {
            Direction::Load => self.to_load(reach),
            Direction::Store => self.to_store(reach),
            Direction::Change => self.to_read(Place::ChangeReadLow(reach)),
        }
    }

    /// Moves on to the data, at an address and an index.
    #[inline(always)]
    pub(crate) fn reach_indexed(&mut self, at: u32, index: u16)
        requires { at < 2 ^ 24 }
        ensures left { remaining self.new ≡ data_indexed self.old.traffic self.old.row self.old.here at index }
        ensures keeps { Keeps false self.new }
        ensures start { self.new.start ≡ self.old.start }
    {
        let has_cycle = has_index_cycle(self.traffic, &self.here, at, index);
        let to = (at + index as u32) % 16777216;
        if has_cycle {
            self.base = to;
            self.to_idle(Place::DataCycle(Reach::NextAddress));
        } else {
            self.reach_data(Reach::NextAddress, to);
        }
    }

    /// Moves on to the data, at an offset from the direct register.
    #[inline(always)]
    pub(crate) fn reach_direct(&mut self, offset: u16)
        ensures left { remaining self.new ≡ data_at self.old.traffic NextInBankZero self.old.row self.old.here (direct self.old.here offset 0) }
        ensures keeps { Keeps false self.new }
        ensures start { self.new.start ≡ self.old.start }
    {
        let at = direct_address(&self.here, offset, 0);
        self.reach_data(Reach::NextInBankZero, at);
    }

    /// Moves on to the data, at an address in the data bank.
    #[inline(always)]
    pub(crate) fn reach_absolute(&mut self, word: u16)
        ensures left { remaining self.new ≡ data_at self.old.traffic NextAddress self.old.row self.old.here (in_bank self.old.here.dbr word) }
        ensures keeps { Keeps false self.new }
        ensures start { self.new.start ≡ self.old.start }
    {
        let at = 65536 * self.here.dbr as u32 + word as u32;
        self.reach_data(Reach::NextAddress, at);
    }

    /// Moves on to the data, at an address in the data bank and an index.
    #[inline(always)]
    pub(crate) fn reach_absolute_indexed(&mut self, word: u16, index: u16)
        ensures left { remaining self.new ≡ data_indexed self.old.traffic self.old.row self.old.here (in_bank self.old.here.dbr word) index }
        ensures keeps { Keeps false self.new }
        ensures start { self.new.start ≡ self.old.start }
    {
        let at = 65536 * self.here.dbr as u32 + word as u32;
        self.reach_indexed(at, index);
    }

    /// Moves on after an offset from the direct register was fetched, and the cycle after it made.
    #[inline(always)]
    pub(crate) fn pass_offset(&mut self, kind: DirectKind, offset: u16)
        ensures left { remaining self.new ≡ after_offset kind self.old.traffic self.old.row self.old.here offset }
        ensures keeps { Keeps false self.new }
        ensures start { self.new.start ≡ self.old.start }
    {
        match kind {
            DirectKind::Plain => self.reach_direct(offset),
            DirectKind::X => {
                self.base = direct_address(&self.here, offset, self.here.x);
                self.to_idle(Place::DataCycle(Reach::NextInBankZero));
            }
            DirectKind::Y => {
                self.base = direct_address(&self.here, offset, self.here.y);
                self.to_idle(Place::DataCycle(Reach::NextInBankZero));
            }
            DirectKind::Pointer => {
                self.base = direct_address(&self.here, offset, 0);
                self.to_read(Place::PointerLow(PointerKind::Plain));
            }
            DirectKind::XPointer => {
                self.base = direct_address(&self.here, offset, self.here.x);
                self.to_idle(Place::PointerCycle(PointerKind::Plain));
            }
            DirectKind::PointerY => {
                self.base = direct_address(&self.here, offset, 0);
                self.to_read(Place::PointerLow(PointerKind::Y));
            }
            DirectKind::LongPointer => {
                self.base = direct_always(&self.here, offset);
                self.to_read(Place::PointerLow(PointerKind::Long));
            }
            DirectKind::LongPointerY => {
                self.base = direct_always(&self.here, offset);
                self.to_read(Place::PointerLow(PointerKind::LongY));
            }
            DirectKind::Pushed => {
                self.base = direct_always(&self.here, offset);
                self.to_read(Place::PointerLow(PointerKind::Pushed));
            }
        }
    }

    /// Moves on after a pointer's two bytes were read.
    #[inline(always)]
    pub(crate) fn pass_pointer(&mut self, kind: PointerKind, at: u32, word: u16)
        ensures left { remaining self.new ≡ after_pointer kind self.old.traffic self.old.row self.old.here at word }
        ensures keeps { Keeps false self.new }
        ensures start { self.new.start ≡ self.old.start }
    {
        let in_data_bank = 65536 * self.here.dbr as u32 + word as u32;
        match kind {
            PointerKind::Plain => self.reach_data(Reach::NextAddress, in_data_bank),
            PointerKind::Y => self.reach_indexed(in_data_bank, self.here.y),
            PointerKind::StackY => {
                self.base = (in_data_bank + self.here.y as u32) % 16777216;
                self.to_idle(Place::DataCycle(Reach::NextAddress));
            }
            PointerKind::Long => {
                self.base = (at % 65536 + 1) % 65536;
                self.word = word;
                self.to_read(Place::PointerBank);
            }
            PointerKind::LongY => {
                self.base = (at % 65536 + 1) % 65536;
                self.word = word;
                self.to_read(Place::PointerBankY);
            }
            PointerKind::Pushed => {
                self.base = word as u32;
                self.word = word;
                self.to_push_word();
            }
        }
    }

    /// Moves on after an operand's two bytes were fetched.
    #[inline(never)]
    pub(crate) fn pass_operand(&mut self, kind: OperandKind, word: u16) -> bool
        ensures left { remaining self.new ≡ after_operand kind self.old.traffic self.old.row self.old.here word }
        ensures keeps { Keeps result self.new }
        ensures start { self.new.start ≡ self.old.start }
    {
        self.word = word;
        match kind {
            OperandKind::Plain => {
                self.reach_absolute(word);
                false
            }
            OperandKind::X => {
                self.reach_absolute_indexed(word, self.here.x);
                false
            }
            OperandKind::Y => {
                self.reach_absolute_indexed(word, self.here.y);
                false
            }
            OperandKind::Long => {
                self.to_fetch(Place::OperandBank(BankKind::Plain));
                false
            }
            OperandKind::LongX => {
                self.to_fetch(Place::OperandBank(BankKind::X));
                false
            }
            OperandKind::Jump => self.finish(),
            OperandKind::JumpLong => {
                self.to_fetch(Place::OperandBank(BankKind::Jump));
                false
            }
            OperandKind::JumpPointer => {
                self.base = word as u32;
                self.to_read(Place::TargetLow(TargetKind::Near));
                false
            }
            OperandKind::JumpXPointer => {
                self.base = 65536 * self.here.pbr as u32
                    + (word as u32 + self.here.x as u32) % 65536;
                self.to_idle(Place::TargetCycle);
                false
            }
            OperandKind::JumpLongPointer => {
                self.base = word as u32;
                self.to_read(Place::TargetLow(TargetKind::Far));
                false
            }
            OperandKind::Call => {
                self.base = self.here.pc.wrapping_sub(1) as u32;
                self.to_idle(Place::PushWordCycle);
                false
            }
            OperandKind::CallLong => {
                self.to_push(Place::CallBankPush, self.here.pbr);
                false
            }
            OperandKind::Pushed => {
                self.base = word as u32;
                self.to_push_word();
                false
            }
            OperandKind::PushedRelative => {
                self.to_idle(Place::PushCycle);
                false
            }
            OperandKind::BranchLong => {
                self.to_idle(Place::LastCycle);
                false
            }
        }
    }

    /// Moves on after the bank of an operand was fetched.
    #[inline(always)]
    pub(crate) fn pass_bank(&mut self, kind: BankKind, bank: u8) -> bool
        ensures left { remaining self.new ≡ after_bank kind self.old.traffic self.old.row self.old.here self.old.word bank }
        ensures keeps { Keeps result self.new }
        ensures start { self.new.start ≡ self.old.start }
    {
        let at = 65536 * bank as u32 + self.word as u32;
        match kind {
            BankKind::Plain => {
                self.reach_data(Reach::NextAddress, at);
                false
            }
            BankKind::X => {
                let to = (at + self.here.x as u32) % 16777216;
                self.reach_data(Reach::NextAddress, to);
                false
            }
            BankKind::Jump => {
                self.here.pbr = bank;
                self.finish()
            }
        }
    }

    /// Moves on to the push of what the operation writes.
    #[inline(always)]
    pub(crate) fn push_written(&mut self)
        ensures left { remaining self.new ≡ push_data self.old.traffic self.old.row self.old.here (written_of self.old.row self.old.here self.old.word) self.old.word }
        ensures keeps { Keeps false self.new }
        ensures start { self.new.start ≡ self.old.start }
    {
        self.base = operand_written(self.row, self.here, self.word) as u32;
        if self.traffic.wide {
            self.to_push_word();
        } else {
            self.to_push_low();
        }
    }

    /// Moves on after a target's two bytes were read.
    #[inline(always)]
    pub(crate) fn pass_target(&mut self, kind: TargetKind, at: u32, word: u16) -> bool
        requires { at < 2 ^ 24 }
        ensures left { remaining self.new ≡ after_target kind self.old.row self.old.here at word }
        ensures keeps { Keeps result self.new }
        ensures start { self.new.start ≡ self.old.start }
    {
        self.word = word;
        match kind {
            TargetKind::Near => self.finish(),
            TargetKind::Far => {
                self.base = next_in_bank(at);
                self.to_read(Place::TargetBank);
                false
            }
        }
    }

    /// Moves on to what a return pulls first.
    #[inline(always)]
    pub(crate) fn pull_return(&mut self, kind: ReturnKind)
        ensures left { remaining self.new ≡ return_pulls kind self.old.row self.old.here }
        ensures keeps { Keeps false self.new }
        ensures start { self.new.start ≡ self.old.start }
    {
        match kind {
            ReturnKind::Near => self.to_pull(Place::ReturnLow(ReturnKind::Near)),
            ReturnKind::Far => self.to_pull(Place::ReturnLow(ReturnKind::Far)),
            ReturnKind::Interrupt => self.to_pull(Place::ReturnStatus),
        }
    }

    /// Moves on after the program counter was pulled.
    #[inline(always)]
    pub(crate) fn pass_return(&mut self, kind: ReturnKind, word: u16) -> bool
        ensures left { remaining self.new ≡ after_return kind self.old.row self.old.here word }
        ensures keeps { Keeps result self.new }
        ensures start { self.new.start ≡ self.old.start }
    {
        self.word = word;
        match kind {
            ReturnKind::Near => {
                self.to_idle(Place::LastCycle);
                false
            }
            ReturnKind::Far => {
                self.to_pull(Place::ReturnBank);
                false
            }
            ReturnKind::Interrupt => {
                if self.here.e {
                    self.finish()
                } else {
                    self.to_pull(Place::ReturnBank);
                    false
                }
            }
        }
    }

    /// Moves on after a branch's distance was fetched.
    #[inline(always)]
    pub(crate) fn branch(&mut self, offset: u8) -> bool
        ensures left { remaining self.new ≡ branch_cycles self.old.row self.old.here offset }
        ensures keeps { Keeps result self.new }
        ensures start { self.new.start ≡ self.old.start }
    {
        self.word = offset as u16;
        if is_taken(self.row.op, self.here.p) {
            let target = relative(self.here.pc, offset);
            if self.here.e && target / 256 != self.here.pc / 256 {
                self.to_idle(Place::TwoCycles);
            } else {
                self.to_idle(Place::LastCycle);
            }
            false
        } else {
            self.finish()
        }
    }

    /// Moves on to an interrupt's pushes.
    #[inline(always)]
    pub(crate) fn interrupt(&mut self)
        ensures left { remaining self.new ≡ interrupted self.old.row self.old.here self.old.base }
        ensures keeps { Keeps false self.new }
        ensures start { self.new.start ≡ self.old.start }
    {
        if self.here.e {
            self.to_push(Place::InterruptHigh, high_byte(self.here.pc as u32));
        } else {
            self.to_push(Place::InterruptBank, self.here.pbr);
        }
    }
}
