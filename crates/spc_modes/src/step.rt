ghost use Rattle.std.specs.Prelude.{◌≡◌, ◌/◌};

use crate::address::{direct_place, indexed_place, one_more};
use crate::micro::Micro;
use crate::place::{Place, PointerKind};
use crate::uses::{Use, use_of};
use spc_alu::{
    Changed, byte_with_bit, carry_of_bit, change, change_by_a, combine, counted_down, is_taken_by,
    place_at, stored_byte,
};
use spc_tables::{SpcMode, SpcRegs};

impl Micro {
    ghost use Rattle.spc_modes.specs.Orders.{
      absolute,
      after_first,
      after_operand,
      after_pointer,
      after_pushes,
      bit_end,
      branched,
      data_at,
      direct_pair_at,
      idles_for,
      immediate_pair_at,
      increment_at,
      pair_end,
      pulls,
      tested,
      with_psw,
      written_back,
      written_back_slowly,
    };
    ghost use Rattle.spc_alu.specs.Results.{changed, changed_by_a, combined};
    ghost use Rattle.spc_modes.specs.Plan.{ends};
    ghost use Rattle.spc_modes.specs.Remaining.{remaining};
    ghost use Rattle.spc_modes.specs.Uses.{use_of};

    /// Leaves this many internal cycles, after which the instruction ends.
    #[inline(always)]
    #[tactic(auto, using(crate::proofs::Cycles::idles_for_less))]
    pub(crate) fn end_after(&mut self, cycles: u8)
        ensures left { remaining self.new ≡ idles_for cycles (ends self.old.here) }
        ensures start { self.new.start ≡ self.old.start }
    {
        if cycles == 0 {
            self.place = Place::Between;
        } else {
            self.byte = cycles - 1;
            self.place = Place::Cycles;
        }
    }

    /// Leaves the write of a changed byte, with no cycle before it.
    #[inline(always)]
    fn write_back(&mut self, changed: Changed)
        ensures left { remaining self.new ≡ written_back self.old.here self.old.base changed }
        ensures start { self.new.start ≡ self.old.start }
    {
        self.here.psw = changed.psw;
        self.byte = changed.value;
        self.place = Place::WriteLast;
    }

    /// Moves past the read of the byte that is changed.
    #[inline(never)]
    pub(crate) fn pass_change(&mut self, byte: u8)
        ensures left { remaining self.new ≡ written_back self.old.here self.old.base (changed self.old.row.op self.old.row.mode self.old.here.psw byte) }
        ensures start { self.new.start ≡ self.old.start }
    {
        let changed = change(self.row.op, self.row.mode, self.here.psw, byte);
        self.write_back(changed);
    }

    /// Moves past the read of the byte that is changed by the bits of A.
    #[inline(never)]
    pub(crate) fn pass_change_by_a(&mut self, byte: u8)
        ensures left { remaining self.new ≡ written_back_slowly self.old.here self.old.base (changed_by_a self.old.row.op self.old.here byte) }
        ensures start { self.new.start ≡ self.old.start }
    {
        let changed = change_by_a(self.row.op, self.here, byte);
        self.here.psw = changed.psw;
        self.byte = changed.value;
        self.place = Place::WriteCycle;
    }

    /// Moves to the data at an address.
    #[inline(always)]
    pub(crate) fn reach_data(&mut self, at: u16)
        ensures left { remaining self.new ≡ data_at self.old.row self.old.here at }
        ensures start { self.new.start ≡ self.old.start }
    {
        self.base = at;
        match use_of(self.row.op) {
            Use::Load => self.place = Place::Load,
            Use::Compare => self.place = Place::Load,
            Use::Store => {
                self.byte = stored_byte(self.row.op, self.here);
                self.place = Place::WriteCycle;
            }
            Use::Change => self.place = Place::ChangeRead,
            Use::ChangeByA => self.place = Place::ChangeByARead,
            Use::LoadWord => self.place = Place::WordLow,
            Use::CompareWord => self.place = Place::CompareWordLow,
            Use::StoreWord => self.place = Place::StoreWordCycle,
            Use::StepWord => self.place = Place::StepWordRead,
            _ => self.place = Place::Between,
        }
    }

    /// Moves past the read of the byte that holds a bit.
    #[inline(never)]
    pub(crate) fn pass_bit(&mut self, byte: u8)
        ensures left { remaining self.new ≡ bit_end (use_of self.old.row.op) self.old.row self.old.here self.old.base self.old.byte byte }
        ensures start { self.new.start ≡ self.old.start }
    {
        match use_of(self.row.op) {
            Use::ReadBitSlowly => {
                carry_of_bit(&mut self.here, self.row.op, self.byte, byte);
                self.byte = 0;
                self.place = Place::Cycles;
            }
            Use::ChangeBit => {
                self.byte = byte_with_bit(self.row.op, self.here.psw, self.byte, byte);
                self.place = Place::WriteLast;
            }
            Use::StoreBit => {
                self.byte = byte_with_bit(self.row.op, self.here.psw, self.byte, byte);
                self.place = Place::WriteCycle;
            }
            _ => {
                carry_of_bit(&mut self.here, self.row.op, self.byte, byte);
                self.place = Place::Between;
            }
        }
    }

    /// Moves past the reads of a pointer's two bytes.
    #[inline(always)]
    pub(crate) fn pass_pointer(&mut self, kind: PointerKind, word: u16)
        ensures left { remaining self.new ≡ after_pointer kind self.old.row self.old.here word }
        ensures start { self.new.start ≡ self.old.start }
    {
        match kind {
            PointerKind::Plain => self.reach_data(word),
            PointerKind::Y => {
                self.base = indexed_place(word, self.here.y);
                self.place = Place::DataCycle;
            }
        }
    }

    /// Moves to the data at X, which then grows by 1.
    #[inline(always)]
    pub(crate) fn reach_increment(&mut self)
        ensures left { remaining self.new ≡ increment_at (use_of self.old.row.op) self.old.row self.old.here self.old.base }
        ensures start { self.new.start ≡ self.old.start }
    {
        match use_of(self.row.op) {
            Use::Store => {
                self.byte = stored_byte(self.row.op, self.here);
                self.here.x = one_more(self.here.x);
                self.place = Place::WriteCycle;
            }
            _ => self.place = Place::IncrementLoad,
        }
    }

    /// Moves past the reads of both operands in memory.
    #[inline(never)]
    pub(crate) fn pass_pair(&mut self, first: u8)
        ensures left { remaining self.new ≡ pair_end (use_of self.old.row.op) self.old.here self.old.base (combined self.old.row.op self.old.here.psw first self.old.byte) }
        ensures start { self.new.start ≡ self.old.start }
    {
        let changed = combine(self.row.op, self.here.psw, first, self.byte);
        match use_of(self.row.op) {
            Use::Compare => {
                self.here.psw = changed.psw;
                self.byte = 0;
                self.place = Place::Cycles;
            }
            _ => self.write_back(changed),
        }
    }

    /// `d,#`: moves to the place that takes the result.
    #[inline(always)]
    pub(crate) fn reach_immediate_pair(&mut self, at: u16)
        ensures left { remaining self.new ≡ immediate_pair_at (use_of self.old.row.op) self.old.row self.old.here at self.old.byte }
        ensures start { self.new.start ≡ self.old.start }
    {
        self.base = at;
        match use_of(self.row.op) {
            Use::Move => self.place = Place::WriteCycle,
            _ => self.place = Place::PairRead,
        }
    }

    /// `d,d`: moves to the place that takes the result.
    #[inline(always)]
    pub(crate) fn reach_direct_pair(&mut self, at: u16)
        ensures left { remaining self.new ≡ direct_pair_at (use_of self.old.row.op) self.old.row self.old.here at self.old.byte }
        ensures start { self.new.start ≡ self.old.start }
    {
        self.base = at;
        match use_of(self.row.op) {
            Use::Move => self.place = Place::WriteLast,
            _ => self.place = Place::PairRead,
        }
    }

    /// Moves past the fetch of a branch's distance.
    #[inline(always)]
    pub(crate) fn pass_distance(&mut self, is_taken: bool, distance: u8)
        ensures left { remaining self.new ≡ branched is_taken self.old.here distance }
        ensures start { self.new.start ≡ self.old.start }
    {
        if is_taken {
            self.here.pc = place_at(self.here.pc, distance);
            self.byte = 1;
            self.place = Place::Cycles;
        } else {
            self.place = Place::Between;
        }
    }

    /// Moves past the read of the byte that decides a branch.
    #[inline(always)]
    pub(crate) fn pass_test(&mut self, byte: u8)
        ensures left { remaining self.new ≡ tested (use_of self.old.row.op) self.old.row self.old.here self.old.base byte }
        ensures start { self.new.start ≡ self.old.start }
    {
        let is_taken = is_taken_by(self.row.op, self.row.mode, self.here.a, byte);
        match use_of(self.row.op) {
            Use::Count => {
                self.byte = counted_down(byte);
                self.place = Place::CountWrite(is_taken);
            }
            _ => self.place = Place::BranchCycle(is_taken),
        }
    }

    /// Moves past the pushes of the program counter.
    #[inline(always)]
    pub(crate) fn pass_pushes(&mut self)
        ensures left { remaining self.new ≡ after_pushes (use_of self.old.row.op) self.old.here self.old.base }
        ensures start { self.new.start ≡ self.old.start }
    {
        match use_of(self.row.op) {
            Use::Call => {
                self.here.pc = self.base;
                self.byte = 1;
                self.place = Place::Cycles;
            }
            Use::VectorCall => self.place = Place::TargetCycle,
            Use::Break => self.place = Place::BreakStatus,
            _ => {
                self.here.pc = self.base;
                self.byte = 0;
                self.place = Place::Cycles;
            }
        }
    }

    /// Moves to what is pulled first.
    #[inline(always)]
    pub(crate) fn reach_pulls(&mut self)
        ensures left { remaining self.new ≡ pulls (use_of self.old.row.op) self.old.row self.old.here }
        ensures start { self.new.start ≡ self.old.start }
    {
        self.place = match use_of(self.row.op) {
            Use::Return => Place::ReturnLow,
            Use::ReturnInterrupt => Place::ReturnStatus,
            _ => Place::PullRegister,
        };
    }

    /// Moves past the fetches of an absolute address.
    #[inline(always)]
    pub(crate) fn pass_absolute(&mut self, word: u16)
        ensures left { remaining self.new ≡ absolute (use_of self.old.row.op) self.old.row self.old.here word }
        ensures start { self.new.start ≡ self.old.start }
    {
        match use_of(self.row.op) {
            Use::Jump => {
                self.here.pc = word;
                self.place = Place::Between;
            }
            Use::Call => {
                self.base = word;
                self.place = Place::CallCycle;
            }
            _ => self.reach_data(word),
        }
    }

    /// Moves past the fetches of an operand's two bytes.
    #[inline(always)]
    pub(crate) fn pass_operand(&mut self, word: u16)
        ensures left { remaining self.new ≡ after_operand self.old.row.mode self.old.row self.old.here word }
        ensures start { self.new.start ≡ self.old.start }
    {
        match self.row.mode {
            SpcMode::Absolute => self.pass_absolute(word),
            SpcMode::AbsoluteX => {
                self.base = indexed_place(word, self.here.x);
                self.place = Place::DataCycle;
            }
            SpcMode::AbsoluteY => {
                self.base = indexed_place(word, self.here.y);
                self.place = Place::DataCycle;
            }
            SpcMode::MemoryBit => {
                self.base = word % 8192;
                self.byte = (word / 8192) as u8;
                self.place = Place::BitRead;
            }
            SpcMode::AbsoluteXPointer => {
                self.base = indexed_place(word, self.here.x);
                self.place = Place::TargetCycle;
            }
            _ => self.place = Place::Between,
        }
    }

    /// Moves past the fetch of the first byte after the opcode.
    #[inline(always)]
    pub(crate) fn pass_first(&mut self, byte: u8)
        ensures left { remaining self.new ≡ after_first self.old.row.mode self.old.row self.old.here byte }
        ensures start { self.new.start ≡ self.old.start }
    {
        let offset = byte as u16;
        match self.row.mode {
            SpcMode::Immediate => self.pass_load(byte),
            SpcMode::Direct => {
                let at = direct_place(&self.here, offset);
                self.reach_data(at);
            }
            SpcMode::DirectX => {
                self.base = direct_place(&self.here, offset + self.here.x as u16);
                self.place = Place::DataCycle;
            }
            SpcMode::DirectY => {
                self.base = direct_place(&self.here, offset + self.here.y as u16);
                self.place = Place::DataCycle;
            }
            SpcMode::DirectBit(_) => {
                let at = direct_place(&self.here, offset);
                self.reach_data(at);
            }
            SpcMode::DirectXPointer => {
                self.base = direct_place(&self.here, offset + self.here.x as u16);
                self.place = Place::PointerCycle;
            }
            SpcMode::DirectPointerY => {
                self.base = direct_place(&self.here, offset);
                self.place = Place::PointerLow(PointerKind::Y);
            }
            SpcMode::DirectImmediate => {
                self.byte = byte;
                self.place = Place::ImmediatePairOffset;
            }
            SpcMode::DirectDirect => {
                self.base = direct_place(&self.here, offset);
                self.place = Place::DirectPairSource;
            }
            SpcMode::DirectBitRelative(_) => {
                self.base = direct_place(&self.here, offset);
                self.place = Place::TestRead;
            }
            SpcMode::DirectRelative => {
                self.base = direct_place(&self.here, offset);
                self.place = Place::TestRead;
            }
            SpcMode::DirectXRelative => {
                self.base = direct_place(&self.here, offset + self.here.x as u16);
                self.place = Place::TestCycle;
            }
            SpcMode::HighPage => {
                self.base = 0xFF00 + offset;
                self.place = Place::CallCycle;
            }
            _ => {
                self.byte = byte;
                self.place = Place::OperandHigh;
            }
        }
    }
}
