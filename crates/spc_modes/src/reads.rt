ghost use Rattle.std.specs.Prelude.{◌≡◌, IsTrue};
ghost use Rattle.spc_modes.specs.declared.place.Place.TheVariants.{Between, FirstByte, OperandHigh, BranchDistance, Load, ChangeRead, ReturnLow, ReturnHigh};

use crate::address::{direct_place, join_bytes, place_after, place_after_in_page};
use crate::first::begins_with_byte;
use crate::micro::Micro;
use crate::place::{Place, PointerKind};
use spc_tables::row;

impl Micro {
    ghost use Rattle.spc_modes.specs.Plan.{after, first_access, gets_byte};
    ghost use Rattle.spc_modes.specs.Remaining.{ahead, remaining, start_of};

    /// Moves past the opcode fetch, which got `got`.
    #[inline(always)]
    pub fn took_opcode(&mut self, got: u8)
        requires known { self.old.place ≡ Between }
        ensures left { remaining self.new ≡ after (ahead (remaining self.old)) got }
        ensures start { self.new.start ≡ start_of self.old }
    {
        self.start = self.here;
        self.pass_fetch();
        self.row = row(got);
        if begins_with_byte(got) {
            self.place = Place::FirstByte;
        } else {
            self.enter();
        }
    }

    /// Moves past the fetch of the first byte after an opcode, which got `got`.
    #[inline(always)]
    pub fn took_first_byte(&mut self, got: u8)
        requires known { self.old.place ≡ FirstByte }
        ensures left { remaining self.new ≡ after (ahead (remaining self.old)) got }
        ensures start { self.new.start ≡ start_of self.old }
    {
        self.pass_fetch();
        self.pass_first(got);
    }

    /// Moves past the fetch of an operand's high byte, which got `got`.
    #[inline(always)]
    pub fn took_operand_high(&mut self, got: u8)
        requires known { self.old.place ≡ OperandHigh }
        ensures left { remaining self.new ≡ after (ahead (remaining self.old)) got }
        ensures start { self.new.start ≡ start_of self.old }
    {
        self.pass_fetch();
        self.pass_operand(join_bytes(self.byte, got));
    }

    /// Moves past the fetch of a branch's distance, which got `got`.
    #[inline(always)]
    pub fn took_distance(&mut self, is_taken: bool, got: u8)
        requires known { self.old.place ≡ BranchDistance is_taken }
        ensures left { remaining self.new ≡ after (ahead (remaining self.old)) got }
        ensures start { self.new.start ≡ start_of self.old }
    {
        self.pass_fetch();
        self.pass_distance(is_taken, got);
    }

    /// Moves past the read of a byte of data, which got `got`.
    #[inline(always)]
    pub fn took_data(&mut self, got: u8)
        requires known { self.old.place ≡ Load }
        ensures left { remaining self.new ≡ after (ahead (remaining self.old)) got }
        ensures start { self.new.start ≡ start_of self.old }
    {
        self.pass_load(got);
    }

    /// Moves past the read of a byte that is to be changed, which got `got`.
    #[inline(always)]
    pub fn took_data_to_change(&mut self, got: u8)
        requires known { self.old.place ≡ ChangeRead }
        ensures left { remaining self.new ≡ after (ahead (remaining self.old)) got }
        ensures start { self.new.start ≡ start_of self.old }
    {
        self.pass_change(got);
    }

    /// Moves past the pull of the return address's low byte, which got `got`.
    #[inline(always)]
    pub fn took_return_low(&mut self, got: u8)
        requires known { self.old.place ≡ ReturnLow }
        ensures left { remaining self.new ≡ after (ahead (remaining self.old)) got }
        ensures start { self.new.start ≡ start_of self.old }
    {
        self.pass_pull();
        self.byte = got;
        self.place = Place::ReturnHigh;
    }

    /// Moves past the pull of the return address's high byte, which got `got`.
    #[inline(always)]
    pub fn took_return_high(&mut self, got: u8)
        requires known { self.old.place ≡ ReturnHigh }
        ensures left { remaining self.new ≡ after (ahead (remaining self.old)) got }
        ensures start { self.new.start ≡ start_of self.old }
    {
        self.pass_pull();
        self.here.pc = join_bytes(self.byte, got);
        self.place = Place::Between;
    }

    /// Moves past the next access, a fetch or a read, which got `got`.
    #[inline(always)]
    pub fn took(&mut self, got: u8)
        requires { IsTrue (gets_byte (first_access (ahead (remaining self.old)))) }
        ensures left { remaining self.new ≡ after (ahead (remaining self.old)) got }
        ensures start { self.new.start ≡ start_of self.old }
    {
        match self.place {
            Place::Between => self.took_opcode(got),
            Place::FirstByte => self.took_first_byte(got),
            Place::OperandHigh => self.took_operand_high(got),
            Place::ImmediatePairOffset => {
                self.pass_fetch();
                let at = direct_place(&self.here, got as u16);
                self.reach_immediate_pair(at);
            }
            Place::DirectPairOffset => {
                self.pass_fetch();
                let at = direct_place(&self.here, got as u16);
                self.reach_direct_pair(at);
            }
            Place::BranchDistance(is_taken) => self.took_distance(is_taken, got),
            Place::Load => self.took_data(got),
            Place::ChangeRead => self.took_data_to_change(got),
            Place::ChangeByARead => self.pass_change_by_a(got),
            Place::WordLow => {
                self.base = place_after_in_page(self.base);
                self.byte = got;
                self.place = Place::WordCycle;
            }
            Place::CompareWordLow => {
                self.base = place_after_in_page(self.base);
                self.byte = got;
                self.place = Place::WordHigh;
            }
            Place::WordHigh => self.pass_word(got),
            Place::StepWordRead => {
                self.byte = got;
                self.place = Place::StepWordLow;
            }
            Place::StepWordHigh => self.pass_word_step(got),
            Place::BitRead => self.pass_bit(got),
            Place::PointerLow(kind) => {
                self.base = place_after_in_page(self.base);
                self.byte = got;
                self.place = Place::PointerHigh(kind);
            }
            Place::PointerHigh(kind) => self.pass_pointer(kind, join_bytes(self.byte, got)),
            Place::IncrementLoad => self.pass_increment(got),
            Place::DirectPairSource => {
                self.byte = got;
                self.place = Place::DirectPairOffset;
            }
            Place::IndirectPairSource => {
                self.base = direct_place(&self.here, self.here.x as u16);
                self.byte = got;
                self.place = Place::PairRead;
            }
            Place::PairRead => self.pass_pair(got),
            Place::TestRead => self.pass_test(got),
            Place::PullRegister => self.pass_pop(got),
            Place::ReturnStatus => {
                self.pass_pull();
                self.here.psw = got;
                self.place = Place::ReturnLow;
            }
            Place::ReturnLow => self.took_return_low(got),
            Place::ReturnHigh => self.took_return_high(got),
            Place::TargetLow => {
                self.base = place_after(self.base);
                self.byte = got;
                self.place = Place::TargetHigh;
            }
            Place::TargetHigh => {
                self.here.pc = join_bytes(self.byte, got);
                self.place = Place::Between;
            }
            Place::DataCycle
            | Place::WordCycle
            | Place::StoreWordCycle
            | Place::StoreWordLow
            | Place::StepWordLow
            | Place::PointerCycle
            | Place::IncrementCycle
            | Place::WriteCycle
            | Place::WriteLast
            | Place::Cycles
            | Place::IndirectPairCycle
            | Place::BranchFirstCycle(_)
            | Place::BranchCycle(_)
            | Place::TestCycle
            | Place::CountWrite(_)
            | Place::PushCycle
            | Place::PushRegister
            | Place::PullFirstCycle
            | Place::PullCycle
            | Place::CallFirstCycle
            | Place::CallCycle
            | Place::PushHigh
            | Place::PushLow
            | Place::BreakStatus
            | Place::TargetCycle
            | Place::Halted => {}
        }
    }
}
