ghost use Rattle.std.specs.Prelude.{◌≡◌, IsTrue};
ghost use Rattle.spc_modes.specs.declared.place.Place.TheVariants.{WriteLast, PushHigh, PushLow};

use crate::address::place_after_in_page;
use crate::micro::Micro;
use crate::place::Place;
use spc_alu::break_set;

impl Micro {
    ghost use Rattle.spc_modes.specs.Plan.{after, first_access, is_write};
    ghost use Rattle.spc_modes.specs.Remaining.{ahead, remaining, start_of};

    /// Moves past the last write.
    #[inline(always)]
    pub fn wrote_last(&mut self)
        requires known { self.old.place ≡ WriteLast }
        ensures left { remaining self.new ≡ after (ahead (remaining self.old)) 0 }
        ensures start { self.new.start ≡ start_of self.old }
    {
        self.place = Place::Between;
    }

    /// Moves past the push of the program counter's high byte.
    #[inline(always)]
    pub fn wrote_counter_high(&mut self)
        requires known { self.old.place ≡ PushHigh }
        ensures left { remaining self.new ≡ after (ahead (remaining self.old)) 0 }
        ensures start { self.new.start ≡ start_of self.old }
    {
        self.pass_push();
        self.place = Place::PushLow;
    }

    /// Moves past the push of the program counter's low byte.
    #[inline(always)]
    pub fn wrote_counter_low(&mut self)
        requires known { self.old.place ≡ PushLow }
        ensures left { remaining self.new ≡ after (ahead (remaining self.old)) 0 }
        ensures start { self.new.start ≡ start_of self.old }
    {
        self.pass_push();
        self.pass_pushes();
    }

    /// Moves past the next access, a write.
    #[inline(always)]
    pub fn wrote(&mut self)
        requires { IsTrue (is_write (first_access (ahead (remaining self.old)))) }
        ensures left { remaining self.new ≡ after (ahead (remaining self.old)) 0 }
        ensures start { self.new.start ≡ start_of self.old }
    {
        match self.place {
            Place::WriteLast => self.wrote_last(),
            Place::StoreWordLow => {
                self.base = place_after_in_page(self.base);
                self.byte = self.here.y;
                self.place = Place::WriteLast;
            }
            Place::StepWordLow => {
                self.base = place_after_in_page(self.base);
                self.place = Place::StepWordHigh;
            }
            Place::CountWrite(is_taken) => self.place = Place::BranchDistance(is_taken),
            Place::PushRegister => {
                self.pass_push();
                self.byte = 0;
                self.place = Place::Cycles;
            }
            Place::PushHigh => self.wrote_counter_high(),
            Place::PushLow => self.wrote_counter_low(),
            Place::BreakStatus => {
                self.pass_push();
                self.here = break_set(self.here);
                self.place = Place::TargetCycle;
            }
            Place::Between
            | Place::FirstByte
            | Place::OperandHigh
            | Place::DataCycle
            | Place::Load
            | Place::ChangeRead
            | Place::ChangeByARead
            | Place::WordLow
            | Place::CompareWordLow
            | Place::WordCycle
            | Place::WordHigh
            | Place::StoreWordCycle
            | Place::StepWordRead
            | Place::StepWordHigh
            | Place::BitRead
            | Place::PointerCycle
            | Place::PointerLow(_)
            | Place::PointerHigh(_)
            | Place::IncrementCycle
            | Place::IncrementLoad
            | Place::WriteCycle
            | Place::Cycles
            | Place::ImmediatePairOffset
            | Place::DirectPairSource
            | Place::DirectPairOffset
            | Place::IndirectPairCycle
            | Place::IndirectPairSource
            | Place::PairRead
            | Place::BranchFirstCycle(_)
            | Place::BranchCycle(_)
            | Place::BranchDistance(_)
            | Place::TestCycle
            | Place::TestRead
            | Place::PushCycle
            | Place::PullFirstCycle
            | Place::PullCycle
            | Place::PullRegister
            | Place::ReturnStatus
            | Place::ReturnLow
            | Place::ReturnHigh
            | Place::CallFirstCycle
            | Place::CallCycle
            | Place::TargetCycle
            | Place::TargetLow
            | Place::TargetHigh
            | Place::Halted => {}
        }
    }
}
