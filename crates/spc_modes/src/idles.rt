ghost use Rattle.std.specs.Prelude.{◌≡◌, IsTrue};
ghost use Rattle.spc_modes.specs.declared.place.Place.TheVariants.{DataCycle, WriteCycle, Cycles, PullFirstCycle, PullCycle, CallCycle};

use crate::micro::Micro;
use crate::place::{Place, PointerKind};

impl Micro {
    ghost use Rattle.spc_modes.specs.Plan.{after, first_access, is_inner};
    ghost use Rattle.spc_modes.specs.Remaining.{ahead, remaining, start_of};

    /// Moves past the cycle before the data at an address.
    #[inline(always)]
    pub fn passed_data_cycle(&mut self)
        requires known { self.old.place ≡ DataCycle }
        ensures left { remaining self.new ≡ after (ahead (remaining self.old)) 0 }
        ensures start { self.new.start ≡ start_of self.old }
    {
        self.reach_data(self.base);
    }

    /// Moves past the cycle before the last write.
    #[inline(always)]
    pub fn passed_write_cycle(&mut self)
        requires known { self.old.place ≡ WriteCycle }
        ensures left { remaining self.new ≡ after (ahead (remaining self.old)) 0 }
        ensures start { self.new.start ≡ start_of self.old }
    {
        self.place = Place::WriteLast;
    }

    /// Moves past one of the last cycles.
    #[inline(always)]
    pub fn passed_cycle(&mut self)
        requires known { self.old.place ≡ Cycles }
        ensures left { remaining self.new ≡ after (ahead (remaining self.old)) 0 }
        ensures start { self.new.start ≡ start_of self.old }
    {
        self.end_after(self.byte);
    }

    /// Moves past the first cycle before a pull.
    #[inline(always)]
    pub fn passed_pull_first_cycle(&mut self)
        requires known { self.old.place ≡ PullFirstCycle }
        ensures left { remaining self.new ≡ after (ahead (remaining self.old)) 0 }
        ensures start { self.new.start ≡ start_of self.old }
    {
        self.place = Place::PullCycle;
    }

    /// Moves past the second cycle before a pull.
    #[inline(always)]
    pub fn passed_pull_cycle(&mut self)
        requires known { self.old.place ≡ PullCycle }
        ensures left { remaining self.new ≡ after (ahead (remaining self.old)) 0 }
        ensures start { self.new.start ≡ start_of self.old }
    {
        self.reach_pulls();
    }

    /// Moves past the cycle before the program counter is pushed.
    #[inline(always)]
    pub fn passed_call_cycle(&mut self)
        requires known { self.old.place ≡ CallCycle }
        ensures left { remaining self.new ≡ after (ahead (remaining self.old)) 0 }
        ensures start { self.new.start ≡ start_of self.old }
    {
        self.place = Place::PushHigh;
    }

    /// Moves past the next access, an internal cycle.
    #[inline(always)]
    pub fn idle(&mut self)
        requires { IsTrue (is_inner (first_access (ahead (remaining self.old)))) }
        ensures left { remaining self.new ≡ after (ahead (remaining self.old)) 0 }
        ensures start { self.new.start ≡ start_of self.old }
    {
        match self.place {
            Place::DataCycle => self.passed_data_cycle(),
            Place::WordCycle => self.place = Place::WordHigh,
            Place::StoreWordCycle => self.place = Place::StoreWordLow,
            Place::PointerCycle => self.place = Place::PointerLow(PointerKind::Plain),
            Place::IncrementCycle => self.reach_increment(),
            Place::WriteCycle => self.passed_write_cycle(),
            Place::Cycles => self.passed_cycle(),
            Place::IndirectPairCycle => self.place = Place::IndirectPairSource,
            Place::BranchFirstCycle(is_taken) => self.place = Place::BranchCycle(is_taken),
            Place::BranchCycle(is_taken) => self.place = Place::BranchDistance(is_taken),
            Place::TestCycle => self.place = Place::TestRead,
            Place::PushCycle => self.place = Place::PushRegister,
            Place::PullFirstCycle => self.passed_pull_first_cycle(),
            Place::PullCycle => self.passed_pull_cycle(),
            Place::CallFirstCycle => self.place = Place::CallCycle,
            Place::CallCycle => self.passed_call_cycle(),
            Place::TargetCycle => self.place = Place::TargetLow,
            Place::Halted => {}
            Place::Between
            | Place::FirstByte
            | Place::OperandHigh
            | Place::Load
            | Place::ChangeRead
            | Place::ChangeByARead
            | Place::WordLow
            | Place::CompareWordLow
            | Place::WordHigh
            | Place::StoreWordLow
            | Place::StepWordRead
            | Place::StepWordLow
            | Place::StepWordHigh
            | Place::BitRead
            | Place::PointerLow(_)
            | Place::PointerHigh(_)
            | Place::IncrementLoad
            | Place::WriteLast
            | Place::ImmediatePairOffset
            | Place::DirectPairSource
            | Place::DirectPairOffset
            | Place::IndirectPairSource
            | Place::PairRead
            | Place::BranchDistance(_)
            | Place::TestRead
            | Place::CountWrite(_)
            | Place::PushRegister
            | Place::PullRegister
            | Place::ReturnStatus
            | Place::ReturnLow
            | Place::ReturnHigh
            | Place::PushHigh
            | Place::PushLow
            | Place::BreakStatus
            | Place::TargetLow
            | Place::TargetHigh => {}
        }
    }
}
