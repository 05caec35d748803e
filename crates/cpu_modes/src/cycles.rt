// What each place in an instruction's order becomes once its access, an internal cycle, was made.
ghost use Rattle.std.specs.Prelude.{◌≡◌, IsTrue, false};
ghost use Rattle.cpu_modes.specs.declared.place.Place.TheVariants.{LowCycle, DataCycle, PushCycle};

use crate::micro::Micro;
use crate::place::{DirectKind, Place, Reach, TargetKind};

impl Micro {
    ghost use Rattle.cpu_modes.specs.Plan.{after, first_access, is_inner};
    ghost use Rattle.cpu_modes.specs.Remaining.{Keeps, remaining};

    /// Moves on after the cycle for a direct register whose low byte isn't 0 was made.
    #[inline]
    fn idled_low_cycle(&mut self, kind: DirectKind)
        requires { self.old.place ≡ LowCycle kind }
        ensures left { remaining self.new ≡ after (remaining self.old) 0 }
        ensures keeps { Keeps false self.new }
        ensures start { self.new.start ≡ self.old.start }
    {
        self.pass_offset(kind, self.word);
    }

    /// Moves on after the cycle before the data was made.
    #[inline]
    fn idled_data_cycle(&mut self, reach: Reach)
        requires { self.old.place ≡ DataCycle reach }
        ensures left { remaining self.new ≡ after (remaining self.old) 0 }
        ensures keeps { Keeps false self.new }
        ensures start { self.new.start ≡ self.old.start }
    {
        self.reach_data(reach, self.base);
    }

    /// Moves on after the cycle before a register is pushed was made.
    #[inline]
    fn idled_push_cycle(&mut self)
        requires { self.old.place ≡ PushCycle }
        ensures left { remaining self.new ≡ after (remaining self.old) 0 }
        ensures keeps { Keeps false self.new }
        ensures start { self.new.start ≡ self.old.start }
    {
        self.push_written();
    }

    /// Completes the next access, an internal cycle. Returns whether the instruction has ended or waits.
    #[inline(always)]
    pub fn idle(&mut self) -> bool
        requires { IsTrue (is_inner (first_access (remaining self.old))) }
        ensures left { remaining self.new ≡ after (remaining self.old) 0 }
        ensures keeps { Keeps result self.new }
        ensures start { self.new.start ≡ self.old.start }
    {
        let place = self.place;
        self.idle_at(place)
    }

    /// Completes the next access, an internal cycle, for a caller that knows the place. Returns whether the instruction
    /// has ended or waits. Inlined into that caller, it is that place's transition alone.
    #[inline(always)]
    pub fn idle_at(&mut self, place: Place) -> bool
        requires known { self.old.place ≡ place }
        requires fits { IsTrue (is_inner (first_access (remaining self.old))) }
        ensures left { remaining self.new ≡ after (remaining self.old) 0 }
        ensures keeps { Keeps result self.new }
        ensures start { self.new.start ≡ self.old.start }
    {
        match place {
            Place::LowCycle(kind) => {
                self.idled_low_cycle(kind);
                false
            }
            Place::PointerCycle(kind) => {
                self.to_read(Place::PointerLow(kind));
                false
            }
            Place::DataCycle(reach) => {
                self.idled_data_cycle(reach);
                false
            }
            Place::ChangeCycle(reach) => {
                self.to_change(reach);
                false
            }
            Place::TwoCycles => {
                self.to_idle(Place::LastCycle);
                false
            }
            Place::LastCycle => self.finish(),
            Place::PushCycle => {
                self.idled_push_cycle();
                false
            }
            Place::PushWordCycle => {
                self.to_push_word();
                false
            }
            Place::PullFirstCycle => {
                self.to_idle(Place::PullCycle);
                false
            }
            Place::PullCycle => {
                self.to_pulled();
                false
            }
            Place::CallBankCycle => {
                self.to_fetch(Place::CallBank);
                false
            }
            Place::TargetCycle => {
                self.to_read(Place::TargetLow(TargetKind::Near));
                false
            }
            Place::ReturnFirstCycle(kind) => {
                self.to_idle(Place::ReturnCycle(kind));
                false
            }
            Place::ReturnCycle(kind) => {
                self.pull_return(kind);
                false
            }
            Place::InterruptFirstCycle => {
                self.to_idle(Place::InterruptCycle);
                false
            }
            Place::InterruptCycle => {
                self.interrupt();
                false
            }
            Place::WaitFirstCycle => {
                self.to_idle(Place::WaitCycle);
                false
            }
            Place::WaitCycle => {
                self.place = Place::Waiting;
                true
            }
            Place::Waiting | Place::Ended => true,
            Place::Stopped => {
                self.to_idle(Place::Stopped);
                false
            }
            Place::OperandByte
            | Place::StatusOperand
            | Place::ImmediateLow
            | Place::ImmediateHigh
            | Place::DirectOffset(_)
            | Place::StackOffset
            | Place::StackPointerOffset
            | Place::OperandLow(_)
            | Place::OperandHigh(_)
            | Place::OperandBank(_)
            | Place::PointerLow(_)
            | Place::PointerHigh(_)
            | Place::PointerBank
            | Place::PointerBankY
            | Place::LoadByte
            | Place::LoadLow(_)
            | Place::LoadHigh
            | Place::StoreLow(_)
            | Place::StoreHigh
            | Place::ChangeReadLow(_)
            | Place::ChangeReadHigh(_)
            | Place::ChangeWriteHigh(_)
            | Place::ChangeWriteLow
            | Place::PushHigh
            | Place::PushLow
            | Place::PullByte
            | Place::PullLow
            | Place::PullHigh
            | Place::CallBankPush
            | Place::CallBank
            | Place::CallPointerLow
            | Place::CallPointerPushHigh
            | Place::CallPointerPushLow
            | Place::CallPointerHigh
            | Place::TargetLow(_)
            | Place::TargetHigh(_)
            | Place::TargetBank
            | Place::ReturnStatus
            | Place::ReturnLow(_)
            | Place::ReturnHigh(_)
            | Place::ReturnBank
            | Place::BranchOffset
            | Place::BreakOperand
            | Place::InterruptBank
            | Place::InterruptHigh
            | Place::InterruptLow
            | Place::InterruptStatus
            | Place::BlockDestination
            | Place::BlockSource
            | Place::BlockRead
            | Place::BlockWrite => false,
        }
    }
}
