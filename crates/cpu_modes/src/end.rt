// An instruction that has ended, and whether one has.
ghost use Rattle.std.specs.Prelude.{◌≡◌, MatchBool};

use crate::micro::Micro;
use crate::place::{Direction, Place, Traffic};
use cpu_tables::{Access, Regs, Row};

impl Micro {
    ghost use Rattle.cpu_modes.specs.Plan.{ends, finished};
    ghost use Rattle.cpu_modes.specs.Remaining.{remaining};

    /// Returns an instruction that has ended, with its registers and its row.
    pub fn ended(registers: Regs, row: Row) -> Micro
        ensures left { remaining result ≡ ends registers }
        ensures start { result.start ≡ registers }
        ensures here { result.here ≡ registers }
        ensures row { result.row ≡ row }
    {
        Micro {
            start: registers,
            here: registers,
            row,
            traffic: Traffic {
                direction: Direction::Load,
                wide: false,
            },
            place: Place::Ended,
            base: 0,
            word: 0,
            access: Access::Inner,
        }
    }

    /// Whether the instruction has ended; one that waits has if `awake` is true. Its registers are then those in
    /// `here`.
    #[inline(always)]
    pub fn has_ended(&self, awake: bool) -> bool
        ensures { MatchBool result
            (finished awake (remaining self.now) ≡ Some self.now.here)
            (finished awake (remaining self.now) ≡ None) }
    {
        self.has_ended_at(self.place, awake)
    }

    /// Whether the instruction has ended, for a caller that knows the place; one that waits has if `awake` is true. Its
    /// registers are then those in `here`.
    #[inline(always)]
    pub fn has_ended_at(&self, place: Place, awake: bool) -> bool
        requires known { self.now.place ≡ place }
        ensures { MatchBool result
            (finished awake (remaining self.now) ≡ Some self.now.here)
            (finished awake (remaining self.now) ≡ None) }
    {
        match place {
            Place::Ended => true,
            Place::Waiting => awake,
            Place::OperandByte
            | Place::StatusOperand
            | Place::ImmediateLow
            | Place::ImmediateHigh
            | Place::DirectOffset(_)
            | Place::LowCycle(_)
            | Place::StackOffset
            | Place::StackPointerOffset
            | Place::OperandLow(_)
            | Place::OperandHigh(_)
            | Place::OperandBank(_)
            | Place::PointerCycle(_)
            | Place::PointerLow(_)
            | Place::PointerHigh(_)
            | Place::PointerBank
            | Place::PointerBankY
            | Place::DataCycle(_)
            | Place::LoadByte
            | Place::LoadLow(_)
            | Place::LoadHigh
            | Place::StoreLow(_)
            | Place::StoreHigh
            | Place::ChangeReadLow(_)
            | Place::ChangeReadHigh(_)
            | Place::ChangeCycle(_)
            | Place::ChangeWriteHigh(_)
            | Place::ChangeWriteLow
            | Place::TwoCycles
            | Place::LastCycle
            | Place::PushCycle
            | Place::PushWordCycle
            | Place::PushHigh
            | Place::PushLow
            | Place::PullFirstCycle
            | Place::PullCycle
            | Place::PullByte
            | Place::PullLow
            | Place::PullHigh
            | Place::CallBankPush
            | Place::CallBankCycle
            | Place::CallBank
            | Place::CallPointerLow
            | Place::CallPointerPushHigh
            | Place::CallPointerPushLow
            | Place::CallPointerHigh
            | Place::TargetCycle
            | Place::TargetLow(_)
            | Place::TargetHigh(_)
            | Place::TargetBank
            | Place::ReturnFirstCycle(_)
            | Place::ReturnCycle(_)
            | Place::ReturnStatus
            | Place::ReturnLow(_)
            | Place::ReturnHigh(_)
            | Place::ReturnBank
            | Place::BranchOffset
            | Place::BreakOperand
            | Place::InterruptFirstCycle
            | Place::InterruptCycle
            | Place::InterruptBank
            | Place::InterruptHigh
            | Place::InterruptLow
            | Place::InterruptStatus
            | Place::BlockDestination
            | Place::BlockSource
            | Place::BlockRead
            | Place::BlockWrite
            | Place::WaitFirstCycle
            | Place::WaitCycle
            | Place::Stopped => false,
        }
    }
}
