ghost use Rattle.std.specs.Prelude.{◌≡◌};
ghost use Rattle.spc_modes.specs.Plan.{first_access};
ghost use Rattle.spc_modes.specs.Remaining.{ahead, remaining};

use crate::address::{pull_place, stack_place};
use crate::micro::Micro;
use crate::place::Place;
use spc_alu::low_after_step;
use spc_tables::SpcAccess;

/// The next access of an instruction, or the opcode fetch of the next one if it has ended.
#[inline(always)]
pub fn next(m: &Micro) -> SpcAccess
    ensures { result ≡ first_access (ahead (remaining m.now)) }
{
    match m.place {
        Place::Between
        | Place::FirstByte
        | Place::OperandHigh
        | Place::ImmediatePairOffset
        | Place::DirectPairOffset
        | Place::BranchDistance(_) => SpcAccess::Fetch(m.here.pc),
        Place::Load
        | Place::ChangeRead
        | Place::ChangeByARead
        | Place::WordLow
        | Place::CompareWordLow
        | Place::WordHigh
        | Place::StepWordRead
        | Place::StepWordHigh
        | Place::BitRead
        | Place::PointerLow(_)
        | Place::PointerHigh(_)
        | Place::IncrementLoad
        | Place::DirectPairSource
        | Place::IndirectPairSource
        | Place::PairRead
        | Place::TestRead
        | Place::TargetLow
        | Place::TargetHigh => SpcAccess::Read(m.base),
        Place::PullRegister | Place::ReturnStatus | Place::ReturnLow | Place::ReturnHigh => {
            SpcAccess::Read(pull_place(&m.here))
        }
        Place::WriteLast | Place::CountWrite(_) => SpcAccess::Write(m.base, m.byte),
        Place::StoreWordLow => SpcAccess::Write(m.base, m.here.a),
        Place::StepWordLow => SpcAccess::Write(m.base, low_after_step(m.row.op, m.byte)),
        Place::PushRegister => SpcAccess::Write(stack_place(&m.here), m.byte),
        Place::PushHigh => SpcAccess::Write(stack_place(&m.here), (m.here.pc / 256) as u8),
        Place::PushLow => SpcAccess::Write(stack_place(&m.here), (m.here.pc % 256) as u8),
        Place::BreakStatus => SpcAccess::Write(stack_place(&m.here), m.here.psw),
        Place::DataCycle
        | Place::WordCycle
        | Place::StoreWordCycle
        | Place::PointerCycle
        | Place::IncrementCycle
        | Place::WriteCycle
        | Place::Cycles
        | Place::IndirectPairCycle
        | Place::BranchFirstCycle(_)
        | Place::BranchCycle(_)
        | Place::TestCycle
        | Place::PushCycle
        | Place::PullFirstCycle
        | Place::PullCycle
        | Place::CallFirstCycle
        | Place::CallCycle
        | Place::TargetCycle
        | Place::Halted => SpcAccess::Inner,
    }
}
