// What an instruction becomes once its next access, a fetch or a read, has got its byte.
ghost use Rattle.std.specs.Prelude.{◌≡◌, IsTrue, true, unwrap_or};

use crate::micro::Micro;
use crate::place::{DirectKind, OperandKind, Place};

impl Micro {
    ghost use Rattle.cpu_modes.specs.Plan.{after, finished, first_access, gets_byte};
    ghost use Rattle.cpu_modes.specs.Remaining.{Keeps, onward, remaining};

    /// Completes the next access, a fetch or a read, with the byte that it got. Returns whether the instruction has
    /// ended. If the last instruction has ended or was woken, the access is the opcode fetch of the next one.
    #[inline(always)]
    pub fn took(&mut self, got: u8) -> bool
        requires { IsTrue (gets_byte (first_access (onward (remaining self.old)))) }
        ensures left { remaining self.new ≡ after (onward (remaining self.old)) got }
        ensures keeps { Keeps result self.new }
        ensures start { self.new.start ≡ unwrap_or (finished true (remaining self.old)) self.old.start }
    {
        let place = self.place;
        self.took_at(place, got)
    }

    /// Completes the next access, a fetch or a read, with the byte that it got, for a caller that knows the place.
    /// Returns whether the instruction has ended. Inlined into that caller, it is that place's transition alone.
    #[inline(always)]
    pub fn took_at(&mut self, place: Place, got: u8) -> bool
        requires known { self.old.place ≡ place }
        requires fits { IsTrue (gets_byte (first_access (onward (remaining self.old)))) }
        ensures left { remaining self.new ≡ after (onward (remaining self.old)) got }
        ensures keeps { Keeps result self.new }
        ensures start { self.new.start ≡ unwrap_or (finished true (remaining self.old)) self.old.start }
    {
        match place {
            Place::Ended | Place::Waiting => {
                self.took_opcode(got);
                false
            }
            Place::OperandByte => self.took_operand_byte(got),
            Place::StatusOperand => {
                self.took_status_operand(got);
                false
            }
            Place::ImmediateLow => {
                self.took_immediate_low(got);
                false
            }
            Place::ImmediateHigh => self.took_immediate_high(got),
            Place::DirectOffset(DirectKind::Plain) => {
                self.took_direct_data_offset(got);
                false
            }
            Place::DirectOffset(kind) => {
                self.took_direct_offset(kind, got);
                false
            }
            Place::StackOffset => {
                self.took_stack_offset(got);
                false
            }
            Place::StackPointerOffset => {
                self.took_stack_pointer_offset(got);
                false
            }
            Place::OperandLow(kind) => {
                self.took_operand_low(kind, got);
                false
            }
            Place::OperandHigh(OperandKind::Plain) => {
                self.took_address_high(got);
                false
            }
            Place::OperandHigh(OperandKind::X) => {
                self.took_x_address_high(got);
                false
            }
            Place::OperandHigh(OperandKind::Y) => {
                self.took_y_address_high(got);
                false
            }
            Place::OperandHigh(kind) => self.took_operand_high(kind, got),
            Place::OperandBank(kind) => self.took_operand_bank(kind, got),
            Place::CallBank => {
                self.took_call_bank(got);
                false
            }
            Place::CallPointerLow => {
                self.took_call_pointer_low(got);
                false
            }
            Place::CallPointerHigh => {
                self.took_call_pointer_high(got);
                false
            }
            Place::BranchOffset => self.took_branch_offset(got),
            Place::BreakOperand => {
                self.took_break_operand(got);
                false
            }
            Place::BlockDestination => {
                self.took_block_destination(got);
                false
            }
            Place::BlockSource => {
                self.took_block_source(got);
                false
            }
            Place::PointerLow(kind) => {
                self.took_pointer_low(kind, got);
                false
            }
            Place::PointerHigh(kind) => {
                self.took_pointer_high(kind, got);
                false
            }
            Place::PointerBank => {
                self.took_pointer_bank(got);
                false
            }
            Place::PointerBankY => {
                self.took_pointer_bank_y(got);
                false
            }
            Place::LoadByte => self.took_load_byte(got),
            Place::LoadLow(reach) => {
                self.took_load_low(reach, got);
                false
            }
            Place::LoadHigh => self.took_load_high(got),
            Place::ChangeReadLow(reach) => {
                self.took_change_read_low(reach, got);
                false
            }
            Place::ChangeReadHigh(reach) => {
                self.took_change_read_high(reach, got);
                false
            }
            Place::TargetLow(kind) => {
                self.took_target_low(kind, got);
                false
            }
            Place::TargetHigh(kind) => self.took_target_high(kind, got),
            Place::TargetBank => self.took_target_bank(got),
            Place::BlockRead => {
                self.took_block_read(got);
                false
            }
            Place::PullByte => self.took_pull_byte(got),
            Place::PullLow => {
                self.took_pull_low(got);
                false
            }
            Place::PullHigh => self.took_pull_high(got),
            Place::ReturnStatus => {
                self.took_return_status(got);
                false
            }
            Place::ReturnLow(kind) => {
                self.took_return_low(kind, got);
                false
            }
            Place::ReturnHigh(kind) => self.took_return_high(kind, got),
            Place::ReturnBank => self.took_return_bank(got),
            Place::LowCycle(_)
            | Place::PointerCycle(_)
            | Place::DataCycle(_)
            | Place::StoreLow(_)
            | Place::StoreHigh
            | Place::ChangeCycle(_)
            | Place::ChangeWriteHigh(_)
            | Place::ChangeWriteLow
            | Place::TwoCycles
            | Place::LastCycle
            | Place::PushCycle
            | Place::PushWordCycle
            | Place::PushHigh
            | Place::PushLow
            | Place::PullFirstCycle
            | Place::PullCycle
            | Place::CallBankPush
            | Place::CallBankCycle
            | Place::CallPointerPushHigh
            | Place::CallPointerPushLow
            | Place::TargetCycle
            | Place::ReturnFirstCycle(_)
            | Place::ReturnCycle(_)
            | Place::InterruptFirstCycle
            | Place::InterruptCycle
            | Place::InterruptBank
            | Place::InterruptHigh
            | Place::InterruptLow
            | Place::InterruptStatus
            | Place::BlockWrite
            | Place::WaitFirstCycle
            | Place::WaitCycle
            | Place::Stopped => false,
        }
    }
}
