// What each place in an instruction's order becomes once its access, a write, was made.
ghost use Rattle.std.specs.Prelude.{◌≡◌, IsTrue, false, true, unwrap_or};
ghost use Rattle.cpu_modes.specs.declared.place.Place.TheVariants.{StoreLow, ChangeWriteHigh};

use crate::address::{high_byte, low_byte, second_address};
use crate::micro::Micro;
use crate::place::{Place, Reach, TargetKind};
use cpu_alu::{operand_written, pushed_status};

impl Micro {
    ghost use Rattle.cpu_modes.specs.Plan.{after, finished, first_access, is_write};
    ghost use Rattle.cpu_modes.specs.Remaining.{Keeps, onward, remaining};

    /// Moves on after the low byte of data was written, or its only one. Returns whether the instruction has ended.
    #[inline(always)]
    fn wrote_store_low(&mut self, reach: Reach) -> bool
        requires { self.old.place ≡ StoreLow reach }
        ensures left { remaining self.new ≡ after (remaining self.old) 0 }
        ensures keeps { Keeps result self.new }
        ensures start { self.new.start ≡ self.old.start }
    {
        if self.traffic.wide {
            self.base = second_address(reach, self.base);
            let written = operand_written(self.row, self.here, self.word);
            self.to_write(Place::StoreHigh, self.base, high_byte(written as u32));
            false
        } else {
            self.place = Place::Ended;
            true
        }
    }

    /// Moves on after the high byte of changed data was written.
    #[inline]
    fn wrote_change_write_high(&mut self, reach: Reach)
        requires { self.old.place ≡ ChangeWriteHigh reach }
        ensures left { remaining self.new ≡ after (remaining self.old) 0 }
        ensures keeps { Keeps false self.new }
        ensures start { self.new.start ≡ self.old.start }
    {
        let written = operand_written(self.row, self.here, self.word);
        self.to_write(Place::ChangeWriteLow, self.base, low_byte(written as u32));
    }

    /// Completes the next access, a write. Returns whether the instruction has ended.
    #[inline(always)]
    pub fn wrote(&mut self) -> bool
        requires { IsTrue (is_write (first_access (onward (remaining self.old)))) }
        ensures left { remaining self.new ≡ after (onward (remaining self.old)) 0 }
        ensures keeps { Keeps result self.new }
        ensures start { self.new.start ≡ unwrap_or (finished true (remaining self.old)) self.old.start }
    {
        let place = self.place;
        self.wrote_at(place)
    }

    /// Completes the next access, a write, for a caller that knows the place. Returns whether the instruction has
    /// ended. Inlined into that caller, it is that place's transition alone.
    #[inline(always)]
    pub fn wrote_at(&mut self, place: Place) -> bool
        requires known { self.old.place ≡ place }
        requires fits { IsTrue (is_write (first_access (onward (remaining self.old)))) }
        ensures left { remaining self.new ≡ after (onward (remaining self.old)) 0 }
        ensures keeps { Keeps result self.new }
        ensures start { self.new.start ≡ unwrap_or (finished true (remaining self.old)) self.old.start }
    {
        match place {
            Place::StoreLow(reach) => self.wrote_store_low(reach),
            Place::StoreHigh => {
                self.place = Place::Ended;
                true
            }
            Place::ChangeWriteHigh(reach) => {
                self.wrote_change_write_high(reach);
                false
            }
            Place::ChangeWriteLow => self.finish(),
            Place::PushHigh => {
                self.pass_push();
                self.to_push_low();
                false
            }
            Place::PushLow => {
                self.pass_push();
                self.finish()
            }
            Place::CallBankPush => {
                self.pass_push();
                self.to_idle(Place::CallBankCycle);
                false
            }
            Place::CallPointerPushHigh => {
                self.pass_push();
                self.to_push(Place::CallPointerPushLow, low_byte(self.here.pc as u32));
                false
            }
            Place::CallPointerPushLow => {
                self.pass_push();
                self.to_fetch(Place::CallPointerHigh);
                false
            }
            Place::InterruptBank => {
                self.pass_push();
                self.to_push(Place::InterruptHigh, high_byte(self.here.pc as u32));
                false
            }
            Place::InterruptHigh => {
                self.pass_push();
                self.to_push(Place::InterruptLow, low_byte(self.here.pc as u32));
                false
            }
            Place::InterruptLow => {
                self.pass_push();
                self.to_push(
                    Place::InterruptStatus,
                    pushed_status(self.row.op, self.here),
                );
                false
            }
            Place::InterruptStatus => {
                self.pass_push();
                self.to_read(Place::TargetLow(TargetKind::Near));
                false
            }
            Place::BlockWrite => {
                self.to_idle(Place::TwoCycles);
                false
            }
            Place::OperandByte
            | Place::StatusOperand
            | Place::ImmediateLow
            | Place::ImmediateHigh
            | Place::DirectOffset(_)
            | Place::LowCycle(_)
            | Place::StackOffset
            | Place::StackPointerOffset
            | Place::OperandLow(_)
            | Place::OperandHigh(_)
            | Place::OperandBank(_)
            | Place::PointerCycle(_)
            | Place::PointerLow(_)
            | Place::PointerHigh(_)
            | Place::PointerBank
            | Place::PointerBankY
            | Place::DataCycle(_)
            | Place::LoadByte
            | Place::LoadLow(_)
            | Place::LoadHigh
            | Place::ChangeReadLow(_)
            | Place::ChangeReadHigh(_)
            | Place::ChangeCycle(_)
            | Place::TwoCycles
            | Place::LastCycle
            | Place::PushCycle
            | Place::PushWordCycle
            | Place::PullFirstCycle
            | Place::PullCycle
            | Place::PullByte
            | Place::PullLow
            | Place::PullHigh
            | Place::CallBankCycle
            | Place::CallBank
            | Place::CallPointerLow
            | Place::CallPointerHigh
            | Place::TargetCycle
            | Place::TargetLow(_)
            | Place::TargetHigh(_)
            | Place::TargetBank
            | Place::ReturnFirstCycle(_)
            | Place::ReturnCycle(_)
            | Place::ReturnStatus
            | Place::ReturnLow(_)
            | Place::ReturnHigh(_)
            | Place::ReturnBank
            | Place::BranchOffset
            | Place::BreakOperand
            | Place::InterruptFirstCycle
            | Place::InterruptCycle
            | Place::BlockDestination
            | Place::BlockSource
            | Place::BlockRead
            | Place::WaitFirstCycle
            | Place::WaitCycle
            | Place::Waiting
            | Place::Stopped
            | Place::Ended => false,
        }
    }
}
