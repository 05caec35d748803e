ghost use Rattle.std.specs.Prelude.{◌≡◌};
ghost use Rattle.spc_modes.specs.Orders.{vector};

use crate::address::direct_place;
use crate::micro::Micro;
use crate::place::Place;
use crate::uses::{Use, use_of};
use spc_alu::{counted_down, is_taken, stored_byte};
use spc_tables::SpcMode;

/// The address in memory of the target of a call by a vector.
#[inline(always)]
fn vector_place(mode: SpcMode) -> u16
    ensures { result ≡ vector mode }
{
    match mode {
        SpcMode::VectorTable(number) => 0xFFDE - 2 * number as u16,
        _ => 0xFFDE,
    }
}

impl Micro {
    ghost use Rattle.spc_modes.specs.Orders.{by_mode, order, order_by};
    ghost use Rattle.spc_modes.specs.Remaining.{remaining};

    /// Begins the accesses of an operation with operands.
    #[inline(always)]
    pub(crate) fn enter_mode(&mut self)
        ensures left { remaining self.new ≡ by_mode self.old.row.mode self.old.row self.old.here }
        ensures start { self.new.start ≡ self.old.start }
    {
        match self.row.mode {
            SpcMode::Accumulator => self.pass_inside(1),
            SpcMode::IndirectX => {
                self.base = direct_place(&self.here, self.here.x as u16);
                self.place = Place::DataCycle;
            }
            SpcMode::IndirectXIncrement => {
                self.base = direct_place(&self.here, self.here.x as u16);
                self.place = Place::IncrementCycle;
            }
            SpcMode::IndirectXIndirectY => {
                self.base = direct_place(&self.here, self.here.y as u16);
                self.place = Place::IndirectPairCycle;
            }
            SpcMode::YRelative => {
                self.here.y = counted_down(self.here.y);
                self.place = Place::BranchFirstCycle(self.here.y != 0);
            }
            _ => self.place = Place::FirstByte,
        }
    }

    /// Begins the row's accesses after the opcode.
    #[inline(always)]
    pub fn enter(&mut self)
        ensures left { remaining self.new ≡ order self.old.row self.old.here }
        ensures start { self.new.start ≡ self.old.start }
    {
        match use_of(self.row.op) {
            Use::Internal(cycles) => self.pass_inside(cycles),
            Use::Branch => {
                self.place = Place::BranchDistance(is_taken(self.row.op, self.here.psw));
            }
            Use::VectorCall => {
                self.base = vector_place(self.row.mode);
                self.place = Place::CallFirstCycle;
            }
            Use::Break => {
                self.base = 0xFFDE;
                self.place = Place::CallCycle;
            }
            Use::Push => {
                self.byte = stored_byte(self.row.op, self.here);
                self.place = Place::PushCycle;
            }
            Use::Pull => self.place = Place::PullFirstCycle,
            Use::Return => self.place = Place::PullFirstCycle,
            Use::ReturnInterrupt => self.place = Place::PullFirstCycle,
            Use::Halt => self.place = Place::Halted,
            _ => self.enter_mode(),
        }
    }
}
