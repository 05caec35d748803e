// The first access after an instruction's opcode, or of an interrupt.
ghost use Rattle.std.specs.Prelude.{◌≡◌, ◌<◌, false};
ghost use Rattle.cpu_modes.specs.Orders.{vector};

use crate::address::is_wide;
use crate::micro::Micro;
use crate::place::{DirectKind, Direction, OperandKind, Place, ReturnKind, TargetKind, Traffic};
use crate::uses::{Cause, Use, Width, use_of};
use cpu_tables::Mode;

/// Returns the address of a cause's vector, in bank 0.
#[inline(always)]
fn vector(cause: Cause, e: bool) -> u32
    ensures exact { result ≡ vector cause e }
    ensures within { result < 65536 }
{
    match cause {
        Cause::Coprocessor => { if e { 0xFFF4 } else { 0xFFE4 } }
        Cause::Break => { if e { 0xFFFE } else { 0xFFE6 } }
        Cause::Nmi => { if e { 0xFFFA } else { 0xFFEA } }
        Cause::Irq => { if e { 0xFFFE } else { 0xFFEE } }
    }
}

impl Micro {
    ghost use Rattle.cpu_modes.specs.Orders.{by_mode, call_order, data_of, jump_kind, operand, order};
    ghost use Rattle.cpu_modes.specs.Remaining.{Keeps, remaining};

    /// Begins an operation with data, by its addressing mode.
    #[inline(always)]
    pub(crate) fn enter_mode(&mut self)
        ensures left { remaining self.new ≡ by_mode self.old.row.mode self.old.traffic self.old.row self.old.here }
        ensures keeps { Keeps false self.new }
        ensures start { self.new.start ≡ self.old.start }
    {
        self.word = 0;
        match self.row.mode {
            Mode::Immediate => self.to_immediate(),
            Mode::Direct => self.to_fetch(Place::DirectOffset(DirectKind::Plain)),
            Mode::DirectX => self.to_fetch(Place::DirectOffset(DirectKind::X)),
            Mode::DirectY => self.to_fetch(Place::DirectOffset(DirectKind::Y)),
            Mode::DirectPointer => self.to_fetch(Place::DirectOffset(DirectKind::Pointer)),
            Mode::DirectXPointer => self.to_fetch(Place::DirectOffset(DirectKind::XPointer)),
            Mode::DirectPointerY => self.to_fetch(Place::DirectOffset(DirectKind::PointerY)),
            Mode::DirectLongPointer => self.to_fetch(Place::DirectOffset(DirectKind::LongPointer)),
            Mode::DirectLongPointerY => self.to_fetch(Place::DirectOffset(
                DirectKind::LongPointerY,
            )),
            Mode::Absolute => self.to_fetch(Place::OperandLow(OperandKind::Plain)),
            Mode::AbsoluteX => self.to_fetch(Place::OperandLow(OperandKind::X)),
            Mode::AbsoluteY => self.to_fetch(Place::OperandLow(OperandKind::Y)),
            Mode::Long => self.to_fetch(Place::OperandLow(OperandKind::Long)),
            Mode::LongX => self.to_fetch(Place::OperandLow(OperandKind::LongX)),
            Mode::StackRelative => self.to_fetch(Place::StackOffset),
            Mode::StackPointerY => self.to_fetch(Place::StackPointerOffset),
            Mode::AbsolutePointer
            | Mode::AbsoluteXPointer
            | Mode::AbsoluteLongPointer
            | Mode::Relative
            | Mode::RelativeLong
            | Mode::Accumulator
            | Mode::Implied
            | Mode::Stack
            | Mode::BlockMove => self.to_idle(Place::LastCycle),
        }
    }

    /// Begins a jump, by its addressing mode.
    #[inline(always)]
    pub(crate) fn enter_jump(&mut self)
        ensures left { remaining self.new ≡ operand (jump_kind self.old.row.mode) self.old.traffic self.old.row self.old.here }
        ensures keeps { Keeps false self.new }
        ensures start { self.new.start ≡ self.old.start }
    {
        let kind = match self.row.mode {
            Mode::Long => OperandKind::JumpLong,
            Mode::AbsolutePointer => OperandKind::JumpPointer,
            Mode::AbsoluteXPointer => OperandKind::JumpXPointer,
            Mode::AbsoluteLongPointer => OperandKind::JumpLongPointer,
            _ => OperandKind::Jump,
        };
        self.to_fetch(Place::OperandLow(kind));
    }

    /// Begins a call, by its addressing mode.
    #[inline(always)]
    pub(crate) fn enter_call(&mut self)
        ensures left { remaining self.new ≡ call_order self.old.row.mode self.old.traffic self.old.row self.old.here }
        ensures keeps { Keeps false self.new }
        ensures start { self.new.start ≡ self.old.start }
    {
        match self.row.mode {
            Mode::AbsoluteXPointer => self.to_fetch(Place::CallPointerLow),
            _ => self.to_fetch(Place::OperandLow(OperandKind::Call)),
        }
    }

    /// Sets the direction and the width of an operation's data.
    #[inline(always)]
    pub(crate) fn with_data(&mut self, direction: Direction, width: Width)
        ensures data_set { self.new ≡ record self.old { traffic = data_of direction width self.old.here } }
    {
        let wide = is_wide(width, &self.here);
        self.traffic = Traffic { direction, wide };
    }

    /// Begins the accesses that follow the opcode, as the row has them.
    #[inline(always)]
    pub fn enter(&mut self)
        ensures left { remaining self.new ≡ order self.old.row self.old.here }
        ensures keeps { Keeps false self.new }
        ensures start { self.new.start ≡ self.old.start }
    {
        self.traffic = Traffic {
            direction: Direction::Load,
            wide: false,
        };
        match use_of(self.row.op) {
            Use::Load(width) => {
                self.with_data(Direction::Load, width);
                self.enter_mode();
            }
            Use::Store(width) => {
                self.with_data(Direction::Store, width);
                self.enter_mode();
            }
            Use::Change(width) => {
                self.with_data(Direction::Change, width);
                self.enter_mode();
            }
            Use::Internal => {
                self.word = 0;
                self.to_idle(Place::LastCycle);
            }
            Use::Exchange => {
                self.word = 0;
                self.to_idle(Place::TwoCycles);
            }
            Use::Status => self.to_fetch(Place::StatusOperand),
            Use::Reserved => self.to_fetch(Place::OperandByte),
            Use::Push(width) => {
                self.with_data(Direction::Store, width);
                self.word = 0;
                self.to_idle(Place::PushCycle);
            }
            Use::Pull(width) => {
                self.with_data(Direction::Load, width);
                self.to_idle(Place::PullFirstCycle);
            }
            Use::PushOperand => self.to_fetch(Place::OperandLow(OperandKind::Pushed)),
            Use::PushDirect => self.to_fetch(Place::DirectOffset(DirectKind::Pushed)),
            Use::PushRelative => {
                self.with_data(Direction::Store, Width::Word);
                self.to_fetch(Place::OperandLow(OperandKind::PushedRelative));
            }
            Use::Jump => self.enter_jump(),
            Use::Call => self.enter_call(),
            Use::CallLong => self.to_fetch(Place::OperandLow(OperandKind::CallLong)),
            Use::Return => self.to_idle(Place::ReturnFirstCycle(ReturnKind::Near)),
            Use::ReturnLong => self.to_idle(Place::ReturnFirstCycle(ReturnKind::Far)),
            Use::ReturnInterrupt => self.to_idle(Place::ReturnFirstCycle(ReturnKind::Interrupt)),
            Use::Branch => self.to_fetch(Place::BranchOffset),
            Use::BranchLong => self.to_fetch(Place::OperandLow(OperandKind::BranchLong)),
            Use::Software(cause) => {
                self.base = vector(cause, self.here.e);
                self.to_fetch(Place::BreakOperand);
            }
            Use::Hardware(cause) => {
                self.base = vector(cause, self.here.e);
                self.to_idle(Place::InterruptFirstCycle);
            }
            Use::BlockMove => self.to_fetch(Place::BlockDestination),
            Use::Wait => self.to_idle(Place::WaitFirstCycle),
            Use::Stop => self.to_idle(Place::Stopped),
            Use::Reset => {
                self.base = 0xFFFC;
                self.to_read(Place::TargetLow(TargetKind::Near));
            }
        }
    }
}
