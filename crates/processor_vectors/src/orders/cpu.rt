use super::cycle::{Kind, State};
use super::row::Width;
use super::trial::{Begin, Processor};
use cpu_tables::{Access, Regs};
use cpu65816::Cpu;

/// A state of the 65C816 in which an instruction is run, and the byte that its accesses get after the opcode. The
/// numbers are such that one of these six decides each condition of the page.
#[derive(Clone, Copy)]
pub(crate) struct CpuState {
    emulation: bool,
    /// M and X, which are set in emulation mode.
    narrow_a: bool,
    narrow_index: bool,
    /// The low byte of D isn't 0.
    low_d: bool,
    /// N, V, Z and C are set.
    flags: bool,
    /// Each byte is 01: an index of FF added to it leaves the page, and so does a branch by it. Else 00, and none does.
    leaves: bool,
}

impl CpuState {
    /// Returns the state of a number below 64. In emulation mode M and X are 1 whatever it says.
    fn numbered(number: u8) -> CpuState {
        let emulation = number % 2 == 1;
        CpuState {
            emulation,
            narrow_a: emulation || number / 2 % 2 == 1,
            narrow_index: emulation || number / 4 % 2 == 1,
            low_d: number / 8 % 2 == 1,
            flags: number / 16 % 2 == 1,
            leaves: number / 32 % 2 == 1,
        }
    }

    fn status(&self) -> u8 {
        let flags = if self.flags { 0xc3 } else { 0 };
        let narrow_a = if self.narrow_a { 0x20 } else { 0 };
        let narrow_index = if self.narrow_index { 0x10 } else { 0 };
        flags + narrow_a + narrow_index
    }

    /// Returns the registers. An instruction at 80FD with one byte of operand ends at the last byte of its page.
    fn registers(&self) -> Regs {
        let index = if self.narrow_index { 0x00ff } else { 0x10ff };
        Regs {
            a: 0,
            x: index,
            y: index,
            s: 0x01f0,
            d: u16::from(self.low_d),
            pc: 0x80fd,
            pbr: 0,
            dbr: 0,
            p: self.status(),
            e: self.emulation,
        }
    }
}

impl State for CpuState {
    fn is_wide(&self, width: Width) -> bool {
        match width {
            Width::None => false,
            Width::M => !self.narrow_a,
            Width::X => !self.narrow_index,
        }
    }

    fn holds(&self, condition: &str, _opcode: u8) -> Option<bool> {
        Some(match condition {
            "D" => self.low_d,
            "X" => !self.narrow_index || self.leaves,
            "native" => !self.emulation,
            "clear" => !self.flags,
            "set" => self.flags,
            "crossing" => self.emulation && self.leaves,
            "clear and crossing" => !self.flags && self.emulation && self.leaves,
            "set and crossing" => self.flags && self.emulation && self.leaves,
            _ => return None,
        })
    }
}

/// The 65C816 in an instruction that began with these registers.
#[derive(Drop)]
pub(crate) struct CpuRun {
    cpu: Cpu,
    start: Regs,
    byte: u8,
    /// Whether this is a reset, which the registers at the start don't show.
    is_reset: bool,
}

impl Processor for CpuRun {
    type State = CpuState;

    const STATES: u8 = 64;

    fn state(number: u8) -> CpuState {
        CpuState::numbered(number)
    }

    fn begun(state: &CpuState, begin: Begin) -> CpuRun {
        let is_reset = begin == Begin::Reset;
        let mut cpu = if is_reset {
            Cpu::new()
        } else {
            Cpu::between(state.registers())
        };
        match begin {
            Begin::Opcode(opcode) => make(&mut cpu, opcode),
            Begin::Nmi => cpu.signal(true, false),
            Begin::Irq => cpu.signal(false, true),
            Begin::Reset => {}
        }
        let start = cpu.regs();
        CpuRun {
            cpu,
            start,
            byte: u8::from(state.leaves),
            is_reset,
        }
    }

    fn kind(&self) -> Kind {
        match self.cpu.next() {
            Access::Fetch(_) => Kind::Fetch,
            Access::Read(_) => Kind::Read,
            Access::Write(_, _) => Kind::Write,
            Access::Inner => Kind::Internal,
        }
    }

    fn go_on(&mut self) {
        make(&mut self.cpu, self.byte);
    }

    fn is_under_way(&self) -> bool {
        self.cpu.regs() == self.start
    }

    fn has_ended(&self) -> bool {
        self.is_reset || self.cpu.regs() != self.start
    }
}

/// Makes the next access; a read gets this byte.
fn make(cpu: &mut Cpu, byte: u8) {
    match cpu.next() {
        Access::Fetch(_) | Access::Read(_) => cpu.took(byte),
        Access::Write(_, _) => cpu.wrote(),
        Access::Inner => cpu.idle(),
    }
}
