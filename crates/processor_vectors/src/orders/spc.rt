use super::cycle::{Kind, State};
use super::row::Width;
use super::trial::{Begin, Processor};
use spc_tables::{SpcAccess, SpcRegs};
use spc700::Spc;

/// A state of the SPC700 in which an instruction is run, and the byte that its accesses get after the opcode.
#[derive(Clone, Copy)]
pub(crate) struct SpcState {
    /// N, V, Z and C are set.
    flags: bool,
    /// Y is 1, so that it is 0 when it is counted down; else it is 2.
    last: bool,
    /// The byte: 00, 01 or FF. A is 0.
    byte: u8,
}

impl State for SpcState {
    fn is_wide(&self, _width: Width) -> bool {
        false
    }

    fn holds(&self, condition: &str, opcode: u8) -> Option<bool> {
        let bit = self.byte >> (opcode / 32) & 1 == 1;
        Some(match condition {
            "clear" => !self.flags,
            "set" => self.flags,
            "bit" => bit,
            "no bit" => !bit,
            "other" => self.byte != 0,
            "left" => self.byte != 1,
            "Y left" => !self.last,
            _ => return None,
        })
    }
}

/// The SPC700 in an instruction that began with these registers.
#[derive(Drop)]
pub(crate) struct SpcRun {
    spc: Spc,
    start: SpcRegs,
    byte: u8,
}

impl Processor for SpcRun {
    type State = SpcState;

    const STATES: u8 = 12;

    fn state(number: u8) -> SpcState {
        SpcState {
            flags: number % 2 == 1,
            last: number / 2 % 2 == 1,
            byte: match number / 4 {
                0 => 0,
                1 => 1,
                _ => 0xff,
            },
        }
    }

    fn begun(state: &SpcState, begin: Begin) -> SpcRun {
        let start = SpcRegs {
            a: 0,
            x: 1,
            y: if state.last { 1 } else { 2 },
            sp: 0xf0,
            pc: 0x0400,
            psw: if state.flags { 0xc3 } else { 0 },
        };
        let mut spc = Spc::at(start);
        if let Begin::Opcode(opcode) = begin {
            make(&mut spc, opcode);
        }
        SpcRun {
            spc,
            start,
            byte: state.byte,
        }
    }

    fn kind(&self) -> Kind {
        match self.spc.next() {
            SpcAccess::Fetch(_) => Kind::Fetch,
            SpcAccess::Read(_) => Kind::Read,
            SpcAccess::Write(_, _) => Kind::Write,
            SpcAccess::Inner => Kind::Internal,
        }
    }

    fn go_on(&mut self) {
        make(&mut self.spc, self.byte);
    }

    fn is_under_way(&self) -> bool {
        self.spc.regs() == self.start
    }

    fn has_ended(&self) -> bool {
        self.spc.regs() != self.start
    }
}

/// Makes the next access; a read gets this byte.
fn make(spc: &mut Spc, byte: u8) {
    match spc.next() {
        SpcAccess::Fetch(_) | SpcAccess::Read(_) => spc.took(byte),
        SpcAccess::Write(_, _) => spc.wrote(),
        SpcAccess::Inner => spc.idle(),
    }
}
