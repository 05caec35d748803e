ghost use Rattle.std.specs.Prelude.{◌^◌};
ghost use Rattle.spc700.specs.Instruction.{SpcState};
ghost use Rattle.spc700.specs.Stands.{Stands};
ghost use Rattle.processor_laws.specs.FlatSpc.{after_access};

use super::Processor;
use spc700::{Spc, SpcAccess};

impl Processor for Spc {
    ghost State = { SpcState };

    ghost size = { 2 ^ 16 };

    ghost stands = { Stands };

    ghost after_access = { after_access };

    #[inline(always)]
    fn step(&mut self, memory: &mut [u8]) {
        match self.next() {
            SpcAccess::Fetch(at) => {
                let byte = memory[at as usize];
                self.took(byte);
            }
            SpcAccess::Read(at) => {
                let byte = memory[at as usize];
                self.took(byte);
            }
            SpcAccess::Write(at, byte) => {
                memory[at as usize] = byte;
                self.wrote();
            }
            SpcAccess::Inner => self.idle(),
        }
    }
}
