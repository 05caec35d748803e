ghost use Rattle.std.specs.Prelude.{◌^◌};
ghost use Rattle.cpu65816.specs.Instruction.{CpuState};
ghost use Rattle.cpu65816.specs.Stands.{Stands};
ghost use Rattle.processor_laws.specs.FlatCpu.{after_access};

use super::Processor;
use cpu_tables::Access;
use cpu65816::Cpu;

impl Processor for Cpu {
    ghost State = { CpuState };

    ghost size = { 2 ^ 24 };

    ghost stands = { Stands };

    ghost after_access = { after_access };

    #[inline(always)]
    fn step(&mut self, memory: &mut [u8]) {
        match self.next() {
            Access::Fetch(at) => {
                let byte = memory[at as usize];
                self.took(byte);
            }
            Access::Read(at) => {
                let byte = memory[at as usize];
                self.took(byte);
            }
            Access::Write(at, byte) => {
                memory[at as usize] = byte;
                self.wrote();
            }
            Access::Inner => self.idle(),
        }
    }
}
