// Whole instructions one after another.
ghost use Rattle.std.specs.Prelude.{◌≡◌, false};
ghost use Rattle.whole_instructions.specs.Runs.{GoesWhole, IsRun};

use crate::instruction::instruction;
use crate::standing::stand_before;
use console_bus::Bus;
use cpu_tables::Regs;
use cpu65816::Cpu;

/// More instructions than a line has room for.
const MOST_INSTRUCTIONS: u16 = 256;

/// Makes instructions one after another, until one can't be made whole. No clause says how many.
#[inline(always)]
fn run(regs: &mut Regs, bus: &mut Bus)
    ensures { IsRun regs.old regs.new bus.old bus.new }
{
    'instructions: for _ in 0..MOST_INSTRUCTIONS {
        if !instruction(regs, bus) {
            return;
        }
    }
}

/// Makes whole instructions, if an instruction has ended and the interrupt lines bring no interrupt. Each ends before
/// the beam's next place, and accesses the memory alone, or writes a byte to a register of the B bus. If the data of
/// the one after them is no memory, it makes the accesses before that. The clause says that the console's own steps lead
/// to where this leaves it. No clause says how many instructions are made.
#[tactic(auto, using(crate::proofs::Wholes::goes_nowhere))]
#[inline(always)]
pub fn make_whole(cpu: &mut Cpu, bus: &mut Bus)
    ensures { GoesWhole cpu.old cpu.new bus.old bus.new }
{
    let Some(first) = cpu.rested() else {
        return;
    };
    let mut micro = first;
    run(&mut micro.here, bus);
    if stand_before(&mut micro, bus) {
        cpu.go_on_from(micro, false);
        return;
    }
    cpu.go_on_from(micro, true);
}
