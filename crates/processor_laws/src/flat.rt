//! Runs a processor over a memory and nothing else.
//!
//! The module shows that a processor which stops before each access composes with what it accesses.
//! `Processor` is the trait of such a processor: its state, which only proofs know, and what an access
//! makes of that state and of the bytes of a memory. `run` promises that a run of n accesses is the
//! model's (`specs/Flat.antt`), for every state that the processor stands for.
//!
//! The two processors are the 65C816 of `cpu65816` over 16 megabytes (`specs/FlatCpu.antt`) and the
//! SPC700 of `spc700` over 64 KiB (`specs/FlatSpc.antt`).
ghost use Rattle.std.specs.Prelude.{◌≡◌, ℕ, length};
ghost use Rattle.processor_laws.specs.Flat.{Flat, run};

mod cpu;
mod spc;

/// A processor that makes its accesses one by one, each at a memory of one size.
pub trait Processor {
    // What it is between two accesses.
    ghost State: { Type 0 };

    // How many bytes its memory has.
    ghost size: { ℕ };

    // The value is a processor in this state.
    ghost stands: { Self → State → Type 0 };

    // A state and the bytes of a memory after one access more.
    ghost after_access: { Flat State → Flat State };

    /// Makes one access: a fetch and a read get the byte of the memory, a write changes it.
    fn step(&mut self, memory: &mut [u8])
        requires { length memory.old ≡ size }
        ensures processor { (s : State) → stands self.old s
            → stands self.new (after_access (record { processor = s; bytes = memory.old })).processor }
        ensures bytes { (s : State) → stands self.old s
            → memory.new ≡ (after_access (record { processor = s; bytes = memory.old })).bytes };
}

/// Makes the given number of accesses.
pub fn run<P: Processor>(processor: &mut P, memory: &mut [u8], accesses: u64)
    requires { length memory.old ≡ P.size }
    ensures processor { (s : P.State) → P.stands processor.old s
        → P.stands processor.new (run P.after_access accesses (record { processor = s; bytes = memory.old })).processor }
    ensures bytes { (s : P.State) → P.stands processor.old s
        → memory.new ≡ (run P.after_access accesses (record { processor = s; bytes = memory.old })).bytes }
{
    'accesses: for _ in 0..accesses {
        processor.step(memory);
    }
}
