// The console side, and the trait `Machine` for it.
ghost use Rattle.std.specs.Prelude.{◌≡◌, ◌≤◌, [], IfOk};
ghost use Rattle.console_steps.specs.ConsoleState.{console_start};
ghost use Rattle.console_machine.specs.Side.{IsSome, StandsAt};

use crate::advance::CAPACITY;
use crate::parts::Parts;
use crate::patience::Patience;
use circular_buffer::HeapCircularBuffer;
use console_bus::Bus;
use cpu65816::Cpu;
use side_law::{Machine, Ports, Stop};
use snes_defs::{Act, Job, NoMemory, Region};
use std::alloc::Global;
use std::marker::Model;

mod copy;

/// The console side: the 65C816, the PPU, the cartridge and the transfers, as one machine of the two.
#[derive(Drop)]
pub struct ConsoleSide {
    parts: Parts,
}

impl Model for ConsoleSide {
    ghost use Rattle.std.specs.Prelude.{◌≡◌, ◌≤◌, length};
    ghost use Rattle.console_machine.specs.Parts.{value_of};
    ghost use Rattle.console_machine.specs.Side.{ConsoleValue, IsSome};

    ghost Value = { ConsoleValue };

    ghost view = { λ c. value_of c.parts };

    ghost invariant = { λ c. IsSome (value_of c.parts) × (c.parts.waiting.capacity ≡ 65536)
        × (length c.parts.waiting.items ≤ 65536) };
}

impl ConsoleSide {
    /// Returns the console side of a job before its first step. Allocates all its memory here, and fails only if
    /// allocation fails.
    pub fn new(alloc: Global, job: &Job) -> Result<ConsoleSide, NoMemory>
        ensures starts { IfOk result (λ c. StandsAt c (console_start job.now.cart job.now.script job.now.region)) }
        ensures empty { IfOk result (λ c. c.waiting ≡ []) }
    {
        let bus = Bus::new(alloc, &job.cart, &job.script, job.region)?;
        let Ok(waiting) = HeapCircularBuffer::with_capacity(alloc, CAPACITY) else {
            return Err(NoMemory);
        };
        Ok(ConsoleSide {
            parts: Parts {
                cpu: Cpu::new(),
                bus,
                region: job.region,
                stamp: 0,
                waiting,
                patience: Patience::full(),
            },
        })
    }

    /// Returns the processor, for reading what it does next.
    pub fn processor(&self) -> &Cpu
        ensures { result.now ≡ self.now.cpu }
    {
        &self.parts.cpu
    }

    /// Returns all else on the processor's bus, for reading what is due there.
    pub fn bus(&self) -> &Bus
        ensures { result.now ≡ self.now.rest }
    {
        &self.parts.bus
    }

    /// The value stands for some console state.
    #[inline(always)]
    fn standing(&self)
        ensures { IsSome self.now }
    {
        let _stamp = self.parts.stamp;
    }
}

impl Machine for ConsoleSide {
    ghost use Rattle.std.specs.Prelude.{◌*◌};
    ghost use Rattle.std.proofs.Common.{rules};
    ghost use Rattle.console_steps.specs.ConsoleState.{ConsoleState, console_moves};
    ghost use Rattle.console_machine.specs.Side.{IsConsoleOf, StandsAt};
    ghost use Rattle.console_machine.specs.SideLaws.{console_is_lawful};
    ghost use Rattle.console_machine.specs.AfterStep.{stamp_stands};

    const CAP: usize = 65_536;

    const MOST: usize = 1024;

    ghost CAP = { 65536 };

    ghost MOST = { 1024 };

    ghost State = { ConsoleState };

    ghost valid = { IsConsoleOf };

    ghost moves = { console_moves };

    ghost stands = { StandsAt };

    ghost region_of = { λ c. c.region };

    ghost stamp_of = { λ c. c.stamp };

    ghost waiting = { λ c. c.waiting };

    #[inline(always)]
    fn region(&self) -> Region {
        self.parts.region
    }

    #[tactic(auto, using(crate::specs::AfterStep::stamp_stands))]
    #[inline(always)]
    fn stamp(&self) -> u64 {
        self.standing();
        self.parts.stamp
    }

    #[inline(always)]
    fn act(&self) -> Act {
        self.parts.act()
    }

    #[inline(always)]
    fn step(&mut self, got: u8) {
        self.parts.step(got);
    }

    #[inline(always)]
    fn advance<P: Ports>(&mut self, until: u64, ports: &mut P) -> Stop {
        self.parts.advance(until, ports)
    }

    #[inline(always)]
    fn pending(&self) -> usize {
        self.parts.waiting.len()
    }

    #[inline(always)]
    fn pieces(&self) -> (&[u8], &[u8]) {
        self.parts.waiting.as_slices()
    }

    #[inline(always)]
    fn forget(&mut self) {
        self.parts.waiting.clear();
    }

    fn drain(&mut self, into: &mut [u8]) -> usize {
        self.parts.waiting.read_into(into)
    }

    ghost stands_valid = { λ x m h. h.console };

    ghost stands_stamp = { stamp_stands };

    ghost lawful = { console_is_lawful };
}
