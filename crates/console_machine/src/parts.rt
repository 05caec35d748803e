// The parts of a console side, and its runs of steps that touch no port and emit nothing.
ghost use Rattle.std.specs.Prelude.{◌≡◌, ◌<◌, ◌≤◌, ◌+◌, ◌*◌, ◌^◌, ◌++◌, false, IsTrue, length};
ghost use Rattle.snes_defs.specs.declared.ports.Side.TheVariants.{Console};
ghost use Rattle.clock_ratio.specs.Stamp.{least_of, most_of, rate_of};
ghost use Rattle.side_law.specs.Moves.{IsAtPorts, taken};
ghost use Rattle.beam.specs.Places.{clocks_left};
ghost use Rattle.console_steps.specs.ConsoleState.{ConsoleState, act_of, due_of, console_after, bytes_after};
ghost use Rattle.console_machine.specs.Side.{IsSome, StandsAt};
ghost use Rattle.console_machine.specs.Silent.{IsSilent, IsSilentStep};

use crate::acts::due_act;
use crate::many_steps::look_for_rounds;
use crate::patience::Patience;
use crate::step::{make_step, try_make};
use circular_buffer::HeapCircularBuffer;
use clock_ratio::{CONSOLE_RATE, PAL_CONSOLE_RATE};
use console_bus::Bus;
use cpu65816::Cpu;
use snes_defs::{Act, LINE_CLOCKS, Region};

/// The parts of a console side: processor, bus, region, stamp and emitted bytes.
#[derive(Drop)]
pub struct Parts {
    /// The processor.
    pub cpu: Cpu,
    /// All else on its bus.
    pub bus: Bus,
    /// The television standard.
    pub region: Region,
    /// The stamp of the next step.
    pub stamp: u64,
    /// The emitted bytes that are buffered.
    pub waiting: HeapCircularBuffer<u8>,
    /// When to search for an idle loop.
    pub patience: Patience,
}

/// Returns the stamps of a step's master clocks.
#[inline(always)]
fn stamps(region: Region, clocks: u8) -> u64
    requires least { 6 ≤ clocks }
    requires most { clocks ≤ 40 }
    ensures value { result ≡ rate_of region Console * clocks }
    ensures least { least_of region ≤ result }
    ensures most { result ≤ most_of region }
    ensures small { result ≤ 4096000 }
{
    match region {
        Region::Ntsc => CONSOLE_RATE * clocks as u64,
        Region::Pal => PAL_CONSOLE_RATE * clocks as u64,
    }
}

/// Returns the stamps of at most a line's master clocks.
#[inline(always)]
pub(crate) fn line_stamps(region: Region, clocks: u16) -> u64
    requires { clocks ≤ 1364 }
    ensures value { result ≡ rate_of region Console * clocks }
    ensures most { result ≤ rate_of region Console * 1364 }
    ensures small { result ≤ 139673600 }
{
    match region {
        Region::Ntsc => CONSOLE_RATE * clocks as u64,
        Region::Pal => PAL_CONSOLE_RATE * clocks as u64,
    }
}

impl Parts {
    ghost use Rattle.console_machine.specs.Parts.{value_of};

    /// Returns what the next step does at the ports.
    #[inline(always)]
    pub fn act(&self) -> Act
        ensures at_ports { IsAtPorts result }
        ensures value { (w : ConsoleState) → StandsAt (value_of self.now) w → act_of w.rest (due_of w) ≡ result }
    {
        due_act(&self.cpu, &self.bus)
    }

    /// Returns the stamp at which the beam comes to its next place.
    #[inline(always)]
    pub fn goal(&self) -> u64
        requires { self.now.stamp ≤ 2 ^ 62 }
        ensures { result ≡ self.now.stamp + rate_of self.now.region Console * clocks_left self.now.bus.beam }
    {
        self.stamp + line_stamps(self.region, self.bus.clocks_left())
    }

    /// Runs the next step. `got` is the incoming byte of the port if the step reads one.
    #[inline(always)]
    pub fn step(&mut self, got: u8)
        requires room { length self.old.waiting.items + 1024 ≤ self.old.waiting.capacity }
        requires early { self.old.stamp ≤ 2 ^ 62 }
        ensures next { (w : ConsoleState) → StandsAt (value_of self.old) w
            → StandsAt (value_of self.new) (console_after w (due_of w) (taken (act_of w.rest (due_of w)) got)) }
        ensures emits { (w : ConsoleState) → StandsAt (value_of self.old) w
            → self.new.waiting.items ≡ self.old.waiting.items
            ++ bytes_after w (due_of w) (taken (act_of w.rest (due_of w)) got) }
        ensures rises { self.old.stamp + least_of self.old.region ≤ self.new.stamp }
        ensures rises_at_most { self.new.stamp ≤ self.old.stamp + most_of self.old.region }
        ensures region { self.new.region ≡ self.old.region }
        ensures capacity { self.new.waiting.capacity ≡ self.old.waiting.capacity }
        ensures few { length self.new.waiting.items ≤ length self.old.waiting.items + 1024 }
    {
        let clocks = make_step(&mut self.cpu, &mut self.bus, &mut self.waiting, got);
        self.stamp += stamps(self.region, clocks);
    }

    /// Runs the next step if a fast check shows that it touches no port and emits nothing, and returns whether it did.
    /// Otherwise nothing has changed.
    #[inline(always)]
    fn try_step(&mut self) -> bool
        requires early { self.old.stamp ≤ 2 ^ 62 }
        ensures made { IsTrue result → (w : ConsoleState) → StandsAt (value_of self.old) w
            → IsSilentStep (value_of self.new) w }
        ensures keeps { IsSome (value_of self.old) → IsSome (value_of self.new) }
        ensures rises { IsTrue result → self.old.stamp < self.new.stamp }
        ensures region { self.new.region ≡ self.old.region }
        ensures waiting { self.new.waiting ≡ self.old.waiting }
        ensures stays { result ≡ false → value_of self.new ≡ value_of self.old }
    {
        match try_make(&mut self.cpu, &mut self.bus) {
            Some(clocks) => {
                self.stamp += stamps(self.region, clocks);
                true
            }
            None => false,
        }
    }

    /// Runs steps one by one, each begun before a stamp, as long as a fast check shows that they touch no port and emit
    /// nothing: bytes of transfers up to the last one, or accesses of the processor.
    #[inline(never)]
    pub fn hasten(&mut self, until: u64)
        requires early { until ≤ 2 ^ 62 }
        ensures gone { (w : ConsoleState) → StandsAt (value_of self.old) w → IsSilent until (value_of self.new) w }
        ensures keeps { IsSome (value_of self.old) → IsSome (value_of self.new) }
        ensures forward { self.old.stamp ≤ self.new.stamp }
        ensures region { self.new.region ≡ self.old.region }
        ensures waiting { self.new.waiting ≡ self.old.waiting }
    {
        let busy = self.bus.is_busy();
        'steps: while self.stamp < until {
            if self.bus.is_busy() != busy {
                return;
            }
            if !self.try_step() {
                return;
            }
        }
    }

    /// Searches for an idle loop, and runs rounds of one that it finds, if nothing else is due and a stamp is at least
    /// a line away. So each step begins before it.
    #[inline(always)]
    pub fn look_on(&mut self, until: u64)
        requires early { until ≤ 2 ^ 62 }
        ensures gone { (w : ConsoleState) → StandsAt (value_of self.old) w → IsSilent until (value_of self.new) w }
        ensures keeps { IsSome (value_of self.old) → IsSome (value_of self.new) }
        ensures forward { self.old.stamp ≤ self.new.stamp }
        ensures region { self.new.region ≡ self.old.region }
        ensures waiting { self.new.waiting ≡ self.old.waiting }
        ensures early { self.old.stamp ≤ until → self.new.stamp ≤ until }
    {
        if self.bus.is_busy() {
            return;
        }
        if until
            < self
                .stamp
                .saturating_add(line_stamps(self.region, LINE_CLOCKS))
        {
            return;
        }
        let clocks = look_for_rounds(&mut self.cpu, &mut self.bus, &mut self.patience);
        self.stamp += line_stamps(self.region, clocks);
    }
}
