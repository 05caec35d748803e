ghost use Rattle.std.specs.Prelude.{◌≡◌, ◌≤◌, ℕ, Ok, Err, IfOk};
ghost use Rattle.input_files.specs.Plan.{plan_of, frames_in, NamesBelow};

use crate::planning::Planning;
use bstr::ByteSlice;
use snes_defs::Region;
use std::alloc::Global;
use std::marker::Model;

/// A step of a plan.
#[derive(Clone, Copy)]
pub enum PlanStep {
    /// Plays `count` frames with these pads.
    Go { count: u32, pad1: u16, pad2: u16 },
    /// Keeps the present moment in a slot, 0 to 7, as a save state.
    Keep(u8),
    /// Goes back to the moment that a slot holds.
    Back(u8),
    /// Presses the reset button at the present moment.
    Reset,
}

/// The plan of a rewinder: the region of its console, and its steps, in order.
#[derive(Drop)]
pub struct Plan {
    region: Region,
    steps: Vec<PlanStep>,
}

impl Model for Plan {
    ghost use Rattle.std.specs.Prelude.{◌≤◌};
    ghost use Rattle.input_files.specs.Plan.{PlanValue, frames_in, NamesBelow};

    ghost Value = { PlanValue };

    ghost view = { λ p. record { region = p.region; steps = p.steps.items } };

    ghost invariant = { λ p. (frames_in p.steps.items ≤ 36000) × NamesBelow 8 p.steps.items };
}

impl Plan {
    /// A plan of these steps. Nothing is allocated.
    pub(crate) fn of(region: Region, steps: Vec<PlanStep>) -> Plan
        requires few { frames_in steps.items ≤ 36000 }
        requires slots { NamesBelow 8 steps.items }
        ensures { result ≡ record { region = region; steps = steps.items } }
    {
        Plan { region, steps }
    }

    /// Returns the region of the console that plays the plan.
    pub fn region(&self) -> Region
        ensures { result ≡ self.now.region }
    {
        self.region
    }

    /// Returns the steps, in order. Its goes last at most 36,000 frames, and its slots are below 8.
    pub fn steps(&self) -> &[PlanStep]
        ensures all { result.now ≡ self.now.steps }
        ensures few { frames_in self.now.steps ≤ 36000 }
        ensures slots { NamesBelow 8 self.now.steps }
    {
        self.steps.as_slice()
    }
}

/// Why a plan was not read.
#[derive(Clone, Copy)]
pub enum PlanEnd {
    /// The first invalid line, by its number from 1.
    Line(u32),
    /// The allocation of its steps failed.
    NoMemory,
}

/// Reads the plan of a rewinder.
///
/// Lines end with LF or CR LF, and the last end may be missing. An empty line says nothing. The first other line may
/// be `region ntsc` or `region pal`; without it the region is NTSC. Every other line is `go COUNT PAD1 PAD2`, with the
/// fields of a script, `keep SLOT`, `back SLOT` or `reset`. A slot is a digit 0 to 7, and one or more spaces separate
/// the fields.
///
/// The first invalid line is reported by its number. Invalid is a line of none of these forms, or at which the sum of
/// the counts passes 36,000. So is a line that goes back to a slot which no line before it keeps. So is a reset before
/// the first frame of a path, or a second one at the same frame.
#[tactic(auto, unfolding(crate::specs::Plan::plan_of))]
pub fn read_plan(alloc: Global, file: &[u8]) -> Result<Plan, PlanEnd>
    ensures plan { IfOk result (λ plan. plan_of file.now ≡ Ok plan) }
    ensures refused { (line : ℕ) → result ≡ Err (PlanEnd.Line line) → plan_of file.now ≡ Err line }
{
    let mut planning = Planning::new(alloc);
    let mut number = 1u32;
    for line in file.lines() {
        planning.take(number, line)?;
        number = number.saturating_add(1);
    }
    Ok(planning.plan())
}
