ghost use Rattle.std.specs.Prelude.{◌≡◌, ◌<◌, IfSome};
ghost use Rattle.input_files.specs.Plan.{region_named, slot_of};

use crate::fields::{span_of, split_word};
use crate::plan::{Plan, PlanEnd, PlanStep};
use snes_defs::{MOST_FRAMES, Region, Span};
use std::alloc::Global;
use std::marker::Model;

/// What was read of a plan up to a line.
#[derive(Drop)]
pub(crate) struct Planning {
    region: Region,
    /// A line said something.
    begun: bool,
    steps: Vec<PlanStep>,
    /// The sum of the counts.
    frames: u32,
    /// Which slots were kept.
    kept: [bool; 8],
    /// Whether the reset button may be pressed: a frame was played since the start, and since the last press.
    presses: bool,
    /// The same for the path that each slot holds.
    held: [bool; 8],
}

impl Model for Planning {
    ghost use Rattle.input_files.specs.Plan.{PlanRead};

    ghost Value = { PlanRead };

    ghost use Rattle.std.specs.Prelude.{◌≡◌, ◌≤◌};
    ghost use Rattle.input_files.specs.Plan.{frames_in, NamesBelow};

    ghost view = { λ p. record {
      region = p.region;
      begun = p.begun;
      steps = p.steps.items;
      frames = p.frames;
      kept = p.kept;
      presses = p.presses;
      held = p.held;
    } };

    ghost invariant = { λ p. (p.frames ≡ frames_in p.steps.items) × (p.frames ≤ 36000) × NamesBelow 8 p.steps.items };
}

/// The slot of one digit, 0 to 7.
fn slot_of(text: &[u8]) -> Option<u8>
    ensures slot { result ≡ slot_of text.now }
    ensures within { IfSome result (λ slot. slot < 8) }
{
    match text {
        [digit] => {
            if *digit >= b'0' && *digit <= b'7' {
                Some(*digit - b'0')
            } else {
                None
            }
        }
        _ => None,
    }
}

/// The region of a name.
fn region_of(text: &[u8]) -> Option<Region>
    ensures { result ≡ region_named text.now }
{
    if text == b"ntsc".as_slice() {
        return Some(Region::Ntsc);
    }
    if text == b"pal".as_slice() {
        return Some(Region::Pal);
    }
    None
}

impl Planning {
    ghost use Rattle.std.specs.Prelude.{◌≡◌, ℕ, Some, None, Err, OnOk};
    ghost use Rattle.input_files.specs.Plan.{no_plan, after_plan_line, after_step_line, after_region, after_plan_reset, after_go, after_keep, after_back};

    /// A plan of which nothing was read yet.
    pub(crate) fn new(alloc: Global) -> Planning
        ensures { result ≡ no_plan }
    {
        Planning {
            region: Region::Ntsc,
            begun: false,
            steps: Vec::new(alloc),
            frames: 0,
            kept: [false; 8],
            presses: false,
            held: [false; 8],
        }
    }

    /// The plan that was read.
    pub(crate) fn plan(self) -> Plan
        ensures { result ≡ record { region = self.region; steps = self.steps } }
    {
        Plan::of(self.region, self.steps)
    }

    /// Reads a line with its number.
    #[tactic(auto, unfolding(crate::specs::Plan::after_plan_line))]
    pub(crate) fn take(&mut self, number: u32, line: &[u8]) -> Result<(), PlanEnd>
        ensures ok { OnOk result (after_plan_line self.old line.now ≡ Some self.new) }
        ensures place { (k : ℕ) → result ≡ Err (PlanEnd.Line k) → k ≡ number }
        ensures bad { (k : ℕ) → result ≡ Err (PlanEnd.Line k) → after_plan_line self.old line.now ≡ None }
    {
        if line.is_empty() {
            return Ok(());
        }
        let (word, rest) = split_word(line);
        if word == b"region".as_slice() {
            return self.begin(number, region_of(rest));
        }
        self.begun = true;
        self.take_step(number, line)
    }

    /// Takes a region, if no line said anything before.
    fn begin(&mut self, number: u32, region: Option<Region>) -> Result<(), PlanEnd>
        ensures ok { OnOk result (after_region self.old region ≡ Some self.new) }
        ensures place { (k : ℕ) → result ≡ Err (PlanEnd.Line k) → k ≡ number }
        ensures bad { (k : ℕ) → result ≡ Err (PlanEnd.Line k) → after_region self.old region ≡ None }
    {
        let Some(region) = region else {
            return Err(PlanEnd::Line(number));
        };
        if self.begun {
            return Err(PlanEnd::Line(number));
        }
        self.region = region;
        self.begun = true;
        Ok(())
    }

    /// Reads a line of a step with its number.
    #[tactic(auto, unfolding(crate::specs::Plan::after_step_line))]
    fn take_step(&mut self, number: u32, line: &[u8]) -> Result<(), PlanEnd>
        ensures ok { OnOk result (after_step_line self.old line.now ≡ Some self.new) }
        ensures place { (k : ℕ) → result ≡ Err (PlanEnd.Line k) → k ≡ number }
        ensures bad { (k : ℕ) → result ≡ Err (PlanEnd.Line k) → after_step_line self.old line.now ≡ None }
    {
        if line == b"reset".as_slice() {
            return self.reset(number);
        }
        let (word, rest) = split_word(line);
        if word == b"go".as_slice() {
            return self.go_on(number, span_of(rest));
        }
        if word == b"keep".as_slice() {
            return self.keep(number, slot_of(rest));
        }
        if word == b"back".as_slice() {
            return self.go_back(number, slot_of(rest));
        }
        Err(PlanEnd::Line(number))
    }

    /// Takes a span, if there is one and the sum of the counts allows it.
    #[tactic(auto, using(crate::proofs::Plans::more))]
    fn go_on(&mut self, number: u32, span: Option<Span>) -> Result<(), PlanEnd>
        ensures ok { OnOk result (after_go self.old span ≡ Some self.new) }
        ensures place { (k : ℕ) → result ≡ Err (PlanEnd.Line k) → k ≡ number }
        ensures bad { (k : ℕ) → result ≡ Err (PlanEnd.Line k) → after_go self.old span ≡ None }
    {
        let Some(span) = span else {
            return Err(PlanEnd::Line(number));
        };
        if span.count > MOST_FRAMES - self.frames {
            return Err(PlanEnd::Line(number));
        }
        let step = PlanStep::Go {
            count: span.count,
            pad1: span.pad1,
            pad2: span.pad2,
        };
        if self.steps.push(step).is_err() {
            return Err(PlanEnd::NoMemory);
        }
        self.frames += span.count;
        self.presses = span.count > 0 || self.presses;
        Ok(())
    }

    /// Takes a slot that is kept.
    #[tactic(auto, using(crate::proofs::Plans::more))]
    fn keep(&mut self, number: u32, slot: Option<u8>) -> Result<(), PlanEnd>
        requires { IfSome slot (λ s. s < 8) }
        ensures ok { OnOk result (after_keep self.old slot ≡ Some self.new) }
        ensures place { (k : ℕ) → result ≡ Err (PlanEnd.Line k) → k ≡ number }
        ensures bad { (k : ℕ) → result ≡ Err (PlanEnd.Line k) → after_keep self.old slot ≡ None }
    {
        let Some(slot) = slot else {
            return Err(PlanEnd::Line(number));
        };
        if self.steps.push(PlanStep::Keep(slot)).is_err() {
            return Err(PlanEnd::NoMemory);
        }
        self.kept[slot as usize] = true;
        self.held[slot as usize] = self.presses;
        Ok(())
    }

    /// Takes a return, to a slot that was kept before.
    #[tactic(auto, using(crate::proofs::Plans::more))]
    fn go_back(&mut self, number: u32, slot: Option<u8>) -> Result<(), PlanEnd>
        requires { IfSome slot (λ s. s < 8) }
        ensures ok { OnOk result (after_back self.old slot ≡ Some self.new) }
        ensures place { (k : ℕ) → result ≡ Err (PlanEnd.Line k) → k ≡ number }
        ensures bad { (k : ℕ) → result ≡ Err (PlanEnd.Line k) → after_back self.old slot ≡ None }
    {
        let Some(slot) = slot else {
            return Err(PlanEnd::Line(number));
        };
        if !self.kept[slot as usize] {
            return Err(PlanEnd::Line(number));
        }
        if self.steps.push(PlanStep::Back(slot)).is_err() {
            return Err(PlanEnd::NoMemory);
        }
        self.presses = self.held[slot as usize];
        Ok(())
    }

    /// Takes a press of the reset button, where it may be pressed.
    #[tactic(auto, using(crate::proofs::Plans::more))]
    fn reset(&mut self, number: u32) -> Result<(), PlanEnd>
        ensures ok { OnOk result (after_plan_reset self.old ≡ Some self.new) }
        ensures place { (k : ℕ) → result ≡ Err (PlanEnd.Line k) → k ≡ number }
        ensures bad { (k : ℕ) → result ≡ Err (PlanEnd.Line k) → after_plan_reset self.old ≡ None }
    {
        if !self.presses {
            return Err(PlanEnd::Line(number));
        }
        if self.steps.push(PlanStep::Reset).is_err() {
            return Err(PlanEnd::NoMemory);
        }
        self.presses = false;
        Ok(())
    }
}
