// The console's steps over the ports behind it, many in one call.
ghost use Rattle.std.specs.Prelude.{◌≡◌, ◌+◌, ◌*◌, ◌^◌, ◌<◌, ◌≤◌, ℕ, None, IfSome, IsTrue, false, length};
ghost use Rattle.snes_defs.specs.declared.ports.Side.TheVariants.{Console};
ghost use Rattle.clock_ratio.specs.Stamp.{rate_of};
ghost use Rattle.side_law.specs.declared.ports.Stop.TheVariants as Stop;
ghost use Rattle.side_law.specs.Moves.{IsAtPorts};
ghost use Rattle.side_law.specs.Gone.{Leads, IsRefused};
ghost use Rattle.beam.specs.Places.{clocks_left};
ghost use Rattle.console_steps.specs.ConsoleState.{ConsoleState};
ghost use Rattle.console_steps.specs.Plain.{IsCalm};
ghost use Rattle.console_machine.specs.Keeps.{Keeps};
ghost use Rattle.console_machine.specs.PortRuns.{AreReady, HasTaken, LeadsOver, StopsOver};
ghost use Rattle.console_machine.specs.Side.{StandsAt};

use crate::parts::Parts;
use crate::port_runs::{make_over, stamp_before};
use console_steps::{is_calm, is_wired};
use side_law::{Ports, Stop};
use snes_defs::Act;

/// How many emitted bytes the buffer holds.
pub(crate) const CAPACITY: usize = 65_536;

/// How many bytes a row has.
const ROW: usize = 1024;

impl Parts {
    ghost use Rattle.console_machine.specs.Parts.{value_of};

    /// Runs the next step, whose act is known, over the ports. Returns false if its call is refused; then the step is
    /// not run.
    #[inline(always)]
    fn step_over<P: Ports>(&mut self, act: Act, ports: &mut P) -> bool
        requires room { length self.old.waiting.items + 1024 ≤ self.old.waiting.capacity }
        requires early { self.old.stamp ≤ 2 ^ 62 }
        requires at_ports { IsAtPorts act }
        requires ready { AreReady (P.clock ports.old) (P.times ports.old)
            self.old.stamp (self.old.stamp + 1) self.old.region }
        ensures taken { IsTrue result → (w : ConsoleState) (p : P.State) → StandsAt (value_of self.old) w
            → P.stands ports.old p
            → HasTaken P.calls self.old.stamp act (value_of self.new) (P.stands ports.new)
            self.old.waiting.items self.new.waiting.items w p }
        ensures refused { result ≡ false
            → Leads (P.stands ports.old) (P.stands ports.new) (IsRefused P.calls self.old.stamp act) }
        ensures stays { result ≡ false → value_of self.new ≡ value_of self.old }
        ensures keeps { Keeps self.old self.new }
        ensures rises { IsTrue result → self.old.stamp < self.new.stamp }
        ensures in_order { P.clock ports.new ≤ self.new.stamp }
        ensures times { P.times ports.new ≡ P.times ports.old }
        ensures few { length self.new.waiting.items ≤ length self.old.waiting.items + 1024 }
    {
        let Some(got) = ports.call(self.stamp, act) else {
            return false;
        };
        self.step(got);
        true
    }

    /// Runs steps that emit nothing, up to the beam's next place, to which it comes at `goal`. `ports` makes their
    /// calls. Returns whether the call of the next step was refused.
    #[inline(always)]
    fn run_over<P: Ports>(&mut self, goal: u64, until: u64, ports: &mut P) -> bool
        requires goal { goal ≡ self.old.stamp + rate_of self.old.region Console * clocks_left self.old.bus.beam }
        requires soon { goal ≤ until }
        requires calm { IsCalm self.old.bus }
        requires ready { AreReady (P.clock ports.old) (P.times ports.old) self.old.stamp until self.old.region }
        ensures gone { result ≡ false → LeadsOver P.calls until (value_of self.old) (value_of self.new)
            (P.stands ports.old) (P.stands ports.new) }
        ensures refused { IsTrue result → StopsOver P.calls until Stop.Refused (value_of self.old) (value_of self.new)
            (P.stands ports.old) (P.stands ports.new) }
        ensures keeps { Keeps self.old self.new }
        ensures waiting { self.new.waiting ≡ self.old.waiting }
        ensures forward { self.old.stamp ≤ self.new.stamp }
        ensures in_order { P.clock ports.new ≤ self.new.stamp }
        ensures times { P.times ports.new ≡ P.times ports.old }
    {
        if !is_wired(&self.cpu, &self.bus) {
            return false;
        }
        let refused = make_over(&mut self.cpu, &mut self.bus, self.region, goal, ports);
        self.stamp = stamp_before(self.region, goal, &self.bus);
        refused
    }

    /// Runs steps that emit nothing, each begun before a stamp: those over the ports up to the beam's next place. If
    /// that is after the stamp or something else is due, it runs only some that touch no port. Returns whether the call
    /// of the next step was refused.
    #[inline(always)]
    fn go_on<P: Ports>(&mut self, until: u64, ports: &mut P) -> bool
        requires early { until ≤ 2 ^ 62 }
        requires before { self.old.stamp < until }
        requires ready { AreReady (P.clock ports.old) (P.times ports.old) self.old.stamp until self.old.region }
        ensures gone { result ≡ false → LeadsOver P.calls until (value_of self.old) (value_of self.new)
            (P.stands ports.old) (P.stands ports.new) }
        ensures refused { IsTrue result → StopsOver P.calls until Stop.Refused (value_of self.old) (value_of self.new)
            (P.stands ports.old) (P.stands ports.new) }
        ensures keeps { Keeps self.old self.new }
        ensures waiting { self.new.waiting ≡ self.old.waiting }
        ensures forward { self.old.stamp ≤ self.new.stamp }
        ensures in_order { P.clock ports.new ≤ self.new.stamp }
        ensures times { P.times ports.new ≡ P.times ports.old }
    {
        self.look_on(until);
        let goal = self.goal();
        if goal > until || !is_calm(&self.bus) {
            self.hasten(until);
            return false;
        }
        self.run_over(goal, until, ports)
    }

    /// Runs the next step over the ports, if it begins before a stamp and may emit. Returns why no other step follows
    /// at once, or None if one may.
    #[inline(always)]
    fn step_next<P: Ports>(&mut self, until: u64, ports: &mut P) -> Option<Stop>
        requires early { until ≤ 2 ^ 62 }
        requires capacity { self.old.waiting.capacity ≡ 65536 }
        requires ready { AreReady (P.clock ports.old) (P.times ports.old) self.old.stamp until self.old.region }
        requires fits { length self.old.waiting.items ≤ 65536 }
        ensures gone { result ≡ None → LeadsOver P.calls until (value_of self.old) (value_of self.new)
            (P.stands ports.old) (P.stands ports.new) }
        ensures stopped { IfSome result (λ stop. StopsOver P.calls until stop (value_of self.old) (value_of self.new)
            (P.stands ports.old) (P.stands ports.new)) }
        ensures keeps { Keeps self.old self.new }
        ensures forward { self.old.stamp ≤ self.new.stamp }
        ensures rises { result ≡ None → self.old.stamp < until → self.old.stamp < self.new.stamp }
        ensures emitted { IfSome result (λ stop. (at : ℕ) → stop ≡ Stop.Emitted at
            → (self.old.stamp ≤ at) × (at < until) × (at < self.new.stamp)) }
        ensures fits { length self.new.waiting.items ≤ 65536 }
        ensures in_order { P.clock ports.new ≤ self.new.stamp }
        ensures times { P.times ports.new ≡ P.times ports.old }
    {
        let at = self.stamp;
        if at >= until {
            return None;
        }
        let waited = self.waiting.len();
        if at >= ports.room(waited) {
            return Some(Stop::Until);
        }
        if waited + ROW > CAPACITY {
            return Some(Stop::Until);
        }
        let act = self.act();
        if !self.step_over(act, ports) {
            return Some(Stop::Refused);
        }
        let waits = self.waiting.len();
        if waits > waited {
            ports.emitted(at, waits);
            return Some(Stop::Emitted(at));
        }
        None
    }

    /// Runs steps up to one that emits, and returns why it stopped: some that emit nothing, one of any kind, and so on.
    /// Each begins before a stamp, and `ports` makes its call at the ports.
    pub fn advance<P: Ports>(&mut self, until: u64, ports: &mut P) -> Stop
        requires early { until ≤ 2 ^ 62 }
        requires capacity { self.old.waiting.capacity ≡ 65536 }
        requires fits { length self.old.waiting.items ≤ 65536 }
        requires ready { AreReady (P.clock ports.old) (P.times ports.old) self.old.stamp until self.old.region }
        ensures gone { StopsOver P.calls until result (value_of self.old) (value_of self.new)
            (P.stands ports.old) (P.stands ports.new) }
        ensures keeps { Keeps self.old self.new }
        ensures forward { self.old.stamp ≤ self.new.stamp }
        ensures emitted { (at : ℕ) → result ≡ Stop.Emitted at
            → (self.old.stamp ≤ at) × (at < until) × (at < self.new.stamp) }
        ensures fits { length self.new.waiting.items ≤ 65536 }
        ensures in_order { P.clock ports.new ≤ self.new.stamp }
        ensures times { P.times ports.new ≡ P.times ports.old }
    {
        'steps: while self.stamp < until {
            if self.go_on(until, ports) {
                return Stop::Refused;
            }
            if let Some(stop) = self.step_next(until, ports) {
                return stop;
            }
        }
        Stop::Until
    }
}
