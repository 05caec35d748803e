// The sound side's steps over the ports behind it, many in one call.
ghost use Rattle.std.specs.Prelude.{◌≡◌, ◌^◌, ◌≤◌, ℕ, IsTrue, false, length};
ghost use Rattle.clock_ratio.specs.Stamp.{least_of};
ghost use Rattle.side_law.specs.declared.ports.Stop.TheVariants as Stop;
ghost use Rattle.side_law.specs.Gone.{HasGone, IsOnWay};
ghost use Rattle.audio_side.specs.Clock.{stamp_now};
ghost use Rattle.audio_side.specs.Sound.{IsRunning, SoundState, StandsAt, sound_moves};

use crate::parts::Parts;
use crate::port_runs::run_accesses;
use side_law::{Ports, Stop};

/// How many emitted bytes the buffer holds.
const CAPACITY: usize = 4096;

/// How many bytes a sample has.
const SAMPLE: usize = 4;

impl Parts {
    ghost use Rattle.audio_side.specs.Parts.{value_of};

    /// Runs steps up to the next cycle at whose end something may come. Each begins before a stamp, and `ports` makes
    /// its call at the ports. Returns whether a call was refused. It also stops before an access that may switch a timer.
    #[inline(always)]
    fn run<P: Ports>(&mut self, until: u64, ports: &mut P) -> bool
        requires early { until ≤ 2 ^ 62 }
        requires in_order { P.clock ports.old ≤ stamp_now self.old.clock }
        requires in_time { until ≤ (P.times ports.old).before }
        requires apart { (P.times ports.old).rise ≤ least_of self.old.clock.region }
        ensures gone { result ≡ false → (m : SoundState) (p : P.State) → StandsAt (value_of self.old) m
            → P.stands ports.old p
            → IsOnWay sound_moves P.calls until (StandsAt (value_of self.new)) (P.stands ports.new)
            self.old.waiting.items self.new.waiting.items m p }
        ensures refused { IsTrue result → (m : SoundState) (p : P.State) → StandsAt (value_of self.old) m
            → P.stands ports.old p
            → HasGone sound_moves P.calls until 4 4096 (StandsAt (value_of self.new)) (P.stands ports.new)
            self.old.waiting.items self.new.waiting.items Stop.Refused m p }
        ensures forward { stamp_now self.old.clock ≤ stamp_now self.new.clock }
        ensures in_order { P.clock ports.new ≤ stamp_now self.new.clock }
        ensures times { P.times ports.new ≡ P.times ports.old }
        ensures region { self.new.clock.region ≡ self.old.clock.region }
        ensures waiting { self.new.waiting ≡ self.old.waiting }
        ensures runs { IsRunning self.old.spc → IsRunning self.new.spc }
    {
        let fast = self.hardware.has_fast_timer();
        let free = self.clock.free_cycles(until, fast);
        if free == 0 {
            return false;
        }
        let mut left = free;
        let is_refused = run_accesses(
            &mut self.spc,
            &mut self.hardware,
            &self.clock,
            ports,
            &mut left,
        );
        self.clock.go_on_by(free - left);
        is_refused
    }

    /// Runs steps, and returns why it stopped. Each begins before a stamp, and `ports` makes its call at the ports.
    /// Several samples may come, each with room for its bytes.
    pub fn advance<P: Ports>(&mut self, until: u64, ports: &mut P) -> Stop
        requires early { until ≤ 2 ^ 62 }
        requires capacity { self.old.waiting.capacity ≡ 4096 }
        requires fits { length self.old.waiting.items ≤ 4096 }
        requires in_order { P.clock ports.old ≤ stamp_now self.old.clock }
        requires in_time { until ≤ (P.times ports.old).before }
        requires apart { (P.times ports.old).rise ≤ least_of self.old.clock.region }
        ensures gone { (m : SoundState) (p : P.State) → StandsAt (value_of self.old) m → P.stands ports.old p
            → HasGone sound_moves P.calls until 4 4096 (StandsAt (value_of self.new)) (P.stands ports.new)
            self.old.waiting.items self.new.waiting.items result m p }
        ensures forward { stamp_now self.old.clock ≤ stamp_now self.new.clock }
        ensures not_emitted { (at : ℕ) → ¬ (result ≡ Stop.Emitted at) }
        ensures in_order { P.clock ports.new ≤ stamp_now self.new.clock }
        ensures times { P.times ports.new ≡ P.times ports.old }
        ensures region { self.new.clock.region ≡ self.old.clock.region }
        ensures capacity { self.new.waiting.capacity ≡ self.old.waiting.capacity }
        ensures fits { length self.new.waiting.items ≤ 4096 }
        ensures runs { IsRunning self.old.spc → IsRunning self.new.spc }
    {
        'steps: while self.clock.stamp() < until {
            if self.run(until, ports) {
                return Stop::Refused;
            }
            let at = self.clock.stamp();
            let waited = self.waiting.len();
            if at >= until {
                return Stop::Until;
            }
            if at >= ports.room(waited) {
                return Stop::Until;
            }
            if waited + SAMPLE > CAPACITY {
                return Stop::Until;
            }
            let Some(got) = ports.call(at, self.act()) else {
                return Stop::Refused;
            };
            self.step(got);
            let waits = self.waiting.len();
            if waits > waited {
                ports.emitted(at, waits);
            }
        }
        Stop::Until
    }
}
