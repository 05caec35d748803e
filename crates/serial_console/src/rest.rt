// The sound side behind the console's ports: it runs up to each call.
ghost use Rattle.std.specs.Prelude.{◌≡◌, ◌+◌, ◌^◌, ◌<◌, ◌≤◌, ◌++◌, ℕ, List, IsTrue};
ghost use Rattle.side_law.specs.Serial.{SerialState};
ghost use Rattle.serial_console.specs.Rest.{IsLedOver};
ghost use Rattle.serial_console.specs.Followed.{HasLedOver};

use crate::behind::Rest;
use crate::serial::{exchange, got};
use side_law::{Machine, Ports};
use snes_defs::Act;

impl<S: Machine> Ports for Rest<S> {
    ghost use Rattle.serial_console.specs.Rest.{RestState, StandsBehind, rest_calls, limit_of};

    ghost State = { RestState S.State };

    ghost calls = { rest_calls S.moves S.MOST S.CAP };

    ghost stands = { StandsBehind S.stands S.waiting };

    ghost clock = { λ r. 0 };

    ghost times = { λ r. record { before = limit_of r.end; rise = 0 } };

    #[inline(always)]
    fn call(&mut self, at: u64, act: Act) -> Option<u8> {
        if matches!(act, Act::Quiet) {
            return Some(0);
        }
        'steps: while self.sound.stamp() < at {
            if self.sound.pending() > 0 || !self.sound.has_room() {
                return None;
            }
            self.bytes.first = at;
            self.bytes.hold = 0;
            let _stop = self.sound.advance(self.end, &mut self.bytes);
        }
        let byte = got(act, &self.bytes.outgoing);
        exchange(act, &mut self.bytes.outgoing, &mut self.bytes.incoming);
        Some(byte)
    }

    #[inline(always)]
    fn room(&self, waiting: usize) -> u64 {
        if waiting == 0 { u64::MAX } else { 0 }
    }

    #[inline(always)]
    fn emitted(&mut self, at: u64, waiting: usize) {
        let _waiting = waiting;
        self.last = at;
    }
}

/// Runs the console's steps before the end, with the sound side behind its ports. Each side emits once at most, and
/// only while no byte of it is buffered. The call ends before a step of the console that may emit again, and at a
/// call of the console that the sound side does not come to.
#[inline(always)]
pub fn lead_over<C: Machine, S: Machine>(console: &mut C, rest: &mut Rest<S>)
    requires early { rest.old.end ≤ 2 ^ 62 }
    ensures led { (from : SerialState C.State S.State) (video audio : List ℕ)
        → IsLedOver C.moves S.moves C.stands S.stands from console.old rest.old
        (video ++ C.waiting console.old) (audio ++ S.waiting rest.old.sound)
        → IsLedOver C.moves S.moves C.stands S.stands from console.new rest.new
        (video ++ C.waiting console.new) (audio ++ S.waiting rest.new.sound) }
    ensures went { HasLedOver C.MOST C.CAP S.MOST S.CAP rest.old.end (C.stamp_of console.old) (C.stamp_of console.new)
        (S.stamp_of rest.old.sound) (S.stamp_of rest.new.sound) rest.new.last rest.old.bytes.last rest.new.bytes.last
        (C.waiting console.old) (C.waiting console.new) (S.waiting rest.old.sound) (S.waiting rest.new.sound) }
    ensures end { rest.new.end ≡ rest.old.end }
    ensures region { C.region_of console.new ≡ C.region_of console.old }
{
    let _begun = console.stamp();
    let _sound_begun = rest.sound.stamp();
    let _stop = console.advance(rest.end, rest);
}
