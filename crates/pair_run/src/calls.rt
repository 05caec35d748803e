// The calls of a machine's ports over its pass.
use crate::over::Over;
use port_wire::Wire;
use side_law::Ports;
use snes_defs::Act;

impl<'a, W: Wire> Ports for Over<'a, W> {
    ghost use Rattle.std.specs.Prelude.{◌≡◌, ◌^◌};
    ghost use Rattle.clock_ratio.specs.Stamp.{least_of};
    ghost use Rattle.pair_run.specs.Over.{Way, pass_calls, way_of};

    ghost State = { Way W };

    ghost calls = { pass_calls };

    ghost stands = { λ o p. way_of o.wire.now (W.region_of o.wire.now) o.pass.ghost_name (W.seen o.pass.now)
        o.late o.held ≡ p };

    ghost clock = { λ o. (W.seen o.pass.now).half.at };

    ghost times = { λ o. record { before = 2 ^ 52; rise = least_of (W.region_of o.wire.now) } };

    #[inline(always)]
    fn call(&mut self, at: u64, act: Act) -> Option<u8> {
        match act {
            Act::Quiet => Some(0),
            Act::Read(port) => match self.wire.read(self.pass, at, port) {
                Ok(byte) => Some(byte),
                Err(late) => {
                    self.late = late;
                    None
                }
            },
            Act::Write(port, byte) => {
                match self.wire.write(self.pass, at, port, byte, at + self.least) {
                    Ok(()) => Some(0),
                    Err(late) => {
                        self.late = late;
                        None
                    }
                }
            }
            Act::Clear(mask) => match self.wire.clear(self.pass, at, mask) {
                Ok(()) => Some(0),
                Err(late) => {
                    self.late = late;
                    None
                }
            },
        }
    }

    #[inline(always)]
    fn room(&self, waiting: usize) -> u64 {
        if waiting <= self.held { u64::MAX } else { 0 }
    }

    #[inline(always)]
    fn emitted(&mut self, at: u64, waiting: usize) {
        let _at = at;
        let _waiting = waiting;
    }
}
