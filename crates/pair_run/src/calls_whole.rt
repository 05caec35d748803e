// The calls of the earlier side's machine over a whole. The other side's clock settles them, so none is refused.
use crate::over::OverWhole;
use port_wire::Wire;
use side_law::Ports;
use snes_defs::Act;

impl<'a, W: Wire> Ports for OverWhole<'a, W> {
    ghost use Rattle.std.specs.Prelude.{◌≡◌, ◌^◌};
    ghost use Rattle.clock_ratio.specs.Stamp.{least_of};
    ghost use Rattle.port_wire.specs.Seen.{half_of};
    ghost use Rattle.pair_run.specs.OverWhole.{WholeWay, whole_calls, whole_way};

    ghost State = { WholeWay W };

    ghost calls = { whole_calls };

    ghost stands = { λ o p. whole_way o.wire.now (W.region_of o.wire.now) o.whole.ghost_name o.side
        (W.both o.whole.now) ≡ p };

    ghost clock = { λ o. (half_of o.side (W.both o.whole.now)).at };

    ghost times = { λ o. record { before = 2 ^ 52; rise = least_of (W.region_of o.wire.now) } };

    #[inline(always)]
    fn call(&mut self, at: u64, act: Act) -> Option<u8> {
        let (wire, side, next) = (self.wire, self.side, at + self.least);
        match act {
            Act::Quiet => Some(0),
            Act::Read(port) => match wire.read_whole(self.whole, side, at, port) {
                Ok(byte) => Some(byte),
                Err(_) => None,
            },
            Act::Write(port, byte) => {
                match wire.write_whole(self.whole, side, at, port, byte, next) {
                    Ok(()) => Some(0),
                    Err(_) => None,
                }
            }
            Act::Clear(mask) => match wire.clear_whole(self.whole, side, at, mask) {
                Ok(()) => Some(0),
                Err(_) => None,
            },
        }
    }

    #[inline(always)]
    fn room(&self, waiting: usize) -> u64 {
        let _waiting = waiting;
        u64::MAX
    }

    #[inline(always)]
    fn emitted(&mut self, at: u64, waiting: usize) {
        let _at = at;
        let _waiting = waiting;
    }
}
