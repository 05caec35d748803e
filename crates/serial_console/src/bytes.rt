// The eight bytes between two machines as the ports of one of them, while the other one is stopped.
ghost use Rattle.std.specs.Prelude.{◌≡◌, ◌+◌, ◌^◌, ◌<◌, ◌≤◌, length};
ghost use Rattle.serial_console.specs.Bytes.{room_for};
ghost use Rattle.serial_console.specs.Lead.{HasLed};

use crate::serial::{exchange, got};
use side_law::{Machine, Ports, Stop};
use snes_defs::Act;

/// With more bytes buffered than this, no step may emit.
pub(crate) const HELD: usize = 512;

/// The bytes at the ports of a machine whose other side is stopped. They answer each call that comes before a stamp.
#[derive(Drop)]
pub struct Bytes {
    /// The bytes that come in to the machine.
    pub incoming: [u8; 4],
    /// The bytes that go out from it.
    pub outgoing: [u8; 4],
    /// The stamp before which the machine is the earlier side. Later calls are refused.
    pub first: u64,
    /// The stamp before which a step may emit while bytes are buffered.
    pub hold: u64,
    /// The stamp of the last step that emitted.
    pub last: u64,
}

impl Ports for Bytes {
    ghost use Rattle.std.specs.Prelude.{◌≡◌, ◌^◌};
    ghost use Rattle.serial_console.specs.Bytes.{byte_calls};
    ghost use Rattle.serial_console.specs.declared.bytes.Bytes.{Bytes};

    ghost State = { Bytes };

    ghost calls = { byte_calls };

    ghost stands = { λ b p. b ≡ p };

    ghost clock = { λ b. 0 };

    ghost times = { λ b. record { before = 2 ^ 63; rise = 0 } };

    #[inline(always)]
    fn call(&mut self, at: u64, act: Act) -> Option<u8> {
        if at >= self.first && !matches!(act, Act::Quiet) {
            return None;
        }
        let byte = got(act, &self.incoming);
        exchange(act, &mut self.incoming, &mut self.outgoing);
        Some(byte)
    }

    #[inline(always)]
    fn room(&self, waiting: usize) -> u64 {
        if waiting == 0 {
            u64::MAX
        } else if waiting <= HELD {
            self.hold
        } else {
            0
        }
    }

    #[inline(always)]
    fn emitted(&mut self, at: u64, waiting: usize) {
        let _waiting = waiting;
        self.last = at;
    }
}

/// Runs a machine's steps before `end` against the eight bytes: any before `first`, up to which it is the earlier side,
/// then quiet ones. Bytes that it emits before `hold` may be buffered together.
#[inline(always)]
pub fn lead_by<M: Machine>(machine: &mut M, bytes: &mut Bytes, end: u64) -> Stop
    requires early { end ≤ 2 ^ 62 }
    ensures made { (m : M.State) → M.stands machine.old m
        → HasLed M.moves bytes.old.first end (M.stands machine.new) (M.waiting machine.old) (M.waiting machine.new)
        bytes.new.incoming bytes.new.outgoing
        (record { own = m; incoming = bytes.old.incoming; outgoing = bytes.old.outgoing }) }
    ensures first { bytes.new.first ≡ bytes.old.first }
    ensures hold { bytes.new.hold ≡ bytes.old.hold }
    ensures few { length (M.waiting machine.old) ≤ 512 + M.MOST
        → length (M.waiting machine.new) ≤ 512 + M.MOST }
    ensures one { bytes.old.hold ≤ M.stamp_of machine.old → length (M.waiting machine.old) ≡ 0
        → length (M.waiting machine.new) ≤ M.MOST }
    ensures last { length (M.waiting machine.old) < length (M.waiting machine.new)
        → (bytes.new.last < end) × (bytes.new.last < M.stamp_of machine.new) }
    ensures last_stays { length (M.waiting machine.new) ≡ length (M.waiting machine.old)
        → bytes.new.last ≡ bytes.old.last }
    ensures forward { M.stamp_of machine.old ≤ M.stamp_of machine.new }
    ensures begins { length (M.waiting machine.old) < length (M.waiting machine.new)
        → M.stamp_of machine.old < M.stamp_of machine.new }
    ensures goes_on { M.stamp_of machine.old < bytes.old.first → M.stamp_of machine.old < end
        → M.stamp_of machine.old < room_for bytes.old (length (M.waiting machine.old))
        → length (M.waiting machine.old) + M.MOST ≤ M.CAP
        → M.stamp_of machine.old < M.stamp_of machine.new }
    ensures region { M.region_of machine.new ≡ M.region_of machine.old }
{
    let _begun = machine.stamp();
    machine.advance(end, bytes)
}
