// Calls over the passes of any wire, by rows.
ghost use Rattle.std.specs.Prelude.{◌≡◌, ◌+◌, ◌^◌, ◌<◌, ◌≤◌, true};
ghost use Rattle.clock_ratio.specs.Stamp.{least_of, most_of};
ghost use Rattle.port_wire.specs.Reach.{IsInReach};

use clock_ratio::{least, most, window};
use port_wire::{PassLate, Wire};
use snes_defs::Side;

/// A call over a side's pass: its stamp, then its arguments, and last its expected result.
#[derive(Clone, Copy)]
pub(crate) enum Call {
    /// A write to a port, of a byte, with the stamp of the side's next step.
    Write(u64, u8, u8, u64, Result<(), PassLate>),
    /// A read of a port.
    Read(u64, u8, Result<u8, PassLate>),
    /// A clear of the ports of a mask.
    Clear(u64, u8, Result<(), PassLate>),
    /// An advance, which returns the other side's clock.
    Advance(u64, Result<u64, PassLate>),
    /// A query of what the pass knows of the other side's clock.
    Known(u64),
    /// A query of the side's own clock.
    Clock(u64),
}

/// Whether a side may write now: to which port, at which stamp, and its next one.
fn may_write<W: Wire>(wire: &W, pass: &W::Pass, at: u64, port: u8, next: u64) -> bool
    ensures port { result ≡ true → port < 4 }
    ensures own_clock { result ≡ true → (W.seen pass.now).half.at ≤ at }
    ensures early { result ≡ true → at < 2 ^ 52 }
    ensures rises { result ≡ true → at + least_of (W.region_of wire.now) ≤ next }
    ensures rises_at_most { result ≡ true → next ≤ at + most_of (W.region_of wire.now) }
{
    let region = wire.region();
    port < 4
        && at >= wire.clock(pass)
        && at < 1 << 52
        && next >= at
        && next - at >= least(region)
        && next - at <= most(region)
}

/// Whether a side may publish a clock now.
fn may_advance<W: Wire>(wire: &W, pass: &W::Pass, at: u64) -> bool
    ensures own_clock { result ≡ true → (W.seen pass.now).half.at ≤ at }
    ensures reach { result ≡ true → IsInReach (W.region_of wire.now) at (W.seen pass.now).half }
{
    let region = wire.region();
    let known = wire.known(pass);
    at >= wire.clock(pass) && (at <= known || at - known <= window(region) + most(region))
}

/// Makes a call. Returns whether the side may make it now, and it has the expected result.
fn is_answered<W: Wire>(wire: &W, pass: &mut W::Pass, call: Call) -> bool
    requires { W.is_pass_of wire.now pass.old }
    ensures of { W.is_pass_of wire.now pass.new }
    ensures side { (W.seen pass.new).side ≡ (W.seen pass.old).side }
{
    match call {
        Call::Write(at, port, byte, next, wanted) => {
            if !may_write(wire, pass, at, port, next) {
                return false;
            }
            wire.write(pass, at, port, byte, next) == wanted
        }
        Call::Read(at, port, wanted) => {
            if port > 3 || at < wire.clock(pass) {
                return false;
            }
            wire.read(pass, at, port) == wanted
        }
        Call::Clear(at, mask, wanted) => {
            if mask < 1 || mask > 15 || at < wire.clock(pass) {
                return false;
            }
            wire.clear(pass, at, mask) == wanted
        }
        Call::Advance(at, wanted) => {
            if !may_advance(wire, pass, at) {
                return false;
            }
            wire.advance(pass, at) == wanted
        }
        Call::Known(wanted) => wire.known(pass) == wanted,
        Call::Clock(wanted) => wire.clock(pass) == wanted,
    }
}

/// Parts a whole, makes calls over the passes, each by its side, and reunites them. Returns the number of the first
/// call with a wrong result, the sound side's clock, and the whole of both again.
pub(crate) fn first_wrong<W: Wire>(
    wire: &W,
    whole: W::Whole,
    calls: &[(Side, Call)],
) -> (Option<usize>, u64, W::Whole)
    requires { W.is_whole_of wire.now whole }
    ensures of { W.is_whole_of wire.now result.2 }
    ensures clock { (W.both result.2).sound.at ≡ result.1 }
{
    let (mut console, mut sound) = wire.part(whole);
    let mut wrong = None;
    'calls: for (k, (side, call)) in calls.iter().enumerate() {
        let answered = match side {
            Side::Console => is_answered(wire, &mut console, *call),
            Side::Sound => is_answered(wire, &mut sound, *call),
        };
        if !answered && wrong.is_none() {
            wrong = Some(k);
        }
    }
    let clock = wire.clock(&sound);
    (wrong, clock, wire.reunite(console, sound))
}
