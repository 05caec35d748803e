// Cases that hold over any wire, the lock's and the words': calls over the passes of new ports, by rows, and calls over
// their whole. They are checked once for every wire, and return to its tests only which call had a wrong result.
ghost use Rattle.std.specs.Prelude.{◌≡◌, ◌≤◌};
ghost use Rattle.snes_defs.specs.declared.region.Region.TheVariants.{Pal};

use crate::passes::{Call, first_wrong};
use port_wire::{PassLate, Wire};
use snes_defs::Side;

/// Sends a byte from the console, which the sound side reads over its pass and then over the whole of both again.
/// Returns the number of the first call with a wrong result.
pub(crate) fn a_byte_for_sound<W: Wire>(wire: &W, whole: W::Whole) -> Option<usize>
where
    W::Whole: Drop,
    requires of { W.is_whole_of wire.now whole }
    requires console { (W.both whole).console.at ≡ 0 }
{
    let calls = [
        (Side::Console, Call::Write(0, 0, 5, 33_792, Ok(()))),
        (Side::Console, Call::Known(0)),
        (Side::Sound, Call::Read(0, 0, Ok(5))),
        (Side::Sound, Call::Known(33_792)),
        (Side::Sound, Call::Clock(0)),
    ];
    let mut whole = whole;
    if wire.read_whole(&mut whole, Side::Console, 0, 0) != Ok(0) {
        return Some(0);
    }
    let (wrong, clock, mut whole) = first_wrong(wire, whole, &calls);
    if let Some(k) = wrong {
        return Some(k.saturating_add(1));
    }
    if wire.read_whole(&mut whole, Side::Sound, clock, 0) != Ok(5) {
        return Some(6);
    }
    None
}

/// Makes a read that comes too early, a write too far ahead, and calls that are taken. Returns the number of the first
/// call with a wrong result.
pub(crate) fn refused_calls<W: Wire>(wire: &W, whole: W::Whole) -> Option<usize>
where
    W::Whole: Drop,
    requires { W.is_whole_of wire.now whole }
{
    let behind = Err(PassLate::Behind { need: 0, other: 0 });
    let ahead = Err(PassLate::Ahead {
        at: 122_918_400,
        other: 0,
    });
    let calls = [
        (Side::Sound, Call::Read(0, 0, behind)),
        (
            Side::Console,
            Call::Write(122_918_400, 0, 1, 122_952_192, ahead),
        ),
        (
            Side::Console,
            Call::Write(122_912_768, 0, 1, 122_946_560, Ok(())),
        ),
        (Side::Sound, Call::Advance(118_125, Ok(122_946_560))),
    ];
    let (wrong, _, _) = first_wrong(wire, whole, &calls);
    wrong
}

/// Makes the console's writes to port 0 of new PAL ports, one too far ahead and one that is taken. Then the sound side
/// makes calls over the whole: an advance, a read, its clear, and the read again. Returns the number of the first call
/// with a wrong result.
pub(crate) fn calls_over_a_whole<W: Wire>(wire: &W, whole: &mut W::Whole) -> Option<usize>
    requires of { W.is_whole_of wire.now whole.old }
    requires region { W.region_of wire.now ≡ Pal }
    requires console { (W.both whole.old).console.at ≡ 0 }
    requires sound { (W.both whole.old).sound.at ≡ 0 }
{
    let ahead = Err(PassLate::Ahead {
        at: 2_234_880_000,
        other: 0,
    });
    if wire.write_whole(whole, Side::Console, 2_234_880_000, 0, 1, 2_235_494_400) != ahead {
        return Some(0);
    }
    if wire.write_whole(whole, Side::Console, 2_234_777_600, 0, 1, 2_235_392_000) != Ok(()) {
        return Some(1);
    }
    if wire.advance_whole(whole, Side::Sound, 2_234_777_600) != 2_235_392_000 {
        return Some(2);
    }
    if wire.read_whole(whole, Side::Sound, 2_234_777_600, 0) != Ok(1) {
        return Some(3);
    }
    if wire.clear_whole(whole, Side::Sound, 2_234_777_600, 1) != Ok(()) {
        return Some(4);
    }
    if wire.read_whole(whole, Side::Sound, 2_234_777_600, 0) != Ok(0) {
        return Some(5);
    }
    None
}
