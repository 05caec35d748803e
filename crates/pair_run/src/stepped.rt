ghost use Rattle.std.specs.Prelude.{◌≡◌, ◌^◌, ◌≤◌};
ghost use Rattle.commute_laws.specs.History.{History};
ghost use Rattle.pair_run.specs.Turn.{IsBeforeStep, IsAfterStep, HasStepped};

use crate::earlier::step_over;
use clock_ratio::console_first;
use port_wire::Wire;
use side_law::Machine;
use snes_defs::Side;

/// What the caller of a turn has done after the legs.
#[derive(Clone, Copy)]
pub enum Stepped {
    /// One step of this side, the earlier one.
    Made(Side),
    /// No step: both sides have reached the end.
    Ended,
}

/// Makes one step of the earlier side, if it is before `end`. Both clocks are published.
pub(crate) fn step_earlier<W: Wire, C: Machine, S: Machine>(
    wire: &W,
    whole: &mut W::Whole,
    console: &mut C,
    sound: &mut S,
    end: u64,
) -> Stepped
    requires of { W.is_whole_of wire.now whole.old }
    requires console { IsBeforeStep (W.region_of wire.now) (C.region_of console.old) C.MOST C.CAP
        (C.stamp_of console.old) (S.stamp_of sound.old) (W.both whole.old).console (C.waiting console.old) }
    requires sound { IsBeforeStep (W.region_of wire.now) (S.region_of sound.old) S.MOST S.CAP
        (S.stamp_of sound.old) (C.stamp_of console.old) (W.both whole.old).sound (S.waiting sound.old) }
    requires end { end ≤ 2 ^ 51 }
    ensures still_of { W.is_whole_of wire.now whole.new }
    ensures console { IsAfterStep (W.region_of wire.now) (C.region_of console.new) C.CAP (C.stamp_of console.old)
        (C.stamp_of console.new) (W.both whole.old).console (W.both whole.new).console (C.waiting console.new) }
    ensures sound { IsAfterStep (W.region_of wire.now) (S.region_of sound.new) S.CAP (S.stamp_of sound.old)
        (S.stamp_of sound.new) (W.both whole.old).sound (W.both whole.new).sound (S.waiting sound.new) }
    ensures stepped { (c : History C.State) (s : History S.State)
        → C.stands console.old c.now → S.stands sound.old s.now
        → c.entries ≡ (W.both whole.old).console.mine → s.entries ≡ (W.both whole.old).sound.mine
        → HasStepped C.moves S.moves end (C.stands console.new) (S.stands sound.new) (W.both whole.new)
        (C.waiting console.old) (C.waiting console.new) (S.waiting sound.old) (S.waiting sound.new) result c s }
{
    let console_at = console.stamp();
    let sound_at = sound.stamp();
    if console_first(console_at, sound_at) {
        if console_at >= end {
            return Stepped::Ended;
        }
        step_over(wire, whole, Side::Console, console);
        Stepped::Made(Side::Console)
    } else {
        if sound_at >= end {
            return Stepped::Ended;
        }
        step_over(wire, whole, Side::Sound, sound);
        Stepped::Made(Side::Sound)
    }
}
