ghost use Rattle.std.specs.Prelude.{◌≡◌};
ghost use Rattle.pair_run.specs.Leg.{end_of};

use port_wire::PassLate;
use snes_defs::Side;

/// How a leg has ended.
#[derive(Clone, Copy)]
pub enum LegEnd {
    /// The machine has reached the end stamp.
    Done,
    /// The machine has not reached it, and there is no room for the bytes of two more steps.
    Drain,
    /// The last tries were all refused, the last of them as `PassLate::Behind`.
    Behind { need: u64, other: u64 },
    /// The last tries were all refused, the last of them as `PassLate::Ahead`.
    Ahead { at: u64, other: u64 },
    /// The last tries were all refused, the last of them as `PassLate::Held`.
    Held { by: Side },
}

/// Returns the end of a leg whose last tries were all refused.
#[inline(always)]
pub fn held_back(late: PassLate) -> LegEnd
    ensures { result ≡ end_of late }
{
    match late {
        PassLate::Behind { need, other } => LegEnd::Behind { need, other },
        PassLate::Ahead { at, other } => LegEnd::Ahead { at, other },
        PassLate::Held { by } => LegEnd::Held { by },
    }
}
