// What a side sees of the other's writes, and when a call is refused.
ghost use Rattle.std.specs.Prelude.{◌≡◌, ◌<◌, ◌≤◌, ◌+◌, ◌^◌, ◌↔◌, ℕ, IsTrue};
ghost use Rattle.std.specs.Bool.{OnFalse};
ghost use Rattle.port_entries.specs.LastValue.{sees};
ghost use Rattle.port_entries.specs.Window.{IsSettled};
ghost use Rattle.port_log.specs.Kept.{other_side, is_zeroed};
ghost use Rattle.port_log.specs.Refused.{IsBehind, IsAhead};

use snes_defs::Side;

/// Returns the side across the ports.
#[inline(always)]
pub fn across(side: Side) -> Side
    ensures { result ≡ other_side side }
{
    match side {
        Side::Console => Side::Sound,
        Side::Sound => Side::Console,
    }
}

/// Whether the other side, whose clock is `other`, may still write what the side sees at `at`.
#[inline(always)]
pub fn is_behind(side: Side, at: u64, other: u64) -> bool
    ensures behind { IsTrue result ↔ IsBehind side at other }
    ensures settled { OnFalse result (IsSettled side at other) }
{
    match side {
        Side::Console => other < at,
        Side::Sound => other <= at,
    }
}

/// Whether `at` lies more than a window past the other side's clock.
#[inline(always)]
pub fn is_ahead(window: u64, at: u64, other: u64) -> bool
    ensures { IsTrue result ↔ IsAhead window at other }
{
    at > other && at - other > window
}

/// Whether the side sees at `at` what was written at `written`. A write of the sound side is seen
/// by the console only after its stamp.
#[inline(always)]
pub fn is_seen(side: Side, written: u64, at: u64) -> bool
    ensures { result ≡ sees side written at }
{
    match side {
        Side::Console => written < at,
        Side::Sound => written <= at,
    }
}

/// Whether a write at `written` was zeroed by a clear of the port, given the latest one.
#[inline(always)]
pub fn is_cleared(side: Side, clear: Option<u64>, written: u64) -> bool
    ensures { result ≡ is_zeroed side clear written }
{
    match clear {
        Some(at) => is_seen(side, written, at),
        None => false,
    }
}
