// Places of the beam at which nothing happens but a refresh or the next line. Except for that refresh, they leave
// everything on the bus as it was.
ghost use Rattle.std.specs.Prelude.{◌≡◌, ◌≤◌, IsTrue};
ghost use Rattle.beam.specs.Places.{clocks_left};
ghost use Rattle.console_steps.specs.PlainPlaces.{IsPlainAhead, IsPlainlyThere};

use console_bus::Bus;
use snes_defs::LINE_CLOCKS;

/// The line clock at which a refresh is due.
const REFRESH_PLACE: u16 = 536;

/// The last line whose end brings nothing but the next line, with overscan or without.
const LAST_PLAIN_LINE: u16 = 223;

/// Whether nothing happens at the next place of the beam but a refresh or the next line.
#[inline(always)]
pub fn is_plain_ahead(bus: &Bus) -> bool
    ensures { IsTrue result → IsPlainAhead bus.now.beam }
{
    if !bus.is_timer_off() {
        return false;
    }
    let place = bus.place_ahead();
    place == REFRESH_PLACE || (place == LINE_CLOCKS && bus.scanline() <= LAST_PLAIN_LINE)
}

/// Advances the beam to a place at which nothing happens but a refresh or the next line. Returns whether a refresh is
/// due there.
#[inline(always)]
pub fn reach_plain_place(bus: &mut Bus) -> bool
    requires plain { IsPlainAhead bus.old.beam }
    ensures there { IsPlainlyThere bus.old bus.new result }
    ensures far { 536 ≤ clocks_left bus.new.beam }
{
    let _left = bus.clocks_left();
    let happens = bus.reach();
    happens.refresh
}
