//! Works out the colour of a dot: black, arithmetic, brightness.

ghost use Rattle.std.specs.Prelude.{◌≡◌, ◌<◌, ◌≤◌};

use crate::memory::palette_colour;
use crate::windows::{holds_there, is_inside};
use ppu_regs::{ColourMath, Ppu};
use snes_defs::Profile;

/// Returns the fixed colour of 2132.
fn fixed_colour(p: &Ppu) -> u16 {
    let c = &p.registers().colour;
    c.red as u16 % 32 + 32 * (c.green as u16 % 32) + 1024 * (c.blue as u16 % 32)
}

/// Returns what a dot of the sub screen shows in hi-res, if no layer stands there.
pub fn empty_colour(p: &Ppu) -> u16 {
    match p.registers().profile {
        Profile::First => fixed_colour(p),
        Profile::Second => palette_colour(p, 0),
    }
}

/// Returns one of the three components of a colour: 0 red, 1 green, 2 blue.
fn component(colour: u16, which: u32) -> i32
    requires { which < 3 }
{
    ((colour >> (5 * which)) % 32) as i32
}

/// Adds or subtracts one component of two colours.
fn joined(c: &ColourMath, one: i32, other: i32, halves: bool) -> u16
    ensures { result < 32 }
{
    let whole = if c.subtract {
        one.wrapping_sub(other)
    } else {
        one.wrapping_add(other)
    };
    let part = if halves { whole.div_euclid(2) } else { whole };
    if part < 0 {
        0
    } else if part > 31 {
        31
    } else {
        part as u16
    }
}

/// Returns the main screen's dot at a pixel, from what is in front on both screens. `front` also says whether 2131
/// names its layer.
pub fn mixed(p: &Ppu, x: u8, front: Option<(u16, bool)>, sub: Option<u16>) -> u16 {
    let r = p.registers();
    let c = &r.colour;
    let inside = is_inside(p, &r.windows_colour, x);
    let (colour, named) = front.unwrap_or((palette_colour(p, 0), c.backdrop));
    let is_black = holds_there(c.black, inside);
    let main = if is_black { 0 } else { colour };
    if !named || holds_there(c.none, inside) {
        return main;
    }
    let finds_none = c.sub_screen && sub.is_none();
    let other = if c.sub_screen {
        sub.unwrap_or(fixed_colour(p))
    } else {
        fixed_colour(p)
    };
    let halves = c.halve && !is_black && !finds_none;
    let red = joined(c, component(main, 0), component(other, 0), halves);
    let green = joined(c, component(main, 1), component(other, 1), halves);
    let blue = joined(c, component(main, 2), component(other, 2), halves);
    red + 32 * green + 1024 * blue
}

/// Returns a colour at the brightness of 2100.
pub fn dimmed(p: &Ppu, colour: u16) -> u16 {
    let display = p.registers().display;
    if display.blanked || display.brightness == 0 {
        return 0;
    }
    let sixteenths = display.brightness as u16 % 16 + 1;
    let red = colour % 32 * sixteenths / 16;
    let green = colour / 32 % 32 * sixteenths / 16;
    let blue = colour / 1024 % 32 * sixteenths / 16;
    red + 32 * green + 1024 * blue
}
