//! Draws a row dot by dot.

ghost use Rattle.std.specs.Prelude.{◌≡◌, ◌<◌, ◌≤◌, length};

use crate::colours::{dimmed, empty_colour, mixed};
use crate::layers::{Screen, front_at};
use crate::objects::{ObjectRow, object_row};
use ppu_regs::{Over, Ppu};

/// Returns the colour of a dot before brightness. Both dots of a pixel are the main screen's; in hi-res (modes 5 and 6,
/// or `half_dots`) the first is the sub screen's alone.
fn dot(p: &Ppu, objects: &ObjectRow, row: u16, e: u32) -> u16
    requires row { row < 239 }
    requires e { e < 512 }
{
    let r = p.registers();
    let first = e / 2 * 2;
    let sub = front_at(p, objects, Screen::Sub, row, first).map(|(seen, _)| seen.colour);
    let halved = r.mode == 5 || r.mode == 6 || r.settings.half_dots;
    if halved && e == first {
        return sub.unwrap_or(empty_colour(p));
    }
    let main = front_at(p, objects, Screen::Main, row, first + 1);
    let front = main.map(|(seen, named)| (seen.colour, named));
    mixed(p, (e / 2) as u8, front, sub)
}

/// Writes the 512 dots of the row `v - 1`, and returns which limits its objects exceed.
pub fn draw_slowly(p: &Ppu, v: u16, out: &mut [u16]) -> Over
    requires first { 1 ≤ v }
    requires last { v ≤ 239 }
    requires room { length out.old ≡ 512 }
{
    let row = v - 1;
    let objects = object_row(p, row);
    for e in 0..512usize {
        out[e] = dimmed(p, dot(p, &objects, row, e as u32));
    }
    objects.over
}
