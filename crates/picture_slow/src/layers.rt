//! Works out what is in front on a screen.

ghost use Rattle.std.specs.Prelude.{◌≡◌, ◌<◌, ◌≤◌};

use crate::background::background_at;
use crate::memory::Seen;
use crate::mode_seven::{first_layer_at, second_layer_at};
use crate::objects::ObjectRow;
use crate::windows::is_inside;
use ppu_regs::{LayerScreens, LayerWindows, Ppu, Registers};

/// One of the two screens that a dot is made of.
#[derive(Clone, Copy)]
pub enum Screen {
    Main,
    Sub,
}

/// Returns the layers of a mode, front to back, each with its priority: S is the objects, a digit a background; H is
/// a background's priority 1 and L is 0.
fn order(r: &Registers) -> &'static [u8] {
    match r.mode {
        0 => b"S31H2HS21L2LS13H4HS03L4L",
        1 if r.bg3_front => b"3HS31H2HS21L2LS1S03L",
        1 => b"S31H2HS21L2LS13HS03L",
        7 if r.settings.extbg => b"S3S22HS11LS02L",
        7 => b"S3S2S11LS0",
        _ => b"S31HS22HS11LS02L",
    }
}

/// Returns on which screens a layer is shown, and its windows.
fn settings(r: &Registers, layer: u8) -> (&LayerScreens, &LayerWindows) {
    match layer {
        b'1' => (&r.screens_bg1, &r.windows_bg1),
        b'2' => (&r.screens_bg2, &r.windows_bg2),
        b'3' => (&r.screens_bg3, &r.windows_bg3),
        b'4' => (&r.screens_bg4, &r.windows_bg4),
        _ => (&r.screens_objects, &r.windows_objects),
    }
}

/// Whether a layer is on a screen at a pixel, and no window hides it there.
fn is_on(p: &Ppu, layer: u8, screen: Screen, x: u8) -> bool {
    let (screens, windows) = settings(p.registers(), layer);
    let (on, masked) = match screen {
        Screen::Main => (screens.main, screens.main_masked),
        Screen::Sub => (screens.sub, screens.sub_masked),
    };
    on && !(masked && is_inside(p, windows, x))
}

/// Returns what a layer shows at a dot.
fn layer_at(p: &Ppu, objects: &ObjectRow, layer: u8, row: u16, e: u32) -> Option<Seen>
    requires row { row < 239 }
    requires e { e < 512 }
{
    match layer {
        b'S' => objects.seen[(e / 2) as usize],
        b'1' if p.registers().mode == 7 => first_layer_at(p, row, e / 2),
        b'2' if p.registers().mode == 7 => second_layer_at(p, row, e / 2),
        b'1' => background_at(p, 1, row, e),
        b'2' => background_at(p, 2, row, e),
        b'3' => background_at(p, 3, row, e),
        b'4' => background_at(p, 4, row, e),
        _ => None,
    }
}

/// Returns the letter of a priority.
fn priority_letter(layer: u8, priority: u8) -> u8 {
    match (layer, priority) {
        (b'S', 0) => b'0',
        (b'S', 1) => b'1',
        (b'S', 2) => b'2',
        (b'S', _) => b'3',
        (_, 0) => b'L',
        _ => b'H',
    }
}

/// Returns what is in front on a screen at a dot, with whether 2131 names its layer, if any layer is there.
pub fn front_at(
    p: &Ppu,
    objects: &ObjectRow,
    screen: Screen,
    row: u16,
    e: u32,
) -> Option<(Seen, bool)>
    requires row { row < 239 }
    requires e { e < 512 }
{
    let r = p.registers();
    for place in order(r).chunks(2) {
        let (Some(layer), Some(letter)) = (place.first(), place.last()) else {
            return None;
        };
        if is_on(p, *layer, screen, (e / 2) as u8) {
            if let Some(seen) = layer_at(p, objects, *layer, row, e) {
                if priority_letter(*layer, seen.priority) == *letter {
                    let (screens, _) = settings(r, *layer);
                    return Some((seen, screens.arithmetic && seen.in_arithmetic));
                }
            }
        }
    }
    None
}
