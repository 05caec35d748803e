//! Works out which pixels are inside a layer's windows.

use ppu_regs::{Combine, LayerWindows, Ppu, Window, WindowPart};

fn holds(window: &Window, x: u8) -> bool {
    window.left <= x && x <= window.right
}

/// Whether a pixel is inside the area that a layer makes of the two windows. The area is empty if it uses none.
pub fn is_inside(p: &Ppu, of: &LayerWindows, x: u8) -> bool {
    let r = p.registers();
    let one = holds(&r.window_one, x) != of.one_outside;
    let two = holds(&r.window_two, x) != of.two_outside;
    if !of.one_on {
        return of.two_on && two;
    }
    if !of.two_on {
        return one;
    }
    match of.combine {
        Combine::Or => one || two,
        Combine::And => one && two,
        Combine::Xor => one != two,
        Combine::Xnor => one == two,
    }
}

/// Whether a setting for a part of the colour window applies to a pixel that is inside it or not.
pub fn holds_there(part: WindowPart, inside: bool) -> bool {
    match part {
        WindowPart::Never => false,
        WindowPart::Outside => !inside,
        WindowPart::Inside => inside,
        WindowPart::Always => true,
    }
}
