//! Makes a random script.

use crate::bytes::Bytes;
use case_text::Generator;
use std::alloc::Global;

/// Adds a space and the four hexadecimal digits of a pad.
fn add_pad(alloc: Global, text: &mut Bytes, pad: u16) -> Option<()> {
    let digits = format!(in alloc; " {pad:04X}").ok()?;
    text.add(digits.as_bytes())
}

/// Returns a script with a region, and the pads of each frame. Some frames, but not the first, may begin with a reset.
pub fn script(alloc: Global, g: &mut Generator, frames: u32) -> Option<Bytes> {
    let mut text = Bytes::new(alloc);
    text.add(if g.byte(1) % 4 == 0 {
        b"version 2 pal\n"
    } else {
        b"version 2 ntsc\n"
    })?;
    let resets = g.byte(1) % 3 == 0;
    for frame in 0..frames {
        if frame > 0 && resets && g.byte(1) % 3 == 0 {
            text.add(b"reset\n")?;
        }
        text.add(b"1")?;
        add_pad(alloc, &mut text, (g.next() / 65_536) as u16)?;
        add_pad(alloc, &mut text, (g.next() / 65_536) as u16)?;
        text.add(b"\n")?;
    }
    Some(text)
}
