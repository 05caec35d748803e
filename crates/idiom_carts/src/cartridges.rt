ghost use Rattle.std.specs.Prelude.{◌≡◌, ◌≤◌, IfOk, length, vec_len};

use crate::bytes::{
    AUTOREAD, AUTOREAD_HEADER, FIELD, FIELD_HEADER, FLIPS, FLIPS_HEADER, HIRES, HIRES_HEADER,
    KEYOFF, KEYOFF_HEADER, KEYON, KEYON_HEADER, LATCH, LATCH_HEADER, LINEIRQ, LINEIRQ_HEADER,
    ONESHOT, ONESHOT_HEADER, REGION, REGION_HEADER, SHARED, VRAM, VRAM_HEADER,
};
use std::alloc::{AllocError, Global};

/// The length of each cartridge: one bank of 32 KiB.
pub const SIZE: usize = 0x8000;

/// The offset at which the letters and routines begin that all cartridges have.
const SHARED_AT: usize = 0x7800;

/// The offset at which header and vectors begin.
const HEADER_AT: usize = 0x7fc0;

/// A way in which programs use the console, and in which the two profiles differ. Each has a cartridge.
#[derive(Clone, Copy)]
pub enum Idiom {
    /// Waits until the auto-read of the pads has begun and until it is over.
    AutoRead,
    /// Objects that are higher than wide, turned upside down.
    Flips,
    /// V-IRQs for the line on which the beam already is.
    LineIrq,
    /// Letters in high resolution over a backdrop that is not black.
    Hires,
    /// Asks whether this is a console for PAL.
    Region,
    /// Waits for the fields.
    Field,
    /// Writes VRAM while the picture is drawn.
    Vram,
    /// Writes KON several times, one right after another.
    KeyOn,
    /// Sets KOFF for a short time.
    KeyOff,
    /// Samples that end without a loop.
    OneShot,
    /// Latches the counters of the beam by 4201.
    Latch,
}

/// All idioms.
pub static IDIOMS: [Idiom; 11] = [
    Idiom::AutoRead,
    Idiom::Flips,
    Idiom::LineIrq,
    Idiom::Hires,
    Idiom::Region,
    Idiom::Field,
    Idiom::Vram,
    Idiom::KeyOn,
    Idiom::KeyOff,
    Idiom::OneShot,
    Idiom::Latch,
];

/// Returns the name of an idiom's files, without their endings.
pub fn name(idiom: Idiom) -> &'static str {
    match idiom {
        Idiom::AutoRead => "autoread",
        Idiom::Flips => "flips",
        Idiom::LineIrq => "lineirq",
        Idiom::Hires => "hires",
        Idiom::Region => "region",
        Idiom::Field => "field",
        Idiom::Vram => "vram",
        Idiom::KeyOn => "keyon",
        Idiom::KeyOff => "keyoff",
        Idiom::OneShot => "oneshot",
        Idiom::Latch => "latch",
    }
}

/// Returns a cartridge: its program, what all cartridges share, header and vectors, and zeros between them.
fn image(alloc: Global, program: &[u8], header: &[u8; 64]) -> Result<Vec<u8>, AllocError>
    requires fits { length program.now ≤ 0x7800 }
    ensures size { IfOk result (λ image. vec_len image ≡ 32768) }
{
    let mut image = vec![in alloc; 0u8; SIZE]?;
    let bytes = image.as_mut_slice();
    bytes[0..program.len()].copy_from_slice(program);
    bytes[SHARED_AT..SHARED_AT + SHARED.len()].copy_from_slice(&SHARED);
    bytes[HEADER_AT..SIZE].copy_from_slice(header);
    Ok(image)
}

/// Returns the cartridge of an idiom.
pub fn cartridge(alloc: Global, idiom: Idiom) -> Result<Vec<u8>, AllocError>
    ensures size { IfOk result (λ image. vec_len image ≡ 32768) }
{
    match idiom {
        Idiom::AutoRead => image(alloc, &AUTOREAD, &AUTOREAD_HEADER),
        Idiom::Flips => image(alloc, &FLIPS, &FLIPS_HEADER),
        Idiom::LineIrq => image(alloc, &LINEIRQ, &LINEIRQ_HEADER),
        Idiom::Hires => image(alloc, &HIRES, &HIRES_HEADER),
        Idiom::Region => image(alloc, &REGION, &REGION_HEADER),
        Idiom::Field => image(alloc, &FIELD, &FIELD_HEADER),
        Idiom::Vram => image(alloc, &VRAM, &VRAM_HEADER),
        Idiom::KeyOn => image(alloc, &KEYON, &KEYON_HEADER),
        Idiom::KeyOff => image(alloc, &KEYOFF, &KEYOFF_HEADER),
        Idiom::OneShot => image(alloc, &ONESHOT, &ONESHOT_HEADER),
        Idiom::Latch => image(alloc, &LATCH, &LATCH_HEADER),
    }
}

/// Returns the script by which an idiom is played in the first profile.
pub fn first_script(idiom: Idiom) -> &'static str {
    match idiom {
        Idiom::AutoRead => "900 0090 0000\n",
        Idiom::Region => "version 2 pal\n",
        _ => "",
    }
}

/// Returns the script by which an idiom is played in the second profile.
pub fn second_script(idiom: Idiom) -> &'static str {
    match idiom {
        Idiom::AutoRead => "version 3 ntsc\n900 0090 0000\n",
        Idiom::Region => "version 3 pal\n",
        _ => "version 3 ntsc\n",
    }
}
