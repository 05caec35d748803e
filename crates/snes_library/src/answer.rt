ghost use Rattle.std.specs.Prelude.{◌≡◌};
ghost use Rattle.snes_library.specs.Answer.{status_of, cause_of, place_of, IsToldAs};

use cart_map::CartRefused;
use memory_player::{End, Why};
use snes_defs::Side;

/// The result of a call besides its status.
#[repr(C)]
#[derive(Clone, Copy)]
pub struct SnesAnswer {
    /// The reason why the job was not played to its end, as a number of `snes.h`; 0 at status 0.
    pub cause: u32,
    /// The detail of the cause: the cartridge's chip or RAM size byte, the table's entry, the script's line; else 0.
    pub place: u32,
    /// The number of bytes of video at the front of its slice, at status 0.
    pub video: usize,
    /// The number of bytes of sound at the front of its slice, at status 0.
    pub sound: usize,
}

/// Returns the status of an end: the exit status that the program has for it.
pub(crate) fn status(end: End) -> u32
    ensures { result ≡ status_of end }
{
    match end {
        End::Frames => 1,
        End::Refused(_) => 3,
        End::TooShort(_) => 4,
        End::NoMemory => 5,
    }
}

/// Returns the number of a cause.
pub(crate) fn cause(end: End) -> u32
    ensures { result ≡ cause_of end }
{
    match end {
        End::Refused(Why::Cart(CartRefused::TooShort)) => 1,
        End::Refused(Why::Cart(CartRefused::TooLong)) => 2,
        End::Refused(Why::Cart(CartRefused::NoHeader)) => 3,
        End::Refused(Why::Cart(CartRefused::Coprocessor(_))) => 4,
        End::Refused(Why::Cart(CartRefused::RamSize(_))) => 5,
        End::Refused(Why::Boot) => 6,
        End::Refused(Why::Table(_)) => 7,
        End::Refused(Why::Script(_)) => 8,
        End::TooShort(Side::Console) => 9,
        End::TooShort(Side::Sound) => 10,
        End::Frames => 11,
        End::NoMemory => 12,
    }
}

/// Returns the place of a cause in its input.
pub(crate) fn place(end: End) -> u32
    ensures { result ≡ place_of end }
{
    match end {
        End::Refused(Why::Cart(CartRefused::Coprocessor(chip))) => u32::from(chip),
        End::Refused(Why::Cart(CartRefused::RamSize(size))) => u32::from(size),
        End::Refused(Why::Table(entry)) => u32::from(entry),
        End::Refused(Why::Script(line)) => line,
        End::Refused(Why::Cart(CartRefused::TooShort)) => 0,
        End::Refused(Why::Cart(CartRefused::TooLong)) => 0,
        End::Refused(Why::Cart(CartRefused::NoHeader)) => 0,
        End::Refused(Why::Boot) => 0,
        End::TooShort(_) => 0,
        End::Frames => 0,
        End::NoMemory => 0,
    }
}

/// Writes why a job was not played to its end, and returns the status.
pub(crate) fn told(end: End, answer: &mut SnesAnswer) -> u32
    ensures { IsToldAs end result answer.new }
{
    answer.cause = cause(end);
    answer.place = place(end);
    answer.video = 0;
    answer.sound = 0;
    status(end)
}
