// Why a call for a held console was not done, and how that is told.
ghost use Rattle.std.specs.Prelude.{◌≡◌};
ghost use Rattle.snes_library.specs.Fault.{IsFaultTold, status_of_fault, cause_of_fault, place_of_fault};
ghost use Rattle.snes_library.specs.Fault.{fault_of_begin, fault_of_frame};

use crate::answer::{SnesAnswer, cause, place, status};
use frame_player::{BeginEnd, FrameEnd};
use memory_player::End;

/// Why a call for a held console was not done.
#[derive(Clone, Copy)]
pub enum Fault {
    /// The caller's struct holds no console.
    Empty,
    /// It holds one that has not ended.
    Full,
    /// The region is neither 0 nor 1.
    Region,
    /// There is no such slot, or more than 64 were asked for.
    Slot,
    /// Another cause, which `snes_play` has too.
    End(End),
}

/// Returns why no console was made.
pub(crate) fn of_begin(end: BeginEnd) -> Fault
    ensures { result ≡ fault_of_begin end }
{
    match end {
        BeginEnd::Frames => Fault::End(End::Frames),
        BeginEnd::Slots => Fault::Slot,
        BeginEnd::Refused(cause) => Fault::End(End::Refused(cause)),
        BeginEnd::NoMemory => Fault::End(End::NoMemory),
    }
}

/// Returns why no frame was played.
pub(crate) fn of_frame(end: FrameEnd) -> Fault
    ensures { result ≡ fault_of_frame end }
{
    match end {
        FrameEnd::Frames => Fault::End(End::Frames),
        FrameEnd::TooShort(side) => Fault::End(End::TooShort(side)),
    }
}

/// The status of a call that refuses what it is given, or when it is called.
pub(crate) const REFUSED: u32 = 3;

/// Returns the status of a fault.
pub(crate) fn fault_status(fault: Fault) -> u32
    ensures { result ≡ status_of_fault fault }
{
    match fault {
        Fault::Empty => 6,
        Fault::Full => 7,
        Fault::Region => REFUSED,
        Fault::Slot => REFUSED,
        Fault::End(end) => status(end),
    }
}

/// Returns the number of its cause.
fn fault_cause(fault: Fault) -> u32
    ensures { result ≡ cause_of_fault fault }
{
    match fault {
        Fault::Empty => 13,
        Fault::Full => 16,
        Fault::Region => 14,
        Fault::Slot => 15,
        Fault::End(end) => cause(end),
    }
}

/// Returns the place of its cause in an input.
fn fault_place(fault: Fault) -> u32
    ensures { result ≡ place_of_fault fault }
{
    match fault {
        Fault::Empty => 0,
        Fault::Full => 0,
        Fault::Region => 0,
        Fault::Slot => 0,
        Fault::End(end) => place(end),
    }
}

/// Writes why a call was not done, and returns the status.
pub(crate) fn fault_told(fault: Fault, answer: &mut SnesAnswer) -> u32
    ensures { IsFaultTold fault result answer.new }
{
    answer.cause = fault_cause(fault);
    answer.place = fault_place(fault);
    answer.video = 0;
    answer.sound = 0;
    fault_status(fault)
}
