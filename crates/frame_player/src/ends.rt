// Why a call was not done.
use memory_player::Why;
use snes_defs::Side;

/// The reason why no console was made.
#[derive(Clone, Copy, Debug, PartialEq, Eq)]
pub enum BeginEnd {
    /// No frames, or more than 36,000, were asked for.
    Frames,
    /// More than 64 slots were asked for.
    Slots,
    /// An input was not accepted.
    Refused(Why),
    /// Allocation failed.
    NoMemory,
}

/// The reason why no frame was played.
#[derive(Clone, Copy, Debug, PartialEq, Eq)]
pub enum FrameEnd {
    /// The path lasts as many frames as it may.
    Frames,
    /// The room for this side is too short for the frame.
    TooShort(Side),
}
