// The shelf over real files: the edge to the system's files, which shows nothing of what it holds.
//
// It is a `Shelf` (crate `shelf`). A run comes in many small puts, so it gathers the bytes of an output before it writes
// them. It refuses an output that is a file already in use, and says what the system reported at the first fault.
#![tactic(auto)]

mod buffered;
mod cause;
mod disk;
mod gathered;
mod known;
mod opened;

pub use cause::Cause;
pub use disk::FileShelf;
pub use known::Clash;
