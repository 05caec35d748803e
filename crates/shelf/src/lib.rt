// The shelf of files as a trait: named files that a run loads whole, and the outputs that it writes.
//
// `Shelf` is the trait that the layers above are generic over. It shows what is held and written, or keeps it to
// itself. It counts its faults, so that a caller can show the cause of each failure. The shelf over real files is in
// `file_shelf`, two in memory are in `memory_shelves`.
//
// A caller loads into an empty `Vec`, and creates each output except `Out::Say` before it puts to it.
#![tactic(auto)]

mod counts;
mod shelves;

pub use counts::Counts;
pub use shelves::{Failed, Input, LoadEnd, Out, Shelf};
