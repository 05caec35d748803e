// The two seats of a pass or a whole.
use crate::plays::{ListSeat, LockSeat};

/// The clock that a side has published, and the other side's as it knows it.
#[derive(Clone, Copy)]
pub struct Clocks {
    /// The clock that the side has published.
    pub own: u64,
    /// The latest clock of the other side that the side knows.
    pub known: u64,
}

/// A seat of the lock table and one of the list table, for the same sides.
#[derive(Drop)]
pub struct Seats {
    /// The seat of the lock table.
    pub lock: LockSeat,
    /// The seat of the list table.
    pub list: ListSeat,
    /// The clocks of the side whose call returned last.
    pub clocks: Clocks,
}
