// The plain types of the console, and the constants that both of its halves count by.
//
// Depends on nothing but std. Contracts see a `Bytes` and a `Table` as the lists that they hold, and a `Spans` as a
// script. So the crates above compare them with what definitions make.
#![tactic(auto)]

mod bytes;
mod cart;
mod ports;
mod profile;
mod region;
mod script;
mod spot;
mod table;

pub use bytes::Bytes;
pub use cart::{Cart, Job, MapKind};
pub use ports::{Act, Side};
pub use profile::Profile;
pub use region::Region;
pub use script::{Span, Spans};
pub use spot::{IrqTime, Spot};
pub use table::Table;

/// Out of memory: the one failure that no input causes.
#[derive(Clone, Copy, Debug)]
pub struct NoMemory;

/// The master clocks of a scanline.
pub const LINE_CLOCKS: u16 = 1364;

/// The line clock at which horizontal blank begins. There the row of the line is drawn.
pub const BLANK_CLOCK: u16 = 1096;

/// How far one side may run ahead of the other's published clock, in stamps: 16 scanlines.
pub const WINDOW: u64 = 122_912_768;

/// The least number of stamps by which one step of a machine raises its stamp: 6 master clocks.
pub const LEAST_RISE: u64 = 33_792;

/// The greatest number of stamps by which one step of a machine raises its stamp: the 40 master clocks of a refresh.
pub const MOST_RISE: u64 = 225_280;

/// The most frames that a job may have.
pub const MOST_FRAMES: u32 = 36_000;
