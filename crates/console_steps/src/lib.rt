//! What the console does in a step, and what happens while the step's clocks pass.
//!
//! Builds on the processor and on the bus with all its parts. `specs/ConsoleState.antt` says what the console is as a
//! machine: which step is due, what it does, what it emits. The functions here are the halves of a step. The first is
//! its effect: an access or internal cycle of the processor, a byte of a transfer, a reset. The second is the clocks
//! that pass after it, with the events of the beam and the rows that these emit. Each is exact for every console state
//! that processor and bus are at. A caller puts the two together in the order of `due_of`.
#![tactic(auto)]

mod bus_access;
mod chip_access;
mod drawing;
mod effects;
mod happening;
mod looks;
mod passing;
mod plain;
mod plain_places;
mod rows;
mod transfers;

pub use bus_access::{BusAccess, REGISTER_CLOCKS, Target, bus_register, is_port, look_up};
pub use chip_access::{give_byte, take_byte, try_read_chip, try_write_chip};
pub use effects::{
    give_interrupt_levels, make_inner, make_move, make_read, make_reset, make_write,
};
pub use looks::try_look;
pub use passing::pass;
pub use plain::{is_calm, is_wired, try_plain};
pub use plain_places::{is_plain_ahead, reach_plain_place};
pub use transfers::{MOVE_CLOCKS, try_move};
