//! The console side without its processor: memories, registers, DMA, PPU and beam on one bus.
//!
//! The crate depends on the parts: the address map, the CPU's registers, the DMA channels, the PPU with its cache
//! of decoded tiles, the beam. Each is exact by its own definitions. `Bus` joins them. It reads or writes a byte at
//! an address or at a register of the B bus. It carries out the events of the beam, and resets. It knows neither
//! steps nor clocks: the machine above says what comes when.
#![tactic(auto)]

mod address_map;
mod bus;
mod cart_board;
mod copy;
mod happenings;
mod lends;
mod profiles;
mod start;

pub use address_map::MemoryAccess;
pub use bus::Bus;
pub use cart_board::CartBoard;
