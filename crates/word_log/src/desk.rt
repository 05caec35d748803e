// What a side keeps next to its seat.
ghost use Rattle.std.specs.Prelude.{IfOk};
ghost use Rattle.snes_defs.specs.declared.ports.Side.TheVariants.{Console, Sound};
ghost use Rattle.word_log.specs.Known.{no_half};
ghost use Rattle.word_log.specs.Desks.{IsReady};

use port_log::PortLog;
use snes_defs::{NoMemory, Region};
use std::alloc::Global;

/// What reaches a side's ports, and the numbers by which it continues. The log stands for the side's own clears and for
/// the writes of the other side that it has taken.
#[derive(Drop)]
pub struct Desk {
    /// The log of the ports.
    pub log: PortLog,
    /// The latest clock of the other side that the side knows.
    pub known: u64,
    /// How many of the other side's writes the side has taken.
    pub heard: u64,
    /// How many writes of its own the side has counted.
    pub written: u64,
}

impl Desk {
    /// Returns the desk of a side that has logged and taken nothing.
    pub fn new(alloc: Global, region: Region) -> Result<Desk, NoMemory>
        ensures console { IfOk result (λ desk. IsReady Console region no_half desk) }
        ensures sound { IfOk result (λ desk. IsReady Sound region no_half desk) }
    {
        let log = PortLog::new(alloc, region)?;
        Ok(Desk {
            log,
            known: 0,
            heard: 0,
            written: 0,
        })
    }
}
