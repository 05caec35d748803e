//! Runs a console by itself, and prints its acts at the ports.

use console_machine::ConsoleSide;
use side_law::Machine;
use snes_defs::{Act, Region};
use std::io;

/// Master clocks of a line, and lines of a frame in NTSC and in PAL.
const LINE: u64 = 1364;

const LINES: u64 = 262;

const PAL_LINES: u64 = 312;

/// The stamps of a master clock in NTSC and in PAL.
const CLOCK: u64 = 5632;

const PAL_CLOCK: u64 = 102_400;

/// More steps than a row takes.
const MOST_STEPS: u32 = 2_000_000;

/// How acts are shown.
#[derive(Clone, Copy, PartialEq, Eq)]
pub enum Show {
    /// With the position of the beam at which the step begins.
    Places,
    /// With the line alone.
    Lines,
    /// With the clocks since the first of them.
    Differences,
    /// Only the bytes that are written.
    Bytes,
}

/// What is shown of a run, and how far the run is.
#[derive(Drop)]
pub struct Run {
    show: Show,
    from: u64,
    to: u64,
    is_torn: bool,
    first: Option<u64>,
}

/// Returns the master clock of a console's next step.
pub fn clock_of(side: &ConsoleSide, region: Region) -> u64 {
    match region {
        Region::Ntsc => side.stamp() / CLOCK,
        Region::Pal => side.stamp() / PAL_CLOCK,
    }
}

/// Takes a step, with room for what it emits; returns whether it was taken.
pub fn make(side: &mut ConsoleSide, got: u8, bytes: &mut [u8]) -> bool {
    if !side.ready() {
        let _count = side.drain(bytes);
    }
    if !side.ready() || side.stamp() > 1 << 62 {
        return false;
    }
    side.step(got);
    true
}

impl Run {
    /// Returns a run that shows acts from one clock to another. With `is_torn`, ports 0 and 1 change during it.
    pub fn new(show: Show, from: u64, to: u64, is_torn: bool) -> Run {
        Run {
            show,
            from,
            to,
            is_torn,
            first: None,
        }
    }

    /// Returns what the console reads from a port at a clock.
    fn incoming(&self, port: u8, clock: u64) -> u8 {
        if !self.is_torn {
            return 0;
        }
        match port {
            0 if clock > 540 => 1,
            1 if clock > 546 => 2,
            _ => 0,
        }
    }

    /// Prints the time of an act.
    fn show_place(&mut self, rt: &impl Print, region: Region, clock: u64) -> io::Result<()> {
        if self.show == Show::Differences {
            let first = self.first.unwrap_or(clock);
            self.first = Some(first);
            return print!(rt; "after {}: ", clock.saturating_sub(first));
        }
        let lines = match region {
            Region::Ntsc => LINES,
            Region::Pal => PAL_LINES,
        };
        let line = clock / LINE;
        print!(rt; "frame {}, line {}", line / lines, line % lines)?;
        if self.show == Show::Places {
            print!(rt; ", clock {}", clock % LINE)?;
        }
        print!(rt; ": ")
    }

    /// Prints an act, unless it is quiet.
    fn show_act(
        &mut self,
        rt: &impl Print,
        region: Region,
        act: Act,
        clock: u64,
    ) -> io::Result<()> {
        if self.show == Show::Bytes {
            if let Act::Write(_, byte) = act {
                print!(rt; " {byte:02X}")?;
            }
            return Ok(());
        }
        self.show_place(rt, region, clock)?;
        match act {
            Act::Quiet => println!(rt; "nothing"),
            Act::Read(port) => println!(rt; "port {port} is read, {}", self.incoming(port, clock)),
            Act::Write(port, byte) => println!(rt; "port {port} gets {byte}"),
            Act::Clear(mask) => println!(rt; "ports {mask} are cleared"),
        }
    }

    /// Takes the steps of a console of a region, and prints its acts.
    pub fn show_acts(
        &mut self,
        rt: &impl Print,
        side: &mut ConsoleSide,
        region: Region,
    ) -> io::Result<()> {
        let mut bytes = [0u8; 1024];
        if self.show == Show::Bytes {
            print!(rt; "bytes:")?;
        }
        for _ in 0..MOST_STEPS {
            let clock = clock_of(side, region);
            if clock >= self.to {
                break;
            }
            let act = side.act();
            let got = match act {
                Act::Read(port) => self.incoming(port, clock),
                _ => 0,
            };
            if act != Act::Quiet && clock >= self.from {
                self.show_act(rt, region, act, clock)?;
            }
            if !make(side, got, &mut bytes) {
                return println!(rt; "no room");
            }
        }
        if self.show == Show::Bytes {
            println!(rt; "")?;
        }
        Ok(())
    }
}
