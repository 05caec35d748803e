// The ports as the wire between two workers.
ghost use Rattle.port_log.specs.Passes.{seen_of, IsPassOf};
ghost use Rattle.port_log.specs.Wholes.{both_of, IsWholeOf};
ghost use Rattle.port_log.specs.PortsKnown.{ports_set};

use crate::lateness::over_pass;
use crate::pass::Pass;
use crate::ports::Ports;
use crate::whole::Whole;
use port_wire::{PassLate, Wire};
use snes_defs::{Region, Side};

impl Wire for Ports {
    type Pass = Pass;

    type Whole = Whole;

    ghost region_of = { λ p. p.region };

    ghost is_pass_of = { IsPassOf };

    ghost is_whole_of = { IsWholeOf };

    ghost one_proof = { λ ports pass. ports_set pass.ports ports };

    ghost one_whole = { λ ports whole. ports_set whole.ports ports };

    ghost seen = { seen_of };

    ghost both = { both_of };

    fn region(&self) -> Region {
        Ports::region(self)
    }

    fn side(&self, pass: &Pass) -> Side {
        pass.side()
    }

    fn known(&self, pass: &Pass) -> u64 {
        pass.known()
    }

    fn clock(&self, pass: &Pass) -> u64 {
        pass.clock()
    }

    fn part(&self, whole: Whole) -> (Pass, Pass) {
        Ports::part(self, whole)
    }

    fn reunite(&self, console: Pass, sound: Pass) -> Whole {
        Ports::reunite(self, console, sound)
    }

    #[inline(always)]
    fn read(&self, pass: &mut Pass, at: u64, port: u8) -> Result<u8, PassLate> {
        Ports::read(self, pass, at, port)
    }

    #[inline(always)]
    fn clear(&self, pass: &mut Pass, at: u64, mask: u8) -> Result<(), PassLate> {
        Ports::clear(self, pass, at, mask)
    }

    #[inline(always)]
    fn write(&self, pass: &mut Pass, at: u64, port: u8, v: u8, next: u64) -> Result<(), PassLate> {
        Ports::write(self, pass, at, port, v, next)
    }

    #[inline(always)]
    fn advance(&self, pass: &mut Pass, at: u64) -> Result<u64, PassLate> {
        Ports::advance(self, pass, at)
    }

    fn read_whole(&self, whole: &mut Whole, side: Side, at: u64, port: u8) -> Result<u8, PassLate> {
        match Ports::read_whole(self, whole, side, at, port) {
            Ok(byte) => Ok(byte),
            Err(late) => Err(over_pass(late)),
        }
    }

    fn clear_whole(
        &self,
        whole: &mut Whole,
        side: Side,
        at: u64,
        mask: u8,
    ) -> Result<(), PassLate> {
        match Ports::clear_whole(self, whole, side, at, mask) {
            Ok(()) => Ok(()),
            Err(late) => Err(over_pass(late)),
        }
    }

    fn write_whole(
        &self,
        whole: &mut Whole,
        side: Side,
        at: u64,
        port: u8,
        v: u8,
        next: u64,
    ) -> Result<(), PassLate> {
        match Ports::write_whole(self, whole, side, at, port, v, next) {
            Ok(()) => Ok(()),
            Err(late) => Err(over_pass(late)),
        }
    }

    fn advance_whole(&self, whole: &mut Whole, side: Side, at: u64) -> u64 {
        Ports::advance_whole(self, whole, side, at)
    }
}
