// The words as the wire between two workers.
ghost use Rattle.word_log.specs.Passes.{seen_of, IsPassOf};
ghost use Rattle.word_log.specs.Wholes.{both_of, IsWholeOf};
ghost use Rattle.word_log.specs.WordsKnown.{words_set};

use crate::pass::Pass;
use crate::whole::Whole;
use crate::words::Words;
use port_wire::{PassLate, Wire};
use snes_defs::{Region, Side};

impl Wire for Words {
    type Pass = Pass;

    type Whole = Whole;

    ghost region_of = { λ p. p.region };

    ghost is_pass_of = { IsPassOf };

    ghost is_whole_of = { IsWholeOf };

    ghost one_proof = { λ words pass. words_set pass.words words };

    ghost one_whole = { λ words whole. words_set whole.words words };

    ghost seen = { seen_of };

    ghost both = { both_of };

    fn region(&self) -> Region {
        Words::region(self)
    }

    fn side(&self, pass: &Pass) -> Side {
        pass.side()
    }

    #[inline(always)]
    fn known(&self, pass: &Pass) -> u64 {
        pass.known()
    }

    #[inline(always)]
    fn clock(&self, pass: &Pass) -> u64 {
        pass.clock()
    }

    fn part(&self, whole: Whole) -> (Pass, Pass) {
        Words::part(self, whole)
    }

    fn reunite(&self, console: Pass, sound: Pass) -> Whole {
        Words::reunite(self, console, sound)
    }

    #[inline(always)]
    fn read(&self, pass: &mut Pass, at: u64, port: u8) -> Result<u8, PassLate> {
        Words::read(self, pass, at, port)
    }

    #[inline(always)]
    fn clear(&self, pass: &mut Pass, at: u64, mask: u8) -> Result<(), PassLate> {
        Words::clear(self, pass, at, mask)
    }

    #[inline(always)]
    fn write(&self, pass: &mut Pass, at: u64, port: u8, v: u8, next: u64) -> Result<(), PassLate> {
        Words::write(self, pass, at, port, v, next)
    }

    #[inline(always)]
    fn advance(&self, pass: &mut Pass, at: u64) -> Result<u64, PassLate> {
        Words::advance(self, pass, at)
    }

    fn read_whole(&self, whole: &mut Whole, side: Side, at: u64, port: u8) -> Result<u8, PassLate> {
        Words::read_whole(self, whole, side, at, port)
    }

    fn clear_whole(
        &self,
        whole: &mut Whole,
        side: Side,
        at: u64,
        mask: u8,
    ) -> Result<(), PassLate> {
        Words::clear_whole(self, whole, side, at, mask)
    }

    fn write_whole(
        &self,
        whole: &mut Whole,
        side: Side,
        at: u64,
        port: u8,
        v: u8,
        next: u64,
    ) -> Result<(), PassLate> {
        Words::write_whole(self, whole, side, at, port, v, next)
    }

    fn advance_whole(&self, whole: &mut Whole, side: Side, at: u64) -> u64 {
        Words::advance_whole(self, whole, side, at)
    }
}
