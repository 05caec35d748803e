// What is behind the ports of a machine that runs over its pass, or over a whole.
ghost use Rattle.std.specs.Prelude.{◌≡◌};
ghost use Rattle.clock_ratio.specs.Stamp.{least_of};

use port_wire::{PassLate, Wire};
use snes_defs::Side;

/// A pass as the ports of its machine.
#[derive(Drop)]
pub(crate) struct Over<'a, W: Wire> {
    /// The wire.
    pub(crate) wire: &'a W,
    /// The machine's pass over it.
    pub(crate) pass: &'a mut W::Pass,
    /// The least rise of a step.
    pub(crate) least: u64,
    /// The last refusal.
    pub(crate) late: PassLate,
    /// A step may emit with so many bytes buffered, or fewer.
    pub(crate) held: usize,
    ghost of: { W.is_pass_of wire.now pass.now } by { W.one_proof wire.now pass.now },
    ghost rise: { least ≡ least_of (W.region_of wire.now) },
}

/// A whole as the ports of the machine of one side.
#[derive(Drop)]
pub(crate) struct OverWhole<'a, W: Wire> {
    /// The wire.
    pub(crate) wire: &'a W,
    /// Both passes over it.
    pub(crate) whole: &'a mut W::Whole,
    /// The machine's side.
    pub(crate) side: Side,
    /// The least rise of a step.
    pub(crate) least: u64,
    ghost of: { W.is_whole_of wire.now whole.now } by { W.one_whole wire.now whole.now },
    ghost rise: { least ≡ least_of (W.region_of wire.now) },
}
