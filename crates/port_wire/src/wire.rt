// The trait of what carries the entries of the two sides, with its calls over a pass and over a whole.
ghost use Rattle.std.specs.Prelude.{◌≡◌, ◌+◌, ◌^◌, ◌<◌, ◌≤◌};
ghost use Rattle.snes_defs.specs.declared.region.Region.{Region};
ghost use Rattle.clock_ratio.specs.Stamp.{least_of, most_of, window_of};
ghost use Rattle.port_wire.specs.Reach.{IsInReach};
ghost use Rattle.port_wire.specs.Seen.{Seen, Both, Half, parted, AreReunited, half_of, with_half};
ghost use Rattle.port_wire.specs.Whole.{other_of, IsOwn, HearBoth};
ghost use Rattle.port_wire.specs.Whole.{EndsReadWhole, EndsClearWhole, EndsWriteWhole, AdvancesWhole};
ghost use Rattle.port_wire.specs.Answers.{HearsOn, EndsRead, EndsClear, EndsWrite, EndsAdvance};

use crate::late::PassLate;
use snes_defs::{Region, Side};

/// What carries the entries of two sides between them. Each side has a pass, over which it reads, clears and writes its
/// ports and publishes its clock; both passes together are a whole.
///
/// Each call over a pass tries once, and returns or is refused. Either way the pass has heard all that was in its
/// `heard` before. It has heard more only of what is stamped at its `upto` or later. So have both sides after a call
/// over a whole.
///
/// What carries the entries may count on this of its callers. Writes are stamped below 2^52, and the clock that a write
/// publishes is at most one step's rise later. A clock is published by itself only within its side's reach. That is at
/// most the window and one such rise past the other side's clock as it knows it.
pub trait Wire: Sync {
    type Pass: Send;

    type Whole;

    // The region whose window and rises hold.
    ghost region_of: { Self → Region };

    // The pass, or the whole, is of this wire.
    ghost is_pass_of: { Self → Self.Pass → Type 0 };

    ghost is_whole_of: { Self → Self.Whole → Type 0 };

    // That a pass, or a whole, is of a wire has one proof at most, so a struct can keep it beside the pass.
    ghost one_proof: { (wire : Self) (pass : Self.Pass) → IsProp (is_pass_of wire pass) };

    ghost one_whole: { (wire : Self) (whole : Self.Whole) → IsProp (is_whole_of wire whole) };

    // What is seen of them.
    ghost seen: { Self.Pass → Seen };

    ghost both: { Self.Whole → Both };

    /// Returns the region of the two machines.
    fn region(&self) -> Region
        ensures { result ≡ region_of self.now };

    /// Returns the side of a pass.
    fn side(&self, pass: &Self::Pass) -> Side
        ensures { result ≡ (seen pass.now).side };

    /// Returns the latest clock of the other side that the pass knows.
    fn known(&self, pass: &Self::Pass) -> u64
        ensures { result ≡ (seen pass.now).half.known };

    /// Returns the clock that the side of the pass has published.
    fn clock(&self, pass: &Self::Pass) -> u64
        ensures { result ≡ (seen pass.now).half.at };

    /// Parts a whole into two passes: the console's, then the sound side's.
    fn part(&self, whole: Self::Whole) -> (Self::Pass, Self::Pass)
        requires { is_whole_of self.now whole }
        ensures console_of { is_pass_of self.now result.0 }
        ensures sound_of { is_pass_of self.now result.1 }
        ensures console { seen result.0 ≡ record { side = Side.Console; half = parted (both whole).console } }
        ensures sound { seen result.1 ≡ record { side = Side.Sound; half = parted (both whole).sound } };

    /// Reunites two passes into their whole. Each side has heard a prefix of what the other logged, which has all of it
    /// up to a stamp that the other has published.
    fn reunite(&self, console: Self::Pass, sound: Self::Pass) -> Self::Whole
        requires console_of { is_pass_of self.now console }
        requires sound_of { is_pass_of self.now sound }
        requires console_side { (seen console).side ≡ Side.Console }
        requires sound_side { (seen sound).side ≡ Side.Sound }
        ensures whole { is_whole_of self.now result }
        ensures console { (both result).console ≡ (seen console).half }
        ensures sound { (both result).sound ≡ (seen sound).half }
        ensures heard { AreReunited (seen console).half (seen sound).half };

    /// Returns the incoming byte of a port at a stamp.
    fn read(&self, pass: &mut Self::Pass, at: u64, port: u8) -> Result<u8, PassLate>
        requires of { is_pass_of self.now pass.old }
        requires port { port < 4 }
        requires own_clock { (seen pass.old).half.at ≤ at }
        ensures still_of { is_pass_of self.now pass.new }
        ensures side { (seen pass.new).side ≡ (seen pass.old).side }
        ensures hears { HearsOn (seen pass.old).half (seen pass.new).half }
        ensures ends { EndsRead (seen pass.old).side at port result (seen pass.old).half (seen pass.new).half };

    /// Zeroes the side's own incoming bytes of a mask at a stamp.
    fn clear(&self, pass: &mut Self::Pass, at: u64, mask: u8) -> Result<(), PassLate>
        requires of { is_pass_of self.now pass.old }
        requires mask { (1 ≤ mask) × (mask ≤ 15) }
        requires own_clock { (seen pass.old).half.at ≤ at }
        ensures still_of { is_pass_of self.now pass.new }
        ensures side { (seen pass.new).side ≡ (seen pass.old).side }
        ensures hears { HearsOn (seen pass.old).half (seen pass.new).half }
        ensures ends { EndsClear (seen pass.old).side at mask result (seen pass.old).half (seen pass.new).half };

    /// Writes a byte to an outgoing port at a stamp, and publishes the clock `next` with it.
    fn write(
        &self,
        pass: &mut Self::Pass,
        at: u64,
        port: u8,
        v: u8,
        next: u64,
    ) -> Result<(), PassLate>
        requires of { is_pass_of self.now pass.old }
        requires port { port < 4 }
        requires own_clock { (seen pass.old).half.at ≤ at }
        requires early { at < 2 ^ 52 }
        requires rises { at + least_of (region_of self.now) ≤ next }
        requires rises_at_most { next ≤ at + most_of (region_of self.now) }
        ensures still_of { is_pass_of self.now pass.new }
        ensures side { (seen pass.new).side ≡ (seen pass.old).side }
        ensures hears { HearsOn (seen pass.old).half (seen pass.new).half }
        ensures ends { EndsWrite (window_of (region_of self.now)) at port v next result (seen pass.old).half
            (seen pass.new).half };

    /// Publishes a clock, and returns the other side's.
    fn advance(&self, pass: &mut Self::Pass, at: u64) -> Result<u64, PassLate>
        requires of { is_pass_of self.now pass.old }
        requires own_clock { (seen pass.old).half.at ≤ at }
        requires reach { IsInReach (region_of self.now) at (seen pass.old).half }
        ensures still_of { is_pass_of self.now pass.new }
        ensures side { (seen pass.new).side ≡ (seen pass.old).side }
        ensures hears { HearsOn (seen pass.old).half (seen pass.new).half }
        ensures ends { EndsAdvance (window_of (region_of self.now)) at result (seen pass.old).half
            (seen pass.new).half };

    /// Returns the incoming byte of a port of a side at a stamp, while no pass is out. It is refused as
    /// `PassLate::Behind` alone.
    fn read_whole(
        &self,
        whole: &mut Self::Whole,
        side: Side,
        at: u64,
        port: u8,
    ) -> Result<u8, PassLate>
        requires of { is_whole_of self.now whole.old }
        requires port { port < 4 }
        requires own_clock { (half_of side (both whole.old)).at ≤ at }
        ensures still_of { is_whole_of self.now whole.new }
        ensures own { IsOwn side (both whole.old) (both whole.new) }
        ensures hears { HearBoth (both whole.old) (both whole.new) }
        ensures ends { EndsReadWhole side at port result (half_of side (both whole.old))
            (half_of (other_of side) (both whole.old)) (half_of side (both whole.new)) };

    /// Zeroes a side's own incoming bytes of a mask at a stamp, while no pass is out. It is refused as
    /// `PassLate::Behind` alone.
    fn clear_whole(
        &self,
        whole: &mut Self::Whole,
        side: Side,
        at: u64,
        mask: u8,
    ) -> Result<(), PassLate>
        requires of { is_whole_of self.now whole.old }
        requires mask { (1 ≤ mask) × (mask ≤ 15) }
        requires own_clock { (half_of side (both whole.old)).at ≤ at }
        ensures still_of { is_whole_of self.now whole.new }
        ensures own { IsOwn side (both whole.old) (both whole.new) }
        ensures hears { HearBoth (both whole.old) (both whole.new) }
        ensures ends { EndsClearWhole side at mask result (half_of side (both whole.old))
            (half_of (other_of side) (both whole.old)) (half_of side (both whole.new)) };

    /// Writes a byte to an outgoing port of a side at a stamp, and publishes the clock `next` with it, while no pass is
    /// out. It is refused as `PassLate::Ahead` alone.
    fn write_whole(
        &self,
        whole: &mut Self::Whole,
        side: Side,
        at: u64,
        port: u8,
        v: u8,
        next: u64,
    ) -> Result<(), PassLate>
        requires of { is_whole_of self.now whole.old }
        requires port { port < 4 }
        requires own_clock { (half_of side (both whole.old)).at ≤ at }
        requires early { at < 2 ^ 52 }
        requires rises { at + least_of (region_of self.now) ≤ next }
        requires rises_at_most { next ≤ at + most_of (region_of self.now) }
        ensures still_of { is_whole_of self.now whole.new }
        ensures own { IsOwn side (both whole.old) (both whole.new) }
        ensures hears { HearBoth (both whole.old) (both whole.new) }
        ensures ends { EndsWriteWhole (window_of (region_of self.now)) at port v next result
            (half_of side (both whole.old)) (half_of (other_of side) (both whole.old))
            (half_of side (both whole.new)) };

    /// Publishes a clock of a side, and returns the other side's, while no pass is out.
    fn advance_whole(&self, whole: &mut Self::Whole, side: Side, at: u64) -> u64
        requires of { is_whole_of self.now whole.old }
        requires own_clock { (half_of side (both whole.old)).at ≤ at }
        requires reach { IsInReach (region_of self.now) at (half_of side (both whole.old)) }
        ensures still_of { is_whole_of self.now whole.new }
        ensures own { IsOwn side (both whole.old) (both whole.new) }
        ensures hears { HearBoth (both whole.old) (both whole.new) }
        ensures told { result ≡ (half_of (other_of side) (both whole.old)).at }
        ensures advances { AdvancesWhole at (half_of side (both whole.old)) (half_of (other_of side) (both whole.old))
            (half_of side (both whole.new)) };
}
