// Generated tapes with several kinds of traffic.
ghost use Rattle.std.specs.Prelude.{◌≡◌, ◌<◌, ◌≤◌, [], IfOk, vec_len};
ghost use Rattle.side_law.specs.Tape.{AreBeats, IsBeat};
ghost use Rattle.side_law.specs.Moves.{IsAtPorts};
ghost use Rattle.clock_ratio.specs.Stamp.{least_of, most_of};

use crate::dice::Dice;
use clock_ratio::{least, most};
use side_law::{Beat, Tape};
use snes_defs::{Act, Region, Side};
use std::alloc::Global;
use std::test::Fail;

/// The number of beats of a tape.
const BEATS: u64 = 6000;

/// What a side does for some beats.
#[derive(Clone, Copy)]
enum Traffic {
    /// A write and a read of one port in turn. The other side begins with the read.
    Mailbox,
    /// Writes alone.
    Burst,
    /// Reads alone.
    Polls,
    /// Clears between reads and writes.
    Clears,
    /// Nothing at the ports.
    BusState,
}

/// The style of the tapes of a pair.
#[derive(Clone, Copy)]
pub(crate) struct Style {
    /// The number of different rises, all multiples of the least, so that both sides are often at the same stamp. 0:
    /// any rise from the least to the most.
    pub(crate) grid: u64,
    /// The side that reads and does nothing else, more often than there is room for bytes.
    pub(crate) reader: Option<Side>,
}

/// Returns the style of a pair, by its number.
pub(crate) fn style_of(number: u64) -> Style
    ensures { result.grid ≤ 6 }
{
    let grid = match number % 4 {
        0 => 0,
        1 => 1,
        2 => 3,
        _ => 6,
    };
    let reader = match number % 16 {
        5 => Some(Side::Console),
        9 => Some(Side::Sound),
        _ => None,
    };
    Style { grid, reader }
}

fn rise(dice: &mut Dice, region: Region, grid: u64) -> u64
    requires { grid ≤ 6 }
    ensures least { least_of region ≤ result }
    ensures most { result ≤ most_of region }
{
    if grid == 0 {
        least(region) + dice.below(most(region) - least(region) + 1)
    } else {
        least(region) * (1 + dice.below(grid))
    }
}

fn some_traffic(dice: &mut Dice) -> Traffic {
    match dice.below(5) {
        0 => Traffic::Mailbox,
        1 => Traffic::Burst,
        2 => Traffic::Polls,
        3 => Traffic::Clears,
        _ => Traffic::BusState,
    }
}

/// Returns for how many beats a side continues with its traffic.
fn beats_of(dice: &mut Dice, traffic: Traffic) -> u64
    ensures { 1 ≤ result }
{
    match traffic {
        Traffic::Mailbox => 20 + dice.below(200),
        Traffic::Burst => 200 + dice.below(300),
        Traffic::Polls => 50 + dice.below(200),
        Traffic::Clears => 20 + dice.below(100),
        Traffic::BusState => 1 + dice.below(300),
    }
}

fn write(dice: &mut Dice, port: u64) -> Act
    requires { port < 4 }
    ensures { IsAtPorts result }
{
    Act::Write(port as u8, dice.below(256) as u8)
}

fn read(port: u64) -> Act
    requires { port < 4 }
    ensures { IsAtPorts result }
{
    Act::Read(port as u8)
}

fn clear(dice: &mut Dice) -> Act
    ensures { IsAtPorts result }
{
    Act::Clear(1 + dice.below(15) as u8)
}

/// Returns the act of a beat; `first` says whether a mailbox writes at it.
fn act(dice: &mut Dice, traffic: Traffic, first: bool) -> Act
    ensures { IsAtPorts result }
{
    let port = dice.below(4);
    match traffic {
        Traffic::Mailbox => { if first { write(dice, 0) } else { read(0) } }
        Traffic::Burst => write(dice, port),
        Traffic::Polls => read(port),
        Traffic::Clears => match dice.below(4) {
            0 => clear(dice),
            1 => write(dice, port),
            _ => read(port),
        },
        Traffic::BusState => Act::Quiet,
    }
}

fn beat(dice: &mut Dice, region: Region, grid: u64, traffic: Traffic, first: bool) -> Beat
    requires { grid ≤ 6 }
    ensures { IsBeat region result }
{
    Beat {
        rise: rise(dice, region, grid),
        act: act(dice, traffic, first),
    }
}

/// Returns the tape of a side of a pair.
#[tactic(auto, using(crate::proofs::Beats::one_more))]
pub(crate) fn tape(
    alloc: Global,
    region: Region,
    side: Side,
    style: Style,
    seed: u64,
) -> Result<Tape, Fail>
    requires { style.grid ≤ 6 }
    ensures region { IfOk result (λ t. t.state.region ≡ region) }
    ensures starts { IfOk result (λ t. t.state.stamp ≡ 0) }
    ensures empty { IfOk result (λ t. t.waiting ≡ []) }
{
    let parity = match side {
        Side::Console => 0,
        Side::Sound => 1,
    };
    let mut dice = Dice::new(seed.wrapping_mul(2) + parity);
    let mut beats = Vec::new(alloc);
    let mut kind = Traffic::Mailbox;
    let mut left = 200;
    'beats: for k in 0..BEATS {
        if left == 0 {
            kind = some_traffic(&mut dice);
            left = beats_of(&mut dice, kind);
        }
        left -= 1;
        let now = if style.reader == Some(side) {
            Traffic::Polls
        } else {
            kind
        };
        beats.push(beat(&mut dice, region, style.grid, now, k % 2 == parity))?;
    }
    Ok(Tape::new(alloc, region, beats)?)
}

/// Returns the console's tape of 20,000 writes to port 0 at the least rise, and the sound side's tape of 5,000 reads of
/// it. The bytes are 0 to 255 over and over.
#[tactic(auto, using(crate::proofs::Beats::one_more))]
pub(crate) fn writes_and_reads(alloc: Global) -> Result<(Tape, Tape), Fail>
    ensures regions { IfOk result (λ t. t.0.state.region ≡ t.1.state.region) }
    ensures console_starts { IfOk result (λ t. t.0.state.stamp ≡ 0) }
    ensures sound_starts { IfOk result (λ t. t.1.state.stamp ≡ 0) }
    ensures console_empty { IfOk result (λ t. t.0.waiting ≡ []) }
    ensures sound_empty { IfOk result (λ t. t.1.waiting ≡ []) }
{
    let mut writes = Vec::new(alloc);
    'writes: for k in 0..20_000u32 {
        writes.push(Beat {
            rise: 33_792,
            act: Act::Write(0, (k % 256) as u8),
        })?;
    }
    let mut reads = Vec::new(alloc);
    'reads: for _ in 0..5_000u32 {
        reads.push(Beat {
            rise: 118_125,
            act: Act::Read(0),
        })?;
    }
    let console = Tape::new(alloc, Region::Ntsc, writes)?;
    let sound = Tape::new(alloc, Region::Ntsc, reads)?;
    Ok((console, sound))
}
