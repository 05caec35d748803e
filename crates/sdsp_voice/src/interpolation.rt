ghost use Rattle.std.specs.Prelude.{◌≡◌, ◌<◌, ◌≤◌, ◌^◌, unsigned_abs};
ghost use Rattle.sdsp_voice.specs.Interpolation.{interpolated, three_parts, weighted};

use crate::signed::{clamped, low_16, sum};
use crate::voice::Voice;
use snes_defs::Table;

/// A sample by a number of the table.
#[tactic(auto, unfolding(crate::specs::Interpolation::weighted))]
#[inline(always)]
fn part(number: u16, sample: i16) -> i32
    ensures value { result ≡ weighted number sample }
    ensures small { unsigned_abs result ≤ 2 ^ 21 }
{
    (sample as i32 * number as i32) >> 10
}

/// The first three parts of a voice's value.
#[tactic(auto, unfolding(crate::specs::Interpolation::three_parts))]
#[inline(always)]
fn three(table: &Table, i: usize, voice: &Voice) -> i32
    requires { i < 256 }
    ensures { result ≡ three_parts table.now i voice.now }
{
    let oldest = part(table.at(255 - i), voice.oldest);
    let older = part(table.at(511 - i), voice.older);
    let newer = part(table.at(256 + i), voice.newer);
    sum(sum(oldest, older), newer)
}

/// A voice's value between its four samples.
#[tactic(auto, unfolding(crate::specs::Interpolation::interpolated))]
#[inline(always)]
pub fn interpolate(table: &Table, voice: &Voice) -> i16
    ensures { result ≡ interpolated table.now voice.now }
{
    let i = (voice.position / 16 % 256) as usize;
    let first = low_16(three(table, i, voice));
    let last = part(table.at(i), voice.newest);
    clamped(sum(first as i32, last)) >> 1
}
