ghost use Rattle.std.specs.Prelude.{◌≡◌, ◌≤◌, ◌^◌, ◌*ℤ◌, pos, length, unsigned_abs};
ghost use Rattle.std.specs.Int.{w32, cast_unsigned, int_max, int_min};
ghost use Rattle.sdsp_voice.specs.Signed.{shifted};
ghost use Rattle.sdsp_voice.specs.Sample.{added, by_volume, gone_on, mixed, moved, output, pitch_of, shown};

use crate::brr::decode_times;
use crate::envelope::step_envelope;
use crate::interpolation::interpolate;
use crate::setting::Setting;
use crate::signed::{clamped, low_15, sum};
use crate::sums::Sums;
use crate::voice::Voice;
use snes_defs::Table;

/// A voice's output.
#[tactic(auto, unfolding(crate::specs::Sample::output))]
#[inline(always)]
pub fn output_of(table: &Table, noise: u16, setting: &Setting, voice: &Voice) -> i32
    ensures value { result ≡ output table.now noise setting.now voice.now }
    ensures small { unsigned_abs result ≤ 2 ^ 20 }
{
    let value = if setting.noisy {
        low_15(noise as i32)
    } else {
        interpolate(table, voice)
    };
    (value as i32 * voice.envelope as i32) >> 11
}

/// An output by a volume.
#[tactic(auto, unfolding(crate::specs::Sample::by_volume))]
#[inline(always)]
fn with_volume(out: i32, volume: i8) -> i32
    requires { unsigned_abs out ≤ 2 ^ 20 }
    ensures value { result ≡ by_volume out volume }
    ensures small { unsigned_abs result ≤ 2 ^ 22 }
{
    (out * volume as i32) >> 6
}

/// A sum with one more output added.
#[tactic(auto, unfolding(crate::specs::Sample::added))]
#[inline(always)]
fn add(sum: i16, out: i32, volume: i8) -> i16
    requires { unsigned_abs out ≤ 2 ^ 20 }
    ensures { result ≡ added sum out volume }
{
    clamped(sum as i32 + with_volume(out, volume))
}

/// The sums with one more output added.
#[tactic(auto, unfolding(crate::specs::Sample::mixed))]
#[inline(always)]
pub fn mix(sums: Sums, out: i32, setting: &Setting) -> Sums
    requires { unsigned_abs out ≤ 2 ^ 20 }
    ensures { result ≡ mixed sums out setting.now }
{
    Sums {
        left: add(sums.left, out, setting.left),
        right: add(sums.right, out, setting.right),
        echo_left: if setting.echoed {
            add(sums.echo_left, out, setting.left)
        } else {
            sums.echo_left
        },
        echo_right: if setting.echoed {
            add(sums.echo_right, out, setting.right)
        } else {
            sums.echo_right
        },
    }
}

/// The sums with a voice's output added, and the output. An envelope of 0 is silence, and is tested first.
#[tactic(auto, using(crate::proofs::Quiet::output_of_none, crate::proofs::Quiet::mixed_silence))]
#[inline(always)]
pub fn sound(table: &Table, noise: u16, setting: &Setting, voice: &Voice, sums: Sums) -> (Sums, i32)
    ensures sums { result.0 ≡ mixed sums (output table.now noise setting.now voice.now) setting.now }
    ensures out { result.1 ≡ output table.now noise setting.now voice.now }
    ensures small { unsigned_abs result.1 ≤ 2 ^ 20 }
{
    if voice.envelope == 0 {
        (sums, 0)
    } else {
        let out = output_of(table, noise, setting, voice);
        (mix(sums, out, setting), out)
    }
}

/// Sets ENVX and OUTX to those of this sample.
#[tactic(auto, unfolding(crate::specs::Sample::shown))]
#[inline(always)]
fn show(out: i32, voice: &mut Voice)
    requires { unsigned_abs out ≤ 2 ^ 20 }
    ensures { voice.new ≡ shown out voice.old }
{
    voice.envx = (voice.envelope / 16 % 128) as u8;
    voice.outx = ((out >> 7).cast_unsigned() % 256) as u8;
}

/// What the output of the voice before adds to a pitch.
#[inline(always)]
fn pitch_part(before: i32, pitch: u16) -> i32
    requires before { unsigned_abs before ≤ 2 ^ 20 }
    requires pitch { pitch ≤ 0x3FFF }
    ensures value { result ≡ shifted (shifted before 4 *ℤ pos pitch) 10 }
    ensures small { unsigned_abs result ≤ 2 ^ 21 }
{
    let high = before >> 4;
    (high * pitch as i32) >> 10
}

/// A pitch held from 0 to 3FFF.
#[inline(always)]
fn held(z: i32) -> u32
    ensures value { result ≡ cast_unsigned w32 (int_max (pos 0) (int_min z (pos 0x3FFF))) }
    ensures small { result ≤ 0x3FFF }
{
    z.clamp(0, 0x3FFF).cast_unsigned()
}

/// The pitch, moved by the output of the voice before.
#[tactic(auto, unfolding(crate::specs::Sample::pitch_of))]
#[inline(always)]
fn pitch(setting: &Setting, before: i32) -> u32
    requires before { unsigned_abs before ≤ 2 ^ 20 }
    requires pitch { setting.now.pitch ≤ 0x3FFF }
    ensures value { result ≡ pitch_of setting.now before }
    ensures small { result ≤ 65535 }
{
    if setting.modulated {
        held(sum(setting.pitch as i32, pitch_part(before, setting.pitch)))
    } else {
        setting.pitch as u32
    }
}

/// Adds the pitch to the position, and decodes the samples that it passes.
#[tactic(auto, unfolding(crate::specs::Sample::moved))]
#[inline(always)]
fn move_position(ram: &[u8], entry: u16, pitch: u32, voice: &mut Voice)
    requires ram { length ram.now ≡ 65536 }
    requires pitch { pitch ≤ 65535 }
    ensures { voice.new ≡ moved ram.now entry pitch voice.old }
{
    let position = voice.position as u32 + pitch;
    voice.position = (position % 4096) as u16;
    decode_times(ram, entry, position / 4096, voice);
}

/// Moves a voice on after its output.
#[tactic(auto, unfolding(crate::specs::Sample::gone_on))]
#[inline(always)]
pub fn go_on(ram: &[u8], setting: &Setting, s: u64, before: i32, out: i32, voice: &mut Voice)
    requires ram { length ram.now ≡ 65536 }
    requires before { unsigned_abs before ≤ 2 ^ 20 }
    requires out { unsigned_abs out ≤ 2 ^ 20 }
    requires pitch { setting.now.pitch ≤ 0x3FFF }
    ensures { voice.new ≡ gone_on ram.now setting.now s before out voice.old }
{
    show(out, voice);
    step_envelope(setting, s, voice);
    move_position(ram, setting.entry, pitch(setting, before), voice);
}
