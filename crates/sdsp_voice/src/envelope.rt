ghost use Rattle.std.specs.Prelude.{◌≡◌, ◌≢◌, ◌<◌, ◌%◌};
ghost use Rattle.sdsp_voice.specs.Envelope.{
  after_attack,
  after_decay,
  after_envelope,
  after_gain,
  after_sustain,
  fallen,
  gained,
  is_due,
  raised,
};

use crate::setting::Setting;
use crate::voice::{Phase, Voice};

/// Whether a rate has an event at sample `s`. Three samples of four need no look at the period: of the slow rates, up
/// to 23, each period is a multiple of 4.
#[inline(always)]
pub fn due(rate: u8, s: u64) -> bool
    requires { rate < 32 }
    ensures { result ≡ is_due rate s }
{
    if s % 4 == 0 {
        due_by_period(rate, s)
    } else {
        due_between(rate, s)
    }
}

/// Whether a rate has an event at sample `s`, for a number that 4 doesn't divide.
#[tactic(auto, unfolding(crate::specs::Envelope::is_due))]
#[inline(always)]
fn due_between(rate: u8, s: u64) -> bool
    requires rate { rate < 32 }
    requires between { s % 4 ≢ 0 }
    ensures { result ≡ is_due rate s }
{
    match rate {
        0 => false,
        1 => false,
        2 => false,
        3 => false,
        4 => false,
        5 => false,
        6 => false,
        7 => false,
        8 => false,
        9 => false,
        10 => false,
        11 => false,
        12 => false,
        13 => false,
        14 => false,
        15 => false,
        16 => false,
        17 => false,
        18 => false,
        19 => false,
        20 => false,
        21 => false,
        22 => false,
        23 => false,
        24 => s % 10 == 0,
        25 => false,
        26 => s % 6 == 0,
        27 => s % 5 == 0,
        28 => false,
        29 => s % 3 == 0,
        30 => s % 2 == 0,
        _ => true,
    }
}

/// Whether a rate has an event at sample `s`, by the rate's period, out of line.
#[tactic(auto, unfolding(crate::specs::Envelope::is_due))]
#[inline(never)]
fn due_by_period(rate: u8, s: u64) -> bool
    requires { rate < 32 }
    ensures { result ≡ is_due rate s }
{
    match rate {
        0 => false,
        1 => s % 2048 == 0,
        2 => s % 1536 == 0,
        3 => s % 1280 == 0,
        4 => s % 1024 == 0,
        5 => s % 768 == 0,
        6 => s % 640 == 0,
        7 => s % 512 == 0,
        8 => s % 384 == 0,
        9 => s % 320 == 0,
        10 => s % 256 == 0,
        11 => s % 192 == 0,
        12 => s % 160 == 0,
        13 => s % 128 == 0,
        14 => s % 96 == 0,
        15 => s % 80 == 0,
        16 => s % 64 == 0,
        17 => s % 48 == 0,
        18 => s % 40 == 0,
        19 => s % 32 == 0,
        20 => s % 24 == 0,
        21 => s % 20 == 0,
        22 => s % 16 == 0,
        23 => s % 12 == 0,
        24 => s % 10 == 0,
        25 => s % 8 == 0,
        26 => s % 6 == 0,
        27 => s % 5 == 0,
        28 => s % 4 == 0,
        29 => s % 3 == 0,
        30 => s % 2 == 0,
        _ => true,
    }
}

/// An envelope raised by an amount, to 7FF at most.
#[inline(always)]
fn up(envelope: u16, by: u16) -> u16
    ensures { result ≡ raised envelope by }
{
    (envelope as u32 + by as u32).min(2047) as u16
}

/// An envelope lowered by a 256th.
#[inline(always)]
fn down(envelope: u16) -> u16
    ensures { result ≡ fallen envelope }
{
    envelope.saturating_sub(envelope.saturating_sub(1) / 256 + 1)
}

/// Moves a voice on in its attack.
#[tactic(auto, unfolding(crate::specs::Envelope::after_attack))]
#[inline(always)]
fn attack(setting: &Setting, s: u64, voice: &mut Voice)
    ensures { voice.new ≡ after_attack setting.now s voice.old }
{
    let rate = 2 * (setting.adsr1 % 16) + 1;
    if due(rate, s) {
        voice.envelope = up(voice.envelope, if rate == 31 { 1024 } else { 32 });
    }
    voice.phase = if voice.envelope >= 0x7E0 {
        Phase::Decay
    } else {
        Phase::Attack
    };
}

/// Moves a voice on in its decay.
#[tactic(auto, unfolding(crate::specs::Envelope::after_decay))]
#[inline(always)]
fn decay(setting: &Setting, s: u64, voice: &mut Voice)
    ensures { voice.new ≡ after_decay setting.now s voice.old }
{
    if due(2 * (setting.adsr1 / 16 % 8) + 16, s) {
        voice.envelope = down(voice.envelope);
    }
    voice.phase = if voice.envelope / 256 <= (setting.adsr2 / 32) as u16 {
        Phase::Sustain
    } else {
        Phase::Decay
    };
}

/// Moves a voice on in its sustain.
#[tactic(auto, unfolding(crate::specs::Envelope::after_sustain))]
#[inline(always)]
fn sustain(setting: &Setting, s: u64, voice: &mut Voice)
    ensures { voice.new ≡ after_sustain setting.now s voice.old }
{
    if due(setting.adsr2 % 32, s) {
        voice.envelope = down(voice.envelope);
    }
}

/// One of GAIN's four ways to move.
#[inline(always)]
fn moved_by_gain(way: u8, envelope: u16) -> u16
    requires { way < 4 }
    ensures { result ≡ gained way envelope }
{
    match way {
        0 => envelope.saturating_sub(32),
        1 => down(envelope),
        2 => up(envelope, 32),
        _ => up(envelope, if envelope < 0x600 { 32 } else { 8 }),
    }
}

/// Moves a voice on by GAIN instead of its phases.
#[tactic(auto, unfolding(crate::specs::Envelope::after_gain))]
#[inline(always)]
fn gain(setting: &Setting, s: u64, voice: &mut Voice)
    ensures { voice.new ≡ after_gain setting.now s voice.old }
{
    let gain = setting.gain;
    if gain < 128 {
        voice.envelope = 16 * gain as u16;
    } else if due(gain % 32, s) {
        voice.envelope = moved_by_gain(gain / 32 % 4, voice.envelope);
    }
}

/// Moves a voice's envelope on after sample `s`.
#[tactic(auto, unfolding(crate::specs::Envelope::after_envelope))]
#[inline(always)]
pub fn step_envelope(setting: &Setting, s: u64, voice: &mut Voice)
    ensures { voice.new ≡ after_envelope setting.now s voice.old }
{
    match voice.phase {
        Phase::Release => voice.envelope = voice.envelope.saturating_sub(8),
        phase => {
            if setting.adsr1 >= 128 {
                match phase {
                    Phase::Attack => attack(setting, s, voice),
                    Phase::Decay => decay(setting, s, voice),
                    _ => sustain(setting, s, voice),
                }
            } else {
                gain(setting, s, voice);
            }
        }
    }
}
