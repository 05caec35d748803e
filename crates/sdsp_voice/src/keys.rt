ghost use Rattle.std.specs.Prelude.{◌≡◌, length};
ghost use Rattle.sdsp_voice.specs.Keys.{keyed_off, muted, started};

use crate::brr::word;
use crate::voice::{Phase, Voice};

/// Starts a voice: key on.
#[tactic(auto, unfolding(crate::specs::Keys::started))]
#[inline(always)]
pub fn start(ram: &[u8], entry: u16, voice: &mut Voice)
    requires { length ram.now ≡ 65536 }
    ensures { voice.new ≡ started ram.now entry voice.old }
{
    voice.phase = Phase::Attack;
    voice.envelope = 0;
    voice.position = 0;
    voice.oldest = 0;
    voice.older = 0;
    voice.newer = 0;
    voice.newest = 0;
    voice.address = word(ram, entry as u32);
    voice.place = 0;
    voice.ended = false;
}

/// Silences a voice and puts it into release, as FLG's bit 7 does.
#[inline(always)]
pub fn mute(voice: &mut Voice)
    ensures { voice.new ≡ muted voice.old }
{
    voice.phase = Phase::Release;
    voice.envelope = 0;
}

/// Puts a voice into release: key off.
#[inline(always)]
pub fn key_off(voice: &mut Voice)
    ensures { voice.new ≡ keyed_off voice.old }
{
    voice.phase = Phase::Release;
}
