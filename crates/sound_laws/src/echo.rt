ghost use Rattle.std.specs.Prelude.{◌≡◌, false, length, pos};
ghost use Rattle.sdsp_echo.specs.Echo.{by_volume};
ghost use Rattle.sdsp_voice.specs.Signed.{clamped_16};
ghost use Rattle.sdsp_voice.specs.Registers.{bit, kept};
ghost use Rattle.sound_laws.specs.Silence.{HasNoTaps, IsMuted};

use sdsp_echo::Echo;
use sdsp_voice::{Sums, Voices};

/// Mixes a sample of a muted unit, which puts out nothing, whatever the voices and the echo hold.
#[tactic(auto, unfolding(sdsp_echo::specs::Echo::left_out, sdsp_echo::specs::Echo::right_out, sdsp_echo::specs::Echo::heard_out))]
pub fn mix_muted(echo: &mut Echo, voices: &Voices, sums: Sums, ram: &mut [u8]) -> (i16, i16)
    requires ram { length ram.old ≡ 65536 }
    requires muted { IsMuted voices.now }
    ensures left { result.0 ≡ pos 0 }
    ensures right { result.1 ≡ pos 0 }
{
    echo.mix(voices, sums, ram)
}

/// Mixes a sample by a filter without taps, which adds nothing. Only the voices are heard, by the main volume, at any
/// feedback and echo volume.
#[tactic(auto, using(crate::proofs::Taps::left_without_taps, crate::proofs::Taps::right_without_taps))]
pub fn mix_without_taps(echo: &mut Echo, voices: &Voices, sums: Sums, ram: &mut [u8]) -> (i16, i16)
    requires ram { length ram.old ≡ 65536 }
    requires heard { bit (kept voices.now 0x6C) 6 ≡ false }
    requires no_taps { HasNoTaps voices.now }
    ensures left { result.0 ≡ clamped_16 (by_volume sums.left (kept voices.now 0x0C)) }
    ensures right { result.1 ≡ clamped_16 (by_volume sums.right (kept voices.now 0x1C)) }
{
    echo.mix(voices, sums, ram)
}
