ghost use Rattle.std.specs.Prelude.{◌≡◌};
ghost use Rattle.sdsp_voice.specs.Noise.{noise_after};

/// The noise generator's next state.
#[inline(always)]
pub fn next_noise(noise: u16) -> u16
    ensures { result ≡ noise_after noise }
{
    noise / 2 + 16384 * (((noise as u32 + noise as u32 / 2) % 2) as u16)
}
