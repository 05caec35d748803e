ghost use Rattle.std.specs.Prelude.{◌≡◌, ◌≤◌, length};
ghost use Rattle.snes_defs.specs.declared.profile.Profile.TheVariants.{Second};
ghost use Rattle.sound_laws.specs.Ends.{HasCutEnds};

use sdsp_voice::envelope::step_envelope;
use sdsp_voice::keys::start;
use sdsp_voice::setting::Setting;
use sdsp_voice::voice::Voice;
use sdsp_voice::{Sums, Voices};
use snes_defs::Table;

/// Starts two voices with one source, which are the same from then on, whatever they sounded before. Nothing of that
/// is heard. ENVX and OUTX still show the last sample.
#[tactic(auto, unfolding(sdsp_voice::specs::Keys::started))]
pub fn start_both(ram: &[u8], entry: u16, one: &mut Voice, other: &mut Voice)
    requires ram { length ram.now ≡ 65536 }
    requires envx { one.old.envx ≡ other.old.envx }
    requires outx { one.old.outx ≡ other.old.outx }
    ensures { one.new ≡ other.new }
{
    start(ram, entry, one);
    start(ram, entry, other);
}

/// Moves an envelope of at most 7FF on, in whichever phase and setting. It stays at most 7FF.
#[tactic(auto, using(crate::proofs::Envelopes::after_envelope_within))]
pub fn step_within(setting: &Setting, s: u64, voice: &mut Voice)
    requires { voice.old.envelope ≤ 2047 }
    ensures { voice.new.envelope ≤ 2047 }
{
    step_envelope(setting, s, voice);
}

/// Makes a sample by the second profile. After it each voice whose block has the end and not the loop is silent and in
/// release, however it came to that block.
#[tactic(auto, using(crate::proofs::Ends::ends_are_cut))]
pub fn sample_and_cut(voices: &mut Voices, ram: &[u8], table: &Table, s: u64) -> Sums
    requires ram { length ram.now ≡ 65536 }
    requires second { voices.old.profile ≡ Second }
    ensures { HasCutEnds ram.now voices.new }
{
    voices.sample(ram, table, s)
}
