ghost use Rattle.std.specs.Prelude.{ℕ, ◌≡◌, ◌<◌, ◌≤◌, ◌^◌, IsTrue, length, slice_set, unsigned_abs};
ghost use Rattle.sdsp_voice.specs.Registers.{all_unended, at_power_on, at_reset, bit, ended_bit, ended_bits, kept, noted, read, setting, unended, voice, written};
ghost use Rattle.sdsp_voice.specs.Keys.{after_keys, key_taken, keyed, keyed_below, looks};
ghost use Rattle.sdsp_voice.specs.Noise.{after_noise};
ghost use Rattle.sdsp_voice.specs.Sample.{IsResting, IsStill, after_sample, after_turns, cut, cut_below, pass, sums_of, turn};

use crate::brr::byte_at;
use crate::envelope::due;
use crate::keys::{key_off, mute, start};
use crate::noise::next_noise;
use crate::output::{go_on, sound};
use crate::setting::Setting;
use crate::sums::Sums;
use crate::voice::{Phase, Voice};
use snes_defs::{Profile, Table};

/// 6C FLG: bit 7 silences all voices, bit 6 mutes the output, bit 5 stops echo writes, bits 4-0 are
/// the noise's rate.
const FLG: usize = 0x6C;

/// 4C KON: each set bit starts a voice.
const KON: u8 = 0x4C;

/// 5C KOFF: each set bit releases a voice.
const KOFF: usize = 0x5C;

/// 2D PMON: each set bit has a voice's pitch moved by the voice before.
const PMON: usize = 0x2D;

/// 3D NON: each set bit has a voice sound noise.
const NON: usize = 0x3D;

/// 4D EON: each set bit has a voice go into the echo.
const EON: usize = 0x4D;

/// 5D DIR: the page of the directory of sources.
const DIR: usize = 0x5D;

/// 7C ENDX: each set bit shows that a voice reached the end of a block with the end bit.
const ENDX: u8 = 0x7C;

/// The sums of voices that are all silent.
const SILENCE: Sums = Sums {
    left: 0,
    right: 0,
    echo_left: 0,
    echo_right: 0,
};

/// A voice that was never started.
const RESTING: Voice = Voice {
    phase: Phase::Release,
    envelope: 0,
    position: 0,
    oldest: 0,
    older: 0,
    newer: 0,
    newest: 0,
    address: 0,
    place: 0,
    ended: false,
    envx: 0,
    outx: 0,
};

/// The eight voices with their registers and the noise generator.
#[derive(Clone, Copy)]
pub struct Voices {
    /// The bytes of 00 to 7F, as written. ENVX, OUTX and ENDX are kept in the voices.
    registers: [u8; 128],
    voices: [Voice; 8],
    /// The noise generator, 15 bits.
    noise: u16,
    /// The bits written to KON that no sample has looked at yet: of all writes, in the second profile of the last.
    notes: u8,
    /// Which rules the voices follow.
    profile: Profile,
}

/// Bit `k` of a byte.
#[inline(always)]
fn is_on(byte: u8, k: usize) -> bool
    requires { k < 8 }
    ensures { result ≡ bit byte k }
{
    (byte >> k) % 2 == 1
}

impl Voices {
    /// The voices after power on.
    #[tactic(auto, unfolding(crate::specs::Registers::at_power_on))]
    pub fn new(profile: Profile) -> Voices
        ensures { result ≡ at_power_on profile }
    {
        let mut registers = [0; 128];
        registers[FLG] = 0xE0;
        Voices {
            registers,
            voices: [RESTING; 8],
            noise: 0x4000,
            notes: 0,
            profile,
        }
    }

    /// Bit `v` of ENDX, by its weight.
    #[inline(always)]
    fn ended_weight(&self, v: usize) -> u8
        requires { v < 8 }
        ensures value { result ≡ ended_bit self.now v }
        ensures small { result ≤ 2 ^ v }
    {
        if self.voices[v].ended { 1 << v } else { 0 }
    }

    /// ENDX.
    fn ended(&self) -> u8
        ensures { result ≡ ended_bits self.now }
    {
        self.ended_weight(0)
            + self.ended_weight(1)
            + self.ended_weight(2)
            + self.ended_weight(3)
            + self.ended_weight(4)
            + self.ended_weight(5)
            + self.ended_weight(6)
            + self.ended_weight(7)
    }

    /// What a register shows.
    #[tactic(auto, unfolding(crate::specs::Registers::read))]
    #[inline(always)]
    pub fn read(&self, reg: u8) -> u8
        requires { reg < 128 }
        ensures { result ≡ read self.now reg }
    {
        if reg == ENDX {
            self.ended()
        } else if reg % 16 == 8 {
            self.voices[(reg / 16) as usize].envx
        } else if reg % 16 == 9 {
            self.voices[(reg / 16) as usize].outx
        } else {
            self.registers[reg as usize]
        }
    }

    /// The byte that a register keeps, as it was written last.
    #[inline(always)]
    pub fn kept(&self, reg: u8) -> u8
        requires { reg < 128 }
        ensures { result ≡ kept self.now reg }
    {
        self.registers[reg as usize]
    }

    /// Presses the reset button: FLG becomes E0 again, and what was written to KON is forgotten. All else stays.
    #[tactic(auto, unfolding(crate::specs::Registers::at_reset))]
    pub fn reset(&mut self)
        ensures { self.new ≡ at_reset self.old }
    {
        self.registers[FLG] = 0xE0;
        self.notes = 0;
    }

    /// A voice whose bit of ENDX was cleared.
    #[inline(always)]
    fn unended(&self, v: usize) -> Voice
        requires { v < 8 }
        ensures { result ≡ unended self.now v }
    {
        let mut voice = self.voices[v];
        voice.ended = false;
        voice
    }

    /// Clears ENDX.
    fn clear_ended(&mut self)
        ensures { self.new ≡ record self.old { voices = all_unended self.old } }
    {
        self.voices = [
            self.unended(0),
            self.unended(1),
            self.unended(2),
            self.unended(3),
            self.unended(4),
            self.unended(5),
            self.unended(6),
            self.unended(7),
        ];
    }

    /// The notes with a byte written to KON.
    #[inline(always)]
    fn noted(&self, byte: u8) -> u8
        ensures { result ≡ noted self.now.profile self.now.notes byte }
    {
        match self.profile {
            Profile::First => self.notes | byte,
            Profile::Second => byte,
        }
    }

    /// Writes a register.
    #[tactic(auto, unfolding(crate::specs::Registers::written))]
    pub fn write(&mut self, reg: u8, v: u8)
        requires { reg < 128 }
        ensures { self.new ≡ written self.old reg v }
    {
        if reg == ENDX {
            self.clear_ended();
        } else if reg % 16 == 8 {
            self.voices[(reg / 16) as usize].envx = v;
        } else if reg % 16 == 9 {
            self.voices[(reg / 16) as usize].outx = v;
        } else if reg == KON {
            self.registers[reg as usize] = v;
            self.notes = self.noted(v);
        } else {
            self.registers[reg as usize] = v;
        }
    }

    /// What voice `v` takes from the registers.
    #[tactic(auto, unfolding(crate::specs::Registers::setting))]
    #[inline(always)]
    fn setting(&self, v: usize) -> Setting
        requires { v < 8 }
        ensures value { result ≡ setting self.now v }
        ensures pitch { result.pitch ≤ 0x3FFF }
    {
        let base = 16 * v;
        let source = self.registers[base + 4] as u32;
        Setting {
            left: self.registers[base].cast_signed(),
            right: self.registers[base + 1].cast_signed(),
            pitch: self.registers[base + 2] as u16 + 256 * (self.registers[base + 3] % 64) as u16,
            entry: ((256 * self.registers[DIR] as u32 + 4 * source) % 65536) as u16,
            adsr1: self.registers[base + 5],
            adsr2: self.registers[base + 6],
            gain: self.registers[base + 7],
            modulated: is_on(self.registers[PMON], v) && v != 0,
            noisy: is_on(self.registers[NON], v),
            echoed: is_on(self.registers[EON], v),
        }
    }

    /// A voice after the keys were applied to it. The bits of `off` are the voices to release, those of `on` the voices
    /// to start.
    #[tactic(auto, unfolding(crate::specs::Keys::keyed))]
    #[inline(always)]
    fn keyed(&self, ram: &[u8], off: u8, on: u8, v: usize, voice: Voice) -> Voice
        requires ram { length ram.now ≡ 65536 }
        requires v { v < 8 }
        ensures { result ≡ keyed ram.now self.now off on v voice }
    {
        let mut voice = voice;
        if is_on(self.registers[FLG], 7) {
            mute(&mut voice);
        }
        if is_on(off, v) {
            key_off(&mut voice);
        } else if is_on(on, v) {
            start(ram, self.setting(v).entry, &mut voice);
        }
        voice
    }

    /// Applies the keys to voice `v`.
    #[inline(always)]
    fn take_key(&mut self, ram: &[u8], off: u8, on: u8, v: usize)
        requires ram { length ram.now ≡ 65536 }
        requires v { v < 8 }
        ensures { self.new ≡ record self.old { voices = key_taken ram.now self.old off on v self.old.voices } }
    {
        self.voices[v] = self.keyed(ram, off, on, v, self.voices[v]);
    }

    /// Applies the keys to all voices.
    #[tactic(auto, using(crate::proofs::Steps::no_key, crate::proofs::Steps::one_more_key, crate::proofs::Steps::key_of_same))]
    #[inline(always)]
    fn take_all_keys(&mut self, ram: &[u8], off: u8, on: u8)
        requires { length ram.now ≡ 65536 }
        ensures { self.new ≡ record self.old { voices = keyed_below ram.now self.old off on 8 } }
    {
        'keys: for v in 0..8 {
            self.take_key(ram, off, on, v);
        }
    }

    /// Whether sample `s` looks at KOFF and at the notes of KON.
    #[inline(always)]
    fn looks(&self, s: u64) -> bool
        ensures { result ≡ looks self.now.profile s }
    {
        match self.profile {
            Profile::First => true,
            Profile::Second => s % 2 == 0,
        }
    }

    /// Applies the keys that sample `s` looks at.
    #[tactic(auto, unfolding(crate::specs::Keys::after_keys))]
    #[inline(always)]
    fn take_seen_keys(&mut self, ram: &[u8], s: u64)
        requires { length ram.now ≡ 65536 }
        ensures { self.new ≡ after_keys ram.now s self.old }
    {
        if self.looks(s) {
            self.take_all_keys(ram, self.registers[KOFF], self.notes);
            self.notes = 0;
        } else {
            self.take_all_keys(ram, 0, 0);
        }
    }

    /// Applies the keys, as a sample does first.
    #[tactic(auto, using(crate::proofs::Quiet::keys_idle))]
    #[inline(always)]
    fn take_keys(&mut self, ram: &[u8], s: u64)
        requires { length ram.now ≡ 65536 }
        ensures { self.new ≡ after_keys ram.now s self.old }
    {
        if is_on(self.registers[FLG], 7) || self.registers[KOFF] != 0 || self.notes != 0 {
            self.take_seen_keys(ram, s);
        }
    }

    /// Moves the noise generator on.
    #[tactic(auto, unfolding(crate::specs::Noise::after_noise))]
    #[inline(always)]
    fn step_noise(&mut self, s: u64)
        ensures { self.new ≡ after_noise s self.old }
    {
        if due(self.registers[FLG] % 32, s) {
            self.noise = next_noise(self.noise);
        }
    }

    /// The pitch of voice `v`.
    #[tactic(auto, unfolding(crate::specs::Registers::setting))]
    #[inline(always)]
    fn pitch(&self, v: usize) -> u16
        requires { v < 8 }
        ensures { result ≡ (setting self.now v).pitch }
    {
        self.registers[16 * v + 2] as u16 + 256 * (self.registers[16 * v + 3] % 64) as u16
    }

    /// Whether voice `v` is silent and stays where it is.
    #[inline(always)]
    fn is_resting(&self, v: usize) -> bool
        requires { v < 8 }
        ensures { IsTrue result → IsResting self.now v }
    {
        let voice = &self.voices[v];
        voice.envelope == 0
            && voice.phase == Phase::Release
            && voice.position < 4096
            && self.pitch(v) == 0
    }

    /// Makes a voice at rest show zeros.
    #[inline(always)]
    fn rest(&mut self, v: usize)
        requires { v < 8 }
        ensures { self.new ≡ record self.old { voices = slice_set self.old.voices v (record (voice self.old v) { envx = 0; outx = 0 }) } }
    {
        let voice = &mut self.voices[v];
        voice.envx = 0;
        voice.outx = 0;
    }

    /// Whether voice `v` is at rest and shows zeros.
    #[inline(always)]
    fn is_still(&self, v: usize) -> bool
        requires { v < 8 }
        ensures { IsTrue result → IsStill self.now v }
    {
        self.is_resting(v) && self.voices[v].envx == 0 && self.voices[v].outx == 0
    }

    /// Whether no voice is written to KON, and all are at rest and show zeros. The sample is then silent, and leaves
    /// them as they are.
    #[inline(always)]
    fn are_all_still(&self) -> bool
        ensures notes { IsTrue result → self.now.notes ≡ 0 }
        ensures voices { IsTrue result → (v : ℕ) → v < 8 → IsStill self.now v }
    {
        'voices: for v in 0..8 {
            if !self.is_still(v) {
                return false;
            }
        }
        self.notes == 0
    }

    /// Takes the turn of any voice, whatever it does.
    #[tactic(auto, unfolding(crate::specs::Sample::turn))]
    #[inline(always)]
    fn full_turn(
        &mut self,
        ram: &[u8],
        table: &Table,
        s: u64,
        v: usize,
        sums: Sums,
        before: i32,
    ) -> (Sums, i32)
        requires ram { length ram.now ≡ 65536 }
        requires v { v < 8 }
        requires before { unsigned_abs before ≤ 2 ^ 20 }
        ensures voices { self.new ≡ record self.old { voices = (turn ram.now table.now s self.old v (pass self.old sums before)).voices } }
        ensures sums { result.0 ≡ (turn ram.now table.now s self.old v (pass self.old sums before)).sums }
        ensures before { result.1 ≡ (turn ram.now table.now s self.old v (pass self.old sums before)).before }
        ensures small { unsigned_abs result.1 ≤ 2 ^ 20 }
    {
        let setting = self.setting(v);
        let (sums, out) = sound(table, self.noise, &setting, &self.voices[v], sums);
        go_on(ram, &setting, s, before, out, &mut self.voices[v]);
        (sums, out)
    }

    /// Takes the turn of voice `v` in a sample: adds its output to the sums, and moves it on.
    #[tactic(auto, using(crate::proofs::Quiet::turn_at_rest))]
    #[inline(always)]
    fn turn(
        &mut self,
        ram: &[u8],
        table: &Table,
        s: u64,
        v: usize,
        sums: Sums,
        before: i32,
    ) -> (Sums, i32)
        requires ram { length ram.now ≡ 65536 }
        requires v { v < 8 }
        requires before { unsigned_abs before ≤ 2 ^ 20 }
        ensures voices { self.new ≡ record self.old { voices = (turn ram.now table.now s self.old v (pass self.old sums before)).voices } }
        ensures sums { result.0 ≡ (turn ram.now table.now s self.old v (pass self.old sums before)).sums }
        ensures before { result.1 ≡ (turn ram.now table.now s self.old v (pass self.old sums before)).before }
        ensures small { unsigned_abs result.1 ≤ 2 ^ 20 }
    {
        if self.is_resting(v) {
            self.rest(v);
            (sums, 0)
        } else {
            self.full_turn(ram, table, s, v, sums, before)
        }
    }

    /// Mutes voice `v` if its block has the end and not the loop.
    #[tactic(auto, unfolding(crate::specs::Sample::cut))]
    #[inline(always)]
    fn cut(&mut self, ram: &[u8], v: usize)
        requires ram { length ram.now ≡ 65536 }
        requires v { v < 8 }
        ensures { self.new
            ≡ record self.old { voices = slice_set self.old.voices v (cut ram.now (voice self.old v)) } }
    {
        let header = byte_at(ram, self.voices[v].address as u32);
        if header % 2 == 1 && header / 2 % 2 == 0 {
            mute(&mut self.voices[v]);
        }
    }

    /// Mutes each voice whose block has the end and not the loop.
    #[tactic(auto, using(crate::proofs::Steps::no_cut, crate::proofs::Steps::one_more_cut))]
    #[inline(never)]
    fn cut_all(&mut self, ram: &[u8])
        requires { length ram.now ≡ 65536 }
        ensures { self.new ≡ record self.old { voices = cut_below ram.now self.old.voices 8 } }
    {
        'cuts: for v in 0..8 {
            self.cut(ram, v);
        }
    }

    /// Ends the turns of a sample: in the second profile the voices' last blocks are heeded.
    #[tactic(auto, unfolding(crate::specs::Sample::after_turns))]
    #[inline(always)]
    fn end_turns(&mut self, ram: &[u8])
        requires { length ram.now ≡ 65536 }
        ensures { self.new ≡ record self.old { voices = after_turns self.old.profile ram.now self.old.voices } }
    {
        match self.profile {
            Profile::First => {}
            Profile::Second => self.cut_all(ram),
        }
    }

    /// Makes sample `s` when some voice does something.
    #[tactic(auto, using(crate::proofs::Steps::no_turn, crate::proofs::Steps::one_more_turn, crate::proofs::Steps::turn_of_same, crate::proofs::Steps::profile_stays), unfolding(crate::specs::Sample::after_sample, crate::specs::Sample::sums_of, crate::specs::Sample::prepared))]
    #[inline(always)]
    fn play(&mut self, ram: &[u8], table: &Table, s: u64) -> Sums
        requires { length ram.now ≡ 65536 }
        ensures after { self.new ≡ after_sample ram.now table.now s self.old }
        ensures sums { result ≡ sums_of ram.now table.now s self.old }
    {
        self.take_keys(ram, s);
        self.step_noise(s);
        let mut sums = SILENCE;
        let mut before = 0;
        'voices: for v in 0..8 {
            (sums, before) = self.turn(ram, table, s, v, sums, before);
        }
        self.end_turns(ram);
        sums
    }

    /// Makes sample `s`: keys, noise, and then each voice's output, envelope and position. Returns the sums.
    #[inline(always)]
    pub fn sample(&mut self, ram: &[u8], table: &Table, s: u64) -> Sums
        requires { length ram.now ≡ 65536 }
        ensures after { self.new ≡ after_sample ram.now table.now s self.old }
        ensures sums { result ≡ sums_of ram.now table.now s self.old }
    {
        if self.are_all_still() {
            self.step_noise(s);
            SILENCE
        } else {
            self.play(ram, table, s)
        }
    }
}
