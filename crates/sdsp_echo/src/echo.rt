ghost use Rattle.std.specs.Prelude.{◌≡◌, ◌<◌, ◌≤◌, ◌+◌, ◌^◌, ◌*ℤ◌, IsTrue, length, unsigned_abs};
ghost use Rattle.sdsp_voice.specs.Registers.{bit, kept};
ghost use Rattle.sdsp_voice.specs.Signed.{signed_byte};
ghost use Rattle.sdsp_echo.specs.Echo.{
  IsUnheard,
  after_mix,
  by_volume,
  evened,
  fed_back,
  filtered,
  four_taps,
  heard,
  heard_out,
  left_history,
  left_out,
  length_now,
  offset_after,
  place_of,
  put_word,
  ram_after,
  right_history,
  right_out,
  seven_taps,
  silent_echo,
  tap,
  tapped,
};

use crate::history::{History, push};
use sdsp_voice::brr::word;
use sdsp_voice::signed::{clamped, low_16, sum};
use sdsp_voice::{Sums, Voices};

/// A history of silence.
const SILENCE: History = History {
    h0: 0,
    h1: 0,
    h2: 0,
    h3: 0,
    h4: 0,
    h5: 0,
    h6: 0,
    h7: 0,
};

/// The echo unit, whose delay line is in RAM.
#[derive(Clone, Copy)]
pub struct Echo {
    left: History,
    right: History,
    /// The offset in bytes of the next number in the delay line.
    offset: u16,
    /// The length of the delay line in bytes, as it was when the offset was 0.
    length: u16,
}

/// A product of a number and a signed byte.
#[inline(always)]
fn product(x: i16, c: i8) -> i32
    ensures value { result ≡ x *ℤ c }
    ensures small { unsigned_abs result ≤ 2 ^ 22 }
{
    x as i32 * c as i32
}

/// One tap of the filter.
#[tactic(auto, unfolding(crate::specs::Echo::tapped))]
#[inline(always)]
fn tap_of(x: i16, c: i8) -> i32
    ensures value { result ≡ tapped x c }
    ensures small { unsigned_abs result ≤ 2 ^ 17 }
{
    product(x, c) >> 6
}

/// A tap's coefficient.
#[inline(always)]
fn tap_coefficient(voices: &Voices, k: u8) -> i8
    requires { k < 8 }
    ensures { result ≡ tap voices.now k }
{
    voices.kept(16 * k + 15).cast_signed()
}

/// A number by tap `k`.
#[inline(always)]
fn tapped_by(voices: &Voices, x: i16, k: u8) -> i32
    requires { k < 8 }
    ensures value { result ≡ tapped x (tap voices.now k) }
    ensures small { unsigned_abs result ≤ 2 ^ 17 }
{
    tap_of(x, tap_coefficient(voices, k))
}

/// The sum of the filter's first four taps.
#[tactic(auto, unfolding(crate::specs::Echo::four_taps))]
#[inline(always)]
fn four(voices: &Voices, h: &History) -> i32
    ensures value { result ≡ four_taps voices.now h.now }
    ensures small { unsigned_abs result ≤ 2 ^ 19 }
{
    let first = tapped_by(voices, h.h0, 0);
    let two = sum(first, tapped_by(voices, h.h1, 1));
    let three = sum(two, tapped_by(voices, h.h2, 2));
    sum(three, tapped_by(voices, h.h3, 3))
}

/// The sum of the filter's first seven taps.
#[tactic(auto, unfolding(crate::specs::Echo::seven_taps))]
#[inline(always)]
fn seven(voices: &Voices, h: &History) -> i32
    ensures { result ≡ seven_taps voices.now h.now }
{
    let five = sum(four(voices, h), tapped_by(voices, h.h4, 4));
    let six = sum(five, tapped_by(voices, h.h5, 5));
    sum(six, tapped_by(voices, h.h6, 6))
}

/// The filter over a history.
#[tactic(auto, unfolding(crate::specs::Echo::filtered))]
#[inline(always)]
fn filter(voices: &Voices, h: &History) -> i16
    ensures { result ≡ filtered voices.now h.now }
{
    let first = low_16(seven(voices, h));
    let last = tapped_by(voices, h.h7, 7);
    even(clamped(sum(first as i32, last)))
}

/// A number without its low bit.
#[tactic(auto, unfolding(crate::specs::Echo::evened))]
#[inline(always)]
fn even(z: i16) -> i16
    ensures { result ≡ evened z }
{
    2 * (z >> 1)
}

/// A number by a volume.
#[tactic(auto, unfolding(crate::specs::Echo::by_volume))]
#[inline(always)]
fn with_volume(z: i16, volume: u8) -> i32
    ensures value { result ≡ by_volume z volume }
    ensures small { unsigned_abs result ≤ 2 ^ 16 }
{
    product(z, volume.cast_signed()) >> 7
}

/// One of the two numbers of a sample.
#[tactic(auto, unfolding(crate::specs::Echo::heard_out))]
#[inline(always)]
fn out(voices: &Voices, voice: i16, main: u8, filter: i16, volume: u8) -> i16
    ensures { result ≡ heard_out voices.now voice main filter volume }
{
    if voices.kept(0x6C) / 64 % 2 == 1 {
        0
    } else {
        clamped(sum(with_volume(voice, main), with_volume(filter, volume)))
    }
}

/// What goes back into the delay line.
#[tactic(auto, unfolding(crate::specs::Echo::fed_back))]
#[inline(always)]
fn feed_back(voices: &Voices, voice: i16, filter: i16) -> u16
    ensures { result ≡ fed_back voices.now voice filter }
{
    even(clamped(sum(voice as i32, with_volume(filter, voices.kept(0x0D))))).cast_unsigned()
}

/// A number of the delay line.
#[tactic(auto, unfolding(crate::specs::Echo::heard))]
#[inline(always)]
fn hear(ram: &[u8], address: u32) -> i16
    requires ram { length ram.now ≡ 65536 }
    requires address { address < 131072 }
    ensures { result ≡ heard ram.now address }
{
    word(ram, address).cast_signed() >> 1
}

/// Puts a number into RAM.
#[tactic(auto, unfolding(crate::specs::Echo::put_word))]
#[inline(always)]
fn put(ram: &mut [u8], address: u32, number: u16)
    requires ram { length ram.old ≡ 65536 }
    requires address { address < 131072 }
    ensures { ram.new ≡ put_word ram.old address number }
{
    ram[(address % 65536) as usize] = (number % 256) as u8;
    ram[((address + 1) % 65536) as usize] = (number / 256) as u8;
}

/// The offset after a sample: four bytes on, and 0 again at the length.
#[inline(always)]
fn next_offset(offset: u16, length: u16) -> u16
    ensures { result ≡ offset_after offset length }
{
    let next = offset as u32 + 4;
    if next >= length as u32 {
        0
    } else {
        next as u16
    }
}

impl Echo {
    /// The echo after power on.
    pub fn new() -> Echo
        ensures { result ≡ silent_echo }
    {
        Echo {
            left: SILENCE,
            right: SILENCE,
            offset: 0,
            length: 4,
        }
    }

    /// The length in force in this sample.
    #[tactic(auto, unfolding(crate::specs::Echo::length_now))]
    #[inline(always)]
    fn length_in_force(&self, voices: &Voices) -> u16
        ensures { result ≡ length_now voices.now self.now }
    {
        if self.offset == 0 {
            let delay = voices.kept(0x7D) % 16;
            if delay == 0 { 4 } else { 2048 * delay as u16 }
        } else {
            self.length
        }
    }

    /// The address in RAM of the next numbers.
    #[tactic(auto, unfolding(crate::specs::Echo::place_of))]
    #[inline(always)]
    fn place(&self, voices: &Voices) -> u32
        ensures value { result ≡ place_of voices.now self.now }
        ensures small { result < 65536 }
    {
        (256 * voices.kept(0x6D) as u32 + self.offset as u32) % 65536
    }

    /// The left history with the number that the delay line holds.
    #[tactic(auto, unfolding(crate::specs::Echo::left_history))]
    #[inline(always)]
    fn next_left(&self, voices: &Voices, ram: &[u8]) -> History
        requires { length ram.now ≡ 65536 }
        ensures { result ≡ left_history voices.now ram.now self.now }
    {
        push(self.left, hear(ram, self.place(voices)))
    }

    /// The right history with the number that the delay line holds.
    #[tactic(auto, unfolding(crate::specs::Echo::right_history))]
    #[inline(always)]
    fn next_right(&self, voices: &Voices, ram: &[u8]) -> History
        requires { length ram.now ≡ 65536 }
        ensures { result ≡ right_history voices.now ram.now self.now }
    {
        push(self.right, hear(ram, self.place(voices) + 2))
    }

    /// Takes what the delay line holds into the histories, and moves on to the place of the next sample.
    #[tactic(auto, unfolding(crate::specs::Echo::after_mix))]
    #[inline(always)]
    fn go_on(&mut self, voices: &Voices, ram: &[u8])
        requires { length ram.now ≡ 65536 }
        ensures { self.new ≡ after_mix voices.now ram.now self.old }
    {
        let left = self.next_left(voices, ram);
        let right = self.next_right(voices, ram);
        let length = self.length_in_force(voices);
        let offset = next_offset(self.offset, length);
        self.left = left;
        self.right = right;
        self.offset = offset;
        self.length = length;
    }

    /// Puts what goes back into the delay line, unless FLG stops it.
    #[inline(always)]
    fn write_back(ram: &mut [u8], place: u32, left: u16, right: u16)
        requires ram { length ram.old ≡ 65536 }
        requires place { place < 65536 }
        ensures { ram.new ≡ put_word (put_word ram.old place left) (place + 2) right }
    {
        put(ram, place, left);
        put(ram, place + 2, right);
    }

    /// Whether the filter has no effect: the echo has no volume, and nothing goes back into the delay line.
    #[inline(always)]
    fn is_unheard(voices: &Voices) -> bool
        ensures { IsTrue result → IsUnheard voices.now }
    {
        voices.kept(0x2C) == 0 && voices.kept(0x3C) == 0 && voices.kept(0x6C) / 32 % 2 == 1
    }

    /// The left number when the filter has no effect.
    #[tactic(auto, using(crate::proofs::Unheard::left_unheard))]
    #[inline(always)]
    fn left_unheard(&self, voices: &Voices, sums: Sums, ram: &[u8]) -> i16
        requires { IsUnheard voices.now }
        ensures { result ≡ left_out voices.now sums ram.now self.now }
    {
        let _ = (self.offset, ram.len());
        out(voices, sums.left, voices.kept(0x0C), 0, 0)
    }

    /// The right number when the filter has no effect.
    #[tactic(auto, using(crate::proofs::Unheard::right_unheard))]
    #[inline(always)]
    fn right_unheard(&self, voices: &Voices, sums: Sums, ram: &[u8]) -> i16
        requires { IsUnheard voices.now }
        ensures { result ≡ right_out voices.now sums ram.now self.now }
    {
        let _ = (self.offset, ram.len());
        out(voices, sums.right, voices.kept(0x1C), 0, 0)
    }

    /// Makes a sample when the filter has no effect: only reads the delay line.
    #[tactic(auto, using(crate::proofs::Unheard::ram_unheard))]
    #[inline(always)]
    fn mix_unheard(&mut self, voices: &Voices, sums: Sums, ram: &[u8]) -> (i16, i16)
        requires ram { length ram.now ≡ 65536 }
        requires unheard { IsUnheard voices.now }
        ensures left { result.0 ≡ left_out voices.now sums ram.now self.old }
        ensures right { result.1 ≡ right_out voices.now sums ram.now self.old }
        ensures echo { self.new ≡ after_mix voices.now ram.now self.old }
        ensures ram { ram_after voices.now sums ram.now self.old ≡ ram.now }
    {
        let left = self.left_unheard(voices, sums, ram);
        let right = self.right_unheard(voices, sums, ram);
        self.go_on(voices, ram);
        (left, right)
    }

    /// Makes any sample.
    #[tactic(auto, unfolding(crate::specs::Echo::after_mix, crate::specs::Echo::left_out, crate::specs::Echo::right_out, crate::specs::Echo::ram_after))]
    #[inline(always)]
    fn mix_heard(&mut self, voices: &Voices, sums: Sums, ram: &mut [u8]) -> (i16, i16)
        requires { length ram.old ≡ 65536 }
        ensures left { result.0 ≡ left_out voices.now sums ram.old self.old }
        ensures right { result.1 ≡ right_out voices.now sums ram.old self.old }
        ensures echo { self.new ≡ after_mix voices.now ram.old self.old }
        ensures ram { ram.new ≡ ram_after voices.now sums ram.old self.old }
    {
        let place = self.place(voices);
        self.go_on(voices, ram);
        let left = filter(voices, &self.left);
        let right = filter(voices, &self.right);
        if voices.kept(0x6C) / 32 % 2 == 0 {
            let left_word = feed_back(voices, sums.echo_left, left);
            let right_word = feed_back(voices, sums.echo_right, right);
            Echo::write_back(ram, place, left_word, right_word);
        }
        (
            out(
                voices,
                sums.left,
                voices.kept(0x0C),
                left,
                voices.kept(0x2C),
            ),
            out(
                voices,
                sums.right,
                voices.kept(0x1C),
                right,
                voices.kept(0x3C),
            ),
        )
    }

    /// Makes the two numbers of a sample, left and right, from the sums of the voices. RAM holds the delay line; what
    /// goes back into it overwrites what was heard.
    #[inline(always)]
    pub fn mix(&mut self, voices: &Voices, sums: Sums, ram: &mut [u8]) -> (i16, i16)
        requires { length ram.old ≡ 65536 }
        ensures left { result.0 ≡ left_out voices.now sums ram.old self.old }
        ensures right { result.1 ≡ right_out voices.now sums ram.old self.old }
        ensures echo { self.new ≡ after_mix voices.now ram.old self.old }
        ensures ram { ram.new ≡ ram_after voices.now sums ram.old self.old }
    {
        if Echo::is_unheard(voices) {
            self.mix_unheard(voices, sums, ram)
        } else {
            self.mix_heard(voices, sums, ram)
        }
    }

    /// The left history's number, filtered.
    #[inline(always)]
    fn left_filter(&self, voices: &Voices, ram: &[u8]) -> i16
        requires { length ram.now ≡ 65536 }
        ensures { result ≡ filtered voices.now (left_history voices.now ram.now self.now) }
    {
        let history = self.next_left(voices, ram);
        filter(voices, &history)
    }

    /// The right history's number, filtered.
    #[inline(always)]
    fn right_filter(&self, voices: &Voices, ram: &[u8]) -> i16
        requires { length ram.now ≡ 65536 }
        ensures { result ≡ filtered voices.now (right_history voices.now ram.now self.now) }
    {
        let history = self.next_right(voices, ram);
        filter(voices, &history)
    }

    /// The left number of a sample.
    #[tactic(auto, unfolding(crate::specs::Echo::left_out))]
    #[inline(always)]
    fn left_number(&self, voices: &Voices, sums: Sums, ram: &[u8]) -> i16
        requires { length ram.now ≡ 65536 }
        ensures { result ≡ left_out voices.now sums ram.now self.now }
    {
        let filter = self.left_filter(voices, ram);
        out(
            voices,
            sums.left,
            voices.kept(0x0C),
            filter,
            voices.kept(0x2C),
        )
    }

    /// The right number of a sample.
    #[tactic(auto, unfolding(crate::specs::Echo::right_out))]
    #[inline(always)]
    fn right_number(&self, voices: &Voices, sums: Sums, ram: &[u8]) -> i16
        requires { length ram.now ≡ 65536 }
        ensures { result ≡ right_out voices.now sums ram.now self.now }
    {
        let filter = self.right_filter(voices, ram);
        out(
            voices,
            sums.right,
            voices.kept(0x1C),
            filter,
            voices.kept(0x3C),
        )
    }

    /// Returns the two numbers that `mix` would, left and right, and changes neither the echo nor RAM.
    #[inline(always)]
    pub fn peek(&self, voices: &Voices, sums: Sums, ram: &[u8]) -> (i16, i16)
        requires { length ram.now ≡ 65536 }
        ensures left { result.0 ≡ left_out voices.now sums ram.now self.now }
        ensures right { result.1 ≡ right_out voices.now sums ram.now self.now }
    {
        (
            self.left_number(voices, sums, ram),
            self.right_number(voices, sums, ram),
        )
    }
}
