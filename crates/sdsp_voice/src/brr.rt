ghost use Rattle.std.specs.Prelude.{◌≡◌, ◌<◌, ◌≤◌, ◌^◌, ◌+ℤ◌, ◌-ℤ◌, ◌*ℤ◌, pos, negsuc, length, unsigned_abs};
ghost use Rattle.sdsp_voice.specs.Brr.{
  after_block,
  at,
  decoded,
  decoded_times,
  digit,
  filter_part,
  next_sample,
  placed_on,
  sample_of,
  scaled_digit,
  signed_digit,
  with_sample,
  word_at,
};
ghost use Rattle.sdsp_voice.specs.Signed.{shifted};

use crate::signed::{clamped, difference, low_15, sum};
use crate::voice::{Phase, Voice};

/// A digit of four bits as a signed number.
#[inline(always)]
fn signed(digit: u8) -> i32
    requires { digit < 16 }
    ensures value { result ≡ signed_digit digit }
    ensures small { unsigned_abs result ≤ 8 }
{
    if digit < 8 {
        digit as i32
    } else {
        digit as i32 - 16
    }
}

/// 2 to the power of a shift.
#[inline(always)]
fn power(shift: u8) -> i32
    requires { shift ≤ 12 }
    ensures value { result ≡ pos (2 ^ shift) }
    ensures small { unsigned_abs result ≤ 4096 }
{
    match shift {
        0 => 1,
        1 => 2,
        2 => 4,
        3 => 8,
        4 => 16,
        5 => 32,
        6 => 64,
        7 => 128,
        8 => 256,
        9 => 512,
        10 => 1024,
        11 => 2048,
        _ => 4096,
    }
}

/// The digit with a shift of up to 12.
#[inline(always)]
fn shifted_digit(digit: u8, shift: u8) -> i32
    requires digit { digit < 16 }
    requires shift { shift ≤ 12 }
    ensures value { result ≡ shifted (signed_digit digit *ℤ pos (2 ^ shift)) 1 }
    ensures small { unsigned_abs result ≤ 16384 }
{
    (signed(digit) * power(shift)) >> 1
}

/// The digit with the block's shift.
#[tactic(auto, unfolding(crate::specs::Brr::scaled_digit))]
#[inline(always)]
fn scaled(digit: u8, shift: u8) -> i32
    requires { digit < 16 }
    ensures value { result ≡ scaled_digit digit shift }
    ensures small { unsigned_abs result ≤ 16384 }
{
    if shift <= 12 {
        shifted_digit(digit, shift)
    } else if digit < 8 {
        0
    } else {
        -2048
    }
}

/// A few times a sample.
#[inline(always)]
fn times(few: i32, sample: i16) -> i32
    requires { unsigned_abs few ≤ 16 }
    ensures value { result ≡ few *ℤ sample }
    ensures small { unsigned_abs result ≤ 524288 }
{
    few * sample as i32
}

/// A few times a sample, shifted down.
#[inline(always)]
fn part(few: i32, sample: i16, k: u32) -> i32
    requires few { unsigned_abs few ≤ 16 }
    requires k { k < 32 }
    ensures value { result ≡ shifted (few *ℤ sample) k }
    ensures small { unsigned_abs result ≤ 524288 }
{
    times(few, sample) >> k
}

/// A sixteenth of a sample, rounded down.
#[inline(always)]
fn sixteenth(sample: i16) -> i32
    ensures value { result ≡ shifted sample 4 }
    ensures small { unsigned_abs result ≤ 2 ^ 16 }
{
    sample as i32 >> 4
}

/// What the second filter adds.
#[inline(always)]
fn second_filter(p: i16, q: i16) -> i32
    ensures value { result ≡ (pos 2 *ℤ p) +ℤ shifted (negsuc 2 *ℤ p) 5 -ℤ q +ℤ shifted q 4 }
    ensures small { unsigned_abs result ≤ 2 ^ 24 }
{
    let from_p = sum(times(2, p), part(-3, p, 5));
    sum(difference(from_p, q as i32), sixteenth(q))
}

/// What the third filter adds.
#[inline(always)]
fn third_filter(p: i16, q: i16) -> i32
    ensures value { result ≡ (pos 2 *ℤ p) +ℤ shifted (negsuc 12 *ℤ p) 6 -ℤ q +ℤ shifted (pos 3 *ℤ q) 4 }
    ensures small { unsigned_abs result ≤ 2 ^ 24 }
{
    let from_p = sum(times(2, p), part(-13, p, 6));
    sum(difference(from_p, q as i32), part(3, q, 4))
}

/// What the block's filter adds to a sample, from the two before it.
#[tactic(auto, unfolding(crate::specs::Brr::filter_part))]
#[inline(always)]
fn filtered(filter: u8, p: i16, q: i16) -> i32
    requires { filter < 4 }
    ensures value { result ≡ filter_part filter p q }
    ensures small { unsigned_abs result ≤ 2 ^ 24 }
{
    match filter {
        0 => 0,
        1 => p as i32 + (-(p as i32) >> 4),
        2 => second_filter(p, q),
        _ => third_filter(p, q),
    }
}

/// A sample from its block's header, its digit, and the two samples before.
#[tactic(auto, unfolding(crate::specs::Brr::sample_of))]
#[inline(always)]
fn sample(header: u8, digit: u8, p: i16, q: i16) -> i16
    requires { digit < 16 }
    ensures { result ≡ sample_of header digit p q }
{
    let sum = scaled(digit, header / 16) + filtered(header / 4 % 4, p, q);
    low_15(clamped(sum) as i32)
}

/// Digit `place` of a byte, counted from the high one.
#[inline(always)]
fn digit_of(byte: u8, place: u8) -> u8
    ensures value { result ≡ digit byte place }
    ensures small { result < 16 }
{
    if place % 2 == 0 { byte / 16 } else { byte % 16 }
}

/// The byte of RAM at an address, modulo 64 KiB.
#[inline(always)]
pub fn byte_at(ram: &[u8], address: u32) -> u8
    requires { length ram.now ≡ 65536 }
    ensures { result ≡ at ram.now address }
{
    ram[(address % 65536) as usize]
}

/// A word of RAM, the low byte first.
#[inline(always)]
pub fn word(ram: &[u8], address: u32) -> u16
    requires ram { length ram.now ≡ 65536 }
    requires address { address < 131072 }
    ensures { result ≡ word_at ram.now address }
{
    byte_at(ram, address) as u16 + 256 * byte_at(ram, address + 1) as u16
}

/// The sample at a voice's place in its block.
#[tactic(auto, unfolding(crate::specs::Brr::next_sample))]
#[inline(always)]
fn sample_here(ram: &[u8], voice: &Voice) -> i16
    requires { length ram.now ≡ 65536 }
    ensures { result ≡ next_sample ram.now voice.now }
{
    let place = voice.place;
    let address = voice.address as u32;
    let header = byte_at(ram, address);
    let byte = byte_at(ram, address + 1 + place as u32 / 2);
    sample(header, digit_of(byte, place), voice.newest, voice.newer)
}

/// Adds a decoded sample to a voice.
#[tactic(auto, unfolding(crate::specs::Brr::with_sample))]
#[inline(always)]
fn add_sample(voice: &mut Voice, x: i16)
    ensures { voice.new ≡ with_sample voice.old x }
{
    voice.oldest = voice.older;
    voice.older = voice.newer;
    voice.newer = voice.newest;
    voice.newest = x;
}

/// Ends a block, whose sixteenth sample was decoded.
#[tactic(auto, unfolding(crate::specs::Brr::after_block))]
#[inline(always)]
fn end_block(ram: &[u8], entry: u16, voice: &mut Voice)
    requires { length ram.now ≡ 65536 }
    ensures { voice.new ≡ after_block ram.now entry voice.old }
{
    let header = byte_at(ram, voice.address as u32);
    voice.place = 0;
    if header % 2 == 1 {
        voice.ended = true;
        voice.address = word(ram, entry as u32 + 2);
        if header / 2 % 2 == 0 {
            voice.envelope = 0;
            voice.phase = Phase::Release;
        }
    } else {
        voice.address = ((voice.address as u32 + 9) % 65536) as u16;
    }
}

/// Moves the voice's place on.
#[tactic(auto, unfolding(crate::specs::Brr::placed_on))]
#[inline(always)]
fn place_on(ram: &[u8], entry: u16, voice: &mut Voice)
    requires { length ram.now ≡ 65536 }
    ensures { voice.new ≡ placed_on ram.now entry voice.old }
{
    if voice.place >= 15 {
        end_block(ram, entry, voice);
    } else {
        voice.place += 1;
    }
}

/// Decodes one sample.
#[tactic(auto, unfolding(crate::specs::Brr::decoded))]
#[inline(always)]
fn decode(ram: &[u8], entry: u16, voice: &mut Voice)
    requires { length ram.now ≡ 65536 }
    ensures { voice.new ≡ decoded ram.now entry voice.old }
{
    let x = sample_here(ram, voice);
    add_sample(voice, x);
    place_on(ram, entry, voice);
}

/// Decodes `times` samples.
#[tactic(auto, using(crate::proofs::Steps::no_sample, crate::proofs::Steps::one_more_sample))]
#[inline(always)]
pub fn decode_times(ram: &[u8], entry: u16, times: u32, voice: &mut Voice)
    requires { length ram.now ≡ 65536 }
    ensures { voice.new ≡ decoded_times ram.now entry times voice.old }
{
    'samples: for _ in 0..times {
        decode(ram, entry, voice);
    }
}
