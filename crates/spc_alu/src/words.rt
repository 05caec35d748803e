ghost use Rattle.std.specs.Prelude.{◌≡◌, ◌+◌, ◌*◌, ◌<◌};
ghost use Rattle.spc_alu.specs.Words.{
  add_word,
  after_word_step,
  compare_word,
  load_ya,
  low_stepped,
  put_ya,
  subtract_word,
  sum_with_ya,
  word_overflow,
  word_step,
  word_stepped,
  ya,
};

use crate::status::with_word_result;
use spc_tables::{CARRY, HALF_CARRY, OVERFLOW, SpcOp, SpcRegs};
use status_bits::with_bit;

/// The word YA.
#[inline(always)]
pub fn ya_of(regs: SpcRegs) -> u16
    ensures { result ≡ ya regs }
{
    regs.a as u16 + 256 * regs.y as u16
}

/// Puts a word into Y and A.
#[inline(always)]
pub fn with_ya(regs: SpcRegs, value: u16) -> SpcRegs
    ensures { result ≡ put_ya regs value }
{
    SpcRegs {
        a: (value % 256) as u8,
        y: (value / 256) as u8,
        ..regs
    }
}

/// MOVW YA: a word is loaded, and sets N and Z.
#[tactic(auto, unfolding(crate::specs::Words::load_ya))]
#[inline(always)]
pub fn ya_loaded(regs: SpcRegs, word: u16) -> SpcRegs
    ensures { result ≡ load_ya regs word }
{
    let psw = with_word_result(word, regs.psw);
    SpcRegs {
        psw,
        ..with_ya(regs, word)
    }
}

/// Whether the signed sum of two words does not fit a word.
#[inline(always)]
fn has_word_overflow(value: u16, word: u16, sum: u32) -> bool
    ensures { result ≡ word_overflow value word sum }
{
    let sign = sum / 32768 % 2;
    sign != value as u32 / 32768 % 2 && sign != word as u32 / 32768 % 2
}

/// The sum of YA, a word and a carry.
#[tactic(auto, unfolding(crate::specs::Words::sum_with_ya))]
#[inline(always)]
fn ya_added(regs: SpcRegs, word: u16, carry: u16) -> SpcRegs
    requires { carry < 2 }
    ensures { result ≡ sum_with_ya regs word carry }
{
    let value = ya_of(regs);
    let sum = value as u32 + word as u32 + carry as u32;
    let low = (sum % 65536) as u16;
    let with_carry = with_bit(with_word_result(low, regs.psw), CARRY, sum >= 65536);
    let has_half = value % 4096 + word % 4096 + carry >= 4096;
    let with_half = with_bit(with_carry, HALF_CARRY, has_half);
    let psw = with_bit(with_half, OVERFLOW, has_word_overflow(value, word, sum));
    SpcRegs {
        psw,
        ..with_ya(regs, low)
    }
}

/// ADDW: the sum of YA and a word.
#[tactic(auto, unfolding(crate::specs::Words::add_word))]
#[inline(always)]
pub fn word_added(regs: SpcRegs, word: u16) -> SpcRegs
    ensures { result ≡ add_word regs word }
{
    ya_added(regs, word, 0)
}

/// SUBW: the difference of YA and a word.
#[tactic(auto, unfolding(crate::specs::Words::subtract_word))]
#[inline(always)]
pub fn word_subtracted(regs: SpcRegs, word: u16) -> SpcRegs
    ensures { result ≡ subtract_word regs word }
{
    ya_added(regs, 65535 - word, 1)
}

/// CMPW: YA is compared with a word.
#[tactic(auto, unfolding(crate::specs::Words::compare_word))]
#[inline(always)]
pub fn word_compared(regs: SpcRegs, word: u16) -> SpcRegs
    ensures { result ≡ compare_word regs word }
{
    let value = ya_of(regs);
    let difference = ((value as u32 + 65536 - word as u32) % 65536) as u16;
    SpcRegs {
        psw: with_bit(with_word_result(difference, regs.psw), CARRY, value >= word),
        ..regs
    }
}

/// What INCW and DECW add to a word, modulo 65536.
#[inline(always)]
fn step_of(op: SpcOp) -> u16
    ensures { result ≡ word_step op }
{
    match op {
        SpcOp::Decw => 65535,
        _ => 1,
    }
}

/// INCW and DECW: the low byte that is written, by the low byte that was read.
#[tactic(auto, unfolding(crate::specs::Words::low_stepped))]
#[inline(always)]
pub fn low_after_step(op: SpcOp, low: u8) -> u8
    ensures { result ≡ low_stepped op low }
{
    ((low as u32 + step_of(op) as u32) % 256) as u8
}

/// INCW and DECW: the word that is written, by the word that was read.
#[tactic(auto, unfolding(crate::specs::Words::word_stepped))]
#[inline(always)]
pub fn word_after_step(op: SpcOp, word: u16) -> u16
    ensures { result ≡ word_stepped op word }
{
    ((word as u32 + step_of(op) as u32) % 65536) as u16
}

/// INCW and DECW: the registers, by the word that was read.
#[tactic(auto, unfolding(crate::specs::Words::after_word_step))]
#[inline(always)]
pub fn step_word(regs: &mut SpcRegs, op: SpcOp, word: u16)
    ensures { regs.new ≡ after_word_step op regs.old word }
{
    regs.psw = with_word_result(word_after_step(op, word), regs.psw);
}
