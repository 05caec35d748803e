//! Writes of the sound program to the DSP. A sample lasts 32 cycles of the SPC700.

ghost use Rattle.std.specs.Prelude.{◌≡◌};
ghost use Rattle.lint_rules.specs.Units.{is_soon, key_on_broken, key_off_broken, selector_broken};
ghost use Rattle.lint_rules.specs.Places.{shares};

use crate::rule::Rule;
use crate::transfers::shares;

/// Whether two samples have not passed since an earlier cycle.
fn is_soon(before: u64, cycle: u64) -> bool
    ensures { result ≡ is_soon before cycle }
{
    cycle.saturating_sub(before) < 64
}

/// Returns the rule that a write of KON (4C) breaks, given the cycle of the last write of KON that had a bit set, if there was one.
///
/// Source: fullsnes, "SNES APU DSP ADSR/Gain Envelope": keys are looked at in every second sample.
pub fn key_on_rule(before: Option<u64>, cycle: u64) -> Option<Rule>
    ensures { result ≡ key_on_broken before cycle }
{
    match before {
        Some(before) => {
            if is_soon(before, cycle) {
                Some(Rule::KeyOnTwice)
            } else {
                None
            }
        }
        None => None,
    }
}

/// Returns the rule that a write of KOFF (5C) breaks, given its byte and cycle before: a bit is cleared too soon.
pub fn key_off_rule(before: u8, since: u64, byte: u8, cycle: u64) -> Option<Rule>
    ensures { result ≡ key_off_broken before since byte cycle }
{
    if is_soon(since, cycle) && shares(before, 255 - byte) {
        Some(Rule::KeyOffShort)
    } else {
        None
    }
}

/// Returns the rule that a write of F3 breaks, given the register that F2 selects.
///
/// Source: fullsnes, 00F2h DSPADDR.
pub fn selector_rule(register: u8) -> Option<Rule>
    ensures { result ≡ selector_broken register }
{
    if 128 <= register {
        Some(Rule::DspSelector)
    } else {
        None
    }
}
