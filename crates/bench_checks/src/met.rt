//! Whether what came is as a bench file expects it.

ghost use Rattle.std.specs.Prelude.{◌≡◌, ◌+◌, ◌*◌, ◌↔◌, ◌==◌, IsTrue, count_by};
ghost use Rattle.std.specs.List.{list_all};
ghost use Rattle.bench_checks.specs.Expected.{size_of, IsWithin, AreMet, IsSumMet, IsInTime, IsHeardAs, is_warning, IsWithoutWarnings};

use crate::plan::{Expected, Reach};
use crate::sums::Sum;
use lint_rules::Severity;

/// Whether a number is one of these bounds, or between them.
fn is_within(least: u32, most: u32, number: u32) -> bool
    ensures { IsTrue result ↔ IsWithin least most number }
{
    least <= number && number <= most
}

/// The number of two bytes, low byte first.
fn word_of(low: u8, high: u8) -> u32
    ensures { result ≡ low + 256 * high }
{
    low as u32 + 256 * high as u32
}

impl Expected {
    /// How many bytes are expected.
    pub fn size(&self) -> usize
        ensures { result ≡ size_of self.now }
    {
        match self {
            Expected::Byte(_, _) => 1,
            Expected::Word(_, _) => 2,
            Expected::Bytes(bytes) => bytes.len(),
        }
    }

    /// Whether the bytes of a place are those that are expected.
    pub fn is_met(&self, bytes: &[u8]) -> bool
        ensures { IsTrue result ↔ AreMet self.now bytes.now }
    {
        match self {
            Expected::Byte(least, most) => {
                bytes.len() == 1 && is_within(*least, *most, bytes[0] as u32)
            }
            Expected::Word(least, most) => {
                bytes.len() == 2 && is_within(*least, *most, word_of(bytes[0], bytes[1]))
            }
            Expected::Bytes(expected) => bytes == expected.as_slice(),
        }
    }
}

impl Reach {
    /// Whether the instruction began in time. `reached` is the first frame in which it did.
    pub fn is_met(&self, reached: Option<u32>) -> bool
        ensures { IsTrue result ↔ IsInTime self.now.within reached }
    {
        match reached {
            Some(frame) => frame < self.within,
            None => false,
        }
    }
}

/// Whether a sum is that which is expected, if one is.
pub fn is_sum_met(expected: &Option<Sum>, sum: &[u8; 32]) -> bool
    ensures { IsTrue result ↔ IsSumMet expected.now sum.now }
{
    match expected {
        Some(expected) => expected.bytes == *sum,
        None => true,
    }
}

/// Whether what is heard is as expected. `heard` is the first frame in which a sample is other than 0.
pub fn is_heard_as(expected: Option<bool>, heard: Option<u32>) -> bool
    ensures { IsTrue result ↔ IsHeardAs expected heard }
{
    match expected {
        Some(true) => heard.is_some(),
        Some(false) => heard.is_none(),
        None => true,
    }
}

/// Whether each byte of these samples is 0.
pub fn is_silent(samples: &[u8]) -> bool
    ensures { result ≡ list_all (λ byte. byte == 0) samples.now }
{
    samples.iter().all(|byte| *byte == 0)
}

/// Whether a finding is a warning.
fn is_warning(severity: Severity) -> bool
    ensures { result ≡ is_warning severity }
{
    match severity {
        Severity::Warning => true,
        Severity::Note => false,
    }
}

/// How many findings of these severities are warnings.
pub fn warnings_in(found: &[Severity]) -> usize
    ensures { result ≡ count_by is_warning found.now }
{
    found
        .iter()
        .filter(|severity| is_warning(**severity))
        .count()
}

/// Whether a run has no warnings. `found` has the severities of the findings that are not allowed; `more` is how often rules
/// were broken at places that are not kept.
pub fn is_without_warnings(found: &[Severity], more: u64) -> bool
    ensures { IsTrue result ↔ IsWithoutWarnings found.now more }
{
    warnings_in(found) == 0 && more == 0
}
