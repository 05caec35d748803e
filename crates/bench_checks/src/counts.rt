//! How many cases ended how.

ghost use Rattle.std.specs.Prelude.{◌≡◌, count_by};
ghost use Rattle.bench_checks.specs.Ends.{is_passed, is_failed, is_fault, counts_of};

use crate::verdict::End;

/// How many cases ended how.
#[derive(Clone, Copy)]
pub struct Counts {
    /// Those that are as expected.
    pub passed: usize,
    /// Those that are not.
    pub failed: usize,
    /// Those that could not be run.
    pub faults: usize,
}

/// Whether a case is as expected.
fn is_passed(end: End) -> bool
    ensures { result ≡ is_passed end }
{
    match end {
        End::Passed => true,
        End::Failed => false,
        End::Fault => false,
    }
}

/// Whether something is not as expected.
fn is_failed(end: End) -> bool
    ensures { result ≡ is_failed end }
{
    match end {
        End::Passed => false,
        End::Failed => true,
        End::Fault => false,
    }
}

/// Whether a case could not be run.
fn is_fault(end: End) -> bool
    ensures { result ≡ is_fault end }
{
    match end {
        End::Passed => false,
        End::Failed => false,
        End::Fault => true,
    }
}

/// How many cases are as expected.
fn passed_in(ends: &[End]) -> usize
    ensures { result ≡ count_by is_passed ends.now }
{
    ends.iter().filter(|end| is_passed(**end)).count()
}

/// In how many cases something is not as expected.
fn failed_in(ends: &[End]) -> usize
    ensures { result ≡ count_by is_failed ends.now }
{
    ends.iter().filter(|end| is_failed(**end)).count()
}

/// How many cases could not be run.
fn faults_in(ends: &[End]) -> usize
    ensures { result ≡ count_by is_fault ends.now }
{
    ends.iter().filter(|end| is_fault(**end)).count()
}

/// Counts the cases.
pub fn counts_of(ends: &[End]) -> Counts
    ensures { result ≡ counts_of ends.now }
{
    Counts {
        passed: passed_in(ends),
        failed: failed_in(ends),
        faults: faults_in(ends),
    }
}
