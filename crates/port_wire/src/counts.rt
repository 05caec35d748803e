// The tally of refused calls that a pass keeps.
ghost use Rattle.std.specs.Prelude.{◌≡◌};
ghost use Rattle.clock_ratio.specs.Stamp.{window_of};
ghost use Rattle.port_wire.specs.Tally.{counted_on, no_tally, after_refusal, after_answer};
ghost use Rattle.port_wire.specs.Counts.{tally_of, is_again_by, tally_after, counted_as};

use crate::late::{CallName, PassLate};
use clock_ratio::window;
use snes_defs::Region;

/// A refused call: its name and stamp, and why it was refused.
#[derive(Clone, Copy)]
pub struct Refusal {
    /// The name of the call.
    pub name: CallName,
    /// The stamp of the call.
    pub at: u64,
    /// Why it was refused.
    pub late: PassLate,
}

/// A tally of refused calls, and the last refusal.
#[derive(Clone, Copy)]
pub struct Counts {
    /// How many calls were refused.
    pub refused: u64,
    /// How many of the last calls in a row were refused, all of one name and at one stamp.
    pub row: u64,
    /// The last refusal.
    pub last: Option<Refusal>,
}

/// Returns one more, or the same at the end of the range.
fn one_more(n: u64) -> u64
    ensures { result ≡ counted_on n }
{
    if n == u64::MAX { n } else { n + 1 }
}

/// Whether a refused call continues the row of the last refusal.
fn goes_on(last: Option<Refusal>, name: CallName, at: u64) -> bool
    ensures { result ≡ is_again_by last name at }
{
    match last {
        None => false,
        Some(refusal) => refusal.name == name && refusal.at == at,
    }
}

/// Returns how an advance at `at` counts: as refused, too, if the clock that it found is too early for a step there.
pub fn counted(region: Region, at: u64, answer: Result<u64, PassLate>) -> Result<u64, PassLate>
    ensures { result ≡ counted_as (window_of region) at answer }
{
    match answer {
        Ok(other) => {
            if at > other && at - other > window(region) {
                Err(PassLate::Ahead { at, other })
            } else {
                Ok(other)
            }
        }
        Err(late) => Err(late),
    }
}

impl Counts {
    /// Returns the tally before any call.
    pub fn none() -> Counts
        ensures { tally_of result ≡ no_tally }
    {
        Counts {
            refused: 0,
            row: 0,
            last: None,
        }
    }

    /// Returns the tally after a refused call.
    fn refused(self, name: CallName, at: u64, late: PassLate) -> Counts
        ensures { tally_of result ≡ after_refusal (tally_of self) name at late }
    {
        let again = goes_on(self.last, name, at);
        let before = if again { self.row } else { 0 };
        Counts {
            refused: one_more(self.refused),
            row: one_more(before),
            last: Some(Refusal { name, at, late }),
        }
    }

    /// Returns the tally after a call of a name at a stamp, by the call's result.
    #[inline(always)]
    pub fn after<T>(self, name: CallName, at: u64, answer: &Result<T, PassLate>) -> Counts
        ensures { tally_of result ≡ tally_after name at answer.now (tally_of self) }
    {
        match answer {
            Ok(_) => Counts { row: 0, ..self },
            Err(late) => self.refused(name, at, *late),
        }
    }
}
