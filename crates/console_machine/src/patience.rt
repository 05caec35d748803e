// When to search for an idle loop.
ghost use Rattle.std.specs.Prelude.{◌≡◌, false};

/// The most runs of steps between two searches for an idle loop.
const MOST_RUNS: u8 = 63;

/// When to search for an idle loop (a *round* is one iteration of it). A search that finds none makes the next one wait
/// about twice as long. So a program that works or talks pays for few of them. After a search that finds one, the next
/// run searches again. It never changes what a run does.
#[derive(Clone, Copy)]
pub struct Patience {
    /// How many runs are left before the next search.
    left: u8,
    /// How many runs were skipped after the last search that found nothing.
    last: u8,
}

impl Patience {
    /// Returns the state before any search: the next run searches.
    pub fn full() -> Patience
        ensures { result.left ≡ 0 }
    {
        Patience { left: 0, last: 0 }
    }

    /// Returns whether this run is to search for an idle loop, and counts the run if not.
    #[inline(always)]
    pub fn asks(&mut self) -> bool
        ensures { result ≡ false → self.new.last ≡ self.old.last }
    {
        if self.left == 0 {
            return true;
        }
        self.left -= 1;
        false
    }

    /// Records that a search begins, and counts it as one that finds nothing until `found` is called.
    #[inline(always)]
    pub fn begins(&mut self)
        ensures { self.new.left ≡ self.new.last }
    {
        self.last = if self.last >= MOST_RUNS / 2 {
            MOST_RUNS
        } else {
            2 * self.last + 1
        };
        self.left = self.last;
    }

    /// Records that the search found an idle loop: the next run searches again.
    #[inline(always)]
    pub fn found(&mut self)
        ensures { self.new.left ≡ 0 }
    {
        *self = Patience::full();
    }
}
