/// The counts of the turns of a run, or of several runs together.
#[derive(Clone, Copy)]
pub struct Counts {
    /// The turns that both workers started, each once, numbered from 0 on and in order.
    pub turns: u64,
    /// The turns whose two legs began in two different threads.
    pub on_two_threads: u64,
    /// The turns in which each worker saw the other before its own leg had begun, so both legs overlapped.
    pub overlapped: u64,
}

/// The number of turns from which on a run must have one in which both legs overlap. A shorter run can miss it: a
/// thread that begins late finds the other leg at its end.
const ENOUGH: u64 = 4;

impl Counts {
    /// Returns the counts of no turns.
    pub fn none() -> Counts {
        Counts {
            turns: 0,
            on_two_threads: 0,
            overlapped: 0,
        }
    }

    /// Returns the sum of these counts and those of a further run.
    pub fn and(self, other: Counts) -> Counts {
        Counts {
            turns: self.turns.saturating_add(other.turns),
            on_two_threads: self.on_two_threads.saturating_add(other.on_two_threads),
            overlapped: self.overlapped.saturating_add(other.overlapped),
        }
    }

    /// Whether there was at least one turn, and every turn had two threads.
    pub fn all_on_two_threads(&self) -> bool {
        0 < self.turns && self.on_two_threads == self.turns
    }

    /// Whether both legs of a turn overlapped, or the run had too few turns to ask for it.
    pub fn overlaps(&self) -> bool {
        self.turns < ENOUGH || 0 < self.overlapped
    }
}
