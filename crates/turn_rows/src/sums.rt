use case_text::{hashed, no_hash};
use shelf::Failed;
use run_drive::Sink;
use snes_defs::Side;

/// The bytes of one side: their number, how many of them are not 0, and their hash.
#[derive(Clone, Copy, Debug, PartialEq, Eq)]
pub(crate) struct Track {
    pub(crate) count: u64,
    pub(crate) sounding: u64,
    hash: u64,
}

impl Track {
    /// Returns the track of no bytes.
    fn new() -> Track {
        Track {
            count: 0,
            sounding: 0,
            hash: no_hash(),
        }
    }

    fn add(&mut self, byte: u8) {
        self.count = self.count.wrapping_add(1);
        if byte != 0 {
            self.sounding = self.sounding.wrapping_add(1);
        }
        self.hash = hashed(self.hash, byte);
    }
}

/// Counts and hashes of what both sides emitted.
#[derive(Clone, Copy, Debug, PartialEq, Eq)]
pub(crate) struct Sums {
    pub(crate) console: Track,
    pub(crate) sound: Track,
}

impl Sums {
    pub(crate) fn new() -> Sums {
        Sums {
            console: Track::new(),
            sound: Track::new(),
        }
    }
}

/// A sink about which no clause says anything: what it got is compared at run time.
impl Sink for Sums {
    ghost holds = { λ _ _ _. Unit {0} };

    ghost only_takes = { λ _ _. Unit {0} };

    ghost failed = { λ _ _ _. ⊥ };

    fn take(&mut self, side: Side, bytes: &[u8]) -> Result<(), Failed> {
        let track = match side {
            Side::Console => &mut self.console,
            Side::Sound => &mut self.sound,
        };
        for byte in bytes {
            track.add(*byte);
        }
        Ok(())
    }

    ghost takes_none = { λ _. tt };

    ghost takes_more = { λ _ _ _ _ _. tt };

    ghost failed_since = { λ _ _ _ _ _ none. none };
}
