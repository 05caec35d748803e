use snes_defs::Side;

/// Why a call over a pass was refused.
#[derive(Clone, Copy, PartialEq, Eq)]
pub enum PassLate {
    /// The other side may still write what a read at the stamp `need` sees: `other` is its clock.
    Behind { need: u64, other: u64 },
    /// The stamp `at` is further ahead of the other side's clock `other` than the window.
    Ahead { at: u64, other: u64 },
    /// The other side held the ports at that moment.
    Held { by: Side },
}

/// The name of a call over a pass.
#[derive(Clone, Copy)]
pub enum CallName {
    Read,
    Clear,
    Write,
    Advance,
}
