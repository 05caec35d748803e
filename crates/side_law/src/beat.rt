use snes_defs::Act;

/// One step of a `Tape`.
#[derive(Clone, Copy)]
pub struct Beat {
    /// By how much the step raises the stamp, from the least to the most of its region.
    pub rise: u64,
    /// What the step does at the ports.
    pub act: Act,
}
