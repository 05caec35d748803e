// What one call logs.

/// What a call adds to its side's list.
#[derive(Clone, Copy)]
pub enum Event {
    /// No entry: a read, a clock, or a call that was refused.
    Nothing,
    /// A write of a byte to an outgoing port.
    Wrote {
        /// The stamp of the step.
        at: u64,
        /// The port, 0 to 3.
        port: u8,
        /// The byte that the step wrote.
        byte: u8,
    },
    /// A clear of incoming ports.
    Cleared {
        /// The stamp of the step.
        at: u64,
        /// The mask of the ports: bit `p` for port `p`.
        mask: u8,
    },
}
