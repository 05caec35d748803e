/// Why a call on the log is refused. The log is then as it was, and the call may be repeated once the other side has
/// advanced.
#[derive(Clone, Copy, Debug, PartialEq, Eq)]
pub enum Late {
    /// The other side may still write what the call would have to see.
    Behind {
        /// The stamp of the call.
        need: u64,
        /// The clock that the other side has published.
        other: u64,
    },
    /// The write is further ahead of the other side than the window.
    Ahead {
        /// The stamp of the write.
        at: u64,
        /// The clock that the other side has published.
        other: u64,
    },
}
