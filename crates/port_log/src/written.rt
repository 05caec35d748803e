/// A write that a side made at one of its outgoing ports.
#[derive(Clone, Copy)]
pub struct Written {
    /// The stamp of the step that wrote.
    pub at: u64,
    /// The port, 0 to 3.
    pub port: u8,
    /// The byte that the step wrote.
    pub byte: u8,
}
