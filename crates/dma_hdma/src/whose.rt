/// The channel that moves the next byte.
#[derive(Clone, Copy)]
pub enum Turn {
    /// No byte is due.
    Nobody,
    /// This channel, for its HDMA.
    Hdma(usize),
    /// This channel, for its DMA.
    Dma(usize),
}
