/// An event at a place of the beam. At one place events come in this order.
#[derive(Clone, Copy)]
pub enum Event {
    /// A line begins. In line 0 a frame begins, and vertical blank ends.
    Line,
    /// Vertical blank begins.
    Blank,
    /// The HDMA channels begin their tables for the frame.
    HdmaFrame,
    /// A refresh of the work RAM is due.
    Refresh,
    /// A row of the picture is drawn.
    Draw,
    /// The HDMA channels move the bytes of a line.
    HdmaLine,
    /// The timer asks for an interrupt.
    Timer,
}

/// The events that happen at one place.
#[derive(Clone, Copy)]
pub struct Happens {
    /// Whether `Event::Line` happens.
    pub line: bool,
    /// Whether `Event::Blank` happens.
    pub blank: bool,
    /// Whether `Event::HdmaFrame` happens.
    pub hdma_frame: bool,
    /// Whether `Event::Refresh` happens.
    pub refresh: bool,
    /// Whether `Event::Draw` happens.
    pub draw: bool,
    /// Whether `Event::HdmaLine` happens.
    pub hdma_line: bool,
    /// Whether `Event::Timer` happens.
    pub timer: bool,
}
