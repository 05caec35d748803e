//! The moment of an access, and what the picture unit does then.

ghost use Rattle.std.specs.Prelude.{◌≡◌};
ghost use Rattle.lint_rules.specs.Picture.{blank_line, in_blank, is_blank, is_drawn};

/// A moment of a run, as the picture unit sees it.
#[derive(Clone, Copy)]
pub struct Moment {
    /// The frame, from 0.
    pub frame: u64,
    /// The line of the beam, from 0.
    pub line: u64,
    /// The line clock, 0 to 1,363.
    pub clock: u64,
    /// Whether overscan is on.
    pub overscan: bool,
    /// Whether forced blank is on.
    pub forced: bool,
}

impl Moment {
    /// Returns the line at which vertical blank begins: 225, or 240 with overscan.
    pub fn blank_line(&self) -> u64
        ensures { result ≡ blank_line self.now }
    {
        if self.overscan { 240 } else { 225 }
    }

    /// Whether vertical blank lasts.
    pub fn in_blank(&self) -> bool
        ensures { result ≡ in_blank self.now }
    {
        self.blank_line() <= self.line
    }

    /// Whether nothing is drawn: vertical blank or forced blank lasts.
    pub fn is_blank(&self) -> bool
        ensures { result ≡ is_blank self.now }
    {
        self.forced || self.in_blank()
    }

    /// Whether the dots of a line are drawn.
    pub fn is_drawn(&self) -> bool
        ensures { result ≡ is_drawn self.now }
    {
        !self.is_blank() && 1 <= self.line && 88 <= self.clock && self.clock < 1096
    }
}
