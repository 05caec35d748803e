//! The echo buffer in sound RAM, and loops that wait for ENDX.

ghost use Rattle.std.specs.Prelude.{◌≡◌};
ghost use Rattle.lint_rules.specs.Sound.{echo_size, covers, echo_broken, polled, waits_for_endx};

use crate::rule::Rule;

/// What the S-DSP has in its registers of the echo buffer.
#[derive(Clone, Copy, PartialEq, Eq)]
pub struct Echo {
    /// 6C FLG: bit 5 forbids writes to the buffer.
    pub flags: u8,
    /// 6D ESA: the page at which the buffer begins.
    pub start: u8,
    /// 7D EDL, bits 3-0: the length in units of 2,048 bytes. 0 is 4 bytes.
    pub delay: u8,
}

impl Echo {
    /// Returns how many bytes the buffer has.
    pub fn size(&self) -> u16
        ensures { result ≡ echo_size self.now.delay }
    {
        let delay = self.delay % 16;
        if delay == 0 {
            4
        } else {
            2048 * u16::from(delay)
        }
    }

    /// Whether the S-DSP writes to a byte of sound RAM: writes are allowed, and the buffer is there. It goes on at 0000 after FFFF.
    pub fn covers(&self, at: u16) -> bool
        ensures { result ≡ covers self.now at }
    {
        let behind = (65_536 + u32::from(at) - 256 * u32::from(self.start)) % 65_536;
        self.flags / 32 % 2 == 0 && behind < u32::from(self.size())
    }

    /// Returns the rule that is broken if a byte of sound RAM is executed, or holds what the sound program has put there.
    ///
    /// Source: fullsnes, "SNES APU DSP Echo Registers".
    pub fn rule(&self, at: u16) -> Option<Rule>
        ensures { result ≡ echo_broken self.now at }
    {
        if self.covers(at) {
            Some(Rule::EchoOverMemory)
        } else {
            None
        }
    }
}

/// Reads of ENDX by one instruction, one soon after another.
#[derive(Clone, Copy)]
pub struct EndxPolls {
    /// The address of the instruction.
    pub by: u16,
    /// The cycle of the last read.
    pub last: u64,
    /// How many there were.
    pub count: u64,
}

impl EndxPolls {
    /// Adds a read. Another instruction's read, or one that comes more than 64 cycles later, is the first of another loop.
    pub fn add(&mut self, by: u16, cycle: u64)
        ensures { self.new ≡ polled self.old by cycle }
    {
        let goes_on = by == self.by && cycle.saturating_sub(self.last) <= 64;
        self.count = if goes_on && self.count < 3 {
            self.count + 1
        } else if goes_on {
            4
        } else {
            1
        };
        self.by = by;
        self.last = cycle;
    }

    /// Returns the rule that a loop breaks: once, at its third read.
    ///
    /// Here the bit of a voice that ends is set after the last sample of its block. Other emulators set it up to 26 samples earlier.
    pub fn rule(&self) -> Option<Rule>
        ensures { result ≡ waits_for_endx self.now }
    {
        if self.count == 3 {
            Some(Rule::WaitForEndx)
        } else {
            None
        }
    }
}
