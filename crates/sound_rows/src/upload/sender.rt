//! A scripted console: it writes and reads the four ports, and follows the upload protocol as programs do.

ghost use Rattle.std.specs.Prelude.{◌<◌};

use audio_side::AudioSide;
use side_law::Machine;
use snes_defs::Act;

/// The most cycles that an answer may take.
const PATIENCE: u32 = 10_000;

/// What an uploader stores first, and how long it takes from one read or store to the next.
#[derive(Clone, Copy)]
pub struct Manner {
    /// A byte and its index by one store of 16 bits: the index is there first, the byte a cycle later.
    pub by_words: bool,
    /// Cycles of the sound side between two accesses, from 1 on.
    pub pace: u32,
}

/// Bytes that follow one another in memory.
#[derive(Clone, Copy)]
pub struct Block {
    /// The address of the first byte.
    pub at: u16,
    /// The number of bytes.
    pub size: u16,
    /// What the bytes are.
    pub fill: Fill,
}

/// The contents of a block.
#[derive(Clone, Copy)]
pub enum Fill {
    /// Numbers from a first one on; no two pages are alike.
    From(u8),
    /// A program, and zeros after it.
    Program([u8; 25]),
}

impl Block {
    /// Returns the byte at an index.
    pub fn byte(&self, index: u16) -> u8 {
        match self.fill {
            Fill::From(first) => {
                let [low, page] = index.to_le_bytes();
                let further = low.wrapping_mul(7).wrapping_add(page.wrapping_mul(31));
                first.wrapping_add(further)
            }
            Fill::Program(bytes) => {
                let place = usize::from(index);
                if place < 25 { bytes[place] } else { 0 }
            }
        }
    }
}

/// An answer at a port that the protocol misses.
#[derive(Clone, Copy)]
pub struct Missing {
    /// The port.
    pub port: u8,
    /// The byte that was expected.
    pub byte: u8,
    /// The byte that is there.
    pub stands: u8,
}

/// The scripted console: what it wrote to each port, what the sound side wrote there, and how often.
#[derive(Clone, Copy)]
pub struct Sender {
    written: [u8; 4],
    shown: [u8; 4],
    counts: [u32; 4],
    manner: Manner,
}

impl Sender {
    /// Returns a console that wrote nothing yet.
    pub fn new(manner: Manner) -> Sender {
        Sender {
            written: [0; 4],
            shown: [0; 4],
            counts: [0; 4],
            manner,
        }
    }

    /// Returns the bytes that the sound side has at its ports.
    pub fn shown(&self) -> [u8; 4] {
        self.shown
    }

    /// Returns how often the sound side wrote to each port.
    pub fn counts(&self) -> [u32; 4] {
        self.counts
    }

    /// Runs the sound side for the given number of cycles.
    pub fn pass(&mut self, side: &mut AudioSide, cycles: u32) {
        for _ in 0..cycles {
            self.pass_one(side);
        }
    }

    /// Runs the sound side for one cycle.
    pub fn pass_one(&mut self, side: &mut AudioSide) {
        let mut got = 0;
        match side.act() {
            Act::Quiet => {}
            Act::Read(port) => got = self.written[usize::from(port % 4)],
            Act::Write(port, byte) => {
                let place = usize::from(port % 4);
                self.shown[place] = byte;
                self.counts[place] = self.counts[place].saturating_add(1);
            }
            Act::Clear(mask) => self.clear(mask),
        }
        let mut heard = [0u8; 64];
        if !side.ready() {
            let _count = side.drain(&mut heard);
        }
        if side.ready() && side.stamp() <= 1 << 62 {
            side.step(got);
        }
    }

    /// Zeros what was written to the ports of a mask.
    fn clear(&mut self, mask: u8) {
        for port in 0..4usize {
            if mask >> port & 1 == 1 {
                self.written[port] = 0;
            }
        }
    }

    /// Stores a byte at a port.
    fn store(&mut self, side: &mut AudioSide, port: usize, byte: u8)
        requires { port < 4 }
    {
        self.pass(side, self.manner.pace);
        self.written[port] = byte;
    }

    /// Reads a port until a byte is there.
    fn wait(&mut self, side: &mut AudioSide, port: u8, byte: u8) -> Result<(), Missing> {
        let place = usize::from(port % 4);
        let mut passed = 0u32;
        for _ in 0..PATIENCE {
            self.pass(side, self.manner.pace);
            if self.shown[place] == byte {
                return Ok(());
            }
            passed = passed.saturating_add(self.manner.pace);
            if passed >= PATIENCE {
                break;
            }
        }
        Err(Missing {
            port,
            byte,
            stands: self.shown[place],
        })
    }

    /// Waits for the offer, AA and BB.
    pub fn wait_for_offer(&mut self, side: &mut AudioSide) -> Result<(), Missing> {
        self.wait(side, 0, 0xaa)?;
        self.wait(side, 1, 0xbb)
    }

    /// Sends an order and waits for its echo: the address, the kind (zero is a jump), and the order's byte.
    fn order(&mut self, side: &mut AudioSide, at: u16, kind: u8, byte: u8) -> Result<(), Missing> {
        let [low, high] = at.to_le_bytes();
        self.store(side, 2, low);
        self.store(side, 3, high);
        self.store(side, 1, kind);
        self.store(side, 0, byte);
        self.wait(side, 0, byte)
    }

    /// Sends the order to jump. From now on it reads at every cycle, so that it meets the program as it begins.
    pub fn jump(&mut self, side: &mut AudioSide, at: u16, byte: u8) -> Result<(), Missing> {
        self.manner.pace = 1;
        self.order(side, at, 0, byte)
    }

    /// Sends a byte of a block and its index, and waits for the index's echo.
    fn send(&mut self, side: &mut AudioSide, index: u8, byte: u8) -> Result<(), Missing> {
        if self.manner.by_words {
            self.store(side, 0, index);
            self.pass_one(side);
            self.written[1] = byte;
        } else {
            self.store(side, 1, byte);
            self.store(side, 0, index);
        }
        self.wait(side, 0, index)
    }

    /// Sends a block by an order, and returns the byte of the next order: the last index plus `further`, or 1 more if
    /// that is zero.
    pub fn block(
        &mut self,
        side: &mut AudioSide,
        block: &Block,
        byte: u8,
        further: u8,
    ) -> Result<u8, Missing> {
        self.order(side, block.at, 1, byte)?;
        let mut last = 0u8;
        for index in 0..block.size {
            last = (index % 256) as u8;
            self.send(side, last, block.byte(index))?;
        }
        let next = last.wrapping_add(further);
        Ok(if next == 0 { 1 } else { next })
    }
}
