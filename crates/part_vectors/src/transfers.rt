//! Cases of transfers, such as `data/dma.txt`.
//!
//! A case is a block of lines from `dma` to `end`, with new channels. `w AAAAVV ..` writes registers
//! 4300 to 437F; `bytes SEED` makes the bytes that are moved those of the generator x = 1664525 x +
//! 1013904223 modulo 2^32, upper byte, one a move, and `given` those that the moves name; `start MASK`,
//! `enable MASK`, `frame` and `line` are the calls; `count N` moves N bytes, after which none is due.
//! `go N MOVES` moves N bytes, or with `all` as long as one is due: `L` + from + byte for a load, `B` +
//! from + port + byte to the B side, `A` + to + port + byte to the A side. `q AAAA BUS GOT` is a read.
//! N is decimal, all other numbers are hexadecimal.

use crate::line::Line;
use case_text::{Generator, part};
use dma_hdma::{Dma, Move};

/// The current case: its channels, and the generator of the bytes that they move.
#[derive(Drop)]
pub struct TransferCase {
    dma: Dma,
    generator: Generator,
    /// Whether the bytes are those that the moves name.
    given: bool,
}

impl TransferCase {
    /// Returns a case with new channels.
    pub fn new() -> TransferCase {
        TransferCase {
            dma: Dma::new(),
            generator: Generator::new(0),
            given: false,
        }
    }

    /// Whether a line holds. One that only says what to do holds, and one that can't be read doesn't.
    pub fn holds(&mut self, line: &str) -> bool {
        self.result_of(line).unwrap_or(false)
    }

    /// Does a line, and returns whether it holds; `None` for a line that can't be read.
    fn result_of(&mut self, line: &str) -> Option<bool> {
        let mut words = Line::new(line);
        match words.word()? {
            "w" => self.writes(words),
            "go" => self.goes(words),
            "q" => self.reads(words),
            "count" => Some(self.runs_for(words.decimal()?)),
            "dma" => {
                self.dma = Dma::new();
                self.given = false;
                Some(true)
            }
            kind => self.called(kind, words),
        }
    }

    /// Makes the call of a name.
    fn called(&mut self, kind: &str, mut words: Line<'_>) -> Option<bool> {
        match kind {
            "bytes" => self.generator = Generator::new(words.hexadecimal()?),
            "given" => self.given = true,
            "start" => self.dma.start(words.hexadecimal()?),
            "enable" => self.dma.enable(words.hexadecimal()?),
            "frame" => self.dma.frame(),
            "line" => self.dma.line(),
            _ => return Some(kind == "end"),
        }
        Some(true)
    }

    /// Writes registers: four digits of the address and two of the byte each.
    fn writes(&mut self, words: Line<'_>) -> Option<bool> {
        for word in words.rest() {
            let addr = part(word, 0, 4)?;
            let v = part(word, 4, 6)?;
            if !(0x4300..=0x437f).contains(&addr) {
                return None;
            }
            self.dma.write(addr, v);
        }
        Some(true)
    }

    /// Whether a register gives the byte.
    fn reads(&mut self, mut words: Line<'_>) -> Option<bool> {
        let addr = words.hexadecimal()?;
        let bus = words.hexadecimal()?;
        let got = words.hexadecimal::<u8>()?;
        if !(0x4300..=0x437f).contains(&addr) {
            return None;
        }
        Some(self.dma.read(addr, bus) == got)
    }

    /// Whether the next bytes are moved as the line says, and no more are due if all were asked for.
    fn goes(&mut self, mut words: Line<'_>) -> Option<bool> {
        let count = words.word()?;
        let most = if count == "all" {
            None
        } else {
            Some(count.parse::<u32>().ok()?)
        };
        let mut moved = 0u32;
        for word in words.rest() {
            if !self.moves(word)? {
                return Some(false);
            }
            moved = moved.checked_add(1)?;
        }
        let ended = self.dma.next().is_none();
        match most {
            None => Some(ended),
            Some(most) => Some(moved == most || (moved < most && ended)),
        }
    }

    /// Whether exactly `count` bytes are due, one after another.
    fn runs_for(&mut self, count: u32) -> bool {
        for _ in 0..count {
            if self.dma.next().is_none() {
                return false;
            }
            self.dma.done(0);
        }
        self.dma.next().is_none()
    }

    /// Whether the next byte is moved as a word says. Moves it.
    fn moves(&mut self, word: &str) -> Option<bool> {
        let kind = *word.as_bytes().first()?;
        let moved = self.byte_for(word)?;
        let Some(due) = self.dma.next() else {
            return Some(false);
        };
        self.dma.done(moved);
        let place = part::<u32>(word, 1, 7)?;
        match due {
            Move::Load { from } => {
                Some(kind == b'L' && from == place && part::<u8>(word, 7, 9)? == moved)
            }
            Move::ToB { from, port } => {
                Some(kind == b'B' && from == place && names(word, port, moved)?)
            }
            Move::ToA { port, to } => {
                Some(kind == b'A' && to == place && names(word, port, moved)?)
            }
        }
    }

    /// Returns the byte of a move: the one at the word's end, or the next of the generator.
    fn byte_for(&mut self, word: &str) -> Option<u8> {
        if self.given {
            part(word, word.len().checked_sub(2)?, word.len())
        } else {
            Some(self.generator.byte(1))
        }
    }
}

/// Whether the word of a move names this port and this byte.
fn names(word: &str, port: u8, moved: u8) -> Option<bool> {
    Some(part::<u8>(word, 7, 9)? == port && part::<u8>(word, 9, 11)? == moved)
}
