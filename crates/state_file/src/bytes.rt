ghost use Rattle.std.specs.Prelude.{◌≡◌, ◌+◌, ◌*◌, ◌<◌, ◌≤◌, [], ◌∷◌, ◌++◌, length, IfOk, slice_index};
ghost use Rattle.state_file.specs.Bytes.{word, words_below, zeros};

use snes_defs::NoMemory;
use std::alloc::Global;
use std::marker::Model;

/// The bytes of a state file without the cartridge's RAM.
const FIXED: usize = 0x5_0000;

/// Bytes that are put one after another, in memory that is allocated when this is made.
#[derive(Drop)]
pub struct StateBytes {
    bytes: Vec<u8>,
    /// How many bytes there is memory for.
    room: usize,
}

impl Model for StateBytes {
    ghost use Rattle.std.specs.Prelude.{◌≤◌, vec_len, vec_capacity};
    ghost use Rattle.state_file.specs.Put.{Put};

    ghost Value = { Put };

    ghost view = { λ s. record { bytes = s.bytes.items; room = s.room } };

    ghost invariant = { λ s. (s.room ≤ vec_capacity s.bytes) × (vec_len s.bytes ≤ s.room) };
}

impl StateBytes {
    /// No bytes yet, and memory for the state of a console whose cartridge has this much RAM.
    pub fn new(alloc: Global, ram: u32) -> Result<StateBytes, NoMemory>
        ensures none { IfOk result (λ s. s.bytes ≡ []) }
        ensures room { IfOk result (λ s. s.room ≡ 327680 + ram) }
    {
        StateBytes::with_room(alloc, FIXED + ram as usize)
    }

    /// No bytes yet, and memory for that many.
    pub fn with_room(alloc: Global, room: usize) -> Result<StateBytes, NoMemory>
        ensures none { IfOk result (λ s. s.bytes ≡ []) }
        ensures room { IfOk result (λ s. s.room ≡ room) }
    {
        match Vec::with_capacity(alloc, room) {
            Ok(bytes) => Ok(StateBytes { bytes, room }),
            Err(_) => Err(NoMemory),
        }
    }

    /// The bytes.
    pub fn into_bytes(self) -> Vec<u8>
        ensures { result.items ≡ self.bytes }
    {
        self.bytes
    }

    /// Puts some bytes.
    pub fn add(&mut self, bytes: &[u8])
        requires { length self.old.bytes + length bytes.now ≤ self.old.room }
        ensures bytes { self.new.bytes ≡ self.old.bytes ++ bytes.now }
        ensures size { length self.new.bytes ≡ length self.old.bytes + length bytes.now }
        ensures room { self.new.room ≡ self.old.room }
    {
        match self.bytes.extend_from_slice(bytes) {
            Ok(()) => {}
            Err(_) => unreachable!(),
        }
    }

    /// Puts one byte.
    pub(crate) fn add_byte(&mut self, byte: u8)
        requires { length self.old.bytes + 1 ≤ self.old.room }
        ensures bytes { self.new.bytes ≡ self.old.bytes ++ byte ∷ [] }
        ensures size { length self.new.bytes ≡ length self.old.bytes + 1 }
        ensures room { self.new.room ≡ self.old.room }
    {
        match self.bytes.push(byte) {
            Ok(()) => {}
            Err(_) => unreachable!(),
        }
    }

    /// Puts a word, the low byte first.
    pub(crate) fn add_word(&mut self, number: u16)
        requires { length self.old.bytes + 2 ≤ self.old.room }
        ensures bytes { self.new.bytes ≡ self.old.bytes ++ word number }
        ensures size { length self.new.bytes ≡ length self.old.bytes + 2 }
        ensures room { self.new.room ≡ self.old.room }
    {
        self.add(&[(number % 256) as u8, (number / 256) as u8]);
    }

    /// Puts that many zeros.
    #[tactic(auto, using(crate::proofs::Counting::no_zeros, crate::proofs::Counting::one_more_zero))]
    pub fn add_zeros(&mut self, count: usize)
        requires { length self.old.bytes + count ≤ self.old.room }
        ensures bytes { self.new.bytes ≡ self.old.bytes ++ zeros count }
        ensures size { length self.new.bytes ≡ length self.old.bytes + count }
        ensures room { self.new.room ≡ self.old.room }
    {
        'zeros: for n in 0..count {
            self.add_byte(0);
        }
    }

    /// Puts all of some words, each with its low byte first.
    #[tactic(auto, using(crate::proofs::Counting::no_words, crate::proofs::Counting::one_more_word))]
    pub(crate) fn add_words(&mut self, words: &[u16])
        requires { length self.old.bytes + 2 * length words.now ≤ self.old.room }
        ensures bytes { self.new.bytes ≡ self.old.bytes ++ words_below words.now (length words.now) }
        ensures size { length self.new.bytes ≡ length self.old.bytes + 2 * length words.now }
        ensures room { self.new.room ≡ self.old.room }
    {
        'words: for n in 0..words.len() {
            self.add_word(words[n]);
        }
    }
}
