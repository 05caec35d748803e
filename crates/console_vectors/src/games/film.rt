use case_text::{hashed, no_hash};
use run_drive::Sink;
use shelf::Failed;
use snes_defs::Side;
use std::alloc::{AllocError, Global};

/// The bytes of a frame of the picture.
const PICTURE: usize = 244_736;

/// The hashes of the video and audio of a run, as a sink. No clause depends on what it took.
#[derive(Drop)]
pub struct Film {
    /// Which frames are hashed.
    wanted: Vec<bool>,
    /// The hashes of the frames; 0 for those that have not come yet.
    pictures: Vec<u64>,
    next: usize,
    size: usize,
    is_wanted: bool,
    hash: u64,
    sound: u64,
    sound_bytes: u64,
}

impl Film {
    /// Returns the hashes of no frames. Only the wanted frames will be hashed.
    pub fn new(alloc: Global, wanted: Vec<bool>) -> Result<Film, AllocError> {
        let pictures = vec![in alloc; 0u64; wanted.len()]?;
        let is_wanted = match wanted.first() {
            Some(first) => *first,
            None => false,
        };
        Ok(Film {
            wanted,
            pictures,
            next: 0,
            size: 0,
            is_wanted,
            hash: no_hash(),
            sound: no_hash(),
            sound_bytes: 0,
        })
    }

    /// Returns the hash of a frame, if it came.
    pub fn picture(&self, frame: usize) -> Option<u64> {
        if frame >= self.next {
            return None;
        }
        self.pictures.get(frame).copied()
    }

    /// Returns the hash of the sound, and the number of its samples.
    pub fn sound(&self) -> (u64, u64) {
        (self.sound, self.sound_bytes / 4)
    }

    /// Returns the first frame that differs between two runs, or that only one of them has.
    pub fn first_difference(&self, other: &Film) -> Option<usize> {
        for frame in 0..self.wanted.len().max(other.wanted.len()) {
            if self.picture(frame) != other.picture(frame) {
                return Some(frame);
            }
        }
        None
    }

    /// Adds a byte of the picture.
    fn show(&mut self, byte: u8) {
        if self.is_wanted {
            self.hash = hashed(self.hash, byte);
        }
        self.size = self.size.saturating_add(1);
        if self.size == PICTURE {
            self.end_picture();
        }
    }

    /// Ends a frame, whose last byte came.
    fn end_picture(&mut self) {
        if let Some(picture) = self.pictures.get_mut(self.next) {
            *picture = self.hash;
            self.next = self.next.saturating_add(1);
        }
        self.is_wanted = match self.wanted.get(self.next) {
            Some(next) => *next,
            None => false,
        };
        self.size = 0;
        self.hash = no_hash();
    }

    /// Adds a byte of the sound.
    fn hear(&mut self, byte: u8) {
        self.sound = hashed(self.sound, byte);
        self.sound_bytes = self.sound_bytes.saturating_add(1);
    }
}

impl Sink for Film {
    ghost holds = { λ film side bytes. Unit {0} };

    ghost only_takes = { λ a b. Unit {0} };

    ghost failed = { λ a b side. Unit {0} };

    fn take(&mut self, side: Side, bytes: &[u8]) -> Result<(), Failed> {
        match side {
            Side::Console => {
                for byte in bytes {
                    self.show(*byte);
                }
            }
            Side::Sound => {
                for byte in bytes {
                    self.hear(*byte);
                }
            }
        }
        Ok(())
    }

    ghost takes_none = { λ a. tt };

    ghost takes_more = { λ a b c first then. tt };

    ghost failed_since = { λ a b c side first then. tt };
}
