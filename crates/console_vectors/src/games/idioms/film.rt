use run_drive::Sink;
use sha2::{Digest, Sha256};
use shelf::Failed;
use snes_defs::Side;

/// The bytes of a frame of the picture.
const PICTURE: usize = 244_736;

/// The zeros that end a sound.
const PAUSE: u32 = 64;

/// How many sounds are kept.
const MOST_SOUNDS: usize = 8;

/// The sum of one frame and the lengths of the sounds of a run, as a sink. No clause depends on what it took.
#[derive(Drop)]
pub struct Film {
    /// The frames that have to come before the wanted one.
    before: u32,
    /// The bytes of the current frame so far.
    size: usize,
    hash: Sha256,
    sum: Option<[u8; 32]>,
    /// The bytes of the current sample so far, and whether one of them is not zero.
    part: u8,
    is_loud: bool,
    /// The zeros since the last sample that is not zero.
    pause: u32,
    lengths: [u32; MOST_SOUNDS],
    sounds: usize,
}

impl Film {
    /// Returns a film that has seen and heard nothing, for the sum of this frame.
    pub fn new(frame: u32) -> Film {
        Film {
            before: frame,
            size: 0,
            hash: Sha256::new(),
            sum: None,
            part: 0,
            is_loud: false,
            pause: PAUSE,
            lengths: [0; MOST_SOUNDS],
            sounds: 0,
        }
    }

    /// Returns the sum of the wanted frame, if it came.
    pub fn sum(&self) -> Option<[u8; 32]> {
        self.sum
    }

    /// Returns the length of a sound in samples; `None` if there are no more.
    pub fn length(&self, sound: usize) -> Option<u32> {
        if sound >= self.sounds {
            return None;
        }
        self.lengths.get(sound).copied()
    }

    /// Takes bytes of the current frame.
    fn show(&mut self, bytes: &[u8]) {
        if self.before == 0 && self.sum.is_none() {
            self.hash.update(bytes);
        }
        self.size = self.size.saturating_add(bytes.len());
        if self.size >= PICTURE {
            self.end_picture();
        }
    }

    /// Ends a frame, whose last byte came.
    fn end_picture(&mut self) {
        self.size = 0;
        if self.before > 0 {
            self.before = self.before.saturating_sub(1);
        } else if self.sum.is_none() {
            self.sum = Some(self.hash.finalize_reset());
        }
    }

    /// Takes a byte of the sound.
    fn hear(&mut self, byte: u8) {
        self.is_loud = self.is_loud || byte != 0;
        self.part = self.part.saturating_add(1);
        if self.part == 4 {
            self.end_sample();
        }
    }

    /// Ends a sample, whose last byte came.
    fn end_sample(&mut self) {
        if !self.is_loud {
            self.pause = self.pause.saturating_add(1);
        } else {
            if self.pause >= PAUSE {
                self.pause = 0;
                self.sounds = self.sounds.saturating_add(1);
            }
            let more = self.pause.saturating_add(1);
            if let Some(length) = self.lengths.get_mut(self.sounds.saturating_sub(1)) {
                *length = length.saturating_add(more);
            }
            self.pause = 0;
        }
        self.part = 0;
        self.is_loud = false;
    }

    /// Takes bytes of the video, cut at the ends of frames.
    fn show_all(&mut self, bytes: &[u8]) {
        let mut from = 0usize;
        for at in 0..bytes.len() {
            let taken = at.saturating_sub(from).saturating_add(1);
            if self.size.saturating_add(taken) == PICTURE {
                if let Some(part) = bytes.get(from..at.saturating_add(1)) {
                    self.show(part);
                }
                from = at.saturating_add(1);
            }
        }
        if let Some(part) = bytes.get(from..) {
            self.show(part);
        }
    }
}

impl Sink for Film {
    ghost holds = { λ film side bytes. Unit {0} };

    ghost only_takes = { λ a b. Unit {0} };

    ghost failed = { λ a b side. Unit {0} };

    fn take(&mut self, side: Side, bytes: &[u8]) -> Result<(), Failed> {
        match side {
            Side::Console => self.show_all(bytes),
            Side::Sound => {
                for byte in bytes {
                    self.hear(*byte);
                }
            }
        }
        Ok(())
    }

    ghost takes_none = { λ a. tt };

    ghost takes_more = { λ a b c first then. tt };

    ghost failed_since = { λ a b c side first then. tt };
}
