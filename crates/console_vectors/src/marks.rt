use case_text::{hashed, no_hash};
use run_drive::Sink;
use shelf::Failed;
use snes_defs::Side;

/// The bytes that one side emits in a frame: their number and their hash.
#[derive(Clone, Copy)]
pub struct Frame {
    /// The number of bytes.
    pub size: u64,
    /// The 64-bit FNV-1a hash of the bytes.
    pub hash: u64,
}

/// The frames that are expected of one side, and how many of those emitted agree.
#[derive(Drop)]
pub struct Track {
    /// The expected frames.
    pub frames: Vec<Frame>,
    /// How many frames that came agree.
    pub agree: usize,
    next: usize,
    size: u64,
    hash: u64,
}

impl Track {
    /// Returns a track that expects these frames, of which none came yet.
    pub fn of(frames: Vec<Frame>) -> Track {
        Track {
            frames,
            agree: 0,
            next: 0,
            size: 0,
            hash: no_hash(),
        }
    }

    /// Whether every expected frame came and agrees, and no byte came after the last.
    pub fn agrees(&self) -> bool {
        self.agree == self.frames.len() && self.size == 0
    }

    /// Adds an emitted byte.
    fn add(&mut self, byte: u8) {
        self.hash = hashed(self.hash, byte);
        self.size = self.size.saturating_add(1);
        if let Some(frame) = self.frames.get(self.next) {
            if frame.size == self.size {
                if frame.hash == self.hash {
                    self.agree = self.agree.saturating_add(1);
                }
                self.next = self.next.saturating_add(1);
                self.size = 0;
                self.hash = no_hash();
            }
        }
    }

    fn add_all(&mut self, bytes: &[u8]) {
        for byte in bytes {
            self.add(*byte);
        }
    }
}

/// The frames of both sides, as a sink. No clause depends on what it took, so it may have taken anything.
#[derive(Drop)]
pub struct Marks {
    /// The frames of the picture.
    pub video: Track,
    /// The frames of the sound.
    pub sound: Track,
}

impl Marks {
    /// Whether the frames of both sides agree.
    pub fn agree(&self) -> bool {
        self.video.agrees() && self.sound.agrees()
    }
}

impl Sink for Marks {
    ghost holds = { λ marks side bytes. Unit {0} };

    ghost only_takes = { λ a b. Unit {0} };

    ghost failed = { λ a b side. Unit {0} };

    fn take(&mut self, side: Side, bytes: &[u8]) -> Result<(), Failed> {
        match side {
            Side::Console => self.video.add_all(bytes),
            Side::Sound => self.sound.add_all(bytes),
        }
        Ok(())
    }

    ghost takes_none = { λ a. tt };

    ghost takes_more = { λ a b c first then. tt };

    ghost failed_since = { λ a b c side first then. tt };
}
