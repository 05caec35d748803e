ghost use Rattle.std.specs.Prelude.{◌≡◌};
ghost use Rattle.shelf.specs.Counts.{count_of, counted, none_counted};

use crate::shelves::Out;

/// A count for each output, which stays at the highest 64-bit number.
#[derive(Clone, Copy)]
pub struct Counts {
    video: u64,
    sound: u64,
    image: u64,
    sums: u64,
    state: u64,
    spc: u64,
    say: u64,
}

impl Counts {
    /// Returns counts of nothing.
    pub fn new() -> Counts
        ensures none { result ≡ none_counted }
    {
        Counts {
            video: 0,
            sound: 0,
            image: 0,
            sums: 0,
            state: 0,
            spc: 0,
            say: 0,
        }
    }

    /// Returns the count of an output.
    pub fn of(&self, out: Out) -> u64
        ensures count { result ≡ count_of self.now out }
    {
        match out {
            Out::Video => self.video,
            Out::Sound => self.sound,
            Out::Image => self.image,
            Out::Sums => self.sums,
            Out::State => self.state,
            Out::Spc => self.spc,
            Out::Say => self.say,
        }
    }

    /// Raises the count of an output by one, if it is not the highest number.
    pub fn raise(&mut self, out: Out)
        ensures raised { self.new ≡ counted self.old out }
    {
        match out {
            Out::Video => self.video = self.video.saturating_add(1),
            Out::Sound => self.sound = self.sound.saturating_add(1),
            Out::Image => self.image = self.image.saturating_add(1),
            Out::Sums => self.sums = self.sums.saturating_add(1),
            Out::State => self.state = self.state.saturating_add(1),
            Out::Spc => self.spc = self.spc.saturating_add(1),
            Out::Say => self.say = self.say.saturating_add(1),
        }
    }
}
