ghost use Rattle.std.specs.Prelude.{IfSome};
ghost use Rattle.frame_rows.specs.Played.{IsConsole};

use crate::door::{door, inputs};
use frame_player::{FrameEnd, Frames};
use snes_defs::Region;
use std::alloc::Global;

/// What is done to a console, with what it has to give.
#[derive(Clone, Copy)]
pub enum Step {
    /// Frames with a pad of controller 1: the first dot of the last picture.
    Dot(u32, u16, Result<u16, FrameEnd>),
    /// A frame with a pad, into rooms of so many bytes for picture and samples.
    Into(u16, usize, usize, Result<(), FrameEnd>),
    /// The number of samples of all frames.
    Samples(usize),
    /// The state is stored in a slot, if there is one.
    Keep(u32, bool),
    /// The state of a slot is taken back, if there is one.
    Back(u32, bool),
    /// The reset button is pressed, if it can be.
    Reset(bool),
}

/// A console of the door, and rooms for a frame.
#[derive(Drop)]
pub struct Played {
    pub console: Frames,
    video: Vec<u8>,
    sound: Vec<u8>,
    /// The number of samples of all frames.
    pub samples: usize,
}

impl Played {
    /// Makes a console of the door.
    pub fn begin(alloc: Global, region: Region) -> Option<Played>
        ensures { IfSome result IsConsole }
    {
        let cart = door(alloc).ok()?;
        let video = vec![in alloc; 0u8; 244_736].ok()?;
        let sound = vec![in alloc; 0u8; 2_560].ok()?;
        match Frames::begin(alloc, inputs(cart.as_slice(), region)) {
            Ok(console) => Some(Played {
                console,
                video,
                sound,
                samples: 0,
            }),
            Err(_) => None,
        }
    }

    /// Plays a frame with this pad of controller 1, into rooms of so many bytes, at most 244,736 and 2,560.
    pub fn play_into(&mut self, pad: u16, video: usize, sound: usize) -> Result<(), FrameEnd>
        requires { IsConsole self.old }
        ensures { IsConsole self.new }
    {
        let video = video.min(self.video.len());
        let sound = sound.min(self.sound.len());
        let picture = &mut self.video.as_mut_slice()[..video];
        let samples = &mut self.sound.as_mut_slice()[..sound];
        match self.console.frame(pad, 0, picture, samples) {
            Ok(counts) => {
                self.samples = self.samples.saturating_add(counts.sound / 4);
                Ok(())
            }
            Err(end) => Err(end),
        }
    }

    /// Plays frames with this pad of controller 1, and returns the first dot of the last picture.
    pub fn dot_after(&mut self, frames: u32, pad: u16) -> Result<u16, FrameEnd>
        requires { IsConsole self.old }
        ensures { IsConsole self.new }
    {
        for _ in 0..frames {
            match self.play_into(pad, 244_736, 2_560) {
                Ok(()) => {}
                Err(end) => return Err(end),
            }
        }
        let low = self.video.first().copied().unwrap_or(0);
        let high = self.video.get(1).copied().unwrap_or(0);
        Ok(u16::from(low) + 256 * u16::from(high))
    }

    /// Stores the state in a slot.
    pub fn keep(&mut self, slot: u32) -> bool
        requires { IsConsole self.old }
        ensures { IsConsole self.new }
    {
        self.console.keep(slot)
    }

    /// Returns to the state of a slot.
    pub fn back(&mut self, slot: u32) -> bool
        requires { IsConsole self.old }
        ensures { IsConsole self.new }
    {
        self.console.back(slot)
    }

    /// Presses the reset button.
    pub fn reset(&mut self) -> bool
        requires { IsConsole self.old }
        ensures { IsConsole self.new }
    {
        self.console.reset()
    }

    /// Takes a step, and returns whether it gives what it has to.
    fn gives(&mut self, step: Step) -> bool
        requires { IsConsole self.old }
        ensures { IsConsole self.new }
    {
        match step {
            Step::Dot(frames, pad, wanted) => self.dot_after(frames, pad) == wanted,
            Step::Into(pad, video, sound, wanted) => self.play_into(pad, video, sound) == wanted,
            Step::Samples(wanted) => self.samples == wanted,
            Step::Keep(slot, wanted) => self.keep(slot) == wanted,
            Step::Back(slot, wanted) => self.back(slot) == wanted,
            Step::Reset(wanted) => self.reset() == wanted,
        }
    }

    /// Takes steps up to the first that gives something else, and returns its number.
    pub fn first_wrong(&mut self, steps: &[Step]) -> Option<usize>
        requires { IsConsole self.old }
    {
        for (k, step) in steps.iter().enumerate() {
            if !self.gives(*step) {
                return Some(k);
            }
        }
        None
    }
}
