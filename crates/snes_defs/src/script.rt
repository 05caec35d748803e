// The controller script.
ghost use Rattle.std.specs.Prelude.{◌≡◌, ◌≤◌, List, [], if◌then◌else◌, IfOk};
ghost use Rattle.snes_defs.specs.declared.region.Region.TheVariants.{Ntsc};
ghost use Rattle.snes_defs.specs.declared.profile.Profile.TheVariants.{First};
ghost use Rattle.snes_defs.specs.declared.script.Span.{Span};
ghost use Rattle.snes_defs.specs.Script.{Script, IsScript, RiseWithin, frames_of, pads_at, is_reset};

use crate::NoMemory;
use crate::profile::Profile;
use crate::region::Region;
use std::alloc::Global;
use std::marker::Model;

mod growing;

/// A run of frames with the same pads.
///
/// A pad word has from bit 15 down B, Y, Select, Start, Up, Down, Left, Right, A, X, L, R; its low
/// four bits are 0.
#[derive(Clone, Copy)]
pub struct Span {
    /// How many frames the span lasts.
    pub count: u32,
    /// The pad word of controller 1.
    pub pad1: u16,
    /// The pad word of controller 2.
    pub pad2: u16,
}

/// The controller script: the machine's region and profile, spans one after another, at most 36,000 frames in
/// all, and the frames that begin with a press of the reset button.
#[derive(Drop)]
pub struct Spans {
    region: Region,
    profile: Profile,
    spans: Vec<Span>,
    resets: Vec<u32>,
    /// Up to how many spans, and up to how many resets, it may grow in the memory that it has. A script that was made
    /// whole has 0 here.
    room: usize,
}

impl Model for Spans {
    ghost use Rattle.std.specs.Prelude.{◌≤◌, vec_capacity};
    ghost use Rattle.snes_defs.specs.Script.{Script, IsScript};

    ghost Value = { Script };

    ghost view = { λ s. record { region = s.region; profile = s.profile; spans = s.spans.items; resets = s.resets.items; room = s.room } };

    ghost invariant = { λ s. IsScript (record { region = s.region; profile = s.profile; spans = s.spans.items; resets = s.resets.items; room = s.room }) × (s.room ≤ vec_capacity s.spans) × (s.room ≤ vec_capacity s.resets) };
}

impl Spans {
    /// Makes an Ntsc script of the spans, of the first profile and without resets. It does not allocate.
    pub fn of(alloc: Global, v: Vec<Span>) -> Spans
        requires { frames_of v.items ≤ 36000 }
        ensures kept { result ≡ record { region = Ntsc; profile = First; spans = v.items; resets = []; room = 0 } }
    {
        Spans::versioned(v, Region::Ntsc, Profile::First, Vec::new(alloc))
    }

    /// Makes a script of spans, region, profile and resets. The resets rise, from 1 to 36,000. It does not allocate.
    pub fn versioned(v: Vec<Span>, region: Region, profile: Profile, resets: Vec<u32>) -> Spans
        requires frames { frames_of v.items ≤ 36000 }
        requires resets { RiseWithin 1 36000 resets.items }
        ensures kept { result ≡ record { region = region; profile = profile; spans = v.items; resets = resets.items; room = 0 } }
    {
        Spans {
            region,
            profile,
            spans: v,
            resets,
            room: 0,
        }
    }

    /// Returns a separate script with the same content, which may grow as far. Fails only if allocation fails.
    pub fn copied(&self, alloc: Global) -> Result<Spans, NoMemory>
        ensures { IfOk result (λ copy. copy ≡ self.now) }
    {
        let Ok(mut spans) = Vec::from_slice(alloc, self.spans.as_slice()) else {
            return Err(NoMemory);
        };
        let Ok(()) = spans.reserve(self.room.saturating_sub(self.spans.len())) else {
            return Err(NoMemory);
        };
        let Ok(mut resets) = Vec::from_slice(alloc, self.resets.as_slice()) else {
            return Err(NoMemory);
        };
        let Ok(()) = resets.reserve(self.room.saturating_sub(self.resets.len())) else {
            return Err(NoMemory);
        };
        Ok(Spans {
            region: self.region,
            profile: self.profile,
            spans,
            resets,
            room: self.room,
        })
    }

    /// Up to how many spans, and up to how many resets, the script may grow without allocating.
    pub fn room(&self) -> usize
        ensures { result ≡ self.now.room }
    {
        self.room
    }

    /// Returns the region of the machine that the script is played on.
    pub fn region(&self) -> Region
        ensures { result ≡ self.now.region }
    {
        self.region
    }

    /// Returns the profile of the machine that the script is played on.
    pub fn profile(&self) -> Profile
        ensures { result ≡ self.now.profile }
    {
        self.profile
    }

    /// Returns both pad words of a frame, counted from 0; they are zero after the last span.
    pub fn pads(&self, frame: u32) -> (u16, u16)
        ensures { result ≡ pads_at self.now.spans frame }
    {
        let mut left = frame;
        for span in self.spans.as_slice() {
            if left < span.count {
                return (span.pad1, span.pad2);
            }
            left -= span.count;
        }
        (0, 0)
    }

    /// Whether the frame begins with a press of the reset button.
    pub fn resets(&self, frame: u32) -> bool
        ensures { result ≡ is_reset self.now.resets frame }
    {
        for reset in self.resets.as_slice() {
            if *reset == frame {
                return true;
            }
        }
        false
    }
}
