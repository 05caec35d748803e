ghost use Rattle.std.specs.Prelude.{◌≡◌};
ghost use Rattle.input_files.specs.Script.{version_of};

use crate::fields::span_of;
use crate::script::ScriptEnd;
use snes_defs::{MOST_FRAMES, Profile, Region, Span, Spans};
use std::alloc::Global;
use std::marker::Model;

/// What a first line of version 2 or 3 says.
#[derive(Clone, Copy)]
pub(crate) struct Version {
    pub(crate) region: Region,
    /// The first profile in version 2, the second in version 3.
    pub(crate) profile: Profile,
}

/// What was read of a script up to a line.
#[derive(Drop)]
pub(crate) struct Reading {
    /// The first line gave a version.
    versioned: bool,
    region: Region,
    profile: Profile,
    spans: Vec<Span>,
    /// The sum of the counts.
    frames: u32,
    resets: Vec<u32>,
    /// The sum at the last reset, 0 before any.
    last: u32,
}

impl Model for Reading {
    ghost use Rattle.input_files.specs.Script.{Read};

    ghost Value = { Read };

    ghost use Rattle.std.specs.Prelude.{◌≡◌, ◌≤◌};
    ghost use Rattle.snes_defs.specs.Script.{frames_of, RiseWithin};

    ghost view = { λ r. record {
      versioned = r.versioned;
      region = r.region;
      profile = r.profile;
      spans = r.spans.items;
      frames = r.frames;
      resets = r.resets.items;
      last = r.last;
    } };

    ghost invariant = { λ r. (r.frames ≡ frames_of r.spans.items) × (r.frames ≤ 36000) × (r.last ≤ r.frames) × RiseWithin 1 r.last r.resets.items };
}

/// The region and the profile that a first line gives.
fn version_of(line: &[u8]) -> Option<Version>
    ensures { result ≡ version_of line.now }
{
    if line == b"version 2 ntsc".as_slice() {
        return Some(Version {
            region: Region::Ntsc,
            profile: Profile::First,
        });
    }
    if line == b"version 2 pal".as_slice() {
        return Some(Version {
            region: Region::Pal,
            profile: Profile::First,
        });
    }
    if line == b"version 3 ntsc".as_slice() {
        return Some(Version {
            region: Region::Ntsc,
            profile: Profile::Second,
        });
    }
    if line == b"version 3 pal".as_slice() {
        return Some(Version {
            region: Region::Pal,
            profile: Profile::Second,
        });
    }
    None
}

impl Reading {
    ghost use Rattle.std.specs.Prelude.{◌≡◌, ℕ, Some, None, Err, OnOk};
    ghost use Rattle.input_files.specs.Script.{nothing_read, after_line, after_plain, after_span, after_reset, script_in};

    /// A script of which nothing was read yet.
    pub(crate) fn new(alloc: Global) -> Reading
        ensures { result ≡ nothing_read }
    {
        Reading {
            versioned: false,
            region: Region::Ntsc,
            profile: Profile::First,
            spans: Vec::new(alloc),
            frames: 0,
            resets: Vec::new(alloc),
            last: 0,
        }
    }

    /// The script that was read.
    #[tactic(auto, using(crate::proofs::Resets::within_more))]
    pub(crate) fn script(self) -> Spans
        ensures { result ≡ script_in self }
    {
        Spans::versioned(self.spans, self.region, self.profile, self.resets)
    }

    /// Reads a line with its number.
    #[tactic(auto, unfolding(crate::specs::Script::after_line))]
    pub(crate) fn take(&mut self, number: u32, line: &[u8]) -> Result<(), ScriptEnd>
        ensures ok { OnOk result (after_line number self.old line.now ≡ Some self.new) }
        ensures place { (k : ℕ) → result ≡ Err (ScriptEnd.Line k) → k ≡ number }
        ensures bad { (k : ℕ) → result ≡ Err (ScriptEnd.Line k) → after_line number self.old line.now ≡ None }
    {
        if number == 1 {
            if let Some(version) = version_of(line) {
                self.versioned = true;
                self.region = version.region;
                self.profile = version.profile;
                return Ok(());
            }
        }
        self.take_plain(number, line)
    }

    /// Reads a line that names no version.
    #[tactic(auto, unfolding(crate::specs::Script::after_plain))]
    fn take_plain(&mut self, number: u32, line: &[u8]) -> Result<(), ScriptEnd>
        ensures ok { OnOk result (after_plain self.old line.now ≡ Some self.new) }
        ensures place { (k : ℕ) → result ≡ Err (ScriptEnd.Line k) → k ≡ number }
        ensures bad { (k : ℕ) → result ≡ Err (ScriptEnd.Line k) → after_plain self.old line.now ≡ None }
    {
        if line.is_empty() {
            return Ok(());
        }
        if self.versioned && line == b"reset".as_slice() {
            return self.reset(number);
        }
        match span_of(line) {
            Some(span) => self.go_on(number, span),
            None => Err(ScriptEnd::Line(number)),
        }
    }

    /// Takes a span, if the sum of the counts allows it.
    #[tactic(auto, using(crate::proofs::Resets::frames_more))]
    fn go_on(&mut self, number: u32, span: Span) -> Result<(), ScriptEnd>
        ensures ok { OnOk result (after_span self.old (Some span) ≡ Some self.new) }
        ensures place { (k : ℕ) → result ≡ Err (ScriptEnd.Line k) → k ≡ number }
        ensures bad { (k : ℕ) → result ≡ Err (ScriptEnd.Line k) → after_span self.old (Some span) ≡ None }
    {
        if span.count > MOST_FRAMES - self.frames {
            return Err(ScriptEnd::Line(number));
        }
        if self.spans.push(span).is_err() {
            return Err(ScriptEnd::NoMemory);
        }
        self.frames += span.count;
        Ok(())
    }

    /// Takes a reset at the present sum, if there was none yet.
    #[tactic(auto, using(crate::proofs::Resets::rise_more))]
    fn reset(&mut self, number: u32) -> Result<(), ScriptEnd>
        ensures ok { OnOk result (after_reset self.old ≡ Some self.new) }
        ensures place { (k : ℕ) → result ≡ Err (ScriptEnd.Line k) → k ≡ number }
        ensures bad { (k : ℕ) → result ≡ Err (ScriptEnd.Line k) → after_reset self.old ≡ None }
    {
        if self.frames == self.last {
            return Err(ScriptEnd::Line(number));
        }
        if self.resets.push(self.frames).is_err() {
            return Err(ScriptEnd::NoMemory);
        }
        self.last = self.frames;
        Ok(())
    }
}
