// A script that grows by a span or a reset, or is overwritten by another one, in memory that it has.
ghost use Rattle.std.specs.Prelude.{◌≡◌, ◌+◌, ◌<◌, ◌≤◌, [], ◌∷◌, ◌++◌, length, max, OnOk, OnErr};
ghost use Rattle.snes_defs.specs.Script.{RiseWithin, frames_of};

use super::{Span, Spans};
use crate::NoMemory;

impl Spans {
    /// Makes room for that many more spans than there are, and for as many resets in all as spans. Fails only if
    /// allocation fails; then nothing has changed.
    pub fn reserve(&mut self, spans: usize) -> Result<(), NoMemory>
        ensures ok { OnOk result (self.new ≡ record self.old { room = max self.old.room (length self.old.spans + spans) }) }
        ensures err { OnErr result (self.new ≡ self.old) }
    {
        let Ok(()) = self.spans.reserve(spans) else {
            return Err(NoMemory);
        };
        let room = self.room.max(self.spans.len() + spans);
        let Ok(()) = self.resets.reserve(room.saturating_sub(self.resets.len())) else {
            return Err(NoMemory);
        };
        self.room = room;
        Ok(())
    }

    /// Appends a span to a script that has room for it. It does not allocate.
    #[tactic(auto, using(crate::proofs::Frames::frames_more))]
    pub fn add(&mut self, span: Span)
        requires room { length self.old.spans < self.old.room }
        requires frames { frames_of self.old.spans + span.count ≤ 36000 }
        ensures added { self.new ≡ record self.old { spans = self.old.spans ++ span ∷ [] } }
    {
        match self.spans.push(span) {
            Ok(()) => {}
            Err(_) => unreachable!(),
        }
    }

    /// Appends a frame that begins with a reset to a script that has room for it. The frame is above those that were
    /// there. It does not allocate.
    pub fn add_reset(&mut self, frame: u32)
        requires room { length self.old.resets < self.old.room }
        requires rises { RiseWithin 1 36000 (self.old.resets ++ frame ∷ []) }
        ensures added { self.new ≡ record self.old { resets = self.old.resets ++ frame ∷ [] } }
    {
        match self.resets.push(frame) {
            Ok(()) => {}
            Err(_) => unreachable!(),
        }
    }

    /// Overwrites the other script with this one. The other has room for the spans and for the resets, and keeps its
    /// room. It does not allocate.
    pub fn copy_into(&self, into: &mut Spans)
        requires room { length self.now.spans ≤ into.old.room }
        requires reset_room { length self.now.resets ≤ into.old.room }
        ensures same { into.new ≡ record self.now { room = into.old.room } }
    {
        into.region = self.region;
        into.profile = self.profile;
        into.spans.truncate(0);
        match into.spans.extend_from_slice(self.spans.as_slice()) {
            Ok(()) => {}
            Err(_) => unreachable!(),
        }
        into.resets.truncate(0);
        match into.resets.extend_from_slice(self.resets.as_slice()) {
            Ok(()) => {}
            Err(_) => unreachable!(),
        }
    }
}
