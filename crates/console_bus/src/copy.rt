// Copying a bus into another one, and adding spans and resets to its script.
ghost use Rattle.std.specs.Prelude.{◌≡◌, ◌+◌, ◌<◌, ◌≤◌, ◌++◌, [], ◌∷◌, length, max, take, drop, OnOk, OnErr};
ghost use Rattle.snes_defs.specs.Script.{RiseWithin, frames_of, is_reset};
ghost use Rattle.console_bus.specs.Playing.{played, pressed, with_room};

use crate::bus::{Bus, WORK_RAM};
use snes_defs::{NoMemory, Span};

/// Copies the first `count` bytes from another list.
fn copy_first(from: &[u8], into: &mut [u8], count: usize)
    requires there { count ≤ length from.now }
    requires here { count ≤ length into.old }
    ensures { into.new ≡ take count from.now ++ drop count into.old }
{
    into[..count].copy_from_slice(&from[..count]);
}

impl Bus {
    /// Copies this bus into another one, except ROM. Does not allocate.
    ///
    /// Both need the same cartridge. The other needs room for this script's spans and resets, and keeps its room.
    #[tactic(auto, using(crate::proofs::Copies::same_memory))]
    pub fn copy_into(&self, into: &mut Bus)
        requires board { self.now.board ≡ into.old.board }
        requires rom { drop (131072 + self.now.board.ram) self.now.memory
            ≡ drop (131072 + self.now.board.ram) into.old.memory }
        requires room { length self.now.script.spans ≤ into.old.script.room }
        requires reset_room { length self.now.script.resets ≤ into.old.script.room }
        ensures same { into.new ≡ record self.now { script = with_room self.now.script into.old.script.room } }
    {
        let ram = WORK_RAM + self.map.board().ram as usize;
        copy_first(self.memory.as_slice(), into.memory.as_mut_slice(), ram);
        self.script.copy_into(&mut into.script);
        self.io.copy_into(&mut into.io);
        into.map.set_speed(self.io.fast());
        self.dma.copy_into(&mut into.dma);
        self.ppu.copy_into(&mut into.ppu);
        self.tiles.copy_into(&mut into.tiles);
        self.beam.copy_into(&mut into.beam);
        into.port = self.port;
        into.frame = self.frame;
        into.last = self.last;
        into.refresh = self.refresh;
        into.reset = self.reset;
    }

    /// Reserves room for `spans` more spans of the script, and for as many resets in all as spans. Fails only if
    /// allocation fails; then nothing has changed.
    pub fn reserve(&mut self, spans: usize) -> Result<(), NoMemory>
        ensures ok { OnOk result (self.new ≡ record self.old {
          script = with_room self.old.script
              (max self.old.script.room (length self.old.script.spans + spans));
        }) }
        ensures err { OnErr result (self.new ≡ self.old) }
    {
        self.script.reserve(spans)
    }

    /// Appends a span to the script, and gives both pads the words that the longer script has for the frame.
    /// Does not allocate: the caller has reserved the room.
    pub fn play(&mut self, span: Span)
        requires room { length self.old.script.spans < self.old.script.room }
        requires frames { frames_of self.old.script.spans + span.count ≤ 36000 }
        ensures played { self.new ≡ played self.old span }
    {
        self.script.add(span);
        let (pad1, pad2) = self.script.pads(self.frame as u32);
        self.io.set_words(pad1, pad2);
    }
    /// Whether a frame of the script begins with a reset.
    pub fn begins_with_reset(&self, frame: u32) -> bool
        ensures { result ≡ is_reset self.now.script.resets frame }
    {
        self.script.resets(frame)
    }

    /// Appends a frame to those of the script that begin with a reset, above them all. If the frame has begun, a reset
    /// is due. Does not allocate: the caller has reserved the room.
    pub fn press(&mut self, frame: u32)
        requires room { length self.old.script.resets < self.old.script.room }
        requires rises { RiseWithin 1 36000 (self.old.script.resets ++ frame ∷ []) }
        ensures pressed { self.new ≡ pressed self.old frame }
    {
        self.script.add_reset(frame);
        self.reset = self.frame as u32 == frame || self.reset;
    }
}
