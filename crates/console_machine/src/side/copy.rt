// Copying a console side over another one, and playing a script that grows.
ghost use Rattle.std.specs.Prelude.{◌≡◌, ◌+◌, ◌<◌, ◌≤◌, ◌++◌, [], ◌∷◌, length, max, drop, OnOk, OnErr};
ghost use Rattle.snes_defs.specs.Script.{RiseWithin, frames_of};
ghost use Rattle.console_steps.specs.ConsoleState.{ConsoleState};
ghost use Rattle.console_machine.specs.Side.{StandsAt};
ghost use Rattle.console_machine.specs.Playing.{value_played, value_pressed, value_with_room, console_played};
ghost use Rattle.console_machine.specs.Playing.{console_pressed, console_with_room};

use super::ConsoleSide;
use side_law::copy_waiting;
use snes_defs::{NoMemory, Span};

impl ConsoleSide {
    /// Overwrites the other console side with this one: an instruction or transfer in progress, the decoded tiles and
    /// the buffered bytes included. Both need one cartridge, of which the ROM is not copied. The other needs room for
    /// the spans and resets of the script, and its room stays. It does not allocate.
    #[tactic(auto, using(crate::proofs::Copies::copied))]
    pub fn copy_into(&self, into: &mut ConsoleSide)
        requires board { self.now.rest.board ≡ into.old.rest.board }
        requires rom { drop (131072 + self.now.rest.board.ram) self.now.rest.memory
            ≡ drop (131072 + self.now.rest.board.ram) into.old.rest.memory }
        requires room { length self.now.rest.script.spans ≤ into.old.rest.script.room }
        requires reset_room { length self.now.rest.script.resets ≤ into.old.rest.script.room }
        ensures same { into.new ≡ value_with_room self.now into.old.rest.script.room }
        ensures stands { (w : ConsoleState) → StandsAt self.now w
            → StandsAt into.new (console_with_room w into.old.rest.script.room) }
    {
        into.parts.cpu = self.parts.cpu;
        self.parts.bus.copy_into(&mut into.parts.bus);
        into.parts.region = self.parts.region;
        into.parts.stamp = self.parts.stamp;
        copy_waiting(&self.parts.waiting, &mut into.parts.waiting);
    }

    /// Makes room for that many more spans of the script, and for as many resets in all as spans. Fails only if
    /// allocation fails; then nothing has changed.
    #[tactic(auto, using(crate::proofs::Copies::copied))]
    pub fn reserve(&mut self, spans: usize) -> Result<(), NoMemory>
        ensures ok { OnOk result (self.new
            ≡ value_with_room self.old (max self.old.rest.script.room (length self.old.rest.script.spans + spans))) }
        ensures stands { OnOk result ((w : ConsoleState) → StandsAt self.old w
            → StandsAt self.new (console_with_room w
            (max self.old.rest.script.room (length self.old.rest.script.spans + spans)))) }
        ensures err { OnErr result (self.new ≡ self.old) }
    {
        self.parts.bus.reserve(spans)
    }

    /// Appends a span to the script, which must have room for it, and gives both pads the frame's words of the longer
    /// script. At the beginning of a frame that is the console that has played the longer script all along. It does not
    /// allocate.
    #[tactic(auto, using(crate::proofs::Copies::goes_on))]
    pub fn play(&mut self, span: Span)
        requires room { length self.old.rest.script.spans < self.old.rest.script.room }
        requires frames { frames_of self.old.rest.script.spans + span.count ≤ 36000 }
        ensures played { self.new ≡ value_played self.old span }
        ensures stands { (w : ConsoleState) → StandsAt self.old w → StandsAt self.new (console_played w span) }
    {
        self.parts.bus.play(span);
    }
    /// Presses the reset button as a frame begins: the script, which must have room, gets the frame, above those in
    /// which the button was pressed before. If the frame has begun, the next step is the reset. With no step since
    /// then that is the console that has played the longer script all along. It does not allocate.
    #[tactic(auto, using(crate::proofs::Copies::is_pressed))]
    pub fn press(&mut self, frame: u32)
        requires room { length self.old.rest.script.resets < self.old.rest.script.room }
        requires rises { RiseWithin 1 36000 (self.old.rest.script.resets ++ frame ∷ []) }
        ensures pressed { self.new ≡ value_pressed self.old frame }
        ensures stands { (w : ConsoleState) → StandsAt self.old w → StandsAt self.new (console_pressed w frame) }
    {
        self.parts.bus.press(frame);
    }
}
