// The moves of a rewinder between two frames, and along one, by what its console was told.
ghost use Rattle.std.specs.Prelude.{◌≡◌, ◌<◌, ◌≤◌, length, IsTrue, IsFalse};
ghost use Rattle.frame_player.specs.Told.{Told, MayReset, kept_in, back_to, pressed_in};
ghost use Rattle.frame_player.specs.Frames.{StandsAt, WentOn};
ghost use Rattle.frame_player.specs.FrameBytes.{TakesOf, SameRooms};

use crate::frame_bytes::FrameBytes;
use snapshot::Rewind;
use snes_defs::Span;

/// Stores the present state in a slot.
pub(crate) fn keep_in(rewind: &mut Rewind, slot: u8)
    requires stands { (told : Told) × StandsAt told rewind.old
        × (slot < length told.held) }
    ensures kept { (told : Told) → StandsAt told rewind.old → slot < length told.held
        → StandsAt (kept_in told slot) rewind.new }
{
    rewind.keep(slot);
}

/// Returns to the state that a slot holds.
pub(crate) fn go_back(rewind: &mut Rewind, slot: u8)
    requires stands { (told : Told) × StandsAt told rewind.old
        × (slot < length told.held) }
    ensures back { (told : Told) → StandsAt told rewind.old → slot < length told.held
        → StandsAt (back_to told slot) rewind.new }
{
    rewind.back(slot);
}

/// Presses the reset button at the end of the path, if it may be pressed there. Returns whether it was.
pub(crate) fn press(rewind: &mut Rewind) -> bool
    requires stands { (told : Told) × StandsAt told rewind.old }
    ensures pressed { (told : Told) → StandsAt told rewind.old → IsTrue result
        → MayReset told × StandsAt (pressed_in told) rewind.new }
    ensures none { (told : Told) → StandsAt told rewind.old → IsFalse result
        → (MayReset told → ⊥) × StandsAt told rewind.new }
{
    if rewind.may_reset() {
        rewind.reset();
        return true;
    }
    false
}

/// Plays one frame. The rooms take what it emits, as far as that fits.
pub(crate) fn go(rewind: &mut Rewind, span: Span, buffer: &mut [u8], bytes: &mut FrameBytes)
    requires stands { (told : Told) × StandsAt told rewind.old
        × (length told.pads < told.most) }
    requires one { span.count ≡ 1 }
    requires drains { 1024 ≤ length buffer.old }
    ensures went { (told : Told) → StandsAt told rewind.old → length told.pads < told.most
        → WentOn told span.pad1 span.pad2 (TakesOf bytes.new) rewind.new }
    ensures rooms { SameRooms bytes.old bytes.new }
    ensures size { length buffer.new ≡ length buffer.old }
{
    bytes.clear();
    rewind.begin(span);
    match rewind.go_on(buffer, bytes) {
        Ok(()) => {}
        Err(_) => unreachable!(),
    }
}
