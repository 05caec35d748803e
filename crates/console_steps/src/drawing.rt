// The drawing of a row.
ghost use Rattle.std.specs.Prelude.{◌≡◌, ◌+◌, ◌≤◌, ◌++◌, length};
ghost use Rattle.beam.specs.declared.events.Event.TheVariants as events;
ghost use Rattle.console_bus.specs.Happenings.{happened, row_bytes};

use crate::rows::emit_row;
use circular_buffer::HeapCircularBuffer;
use console_bus::Bus;

/// Draws the row above the beam's line, and appends it to the buffered bytes.
#[inline(never)]
pub fn draw_row(bus: &mut Bus, waiting: &mut HeapCircularBuffer<u8>)
    requires first { 1 ≤ bus.old.beam.v }
    requires last { bus.old.beam.v ≤ 239 }
    requires room { length waiting.old.items + 1024 ≤ waiting.old.capacity }
    ensures rest { bus.new ≡ happened bus.old events.Draw }
    ensures row { waiting.new.items ≡ waiting.old.items ++ row_bytes bus.old }
    ensures capacity { waiting.new.capacity ≡ waiting.old.capacity }
{
    let mut dots = [0u16; 512];
    bus.draw_dots(&mut dots);
    emit_row(waiting, &dots);
}
