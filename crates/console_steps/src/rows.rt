ghost use Rattle.std.specs.Prelude.{◌≡◌, ◌+◌, ◌≤◌, ◌++◌, length, slice_index};
ghost use Rattle.console_bus.specs.Happenings.{list_of, byte_of_dots};

use byteorder::{ByteOrder, LittleEndian};
use circular_buffer::HeapCircularBuffer;

/// Appends a row of 512 hi-res pixels (*dots*), two bytes each, the low byte first.
pub fn emit_row(waiting: &mut HeapCircularBuffer<u8>, dots: &[u16; 512])
    requires room { length waiting.old.items + 1024 ≤ waiting.old.capacity }
    ensures row { waiting.new.items ≡ waiting.old.items ++ list_of 1024 (byte_of_dots (slice_index dots.now)) }
    ensures capacity { waiting.new.capacity ≡ waiting.old.capacity }
{
    let mut bytes = [0u8; 1024];
    LittleEndian::write_u16_into(dots, &mut bytes);
    waiting.fill_from_slice(&bytes);
}
