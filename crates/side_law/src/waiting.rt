// Copying the emitted bytes that a machine buffers into another one.
ghost use Rattle.std.specs.Prelude.{◌≡◌};

use circular_buffer::HeapCircularBuffer;

/// Makes the other buffer hold the same bytes. Both have room for as many. It does not allocate.
pub fn copy_waiting(from: &HeapCircularBuffer<u8>, into: &mut HeapCircularBuffer<u8>)
    requires { from.now.capacity ≡ into.old.capacity }
    ensures { into.new ≡ from.now }
{
    into.clear();
    let _room = from.len();
    let (front, back) = from.as_slices();
    let _first = into.fill_from_slice(front);
    let _then = into.fill_from_slice(back);
}
