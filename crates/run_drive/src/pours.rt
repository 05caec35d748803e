ghost use Rattle.std.specs.Prelude.{◌≡◌, ◌≢◌, ◌≤◌, ℕ, List, [], length, OnOk, OnErr};
ghost use Rattle.snes_defs.specs.declared.ports.Side.{Side};
ghost use Rattle.run_drive.specs.Run.{Adds, AddsSome};

use crate::sink::Sink;
use shelf::Failed;
use side_law::Machine;
use snes_defs::Side;

/// Moves all pending bytes of a machine to the sink, in one call. If none is pending nothing is taken. Bytes that lie
/// round the end of the machine's buffer are put together in `buffer` first.
#[inline(always)]
pub fn pour<M: Machine, K: Sink>(
    machine: &mut M,
    side: Side,
    buffer: &mut [u8],
    sink: &mut K,
) -> Result<(), Failed>
    requires { length (M.waiting machine.old) ≤ length buffer.old }
    ensures state { (m : M.State) → M.stands machine.old m → M.stands machine.new m }
    ensures stamp { M.stamp_of machine.new ≡ M.stamp_of machine.old }
    ensures region { M.region_of machine.new ≡ M.region_of machine.old }
    ensures empty { M.waiting machine.new ≡ [] }
    ensures whole { OnOk result (Adds (K.holds sink.old side) (K.holds sink.new side) (M.waiting machine.old)) }
    ensures some { OnErr result (AddsSome (K.holds sink.old side) (K.holds sink.new side) (M.waiting machine.old)) }
    ensures other { (other : Side) (had : List ℕ) → other ≢ side → K.holds sink.old other had
        → K.holds sink.new other had }
    ensures failed { OnErr result (K.failed sink.old sink.new side) }
    ensures only { K.only_takes sink.old sink.new }
{
    if machine.pending() == 0 {
        return Ok(());
    }
    let (front, back) = machine.pieces();
    if back.is_empty() {
        let taken = sink.take(side, front);
        machine.forget();
        return taken;
    }
    let count = machine.drain(buffer);
    sink.take(side, &buffer[..count])
}
