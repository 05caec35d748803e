// What a run does with both machines.
ghost use Rattle.std.specs.Prelude.{◌≡◌, ◌≤◌, ◌↔◌, [], IsTrue, length, OnOk, OnErr, IfErr};
ghost use Rattle.snes_defs.specs.declared.ports.Side.{Side};
ghost use Rattle.run_drive.specs.Run.{Adds, AddsSome};

use run_drive::{Sink, pour};
use side_law::Machine;
use snes_defs::Side;

/// Whether both machines have reached a stamp.
#[inline(always)]
pub(crate) fn both_at<C: Machine, S: Machine>(console: &C, sound: &S, stamp: u64) -> bool
    ensures { IsTrue result ↔ ((stamp ≤ C.stamp_of console.now) × (stamp ≤ S.stamp_of sound.now)) }
{
    console.stamp() >= stamp && sound.stamp() >= stamp
}

/// Moves the pending bytes of both machines to the sink, the console's first. Err names the side of which the sink
/// failed to take some.
pub(crate) fn pour_both<C: Machine, S: Machine, K: Sink>(
    console: &mut C,
    sound: &mut S,
    buffer: &mut [u8],
    sink: &mut K,
) -> Result<(), Side>
    requires console_fits { length (C.waiting console.old) ≤ length buffer.old }
    requires sound_fits { length (S.waiting sound.old) ≤ length buffer.old }
    ensures console_state { (m : C.State) → C.stands console.old m → C.stands console.new m }
    ensures sound_state { (m : S.State) → S.stands sound.old m → S.stands sound.new m }
    ensures console_stamp { C.stamp_of console.new ≡ C.stamp_of console.old }
    ensures sound_stamp { S.stamp_of sound.new ≡ S.stamp_of sound.old }
    ensures console_region { C.region_of console.new ≡ C.region_of console.old }
    ensures sound_region { S.region_of sound.new ≡ S.region_of sound.old }
    ensures console_empty { OnOk result (C.waiting console.new ≡ []) }
    ensures sound_empty { OnOk result (S.waiting sound.new ≡ []) }
    ensures video { OnOk result (Adds (K.holds sink.old Side.Console) (K.holds sink.new Side.Console)
        (C.waiting console.old)) }
    ensures audio { OnOk result (Adds (K.holds sink.old Side.Sound) (K.holds sink.new Side.Sound)
        (S.waiting sound.old)) }
    ensures some_video { OnErr result (AddsSome (K.holds sink.old Side.Console) (K.holds sink.new Side.Console)
        (C.waiting console.old)) }
    ensures some_audio { OnErr result (AddsSome (K.holds sink.old Side.Sound) (K.holds sink.new Side.Sound)
        (S.waiting sound.old)) }
    ensures failed { IfErr result (K.failed sink.old sink.new) }
    ensures only { K.only_takes sink.old sink.new }
{
    let Ok(()) = pour(console, Side::Console, buffer, sink) else {
        return Err(Side::Console);
    };
    let Ok(()) = pour(sound, Side::Sound, buffer, sink) else {
        return Err(Side::Sound);
    };
    Ok(())
}
