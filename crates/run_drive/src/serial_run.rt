ghost use Rattle.std.specs.Prelude.{◌≡◌, ◌^◌, ◌≤◌, [], length, OnOk, IfOk, IfErr};
ghost use Rattle.run_drive.specs.Run.{TookRun, TookFirst};
ghost use Rattle.run_drive.specs.Ended.{HasEnded};

use crate::driving::drive;
use crate::sink::Sink;
use serial_console::Serial;
use side_law::Machine;
use snes_defs::Side;

/// Runs two machines of one region until both stamps are at least `end`, passes the sink what they emit, and returns the
/// two as they are where that run ends.
///
/// The sink gets what the serial console of the two emits, the bytes of one step at a time. Err names the side of which
/// the sink failed to take some.
pub fn run_to_end<C: Machine + Drop, S: Machine + Drop, K: Sink>(
    console: C,
    sound: S,
    end: u64,
    buffer: &mut [u8],
    sink: &mut K,
) -> Result<Serial<C, S>, Side>
    requires region { C.region_of console ≡ S.region_of sound }
    requires early { end ≤ 2 ^ 62 }
    requires console_room { C.MOST ≤ C.CAP }
    requires sound_room { S.MOST ≤ S.CAP }
    requires console_fits { C.MOST ≤ length buffer.old }
    requires sound_fits { S.MOST ≤ length buffer.old }
    requires console_empty { C.waiting console ≡ [] }
    requires sound_empty { S.waiting sound ≡ [] }
    requires no_video { K.holds sink.old Side.Console [] }
    requires no_sound { K.holds sink.old Side.Sound [] }
    ensures whole { OnOk result ((c : C.State) (s : S.State) → C.stands console c → S.stands sound s
        → TookRun C.moves S.moves c s end (K.holds sink.new)) }
    ensures first { (c : C.State) (s : S.State) → C.stands console c → S.stands sound s
        → TookFirst C.moves S.moves c s end (K.holds sink.new) }
    ensures ended { IfOk result (λ serial. (c : C.State) (s : S.State) → C.stands console c → S.stands sound s
        → HasEnded C.moves S.moves C.stands S.stands c s end serial) }
    ensures failed { IfErr result (K.failed sink.old sink.new) }
    ensures only { K.only_takes sink.old sink.new }
{
    let mut serial = Serial::new(console, sound);
    match drive(&mut serial, end, buffer, sink) {
        Ok(()) => Ok(serial),
        Err(side) => Err(side),
    }
}

/// Runs two machines of one region until both stamps are at least `end`, as `run_to_end`, and drops them then.
pub fn run_serial<C: Machine + Drop, S: Machine + Drop, K: Sink>(
    console: C,
    sound: S,
    end: u64,
    buffer: &mut [u8],
    sink: &mut K,
) -> Result<(), Side>
    requires region { C.region_of console ≡ S.region_of sound }
    requires early { end ≤ 2 ^ 62 }
    requires console_room { C.MOST ≤ C.CAP }
    requires sound_room { S.MOST ≤ S.CAP }
    requires console_fits { C.MOST ≤ length buffer.old }
    requires sound_fits { S.MOST ≤ length buffer.old }
    requires console_empty { C.waiting console ≡ [] }
    requires sound_empty { S.waiting sound ≡ [] }
    requires no_video { K.holds sink.old Side.Console [] }
    requires no_sound { K.holds sink.old Side.Sound [] }
    ensures whole { OnOk result ((c : C.State) (s : S.State) → C.stands console c → S.stands sound s
        → TookRun C.moves S.moves c s end (K.holds sink.new)) }
    ensures first { (c : C.State) (s : S.State) → C.stands console c → S.stands sound s
        → TookFirst C.moves S.moves c s end (K.holds sink.new) }
    ensures failed { IfErr result (K.failed sink.old sink.new) }
    ensures only { K.only_takes sink.old sink.new }
{
    match run_to_end(console, sound, end, buffer, sink) {
        Ok(_) => Ok(()),
        Err(side) => Err(side),
    }
}
