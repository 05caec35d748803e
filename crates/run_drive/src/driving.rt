// The serial run of two machines from where they are to an end: the one loop of every serial run.
ghost use Rattle.std.specs.Prelude.{◌≡◌, ◌^◌, ◌≤◌, ℕ, List, [], length, OnOk, OnErr, IfErr};
ghost use Rattle.snes_defs.specs.declared.ports.Side.{Side};
ghost use Rattle.side_law.specs.Serial.{serial_of};
ghost use Rattle.serial_console.specs.Serial.{console_of, sound_of};
ghost use Rattle.serial_console.specs.Lead.{IsLed};
ghost use Rattle.run_drive.specs.Driven.{Since, TookOn, Ends};
ghost use Rattle.run_drive.specs.Run.{TookFirst};

use crate::pours::pour;
use crate::sink::Sink;
use serial_console::Serial;
use side_law::Machine;
use snes_defs::Side;

/// Runs two machines until both stamps are at least `end`, and passes the sink what they emit.
///
/// The sink gets the bytes of one step at a time, in the order in which the serial console emits them. Each side runs on
/// while its steps are quiet; what it emitted ahead of the other stays pending. Err names the side of which the sink
/// failed to take some.
pub fn drive<C: Machine, S: Machine, K: Sink>(
    serial: &mut Serial<C, S>,
    end: u64,
    buffer: &mut [u8],
    sink: &mut K,
) -> Result<(), Side>
    requires early { end ≤ 2 ^ 62 }
    requires console_room { C.MOST ≤ C.CAP }
    requires sound_room { S.MOST ≤ S.CAP }
    requires console_fits { C.MOST ≤ length buffer.old }
    requires sound_fits { S.MOST ≤ length buffer.old }
    requires console_empty { C.waiting (console_of serial.old) ≡ [] }
    requires sound_empty { S.waiting (sound_of serial.old) ≡ [] }
    ensures whole { OnOk result ((c : C.State) (s : S.State) (base first : Side → List ℕ)
        → IsLed C.moves S.moves C.stands S.stands end (serial_of c s) serial.old (first Side.Console) (first Side.Sound)
        → K.holds sink.old Side.Console (base Side.Console) → K.holds sink.old Side.Sound (base Side.Sound)
        → TookOn C.moves S.moves C.stands S.stands c s end serial.new (Since (K.holds sink.new) base first)) }
    ensures part { OnErr result ((c : C.State) (s : S.State) (base first : Side → List ℕ)
        → IsLed C.moves S.moves C.stands S.stands end (serial_of c s) serial.old (first Side.Console) (first Side.Sound)
        → K.holds sink.old Side.Console (base Side.Console) → K.holds sink.old Side.Sound (base Side.Sound)
        → Ends C.moves S.moves c s end
        → TookFirst C.moves S.moves c s end (Since (K.holds sink.new) base first)) }
    ensures console_past { OnOk result (end ≤ C.stamp_of (console_of serial.new)) }
    ensures sound_past { OnOk result (end ≤ S.stamp_of (sound_of serial.new)) }
    ensures no_video { OnOk result (C.waiting (console_of serial.new) ≡ []) }
    ensures no_audio { OnOk result (S.waiting (sound_of serial.new) ≡ []) }
    ensures failed { IfErr result (K.failed sink.old sink.new) }
    ensures only { K.only_takes sink.old sink.new }
{
    let mut video_at = 0;
    let mut audio_at = 0;
    while !serial.is_over(end) {
        let (row_at, sample_at) = serial.console_leads(end, video_at, audio_at);
        video_at = row_at;
        audio_at = serial.sound_leads(end, sample_at);
        // Of two pending bytes, the one that a serial console emits first; the console wins ties.
        if video_at <= audio_at {
            let Ok(()) = pour(serial.console(), Side::Console, buffer, sink) else {
                return Err(Side::Console);
            };
        } else {
            let Ok(()) = pour(serial.sound(), Side::Sound, buffer, sink) else {
                return Err(Side::Sound);
            };
        }
    }
    Ok(())
}
