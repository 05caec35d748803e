// The sound file that is taken at the end of a job.
ghost use Rattle.std.specs.Prelude.{◌≡◌, ◌≤◌, [], length};
ghost use Rattle.side_law.specs.Serial.{SerialState};
ghost use Rattle.serial_console.specs.Serial.{IsAt};
ghost use Rattle.console_machine.specs.Side as console_side;
ghost use Rattle.console_steps.specs.ConsoleState.{ConsoleState};
ghost use Rattle.audio_side.specs.Sound.{SoundState};
ghost use Rattle.audio_side.specs.Sound as sound_side;
ghost use Rattle.job_player.specs.Sounded.{IsTakenFrom};

use crate::console::BUFFER;
use crate::nowhere::Nowhere;
use crate::onward::{go_to_moment, hush_both};
use audio_side::AudioSide;
use clock_ratio::end_stamp_in;
use console_machine::ConsoleSide;
use run_drive::{StatePlayer, run_to_end};
use serial_console::Serial;
use snes_defs::{Job, NoMemory};
use sound_file::{SOUND_FILE_BYTES, put_sound_file};
use state_file::StateBytes;
use std::alloc::Global;

/// What plays a job for the sound file that is taken at its end.
#[derive(Drop)]
pub struct SoundTaker;

/// Both sides of a job at their starts, the end of its frames, a buffer that the run is drained through, and memory for the
/// bytes of the sound file.
#[derive(Drop)]
pub struct Sounding {
    console: ConsoleSide,
    sound: AudioSide,
    end: u64,
    buffer: Vec<u8>,
    bytes: StateBytes,
}

/// Runs on to a moment at which a sound file can be taken, and puts that file. The buffer gets other bytes.
fn take_sound(serial: &mut Serial<ConsoleSide, AudioSide>, buffer: &mut [u8], to: &mut StateBytes)
    requires size { length buffer.old ≡ 65536 }
    requires none { to.old.bytes ≡ [] }
    requires room { 66048 ≤ to.old.room }
    ensures { (w : SerialState ConsoleState SoundState) → IsAt console_side.StandsAt sound_side.StandsAt serial.old w → IsTakenFrom w to.new.bytes }
{
    hush_both(serial, buffer);
    go_to_moment(serial, buffer);
    let (to_sound, _) = serial.ports();
    let (_, sound) = serial.machines();
    put_sound_file(to, sound.processor().regs(), sound, to_sound, buffer);
}

impl StatePlayer for SoundTaker {
    ghost use Rattle.std.specs.Prelude.{vec_len};
    ghost use Rattle.job_player.specs.Sounded.{Sounds, CanSound};

    type Machines = Sounding;

    ghost leaves = { Sounds };

    ghost begins = { λ m job. CanSound m.console m.sound m.end (vec_len m.buffer) m.bytes job };

    fn ready_state(alloc: Global, job: &Job) -> Result<Sounding, NoMemory> {
        let console = ConsoleSide::new(alloc, job)?;
        let sound = AudioSide::new(alloc, job)?;
        let Ok(buffer) = vec![in alloc; 0u8; BUFFER] else {
            return Err(NoMemory);
        };
        let bytes = StateBytes::with_room(alloc, SOUND_FILE_BYTES)?;
        Ok(Sounding {
            console,
            sound,
            end: end_stamp_in(job.region, job.frames),
            buffer,
            bytes,
        })
    }

    fn play_state(machines: Sounding) -> Vec<u8> {
        let Sounding {
            console,
            sound,
            end,
            mut buffer,
            mut bytes,
        } = machines;
        match run_to_end(console, sound, end, buffer.as_mut_slice(), &mut Nowhere) {
            Ok(mut serial) => {
                take_sound(&mut serial, buffer.as_mut_slice(), &mut bytes);
                bytes.into_bytes()
            }
            Err(_) => unreachable!(),
        }
    }
}
