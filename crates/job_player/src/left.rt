// The state that the run of a job leaves.
use crate::console::{BUFFER, Console};
use crate::nowhere::Nowhere;
use audio_side::AudioSide;
use clock_ratio::end_stamp_in;
use console_machine::ConsoleSide;
use run_drive::{StatePlayer, run_to_end};
use snes_defs::{Job, NoMemory};
use state_file::{StateBytes, put_state};
use std::alloc::Global;

/// Both sides of a job at their starts, the end of its frames, a buffer that the run is drained through, and memory for the
/// bytes of the state.
#[derive(Drop)]
pub struct Leaving {
    console: ConsoleSide,
    sound: AudioSide,
    end: u64,
    frames: u32,
    buffer: Vec<u8>,
    bytes: StateBytes,
}

impl StatePlayer for Console {
    ghost use Rattle.std.specs.Prelude.{vec_len};
    ghost use Rattle.job_player.specs.Left.{Leaves, CanLeave};

    type Machines = Leaving;

    ghost leaves = { Leaves };

    ghost begins = { λ m job. CanLeave m.console m.sound m.end (vec_len m.buffer) m.frames m.bytes job };

    fn ready_state(alloc: Global, job: &Job) -> Result<Leaving, NoMemory> {
        let console = ConsoleSide::new(alloc, job)?;
        let sound = AudioSide::new(alloc, job)?;
        let Ok(buffer) = vec![in alloc; 0u8; BUFFER] else {
            return Err(NoMemory);
        };
        let bytes = StateBytes::new(alloc, job.cart.ram)?;
        Ok(Leaving {
            console,
            sound,
            end: end_stamp_in(job.region, job.frames),
            frames: job.frames,
            buffer,
            bytes,
        })
    }

    fn play_state(machines: Leaving) -> Vec<u8> {
        let Leaving {
            console,
            sound,
            end,
            frames,
            mut buffer,
            mut bytes,
        } = machines;
        match run_to_end(console, sound, end, buffer.as_mut_slice(), &mut Nowhere) {
            Ok(serial) => {
                put_state(&mut bytes, frames, &serial);
                bytes.into_bytes()
            }
            Err(_) => unreachable!(),
        }
    }
}
