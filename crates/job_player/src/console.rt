ghost use Rattle.std.specs.Prelude.{◌≡◌, ◌≤◌, IfOk, IfErr, OnOk, vec_len};
ghost use Rattle.snes_defs.specs.declared.cart.Job.{Job};
ghost use Rattle.run_drive.specs.Played.{PlayedWhole, PlayedFirst};
ghost use Rattle.job_player.specs.Start.{Emits, IsAtStart};

use audio_side::AudioSide;
use clock_ratio::end_stamp_in;
use console_machine::ConsoleSide;
use run_drive::{Player, Sink, run_serial};
use snes_defs::{Job, NoMemory, Side};
use std::alloc::Global;

/// The bytes of the buffer that a run is drained through: as many as can be pending in a side.
pub(crate) const BUFFER: usize = 65_536;

/// The console of a job: both sides at their starts, the end of the job's frames, and a buffer.
#[derive(Drop)]
pub struct Console {
    pub(crate) console: ConsoleSide,
    pub(crate) sound: AudioSide,
    pub(crate) end: u64,
    pub(crate) buffer: Vec<u8>,
}

impl Player for Console {
    ghost emits = { Emits };

    ghost plays = { λ player job. IsAtStart player.console player.sound player.end (vec_len player.buffer) job };

    fn ready(alloc: Global, job: &Job) -> Result<Console, NoMemory> {
        let console = ConsoleSide::new(alloc, job)?;
        let sound = AudioSide::new(alloc, job)?;
        let Ok(buffer) = vec![in alloc; 0u8; BUFFER] else {
            return Err(NoMemory);
        };
        Ok(Console {
            console,
            sound,
            end: end_stamp_in(job.region, job.frames),
            buffer,
        })
    }

    fn play_serial<K: Sink>(self, sink: &mut K) -> Result<(), Side> {
        let Console {
            console,
            sound,
            end,
            mut buffer,
        } = self;
        run_serial(console, sound, end, buffer.as_mut_slice(), sink)
    }
}
