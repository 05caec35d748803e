ghost use Rattle.std.specs.Prelude.{◌≡◌, ◌+◌, ◌≤◌, [], IfOk, IfErr};
ghost use Rattle.frame_player.specs.Told.{told_first, IsJobOf, region_number};
ghost use Rattle.frame_player.specs.Frames.{IsFramesOf, EndsBegin};
ghost use Rattle.snapshot.specs.Positions.{IsRested, slot_count};
ghost use Rattle.plan_drive.specs.Paths.{empty_path, no_paths, path_script};

use crate::console::Frames;
use crate::ends::BeginEnd;
use crate::frame_bytes::{FrameBytes, SideBytes};
use free_files::{free_boot_rom, interpolation_file};
use memory_player::{End, Inputs, job_in};
use snapshot::Rewind;
use snes_defs::{Job, MOST_FRAMES, NoMemory, Profile, Region, Spans};
use std::alloc::Global;

/// The bytes of a picture: 239 rows of 512 dots of two bytes.
pub const FRAME_BYTES: usize = 244_736;

/// Room for the samples of a frame in either region: 640 of four bytes.
pub const FRAME_SOUND_ROOM: usize = 2_560;

/// The size of the buffer through which a run is drained: as many bytes as can be pending in a side.
const BUFFER: usize = 65_536;

/// The most save states that a console has slots for.
pub const MOST_SLOTS: u32 = 64;

/// What a console is made of.
#[derive(Clone, Copy, Drop)]
pub struct ConsoleInputs<'a> {
    /// The file of the cartridge.
    pub cart: &'a [u8],
    /// The boot ROM of the SPC700; no bytes stand for the free one.
    pub boot: &'a [u8],
    /// The interpolation table of the S-DSP; no bytes stand for the free one.
    pub table: &'a [u8],
    /// The television standard.
    pub region: Region,
    /// How many frames a path may last, 1 to 36,000.
    pub most: u32,
    /// How many save states there are slots for, at most 64.
    pub slots: u32,
}

/// Reads the inputs, the cartridge first, and returns the job of the empty path.
#[tactic(auto, using(crate::proofs::Begins::jobs))]
fn job_of(alloc: Global, inputs: ConsoleInputs<'_>) -> Result<Job, BeginEnd>
    ensures script { IfOk result (λ job. job.script ≡ path_script job.region 0 empty_path) }
    ensures job { IfOk result (IsJobOf (told_first inputs.entry.cart.now inputs.entry.boot.now inputs.entry.table.now
        (region_number inputs.entry.region) inputs.entry.most inputs.entry.slots)) }
    ensures ends { IfErr result (EndsBegin inputs.entry.cart.now inputs.entry.boot.now inputs.entry.table.now
        inputs.entry.most inputs.entry.slots) }
{
    let free_boot = free_boot_rom();
    let Ok(free_table) = interpolation_file(alloc) else {
        return Err(BeginEnd::NoMemory);
    };
    let boot = if inputs.boot.is_empty() {
        free_boot.as_slice()
    } else {
        inputs.boot
    };
    let table = if inputs.table.is_empty() {
        free_table.as_slice()
    } else {
        inputs.table
    };
    let read = Inputs {
        cart: inputs.cart,
        boot,
        table,
        script: &[],
    };
    match job_in(alloc, read, 0) {
        Ok(job) => Ok(in_region(alloc, job, inputs.region)),
        Err(End::Refused(cause)) => Err(BeginEnd::Refused(cause)),
        Err(_) => Err(BeginEnd::NoMemory),
    }
}

/// Returns the job of the same machines in a region, with an empty script.
fn in_region(alloc: Global, job: Job, region: Region) -> Job
    ensures cart { result.cart ≡ job.cart }
    ensures boot { result.boot ≡ job.boot }
    ensures table { result.table ≡ job.table }
    ensures region { result.region ≡ region }
    ensures script { result.script ≡ path_script region 0 empty_path }
{
    let Job {
        cart,
        boot,
        table,
        ..
    } = job;
    Job {
        cart,
        boot,
        table,
        script: Spans::versioned(Vec::new(alloc), region, Profile::First, Vec::new(alloc)),
        frames: 0,
        region,
    }
}

impl Frames {
    /// Makes a console before its first frame, with an empty path in each slot.
    ///
    /// Allocates all that the console will need.
    #[tactic(auto, using(crate::proofs::Begins::begins))]
    pub fn begin(alloc: Global, inputs: ConsoleInputs<'_>) -> Result<Frames, BeginEnd>
        ensures begun { IfOk result (IsFramesOf (told_first inputs.entry.cart.now inputs.entry.boot.now
            inputs.entry.table.now (region_number inputs.entry.region) inputs.entry.most inputs.entry.slots)) }
        ensures ends { IfErr result (EndsBegin inputs.entry.cart.now inputs.entry.boot.now inputs.entry.table.now
            inputs.entry.most inputs.entry.slots) }
    {
        if inputs.most == 0 || inputs.most > MOST_FRAMES {
            return Err(BeginEnd::Frames);
        }
        if inputs.slots > MOST_SLOTS {
            return Err(BeginEnd::Slots);
        }
        let job = job_of(alloc, inputs)?;
        match made(alloc, &job, inputs.most, inputs.slots) {
            Ok(frames) => Ok(frames),
            Err(NoMemory) => Err(BeginEnd::NoMemory),
        }
    }
}

/// Makes the console of a job.
#[tactic(auto, using(crate::proofs::Begins::begins))]
fn made(alloc: Global, job: &Job, most: u32, slots: u32) -> Result<Frames, NoMemory>
    requires script { job.now.script ≡ path_script job.now.region 0 empty_path }
    requires few { slots ≤ 64 }
    ensures rested { IfOk result (λ f. IsRested job.now most no_paths f.rewind) }
    ensures slots { IfOk result (λ f. slot_count f.rewind ≡ slots) }
    ensures most_is { IfOk result (λ f. f.most ≡ most) }
    ensures slots_is { IfOk result (λ f. f.slots ≡ slots) }
    ensures region_is { IfOk result (λ f. f.region ≡ job.now.region) }
{
    let rewind = Rewind::with_room(alloc, job, most as usize, slots as usize)?;
    let Ok(buffer) = vec![in alloc; 0u8; BUFFER] else {
        return Err(NoMemory);
    };
    let video = SideBytes::with_room(alloc, FRAME_BYTES)?;
    let sound = SideBytes::with_room(alloc, FRAME_SOUND_ROOM)?;
    Ok(Frames {
        rewind,
        buffer,
        bytes: FrameBytes { video, sound },
        most,
        slots: slots as u8,
        region: job.region,
    })
}
