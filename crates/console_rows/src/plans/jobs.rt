ghost use Rattle.std.specs.Prelude.{◌≡◌, [], IfSome};
ghost use Rattle.plan_drive.specs.Paths.{empty_path, path_script};

use cart_map::accept;
use case_text::put;
use demo_files::{demo_boot_rom, demo_table};
use snes_defs::{Job, Region, Spans};
use std::alloc::Global;

/// A program that uses the ports all the time: SEI, CLC, XCE; then, over and over: 2140 to 2141, INC, to 2140.
const TALK: &str = "7818FBAD40218D41211A8D402180F4";

/// Returns the job of an image, with the demo's boot ROM and table.
fn job_of(alloc: Global, image: Vec<u8>) -> Option<Job>
    ensures script { IfSome result (λ job. job.script ≡ path_script job.region 0 empty_path) }
{
    Some(Job {
        cart: accept(image).ok()?,
        boot: demo_boot_rom(),
        table: demo_table(),
        script: Spans::of(alloc, Vec::new(alloc)),
        frames: 0,
        region: Region::Ntsc,
    })
}

/// Returns the job of a cartridge of 32 KiB that reads and writes the ports all the time.
pub fn talking_job(alloc: Global) -> Option<Job>
    ensures script { IfSome result (λ job. job.script ≡ path_script job.region 0 empty_path) }
{
    let mut image = vec![in alloc; 0u8; 32_768].ok()?;
    put(image.as_mut_slice(), 0, TALK)?;
    put(image.as_mut_slice(), 0x7fd5, "20")?;
    put(image.as_mut_slice(), 0x7ffd, "80")?;
    job_of(alloc, image)
}
