ghost use Rattle.std.specs.Prelude.{IfOk};
ghost use Rattle.snes_commands.specs.Demo.{IsDemoJob};

use crate::command::Performs;
use crate::sums::Sums;
use clock_ratio::{end_stamp, samples_before};
use demo_files::{demo_boot_rom, demo_table, image};
use port_wire::Gate;
use run_drive::TurnPlayer;
use run_io::{Asked, Count, Form, Line, demo_line};
use shelf::{Out, Shelf};
use snes_defs::{Bytes, Cart, Job, MapKind, NoMemory, Region, Spans};
use std::alloc::Global;
use std::marker::PhantomData;
use std::thread::Threads;

/// The command `demo`: runs the image of a number in memory, on two workers.
#[derive(Drop)]
pub struct Demo<P> {
    player: PhantomData<P>,
}

impl<P: TurnPlayer> Demo<P> {
    pub fn new() -> Demo<P> {
        Demo {
            player: PhantomData,
        }
    }
}

/// Returns the job of a demo. Its image is a LoROM cartridge without RAM, and taken as it is.
fn demo_job(alloc: Global, number: u32, frames: u32) -> Result<Job, NoMemory>
    ensures { IfOk result (IsDemoJob number frames) }
{
    let Ok(rom) = image(alloc, number) else {
        return Err(NoMemory);
    };
    Ok(Job {
        cart: Cart {
            map: MapKind::LoRom,
            rom: Bytes::of(rom),
            ram: 0,
        },
        boot: demo_boot_rom(),
        table: demo_table(),
        script: Spans::of(alloc, Vec::new(alloc)),
        frames,
        region: Region::Ntsc,
    })
}

impl<P: TurnPlayer> Performs for Demo<P> {
    ghost use Rattle.std.specs.Prelude.{refl};
    ghost use Rattle.snes_defs.specs.declared.cart.Job.{Job};
    ghost use Rattle.run_drive.specs.Played.{IsPlayable};
    ghost use Rattle.snes_commands.specs.Demo.{demo, IsDemoJob};

    type Inputs = ();

    type Ready = P::Turning;

    ghost command = { demo P.emits };

    ghost is_ready = { λ order told ready. (job : Job) × IsDemoJob order.number order.count job × P.turns ready job × IsPlayable (P.emits job) };

    fn form() -> Form {
        Form {
            numbered: true,
            inputs: &[],
            optional: &[],
            count: Some(Count::Frames),
            settings: &[],
            outputs: &[],
        }
    }

    fn differs(_line: &Line) -> bool {
        false
    }

    fn ready(&self, alloc: Global, asked: &Asked<'_>, _inputs: ()) -> Result<P::Turning, NoMemory> {
        let job = demo_job(alloc, asked.number, asked.count)?;
        let turning = P::ready_turns(alloc, &job)?;
        Ok(turning)
    }

    /// Puts nothing: the line has the sums of what the run emits.
    fn fill<R: Threads, H: Shelf>(
        &self,
        rt: &R,
        gate: &dyn Gate,
        asked: &Asked<'_>,
        ready: P::Turning,
        _shelf: &mut H,
    ) -> Result<Line, Out> {
        let mut sums = Sums::new();
        match P::play_turns(ready, rt, gate, &mut sums) {
            Ok(()) => {
                let samples = samples_before(end_stamp(asked.count));
                Ok(demo_line(asked.count, samples, sums.video, sums.audio))
            }
            Err(_) => unreachable!(),
        }
    }

    ghost inputs_are = { refl };

    ghost outputs_apart = { refl };
}
