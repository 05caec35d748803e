//! Runs the sound machine by itself and prints each act of a step that isn't quiet, and for a third
//! program its samples, for comparison with hand-computed cases.
//!
//! The first boot ROM sets timer 0 to a target of 1, waits, and copies two reads of its counter to
//! ports 0 and 1: the counter is 1 at cycle 128, and the read clears it. The second one stops, and the
//! reset button is pressed in frame 1: frame 1 begins at stamp 2,012,696,576 (Ntsc), and the first
//! cycle not before it is 17,039; in Pal it is 20,478, by 43,578,163,200 stamps of 2,128,137.
//!
//! The third one puts a block with the header 40 (shift 4, filter 0) and the bytes 7F, 7F and zeros at
//! 0010, where the directory at 0000 leads, and writes KON in cycle 79, which sample 2 looks at. The
//! digits 7 and -1 by 16, halved, are 56 and -8, and each is decoded at the end of a sample, from sample
//! 2 on. The table has 1,024 for the newest of the four numbers and 0 for the others, so the value is
//! half of it: 28 and -4. By the envelope 2,032 of GAIN 7F, divided by 2,048, that is 27 and -4; by the
//! volume 40, divided by 64, the same; by the main volume 7F, divided by 128, 26 and -4. The right
//! volumes are 0.
//!
//! Then come rows of the rules in which the second profile differs (`profiles`), and rows of the free boot ROM (`upload`).
#![tactic(auto)]

mod profiles;
mod upload;

use audio_side::AudioSide;
use side_law::Machine;
use snes_defs::{Act, Bytes, Cart, Job, MapKind, Profile, Region, Spans, Table};
use std::alloc::Global;
use std::io;

/// A program that reads timer 0 twice:
/// MOV FA,#01; MOV F1,#81; MOV Y,#13; DBNZ Y; NOP; MOV A,FD; MOV F4,A; MOV A,FD; MOV F5,A; BRA.
const TIMER_PROGRAM: [u8; 21] = [
    0x8F, 0x01, 0xFA, 0x8F, 0x81, 0xF1, 0x8D, 0x13, 0xFE, 0xFE, 0x00, 0xE4, 0xFD, 0xC4, 0xF4, 0xE4,
    0xFD, 0xC4, 0xF5, 0x2F, 0xFE,
];

/// A program that plays one block:
/// MOV 00,#10; MOV 10,#40; MOV 11,#7F; MOV 12,#7F; then by MOV F2,# and MOV F3,# the registers 00 VOLL 40,
/// 03 PITCH 10, 07 GAIN 7F, 0C MVOLL 7F, 6C FLG 20, 4C KON 01; SLEEP.
const BLOCK_PROGRAM: [u8; 49] = [
    0x8F, 0x10, 0x00, 0x8F, 0x40, 0x10, 0x8F, 0x7F, 0x11, 0x8F, 0x7F, 0x12, 0x8F, 0x00, 0xF2, 0x8F,
    0x40, 0xF3, 0x8F, 0x03, 0xF2, 0x8F, 0x10, 0xF3, 0x8F, 0x07, 0xF2, 0x8F, 0x7F, 0xF3, 0x8F, 0x0C,
    0xF2, 0x8F, 0x7F, 0xF3, 0x8F, 0x6C, 0xF2, 0x8F, 0x20, 0xF3, 0x8F, 0x4C, 0xF2, 0x8F, 0x01, 0xF3,
    0xEF,
];

/// Returns the program that plays one block, with the end in the block's header.
fn ended_block() -> [u8; 49] {
    let mut program = BLOCK_PROGRAM;
    program[4] = 0x41;
    program
}

/// Returns a boot ROM that begins with a program, and whose vector leads to it.
fn boot_rom(program: &[u8]) -> [u8; 64] {
    let mut boot = [0u8; 64];
    for (i, byte) in program.iter().enumerate() {
        if i < 62 {
            boot[i] = *byte;
        }
    }
    boot[62] = 0xC0;
    boot[63] = 0xFF;
    boot
}

/// Returns an interpolation table of zeros.
fn empty_table() -> Table {
    Table::of([0; 512])
}

/// Returns the table that has 1,024 for the newest number at a position of 0, and zeros.
fn newest_alone() -> Table {
    let mut numbers = [0u16; 512];
    numbers[0] = 1024;
    Table::of(numbers)
}

/// Returns a job of one cartridge byte, a table of zeros, and a script that may press reset in frame 1.
fn job(alloc: Global, boot: [u8; 64], region: Region, with_reset: bool) -> io::Result<Job> {
    let resets = if with_reset {
        vec![in alloc; 1u32]?
    } else {
        Vec::new(alloc)
    };
    Ok(Job {
        cart: Cart {
            map: MapKind::LoRom,
            rom: Bytes::of(vec![in alloc; 0u8]?),
            ram: 0,
        },
        boot,
        table: empty_table(),
        script: Spans::versioned(Vec::new(alloc), region, Profile::First, resets),
        frames: 2,
        region,
    })
}

/// Runs a sound side for the given number of steps, and prints the acts among them.
fn run(rt: &impl Print, side: &mut AudioSide, steps: u64) -> io::Result<()> {
    let mut bytes = [0u8; 256];
    for cycle in 0..steps {
        match side.act() {
            Act::Quiet => {}
            Act::Read(port) => println!(rt; "cycle {cycle}: port {port} is read")?,
            Act::Write(port, byte) => println!(rt; "cycle {cycle}: port {port} gets {byte}")?,
            Act::Clear(mask) => println!(rt; "cycle {cycle}: ports {mask} are cleared")?,
        }
        if !side.ready() {
            let _count = side.drain(&mut bytes);
        }
        if !side.ready() || side.stamp() > 1 << 62 {
            return println!(rt; "cycle {cycle}: no room");
        }
        side.step(0);
    }
    Ok(())
}

/// Runs a job for the given number of steps, and prints the acts among them.
fn show_acts(rt: &impl Print, alloc: Global, job: &Job, steps: u64) -> io::Result<()> {
    let Ok(mut side) = AudioSide::new(alloc, job) else {
        return println!(rt; "no memory");
    };
    run(rt, &mut side, steps)
}

/// Returns the number of two bytes, low byte first.
fn number(low: u8, high: u8) -> i16 {
    (low as u16 + 256 * high as u16).cast_signed()
}

/// Prints the first ten samples of a sound side.
fn listen(rt: &impl Print, side: &mut AudioSide) -> io::Result<()> {
    let mut bytes = [0u8; 4];
    for cycle in 0..320u64 {
        if !side.ready() || side.stamp() > 1 << 62 {
            return println!(rt; "cycle {cycle}: no room");
        }
        side.step(0);
        if cycle % 32 == 31 {
            let _count = side.drain(&mut bytes);
            let (left, right) = (number(bytes[0], bytes[1]), number(bytes[2], bytes[3]));
            println!(rt; "sample {}: {left} {right}", cycle / 32)?;
        }
    }
    Ok(())
}

/// Prints the first ten samples of a job.
fn show_samples(rt: &impl Print, alloc: Global, job: &Job) -> io::Result<()> {
    let Ok(mut side) = AudioSide::new(alloc, job) else {
        return println!(rt; "no memory");
    };
    listen(rt, &mut side)
}

/// Runs a program in place of the boot ROM, and prints its acts.
fn show_program(rt: &impl Print, alloc: Global, program: &[u8], steps: u64) -> io::Result<()> {
    let job = job(alloc, boot_rom(program), Region::Ntsc, false)?;
    show_acts(rt, alloc, &job, steps)
}

/// Runs a job that stops, and whose reset button is pressed in frame 1.
fn show_reset(rt: &impl Print, alloc: Global, region: Region, steps: u64) -> io::Result<()> {
    let job = job(alloc, boot_rom(&[0xFF]), region, true)?;
    show_acts(rt, alloc, &job, steps)
}

/// Plays a program of a block in a profile.
fn show_block(rt: &impl Print, alloc: Global, program: &[u8], profile: Profile) -> io::Result<()> {
    let mut job = job(alloc, boot_rom(program), Region::Ntsc, false)?;
    job.table = newest_alone();
    job.script = Spans::versioned(Vec::new(alloc), Region::Ntsc, profile, Vec::new(alloc));
    show_samples(rt, alloc, &job)
}

fn main(rt: HostRuntime) -> io::Result<()> {
    let alloc = rt.alloc();
    println!(rt; "timer")?;
    show_program(&rt, alloc, &TIMER_PROGRAM, 1000)?;
    println!(rt; "reset, Ntsc")?;
    show_reset(&rt, alloc, Region::Ntsc, 40000)?;
    println!(rt; "reset, Pal")?;
    show_reset(&rt, alloc, Region::Pal, 50000)?;
    println!(rt; "block")?;
    show_block(&rt, alloc, &BLOCK_PROGRAM, Profile::First)?;
    profiles::show(&rt, alloc)?;
    println!(rt; "the block with the end, first profile")?;
    show_block(&rt, alloc, &ended_block(), Profile::First)?;
    println!(rt; "the block with the end, second profile")?;
    show_block(&rt, alloc, &ended_block(), Profile::Second)?;
    upload::show(&rt, alloc)
}
