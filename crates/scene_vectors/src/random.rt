//! Compares random rows of `ppu_line` with those of `picture_slow`, which uses nothing but registers and memories.
//!
//! Each screen begins with all memories and registers at random, in one of the eight modes and one of the two profiles.
//! Registers, VRAM, objects and colours are written at random between its rows. So the decoded tiles of `ppu_line` are
//! those that writes have kept in step.
//!
//! After each row three things are made wrong, one at a time, by a random write (many writes to a register that takes a
//! memory's bytes). The row worked out then is compared with the one drawn before: a comparison that sees nothing would
//! find no difference. Each register is written so in turn. Registers 2115 to 2117 and 2121 change no picture: they
//! only say where the next byte of VRAM or CGRAM goes. Every other one must be detected.
//!
//! It prints for each profile how many rows were compared, how many differ, and the registers for which no row was
//! detected.

mod screen;
mod writes;

use case_text::Generator;
use screen::Screen;
use snes_defs::Profile;
use std::alloc::Global;
use std::io;
use writes::{REGISTERS, begin, change, make_wrong};

/// The screens of each mode.
const SCREENS: u32 = 16;

/// The number of rows of each screen that are compared, every tenth one.
const ROWS: u16 = 24;

/// The things made wrong after each row.
const WRONGS: u32 = 3;

/// What came of the rows.
#[derive(Clone, Copy)]
struct Tally {
    rows: u64,
    differing: u64,
    /// For each register, whether a row differed from the right one after it was written.
    told: [bool; 64],
    /// The register that is made wrong next.
    register: u8,
}

/// Compares a row drawn both ways, and then with one thing wrong after another.
fn compare_row(screen: &mut Screen, generator: &mut Generator, row: u16, tally: &mut Tally) {
    if row >= 239 {
        return;
    }
    let drawn = screen.drawn(row);
    tally.rows = tally.rows.saturating_add(1);
    if !drawn.is(&screen.worked_out(row)) {
        tally.differing = tally.differing.saturating_add(1);
    }
    for _ in 0..WRONGS {
        let before = screen.drawn(row);
        let register = tally.register % REGISTERS;
        make_wrong(screen, generator, register);
        if !before.is(&screen.worked_out(row)) {
            tally.told[register as usize] = true;
        }
        tally.register = (register + 1) % REGISTERS;
    }
}

/// Compares the rows of one screen.
fn compare_screen(
    alloc: Global,
    profile: Profile,
    mode: u8,
    seed: u32,
    tally: &mut Tally,
) -> Option<()> {
    let mut screen = Screen::new(alloc, profile)?;
    let mut generator = Generator::new(seed);
    begin(&mut screen, &mut generator, mode);
    for k in 0..ROWS {
        compare_row(&mut screen, &mut generator, 10 * k, tally);
        change(&mut screen, &mut generator);
    }
    Some(())
}

/// Compares all rows of a profile, and prints what came of them.
fn compare_profile<R: Print + AllocGlobal>(rt: &R, profile: Profile, name: &str) -> io::Result<()> {
    let mut tally = Tally {
        rows: 0,
        differing: 0,
        told: [false; 64],
        register: 0,
    };
    for mode in 0..8u8 {
        for screen in 0..SCREENS {
            let seed = screen.wrapping_mul(977).wrapping_add(mode as u32);
            if compare_screen(rt.alloc(), profile, mode, seed, &mut tally).is_none() {
                return println!(rt; "no memory");
            }
        }
    }
    println!(rt;
        "{name} profile: {} rows, {} differ",
        tally.rows, tally.differing
    )?;
    print!(rt; "told after a write of every register but")?;
    for register in 0..REGISTERS {
        if !tally.told[register as usize] {
            print!(rt; " 21{register:02X}")?;
        }
    }
    println!(rt; "")
}

/// Compares all rows of both profiles, and prints what came of them.
pub fn compare<R: Print + AllocGlobal>(rt: &R) -> io::Result<()> {
    compare_profile(rt, Profile::First, "first")?;
    compare_profile(rt, Profile::Second, "second")
}
