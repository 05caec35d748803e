//! Rows of the rules of sound in which the second profile differs, each by both profiles.
//!
//! The voices stand by themselves. A row writes registers before samples, and prints what registers show after each
//! sample, as runs: `3*127` is 127 three times. 08 and 18 are ENVX of voices 0 and 1, 7C is ENDX.
//!
//! Both voices have pitch 1000, so each sample decodes one of a block. GAIN 7F makes their envelope 2,032 in the turn
//! after a key on, so ENVX is 127 from the next sample on. In release the envelope falls by 8 a sample: 2,024 and 2,016
//! show 126, and 2,008 shows 125. A voice that starts in sample 0 has decoded its first block at the end of sample 15,
//! and its second one at the end of sample 31.
//!
//! The last row is the program of the block, with the end in its header, played by the whole sound side. The block
//! starts in sample 2. The first profile plays it as it does the block without the end; the second plays nothing.

use sdsp_voice::Voices;
use snes_defs::{Profile, Table};
use std::alloc::Global;
use std::io;

/// A byte that is written to a register of the S-DSP before a sample: the sample's number, the register, the byte.
type Write = (u64, u8, u8);

/// What is written when, over which blocks, and what is shown.
#[derive(Clone, Copy)]
struct Row {
    title: &'static str,
    /// The headers of the source's blocks. Zeros follow.
    headers: &'static [u8],
    writes: &'static [Write],
    /// The registers that are shown.
    shown: &'static [u8],
    samples: u64,
}

/// ENVX of voice 0, of both voices, and of voice 0 with ENDX.
static FIRST_LEVEL: [u8; 1] = [0x08];

static BOTH_LEVELS: [u8; 2] = [0x08, 0x18];

static LEVEL_AND_END: [u8; 2] = [0x08, 0x7C];

static NO_END: [u8; 1] = [0x00];

static ENDS_SECOND: [u8; 2] = [0x00, 0x01];

static ENDS_FIRST: [u8; 1] = [0x01];

static LOOPS: [u8; 1] = [0x03];

static START: [Write; 1] = [(0, 0x4C, 0x01)];

static TWO_NOTES: [Write; 2] = [(0, 0x4C, 0x01), (0, 0x4C, 0x02)];

static ODD_NOTE: [Write; 1] = [(1, 0x4C, 0x01)];

static NOTES_APART: [Write; 2] = [(1, 0x4C, 0x01), (2, 0x4C, 0x02)];

static ODD_RELEASE: [Write; 3] = [(0, 0x4C, 0x01), (3, 0x5C, 0x01), (4, 0x5C, 0x00)];

static EVEN_RELEASE: [Write; 3] = [(0, 0x4C, 0x01), (4, 0x5C, 0x01), (5, 0x5C, 0x00)];

static HELD: [Write; 3] = [(0, 0x5C, 0x01), (0, 0x4C, 0x01), (1, 0x5C, 0x00)];

static ODD_MUTE: [Write; 3] = [(0, 0x4C, 0x01), (3, 0x6C, 0xA0), (4, 0x6C, 0x20)];

/// Returns a row over a source without an end that shows ENVX of voice 0.
fn levels(title: &'static str, writes: &'static [Write], samples: u64) -> Row {
    Row {
        title,
        headers: &NO_END,
        writes,
        shown: &FIRST_LEVEL,
        samples,
    }
}

/// Returns a row over blocks, whose voice 0 starts in sample 0.
fn blocks(title: &'static str, headers: &'static [u8], samples: u64) -> Row {
    Row {
        title,
        headers,
        writes: &START,
        shown: &LEVEL_AND_END,
        samples,
    }
}

/// Puts a source into RAM: its entry at 0000, its blocks at 0010, its loop at 0100.
fn put_source(ram: &mut [u8], headers: &[u8]) {
    for (at, byte) in [(0x0000, 0x10), (0x0003, 0x01)] {
        if let Some(place) = ram.get_mut(at) {
            *place = byte;
        }
    }
    for (block, header) in headers.iter().enumerate() {
        if block < 16
            && let Some(place) = ram.get_mut(0x0010 + 9 * block)
        {
            *place = *header;
        }
    }
}

/// Returns the voices of a profile, with pitch and GAIN of voices 0 and 1.
fn voices(profile: Profile) -> Voices {
    let mut voices = Voices::new(profile);
    for (register, byte) in [
        (0x03, 0x10),
        (0x07, 0x7F),
        (0x13, 0x10),
        (0x17, 0x7F),
        (0x6C, 0x20),
    ] {
        if register < 128 {
            voices.write(register, byte);
        }
    }
    voices
}

/// Makes the writes of a row before a sample.
fn write_before(voices: &mut Voices, writes: &[Write], sample: u64) {
    for (before, register, byte) in writes {
        if *before == sample && *register < 128 {
            voices.write(*register, *byte);
        }
    }
}

/// Plays a row by a profile, and prints the runs of what a register shows.
fn play(rt: &impl Print, ram: &[u8], row: &Row, profile: Profile, register: u8) -> io::Result<()> {
    if ram.len() != 65_536 || register >= 128 {
        return println!(rt; " nothing");
    }
    let table = Table::of([0; 512]);
    let mut voices = voices(profile);
    let mut run = (0u64, 0u8);
    'samples: for s in 0..row.samples {
        write_before(&mut voices, row.writes, s);
        let _sums = voices.sample(ram, &table, s);
        let shown = voices.read(register);
        if shown != run.1 && run.0 > 0 {
            print!(rt; " {}*{}", run.0, run.1)?;
            run.0 = 0;
        }
        run = (run.0.saturating_add(1), shown);
    }
    println!(rt; " {}*{}", run.0, run.1)
}

/// Shows a row by both profiles.
fn show_row(rt: &impl Print, alloc: Global, row: &Row) -> io::Result<()> {
    println!(rt; "{}", row.title)?;
    let mut ram = vec![in alloc; 0u8; 65_536]?;
    put_source(ram.as_mut_slice(), row.headers);
    for (name, profile) in [("first", Profile::First), ("second", Profile::Second)] {
        for register in row.shown {
            print!(rt; "  {name}, {register:02X}:")?;
            play(rt, ram.as_slice(), row, profile, *register)?;
        }
    }
    Ok(())
}

/// Shows all rows over the voices.
pub fn show(rt: &impl Print, alloc: Global) -> io::Result<()> {
    let mut both = levels("KON 01 and 02 before sample 0", &TWO_NOTES, 3);
    both.shown = &BOTH_LEVELS;
    let mut apart = levels(
        "KON 01 before sample 1, KON 02 before sample 2",
        &NOTES_APART,
        4,
    );
    apart.shown = &BOTH_LEVELS;
    for row in [
        both,
        levels("KON 01 before sample 1", &ODD_NOTE, 4),
        apart,
        levels("KOFF 01 in sample 3 alone", &ODD_RELEASE, 7),
        levels("KOFF 01 in sample 4 alone", &EVEN_RELEASE, 7),
        levels("KON 01 and KOFF 01 in sample 0 alone", &HELD, 4),
        levels("FLG 80 in sample 3 alone", &ODD_MUTE, 5),
        blocks("two blocks, the second with the end", &ENDS_SECOND, 34),
        blocks("a block with the end", &ENDS_FIRST, 18),
        blocks("a block with the end and the loop", &LOOPS, 18),
    ] {
        show_row(rt, alloc, &row)?;
    }
    Ok(())
}
