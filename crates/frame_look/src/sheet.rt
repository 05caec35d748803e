//! A sheet of small pictures, for `look sheet`.

ghost use Rattle.std.specs.Prelude.{◌≡◌, ◌+◌, ◌*◌, ◌/◌, ◌<◌, ◌≤◌, length, vec_len};

use crate::films::{self, Frames};
use anyhow::{Result, bail, ensure};
use clap::ArgMatches;
use film_formats::{ROW_BYTES, SMALL_WIDTH, png_file, push_small_row};
use std::alloc::{AllocError, Global};
use std::io::Read;
use std::rt::Files;

/// The pictures in a row of the sheet.
const COLUMNS: usize = 8;

/// The bytes of a row of the sheet's dots: three a dot.
const SHEET_ROW: usize = 3 * COLUMNS * SMALL_WIDTH;

/// The rows of a small picture: half of a frame's, without its last.
const SMALL_ROWS: usize = 119;

/// The rows of the strip below a picture with its number.
const LABEL_ROWS: usize = 13;

/// The rows of a picture with its number.
const CELL_ROWS: usize = SMALL_ROWS + LABEL_ROWS;

/// The most pictures of a sheet, which is held in memory.
const MOST: usize = 2048;

/// The digits, three dots wide and five high, from the top; bit 2 is the left dot.
static DIGITS: [[u8; 5]; 10] = [
    [7, 5, 5, 5, 7],
    [2, 6, 2, 2, 7],
    [7, 1, 7, 4, 7],
    [7, 1, 7, 1, 7],
    [5, 5, 7, 1, 1],
    [7, 4, 7, 1, 7],
    [7, 4, 7, 5, 7],
    [7, 1, 2, 2, 2],
    [7, 5, 7, 5, 7],
    [7, 5, 7, 1, 7],
];

/// The bytes of a strip of eight pictures with their numbers.
const STRIP: usize = 405_504;

/// The sheet while it is made: whole strips of pictures, three bytes a dot.
#[derive(Drop)]
struct Sheet {
    dots: Vec<u8>,
    pictures: usize,
    ghost few: { pictures ≤ 2048 },
    ghost whole: { vec_len dots ≡ 405504 * ((pictures + 7) / 8) },
}

impl Sheet {
    /// A sheet without pictures.
    fn new(alloc: Global) -> Sheet {
        Sheet {
            dots: Vec::new(alloc),
            pictures: 0,
        }
    }

    /// Puts bytes at a place, and leaves out what lies outside the sheet.
    fn put(&mut self, at: usize, bytes: &[u8]) {
        for (i, byte) in bytes.iter().enumerate() {
            if let Some(place) = self.dots.get_mut(at.saturating_add(i)) {
                *place = *byte;
            }
        }
    }

    /// Puts a row of a digit at a place: each dot of it is two by two.
    fn put_digit_row(&mut self, at: usize, bits: u8) {
        for dot in 0..3usize {
            if bits & (4u8 >> dot) != 0 {
                let place = at.saturating_add(6 * dot);
                self.put(place, &[255; 6]);
                self.put(place.saturating_add(SHEET_ROW), &[255; 6]);
            }
        }
    }

    /// Puts a number into the strip below the picture that begins at a place.
    fn put_number(&mut self, at: usize, number: &str) {
        let first = at
            .saturating_add((SMALL_ROWS + 2) * SHEET_ROW)
            .saturating_add(6);
        for (i, digit) in number.bytes().enumerate() {
            let Some(rows) = DIGITS.get(digit.saturating_sub(b'0') as usize) else {
                continue;
            };
            let column = first.saturating_add(i.saturating_mul(24));
            for (k, bits) in rows.iter().enumerate() {
                let row = k.saturating_mul(2 * SHEET_ROW);
                self.put_digit_row(column.saturating_add(row), *bits);
            }
        }
    }

    /// Makes room for the next picture, and returns where it begins.
    fn make_place(&mut self) -> Result<usize, AllocError>
        requires { self.old.pictures < 2048 }
    {
        let place = self.pictures / COLUMNS * STRIP + 3 * SMALL_WIDTH * (self.pictures % COLUMNS);
        if self.pictures % COLUMNS == 0 {
            let length = self.dots.len() + STRIP;
            self.dots.resize(length, 32)?;
        }
        self.pictures += 1;
        Ok(place)
    }

    /// Adds the small picture of a frame, with its number.
    fn add(&mut self, alloc: Global, number: u64, frame: &[u8]) -> Result<(), AllocError>
        requires room { self.old.pictures < 2048 }
        requires frame { length frame.now ≡ 244736 }
    {
        let at = self.make_place()?;
        for k in 0..SMALL_ROWS {
            let mut row = Vec::new(alloc);
            let from = 2 * k * ROW_BYTES;
            push_small_row(
                &mut row,
                &frame[from..from + ROW_BYTES],
                &frame[from + ROW_BYTES..from + 2 * ROW_BYTES],
            )?;
            self.put(at.saturating_add(k * SHEET_ROW), row.as_slice());
        }
        self.put_number(at, format!(in alloc; "{number}")?.as_str());
        Ok(())
    }

    /// The sheet as PNG.
    fn png(&self, alloc: Global) -> Result<Vec<u8>, AllocError> {
        let rows = ((self.pictures + 7) / 8) * CELL_ROWS;
        png_file(alloc, 1024, rows as u32, self.dots.as_slice())
    }
}

/// Adds each picture that belongs on the sheet.
fn fill<F: Read + Drop>(
    alloc: Global,
    frames: &mut Frames<'_, F>,
    every: u64,
    sheet: &mut Sheet,
) -> Result<()> {
    let mut until = 0u64;
    for number in 0..u64::MAX {
        if !frames.next()? {
            break;
        }
        if until == 0 {
            if sheet.pictures >= MOST {
                bail!("more than {MOST} pictures: a sheet has no more, so take a larger --every");
            }
            sheet.add(alloc, number, frames.frame())?;
            until = every;
        }
        until = until.saturating_sub(1);
    }
    Ok(())
}

/// Makes the sheet of a film.
fn read_sheet<R: Files + AllocGlobal>(
    rt: &R,
    name: &str,
    every: u64,
    sheet: &mut Sheet,
) -> Result<()> {
    let mut frames = films::open_film(rt, name)?;
    fill(rt.alloc(), &mut frames, every, sheet)?;
    ensure!(sheet.pictures > 0, "{name} has no frames");
    Ok(())
}

/// Obeys `look sheet VIDEO OUT --every FRAMES`.
pub fn write_sheet<R: Files + Print + AllocGlobal>(rt: &R, words: &ArgMatches<'_>) -> Result<()> {
    let name = films::name_in(words, "VIDEO");
    let out = films::name_in(words, "OUT");
    let every = words.get_one::<u32>("every").unwrap_or(60);
    let mut sheet = Sheet::new(rt.alloc());
    read_sheet(rt, name, every as u64, &mut sheet)?;
    let file = sheet.png(rt.alloc())?;
    films::write(rt, out, &[name], file.as_slice())
}
