//! The comparison of a frame with a picture, half-pixel by half-pixel.

ghost use Rattle.std.specs.Prelude.{◌≡◌, length, vec_len};

use film_formats::{Colour, FRAME_BYTES, HEIGHT, ROW_BYTES, WIDTH, dot_of_row};
use png_reader::Picture;
use std::alloc::{AllocError, Global};

/// How the pixels of a picture lie over a frame's half-pixels.
#[derive(Clone, Copy)]
pub(crate) struct Grid {
    /// Whether a pixel is as wide as two half-pixels.
    wide: bool,
    /// The rows of the picture for each row of the frame: 1 or 2.
    times: usize,
    /// The rows of the frame that the picture has, from the top.
    pub(crate) rows: usize,
}

impl Grid {
    /// The grid of a picture, if it has one of the sizes that are compared.
    pub(crate) fn of(picture: &Picture) -> Option<Grid> {
        let wide = match picture.width() {
            512 => false,
            256 => true,
            _ => return None,
        };
        let (times, rows) = match picture.height() {
            478 => (2, 239),
            448 => (2, 224),
            239 => (1, 239),
            224 => (1, 224),
            _ => return None,
        };
        Some(Grid { wide, times, rows })
    }
}

/// The first half-pixel that differs.
#[derive(Clone, Copy)]
pub struct Place {
    /// Its row, from 0.
    pub row: usize,
    /// Its place in the row, from 0.
    pub dot: usize,
    /// Its 15 bits.
    pub film: u16,
    /// The picture's red, green and blue there.
    pub golden: [u8; 3],
}

/// What the comparison of a frame with a picture found.
#[derive(Drop)]
pub struct Found {
    /// How many half-pixels differ.
    pub differing: u32,
    /// The first of them.
    pub place: Option<Place>,
    /// The frame with one bit turned in each half-pixel that differs.
    turned: Vec<u8>,
    ghost whole: { vec_len turned ≡ 244736 },
}

impl Found {
    /// Nothing yet, of this frame.
    fn new(alloc: Global, frame: &[u8]) -> Result<Found, AllocError>
        requires { length frame.now ≡ 244736 }
    {
        let mut turned = Vec::new(alloc);
        turned.extend_from_slice(frame)?;
        Ok(Found {
            differing: 0,
            place: None,
            turned,
        })
    }

    /// Takes a half-pixel that differs.
    fn add(&mut self, place: Place) {
        self.differing = self.differing.saturating_add(1);
        self.place = self.place.or(Some(place));
        let at = place
            .row
            .saturating_mul(ROW_BYTES)
            .saturating_add(place.dot.saturating_mul(2));
        if let Some(byte) = self.turned.get_mut(at) {
            *byte ^= 1;
        }
    }

    /// The frame with one bit turned in each half-pixel that differs, for a picture of the difference.
    pub fn turned(&self) -> &[u8]
        ensures { length result.now ≡ 244736 }
    {
        self.turned.as_slice()
    }
}

/// The colour of a picture that a half-pixel of this colour doesn't have, if there is one.
fn other_colour(
    picture: &Picture,
    grid: Grid,
    row: usize,
    dot: usize,
    film: [u8; 3],
) -> Option<[u8; 3]> {
    let column = if grid.wide { dot / 2 } else { dot };
    for k in 0..grid.times {
        let golden = picture.pixel(row.saturating_mul(grid.times).saturating_add(k), column)?;
        if golden != film {
            return Some(golden);
        }
    }
    None
}

/// Compares a frame with a picture.
pub(crate) fn compared(
    alloc: Global,
    frame: &[u8],
    picture: &Picture,
    grid: Grid,
) -> Result<Found, AllocError>
    requires { length frame.now ≡ FRAME_BYTES }
{
    let mut found = Found::new(alloc, frame)?;
    for row in 0..HEIGHT {
        if row >= grid.rows {
            break;
        }
        let from = ROW_BYTES * row;
        let bytes = &frame[from..from + ROW_BYTES];
        for dot in 0..WIDTH {
            let film = dot_of_row(bytes, dot);
            let colour = Colour::of_dot(film);
            let shown = [colour.red, colour.green, colour.blue];
            if let Some(golden) = other_colour(picture, grid, row, dot, shown) {
                found.add(Place {
                    row,
                    dot,
                    film,
                    golden,
                });
            }
        }
    }
    Ok(found)
}
