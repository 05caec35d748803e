//! A golden picture of a size that is compared with a frame.

ghost use Rattle.std.specs.Prelude.{◌≡◌, length};

use crate::compare::{Found, Grid, compared};
use anyhow::{Context, Result, bail};
use film_formats::{FRAME_BYTES, WIDTH};
use png_reader::{Picture, read_png};
use std::alloc::{AllocError, Global};

/// A picture that a frame is compared with.
#[derive(Drop)]
pub struct Golden {
    picture: Picture,
    grid: Grid,
}

impl Golden {
    /// Reads the bytes of a PNG file. `name` is what messages call it.
    pub fn read(alloc: Global, name: &str, file: &[u8]) -> Result<Golden> {
        let picture = read_png(alloc, file).context(format_args!("cannot read {name}"))?;
        let Some(grid) = Grid::of(&picture) else {
            bail!(
                "{name} has {} by {} pixels: a frame is compared with 512 or 256 by 478, 448, 239 or 224",
                picture.width(),
                picture.height()
            );
        };
        Ok(Golden { picture, grid })
    }

    /// How many half-pixels of a frame are compared.
    pub fn half_pixels(&self) -> usize {
        self.grid.rows.saturating_mul(WIDTH)
    }

    /// Compares a frame with the picture.
    pub fn compare(&self, alloc: Global, frame: &[u8]) -> Result<Found, AllocError>
        requires { length frame.now ≡ FRAME_BYTES }
    {
        compared(alloc, frame, &self.picture, self.grid)
    }
}
