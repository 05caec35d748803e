//! A PPU whose tiles are decoded word by word, as they are written.

ghost use Rattle.std.specs.Prelude.{◌<◌, length};

use picture_slow::draw_slowly;
use ppu_line::draw;
use ppu_regs::{Over, Ppu};
use snes_defs::Profile;
use std::alloc::Global;
use std::marker::Model;
use tile_cache::TileCache;

/// A PPU and its decoded tiles, which are in step.
#[derive(Drop)]
pub struct Screen {
    ppu: Ppu,
    tiles: TileCache,
}

impl Model for Screen {
    ghost use Rattle.tile_cache.specs.Bitplanes.{IsInStep};
    ghost use Rattle.ppu_regs.specs.Picture.{Picture};

    ghost Value = { Picture };

    ghost view = { λ s. s.ppu };

    ghost invariant = { λ s. IsInStep s.tiles s.ppu.vram };
}

/// A row of dots with the flags of its objects.
#[derive(Clone, Copy)]
pub struct Drawn {
    dots: [u16; 512],
    over: Over,
}

impl Drawn {
    /// Whether two rows are alike, with their flags.
    pub fn is(&self, other: &Drawn) -> bool {
        self.dots == other.dots
            && self.over.range == other.over.range
            && self.over.time == other.over.time
    }
}

impl Screen {
    /// Returns a new PPU of a profile and its decoded tiles, unless allocation fails.
    pub fn new(alloc: Global, profile: Profile) -> Option<Screen> {
        let Ok(ppu) = Ppu::new(alloc, profile) else {
            return None;
        };
        let Ok(tiles) = TileCache::new(alloc) else {
            return None;
        };
        Some(Screen { ppu, tiles })
    }

    /// Writes a register, given by its offset from 2100.
    pub fn write(&mut self, register: u8, v: u8) {
        let _word = tile_cache::write(&mut self.ppu, &mut self.tiles, register % 64, v);
    }

    /// Returns a row as `ppu_line` draws it from the decoded tiles.
    pub fn drawn(&self, row: u16) -> Drawn
        requires { row < 239 }
    {
        let mut dots = [0u16; 512];
        let over = draw(&self.ppu, &self.tiles, row + 1, &mut dots);
        Drawn { dots, over }
    }

    /// Returns a row as `picture_slow` works it out from the memories.
    pub fn worked_out(&self, row: u16) -> Drawn
        requires { row < 239 }
    {
        let mut dots = [0u16; 512];
        let over = draw_slowly(&self.ppu, row + 1, &mut dots);
        Drawn { dots, over }
    }
}
