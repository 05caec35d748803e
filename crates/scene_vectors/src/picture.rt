//! Runs the scenes of the picture through the PPU.
//!
//! The two programs that agreed on a scene agreed on every read and every dot. Each row is drawn twice, by `ppu_line`
//! and slowly by `picture_slow`, and both must agree with it. The program prints the scene, counted from 1 in its file,
//! of each line that differs or is invalid. Last it prints the numbers of rows and reads.

use picture_scenes::{acts, read_holds, renew, row_holds, row_number};
use picture_slow::draw_slowly;
use ppu_line::draw;
use ppu_regs::Ppu;
use snes_defs::Profile;
use std::alloc::Global;
use std::io;
use tile_cache::TileCache;

/// The number of rows and reads that were compared, and how many differ.
#[derive(Clone, Copy)]
pub struct Tally {
    rows: u64,
    rows_differing: u64,
    reads: u64,
    reads_differing: u64,
}

/// Returns a new PPU, of the first profile, and a tile cache.
fn new_unit(alloc: Global) -> Option<(Ppu, TileCache)> {
    match (Ppu::new(alloc, Profile::First), TileCache::new(alloc)) {
        (Ok(ppu), Ok(tiles)) => Some((ppu, tiles)),
        _ => None,
    }
}

/// Draws the row of a line, and returns whether it holds.
fn row_is_so(ppu: &mut Ppu, tiles: &mut TileCache, line: &str) -> bool {
    match row_number(line) {
        None => false,
        Some(row) => {
            let mut slow = [0u16; 512];
            let slow_over = draw_slowly(ppu, row + 1, &mut slow);
            renew(ppu, tiles);
            let mut drawn = [0u16; 512];
            let over = draw(ppu, tiles, row + 1, &mut drawn);
            ppu.over(over);
            row_holds(line, slow_over, &slow) && row_holds(line, over, &drawn)
        }
    }
}

/// Does a line, and returns whether it holds.
fn does(ppu: &mut Ppu, tiles: &mut TileCache, tally: &mut Tally, line: &str) -> bool {
    if line.starts_with("r ") {
        let so = row_is_so(ppu, tiles, line);
        tally.rows = tally.rows.saturating_add(1);
        if !so {
            tally.rows_differing = tally.rows_differing.saturating_add(1);
        }
        so
    } else if line.starts_with("q ") {
        let so = read_holds(ppu, line);
        tally.reads = tally.reads.saturating_add(1);
        if !so {
            tally.reads_differing = tally.reads_differing.saturating_add(1);
        }
        so
    } else {
        acts(ppu, line).is_some()
    }
}

impl Tally {
    /// Returns the tally of no rows and reads.
    pub fn new() -> Tally {
        Tally {
            rows: 0,
            rows_differing: 0,
            reads: 0,
            reads_differing: 0,
        }
    }

    /// Runs the scenes of a text.
    pub fn follow<R: Print + AllocGlobal>(&mut self, rt: &R, text: &str) -> io::Result<()> {
        let mut unit = new_unit(rt.alloc());
        let mut scene = 0u64;
        for line in text.lines() {
            if line.starts_with("scene ") {
                scene = scene.saturating_add(1);
                unit = new_unit(rt.alloc());
            } else if let Some((ppu, tiles)) = &mut unit {
                if !does(ppu, tiles, self, line) {
                    println!(rt; "differs: scene {scene}")?;
                }
            }
        }
        Ok(())
    }

    /// Prints all numbers.
    pub fn tell<R: Print>(&self, rt: &R) -> io::Result<()> {
        let Tally {
            rows,
            rows_differing,
            reads,
            reads_differing,
        } = *self;
        println!(rt;
            "{rows} rows, {rows_differing} differ; {reads} reads, {reads_differing} differ"
        )
    }
}
