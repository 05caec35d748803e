ghost use Rattle.std.specs.Prelude.{◌≡◌, ◌<◌, IfOk, length};
ghost use Rattle.snes_defs.specs.declared.profile.Profile.TheVariants.{First};
ghost use Rattle.ppu_regs.specs.Picture.{zeros, vram_words, picture_start};
ghost use Rattle.tile_cache.specs.Bitplanes.{IsInStep};

use ppu_regs::{Dot, Ppu};
use ppu_tiles::{background_row, depth};
use snes_defs::{NoMemory, Profile};
use std::alloc::Global;
use std::process::Abort;
use std::test::Fail;
use tile_cache::{TileCache, write};

fn unit(alloc: Global) -> Result<Ppu, Fail>
    ensures { IfOk result (λ p. p ≡ picture_start First) }
{
    match Ppu::new(alloc, Profile::First) {
        Ok(p) => Ok(p),
        Err(NoMemory) => Err(Fail::from("no memory for a unit")),
    }
}

fn cache(alloc: Global) -> Result<TileCache, Fail>
    ensures { IfOk result (λ t. IsInStep t (zeros vram_words)) }
{
    match TileCache::new(alloc) {
        Ok(tiles) => Ok(tiles),
        Err(NoMemory) => Err(Fail::from("no memory for a cache")),
    }
}

/// Writes word 0 with a low byte of 80, and returns the word that each of the five writes names.
fn put_low_byte(p: &mut Ppu, tiles: &mut TileCache) -> [Option<u16>; 5]
    requires { IsInStep tiles.old p.old.vram }
    ensures { IsInStep tiles.new p.new.vram }
{
    [
        write(p, tiles, 0x15, 0x80),
        write(p, tiles, 0x16, 0x00),
        write(p, tiles, 0x17, 0x00),
        write(p, tiles, 0x18, 0x80),
        write(p, tiles, 0x19, 0x00),
    ]
}

/// Writes a high byte of 80 to word 0, and returns the word that each of the three writes names.
fn put_high_byte(p: &mut Ppu, tiles: &mut TileCache) -> [Option<u16>; 3]
    requires { IsInStep tiles.old p.old.vram }
    ensures { IsInStep tiles.new p.new.vram }
{
    [
        write(p, tiles, 0x16, 0x00),
        write(p, tiles, 0x17, 0x00),
        write(p, tiles, 0x19, 0x80),
    ]
}

/// A low byte of 80 is a pixel of value 1 at the left, and a high byte of 80 makes it 3. Only the writes of the
/// two data registers name a word.
#[test]
fn cache_follows_the_bytes_of_a_word(rt: HostRuntime) -> Result<(), Fail> {
    let mut p = unit(rt.alloc())?;
    let mut tiles = cache(rt.alloc())?;
    let empty = tiles.line(0, 2);
    let low = put_low_byte(&mut p, &mut tiles);
    let with_low = tiles.line(0, 2);
    let high = put_high_byte(&mut p, &mut tiles);
    let with_both = tiles.line(0, 2);
    let lines = [empty, with_low, with_both];
    assert_eq!(rt;
        (low, high, lines),
        (
            [None, None, None, Some(0), Some(0)],
            [None, None, Some(0)],
            [[0; 8], [1, 0, 0, 0, 0, 0, 0, 0], [3, 0, 0, 0, 0, 0, 0, 0]]
        )
    );
    Ok(())
}

/// Sets up a map at word 400 whose tiles are all tile 0, which has one white pixel at the left of its second line.
fn white_pixel(p: &mut Ppu, tiles: &mut TileCache)
    requires { IsInStep tiles.old p.old.vram }
    ensures { IsInStep tiles.new p.new.vram }
{
    let _ = write(p, tiles, 0x07, 0x04);
    let _ = write(p, tiles, 0x15, 0x80);
    let _ = write(p, tiles, 0x16, 0x01);
    let _ = write(p, tiles, 0x17, 0x00);
    let _ = write(p, tiles, 0x18, 0x80);
    let _ = write(p, tiles, 0x19, 0x00);
    let _ = write(p, tiles, 0x21, 0x01);
    let _ = write(p, tiles, 0x22, 0xff);
    let _ = write(p, tiles, 0x22, 0x7f);
}

const NOTHING: Dot = Dot {
    on: false,
    prio: 0,
    colour: 0,
    math: false,
};

const WHITE: Dot = Dot {
    on: true,
    prio: 0,
    colour: 0x7fff,
    math: true,
};

/// Asserts that the first row of BG1 has a white pixel in each tile, and the second row none at the left.
fn expect_white_pixels<R: Abort>(rt: &R, p: &Ppu, tiles: &TileCache)
    requires { IsInStep tiles.now p.now.vram }
{
    let bits = depth(p.registers().mode, 1);
    assert_eq!(rt; bits, 2);
    let mut dots = [NOTHING; 512];
    background_row(p, tiles, 1, 0, &mut dots);
    let some = [dots[0], dots[1], dots[2], dots[15], dots[496]];
    assert_eq!(rt; some, [WHITE, WHITE, NOTHING, NOTHING, WHITE]);
    background_row(p, tiles, 1, 1, &mut dots);
    assert_eq!(rt; dots[0], NOTHING);
}

#[test]
fn first_row_has_a_white_pixel_in_each_tile(rt: HostRuntime) -> Result<(), Fail> {
    let mut p = unit(rt.alloc())?;
    let mut tiles = cache(rt.alloc())?;
    white_pixel(&mut p, &mut tiles);
    expect_white_pixels(&rt, &p, &tiles);
    Ok(())
}
