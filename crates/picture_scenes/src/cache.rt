//! Brings a tile cache in step with the whole of VRAM.

ghost use Rattle.tile_cache.specs.Bitplanes.{IsInStep};

use ppu_regs::Ppu;
use tile_cache::TileCache;

/// Decodes every word of VRAM again.
pub fn renew(p: &Ppu, tiles: &mut TileCache)
    ensures { IsInStep tiles.new p.now.vram }
{
    for word in 0..32768u16 {
        tiles.wrote(p, word);
    }
}
