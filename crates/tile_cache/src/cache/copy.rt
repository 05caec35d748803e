// Copying the decoded tiles into another cache.
ghost use Rattle.std.specs.Prelude.{◌≡◌, List, ℕ};
ghost use Rattle.tile_cache.specs.Bitplanes.{IsInStep};

use super::TileCache;

impl TileCache {
    /// Copies all pixels into another cache, which is then in step with whatever VRAM this one is. Does not allocate.
    pub fn copy_into(&self, into: &mut TileCache)
        ensures same { into.new ≡ self.now }
        ensures step { (vram : List ℕ) → IsInStep self.now vram → IsInStep into.new vram }
    {
        into.eights
            .as_mut_slice()
            .copy_from_slice(self.eights.as_slice());
    }
}
