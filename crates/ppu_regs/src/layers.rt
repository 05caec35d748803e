//! The registers of one layer, by its number.
ghost use Rattle.std.specs.Prelude.{◌≡◌};
ghost use Rattle.ppu_regs.specs.Picture.{background_of, windows_of, screens_of};

use crate::registers::{Background, LayerScreens, LayerWindows, Registers};

impl Registers {
    /// Returns the registers of the background of a layer, 1 to 4 for BG1 to BG4.
    #[inline(always)]
    #[tactic(auto, unfolding(crate::specs::Picture::background_of))]
    pub fn background(&self, layer: u8) -> &Background
        ensures { result.now ≡ background_of self.now layer }
    {
        match layer {
            1 => &self.bg1,
            2 => &self.bg2,
            3 => &self.bg3,
            _ => &self.bg4,
        }
    }

    /// Returns a layer's use of the windows: 1 to 4 for BG1 to BG4, 5 for the objects, 6 for the colour window.
    #[inline(always)]
    #[tactic(auto, unfolding(crate::specs::Picture::windows_of))]
    pub fn windows(&self, layer: u8) -> &LayerWindows
        ensures { result.now ≡ windows_of self.now layer }
    {
        match layer {
            1 => &self.windows_bg1,
            2 => &self.windows_bg2,
            3 => &self.windows_bg3,
            4 => &self.windows_bg4,
            5 => &self.windows_objects,
            _ => &self.windows_colour,
        }
    }

    /// Returns the screens that show a layer: 1 to 4 for BG1 to BG4, 5 for the objects.
    #[inline(always)]
    #[tactic(auto, unfolding(crate::specs::Picture::screens_of))]
    pub fn screens(&self, layer: u8) -> &LayerScreens
        ensures { result.now ≡ screens_of self.now layer }
    {
        match layer {
            1 => &self.screens_bg1,
            2 => &self.screens_bg2,
            3 => &self.screens_bg3,
            4 => &self.screens_bg4,
            _ => &self.screens_objects,
        }
    }
}
