//! The bits of each register that is written, register by register.
ghost use Rattle.std.specs.Prelude.{◌≡◌, ◌<◌, ◌≤◌};
ghost use Rattle.ppu_regs.specs.Pages.{display_written, object_tiles_written, oam_low_written, oam_high_written};
ghost use Rattle.ppu_regs.specs.Pages.{mode_written, mosaic_written, map_written, tiles_low_written};
ghost use Rattle.ppu_regs.specs.Pages.{tiles_high_written, scrolled_across, scrolled_down, rotation_scrolled_across};
ghost use Rattle.ppu_regs.specs.Pages.{rotation_scrolled_down, vram_step_written, rotation_settings_written};
ghost use Rattle.ppu_regs.specs.Pages.{rotation_a_written, rotation_b_written, rotation_c_written, rotation_d_written};
ghost use Rattle.ppu_regs.specs.Pages.{rotation_x_written, rotation_y_written, cgram_index_written, windows_selected};
ghost use Rattle.ppu_regs.specs.Pages.{windows_low_written, windows_high_written, windows_others_written, combine_of};
ghost use Rattle.ppu_regs.specs.Pages.{combines_written, combines_others_written, main_written, sub_written};
ghost use Rattle.ppu_regs.specs.Pages.{main_masks_written, sub_masks_written, window_part_of, colour_selected};
ghost use Rattle.ppu_regs.specs.Pages.{arithmetic_written, fixed_colour_written, settings_written};

use crate::bits::bit;
use crate::registers::{
    Background, ColourMath, Combine, Display, LayerWindows, ObjectTiles, Outside, Registers,
    Rotation, Settings, WindowPart,
};

/// Returns what two bits of 212A and 212B say.
#[inline(always)]
#[tactic(auto, unfolding(crate::specs::Pages::combine_of))]
fn combine(code: u8) -> Combine
    ensures { result ≡ combine_of code }
{
    match code {
        0 => Combine::Or,
        1 => Combine::And,
        2 => Combine::Xor,
        _ => Combine::Xnor,
    }
}

/// Returns what two bits of 2130 say.
#[inline(always)]
#[tactic(auto, unfolding(crate::specs::Pages::window_part_of))]
fn window_part(code: u8) -> WindowPart
    ensures { result ≡ window_part_of code }
{
    match code {
        0 => WindowPart::Never,
        1 => WindowPart::Outside,
        2 => WindowPart::Inside,
        _ => WindowPart::Always,
    }
}

impl Background {
    /// Writes 2107-210A BGnSC.
    #[inline(always)]
    #[tactic(auto, unfolding(crate::specs::Pages::map_written))]
    pub(crate) fn write_map(&mut self, v: u8)
        ensures { self.new ≡ map_written self.old v }
    {
        self.map_base = v as u16 / 4 * 0x400;
        self.tall = bit(v, 2);
        self.wide = bit(v, 1);
    }

    /// Writes BGnHOFS, over the byte that the scroll registers kept.
    #[inline(always)]
    #[tactic(auto, unfolding(crate::specs::Pages::scrolled_across))]
    pub(crate) fn scroll_across(&mut self, kept: u8, v: u8)
        ensures { self.new ≡ scrolled_across self.old kept v }
    {
        self.scroll_x = 256 * v as u16 + (kept / 8 * 8) as u16 + self.scroll_x / 256 % 8;
    }

    /// Writes BGnVOFS, over the byte that the scroll registers kept.
    #[inline(always)]
    #[tactic(auto, unfolding(crate::specs::Pages::scrolled_down))]
    pub(crate) fn scroll_down(&mut self, kept: u8, v: u8)
        ensures { self.new ≡ scrolled_down self.old kept v }
    {
        self.scroll_y = 256 * v as u16 + kept as u16;
    }
}

impl Rotation {
    /// Writes 210D as M7HOFS.
    #[inline(always)]
    #[tactic(auto, unfolding(crate::specs::Pages::rotation_scrolled_across))]
    pub(crate) fn scroll_across(&mut self, v: u8)
        ensures { self.new ≡ rotation_scrolled_across self.old v }
    {
        self.scroll_x = 256 * v as u16 + self.kept as u16;
        self.kept = v;
    }

    /// Writes 210E as M7VOFS.
    #[inline(always)]
    #[tactic(auto, unfolding(crate::specs::Pages::rotation_scrolled_down))]
    pub(crate) fn scroll_down(&mut self, v: u8)
        ensures { self.new ≡ rotation_scrolled_down self.old v }
    {
        self.scroll_y = 256 * v as u16 + self.kept as u16;
        self.kept = v;
    }

    /// Writes 211A M7SEL.
    #[inline(always)]
    #[tactic(auto, unfolding(crate::specs::Pages::rotation_settings_written))]
    pub(crate) fn write_settings(&mut self, v: u8)
        ensures { self.new ≡ rotation_settings_written self.old v }
    {
        self.flip_x = bit(v, 1);
        self.flip_y = bit(v, 2);
        self.outside = match v / 64 {
            2 => Outside::Nothing,
            3 => Outside::TileZero,
            _ => Outside::Wrap,
        };
    }

    /// Writes 211B M7A.
    #[inline(always)]
    #[tactic(auto, unfolding(crate::specs::Pages::rotation_a_written))]
    pub(crate) fn write_a(&mut self, v: u8)
        ensures { self.new ≡ rotation_a_written self.old v }
    {
        self.a = 256 * v as u16 + self.kept as u16;
        self.kept = v;
    }

    /// Writes 211C M7B.
    #[inline(always)]
    #[tactic(auto, unfolding(crate::specs::Pages::rotation_b_written))]
    pub(crate) fn write_b(&mut self, v: u8)
        ensures { self.new ≡ rotation_b_written self.old v }
    {
        self.b = 256 * v as u16 + self.kept as u16;
        self.kept = v;
    }

    /// Writes 211D M7C.
    #[inline(always)]
    #[tactic(auto, unfolding(crate::specs::Pages::rotation_c_written))]
    pub(crate) fn write_c(&mut self, v: u8)
        ensures { self.new ≡ rotation_c_written self.old v }
    {
        self.c = 256 * v as u16 + self.kept as u16;
        self.kept = v;
    }

    /// Writes 211E M7D.
    #[inline(always)]
    #[tactic(auto, unfolding(crate::specs::Pages::rotation_d_written))]
    pub(crate) fn write_d(&mut self, v: u8)
        ensures { self.new ≡ rotation_d_written self.old v }
    {
        self.d = 256 * v as u16 + self.kept as u16;
        self.kept = v;
    }

    /// Writes 211F M7X.
    #[inline(always)]
    #[tactic(auto, unfolding(crate::specs::Pages::rotation_x_written))]
    pub(crate) fn write_x(&mut self, v: u8)
        ensures { self.new ≡ rotation_x_written self.old v }
    {
        self.center_x = 256 * v as u16 + self.kept as u16;
        self.kept = v;
    }

    /// Writes 2120 M7Y.
    #[inline(always)]
    #[tactic(auto, unfolding(crate::specs::Pages::rotation_y_written))]
    pub(crate) fn write_y(&mut self, v: u8)
        ensures { self.new ≡ rotation_y_written self.old v }
    {
        self.center_y = 256 * v as u16 + self.kept as u16;
        self.kept = v;
    }
}

impl LayerWindows {
    /// Takes a layer's nibble of 2123-2125.
    #[inline(always)]
    #[tactic(auto, unfolding(crate::specs::Pages::windows_selected))]
    fn select(&mut self, nibble: u8)
        ensures { self.new ≡ windows_selected self.old nibble }
    {
        self.one_outside = bit(nibble, 1);
        self.one_on = bit(nibble, 2);
        self.two_outside = bit(nibble, 4);
        self.two_on = bit(nibble, 8);
    }
}

impl ColourMath {
    /// Writes 2130 CGWSEL.
    #[inline(always)]
    #[tactic(auto, unfolding(crate::specs::Pages::colour_selected))]
    pub(crate) fn select(&mut self, v: u8)
        ensures { self.new ≡ colour_selected self.old v }
    {
        self.black = window_part(v / 64);
        self.none = window_part(v / 16 % 4);
        self.sub_screen = bit(v, 2);
        self.direct = bit(v, 1);
    }

    /// Writes 2132 COLDATA.
    #[inline(always)]
    #[tactic(auto, unfolding(crate::specs::Pages::fixed_colour_written))]
    pub(crate) fn write_fixed(&mut self, v: u8)
        ensures { self.new ≡ fixed_colour_written self.old v }
    {
        let part = v % 32;
        self.blue = if bit(v, 128) { part } else { self.blue };
        self.green = if bit(v, 64) { part } else { self.green };
        self.red = if bit(v, 32) { part } else { self.red };
    }
}

impl Registers {
    /// Writes 2100 INIDISP.
    #[inline(always)]
    #[tactic(auto, unfolding(crate::specs::Pages::display_written))]
    pub(crate) fn write_display(&mut self, v: u8)
        ensures { self.new ≡ display_written self.old v }
    {
        self.display = Display {
            blanked: bit(v, 128),
            brightness: v % 16,
        };
    }

    /// Writes 2101 OBSEL.
    #[inline(always)]
    #[tactic(auto, unfolding(crate::specs::Pages::object_tiles_written))]
    pub(crate) fn write_object_tiles(&mut self, v: u8)
        ensures { self.new ≡ object_tiles_written self.old v }
    {
        self.object_tiles = ObjectTiles {
            size: v / 32,
            gap: v / 8 % 4,
            base: (v % 8) as u16 * 0x2000,
        };
    }

    /// Writes 2102 OAMADDL.
    #[inline(always)]
    #[tactic(auto, unfolding(crate::specs::Pages::oam_low_written))]
    pub(crate) fn write_oam_low(&mut self, v: u8)
        requires { self.old.oam.word < 512 }
        ensures { self.new ≡ oam_low_written self.old v }
    {
        let word = self.oam.word / 256 * 256 + v as u16;
        self.oam.word = word;
        self.oam.address = 2 * word;
    }

    /// Writes 2103 OAMADDH.
    #[inline(always)]
    #[tactic(auto, unfolding(crate::specs::Pages::oam_high_written))]
    pub(crate) fn write_oam_high(&mut self, v: u8)
        ensures { self.new ≡ oam_high_written self.old v }
    {
        let word = (v % 2) as u16 * 256 + self.oam.word % 256;
        self.oam.word = word;
        self.oam.rotates = bit(v, 128);
        self.oam.address = 2 * word;
    }

    /// Writes 2105 BGMODE.
    #[inline(always)]
    #[tactic(auto, unfolding(crate::specs::Pages::mode_written))]
    pub(crate) fn write_mode(&mut self, v: u8)
        ensures { self.new ≡ mode_written self.old v }
    {
        self.mode = v % 8;
        self.bg3_front = bit(v, 8);
        self.bg1.large = bit(v, 16);
        self.bg2.large = bit(v, 32);
        self.bg3.large = bit(v, 64);
        self.bg4.large = bit(v, 128);
    }

    /// Writes 2106 MOSAIC.
    #[inline(always)]
    #[tactic(auto, unfolding(crate::specs::Pages::mosaic_written))]
    pub(crate) fn write_mosaic(&mut self, v: u8)
        ensures { self.new ≡ mosaic_written self.old v }
    {
        self.mosaic = v / 16;
        self.bg1.mosaic = bit(v, 1);
        self.bg2.mosaic = bit(v, 2);
        self.bg3.mosaic = bit(v, 4);
        self.bg4.mosaic = bit(v, 8);
    }

    /// Writes 210B BG12NBA.
    #[inline(always)]
    #[tactic(auto, unfolding(crate::specs::Pages::tiles_low_written))]
    pub(crate) fn write_tiles_low(&mut self, v: u8)
        ensures { self.new ≡ tiles_low_written self.old v }
    {
        self.bg1.tile_base = (v % 16) as u16 * 0x1000;
        self.bg2.tile_base = (v / 16) as u16 * 0x1000;
    }

    /// Writes 210C BG34NBA.
    #[inline(always)]
    #[tactic(auto, unfolding(crate::specs::Pages::tiles_high_written))]
    pub(crate) fn write_tiles_high(&mut self, v: u8)
        ensures { self.new ≡ tiles_high_written self.old v }
    {
        self.bg3.tile_base = (v % 16) as u16 * 0x1000;
        self.bg4.tile_base = (v / 16) as u16 * 0x1000;
    }

    /// Writes 2115 VMAIN.
    #[inline(always)]
    #[tactic(auto, unfolding(crate::specs::Pages::vram_step_written))]
    pub(crate) fn write_vram_step(&mut self, v: u8)
        ensures { self.new ≡ vram_step_written self.old v }
    {
        self.vram.steps_at_high = bit(v, 128);
        self.vram.remap = v / 4 % 4;
        self.vram.step = match v % 4 {
            0 => 1,
            1 => 32,
            _ => 128,
        };
    }

    /// Writes 2121 CGADD.
    #[inline(always)]
    #[tactic(auto, unfolding(crate::specs::Pages::cgram_index_written))]
    pub(crate) fn write_cgram_index(&mut self, v: u8)
        ensures { self.new ≡ cgram_index_written self.old v }
    {
        self.cgram.index = v;
        self.cgram.high = false;
    }

    /// Writes 2123 W12SEL.
    #[inline(always)]
    #[tactic(auto, unfolding(crate::specs::Pages::windows_low_written))]
    pub(crate) fn write_windows_low(&mut self, v: u8)
        ensures { self.new ≡ windows_low_written self.old v }
    {
        self.windows_bg1.select(v % 16);
        self.windows_bg2.select(v / 16);
    }

    /// Writes 2124 W34SEL.
    #[inline(always)]
    #[tactic(auto, unfolding(crate::specs::Pages::windows_high_written))]
    pub(crate) fn write_windows_high(&mut self, v: u8)
        ensures { self.new ≡ windows_high_written self.old v }
    {
        self.windows_bg3.select(v % 16);
        self.windows_bg4.select(v / 16);
    }

    /// Writes 2125 WOBJSEL.
    #[inline(always)]
    #[tactic(auto, unfolding(crate::specs::Pages::windows_others_written))]
    pub(crate) fn write_windows_others(&mut self, v: u8)
        ensures { self.new ≡ windows_others_written self.old v }
    {
        self.windows_objects.select(v % 16);
        self.windows_colour.select(v / 16);
    }

    /// Writes 212A WBGLOG.
    #[inline(always)]
    #[tactic(auto, unfolding(crate::specs::Pages::combines_written))]
    pub(crate) fn write_combines(&mut self, v: u8)
        ensures { self.new ≡ combines_written self.old v }
    {
        self.windows_bg1.combine = combine(v % 4);
        self.windows_bg2.combine = combine(v / 4 % 4);
        self.windows_bg3.combine = combine(v / 16 % 4);
        self.windows_bg4.combine = combine(v / 64);
    }

    /// Writes 212B WOBJLOG.
    #[inline(always)]
    #[tactic(auto, unfolding(crate::specs::Pages::combines_others_written))]
    pub(crate) fn write_combines_others(&mut self, v: u8)
        ensures { self.new ≡ combines_others_written self.old v }
    {
        self.windows_objects.combine = combine(v % 4);
        self.windows_colour.combine = combine(v / 4 % 4);
    }

    /// Writes 212C TM.
    #[inline(always)]
    #[tactic(auto, unfolding(crate::specs::Pages::main_written))]
    pub(crate) fn write_main(&mut self, v: u8)
        ensures { self.new ≡ main_written self.old v }
    {
        self.screens_bg1.main = bit(v, 1);
        self.screens_bg2.main = bit(v, 2);
        self.screens_bg3.main = bit(v, 4);
        self.screens_bg4.main = bit(v, 8);
        self.screens_objects.main = bit(v, 16);
    }

    /// Writes 212D TS.
    #[inline(always)]
    #[tactic(auto, unfolding(crate::specs::Pages::sub_written))]
    pub(crate) fn write_sub(&mut self, v: u8)
        ensures { self.new ≡ sub_written self.old v }
    {
        self.screens_bg1.sub = bit(v, 1);
        self.screens_bg2.sub = bit(v, 2);
        self.screens_bg3.sub = bit(v, 4);
        self.screens_bg4.sub = bit(v, 8);
        self.screens_objects.sub = bit(v, 16);
    }

    /// Writes 212E TMW.
    #[inline(always)]
    #[tactic(auto, unfolding(crate::specs::Pages::main_masks_written))]
    pub(crate) fn write_main_masks(&mut self, v: u8)
        ensures { self.new ≡ main_masks_written self.old v }
    {
        self.screens_bg1.main_masked = bit(v, 1);
        self.screens_bg2.main_masked = bit(v, 2);
        self.screens_bg3.main_masked = bit(v, 4);
        self.screens_bg4.main_masked = bit(v, 8);
        self.screens_objects.main_masked = bit(v, 16);
    }

    /// Writes 212F TSW.
    #[inline(always)]
    #[tactic(auto, unfolding(crate::specs::Pages::sub_masks_written))]
    pub(crate) fn write_sub_masks(&mut self, v: u8)
        ensures { self.new ≡ sub_masks_written self.old v }
    {
        self.screens_bg1.sub_masked = bit(v, 1);
        self.screens_bg2.sub_masked = bit(v, 2);
        self.screens_bg3.sub_masked = bit(v, 4);
        self.screens_bg4.sub_masked = bit(v, 8);
        self.screens_objects.sub_masked = bit(v, 16);
    }

    /// Writes 2131 CGADSUB.
    #[inline(always)]
    #[tactic(auto, unfolding(crate::specs::Pages::arithmetic_written))]
    pub(crate) fn write_arithmetic(&mut self, v: u8)
        ensures { self.new ≡ arithmetic_written self.old v }
    {
        self.screens_bg1.arithmetic = bit(v, 1);
        self.screens_bg2.arithmetic = bit(v, 2);
        self.screens_bg3.arithmetic = bit(v, 4);
        self.screens_bg4.arithmetic = bit(v, 8);
        self.screens_objects.arithmetic = bit(v, 16);
        self.colour.subtract = bit(v, 128);
        self.colour.halve = bit(v, 64);
        self.colour.backdrop = bit(v, 32);
    }

    /// Writes 2133 SETINI.
    #[inline(always)]
    #[tactic(auto, unfolding(crate::specs::Pages::settings_written))]
    pub(crate) fn write_settings(&mut self, v: u8)
        ensures { self.new ≡ settings_written self.old v }
    {
        self.settings = Settings {
            extbg: bit(v, 64),
            half_dots: bit(v, 8),
            overscan: bit(v, 4),
        };
    }
}
