//! Writes to the registers that reach no memory.
ghost use Rattle.std.specs.Prelude.{◌≡◌, ◌<◌};
ghost use Rattle.ppu_regs.specs.Writes.{registers_written};

use crate::registers::Registers;

impl Registers {
    /// Writes a byte to 2100 plus `reg`, for every register that reaches no memory; at any other nothing changes.
    #[tactic(auto, unfolding(crate::specs::Writes::registers_written))]
    pub(crate) fn write(&mut self, reg: u8, v: u8)
        requires { self.old.oam.word < 512 }
        ensures { self.new ≡ registers_written self.old reg v }
    {
        match reg {
            // 2100 INIDISP
            0x00 => self.write_display(v),
            // 2101 OBSEL
            0x01 => self.write_object_tiles(v),
            // 2102 OAMADDL
            0x02 => self.write_oam_low(v),
            // 2103 OAMADDH
            0x03 => self.write_oam_high(v),
            // 2105 BGMODE
            0x05 => self.write_mode(v),
            // 2106 MOSAIC
            0x06 => self.write_mosaic(v),
            // 2107 BG1SC
            0x07 => self.bg1.write_map(v),
            // 2108 BG2SC
            0x08 => self.bg2.write_map(v),
            // 2109 BG3SC
            0x09 => self.bg3.write_map(v),
            // 210A BG4SC
            0x0a => self.bg4.write_map(v),
            // 210B BG12NBA
            0x0b => self.write_tiles_low(v),
            // 210C BG34NBA
            0x0c => self.write_tiles_high(v),
            // 210D BG1HOFS, M7HOFS
            0x0d => {
                self.bg1.scroll_across(self.scroll_kept, v);
                self.scroll_kept = v;
                self.rotation.scroll_across(v);
            }
            // 210E BG1VOFS, M7VOFS
            0x0e => {
                self.bg1.scroll_down(self.scroll_kept, v);
                self.scroll_kept = v;
                self.rotation.scroll_down(v);
            }
            // 210F BG2HOFS
            0x0f => {
                self.bg2.scroll_across(self.scroll_kept, v);
                self.scroll_kept = v;
            }
            // 2110 BG2VOFS
            0x10 => {
                self.bg2.scroll_down(self.scroll_kept, v);
                self.scroll_kept = v;
            }
            // 2111 BG3HOFS
            0x11 => {
                self.bg3.scroll_across(self.scroll_kept, v);
                self.scroll_kept = v;
            }
            // 2112 BG3VOFS
            0x12 => {
                self.bg3.scroll_down(self.scroll_kept, v);
                self.scroll_kept = v;
            }
            // 2113 BG4HOFS
            0x13 => {
                self.bg4.scroll_across(self.scroll_kept, v);
                self.scroll_kept = v;
            }
            // 2114 BG4VOFS
            0x14 => {
                self.bg4.scroll_down(self.scroll_kept, v);
                self.scroll_kept = v;
            }
            // 2115 VMAIN
            0x15 => self.write_vram_step(v),
            // 211A M7SEL
            0x1a => self.rotation.write_settings(v),
            // 211B M7A
            0x1b => self.rotation.write_a(v),
            // 211C M7B
            0x1c => self.rotation.write_b(v),
            // 211D M7C
            0x1d => self.rotation.write_c(v),
            // 211E M7D
            0x1e => self.rotation.write_d(v),
            // 211F M7X
            0x1f => self.rotation.write_x(v),
            // 2120 M7Y
            0x20 => self.rotation.write_y(v),
            // 2121 CGADD
            0x21 => self.write_cgram_index(v),
            // 2123 W12SEL
            0x23 => self.write_windows_low(v),
            // 2124 W34SEL
            0x24 => self.write_windows_high(v),
            // 2125 WOBJSEL
            0x25 => self.write_windows_others(v),
            // 2126 WH0
            0x26 => self.window_one.left = v,
            // 2127 WH1
            0x27 => self.window_one.right = v,
            // 2128 WH2
            0x28 => self.window_two.left = v,
            // 2129 WH3
            0x29 => self.window_two.right = v,
            // 212A WBGLOG
            0x2a => self.write_combines(v),
            // 212B WOBJLOG
            0x2b => self.write_combines_others(v),
            // 212C TM
            0x2c => self.write_main(v),
            // 212D TS
            0x2d => self.write_sub(v),
            // 212E TMW
            0x2e => self.write_main_masks(v),
            // 212F TSW
            0x2f => self.write_sub_masks(v),
            // 2130 CGWSEL
            0x30 => self.colour.select(v),
            // 2131 CGADSUB
            0x31 => self.write_arithmetic(v),
            // 2132 COLDATA
            0x32 => self.colour.write_fixed(v),
            // 2133 SETINI
            0x33 => self.write_settings(v),
            _ => {}
        }
    }
}
