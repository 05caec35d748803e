use snes_defs::Profile;

/// The part of a row, seen from a window, in which something holds: the two-bit codes 0 to 3 of 2130 CGWSEL.
#[derive(Clone, Copy)]
pub enum WindowPart {
    /// Nowhere (code 0).
    Never,
    /// Outside of the window (code 1).
    Outside,
    /// Inside the window (code 2).
    Inside,
    /// Everywhere (code 3).
    Always,
}

/// The way in which a layer joins its two windows: the two-bit codes 0 to 3 of 212A WBGLOG and 212B WOBJLOG.
#[derive(Clone, Copy)]
pub enum Combine {
    /// In one of them at least (code 0).
    Or,
    /// In both (code 1).
    And,
    /// In exactly one (code 2).
    Xor,
    /// In both or in none (code 3).
    Xnor,
}

/// The pixels outside of mode 7's plane of 1,024 by 1,024: codes 0 to 3 of bits 7-6 of 211A M7SEL.
#[derive(Clone, Copy)]
pub enum Outside {
    /// The plane again (codes 0 and 1).
    Wrap,
    /// No pixel (code 2).
    Nothing,
    /// Tile 0, repeated (code 3).
    TileZero,
}

/// The display register, 2100 INIDISP.
#[derive(Clone, Copy)]
pub struct Display {
    /// Bit 7: forced blank.
    pub blanked: bool,
    /// Bits 3-0: brightness, 0 black to 15 full.
    pub brightness: u8,
}

/// The sizes and the tiles of the objects, 2101 OBSEL.
#[derive(Clone, Copy)]
pub struct ObjectTiles {
    /// Bits 7-5: size code, 0 to 7.
    pub size: u8,
    /// Bits 4-3: the gap, 0 to 3. Table 1 begins `(gap + 1) * 1000h` words after the base.
    pub gap: u8,
    /// Bits 2-0: base as a word address in VRAM, 2000h words a step.
    pub base: u16,
}

/// The port to OAM: 2102 OAMADDL, 2103 OAMADDH, and the byte that 2104 OAMDATA keeps.
#[derive(Clone, Copy)]
pub struct OamPort {
    /// The word address as written, 9 bits.
    pub word: u16,
    /// 2103 bit 7: the first object is the one in bits 7-1 of `word`.
    pub rotates: bool,
    /// The byte address that 2104 and 2138 use next, 10 bits.
    pub address: u16,
    /// The byte last written to an even address below 200h.
    pub kept: u8,
}

/// The registers of one background, BG1 to BG4.
#[derive(Clone, Copy)]
pub struct Background {
    /// 2105 BGMODE bits 4-7: tiles of 16 pixels.
    pub large: bool,
    /// 2106 MOSAIC bits 0-3: mosaic on.
    pub mosaic: bool,
    /// 2107-210A BGnSC bits 7-2: the map's base as a word address, 400h words a step.
    pub map_base: u16,
    /// BGnSC bit 0: the map is 64 tiles wide.
    pub wide: bool,
    /// BGnSC bit 1: the map is 64 tiles high.
    pub tall: bool,
    /// 210B BG12NBA, 210C BG34NBA: the tiles' base as a word address, 1000h words a step.
    pub tile_base: u16,
    /// 210D, 210F, 2111, 2113 BGnHOFS: the scroll to the right, 16 bits made by two writes. The low ten are used.
    pub scroll_x: u16,
    /// 210E, 2110, 2112, 2114 BGnVOFS: the scroll downwards, 16 bits made by two writes. The low ten are used.
    pub scroll_y: u16,
}

/// The registers of mode 7: 211A M7SEL, 211B-2120 M7A to M7Y, and 210D, 210E as M7HOFS, M7VOFS.
#[derive(Clone, Copy)]
pub struct Rotation {
    /// 211A bit 0: turned over left to right.
    pub flip_x: bool,
    /// 211A bit 1: turned over top to bottom.
    pub flip_y: bool,
    /// 211A bits 7-6: the pixels outside of the plane.
    pub outside: Outside,
    /// 211B M7A, signed 16 bits, 8 of them below the point.
    pub a: u16,
    /// 211C M7B, as M7A. Its high byte, signed, is the second factor of 2134-2136.
    pub b: u16,
    /// 211D M7C, as M7A.
    pub c: u16,
    /// 211E M7D, as M7A.
    pub d: u16,
    /// 211F M7X: the centre's X, of which the low 13 bits, signed, are used.
    pub center_x: u16,
    /// 2120 M7Y: the centre's Y, 13 bits as M7X.
    pub center_y: u16,
    /// 210D M7HOFS: the scroll to the right, 13 bits as M7X.
    pub scroll_x: u16,
    /// 210E M7VOFS: the scroll downwards, 13 bits as M7X.
    pub scroll_y: u16,
    /// The byte last written to any of these except 211A.
    pub kept: u8,
}

/// The port to VRAM: 2115 VMAIN, 2116 VMADDL, 2117 VMADDH, and the word that 2139 and 213A read.
#[derive(Clone, Copy)]
pub struct VramPort {
    /// 2115 bit 7: the address steps after the high byte, 2119 and 213A, and not after the low one.
    pub steps_at_high: bool,
    /// 2115 bits 3-2: remap 0 to 3.
    pub remap: u8,
    /// 2115 bits 1-0: the number of words by which the address steps, 1, 32, 128 or 128.
    pub step: u16,
    /// The word address, 16 bits, before the remap.
    pub address: u16,
    /// The word that was fetched ahead.
    pub fetched: u16,
}

/// The port to CGRAM: 2121 CGADD, and the order of 2122 CGDATA and 213B RDCGRAM.
#[derive(Clone, Copy)]
pub struct CgramPort {
    /// The number of the colour.
    pub index: u8,
    /// Whether the next byte is the high one.
    pub high: bool,
    /// The low byte last written to 2122.
    pub kept: u8,
}

/// A window from its left to its right pixel, both included: 2126, 2127 WH0, WH1 or 2128, 2129 WH2, WH3.
#[derive(Clone, Copy)]
pub struct Window {
    /// The first pixel, 2126 or 2128.
    pub left: u8,
    /// The last pixel, 2127 or 2129.
    pub right: u8,
}

/// One layer's use of the two windows: four bits of 2123 W12SEL, 2124 W34SEL or 2125 WOBJSEL, and two of
/// 212A WBGLOG or 212B WOBJLOG.
#[derive(Clone, Copy)]
pub struct LayerWindows {
    /// Bit 0: window 1 counts outside.
    pub one_outside: bool,
    /// Bit 1: window 1 is on.
    pub one_on: bool,
    /// Bit 2: window 2 counts outside.
    pub two_outside: bool,
    /// Bit 3: window 2 is on.
    pub two_on: bool,
    /// The layer's two bits of 212A or 212B: how both windows are joined.
    pub combine: Combine,
}

/// The screens that show one layer. Bits 0-3 of each register are BG1 to BG4, bit 4 the objects.
#[derive(Clone, Copy)]
pub struct LayerScreens {
    /// 212C TM: on the main screen.
    pub main: bool,
    /// 212D TS: on the sub screen.
    pub sub: bool,
    /// 212E TMW: on the main screen masked by its windows.
    pub main_masked: bool,
    /// 212F TSW: on the sub screen masked by its windows.
    pub sub_masked: bool,
    /// 2131 CGADSUB: takes part in colour arithmetic.
    pub arithmetic: bool,
}

/// The settings of colour arithmetic: 2130 CGWSEL, 2131 CGADSUB bits 7-5, 2132 COLDATA.
#[derive(Clone, Copy)]
pub struct ColourMath {
    /// 2130 bits 7-6: where the main screen is black, by the colour window.
    pub black: WindowPart,
    /// 2130 bits 5-4: where no arithmetic is done, by the colour window.
    pub none: WindowPart,
    /// 2130 bit 1: the other operand is the sub screen.
    pub sub_screen: bool,
    /// 2130 bit 0: colours of 8-bit layers are direct, in modes 3, 4 and 7.
    pub direct: bool,
    /// 2131 bit 7: subtract instead of add.
    pub subtract: bool,
    /// 2131 bit 6: halve.
    pub halve: bool,
    /// 2131 bit 5: the backdrop takes part.
    pub backdrop: bool,
    /// 2132: the fixed colour's red, 0 to 31.
    pub red: u8,
    /// 2132: the fixed colour's green, 0 to 31.
    pub green: u8,
    /// 2132: the fixed colour's blue, 0 to 31.
    pub blue: u8,
}

/// The picture's settings, 2133 SETINI.
#[derive(Clone, Copy)]
pub struct Settings {
    /// Bit 6: mode 7 has a second layer (EXTBG).
    pub extbg: bool,
    /// Bit 3: half dots.
    pub half_dots: bool,
    /// Bit 2: 239 lines instead of 224.
    pub overscan: bool,
}

/// The place of the beam that 2137 SLHV keeps, and the orders in which 213C OPHCT and 213D OPVCT give it.
#[derive(Clone, Copy)]
pub struct Counters {
    /// The H counter, a quarter of the line clock.
    pub h: u16,
    /// The V counter, which is the line.
    pub v: u16,
    /// Whether a place was kept since 213F was last read.
    pub latched: bool,
    /// Whether 213C gives the high byte next.
    pub h_high: bool,
    /// Whether 213D gives the high byte next.
    pub v_high: bool,
}

/// The limits of the objects of a row that were passed.
#[derive(Clone, Copy)]
pub struct Over {
    /// More than 32 objects were on a row.
    pub range: bool,
    /// More than 34 slivers of eight pixels were on a row.
    pub time: bool,
}

/// All registers of the PPU, 2100 to 213F. What is kept for each layer is a small struct of its own, so that
/// the code of a layer is written once.
#[derive(Clone, Copy)]
pub struct Registers {
    /// 2100 INIDISP.
    pub display: Display,
    /// 2101 OBSEL.
    pub object_tiles: ObjectTiles,
    /// 2102 to 2104, the port to OAM.
    pub oam: OamPort,
    /// 2105 BGMODE bits 2-0: the mode, 0 to 7.
    pub mode: u8,
    /// 2105 bit 3: BG3's tiles with priority are in front of all, in mode 1.
    pub bg3_front: bool,
    /// 2106 MOSAIC bits 7-4: the size of a mosaic block less 1, 0 to 15.
    pub mosaic: u8,
    /// The registers of BG1.
    pub bg1: Background,
    /// The registers of BG2.
    pub bg2: Background,
    /// The registers of BG3.
    pub bg3: Background,
    /// The registers of BG4.
    pub bg4: Background,
    /// The byte last written to any of 210D-2114.
    pub scroll_kept: u8,
    /// The registers of mode 7.
    pub rotation: Rotation,
    /// 2115 to 2119, 2139 and 213A, the port to VRAM.
    pub vram: VramPort,
    /// 2121, 2122 and 213B, the port to CGRAM.
    pub cgram: CgramPort,
    /// Window 1.
    pub window_one: Window,
    /// Window 2.
    pub window_two: Window,
    /// BG1's use of the windows.
    pub windows_bg1: LayerWindows,
    /// BG2's use of the windows.
    pub windows_bg2: LayerWindows,
    /// BG3's use of the windows.
    pub windows_bg3: LayerWindows,
    /// BG4's use of the windows.
    pub windows_bg4: LayerWindows,
    /// The objects' use of the windows.
    pub windows_objects: LayerWindows,
    /// The colour window.
    pub windows_colour: LayerWindows,
    /// The screens that show BG1.
    pub screens_bg1: LayerScreens,
    /// The screens that show BG2.
    pub screens_bg2: LayerScreens,
    /// The screens that show BG3.
    pub screens_bg3: LayerScreens,
    /// The screens that show BG4.
    pub screens_bg4: LayerScreens,
    /// The screens that show the objects.
    pub screens_objects: LayerScreens,
    /// 2130 to 2132, the settings of colour arithmetic.
    pub colour: ColourMath,
    /// 2133 SETINI.
    pub settings: Settings,
    /// The place of the beam that 2137 SLHV keeps.
    pub counters: Counters,
    /// The limits of the objects that were passed in this frame, 213E STAT77 bits 7-6.
    pub over: Over,
    /// The profile whose rules the picture follows. No write changes it.
    pub profile: Profile,
}
