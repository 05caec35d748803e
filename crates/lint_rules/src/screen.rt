//! The registers of the picture unit that a picture depends on, and the backdrop of high resolution.

ghost use Rattle.std.specs.Prelude.{◌≡◌, ◌<◌};
ghost use Rattle.lint_rules.specs.Screens.{has_bit, is_fine, takes_sub, shows, layers_of, shows_layer, shows_any, shows_plane, shows_seven, moves_columns, needs_map, needs_scroll, needs_window, needs_register, unset_broken, backdrop_broken};

use crate::rule::Rule;

/// What the program has written to the registers that choose which layers have windows.
#[derive(Clone, Copy)]
pub struct Masks {
    /// 212E TMW: the layers that windows mask on the main screen.
    pub main: u8,
    /// 212F TSW: the layers that windows mask on the sub screen.
    pub sub: u8,
    /// 2123 W12SEL: bits 3-0 for BG1, 7-4 for BG2. Bit 1 turns window 1 on, bit 3 window 2.
    pub first: u8,
    /// 2124 W34SEL: the same for BG3 and BG4.
    pub second: u8,
    /// 2125 WOBJSEL: the same for the objects and the colour window.
    pub third: u8,
}

/// What the registers say that choose what is shown.
#[derive(Clone, Copy)]
pub struct Screen {
    /// 2105 bits 2-0: the mode.
    pub mode: u8,
    /// 212C TM: the layers of the main screen.
    pub main: u8,
    /// 212D TS: the layers of the sub screen.
    pub sub: u8,
    /// 2130 CGWSEL.
    pub select: u8,
    /// 2131 CGADSUB.
    pub math: u8,
    /// 2133 SETINI.
    pub settings: u8,
    /// The registers that choose which layers have windows.
    pub masks: Masks,
}

/// Whether the bit of a weight is set.
pub(crate) fn has_bit(byte: u8, weight: u8) -> bool
    requires { 0 < weight }
    ensures { result ≡ has_bit byte weight }
{
    byte / weight % 2 == 1
}

impl Screen {
    /// Whether the picture has half-pixels: mode 5 or 6, or bit 3 of 2133.
    fn is_fine(&self) -> bool
        ensures { result ≡ is_fine self.now }
    {
        self.mode == 5 || self.mode == 6 || has_bit(self.settings, 8)
    }

    /// Whether the sub screen is seen: by half-pixels, or by colour math that takes it.
    pub(crate) fn takes_sub(&self) -> bool
        ensures { result ≡ takes_sub self.now }
    {
        self.is_fine() || has_bit(self.select, 2) && self.math % 64 != 0
    }

    /// Whether the layer of a weight in 212C and 212D is on a screen that is seen.
    fn shows(&self, weight: u8) -> bool
        requires { 0 < weight }
        ensures { result ≡ shows self.now weight }
    {
        has_bit(self.main, weight) || self.takes_sub() && has_bit(self.sub, weight)
    }

    /// Whether objects are shown.
    pub fn shows_objects(&self) -> bool
        ensures { result ≡ shows self.now 16 }
    {
        self.shows(16)
    }

    /// Returns how many backgrounds of their own the mode has: mode 7 has none, its plane is another matter.
    pub(crate) fn layers_of(&self) -> u8
        ensures { result ≡ layers_of self.now.mode }
    {
        match self.mode {
            0 => 4,
            1 => 3,
            6 => 1,
            7 => 0,
            _ => 2,
        }
    }

    /// Whether the background of a number from 0 to 3 is shown, in modes 0 to 6.
    pub fn shows_layer(&self, layer: u8) -> bool
        ensures { result ≡ shows_layer self.now layer }
    {
        layer < self.layers_of()
            && match layer {
                0 => self.shows(1),
                1 => self.shows(2),
                2 => self.shows(4),
                _ => self.shows(8),
            }
    }

    /// Whether any background is shown.
    fn shows_any(&self) -> bool
        ensures { result ≡ shows_any self.now }
    {
        self.shows_layer(0) || self.shows_layer(1) || self.shows_layer(2) || self.shows_layer(3)
    }

    /// Whether mode 7 would show its plane as BG1, or as BG2 of EXTBG.
    pub fn shows_plane(&self, is_second: bool) -> bool
        ensures { result ≡ shows_plane self.now is_second }
    {
        if is_second {
            has_bit(self.settings, 64) && self.shows(2)
        } else {
            self.shows(1)
        }
    }

    /// Whether the plane of mode 7 is shown.
    pub fn shows_seven(&self) -> bool
        ensures { result ≡ shows_seven self.now }
    {
        self.mode == 7 && (self.shows_plane(false) || self.shows_plane(true))
    }

    /// Whether BG3's map has scrolls of columns that are shown (modes 2, 4 and 6).
    fn moves_columns(&self) -> bool
        ensures { result ≡ moves_columns self.now }
    {
        (self.mode == 2 || self.mode == 4 || self.mode == 6) && self.shows_any()
    }

    /// Whether the picture depends on the map of a background, 2107 + `layer`.
    fn needs_map(&self, layer: u8) -> bool
        ensures { result ≡ needs_map self.now layer }
    {
        self.shows_layer(layer) || layer == 2 && self.moves_columns()
    }

    /// Whether the picture depends on the scrolls of a background, 210D + 2 * `layer` and the next. Those of BG1 are mode 7's, too.
    fn needs_scroll(&self, layer: u8) -> bool
        ensures { result ≡ needs_scroll self.now layer }
    {
        self.needs_map(layer) || layer == 0 && self.shows_seven()
    }

    /// Whether the picture depends on a register, as an offset from 2100.
    fn needs_register(&self, register: u8) -> bool
        ensures { result ≡ needs_register self.now register }
    {
        match register {
            0x05 | 0x2c | 0x2e | 0x30 | 0x31 | 0x33 => true,
            0x01 => self.shows_objects(),
            0x06 => self.shows_any() || self.shows_seven(),
            0x07..=0x0a => self.needs_map(register - 0x07),
            0x0b => self.shows_layer(0) || self.shows_layer(1),
            0x0c => self.shows_layer(2) || self.shows_layer(3),
            0x0d..=0x14 => self.needs_scroll((register - 0x0d) / 2),
            0x1a..=0x20 => self.shows_seven(),
            0x23..=0x2b => self.needs_window(register),
            0x2d | 0x2f => self.takes_sub(),
            0x32 => self.math % 64 != 0,
            _ => false,
        }
    }
}

/// Returns the rule that is broken if a picture is shown and a register, as an offset from 2100, was never written.
///
/// Source: fullsnes, "SNES PPU Control" and the entries of the registers.
pub fn unset_rule(screen: &Screen, register: u8, is_set: bool) -> Option<Rule>
    ensures { result ≡ unset_broken screen.now register is_set }
{
    if !is_set && screen.needs_register(register) {
        Some(Rule::RegistersUnset)
    } else {
        None
    }
}

/// Returns the rule that a picture breaks whose colour 0 of CGRAM is this.
///
/// A console shows the backdrop in all half-pixels. Here the even ones have the fixed colour.
pub fn backdrop_rule(screen: &Screen, colour: u16) -> Option<Rule>
    ensures { result ≡ backdrop_broken screen.now colour }
{
    if screen.is_fine() && colour % 32_768 != 0 {
        Some(Rule::BackdropInHighResolution)
    } else {
        None
    }
}
