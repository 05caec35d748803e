//! The registers of the windows that a picture depends on.

ghost use Rattle.std.specs.Prelude.{◌≡◌, ◌<◌, ◌≤◌};
ghost use Rattle.lint_rules.specs.Screens.{has_layer, is_masked, takes_window, is_windowed, window_bits, has_window, has_both, any_window, needs_window};

use crate::screen::{Screen, has_bit};

impl Screen {
    /// Whether the mode has a background, from 0. The plane of mode 7 is BG1, and BG2 with EXTBG.
    fn has_layer(&self, layer: u8) -> bool
        ensures { result ≡ has_layer self.now layer }
    {
        layer < self.layers_of()
            || self.mode == 7 && (layer == 0 || layer == 1 && has_bit(self.settings, 64))
    }

    /// Whether windows mask the layer of a weight in 212C to 212F on a screen that is seen.
    fn is_masked(&self, weight: u8) -> bool
        requires { 0 < weight }
        ensures { result ≡ is_masked self.now weight }
    {
        has_bit(self.main, weight) && has_bit(self.masks.main, weight)
            || self.takes_sub() && has_bit(self.sub, weight) && has_bit(self.masks.sub, weight)
    }

    /// Whether the colour window is taken: to make the main screen black, or to leave out colour math.
    fn takes_window(&self) -> bool
        ensures { result ≡ takes_window self.now }
    {
        let (black, none) = (self.select / 64, self.select / 16 % 4);
        black == 1 || black == 2 || self.math % 64 != 0 && (none == 1 || none == 2)
    }

    /// Whether windows act on one of six: BG1 to BG4 (0 to 3), the objects (4), colours (5).
    fn is_windowed(&self, number: u8) -> bool
        ensures { result ≡ is_windowed self.now number }
    {
        match number {
            0 => self.has_layer(0) && self.is_masked(1),
            1 => self.has_layer(1) && self.is_masked(2),
            2 => self.has_layer(2) && self.is_masked(4),
            3 => self.has_layer(3) && self.is_masked(8),
            4 => self.is_masked(16),
            _ => self.takes_window(),
        }
    }

    /// Returns the four bits of one of the six in 2123 to 2125.
    fn window_bits(&self, number: u8) -> u8
        ensures { result ≡ window_bits self.now number }
    {
        match number {
            0 => self.masks.first % 16,
            1 => self.masks.first / 16,
            2 => self.masks.second % 16,
            3 => self.masks.second / 16,
            4 => self.masks.third % 16,
            _ => self.masks.third / 16,
        }
    }

    /// Whether window 1 (weight 2) or window 2 (weight 8) acts on one of the six.
    fn has_window(&self, number: u8, weight: u8) -> bool
        requires { 0 < weight }
        ensures { result ≡ has_window self.now number weight }
    {
        self.is_windowed(number) && has_bit(self.window_bits(number), weight)
    }

    /// Whether both windows act on one of the six.
    fn has_both(&self, number: u8) -> bool
        ensures { result ≡ has_both self.now number }
    {
        self.has_window(number, 2) && self.has_window(number, 8)
    }

    /// Whether a window acts on anything.
    fn any_window(&self, weight: u8) -> bool
        requires { 0 < weight }
        ensures { result ≡ any_window self.now weight }
    {
        self.has_window(0, weight)
            || self.has_window(1, weight)
            || self.has_window(2, weight)
            || self.has_window(3, weight)
            || self.has_window(4, weight)
            || self.has_window(5, weight)
    }

    /// Whether the picture depends on a register of the windows, 2123 to 212B, as an offset from 2100.
    pub(crate) fn needs_window(&self, register: u8) -> bool
        ensures { result ≡ needs_window self.now register }
    {
        match register {
            0x23 => self.is_windowed(0) || self.is_windowed(1),
            0x24 => self.is_windowed(2) || self.is_windowed(3),
            0x25 => self.is_windowed(4) || self.is_windowed(5),
            0x26 | 0x27 => self.any_window(2),
            0x28 | 0x29 => self.any_window(8),
            0x2a => self.has_both(0) || self.has_both(1) || self.has_both(2) || self.has_both(3),
            0x2b => self.has_both(4) || self.has_both(5),
            _ => false,
        }
    }
}
