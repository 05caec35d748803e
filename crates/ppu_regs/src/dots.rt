//! The dots that layers have on a row, before and after their colours are looked up.
ghost use Rattle.std.specs.Prelude.{◌≡◌, ◌<◌, ◌≤◌};
ghost use Rattle.ppu_regs.specs.Dots.{no_dot, dot_of, colour_of, direct_colour_of};

/// A layer's dot with its colour looked up.
#[derive(Clone, Copy, Debug, PartialEq, Eq)]
pub struct Dot {
    /// Whether the layer has anything there. If not, all else is 0.
    pub on: bool,
    /// The priority: 0 or 1 for a background, 0 to 3 for an object.
    pub prio: u8,
    /// The colour, 15 bits: red in bits 4-0, green in 9-5, blue in 14-10.
    pub colour: u16,
    /// Whether colour arithmetic may take it: false exactly for objects of the palettes 0 to 3.
    pub math: bool,
}

/// A layer's dot before its colour is looked up.
#[derive(Clone, Copy)]
pub struct LayerDot {
    /// Whether the layer has anything there: its value isn't 0.
    pub on: bool,
    /// The priority: 0 or 1 for a background, 0 to 3 for an object.
    pub priority: u8,
    /// The colour's number in CGRAM, or the value BBGGGRRR of a direct colour.
    pub number: u8,
    /// Whether the colour is direct.
    pub direct: bool,
    /// The palette of a direct colour, 0 to 7; 0 if the colour isn't direct.
    pub palette: u8,
    /// Whether colour arithmetic may take it, as in `Dot`.
    pub math: bool,
}

/// A row of 256 dots of one layer, or of the dots in front of several layers, in two byte planes.
///
/// Of two dots the one with the greater rank is in front.
#[derive(Clone, Copy)]
pub struct RankedRow {
    /// Bits 7-4: the rank, 0 if nothing is there. Bit 3: whether colour arithmetic
    /// names the dot. Bits 2-0: the palette of a direct colour.
    pub ranks: [u8; 256],
    /// The number of the colour in CGRAM, or the value of a direct colour.
    pub numbers: [u8; 256],
}

/// Returns the direct colour of a value BBGGGRRR and a palette p. Red is RRR p0 0, green GGG p1 0, blue
/// BB p2 0 0.
#[inline(always)]
#[tactic(auto, unfolding(crate::specs::Dots::direct_colour_of))]
pub fn direct_colour(value: u8, palette: u8) -> u16
    requires { palette < 8 }
    ensures colour { result ≡ direct_colour_of value palette }
    ensures small { result < 32768 }
{
    let red = 4 * (value % 8) as u16 + 2 * (palette % 2) as u16;
    let green = 4 * (value / 8 % 8) as u16 + 2 * (palette / 2 % 2) as u16;
    let blue = 8 * (value / 64) as u16 + 4 * (palette / 4) as u16;
    red + 32 * green + 1024 * blue
}

impl LayerDot {
    /// Returns the dot's colour.
    #[inline(always)]
    #[tactic(auto, unfolding(crate::specs::Dots::colour_of))]
    pub fn colour(self, cgram: &[u16; 256]) -> u16
        requires { self.palette < 8 }
        ensures { result ≡ colour_of cgram.now self }
    {
        if self.direct {
            direct_colour(self.number, self.palette)
        } else {
            cgram[self.number as usize]
        }
    }

    /// Returns the dot with its colour looked up.
    #[inline(always)]
    #[tactic(auto, unfolding(crate::specs::Dots::dot_of))]
    pub fn dot(self, cgram: &[u16; 256]) -> Dot
        requires { self.palette < 8 }
        ensures { result ≡ dot_of cgram.now self }
    {
        if !self.on {
            return Dot {
                on: false,
                prio: 0,
                colour: 0,
                math: false,
            };
        }
        Dot {
            on: true,
            prio: self.priority,
            colour: self.colour(cgram),
            math: self.math,
        }
    }
}
