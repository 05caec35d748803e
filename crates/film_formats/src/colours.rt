ghost use Rattle.std.specs.Prelude.{◌≡◌, ◌+◌, ◌*◌, ◌/◌, ◌<◌};

/// A colour of 24 bits.
#[derive(Clone, Copy)]
pub struct Colour {
    /// Red, 8 bits.
    pub red: u8,
    /// Green, 8 bits.
    pub green: u8,
    /// Blue, 8 bits.
    pub blue: u8,
}

/// A channel of 5 bits widened to 8.
#[inline(always)]
fn widened_channel(channel: u16) -> u8
    requires { channel < 32 }
    ensures { result ≡ 8 * channel + channel / 4 }
{
    (8 * channel + channel / 4) as u8
}

impl Colour {
    ghost use Rattle.film_formats.specs.Colours.{colour_of};

    /// The colour of a dot: 15 bits, red in bits 0 to 4, green in 5 to 9, blue in 10 to 14. Each channel's top
    /// three bits are repeated below its five.
    #[inline(always)]
    pub fn of_dot(dot: u16) -> Colour
        ensures { result ≡ colour_of dot }
    {
        Colour {
            red: widened_channel(dot % 32),
            green: widened_channel(dot / 32 % 32),
            blue: widened_channel(dot / 1024 % 32),
        }
    }
}
