//! Passes over the 256 pixels of a picture row: what is in front, colours, brightness, dots.
//!
//! A row is a fixed array. Each pass is one loop over such arrays, and the compiler makes vector code of it. A pass
//! promises for every pixel a function of the numbers there, defined in `specs/` (`RankedPixels`, `Colours`).
//!
//! A pixel of a screen is a ranked pixel of two bytes, its key and its number. The key has the rank in bits 7-4,
//! whether arithmetic is named in bit 3, and the palette of a direct colour in bits 2-0. The number is that of a
//! colour in CGRAM, or a direct colour's byte. The crate depends on std alone, and knows neither layers nor
//! registers.
#![tactic(auto)]

mod blocks;
mod colours;
mod ranked_pixels;

pub use blocks::spread_blocks;
pub use colours::{
    dim_colour, dim_small_row, fill_dots, join_colours, look_up_direct, write_dots, write_twice,
};
pub use ranked_pixels::{any_named, choose, fill_row, is_found_key, lay, lay_unmasked};
