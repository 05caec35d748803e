//! The two screens of a picture row: from the layers' planes to 512 dots.
//!
//! The crate depends on `ppu_regs`, `color_window` and `scanline_ops`. A caller begins with `start`, lays the planes
//! of each layer on both screens with `lay_layer`, in any order, and ends with `finish`. The rank bytes of the planes
//! come from `base`, by the order of the layers in the mode (`specs/Order.antt`). `specs/Screens.antt` defines what
//! each call does at a pixel.
#![tactic(auto)]

mod dots;
mod fronts;
mod order;

pub use dots::{backdrop_colour, finish};
pub use fronts::{lay_layer, start};
pub use order::{base, rank};
