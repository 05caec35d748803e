//! The objects (sprites) of a picture row.
//!
//! The crate depends on `ppu_regs`, `tile_cache` and `scanline_ops`. `obj_row` writes the row's dots, and
//! `obj_planes` writes them as two byte planes. Both return which of the two limits were passed: 32 objects, and 34
//! slivers of eight pixels. `gather_row` and `paint_drawn` are the halves of `obj_planes`, for a caller that paints
//! only if there is anything.
//!
//! `object_layer_dot` of `specs/Slivers.antt` defines a pixel: of the drawn slivers, the one of the earliest object
//! with a value there. `specs/Objects.antt` defines which objects are on a row.
#![tactic(auto)]

mod objects;
mod painting;
mod rows;
mod sizes;
mod slivers;

pub use objects::Object;
pub use rows::{gather_row, obj_planes, obj_row, paint_drawn};
pub use slivers::Sliver;
