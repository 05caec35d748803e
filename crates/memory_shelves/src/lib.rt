// Two shelves in memory, which show all that they hold and were given: for tests, and for laws.
//
// Both are a `Shelf` (crate `shelf`). `SureShelf` never fails. `MemShelf` fails at the calls that a plan names.
#![tactic(auto)]

mod mem;
mod plan;
mod store;
mod sure;

pub use mem::MemShelf;
pub use plan::ShelfCall;
pub use sure::SureShelf;
