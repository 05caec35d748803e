// What a plan of save states emits, and the trait of what plays one.
//
// Builds on the reader of plans and on the trait of what plays a job; it knows no machine. A plan goes along paths,
// keeps some and goes back to them (`specs/Paths.antt`). It emits the concatenation of its goes (`specs/Joins.antt`).
// Each is what the run of the path after it has beyond that of the path before. A `PlanPlayer` emits exactly that,
// and `measure` returns how many frames and samples it is. `docs/use/REWIND.md` has the rules.
#![tactic(auto)]

mod lengths;
mod plan_player;

pub use lengths::{Lengths, measure};
pub use plan_player::PlanPlayer;
