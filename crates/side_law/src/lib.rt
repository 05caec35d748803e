// Machines that run by steps, and the serial console that two of them make.
//
// Builds on the plain types, on stamps (`clock_ratio`) and on the entries of the ports (`port_entries`). `Machine` is
// the trait of both halves of the console, and its laws are members that each machine proves. `Tape` is a machine for
// tests. `specs/` defines what a machine means (`Moves`), the serial machine of two of them, its runs and their output.
// `proofs/` shows how a run continues and ends. `Ports` is the trait of what is behind a machine's ports while it runs
// many steps in one call (`Machine::advance`, `specs/Gone.antt`).
//
// A caller states what a machine is by a state that its value stands for (`Machine::stands`). A constructor ensures
// one, and each call's clauses lead from it to the next. Machines that meet are of one region. Why the steps of two of
// them commute is said, and proved, above. `commute_laws` has the laws for whoever runs them apart, `run_laws` those of
// legal orders and the bounds on turns.
#![tactic(auto)]

mod beat;
mod machine;
mod ports;
mod tape;
mod waiting;

pub use beat::Beat;
pub use machine::Machine;
pub use ports::{Ports, Stop};
pub use tape::Tape;
pub use waiting::copy_waiting;
