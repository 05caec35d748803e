// Runs of two machines by turns, on two workers, from their start to an end stamp, and the bytes that they
// emit on the way.
//
// Builds on the turn of two machines (`pair_run`), on what carries their entries (`port_wire`), and on the sink of
// `run_drive`. The run is generic over all four, and over the gate that each worker reports to. The order of what the
// two workers do between two meetings is open. The laws of `commute_laws` turn it into steps of the serial run. So
// the sink takes the bytes that `run_serial` passes it, whatever the workers' order was.
//
// A caller has made both machines, the wire with its whole, and the buffer. `docs/proof/RUNS.md` has the rules.
#![tactic(auto)]

mod both;
mod ends;
mod turn_run;

pub use turn_run::run_turns;
