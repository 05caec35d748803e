// Tests of two machines by turns on two threads against the serial run of the same two, and of turns of the serial
// console.
//
// What a turn and a run by turns do is proved in `pair_run` and `turn_drive`. The tests here run them: tapes of a fixed
// generator, each in a thread of its own, over the ports under their lock and over words without one. What they emitted
// is compared with what the serial console makes of the same tapes. `order` compares the order in which the serial run
// passes on what two machines emit with the order of a caller that drains both after each turn. The machines are those of
// `emitter`, the only code that is no test.
#![tactic(auto)]

#[cfg(test)]
mod dice;
pub mod emitter;
#[cfg(test)]
mod order;
#[cfg(test)]
mod rows;
#[cfg(test)]
mod runs;
#[cfg(test)]
mod serial;
#[cfg(test)]
mod sums;
#[cfg(test)]
mod tapes;
