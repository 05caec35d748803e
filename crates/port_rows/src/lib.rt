// Tests of stamps, of the port log and of the passes over it, by hand-computed cases.
//
// The contracts of `clock_ratio`, `port_log` and `word_log` are proved for every call. The cases here have
// numbers from outside the code. They are the numbers of both regions, calls over passes and over a whole, and both
// wires through their trait. A thousand writes in one thread run against reads in another. The crate has no code of
// its own.
#![tactic(auto)]

#[cfg(test)]
mod cases;
#[cfg(test)]
mod clocks;
#[cfg(test)]
mod lock;
#[cfg(test)]
mod log;
#[cfg(test)]
mod passes;
#[cfg(test)]
mod threads;
#[cfg(test)]
mod wire;
#[cfg(test)]
mod words;
