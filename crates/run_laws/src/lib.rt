// What else follows from the laws of two machines: which orders of steps are legal, and how many turns a run has.
//
// Builds on `commute_laws`, and has no code. `specs/` defines the moves of two sides and their legal lists, the list of
// the serial order, and the bound on turns of each region. `laws` says that every legal list leads along the serial
// run, that the serial order is one, and that the earlier side is never refused. It also bounds the turns of a run to
// the end of a number of frames. No program needs these to be proved.
#![tactic(auto)]

pub mod laws;
