// The words by which two threads carry the writes of the two sides to each other, without a lock.
//
// Each side has a clock word, a count word and a ring of 8,192 entry words, one for each of its last writes. A side
// alone changes its words. A write is put into its entry word, then counted, then the clock that goes with it is
// published. The other side loads the clock, then the count, then each entry that it hasn't taken. So it has all that
// is stamped before that clock. A `Whole` stands for both sides in one hand. It is cut into two passes, one for each
// side, which two threads hold, and the two are made whole again. Builds on the log of the ports, which keeps what a
// side has taken. It also builds on tables of atomic words whose steps are proved one by one.
//
// The table keeps one rule: what its words say of the two sides, and what each knows of the other. It bounds how many
// writes of a side the other has not taken, so none is overwritten before it is.
//
// A call over a pass returns what the log call of its name does, on the clock that it loaded. None is held by the other
// side, and none waits. `docs/proof/TWO-WORKERS.md` explains it.
#![tactic(auto)]

mod calls;
mod desk;
mod layout;
mod pass;
mod plays;
mod views;
mod whole;
mod whole_calls;
mod wire;
mod words;

pub use pass::Pass;
pub use whole::Whole;
pub use words::Words;
