// The log of port writes, and the lock by which both workers share it.
//
// The log, with which each side can run ahead of the other, is a plain data structure (`port_log.rt`, `incoming.rt`).
// For each side it keeps the clock that the side has published, which promises that each of its later steps is not
// before that stamp. It keeps the writes of the other side that this side doesn't see at that clock yet. For each of
// its incoming ports it keeps what the earlier writes left there. Builds on the plain types, the numbers of the
// regions, and the definitions of entries, last value and window.
//
// A log stands for the two whole lists of writes and clears, by a relation that callers use as it is. Each call returns
// by the lists and the two clocks. A read gives the last value at its stamp, whatever order the two sides' calls came
// in. It is refused exactly when the other side may still write something that it would have to see. A write is refused
// exactly when it lies past the window. A refused call changes nothing. `new` allocates all memory, and no buffer is
// ever full.
//
// `Ports` has the log under a lock of one word and one slot. No call waits for it: each tries once to take it. A
// `Whole` stands for both sides in one hand. It is cut into two passes, one for each side, which two threads hold, and
// the two are made whole again. This builds on the log, and on tables of atomic words whose steps are proved one by
// one.
//
// Two tables keep two rules, each by itself. The lock table says who has the log. The list table says that there is one
// book of both sides' entries and clocks, and that what a pass knows is in the book. The log is in the slot next to a
// note that knows the book, and stands for its lists.
//
// A call over a pass returns what the log call of its name does, on what the pass was given in this call. Or it finds
// the other side's number in the turn word and changes nothing. `docs/proof/TWO-WORKERS.md` explains it in full.
#![tactic(auto)]

mod event;
mod incoming;
mod kept;
mod late;
mod lateness;
mod pass;
mod plays;
mod port_log;
mod ports;
mod seats;
mod seen;
mod views;
mod whole;
mod whole_calls;
mod wire;
mod written;

pub use late::Late;
pub use pass::Pass;
pub use port_log::PortLog;
pub use ports::Ports;
pub use whole::Whole;
