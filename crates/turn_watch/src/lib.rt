// A gate that counts what the two workers of a run do, for tests. No contract says that a run has two workers; tests
// see it by this gate.
//
// Depends on the trait of a gate (`worker_gate`). Each worker passes the gate as it starts a turn's leg. There the
// watch notes the turn's number and the thread, and has the worker look for the other one, a bounded number of times.
// A body that is run behind this gate can't tell it from the program's, which does nothing.
//
// A thread is identified by the number that the system gives it (`/proc/thread-self`, Linux).
#![tactic(auto)]

mod counts;
mod thread_number;
mod watch;

pub use counts::Counts;
pub use watch::Watch;
