// The program `snes`: which command its words ask for, and the one call that `main` makes.
//
// The contract of `snes` (`top`) is the theorem: it holds for any player of jobs and any shelf of files. `call` has the
// commands by their names, and `mistakes` says what is wrong in words that ask for none. `snes_commands` has what each
// command does.
#![tactic(auto)]

mod call;
mod mistakes;
mod top;

pub use mistakes::explain;
pub use top::snes;
