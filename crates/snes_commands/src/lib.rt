// The commands of `snes`: what each does, for any player of jobs and any shelf of files.
//
// Builds on the readers of arguments and files, on the player of sound files, and on the trait `Player`. It knows no
// console: a `Player` makes one from a job and plays it. `docs/use/COMMANDS.md` describes the arguments, files and
// lines.
//
// What all commands share is in `calling`, `perform`, `loads`, `outputs` and `say`. Each command has a file of its own
// (`run`, `play`, `make`, `demo`, `rewind`, `dump`, `sound_file`, `help`), and its meaning is in `specs/`. Each kind of
// input has a file too: `cart`, `boot`, `spc`, `table`, `script`, `plan`. `snes_program` above it has the names of the
// commands. `CONTRIBUTING.md` says how to add one.
#![tactic(auto)]

mod boot;
mod calling;
mod cart;
mod check;
mod command;
mod demo;
mod dump;
mod free;
mod help;
mod job;
mod loads;
mod make;
mod mistakes;
mod outputs;
mod perform;
mod plan;
mod play;
mod put_whole;
mod rewind;
mod run;
mod say;
mod script;
mod sound_file;
mod sound_out;
mod spc;
mod status;
mod sums;
mod sums_file;
mod sums_run;
mod table;
mod tagging;

pub use calling::call;
pub use check::Check;
pub use command::Performs;
pub use demo::Demo;
pub use dump::Dump;
pub use help::{Help, Version};
pub use loads::Loads;
pub use make::Make;
pub use mistakes::explain_form;
pub use play::Play;
pub use rewind::Rewind;
pub use run::{Run, Way};
pub use say::{refusal_line, refuse};
pub use sound_file::SoundFile;
pub use status::{Status, Why};
pub use sums_run::SumsRun;
