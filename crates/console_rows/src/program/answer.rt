use job_player::{Console, SoundTaker};
use port_wire::Gate;
use run_io::Argv;
use shelf::Shelf;
use snes_commands::Status;
use snes_program::snes;
use std::thread::Threads;

/// Calls the program with arguments over a shelf, with this gate for its workers, and returns its status. It is the
/// only function here that names the console.
pub fn answer<R: AllocGlobal + Threads, H: Shelf>(
    rt: &R,
    gate: &dyn Gate,
    words: &Argv,
    shelf: &mut H,
) -> Status {
    snes::<Console, SoundTaker, _, H>(rt, words, shelf, gate)
}
