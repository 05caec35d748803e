// The program `snes`: makes raw frames and raw samples of a cartridge, a boot ROM, an interpolation table, a script and
// a number of frames.
//
// `snes_program::snes` does everything that the program does, and its contract is the theorem. `main` only passes it
// the arguments and the files of the system, names the console that plays a job, and ends with the exit status. It
// depends on all other crates of the program.
#![tactic(auto)]

mod messages;

use file_shelf::FileShelf;
use job_player::{Console, SoundTaker};
use messages::{say_why, say_why_no_text};
use port_wire::OpenGate;
use run_io::Argv;
use snes_commands::Status;
use snes_defs::NoMemory;
use snes_program::snes;
use standard_streams::hold_standard_streams;
use std::process::ExitCode;
use std::{env, io};

/// Returns the arguments after the program's own name, or nothing if one of them is not text.
fn words_of(rt: &HostRuntime) -> Result<Option<Argv>, NoMemory> {
    let alloc = rt.alloc();
    let args = match env::args(rt) {
        Ok(args) => args,
        Err(error) if error.kind() == io::ErrorKind::OutOfMemory => return Err(NoMemory),
        Err(_) => return Ok(None),
    };
    let Ok(given) = args.skip(1).collect::<Vec<String>>(alloc) else {
        return Err(NoMemory);
    };
    let words = Argv::of(alloc, given.as_slice())?;
    Ok(Some(words))
}

/// Passes the arguments to `snes`, and prints on standard error what its line leaves out. If an argument is not text,
/// none is passed, since none could be valid.
fn main(rt: HostRuntime) -> ExitCode {
    let _streams = hold_standard_streams(&rt);
    let Ok(given) = words_of(&rt) else {
        return ExitCode::from(Status::NoMemory.exit());
    };
    let is_text = given.is_some();
    let words = given.unwrap_or(Argv::new(rt.alloc()));
    let mut shelf = FileShelf::new(&rt);
    let status = snes::<Console, SoundTaker, _, _>(&rt, &words, &mut shelf, &OpenGate);
    let _ = if is_text {
        say_why(&rt, &words, status, shelf.first_fault())
    } else {
        say_why_no_text(&rt)
    };
    ExitCode::from(status.exit())
}
