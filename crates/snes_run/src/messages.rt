// The messages on standard error. Their texts are not promised, and a failed write of one is ignored.
use file_shelf::Cause;
use job_player::{Console, SoundTaker};
use run_io::{Argv, Line, Mistake, input_given, output_given};
use shelf::Out;
use snes_commands::{Status, refusal_line};
use snes_program::explain;
use std::io;

/// Returns a line without its end, as text.
fn text_of(line: &Line) -> &str {
    match std::str::from_utf8(line.bytes()) {
        Ok(text) => text.trim_end(),
        Err(_) => "",
    }
}

/// Prints what is wrong with a command line, and where to read more.
fn tell_mistake(rt: &HostRuntime, mistake: &Mistake<'_>) -> io::Result<()> {
    eprintln!(rt; "snes: {mistake}")?;
    eprintln!(rt;
        "snes: the commands are run, serial, lockless, play, make, demo, rewind, sums, check, dump and spc; snes --help says more"
    )
}

/// Prints that an argument is not text.
pub fn say_why_no_text(rt: &HostRuntime) -> io::Result<()> {
    eprintln!(rt; "snes: an argument is not UTF-8")
}

/// Prints which file a failure is about, and why it failed.
fn tell_file(rt: &HostRuntime, name: &str, status: Status, cause: Option<Cause>) -> io::Result<()> {
    let Some(line) = refusal_line(status) else {
        return Ok(());
    };
    let text = text_of(&line);
    match cause {
        Some(cause) => eprintln!(rt; "snes: {name:?}: {text}: {cause}"),
        None => eprintln!(rt; "snes: {name:?}: {text}"),
    }
}

/// Prints what the line on standard output leaves out of a failure.
pub fn say_why(
    rt: &HostRuntime,
    words: &Argv,
    status: Status,
    cause: Option<Cause>,
) -> io::Result<()> {
    match status {
        Status::Ok | Status::Differs => Ok(()),
        Status::Usage => match explain::<Console, SoundTaker>(words) {
            Some(mistake) => tell_mistake(rt, &mistake),
            None => Ok(()),
        },
        Status::LoadFault(input) => tell_file(rt, input_given(words.all(), input), status, cause),
        Status::Refused(why) => {
            tell_file(rt, input_given(words.all(), why.input()), status, None)
        }
        Status::WriteFault(Out::Say) => match cause {
            Some(cause) => eprintln!(rt; "snes: standard output: {cause}"),
            None => Ok(()),
        },
        Status::WriteFault(out) => tell_file(rt, output_given(words.all(), out), status, cause),
        Status::NoMemory => eprintln!(rt; "snes: no memory"),
    }
}
