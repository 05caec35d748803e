ghost use Rattle.std.specs.Prelude.{◌≡◌, IfOk, IfErr, IfSome};
ghost use Rattle.shelf.specs.Shown.{OnlyPuts};
ghost use Rattle.run_io.specs.Line.{line_of};
ghost use Rattle.snes_commands.specs.Status.{refusal_of, refused_text};
ghost use Rattle.snes_commands.specs.Said.{IsSaid, Says};
ghost use Rattle.snes_commands.specs.Ends.{due_of};

use crate::command::Performs;
use crate::put_whole::put_whole;
use crate::status::{Status, Why};
use run_io::{
    Line, boot_refused_line, cannot_read_line, cannot_write_line, cart_refused_line,
    no_memory_line, plan_refused_line, script_refused_line, spc_no_text_line, spc_too_long_line,
    spc_too_short_line, sums_refused_line, table_refused_line, usage_line,
};
use shelf::{Out, Shelf};
use spc_player::SpcRefused;

/// Returns the line of an input that was refused.
fn refused_line(cause: Why) -> Line
    ensures { result ≡ line_of (refused_text cause) }
{
    match cause {
        Why::Cart(cause) => cart_refused_line(cause),
        Why::Boot => boot_refused_line(),
        Why::Spc(SpcRefused::TooLong) => spc_too_long_line(),
        Why::Spc(SpcRefused::TooShort) => spc_too_short_line(),
        Why::Spc(SpcRefused::NoText) => spc_no_text_line(),
        Why::Table(entry) => table_refused_line(entry),
        Why::Script(line) => script_refused_line(line),
        Why::Plan(line) => plan_refused_line(line),
        Why::Sums(line) => sums_refused_line(line),
    }
}

/// Returns the line that reports a failure. There is none for `Ok` and `Differs`, whose line is the command's own, nor for
/// a failed write of the lines themselves.
pub fn refusal_line(status: Status) -> Option<Line>
    ensures { result ≡ refusal_of status }
{
    match status {
        Status::Ok | Status::Differs => None,
        Status::Usage => Some(usage_line()),
        Status::LoadFault(input) => Some(cannot_read_line(input)),
        Status::Refused(cause) => Some(refused_line(cause)),
        Status::WriteFault(out) => cannot_write_line(out),
        Status::NoMemory => Some(no_memory_line()),
    }
}

/// Prints the line that reports a failure, and returns the status. A failed write of the line is ignored.
pub fn refuse<H: Shelf>(shelf: &mut H, status: Status) -> Status
    ensures answer { result ≡ status }
    ensures said { IfSome (refusal_of status) (IsSaid (H.shown shelf.old) (H.shown shelf.new)) }
    ensures only { OnlyPuts (H.shown shelf.old) (H.shown shelf.new) Out.Say }
{
    if let Some(line) = refusal_line(status) {
        let _ = put_whole(shelf, Out::Say, line.bytes());
    }
    status
}

/// Returns the status of a command that was done, with this line.
fn due_of<C: Performs>(line: &Line) -> Status
    ensures { result ≡ due_of C.command line.now }
{
    if C::differs(line) {
        Status::Differs
    } else {
        Status::Ok
    }
}

/// Prints how a command ended, and returns the status.
pub fn say<C: Performs, H: Shelf>(shelf: &mut H, outcome: Result<Line, Status>) -> Status
    ensures done { IfOk outcome (λ line. Says (H.shown shelf.old) (H.shown shelf.new) line (due_of C.command line) result) }
    ensures not_done { IfErr outcome (λ status. result ≡ status) }
    ensures said { IfErr outcome (λ status. IfSome (refusal_of status) (IsSaid (H.shown shelf.old) (H.shown shelf.new))) }
    ensures only { OnlyPuts (H.shown shelf.old) (H.shown shelf.new) Out.Say }
{
    match outcome {
        Ok(line) => match put_whole(shelf, Out::Say, line.bytes()) {
            Ok(()) => due_of::<C>(&line),
            Err(_) => Status::WriteFault(Out::Say),
        },
        Err(status) => refuse(shelf, status),
    }
}
