ghost use Rattle.std.specs.Prelude.{IfOk, IfErr};
ghost use Rattle.run_io.specs.Form.{order_by, Fits};
ghost use Rattle.snes_commands.specs.Ends.{IsDone, EndsShort, OnlyCommanded};

use crate::command::Performs;
use crate::loads::Loads;
use crate::outputs::{create_all, flush_all};
use crate::status::Status;
use port_wire::Gate;
use run_io::{Asked, Line};
use shelf::Shelf;
use std::thread::Threads;

/// Performs a command, and returns the line to print.
///
/// Loads and accepts its inputs in their order, allocates all memory, and creates its outputs in their order. Then it
/// fills and flushes them. Err is the status if this was not done.
pub fn perform<C: Performs, R: AllocGlobal + Threads, H: Shelf>(
    command: &C,
    rt: &R,
    gate: &dyn Gate,
    asked: &Asked<'_>,
    shelf: &mut H,
) -> Result<Line, Status>
    requires { Fits C.command.form (order_by asked.now) }
    ensures done { IfOk result (IsDone C.command (order_by asked.now) (H.shown shelf.old) (H.shown shelf.new)) }
    ensures ends { IfErr result (EndsShort C.command (order_by asked.now) (H.shown shelf.old) (H.shown shelf.new)) }
    ensures only { OnlyCommanded C.command (H.shown shelf.old) (H.shown shelf.new) }
{
    let alloc = rt.alloc();
    let inputs = C::Inputs::load(alloc, asked.pairs, shelf)?;
    let Ok(ready) = command.ready(alloc, asked, inputs) else {
        return Err(Status::NoMemory);
    };
    let outputs = C::form().outputs;
    if let Err(out) = create_all(shelf, asked, outputs) {
        return Err(Status::WriteFault(out));
    }
    let line = match command.fill(rt, gate, asked, ready, shelf) {
        Ok(line) => line,
        Err(out) => return Err(Status::WriteFault(out)),
    };
    match flush_all(shelf, outputs) {
        Ok(()) => Ok(line),
        Err(out) => Err(Status::WriteFault(out)),
    }
}
