ghost use Rattle.run_io.specs.Form.{order_by, Fits};
ghost use Rattle.snes_commands.specs.Wish.{asks};
ghost use Rattle.snes_commands.specs.Ends.{EndsCall, EndsWish};

use crate::command::Performs;
use crate::perform::perform;
use crate::say::{refuse, say};
use crate::status::Status;
use port_wire::Gate;
use run_io::{Asked, Word, read_form};
use shelf::Shelf;
use std::thread::Threads;

/// Performs a command, prints how it ended, and returns the status.
fn commanded<C: Performs, R: AllocGlobal + Threads, H: Shelf>(
    command: &C,
    rt: &R,
    gate: &dyn Gate,
    asked: &Asked<'_>,
    shelf: &mut H,
) -> Status
    requires { Fits C.command.form (order_by asked.now) }
    ensures { EndsCall C.command (order_by asked.now) (H.shown shelf.old) (H.shown shelf.new) result }
{
    let outcome = perform(command, rt, gate, asked, shelf);
    say::<C, H>(shelf, outcome)
}

/// Reads the arguments after a command's name by its form, and performs the command.
#[tactic(auto, using(crate::proofs::Ending::reads))]
pub fn call<C: Performs, R: AllocGlobal + Threads, H: Shelf>(
    command: &C,
    rt: &R,
    gate: &dyn Gate,
    words: &[Word],
    shelf: &mut H,
) -> Status
    ensures { EndsWish (asks C.command words.now) (H.shown shelf.old) (H.shown shelf.new) result }
{
    match read_form(&C::form(), words) {
        Some(asked) => commanded(command, rt, gate, &asked, shelf),
        None => refuse(shelf, Status::Usage),
    }
}
