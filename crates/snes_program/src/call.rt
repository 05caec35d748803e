ghost use Rattle.snes_commands.specs.Ends.{EndsWish};
ghost use Rattle.snes_program.specs.Commands.{asked_by, asked};

use plan_drive::PlanPlayer;
use port_wire::Gate;
use run_drive::{StatePlayer, TurnPlayer};
use run_io::{Argv, Word};
use shelf::Shelf;
use snes_commands::{
    Check, Demo, Dump, Help, Make, Play, Rewind, Run, SoundFile, Status, SumsRun, Version, Way,
    call, refuse,
};
use std::thread::Threads;

/// Calls the command of this name. THE COMMANDS are listed here, and in `asked_by`.
#[tactic(auto, unfolding(crate::specs::Commands::asked_by))]
fn call_named<
    P: PlanPlayer + TurnPlayer + StatePlayer,
    Z: StatePlayer,
    R: AllocGlobal + Threads,
    H: Shelf,
>(rt: &R, gate: &dyn Gate, name: &str, words: &[Word], shelf: &mut H) -> Status
    ensures { EndsWish (asked_by P.emits P.leaves Z.leaves name.now words.now) (H.shown shelf.old) (H.shown shelf.new) result }
{
    if name == "run" {
        return call(&Run::<P>::by(Way::Turns), rt, gate, words, shelf);
    }
    if name == "serial" {
        return call(&Run::<P>::by(Way::Serial), rt, gate, words, shelf);
    }
    if name == "lockless" {
        return call(&Run::<P>::by(Way::Words), rt, gate, words, shelf);
    }
    if name == "play" {
        return call(&Play, rt, gate, words, shelf);
    }
    if name == "make" {
        return call(&Make, rt, gate, words, shelf);
    }
    if name == "demo" {
        return call(&Demo::<P>::new(), rt, gate, words, shelf);
    }
    if name == "rewind" {
        return call(&Rewind::<P>::new(), rt, gate, words, shelf);
    }
    if name == "sums" {
        return call(&SumsRun::<P>::new(), rt, gate, words, shelf);
    }
    if name == "check" {
        return call(&Check::<P>::new(), rt, gate, words, shelf);
    }
    if name == "dump" {
        return call(&Dump::<P>::new(), rt, gate, words, shelf);
    }
    if name == "spc" {
        return call(&SoundFile::<Z>::new(), rt, gate, words, shelf);
    }
    if name == "--help" {
        return call(&Help, rt, gate, words, shelf);
    }
    if name == "-h" {
        return call(&Help, rt, gate, words, shelf);
    }
    if name == "--version" {
        return call(&Version, rt, gate, words, shelf);
    }
    refuse(shelf, Status::Usage)
}

/// Performs the command that the arguments ask for, prints how it ended, and returns the status.
#[tactic(auto, using(snes_commands::proofs::Ending::reads))]
pub(crate) fn performed<
    P: PlanPlayer + TurnPlayer + StatePlayer,
    Z: StatePlayer,
    R: AllocGlobal + Threads,
    H: Shelf,
>(rt: &R, gate: &dyn Gate, words: &Argv, shelf: &mut H) -> Status
    ensures { EndsWish (asked P.emits P.leaves Z.leaves words.now) (H.shown shelf.old) (H.shown shelf.new) result }
{
    match words.all().split_first() {
        Some((name, words)) => call_named::<P, Z, R, H>(rt, gate, name.text(), words, shelf),
        None => refuse(shelf, Status::Usage),
    }
}
