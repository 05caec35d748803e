ghost use Rattle.std.specs.Prelude.{◌≡◌, ◌≢◌, ◌⊎◌, [], IfSome};
ghost use Rattle.shelf.specs.declared.shelves.Input.{Input};
ghost use Rattle.shelf.specs.declared.shelves.Out.{Out};
ghost use Rattle.shelf.specs.Told.{HasRisen};
ghost use Rattle.shelf.specs.Shown.{IsPassedOver, IsKept, OnlyPuts};
ghost use Rattle.run_io.specs.Lists.{AllOf, IsOneOf};
ghost use Rattle.snes_commands.specs.declared.status.Why.{Why};
ghost use Rattle.snes_commands.specs.Loads.{EndsInputs};
ghost use Rattle.snes_commands.specs.Ends.{OnlySays, IsMade, IsLeft, IsAnswered};
ghost use Rattle.snes_commands.specs.Said.{IsSaid};
ghost use Rattle.snes_commands.specs.Status.{refusal_of};
ghost use Rattle.snes_commands.specs.Wish.{IfAsks, IsNothing};
ghost use Rattle.snes_program.specs.Commands.{asked};
ghost use Rattle.snes_program.specs.Snes.{OrNoMemory, IsEarly, IsLate, IsOver, IsDue, IsFaultBefore, AreBegun, IsClean};

use crate::call::performed;
use plan_drive::PlanPlayer;
use port_wire::Gate;
use run_drive::{StatePlayer, TurnPlayer};
use run_io::Argv;
use shelf::Shelf;
use snes_commands::Status;
use std::thread::Threads;

/// Runs the program `snes` with its arguments, and returns how it ended.
///
/// Reads the arguments, then loads and accepts the inputs of their command in their order. Allocates all memory,
/// creates the outputs in their order, fills and flushes them. Prints the line of its status at the end.
/// `specs/Commands.antt` says which commands there are, and what each makes. `P` plays jobs and plans, also for the state
/// that a run leaves. `Z` plays jobs for the sound file that is taken at their end.
///
/// Each clause is about what the shelf tells. For a shelf that tells nothing, it is about the arguments and the counts
/// alone. `NoMemory` is the one failure that no argument, input or count causes. No clause is about the gate, which
/// each of two workers passes as it starts a turn.
pub fn snes<
    P: PlanPlayer + TurnPlayer + StatePlayer,
    Z: StatePlayer,
    R: AllocGlobal + Threads,
    H: Shelf,
>(rt: &R, words: &Argv, shelf: &mut H, gate: &dyn Gate) -> Status
    // The headline: once a command is over, its inputs are accepted, and its outputs are whole under their names.
    ensures headline { IfAsks (asked P.emits P.leaves Z.leaves words.now) (λ command order. IsOver result → IsAnswered command order (H.shown shelf.old) (H.shown shelf.new) result) }

    // Completeness: if all inputs are accepted and no fault is counted, it returns Ok, unless allocation fails.
    ensures complete { IfAsks (asked P.emits P.leaves Z.leaves words.now) (λ command order. IsClean command order (H.shown shelf.old) (H.shown shelf.new) → OrNoMemory command result) }

    // Usage: if and only if the arguments are invalid.
    ensures usage { result ≡ Status.Usage → IsNothing (asked P.emits P.leaves Z.leaves words.now) }
    ensures usage_always { IsNothing (asked P.emits P.leaves Z.leaves words.now) → result ≡ Status.Usage }
    ensures formless { IsNothing (asked P.emits P.leaves Z.leaves words.now) → OnlyPuts (H.shown shelf.old) (H.shown shelf.new) Out.Say }

    // Faults: only if a count of that input's name, or of that output, rose in this call.
    ensures load_fault { IfAsks (asked P.emits P.leaves Z.leaves words.now) (λ command order. (input : Input) → result ≡ Status.LoadFault input → EndsInputs order.pairs (H.shown shelf.old) (H.shown shelf.new) command.form.inputs (Status.LoadFault input)) }
    ensures write_fault { IfAsks (asked P.emits P.leaves Z.leaves words.now) (λ command order. (out : Out) → result ≡ Status.WriteFault out → HasRisen ((H.shown shelf.old).write_faults out) ((H.shown shelf.new).write_faults out) × (IsOneOf command.form.outputs out ⊎ (out ≡ Out.Say))) }

    // Refused: only if the first input that isn't accepted is refused so; then always, except after an earlier fault.
    ensures refused { IfAsks (asked P.emits P.leaves Z.leaves words.now) (λ command order. (cause : Why) → result ≡ Status.Refused cause → EndsInputs order.pairs (H.shown shelf.old) (H.shown shelf.new) command.form.inputs (Status.Refused cause)) }
    ensures refused_always { IfAsks (asked P.emits P.leaves Z.leaves words.now) (λ command order. (cause : Why) → IsDue command order (H.shown shelf.old) cause → (result ≡ Status.Refused cause) ⊎ IsFaultBefore command order (H.shown shelf.old) result) }

    // Accepted: if the status is later than the inputs, they are accepted, and the command makes something of them.
    ensures accepted { IfAsks (asked P.emits P.leaves Z.leaves words.now) (λ command order. IsLate result → IsMade command order (H.shown shelf.old)) }

    // What is left in the outputs that the command creates, whatever the status.
    ensures untouched { IfAsks (asked P.emits P.leaves Z.leaves words.now) (λ command order. IsEarly result → OnlySays (H.shown shelf.old) (H.shown shelf.new)) }
    ensures left { IfAsks (asked P.emits P.leaves Z.leaves words.now) (λ command order. AllOf (IsLeft command order (H.shown shelf.old) (H.shown shelf.new)) command.form.outputs) }
    ensures begun { IfAsks (asked P.emits P.leaves Z.leaves words.now) (λ command order. AreBegun command order (H.shown shelf.old) (H.shown shelf.new) result) }

    // What stays the same, and what is printed.
    ensures kept { IsKept (H.shown shelf.old) (H.shown shelf.new) }
    ensures others { IfAsks (asked P.emits P.leaves Z.leaves words.now) (λ command order. (out : Out) → AllOf (λ one. one ≢ out) command.form.outputs → (out ≡ Out.Say) ⊎ IsPassedOver (H.shown shelf.old) (H.shown shelf.new) out) }
    ensures loads_none { IfAsks (asked P.emits P.leaves Z.leaves words.now) (λ command order. command.form.inputs ≡ [] → (H.shown shelf.new).load_faults ≡ (H.shown shelf.old).load_faults) }
    ensures unnamed { (H.shown shelf.new).named Out.Say ≡ (H.shown shelf.old).named Out.Say }
    ensures refusal { IfSome (refusal_of result) (IsSaid (H.shown shelf.old) (H.shown shelf.new)) }
{
    performed::<P, Z, R, H>(rt, gate, words, shelf)
}
