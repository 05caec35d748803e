ghost use Rattle.std.specs.Prelude.{◌≡◌, ℕ, List, [], true, OnOk, IfOk, IfErr, Option};
ghost use Rattle.shelf.specs.Told.{Holds, HasRisen};
ghost use Rattle.run_io.specs.Lists.{AllOf, IsOneOf};
ghost use Rattle.run_io.specs.Form.{Order, form_by, order_by, Fits};
ghost use Rattle.snes_commands.specs.Loads.{told_in};
ghost use Rattle.snes_commands.specs.Command.{Command, CanMake, HoldsWhole, HoldsFirst};
ghost use Rattle.snes_commands.specs.Ends.{are_apart, OnlyTouches};

use crate::loads::Loads;
use port_wire::Gate;
use run_io::{Asked, Form, Line};
use shelf::{Out, Shelf};
use snes_defs::NoMemory;
use std::alloc::Global;
use std::thread::Threads;

/// A command: what it does besides the arguments, loads, creations and lines that all commands share.
pub trait Performs {
    ghost use Rattle.std.specs.Prelude.{ℕ, List, Option};
    ghost use Rattle.shelf.specs.declared.shelves.Input.{Input};

    /// The inputs of the command, in their order.
    type Inputs: Loads;

    /// Everything that the command needs to fill its outputs: nothing is allocated afterwards.
    type Ready: Drop;

    // What the command is: the form of its arguments, and what it makes.
    ghost command: { Command };

    // This is ready to make what the arguments and the told bytes of the inputs ask for.
    ghost is_ready: { Order → (Input → Option (List ℕ)) → Self.Ready → Type 0 };

    /// Returns the form of its arguments.
    fn form() -> Form
        ensures { form_by result ≡ command.form };

    /// Whether the line says that what the command compares differs.
    fn differs(line: &Line) -> bool
        ensures { result ≡ command.differs line.now };

    /// Allocates everything that the command needs.
    fn ready(
        &self,
        alloc: Global,
        asked: &Asked<'_>,
        inputs: <Self::Inputs as Loads>::Value,
    ) -> Result<Self::Ready, NoMemory>
        requires { Fits command.form (order_by asked.now) }
        ensures ready { IfOk result (λ ready. (told : Input → Option (List ℕ)) → Self.Inputs.reads told inputs → is_ready (order_by asked.now) told ready) }
        ensures makes { OnOk result ((told : Input → Option (List ℕ)) → Self.Inputs.reads told inputs → CanMake command (order_by asked.now) told) };

    /// Puts what it makes to its outputs, which were created, and returns its line. Err names the output that was not
    /// written. If two workers run, each passes the gate as it starts a turn.
    fn fill<R: Threads, H: Shelf>(
        &self,
        rt: &R,
        gate: &dyn Gate,
        asked: &Asked<'_>,
        ready: Self::Ready,
        shelf: &mut H,
    ) -> Result<Line, Out>
        requires ready { is_ready (order_by asked.now) (told_in (H.shown shelf.old) asked.now.pairs.now) ready }
        requires fits { Fits command.form (order_by asked.now) }
        requires created { AllOf (λ out. Holds ((H.shown shelf.old).written out) []) command.form.outputs }
        ensures whole { IfOk result (λ line. HoldsWhole command (order_by asked.now) (told_in (H.shown shelf.old) asked.now.pairs.now) (H.shown shelf.new).written line) }
        ensures first { AllOf (HoldsFirst command (order_by asked.now) (told_in (H.shown shelf.old) asked.now.pairs.now) (H.shown shelf.new).written) command.form.outputs }
        ensures failed { IfErr result (λ out. IsOneOf command.form.outputs out × HasRisen ((H.shown shelf.old).write_faults out) ((H.shown shelf.new).write_faults out)) }
        ensures named { (H.shown shelf.new).named ≡ (H.shown shelf.old).named }
        ensures only { OnlyTouches command.form.outputs (H.shown shelf.old) (H.shown shelf.new) };

    ghost inputs_are: { command.form.inputs ≡ Self.Inputs.inputs };

    ghost outputs_apart: { are_apart command.form.outputs ≡ true };
}
