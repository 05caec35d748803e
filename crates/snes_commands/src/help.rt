ghost use Rattle.std.specs.Prelude.{◌≡◌};
ghost use Rattle.run_io.specs.Form.{form_by};
ghost use Rattle.snes_commands.specs.Help.{text_form};

use crate::command::Performs;
use port_wire::Gate;
use run_io::{Asked, Form, Line, help_line, version_line};
use shelf::{Out, Shelf};
use snes_defs::NoMemory;
use std::alloc::Global;
use std::thread::Threads;

/// The command `--help`: prints the help.
pub struct Help;

/// The command `--version`: prints the version.
pub struct Version;

/// Returns the form of a command without arguments.
fn no_words() -> Form
    ensures { form_by result ≡ text_form }
{
    Form {
        numbered: false,
        inputs: &[],
        optional: &[],
        count: None,
        settings: &[],
        outputs: &[],
    }
}

impl Performs for Help {
    ghost use Rattle.std.specs.Prelude.{refl};
    ghost use Rattle.snes_commands.specs.Help.{help};

    type Inputs = ();

    type Ready = ();

    ghost command = { help };

    ghost is_ready = { λ order told ready. Unit {0} };

    fn form() -> Form {
        no_words()
    }

    fn differs(_line: &Line) -> bool {
        false
    }

    fn ready(&self, _alloc: Global, _asked: &Asked<'_>, _inputs: ()) -> Result<(), NoMemory> {
        Ok(())
    }

    fn fill<R: Threads, H: Shelf>(
        &self,
        _rt: &R,
        _gate: &dyn Gate,
        _asked: &Asked<'_>,
        _ready: (),
        _shelf: &mut H,
    ) -> Result<Line, Out> {
        Ok(help_line())
    }

    ghost inputs_are = { refl };

    ghost outputs_apart = { refl };
}

impl Performs for Version {
    ghost use Rattle.std.specs.Prelude.{refl};
    ghost use Rattle.snes_commands.specs.Help.{version};

    type Inputs = ();

    type Ready = ();

    ghost command = { version };

    ghost is_ready = { λ order told ready. Unit {0} };

    fn form() -> Form {
        no_words()
    }

    fn differs(_line: &Line) -> bool {
        false
    }

    fn ready(&self, _alloc: Global, _asked: &Asked<'_>, _inputs: ()) -> Result<(), NoMemory> {
        Ok(())
    }

    fn fill<R: Threads, H: Shelf>(
        &self,
        _rt: &R,
        _gate: &dyn Gate,
        _asked: &Asked<'_>,
        _ready: (),
        _shelf: &mut H,
    ) -> Result<Line, Out> {
        Ok(version_line())
    }

    ghost inputs_are = { refl };

    ghost outputs_apart = { refl };
}
