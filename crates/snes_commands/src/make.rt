use crate::command::Performs;
use demo_files::image;
use port_wire::Gate;
use run_io::{Asked, Form, Line, image_line};
use shelf::{Failed, Out, Shelf};
use snes_defs::NoMemory;
use std::alloc::Global;
use std::thread::Threads;

/// The command `make`: writes the image of the cartridge that a number makes.
pub struct Make;

static OUTPUTS: [Out; 1] = [Out::Image];

impl Performs for Make {
    ghost use Rattle.std.specs.Prelude.{refl};
    ghost use Rattle.snes_commands.specs.Make.{make, IsImage};

    type Inputs = ();

    type Ready = Vec<u8>;

    ghost command = { make };

    ghost is_ready = { λ order told ready. IsImage order.number ready.items };

    fn form() -> Form {
        Form {
            numbered: true,
            inputs: &[],
            optional: &[],
            count: None,
            settings: &[],
            outputs: &OUTPUTS,
        }
    }

    fn differs(_line: &Line) -> bool {
        false
    }

    fn ready(&self, alloc: Global, asked: &Asked<'_>, _inputs: ()) -> Result<Vec<u8>, NoMemory> {
        let bytes = image(alloc, asked.number)?;
        Ok(bytes)
    }

    fn fill<R: Threads, H: Shelf>(
        &self,
        _rt: &R,
        _gate: &dyn Gate,
        _asked: &Asked<'_>,
        ready: Vec<u8>,
        shelf: &mut H,
    ) -> Result<Line, Out> {
        match shelf.put(Out::Image, ready.as_slice()) {
            Ok(()) => Ok(image_line()),
            Err(Failed) => Err(Out::Image),
        }
    }

    ghost inputs_are = { refl };

    ghost outputs_apart = { refl };
}
