use crate::loads::{Loads, fetch};
use crate::status::{Status, Why};
use input_files::{ScriptEnd, read_script};
use run_io::Word;
use shelf::{Input, Shelf};
use snes_defs::Spans;
use std::alloc::Global;

/// The controller script: at most 1,048,576 bytes.
pub struct ScriptFile;

impl Loads for ScriptFile {
    ghost use Rattle.std.specs.Prelude.{[], ◌∷◌, IfSome};
    ghost use Rattle.shelf.specs.declared.shelves.Input.TheVariants as input;
    ghost use Rattle.snes_commands.specs.Kinds.{IsScriptIn};

    type Value = Spans;

    ghost inputs = { input.Script ∷ [] };

    ghost reads = { λ told script. IfSome (told input.Script) (λ bytes. IsScriptIn bytes script) };

    #[tactic(auto, using(crate::proofs::Loading::told, crate::proofs::KindLemmas::script))]
    fn load<H: Shelf>(alloc: Global, pairs: &[Word], shelf: &mut H) -> Result<Spans, Status> {
        let file = fetch(
            alloc,
            shelf,
            pairs,
            Input::Script,
            1_048_576,
            Why::Script(0),
        )?;
        match read_script(alloc, file.as_slice()) {
            Ok(script) => Ok(script),
            Err(ScriptEnd::Line(line)) => Err(Status::Refused(Why::Script(line))),
            Err(ScriptEnd::NoMemory) => Err(Status::NoMemory),
        }
    }
}
