use crate::loads::{Loads, fetch};
use crate::status::{Status, Why};
use input_files::read_table;
use run_io::Word;
use shelf::{Input, Shelf};
use snes_defs::Table;
use std::alloc::Global;

/// The interpolation table of the S-DSP: 1,024 bytes.
pub struct TableFile;

impl Loads for TableFile {
    ghost use Rattle.std.specs.Prelude.{[], ◌∷◌, IfSome};
    ghost use Rattle.shelf.specs.declared.shelves.Input.TheVariants as input;
    ghost use Rattle.input_files.specs.Table.{IsTableFile};

    type Value = Table;

    ghost inputs = { input.Table ∷ [] };

    ghost reads = { λ told table. IfSome (told input.Table) (λ bytes. IsTableFile bytes table) };

    #[tactic(auto, using(crate::proofs::Loading::told, crate::proofs::KindLemmas::table))]
    fn load<H: Shelf>(alloc: Global, pairs: &[Word], shelf: &mut H) -> Result<Table, Status> {
        let file = fetch(alloc, shelf, pairs, Input::Table, 1024, Why::Table(512))?;
        match read_table(file.as_slice()) {
            Ok(table) => Ok(table),
            Err(entry) => Err(Status::Refused(Why::Table(entry))),
        }
    }
}
