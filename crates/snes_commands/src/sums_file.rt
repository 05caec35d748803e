use crate::loads::{Loads, fetch};
use crate::status::{Status, Why};
use frame_sums::{SumsEnd, SumsFile, read_sums};
use run_io::Word;
use shelf::{Input, Shelf};
use std::alloc::Global;

/// The sums that a run is compared with: at most 5,000,000 bytes.
pub struct SumsInput;

impl Loads for SumsInput {
    ghost use Rattle.std.specs.Prelude.{[], ◌∷◌, IfSome};
    ghost use Rattle.shelf.specs.declared.shelves.Input.TheVariants as input;
    ghost use Rattle.snes_commands.specs.Kinds.{IsSumsIn};

    type Value = SumsFile;

    ghost inputs = { input.Sums ∷ [] };

    ghost reads = { λ told sums. IfSome (told input.Sums) (λ bytes. IsSumsIn bytes sums) };

    #[tactic(auto, using(crate::proofs::Loading::told, crate::proofs::KindLemmas::sums))]
    fn load<H: Shelf>(alloc: Global, pairs: &[Word], shelf: &mut H) -> Result<SumsFile, Status> {
        let file = fetch(alloc, shelf, pairs, Input::Sums, 5_000_000, Why::Sums(0))?;
        match read_sums(alloc, file.as_slice()) {
            Ok(sums) => Ok(sums),
            Err(SumsEnd::Line(line)) => Err(Status::Refused(Why::Sums(line))),
            Err(SumsEnd::NoMemory) => Err(Status::NoMemory),
        }
    }
}
