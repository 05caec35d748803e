use crate::loads::{Loads, fetch};
use crate::status::{Status, Why};
use run_io::Word;
use shelf::{Input, Shelf};
use spc_player::{SpcEnd, SpcImage, SpcRefused, read_spc};
use std::alloc::Global;

/// The sound file: at most 1,048,576 bytes.
pub struct SpcFile;

impl Loads for SpcFile {
    ghost use Rattle.std.specs.Prelude.{◌≡◌, [], ◌∷◌, IfSome};
    ghost use Rattle.shelf.specs.declared.shelves.Input.TheVariants as input;
    ghost use Rattle.spc_player.specs.SoundFile.{image_of};

    type Value = SpcImage;

    ghost inputs = { input.Spc ∷ [] };

    ghost reads = { λ told image. IfSome (told input.Spc) (λ bytes. image ≡ image_of bytes) };

    #[tactic(auto, using(crate::proofs::Loading::told, crate::proofs::SpcLemmas::spc))]
    fn load<H: Shelf>(alloc: Global, pairs: &[Word], shelf: &mut H) -> Result<SpcImage, Status> {
        let too_long = Why::Spc(SpcRefused::TooLong);
        let file = fetch(alloc, shelf, pairs, Input::Spc, 1_048_576, too_long)?;
        match read_spc(alloc, file.as_slice()) {
            Ok(image) => Ok(image),
            Err(SpcEnd::Refused(cause)) => Err(Status::Refused(Why::Spc(cause))),
            Err(SpcEnd::NoMemory) => Err(Status::NoMemory),
        }
    }
}
