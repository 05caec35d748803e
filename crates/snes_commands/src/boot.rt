use crate::loads::{Loads, fetch};
use crate::status::{Status, Why};
use input_files::read_boot;
use run_io::Word;
use shelf::{Input, Shelf};
use std::alloc::Global;

/// The boot ROM of the SPC700: 64 bytes.
pub struct BootFile;

impl Loads for BootFile {
    ghost use Rattle.std.specs.Prelude.{[], ◌∷◌, IfSome};
    ghost use Rattle.shelf.specs.declared.shelves.Input.TheVariants as input;
    ghost use Rattle.std.specs.Prelude.{◌≡◌};

    type Value = [u8; 64];

    ghost inputs = { input.Boot ∷ [] };

    ghost reads = { λ told boot. IfSome (told input.Boot) (λ bytes. boot ≡ bytes) };

    #[tactic(auto, using(crate::proofs::Loading::told, crate::proofs::KindLemmas::boot))]
    fn load<H: Shelf>(alloc: Global, pairs: &[Word], shelf: &mut H) -> Result<[u8; 64], Status> {
        let file = fetch(alloc, shelf, pairs, Input::Boot, 64, Why::Boot)?;
        match read_boot(file.as_slice()) {
            Some(boot) => Ok(boot),
            None => Err(Status::Refused(Why::Boot)),
        }
    }
}
