use crate::loads::{Loads, fetch};
use crate::status::{Status, Why};
use cart_map::{CartEnd, CartRefused, accept};
use run_io::Word;
use shelf::{Input, Shelf};
use snes_defs::Cart;
use std::alloc::Global;

/// The cartridge: at most 4,194,816 bytes.
pub struct CartFile;

impl Loads for CartFile {
    ghost use Rattle.std.specs.Prelude.{[], ◌∷◌, IfSome};
    ghost use Rattle.shelf.specs.declared.shelves.Input.TheVariants as input;
    ghost use Rattle.snes_commands.specs.Kinds.{IsCartIn};

    type Value = Cart;

    ghost inputs = { input.Cart ∷ [] };

    ghost reads = { λ told cart. IfSome (told input.Cart) (λ bytes. IsCartIn bytes cart) };

    #[tactic(auto, using(crate::proofs::Loading::told, crate::proofs::KindLemmas::cart))]
    fn load<H: Shelf>(alloc: Global, pairs: &[Word], shelf: &mut H) -> Result<Cart, Status> {
        let too_long = Why::Cart(CartRefused::TooLong);
        let file = fetch(alloc, shelf, pairs, Input::Cart, 4_194_816, too_long)?;
        match accept(file) {
            Ok(cart) => Ok(cart),
            Err(CartEnd::Refused(cause)) => Err(Status::Refused(Why::Cart(cause))),
            Err(CartEnd::NoMemory) => Err(Status::NoMemory),
        }
    }
}
