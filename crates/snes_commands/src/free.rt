ghost use Rattle.std.specs.Prelude.{◌≡◌, IfOk, MatchOption};
ghost use Rattle.snes_commands.specs.Loads.{free_bytes, free_in};

use free_files::{free_boot_rom, interpolation_file};
use run_io::{Word, input_name};
use shelf::Input;
use snes_defs::NoMemory;
use std::alloc::Global;

/// The bytes of an input that the words leave out, if it is one that may be left out.
pub fn free_of(alloc: Global, pairs: &[Word], input: Input) -> Result<Option<Vec<u8>>, NoMemory>
    ensures { IfOk result (λ made. MatchOption made (free_in pairs.now input ≡ None) (λ bytes. free_in pairs.now input ≡ Some bytes.items)) }
{
    if !input_name(pairs, input).is_empty() {
        return Ok(None);
    }
    free_bytes(alloc, input)
}

/// The free boot ROM, the free table, or an empty script.
fn free_bytes(alloc: Global, input: Input) -> Result<Option<Vec<u8>>, NoMemory>
    ensures { IfOk result (λ made. MatchOption made (free_bytes input ≡ None) (λ bytes. free_bytes input ≡ Some bytes.items)) }
{
    match input {
        Input::Boot => match Vec::from_slice(alloc, &free_boot_rom()) {
            Ok(boot) => Ok(Some(boot)),
            Err(_) => Err(NoMemory),
        },
        Input::Table => {
            let table = interpolation_file(alloc)?;
            Ok(Some(table))
        }
        Input::Script => Ok(Some(Vec::new(alloc))),
        Input::Cart | Input::Spc | Input::Plan | Input::Sums => Ok(None),
    }
}
