ghost use Rattle.std.specs.Prelude.{MatchOption};
ghost use Rattle.snes_commands.specs.Wish.{asks, IsNothing};

use crate::command::Performs;
use run_io::{Mistake, Word, mistake_in, read_form};

/// Returns the mistake in the arguments after a command's name; none if they have its form.
#[tactic(auto, using(crate::proofs::Explaining::explains))]
pub fn explain_form<C: Performs>(words: &[Word]) -> Option<Mistake<'_>>
    ensures { MatchOption result (¬ IsNothing (asks C.command words.now)) (λ mistake. IsNothing (asks C.command words.now)) }
{
    let form = C::form();
    match read_form(&form, words) {
        Some(_) => None,
        None => Some(mistake_in(&form, words)),
    }
}
