ghost use Rattle.std.specs.Prelude.{◌≡◌, ℕ, List, ◌++◌, [], OnOk, OnErr};
ghost use Rattle.snes_defs.specs.declared.ports.Side.{Side};

use run_drive::Sink;
use shelf::Failed;
use snes_defs::Side;

/// What drops all bytes of a run.
#[derive(Drop)]
pub(crate) struct Nowhere;

impl Sink for Nowhere {
    ghost holds = { λ _ _ _. Unit {0} };

    ghost only_takes = { λ _ _. Unit {0} };

    ghost failed = { λ _ _ _. ⊥ };

    fn take(&mut self, _side: Side, _bytes: &[u8]) -> Result<(), Failed> {
        Ok(())
    }

    ghost takes_none = { λ _. tt };

    ghost takes_more = { λ _ _ _ _ _. tt };

    ghost failed_since = { λ _ _ _ _ _ none. none };
}
