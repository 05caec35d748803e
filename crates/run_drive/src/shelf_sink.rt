// Any shelf as the sink of a run: the console's bytes go to video, the sound side's to sound.
ghost use Rattle.std.specs.Prelude.{◌≡◌, ◌≢◌, ℕ, List, OnOk, OnErr};
ghost use Rattle.snes_defs.specs.declared.ports.Side.{Side};
ghost use Rattle.shelf.specs.Told.{Holds, Appends, HasRisen};
ghost use Rattle.run_drive.specs.Run.{Adds, AddsSome};
ghost use Rattle.run_drive.specs.Outputs.{output_of, OnlyFills};
ghost use Rattle.run_drive.specs.OutputLaws.{fills_none, fills_then, risen_since};

use crate::sink::Sink;
use shelf::{Failed, Out, Shelf};
use snes_defs::Side;

/// The output that a side's bytes go to.
#[inline(always)]
pub fn out_of(side: Side) -> Out
    ensures { result ≡ output_of side }
{
    match side {
        Side::Console => Out::Video,
        Side::Sound => Out::Sound,
    }
}

impl<H: Shelf> Sink for H {
    ghost holds = { λ shelf side bytes. Holds ((H.shown shelf).written (output_of side)) bytes };

    ghost only_takes = { λ a b. OnlyFills (H.shown a) (H.shown b) };

    ghost failed = { λ a b side. HasRisen ((H.shown a).write_faults (output_of side)) ((H.shown b).write_faults (output_of side)) };

    #[inline(always)]
    #[tactic(auto, using(crate::proofs::Taking::puts))]
    fn take(&mut self, side: Side, bytes: &[u8]) -> Result<(), Failed> {
        self.put(out_of(side), bytes)
    }

    ghost takes_none = { λ a. fills_none (H.shown a) };

    ghost takes_more = { λ a b c first then. fills_then (H.shown a) (H.shown b) (H.shown c) first then };

    ghost failed_since = { λ a b c side first then. risen_since _ _ _ (first.only.write_faults (output_of side)) then };
}
