// The sound output of a shelf, as a sink.
ghost use Rattle.std.specs.Prelude.{◌≡◌, ◌≢◌, ℕ, List, [], OnOk, OnErr};
ghost use Rattle.snes_defs.specs.declared.ports.Side.{Side};
ghost use Rattle.shelf.specs.Told.{Holds, HasRisen};
ghost use Rattle.shelf.specs.Shown.{OnlyPuts};
ghost use Rattle.run_drive.specs.Run.{Adds, AddsSome};
ghost use Rattle.spc_player.specs.Play.{Playing};
ghost use Rattle.spc_player.specs.Player.{IsPlaying, TookPairs, TookSome, stamp_of, waiting_of};
ghost use Rattle.stem_player.specs.Heard.{heard_pairs};

use run_drive::Sink;
use shelf::{Failed, Out, Shelf};
use snes_defs::Side;
use spc_player::Player;
use stem_player::{Heard, play_heard};

/// The sound output: it takes the sound side's bytes, and ignores the console side's. So no other output is touched.
#[derive(Drop)]
struct SoundOut<'a, H> {
    shelf: &'a mut H,
}

impl<H: Shelf> Sink for SoundOut<'_, H> {
    ghost use Rattle.std.specs.Prelude.{◌≡◌, refl};
    ghost use Rattle.std.proofs.Common.{◌∙◌};
    ghost use Rattle.shelf.specs.declared.shelves.Out.TheVariants as out;
    ghost use Rattle.shelf.specs.Told.{HasRisen};
    ghost use Rattle.shelf.specs.Shown.{OnlyPuts};
    ghost use Rattle.snes_commands.specs.SoundOut.{HoldsSound};
    ghost use Rattle.run_drive.specs.OutputLaws.{risen_since};
    ghost use Rattle.snes_commands.specs.PutLaws.{puts_none, puts_then};

    ghost holds = { λ sink. HoldsSound (H.shown sink.shelf.now) };

    // it is the output of the same shelf
    ghost only_takes = { λ a b. (b.shelf.ghost_name ≡ a.shelf.ghost_name) × OnlyPuts (H.shown a.shelf.now) (H.shown b.shelf.now) out.Sound };

    ghost failed = { λ a b side. HasRisen ((H.shown a.shelf.now).write_faults out.Sound) ((H.shown b.shelf.now).write_faults out.Sound) };

    fn take(&mut self, side: Side, bytes: &[u8]) -> Result<(), Failed> {
        match side {
            Side::Console => Ok(()),
            Side::Sound => self.shelf.put(Out::Sound, bytes),
        }
    }

    ghost takes_none = { λ a. (refl, puts_none (H.shown a.shelf.now) out.Sound) };

    ghost takes_more = { λ a b c first then. (then.0 ∙ first.0, puts_then _ _ _ out.Sound first.1 then.1) };

    ghost failed_since = { λ a b c side first then. risen_since _ _ _ (first.1.write_faults out.Sound) then };
}

/// Plays the given number of samples into the sound output. Touches no other output.
pub fn play_sound<H: Shelf>(player: &mut Player, samples: u32, shelf: &mut H) -> Result<(), Failed>
    requires early { stamp_of player.old ≡ 0 }
    requires empty { waiting_of player.old ≡ [] }
    ensures whole { OnOk result ((w : Playing) → IsPlaying player.old w → TookPairs w samples (Holds ((H.shown shelf.old).written Out.Sound)) (Holds ((H.shown shelf.new).written Out.Sound))) }
    ensures first { (w : Playing) → IsPlaying player.old w → TookSome w samples (Holds ((H.shown shelf.old).written Out.Sound)) (Holds ((H.shown shelf.new).written Out.Sound)) }
    ensures failed { OnErr result (HasRisen ((H.shown shelf.old).write_faults Out.Sound) ((H.shown shelf.new).write_faults Out.Sound)) }
    ensures only { OnlyPuts (H.shown shelf.old) (H.shown shelf.new) Out.Sound }
{
    let mut sink = SoundOut { shelf };
    player.play(samples, &mut sink)
}

/// Plays what is heard of the given number of samples into the sound output. Touches no other output.
pub fn play_parts<H: Shelf>(
    player: &mut Player,
    heard: &Heard,
    samples: u32,
    shelf: &mut H,
) -> Result<(), Failed>
    requires early { stamp_of player.old ≡ 0 }
    requires empty { waiting_of player.old ≡ [] }
    ensures whole { OnOk result ((w : Playing) → IsPlaying player.old w → Adds (Holds ((H.shown shelf.old).written Out.Sound)) (Holds ((H.shown shelf.new).written Out.Sound)) (heard_pairs heard.now w samples samples)) }
    ensures first { (w : Playing) → IsPlaying player.old w → AddsSome (Holds ((H.shown shelf.old).written Out.Sound)) (Holds ((H.shown shelf.new).written Out.Sound)) (heard_pairs heard.now w samples samples) }
    ensures failed { OnErr result (HasRisen ((H.shown shelf.old).write_faults Out.Sound) ((H.shown shelf.new).write_faults Out.Sound)) }
    ensures only { OnlyPuts (H.shown shelf.old) (H.shown shelf.new) Out.Sound }
{
    let mut sink = SoundOut { shelf };
    play_heard(player, heard, samples, &mut sink)
}
