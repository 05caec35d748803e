ghost use Rattle.std.specs.Prelude.{◌≡◌, OnOk, OnErr};
ghost use Rattle.shelf.specs.Shown.{OnlyPuts};
ghost use Rattle.shelf.specs.Told.{Appends, AppendsSome, HasRisen};

use shelf::{Failed, Out, Shelf};

/// Puts bytes to an output and flushes it: at Ok, nothing of the output is held back.
#[tactic(auto, using(crate::proofs::Putting::puts_whole))]
pub fn put_whole<H: Shelf>(shelf: &mut H, out: Out, bytes: &[u8]) -> Result<(), Failed>
    ensures appended { OnOk result (Appends ((H.shown shelf.old).written out) ((H.shown shelf.new).written out) bytes.now) }
    ensures whole { OnOk result ((H.shown shelf.new).unwritten out ≡ 0) }
    ensures failed { OnErr result (HasRisen ((H.shown shelf.old).write_faults out) ((H.shown shelf.new).write_faults out)) }
    ensures prefix { OnErr result (AppendsSome ((H.shown shelf.old).written out) ((H.shown shelf.new).written out) bytes.now) }
    ensures only { OnlyPuts (H.shown shelf.old) (H.shown shelf.new) out }
{
    shelf.put(out, bytes)?;
    let Ok(()) = shelf.flush(out) else {
        return Err(Failed);
    };
    Ok(())
}
