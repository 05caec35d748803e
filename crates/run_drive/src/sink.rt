ghost use Rattle.std.specs.Prelude.{◌≡◌, ◌≢◌, ℕ, List, ◌++◌, OnOk, OnErr};
ghost use Rattle.snes_defs.specs.declared.ports.Side.{Side};
ghost use Rattle.run_drive.specs.Run.{Adds, AddsSome};

use shelf::Failed;
use snes_defs::Side;

/// A sink for the bytes that the two machines of a run emit.
pub trait Sink {
    // These may be all the bytes that were taken of a side.
    ghost holds: { Self → Side → List ℕ → Type 0 };

    // The later value is the earlier one after some bytes were taken, or not taken, and nothing else.
    ghost only_takes: { Self → Self → Type 0 };

    // A fault of that side was met between the two.
    ghost failed: { Self → Self → Side → Type 0 };

    /// Takes these bytes of a side, after those that it took before.
    fn take(&mut self, side: Side, bytes: &[u8]) -> Result<(), Failed>
        ensures whole { OnOk result (Adds (holds self.old side) (holds self.new side) bytes.now) }
        ensures some { OnErr result (AddsSome (holds self.old side) (holds self.new side) bytes.now) }
        ensures other { (other : Side) (had : List ℕ) → other ≢ side → holds self.old other had
            → holds self.new other had }
        ensures failed { OnErr result (failed self.old self.new side) }
        ensures only { only_takes self.old self.new };

    ghost takes_none: { (a : Self) → only_takes a a };

    ghost takes_more: { (a b c : Self) → only_takes a b → only_takes b c → only_takes a c };

    ghost failed_since: { (a b c : Self) (side : Side) → only_takes a b → failed b c side → failed a c side };
}
