// The steps of a span, and the bytes that they emit.
ghost use Rattle.std.specs.Prelude.{◌≡◌, ◌≤◌, ℕ, List, [], length, take, OnOk, OnErr, IfErr};
ghost use Rattle.snes_defs.specs.declared.cart.Job.{Job};
ghost use Rattle.snes_defs.specs.declared.ports.Side.{Side};
ghost use Rattle.plan_drive.specs.Paths.{Path, Paths};
ghost use Rattle.snapshot.specs.Positions.{IsGoing, slot_count, video_waiting, audio_waiting};
ghost use Rattle.snapshot.specs.Handed.{Gave, GaveSome};
ghost use Rattle.snapshot.specs.Stepped.{StepsOn};

use super::Rewind;
use run_drive::Sink;
use snes_defs::Side;

impl Rewind {
    /// Takes all steps to the end of the path, and passes the sink what they emit. Err names the side of which the
    /// sink failed to take some.
    pub fn go_on<K: Sink>(&mut self, buffer: &mut [u8], sink: &mut K) -> Result<(), Side>
        requires going { (job : Job) × (n : ℕ) × (paths : Paths) × (before : Path) × IsGoing job n paths before [] [] self.old }
        requires no_video { video_waiting self.old ≡ [] }
        requires no_audio { audio_waiting self.old ≡ [] }
        requires fits { 1024 ≤ length buffer.old }
        ensures whole { OnOk result ((job : Job) (n : ℕ) (paths : Paths) (before : Path) (base : Side → List ℕ) → IsGoing job n paths before [] [] self.old
            → K.holds sink.old Side.Console (base Side.Console) → K.holds sink.old Side.Sound (base Side.Sound) → Gave job n paths before base (K.holds sink.new) self.new) }
        ensures some { OnErr result ((job : Job) (n : ℕ) (paths : Paths) (before : Path) (base : Side → List ℕ) → IsGoing job n paths before [] [] self.old
            → K.holds sink.old Side.Console (base Side.Console) → K.holds sink.old Side.Sound (base Side.Sound) → GaveSome job n paths before base (K.holds sink.new)) }
        ensures failed { IfErr result (K.failed sink.old sink.new) }
        ensures only { K.only_takes sink.old sink.new }
        ensures slots { slot_count self.new ≡ slot_count self.old }
        ensures steps { StepsOn self.old self.new }
    {
        match self.run.go_on(buffer, sink) {
            Ok(()) => Ok(()),
            Err(side) => Err(side),
        }
    }
}
