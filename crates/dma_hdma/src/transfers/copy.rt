// Copying the eight channels into others.

use super::Dma;

impl Dma {
    ghost use Rattle.std.specs.Prelude.{◌≡◌};

    /// Copies the channels into others, with the transfers that they have begun. Does not allocate.
    pub fn copy_into(&self, into: &mut Dma)
        ensures same { into.new ≡ self.now }
    {
        into.channels = self.channels;
        into.turn = self.turn;
        into.due = self.due;
    }
}
