// Copying the beam into another one.
ghost use Rattle.std.specs.Prelude.{◌≡◌};

use super::Beam;

impl Beam {
    /// Copies the beam into another one: its place, its region and its timer. Does not allocate.
    pub fn copy_into(&self, into: &mut Beam)
        ensures same { into.new ≡ self.now }
    {
        into.region = self.region;
        into.v = self.v;
        into.place = self.place;
        into.left = self.left;
        into.blank = self.blank;
        into.timer = self.timer;
    }
}
