// Copying the CPU's registers into others, and setting the words of both pads.
ghost use Rattle.std.specs.Prelude.{◌≡◌};
ghost use Rattle.io_math.specs.Words.{with_words};

use super::Io;

impl Io {
    /// Copies all registers into others. Does not allocate.
    pub fn copy_into(&self, into: &mut Io)
        ensures same { into.new ≡ self.now }
    {
        into.registers = self.registers;
    }

    /// Gives both pads other words. All else stays unchanged.
    pub fn set_words(&mut self, pad1: u16, pad2: u16)
        ensures words { self.new ≡ with_words self.old pad1 pad2 }
    {
        self.registers.pad1.word = pad1;
        self.registers.pad2.word = pad2;
    }
}
