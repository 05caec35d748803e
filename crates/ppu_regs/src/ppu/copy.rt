// Copying a whole PPU into another one.
ghost use Rattle.std.specs.Prelude.{◌≡◌};

use super::Ppu;

impl Ppu {
    /// Copies all registers, VRAM, CGRAM and OAM into another PPU. Does not allocate.
    pub fn copy_into(&self, into: &mut Ppu)
        ensures same { into.new ≡ self.now }
    {
        into.registers = self.registers;
        into.vram
            .as_mut_slice()
            .copy_from_slice(self.vram.as_slice());
        into.cgram = self.cgram;
        self.oam.copy_into(&mut into.oam);
    }
}
