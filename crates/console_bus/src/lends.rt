// What a bus lends to whoever reads its memories.
ghost use Rattle.std.specs.Prelude.{◌≡◌, ◌+◌, length};

use crate::bus::Bus;
use ppu_regs::Ppu;

impl Bus {
    /// The memory: 131,072 bytes of work RAM, then the cartridge's RAM, then its ROM.
    pub fn memory(&self) -> &[u8]
        ensures bytes { result.now ≡ self.now.memory }
        ensures size { length result.now ≡ 131072 + self.now.board.ram + self.now.board.rom }
    {
        self.memory.as_slice()
    }

    /// How many bytes the cartridge's RAM has.
    pub fn cart_ram(&self) -> u32
        ensures { result ≡ self.now.board.ram }
    {
        self.map.board().ram
    }

    /// The picture unit: its registers and its memories.
    pub fn picture(&self) -> &Ppu
        ensures { result.now ≡ self.now.picture }
    {
        &self.ppu
    }
}
