//! The ports to the memories of the picture unit, and the places that they point to.

ghost use Rattle.std.specs.Prelude.{◌≡◌};
ghost use Rattle.ppu_regs.specs.Ports.{remapped, vram_place, oam_place};

use ppu_regs::{CgramPort, OamPort, Registers, VramPort};

/// Where the three ports stand before a step.
#[derive(Clone, Copy)]
pub struct Ports {
    /// The port to VRAM.
    pub vram: VramPort,
    /// The port to OAM.
    pub oam: OamPort,
    /// The port to CGRAM.
    pub cgram: CgramPort,
}

impl Ports {
    /// Returns the ports of the picture unit's registers.
    pub fn of(registers: &Registers) -> Ports
        ensures vram { result.vram ≡ registers.now.vram }
        ensures oam { result.oam ≡ registers.now.oam }
        ensures cgram { result.cgram ≡ registers.now.cgram }
    {
        Ports {
            vram: registers.vram,
            oam: registers.oam,
            cgram: registers.cgram,
        }
    }
}

/// Rotates the low eight, nine or ten bits of an address left by 3, by remap 1, 2 or 3.
#[tactic(auto, unfolding(ppu_regs::specs::Ports::remapped, ppu_regs::specs::Ports::rotated))]
fn remap(code: u8, address: u16) -> u16
    ensures { result ≡ remapped code address }
{
    match code {
        1 => address / 256 * 256 + address % 32 * 8 + address % 256 / 32,
        2 => address / 512 * 512 + address % 64 * 8 + address % 512 / 64,
        3 => address / 1024 * 1024 + address % 128 * 8 + address % 1024 / 128,
        _ => address,
    }
}

/// Returns the word of VRAM that its port reads or writes.
#[tactic(auto, unfolding(ppu_regs::specs::Ports::vram_place))]
pub fn vram_place(port: &VramPort) -> u16
    ensures { result ≡ vram_place port.now }
{
    remap(port.remap, port.address) % 32768
}

/// Returns the place in OAM of a byte address.
#[tactic(auto, unfolding(ppu_regs::specs::Ports::oam_place))]
pub fn oam_place(address: u16) -> u16
    ensures { result ≡ oam_place address }
{
    if address < 512 {
        address
    } else {
        512 + address % 32
    }
}
