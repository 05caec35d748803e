//! The port to CGRAM: 2121, 2122 and 213B.
ghost use Rattle.std.specs.Prelude.{◌≡◌, ℕ, ◌<◌, slice_index, length};
ghost use Rattle.ppu_regs.specs.Ports.{cgram_written, cgram_port_written, cgram_byte, cgram_port_read};

use crate::registers::CgramPort;

/// Writes 2122 CGDATA: keeps the first byte of a colour, and at the second writes its 15 bits.
#[inline(always)]
#[tactic(auto, unfolding(crate::specs::Ports::cgram_written, crate::specs::Ports::cgram_port_written))]
pub fn write_byte(cgram: &mut [u16; 256], port: &mut CgramPort, v: u8)
    requires { (k : ℕ) → slice_index cgram.old k < 32768 }
    ensures colours { cgram.new ≡ cgram_written cgram.old port.old v }
    ensures port { port.new ≡ cgram_port_written port.old v }
    ensures small { (k : ℕ) → slice_index cgram.new k < 32768 }
    ensures size { length cgram.new ≡ length cgram.old }
{
    if !port.high {
        port.kept = v;
        port.high = true;
        return;
    }
    cgram[port.index as usize] = port.kept as u16 + 256 * (v % 128) as u16;
    port.high = false;
    port.index = ((port.index as u16 + 1) % 256) as u8;
}

/// Reads 213B RDCGRAM: a colour's low byte, then its high one.
#[inline(always)]
#[tactic(auto, unfolding(crate::specs::Ports::cgram_byte, crate::specs::Ports::cgram_port_read))]
pub fn read_byte(cgram: &[u16; 256], port: &mut CgramPort) -> u8
    ensures byte { result ≡ cgram_byte cgram.now port.old }
    ensures port { port.new ≡ cgram_port_read port.old }
{
    let colour = cgram[port.index as usize];
    if !port.high {
        port.high = true;
        return (colour % 256) as u8;
    }
    port.high = false;
    port.index = ((port.index as u16 + 1) % 256) as u8;
    (colour / 256) as u8
}
