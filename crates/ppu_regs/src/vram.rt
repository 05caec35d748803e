//! The port to VRAM: 2115 to 2119, 2139 and 213A.
ghost use Rattle.std.specs.Prelude.{◌≡◌, ◌<◌, length, true, false};
ghost use Rattle.ppu_regs.specs.Ports.{rotated, remapped, vram_place, vram_stepped, vram_low_aimed, vram_high_aimed};
ghost use Rattle.ppu_regs.specs.Ports.{vram_low_written, vram_high_written, vram_port_after, vram_fetched};
ghost use Rattle.ppu_regs.specs.Ports.{vram_port_read};

use crate::registers::VramPort;

/// Rotates the low eight, nine or ten bits left by 3, by remap 1, 2 or 3.
#[inline(always)]
#[tactic(auto, unfolding(crate::specs::Ports::remapped, crate::specs::Ports::rotated))]
fn remap(code: u8, address: u16) -> u16
    ensures { result ≡ remapped code address }
{
    match code {
        1 => address / 256 * 256 + address % 32 * 8 + address % 256 / 32,
        2 => address / 512 * 512 + address % 64 * 8 + address % 512 / 64,
        3 => address / 1024 * 1024 + address % 128 * 8 + address % 1024 / 128,
        _ => address,
    }
}

/// Returns the word of VRAM that the port reads or writes: its address after the remap.
#[inline(always)]
#[tactic(auto, unfolding(crate::specs::Ports::vram_place))]
pub fn place(port: &VramPort) -> u16
    ensures place { result ≡ vram_place port.now }
    ensures within { result < 32768 }
{
    remap(port.remap, port.address) % 32768
}

/// Steps the address.
#[inline(always)]
#[tactic(auto, unfolding(crate::specs::Ports::vram_stepped))]
fn step(port: &mut VramPort)
    ensures { port.new ≡ vram_stepped port.old }
{
    port.address = ((port.address as u32 + port.step as u32) % 65536) as u16;
}

/// Writes 2116 VMADDL, the address's low byte, and fetches the word at the new address.
#[inline(always)]
#[tactic(auto, unfolding(crate::specs::Ports::vram_low_aimed))]
pub fn aim_low(vram: &[u16], port: &mut VramPort, v: u8)
    requires { length vram.now ≡ 32768 }
    ensures { port.new ≡ vram_low_aimed vram.now port.old v }
{
    port.address = port.address / 256 * 256 + v as u16;
    port.fetched = vram[place(port) as usize];
}

/// Writes 2117 VMADDH, the address's high byte, and fetches the word at the new address.
#[inline(always)]
#[tactic(auto, unfolding(crate::specs::Ports::vram_high_aimed))]
pub fn aim_high(vram: &[u16], port: &mut VramPort, v: u8)
    requires { length vram.now ≡ 32768 }
    ensures { port.new ≡ vram_high_aimed vram.now port.old v }
{
    port.address = 256 * v as u16 + port.address % 256;
    port.fetched = vram[place(port) as usize];
}

/// Steps the address after a byte was written, the high one or the low one, if that byte is the stepping one.
#[inline(always)]
#[tactic(auto, unfolding(crate::specs::Ports::vram_port_after))]
pub fn step_after(port: &mut VramPort, high: bool)
    ensures { port.new ≡ vram_port_after port.old high }
{
    if port.steps_at_high == high {
        step(port);
    }
}

/// Writes 2118 VMDATAL, the low byte of a word. Returns the number of that word.
#[inline(always)]
#[tactic(auto, unfolding(crate::specs::Ports::vram_low_written))]
pub fn put_low(vram: &mut [u16], port: &mut VramPort, v: u8) -> u16
    requires { length vram.old ≡ 32768 }
    ensures word { result ≡ vram_place port.old }
    ensures within { result < 32768 }
    ensures words { vram.new ≡ vram_low_written vram.old port.old v }
    ensures port { port.new ≡ vram_port_after port.old false }
{
    let word = place(port);
    let at = word as usize;
    vram[at] = vram[at] / 256 * 256 + v as u16;
    step_after(port, false);
    word
}

/// Writes 2119 VMDATAH, the high byte of a word. Returns the number of that word.
#[inline(always)]
#[tactic(auto, unfolding(crate::specs::Ports::vram_high_written))]
pub fn put_high(vram: &mut [u16], port: &mut VramPort, v: u8) -> u16
    requires { length vram.old ≡ 32768 }
    ensures word { result ≡ vram_place port.old }
    ensures within { result < 32768 }
    ensures words { vram.new ≡ vram_high_written vram.old port.old v }
    ensures port { port.new ≡ vram_port_after port.old true }
{
    let word = place(port);
    let at = word as usize;
    vram[at] = 256 * v as u16 + vram[at] % 256;
    step_after(port, true);
    word
}

/// Fetches the word at the address, then steps the address.
#[inline(always)]
#[tactic(auto, unfolding(crate::specs::Ports::vram_fetched))]
fn fetch(vram: &[u16], port: &mut VramPort)
    requires { length vram.now ≡ 32768 }
    ensures { port.new ≡ vram_fetched vram.now port.old }
{
    port.fetched = vram[place(port) as usize];
    step(port);
}

/// Fetches the next word after a read of 2139 RDVRAML, or of 213A RDVRAMH if `high`, if that byte is the
/// stepping one.
#[inline(always)]
#[tactic(auto, unfolding(crate::specs::Ports::vram_port_read))]
pub fn fetch_after_read(vram: &[u16], port: &mut VramPort, high: bool)
    requires { length vram.now ≡ 32768 }
    ensures { port.new ≡ vram_port_read vram.now port.old high }
{
    if port.steps_at_high == high {
        fetch(vram, port);
    }
}
