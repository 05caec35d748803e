//! OAM and the port to it: 2102 to 2104 and 2138.
ghost use Rattle.std.specs.Prelude.{◌≡◌, ◌<◌, ◌+◌, ◌*◌, ℕ, length, slice_index};
ghost use Rattle.ppu_regs.specs.Picture.{zeros};
ghost use Rattle.ppu_regs.specs.Ports.{oam_place, oam_stepped, oam_bytes_written, oam_port_written};

use crate::registers::OamPort;
use std::marker::Model;

/// OAM: 544 bytes, seen in contracts as their list. The Y of all objects are kept once more side by side, so that
/// one pass compares a row with many of them.
#[derive(Drop)]
pub struct Oam {
    bytes: [u8; 544],
    tops: [u8; 128],
}

impl Model for Oam {
    ghost use Rattle.std.specs.Prelude.{ℕ, List};
    ghost use Rattle.ppu_regs.specs.Tops.{AreTops};

    ghost Value = { List ℕ };

    ghost view = { λ o. o.bytes };

    ghost invariant = { λ o. AreTops o.tops o.bytes };
}

impl Oam {
    /// Returns an OAM of 544 zeros.
    pub fn new() -> Oam
        ensures { result ≡ zeros 544 }
    {
        Oam {
            bytes: no_bytes(),
            tops: no_tops(),
        }
    }

    /// Copies all bytes into another OAM.
    pub fn copy_into(&self, into: &mut Oam)
        ensures { into.new ≡ self.now }
    {
        into.bytes = self.bytes;
        into.tops = self.tops;
    }

    /// Returns all 544 bytes.
    #[inline(always)]
    pub fn bytes(&self) -> &[u8; 544]
        ensures { result.now ≡ self.now }
    {
        &self.bytes
    }

    /// Returns the Y of each of the 128 objects.
    #[inline(always)]
    pub fn tops(&self) -> &[u8; 128]
        ensures { (n : ℕ) → n < 128 → slice_index result.now n ≡ slice_index self.now (4 * n + 1) }
    {
        &self.tops
    }

    /// Writes 2104 OAMDATA: puts or keeps a byte by the port's address, and steps the address.
    #[inline(always)]
    pub fn put(&mut self, port: &mut OamPort, v: u8)
        requires { port.old.address < 1024 }
        ensures bytes { self.new ≡ oam_bytes_written self.old port.old v }
        ensures port { port.new ≡ oam_port_written port.old v }
        ensures size { length self.new ≡ length self.old }
        ensures address { port.new.address < 1024 }
        ensures word { port.new.word ≡ port.old.word }
    {
        let object = (port.address / 4 % 128) as usize;
        put_bytes(&mut self.bytes, port, v);
        self.tops[object] = self.bytes[4 * object + 1];
    }
}

#[tactic(auto, unfolding(crate::specs::Picture::zeros))]
fn no_tops() -> [u8; 128]
    ensures { result ≡ zeros 128 }
{
    [0; 128]
}

#[tactic(auto, unfolding(crate::specs::Picture::zeros))]
fn no_bytes() -> [u8; 544]
    ensures { result ≡ zeros 544 }
{
    [0; 544]
}

/// Returns the place in OAM of a byte address: 512 bytes, then the last 32 repeated.
#[inline(always)]
#[tactic(auto, unfolding(crate::specs::Ports::oam_place))]
pub fn place(address: u16) -> usize
    ensures place { result ≡ oam_place address }
    ensures within { result < 544 }
{
    if address < 512 {
        address as usize
    } else {
        512 + (address % 32) as usize
    }
}

/// Steps the byte address, modulo 1,024.
#[inline(always)]
pub fn step(port: &mut OamPort)
    requires { port.old.address < 1024 }
    ensures stepped { port.new ≡ oam_stepped port.old }
{
    port.address = (port.address + 1) % 1024;
}

/// Writes 2104 OAMDATA into the bytes.
#[inline(always)]
#[tactic(auto, unfolding(crate::specs::Ports::oam_bytes_written, crate::specs::Ports::oam_port_written))]
fn put_bytes(oam: &mut [u8; 544], port: &mut OamPort, v: u8)
    requires { port.old.address < 1024 }
    ensures bytes { oam.new ≡ oam_bytes_written oam.old port.old v }
    ensures port { port.new ≡ oam_port_written port.old v }
    ensures size { length oam.new ≡ length oam.old }
    ensures address { port.new.address < 1024 }
    ensures word { port.new.word ≡ port.old.word }
{
    let at = port.address;
    if at >= 512 {
        oam[place(at)] = v;
    } else if at % 2 == 0 {
        port.kept = v;
    } else {
        oam[(at - 1) as usize] = port.kept;
        oam[at as usize] = v;
    }
    step(port);
}
