//! Registers and vertical blank by the profile of the script.
ghost use Rattle.std.specs.Prelude.{◌≡◌, ◌<◌, ◌+◌, ◌*◌, ◌%◌};
ghost use Rattle.console_bus.specs.BusState.{BusState, spot_of, with_picture};
ghost use Rattle.console_bus.specs.Places.{picture_after_read, picture_after_write, picture_after_port};
ghost use Rattle.console_bus.specs.Places.{picture_byte_of, io_register_written};
ghost use Rattle.console_bus.specs.Profiles.{is_second, pal_bit, is_drawing, io_written, reading_noted};

use crate::bus::Bus;
use io_math::Io;
use snes_defs::{Profile, Region};

impl Bus {
    /// Returns whether the machine follows the second profile.
    #[inline(always)]
    pub fn is_second(&self) -> bool
        ensures { result ≡ is_second self.now.script.profile }
    {
        is_second(self.script.profile())
    }

    /// Reads a register of the PPU, 2100 plus `register`.
    #[tactic(auto, unfolding(crate::specs::Profiles::picture_byte, crate::specs::Profiles::picture_read), using(crate::proofs::Status::latch_gives_bus, crate::proofs::Status::small_status))]
    pub(crate) fn read_picture(&mut self, register: u8) -> u8
        requires { register < 0x40 }
        ensures byte { result ≡ picture_byte_of self.old register }
        ensures after { self.new ≡ with_picture self.old (picture_after_read self.old register) }
    {
        let second = self.is_second();
        if second && register == 0x37 && !(self.io.port() / 128 % 2 == 1) {
            return self.last;
        }
        let spot = self.beam.spot();
        let byte = self.ppu.read(register, self.last, spot);
        if second && register == 0x3f {
            return byte + (128 * (self.frame % 2) as u8 + pal_bit(self.beam.region()));
        }
        byte
    }

    /// Writes a register of the PPU, and keeps the decoded tiles in step with VRAM. In the second profile 2118 and
    /// 2119 write nothing while the picture is drawn.
    #[tactic(auto, unfolding(crate::specs::Profiles::picture_written))]
    pub(crate) fn write_picture(&mut self, register: u8, v: u8)
        requires { register < 0x40 }
        ensures { self.new ≡ with_picture self.old (picture_after_write self.old register v) }
    {
        if self.is_second() && (register == 0x18 || register == 0x19) && self.is_drawing() {
            self.ppu.pass_vram(register);
            return;
        }
        let _word = tile_cache::write(&mut self.ppu, &mut self.tiles, register, v);
    }

    /// Returns whether the picture is drawn: outside of vertical blank, without forced blank.
    fn is_drawing(&self) -> bool
        ensures { result ≡ is_drawing self.now.picture (spot_of self.now.beam) }
    {
        let spot = self.beam.spot();
        !self.ppu.registers().display.blanked && !spot.blank
    }

    /// Writes a register of `Io`. The map gets its speed of ROM, and the beam the setting of its timer. In the second
    /// profile a write of 4201 may latch the PPU's counters.
    pub(crate) fn write_io(&mut self, register: u16, v: u8)
        ensures { self.new ≡ io_register_written self.old register v }
    {
        self.latch(register, v);
        let profile = self.script.profile();
        let line = self.beam.spot().v;
        write_timed(&mut self.io, profile, line, register, v);
        self.map.set_speed(self.io.fast());
        self.beam.aim(self.io.irq_time());
    }

    /// Latches the PPU's counters if a write of 4201 takes bit 7 from 1 to 0, in the second profile.
    #[tactic(auto, unfolding(crate::specs::Profiles::picture_latched))]
    fn latch(&mut self, register: u16, v: u8)
        ensures { self.new ≡ with_picture self.old (picture_after_port self.old register v) }
    {
        if self.is_second()
            && register == 0x4201
            && (self.io.port() / 128 % 2 == 1 && !(v / 128 % 2 == 1))
        {
            let spot = self.beam.spot();
            self.ppu.latch(spot);
        }
    }
}

/// Returns whether a profile is the second.
#[inline(always)]
fn is_second(profile: Profile) -> bool
    ensures { result ≡ is_second profile }
{
    match profile {
        Profile::First => false,
        Profile::Second => true,
    }
}

/// Returns bit 4 of 213F STAT78 in the second profile: 16 in PAL.
fn pal_bit(region: Region) -> u8
    ensures bit { result ≡ pal_bit region }
    ensures small { result < 17 }
{
    match region {
        Region::Ntsc => 0,
        Region::Pal => 16,
    }
}

/// Writes a register of `Io` where the beam is on a line. In the second profile a write that sets the timer for the
/// start of this line sets the IRQ flag.
#[tactic(auto, unfolding(crate::specs::Profiles::io_written))]
fn write_timed(io: &mut Io, profile: Profile, line: u16, register: u16, v: u8)
    ensures { io.new ≡ io_written profile line io.old register v }
{
    let before = io.irq_time();
    io.write(register, v);
    let after = io.irq_time();
    let late = (after.kind == 2 && after.v == line) && !(before.kind == 2 && before.v == line);
    if is_second(profile) && late {
        io.timer();
    }
}

/// Begins an auto-read that takes time if the profile is the second and auto-read is on.
#[tactic(auto, unfolding(crate::specs::Profiles::reading_noted))]
pub(crate) fn note_reading(io: &mut Io, profile: Profile, line: u16)
    ensures { io.new ≡ reading_noted profile line io.old }
{
    if is_second(profile) && io.auto_read() {
        io.begin_read(line);
    }
}
