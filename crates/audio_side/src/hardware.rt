ghost use Rattle.std.specs.Prelude.{◌≡◌, ◌≢◌, ◌/◌, ◌<◌, ◌≤◌, ◌+◌, ◌%◌, ◌^◌, length};
ghost use Rattle.std.specs.Int.{w16, cast_unsigned};
ghost use Rattle.sdsp_voice.specs.Registers.{bit};
ghost use Rattle.audio_side.specs.HardwareState.{vector};
ghost use Rattle.audio_side.specs.Effect.{after_load, cleared_ports, controlled, dsp_written, high_byte, loaded, low_byte, register_shown, register_stored, reset_hardware, sample_bytes, sampled, stored, stored_in_ram, timed};

use crate::timer::{Timer, stopped_timer, switch, tick};
use sdsp_echo::Echo;
use sdsp_voice::Voices;
use snes_defs::Table;
use std::marker::Model;

/// The sound side without its processor.
#[derive(Drop)]
pub struct Hardware {
    /// The boot ROM, seen at FFC0 to FFFF while F1 bit 7 is set.
    pub boot: [u8; 64],
    /// The interpolation table of the S-DSP.
    pub table: Table,
    /// The 64 KiB of RAM.
    pub ram: Vec<u8>,
    /// The voices of the S-DSP, with its registers.
    pub voices: Voices,
    /// The echo unit of the S-DSP.
    pub echo: Echo,
    /// Timer 0, which ticks every 128 cycles.
    pub timer0: Timer,
    /// Timer 1, which ticks every 128 cycles.
    pub timer1: Timer,
    /// Timer 2, which ticks every 16 cycles.
    pub timer2: Timer,
    /// F1 bit 7: whether the processor sees the boot ROM.
    pub boot_seen: bool,
    /// F2: the register of the S-DSP that F3 reads and writes.
    pub address: u8,
}

impl Model for Hardware {
    ghost use Rattle.std.specs.Prelude.{◌≡◌, length};
    ghost use Rattle.audio_side.specs.HardwareState.{HardwareState};

    ghost Value = { HardwareState };

    ghost view = { λ s. record { boot = s.boot; table = s.table; ram = s.ram.items; voices = s.voices; echo = s.echo; timer0 = s.timer0; timer1 = s.timer1; timer2 = s.timer2; boot_seen = s.boot_seen; address = s.address } };

    ghost invariant = { λ s. length s.ram.items ≡ 65536 };
}

/// Bit `k` of a byte.
#[inline(always)]
pub fn is_on(byte: u8, k: u32) -> bool
    requires { k < 8 }
    ensures { result ≡ bit byte k }
{
    (byte >> k) % 2 == 1
}

/// The incoming ports that a write of F1 clears, as a mask.
#[inline(always)]
pub fn cleared(byte: u8) -> u8
    ensures value { result ≡ cleared_ports byte }
    ensures small { result ≤ 15 }
{
    (if is_on(byte, 4) { 3 } else { 0 }) + (if is_on(byte, 5) { 12 } else { 0 })
}

/// The low byte of a number.
#[inline(always)]
pub fn low(number: i16) -> u8
    ensures { result ≡ low_byte (cast_unsigned w16 number) }
{
    (number.cast_unsigned() % 256) as u8
}

/// The high byte of a number.
#[inline(always)]
pub fn high(number: i16) -> u8
    ensures { result ≡ high_byte (cast_unsigned w16 number) }
{
    (number.cast_unsigned() / 256) as u8
}

impl Hardware {
    /// Returns the byte that a fetch or a read at an address gets. `got` is the incoming port's.
    #[tactic(auto, unfolding(crate::specs::Effect::loaded))]
    #[inline(always)]
    pub fn load(&self, at: u16, got: u8) -> u8
        ensures { result ≡ loaded self.now at got }
    {
        if at < 0xF0 {
            self.ram[at as usize]
        } else if at < 0x100 {
            self.register(at, got)
        } else if at >= 0xFFC0 && self.boot_seen {
            self.boot[(at - 0xFFC0) as usize]
        } else {
            self.ram[at as usize]
        }
    }

    /// Returns the byte that a fetch or a read gets at an address other than F0 to FF.
    #[tactic(auto, unfolding(crate::specs::Effect::loaded))]
    #[inline(always)]
    pub fn load_memory(&self, at: u16) -> u8
        requires { at / 16 ≢ 15 }
        ensures { result ≡ loaded self.now at 0 }
    {
        if at >= 0xFFC0 && self.boot_seen {
            self.boot[(at - 0xFFC0) as usize]
        } else {
            self.ram[at as usize]
        }
    }

    /// Returns the byte that a fetch or a read at F0 to FF gets, out of line. `got` is the incoming port's.
    #[tactic(auto, unfolding(crate::specs::Effect::register_shown))]
    #[inline(never)]
    fn register(&self, at: u16, got: u8) -> u8
        ensures { result ≡ register_shown self.now at got }
    {
        match at {
            // F2 DSPADDR
            0xF2 => self.address,
            // F3 DSPDATA
            0xF3 => self.voices.read(self.address % 128),
            // F4 to F7 CPUIO0 to CPUIO3
            0xF4..=0xF7 => got,
            // F8, F9: a byte of RAM each
            0xF8 => self.ram[0xF8],
            0xF9 => self.ram[0xF9],
            // FD T0OUT
            0xFD => self.timer0.counter,
            // FE T1OUT
            0xFE => self.timer1.counter,
            // FF T2OUT
            0xFF => self.timer2.counter,
            _ => 0,
        }
    }

    /// Sets a timer's counter to 0 after a read of it.
    #[tactic(auto, unfolding(crate::specs::Effect::after_load))]
    #[inline(always)]
    pub fn finish_load(&mut self, at: u16)
        ensures { self.new ≡ after_load self.old at }
    {
        if at == 0xFD {
            // FD T0OUT
            self.timer0.counter = 0;
        } else if at == 0xFE {
            // FE T1OUT
            self.timer1.counter = 0;
        } else if at == 0xFF {
            // FF T2OUT
            self.timer2.counter = 0;
        }
    }

    /// Returns the byte that a fetch or a read at an address gets, and sets a counter that was read to 0. Tests for a
    /// port first, since most accesses that are not made among others are of one.
    #[tactic(auto, unfolding(crate::specs::Effect::loaded, crate::specs::Effect::register_shown, crate::specs::Effect::after_load))]
    #[inline(always)]
    pub fn take(&mut self, at: u16, got: u8) -> u8
        ensures byte { result ≡ loaded self.old at got }
        ensures after { self.new ≡ after_load self.old at }
    {
        if at >= 0xF4 && at <= 0xF7 {
            return got;
        }
        let byte = self.load(at, got);
        self.finish_load(at);
        byte
    }

    /// Writes F1.
    #[tactic(auto, unfolding(crate::specs::Effect::controlled))]
    #[inline(never)]
    fn control(&mut self, byte: u8)
        ensures { self.new ≡ controlled self.old byte }
    {
        self.boot_seen = is_on(byte, 7);
        self.timer0 = switch(is_on(byte, 0), self.timer0);
        self.timer1 = switch(is_on(byte, 1), self.timer1);
        self.timer2 = switch(is_on(byte, 2), self.timer2);
    }

    /// Writes F3.
    #[tactic(auto, unfolding(crate::specs::Effect::dsp_written))]
    #[inline(never)]
    fn write_dsp(&mut self, byte: u8)
        ensures { self.new ≡ dsp_written self.old byte }
    {
        if self.address < 128 {
            self.voices.write(self.address, byte);
        }
    }

    /// Writes a byte of RAM.
    #[inline(always)]
    fn write_ram(&mut self, at: u16, byte: u8)
        ensures { self.new ≡ stored_in_ram self.old at byte }
    {
        self.ram[at as usize] = byte;
    }

    /// Writes at F0 to FF, out of line.
    #[tactic(auto, unfolding(crate::specs::Effect::register_stored))]
    #[inline(never)]
    fn write_register(&mut self, at: u16, byte: u8)
        ensures { self.new ≡ register_stored self.old at byte }
    {
        if at == 0xF1 {
            // F1 CONTROL
            self.control(byte);
        } else if at == 0xF2 {
            // F2 DSPADDR
            self.address = byte;
        } else if at == 0xF3 {
            // F3 DSPDATA
            self.write_dsp(byte);
        } else if at == 0xF8 || at == 0xF9 {
            // F8, F9: a byte of RAM each
            self.write_ram(at, byte);
        } else if at == 0xFA {
            // FA T0TARGET
            self.timer0.target = byte;
        } else if at == 0xFB {
            // FB T1TARGET
            self.timer1.target = byte;
        } else if at == 0xFC {
            // FC T2TARGET
            self.timer2.target = byte;
        }
    }

    /// Writes a byte at an address.
    #[tactic(auto, unfolding(crate::specs::Effect::stored))]
    #[inline(always)]
    pub fn store(&mut self, at: u16, byte: u8)
        ensures { self.new ≡ stored self.old at byte }
    {
        if at >= 0xF0 && at <= 0xFF {
            self.write_register(at, byte);
        } else {
            self.write_ram(at, byte);
        }
    }

    /// Writes a byte at an address, and tests for a port first, which keeps nothing on this side.
    #[tactic(auto, unfolding(crate::specs::Effect::stored, crate::specs::Effect::register_stored))]
    #[inline(always)]
    pub fn put(&mut self, at: u16, byte: u8)
        ensures { self.new ≡ stored self.old at byte }
    {
        if at >= 0xF4 && at <= 0xF7 {
            return;
        }
        self.store(at, byte);
    }

    /// Writes a byte at an address other than F0 to FF.
    #[tactic(auto, unfolding(crate::specs::Effect::stored))]
    #[inline(always)]
    pub fn store_memory(&mut self, at: u16, byte: u8)
        requires { at / 16 ≢ 15 }
        ensures { self.new ≡ stored self.old at byte }
    {
        self.write_ram(at, byte);
    }

    /// Resets the hardware.
    #[tactic(auto, unfolding(crate::specs::Effect::reset_hardware))]
    #[inline(never)]
    pub fn reset(&mut self)
        ensures { self.new ≡ reset_hardware self.old }
    {
        self.boot_seen = true;
        self.address = 0;
        self.timer0 = stopped_timer();
        self.timer1 = stopped_timer();
        self.timer2 = stopped_timer();
        self.voices.reset();
    }

    /// The reset vector: the address at which the processor begins.
    pub fn entry(&self) -> u16
        ensures { result ≡ vector self.now }
    {
        self.boot[62] as u16 + 256 * self.boot[63] as u16
    }

    /// Whether timer 2 is on, which ticks eight times as often as the others.
    #[inline(always)]
    pub fn has_fast_timer(&self) -> bool
        ensures { result ≡ self.now.timer2.on }
    {
        self.timer2.on
    }

    /// Ticks the timers, at the end of every 16th cycle.
    #[tactic(auto, unfolding(crate::specs::Effect::timed))]
    #[inline(always)]
    pub fn tick(&mut self, cycle: u64)
        requires small { cycle ≤ 2 ^ 46 }
        requires tick { (cycle + 1) % 16 ≡ 0 }
        ensures { self.new ≡ timed cycle self.old }
    {
        if (cycle + 1) % 128 == 0 {
            self.timer0 = tick(self.timer0);
            self.timer1 = tick(self.timer1);
        }
        self.timer2 = tick(self.timer2);
    }

    /// Makes sample `s`, and returns its four bytes.
    #[tactic(auto, unfolding(crate::specs::Effect::sampled, crate::specs::Effect::sample_bytes))]
    pub fn sample(&mut self, s: u64) -> [u8; 4]
        ensures hardware { self.new ≡ sampled s self.old }
        ensures bytes { result ≡ sample_bytes s self.old }
    {
        let sums = self.voices.sample(self.ram.as_slice(), &self.table, s);
        let (left, right) = self.echo.mix(&self.voices, sums, self.ram.as_mut_slice());
        [low(left), high(left), low(right), high(right)]
    }
}
