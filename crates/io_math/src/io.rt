//! The CPU's own registers as one value: writes, reads and the events of the beam.
ghost use Rattle.std.specs.Prelude.{◌≡◌, ◌<◌, ◌≤◌};
ghost use Rattle.io_math.specs.Registers.{with_low, with_high, bit_if, registers_start, strobe_written};
ghost use Rattle.io_math.specs.Registers.{nmitimen_written, multiplied, divided, written, pad_bit, pad_read};
ghost use Rattle.io_math.specs.Registers.{byte_read, after_read, is_reading, word_shown, read_begun, pad_blanked};
ghost use Rattle.io_math.specs.Registers.{blanked, framed, timed, nmi_level, irq_level};

use crate::registers::{Arithmetic, Interrupts, IoRegisters, Pad};
use snes_defs::{BLANK_CLOCK, IrqTime, LINE_CLOCKS, Spot};
use std::marker::Model;

mod copy;

/// The CPU's own registers. Contracts see them as `IoRegisters`.
#[derive(Drop)]
pub struct Io {
    registers: IoRegisters,
}

impl Model for Io {
    ghost use Rattle.io_math.specs.declared.registers.IoRegisters.{IoRegisters};
    ghost use Rattle.io_math.specs.Registers.{IsInRange};

    ghost Value = { IoRegisters };

    ghost view = { λ io. io.registers };

    ghost invariant = { λ io. IsInRange io.registers };
}

impl Io {
    /// Returns the registers at the start.
    pub fn new() -> Io
        ensures { result ≡ registers_start }
    {
        let pad = Pad {
            word: 0,
            position: 0,
            kept: 0,
            earlier: 0,
        };
        Io {
            registers: IoRegisters {
                strobe: false,
                pad1: pad,
                pad2: pad,
                interrupts: Interrupts {
                    nmi_on: false,
                    timer_kind: 0,
                    auto_read: false,
                    htime: 0x1ff,
                    vtime: 0x1ff,
                    nmi_flag: false,
                    irq_flag: false,
                },
                port: 0xff,
                arithmetic: Arithmetic {
                    factor: 0,
                    dividend: 0,
                    quotient: 0,
                    product: 0,
                },
                fast: false,
                reading: 0,
            },
        }
    }

    /// Writes a byte at an address of 4016 to 421F.
    pub fn write(&mut self, addr: u16, v: u8)
        ensures { self.new ≡ written self.old addr v }
    {
        write_register(&mut self.registers, addr, v);
    }

    /// Reads a byte at an address of 4016 to 421F. `bus` is the byte last on the data bus.
    pub fn read(&mut self, addr: u16, bus: u8, beam: Spot) -> u8
        ensures byte { result ≡ byte_read self.old addr bus beam }
        ensures after { self.new ≡ after_read self.old addr }
    {
        read_register(&mut self.registers, addr, bus, beam)
    }

    /// Begins an auto-read that takes 4,224 clocks, on a line of the beam. Until its end HVBJOY (4212) bit 0 is set,
    /// and 4218 to 421B give the words from before. It is called right before `blank`, in the second profile alone.
    #[tactic(auto, unfolding(crate::specs::Registers::read_begun))]
    pub fn begin_read(&mut self, line: u16)
        ensures { self.new ≡ read_begun self.old line }
    {
        let r = &mut self.registers;
        r.reading = line;
        r.pad1.earlier = r.pad1.kept;
        r.pad2.earlier = r.pad2.kept;
    }

    /// Returns bit 0 of 4200 NMITIMEN: whether auto-read is on.
    pub fn auto_read(&self) -> bool
        ensures { result ≡ self.now.interrupts.auto_read }
    {
        self.registers.interrupts.auto_read
    }

    /// Returns 4201 WRIO.
    pub fn port(&self) -> u8
        ensures { result ≡ self.now.port }
    {
        self.registers.port
    }

    /// Begins vertical blank with the words of both pads: sets the NMI flag, and keeps the words if auto-read is
    /// on.
    pub fn blank(&mut self, pad1: u16, pad2: u16)
        ensures { self.new ≡ blanked self.old pad1 pad2 }
    {
        begin_blank(&mut self.registers, pad1, pad2);
    }

    /// Begins a frame: clears the NMI flag, and gives both pads their words. No auto-read runs.
    #[tactic(auto, unfolding(crate::specs::Registers::framed))]
    pub fn frame(&mut self, pad1: u16, pad2: u16)
        ensures { self.new ≡ framed self.old pad1 pad2 }
    {
        let r = &mut self.registers;
        r.reading = 0;
        r.interrupts.nmi_flag = false;
        r.pad1.word = pad1;
        r.pad2.word = pad2;
    }

    /// Fires the timer: sets the IRQ flag.
    #[tactic(auto, unfolding(crate::specs::Registers::timed))]
    pub fn timer(&mut self)
        ensures { self.new ≡ timed self.old }
    {
        self.registers.interrupts.irq_flag = true;
    }

    /// Returns the levels of NMI and IRQ. NMI is set if its flag and 4200 bit 7 both are; IRQ is its flag.
    #[inline(always)]
    pub fn interrupt_levels(&self) -> (bool, bool)
        ensures nmi { result.0 ≡ nmi_level self.now }
        ensures irq { result.1 ≡ irq_level self.now }
    {
        let i = &self.registers.interrupts;
        (i.nmi_flag && i.nmi_on, i.irq_flag)
    }

    /// Returns the flags that a read clears: bit 7 of 4210 RDNMI and bit 7 of 4211 TIMEUP.
    #[inline(always)]
    pub fn flags(&self) -> (bool, bool)
        ensures nmi { result.0 ≡ self.now.interrupts.nmi_flag }
        ensures irq { result.1 ≡ self.now.interrupts.irq_flag }
    {
        let i = &self.registers.interrupts;
        (i.nmi_flag, i.irq_flag)
    }

    /// Returns the setting of the timer: its kind, and the H and V at which it fires.
    #[inline(always)]
    pub fn irq_time(&self) -> IrqTime
        ensures { let i = self.now.interrupts in result ≡ record { kind = i.timer_kind; h = i.htime; v = i.vtime } }
    {
        let i = &self.registers.interrupts;
        IrqTime {
            kind: i.timer_kind,
            h: i.htime,
            v: i.vtime,
        }
    }

    /// Returns bit 0 of 420D MEMSEL: whether ROM is fast in banks 80 to FF.
    #[inline(always)]
    pub fn fast(&self) -> bool
        ensures { result ≡ self.now.fast }
    {
        self.registers.fast
    }
}

/// Writes a byte at an address.
#[tactic(auto, unfolding(crate::specs::Registers::written))]
fn write_register(r: &mut IoRegisters, addr: u16, v: u8)
    ensures after { r.new ≡ written r.old addr v }
    ensures htime { r.old.interrupts.htime ≤ 511 → r.new.interrupts.htime ≤ 511 }
    ensures vtime { r.old.interrupts.vtime ≤ 511 → r.new.interrupts.vtime ≤ 511 }
    ensures kind { r.old.interrupts.timer_kind ≤ 3 → r.new.interrupts.timer_kind ≤ 3 }
    ensures first { r.old.pad1.position ≤ 16 → r.new.pad1.position ≤ 16 }
    ensures second { r.old.pad2.position ≤ 16 → r.new.pad2.position ≤ 16 }
{
    match addr {
        // 4016 JOYOUT
        0x4016 => write_strobe(r, v % 2 == 1),
        // 4200 NMITIMEN
        0x4200 => write_nmitimen(&mut r.interrupts, v),
        // 4201 WRIO
        0x4201 => {
            r.port = v;
        }
        // 4202 WRMPYA
        0x4202 => {
            r.arithmetic.factor = v;
        }
        // 4203 WRMPYB
        0x4203 => multiply(&mut r.arithmetic, v),
        // 4204 WRDIVL
        0x4204 => {
            r.arithmetic.dividend = with_low(r.arithmetic.dividend, v);
        }
        // 4205 WRDIVH
        0x4205 => {
            r.arithmetic.dividend = with_high(r.arithmetic.dividend, v);
        }
        // 4206 WRDIVB
        0x4206 => divide(&mut r.arithmetic, v),
        // 4207 HTIMEL
        0x4207 => {
            r.interrupts.htime = with_low(r.interrupts.htime, v);
        }
        // 4208 HTIMEH
        0x4208 => {
            r.interrupts.htime = with_high(r.interrupts.htime, v % 2);
        }
        // 4209 VTIMEL
        0x4209 => {
            r.interrupts.vtime = with_low(r.interrupts.vtime, v);
        }
        // 420A VTIMEH
        0x420a => {
            r.interrupts.vtime = with_high(r.interrupts.vtime, v % 2);
        }
        // 420D MEMSEL
        0x420d => {
            r.fast = v % 2 == 1;
        }
        _ => {}
    }
}

/// Reads a byte at an address.
#[tactic(auto, unfolding(crate::specs::Registers::byte_read, crate::specs::Registers::after_read))]
fn read_register(r: &mut IoRegisters, addr: u16, bus: u8, beam: Spot) -> u8
    ensures byte { result ≡ byte_read r.old addr bus beam }
    ensures after { r.new ≡ after_read r.old addr }
    ensures htime { r.old.interrupts.htime ≤ 511 → r.new.interrupts.htime ≤ 511 }
    ensures vtime { r.old.interrupts.vtime ≤ 511 → r.new.interrupts.vtime ≤ 511 }
    ensures kind { r.old.interrupts.timer_kind ≤ 3 → r.new.interrupts.timer_kind ≤ 3 }
    ensures first { r.old.pad1.position ≤ 16 → r.new.pad1.position ≤ 16 }
    ensures second { r.old.pad2.position ≤ 16 → r.new.pad2.position ≤ 16 }
{
    match addr {
        // 4016 JOYSER0
        0x4016 => bus / 4 * 4 + take_bit(&mut r.pad1, r.strobe),
        // 4017 JOYSER1
        0x4017 => bus / 32 * 32 + 28 + take_bit(&mut r.pad2, r.strobe),
        // 4210 RDNMI
        0x4210 => {
            let flag = r.interrupts.nmi_flag;
            r.interrupts.nmi_flag = false;
            bit_if(flag, 128) + bus / 16 % 8 * 16 + 2
        }
        // 4211 TIMEUP
        0x4211 => {
            let flag = r.interrupts.irq_flag;
            r.interrupts.irq_flag = false;
            bit_if(flag, 128) + bus % 128
        }
        // 4212 HVBJOY
        0x4212 => {
            bit_if(beam.blank, 128)
                + bit_if(beam.h < 4 || BLANK_CLOCK <= beam.h, 64)
                + bus / 2 % 32 * 2
                + bit_if(is_reading(r, beam), 1)
        }
        // 4213 RDIO
        0x4213 => r.port,
        // 4214 RDDIVL
        0x4214 => (r.arithmetic.quotient % 256) as u8,
        // 4215 RDDIVH
        0x4215 => (r.arithmetic.quotient / 256) as u8,
        // 4216 RDMPYL
        0x4216 => (r.arithmetic.product % 256) as u8,
        // 4217 RDMPYH
        0x4217 => (r.arithmetic.product / 256) as u8,
        // 4218 JOY1L
        0x4218 => (word_shown(&r.pad1, is_reading(r, beam)) % 256) as u8,
        // 4219 JOY1H
        0x4219 => (word_shown(&r.pad1, is_reading(r, beam)) / 256) as u8,
        // 421A JOY2L
        0x421a => (word_shown(&r.pad2, is_reading(r, beam)) % 256) as u8,
        // 421B JOY2H
        0x421b => (word_shown(&r.pad2, is_reading(r, beam)) / 256) as u8,
        0x421c..=0x421f => 0,
        _ => bus,
    }
}

/// Returns whether an auto-read runs where the beam stands.
#[tactic(auto, unfolding(crate::specs::Registers::is_reading))]
fn is_reading(r: &IoRegisters, beam: Spot) -> bool
    ensures { result ≡ is_reading r.now beam }
{
    r.reading != 0
        && r.reading <= beam.v
        && (beam.v - r.reading) as u32 * LINE_CLOCKS as u32 + (beam.h as u32) < 4224
}

/// Returns the word of a pad that 4218-9 or 421A-B gives.
fn word_shown(pad: &Pad, reading: bool) -> u16
    ensures { result ≡ word_shown reading pad.now }
{
    if reading { pad.earlier } else { pad.kept }
}

/// Begins vertical blank.
#[tactic(auto, unfolding(crate::specs::Registers::blanked))]
fn begin_blank(r: &mut IoRegisters, pad1: u16, pad2: u16)
    ensures after { r.new ≡ blanked r.old pad1 pad2 }
    ensures htime { r.old.interrupts.htime ≤ 511 → r.new.interrupts.htime ≤ 511 }
    ensures vtime { r.old.interrupts.vtime ≤ 511 → r.new.interrupts.vtime ≤ 511 }
    ensures kind { r.old.interrupts.timer_kind ≤ 3 → r.new.interrupts.timer_kind ≤ 3 }
    ensures first { r.old.pad1.position ≤ 16 → r.new.pad1.position ≤ 16 }
    ensures second { r.old.pad2.position ≤ 16 → r.new.pad2.position ≤ 16 }
{
    let on = r.interrupts.auto_read;
    r.interrupts.nmi_flag = true;
    blank_pad(&mut r.pad1, on, r.strobe, pad1);
    blank_pad(&mut r.pad2, on, r.strobe, pad2);
}

#[tactic(auto, unfolding(crate::specs::Registers::strobe_written))]
fn write_strobe(r: &mut IoRegisters, strobe: bool)
    ensures after { r.new ≡ strobe_written r.old strobe }
    ensures interrupts { r.new.interrupts ≡ r.old.interrupts }
    ensures first { r.new.pad1.position ≤ r.old.pad1.position }
    ensures second { r.new.pad2.position ≤ r.old.pad2.position }
{
    r.strobe = strobe;
    if strobe {
        r.pad1.position = 0;
        r.pad2.position = 0;
    }
}

#[tactic(auto, unfolding(crate::specs::Registers::nmitimen_written))]
fn write_nmitimen(i: &mut Interrupts, v: u8)
    ensures after { i.new ≡ nmitimen_written i.old v }
    ensures htime { i.new.htime ≡ i.old.htime }
    ensures vtime { i.new.vtime ≡ i.old.vtime }
    ensures kind { i.new.timer_kind ≤ 3 }
{
    let kind = v / 16 % 4;
    i.nmi_on = v / 128 % 2 == 1;
    i.timer_kind = kind;
    i.auto_read = v / 1 % 2 == 1;
    i.irq_flag = i.irq_flag && !(kind == 0);
}

#[tactic(auto, unfolding(crate::specs::Registers::multiplied))]
fn multiply(a: &mut Arithmetic, v: u8)
    ensures { a.new ≡ multiplied a.old v }
{
    a.product = a.factor as u16 * v as u16;
}

#[tactic(auto, unfolding(crate::specs::Registers::divided))]
fn divide(a: &mut Arithmetic, v: u8)
    ensures { a.new ≡ divided a.old v }
{
    if v == 0 {
        a.quotient = 0xffff;
        a.product = a.dividend;
    } else {
        a.quotient = a.dividend / v as u16;
        a.product = a.dividend % v as u16;
    }
}

/// Returns the word with its low byte replaced.
fn with_low(word: u16, byte: u8) -> u16
    ensures { result ≡ with_low word byte }
{
    word / 256 * 256 + byte as u16
}

/// Returns the word with its high byte replaced.
fn with_high(word: u16, byte: u8) -> u16
    ensures { result ≡ with_high word byte }
{
    word % 256 + 256 * byte as u16
}

fn bit_if(set: bool, weight: u8) -> u8
    ensures { result ≡ bit_if set weight }
{
    if set { weight } else { 0 }
}

/// Returns the next bit of a pad, and moves the pad to the one after it unless the strobe is set.
#[tactic(auto, unfolding(crate::specs::Registers::pad_bit, crate::specs::Registers::pad_read))]
fn take_bit(pad: &mut Pad, strobe: bool) -> u8
    ensures bit { result ≡ pad_bit pad.old }
    ensures after { pad.new ≡ pad_read strobe pad.old }
    ensures within { pad.old.position ≤ 16 → pad.new.position ≤ 16 }
    ensures small { result < 2 }
{
    if pad.position >= 16 {
        return 1;
    }
    let bit = (pad.word >> (15 - pad.position)) % 2;
    if !strobe {
        pad.position += 1;
    }
    bit as u8
}

#[tactic(auto, unfolding(crate::specs::Registers::pad_blanked))]
fn blank_pad(pad: &mut Pad, auto_read: bool, strobe: bool, word: u16)
    ensures after { pad.new ≡ pad_blanked auto_read strobe pad.old word }
    ensures within { pad.old.position ≤ 16 → pad.new.position ≤ 16 }
{
    pad.word = word;
    if auto_read {
        pad.kept = word;
        pad.position = if strobe { 0 } else { 16 };
    }
}
