//! The PPU as one value: writes, reads and the events of the beam.
ghost use Rattle.std.specs.Prelude.{◌≡◌, ℕ, ◌<◌, ◌≤◌, ◌+◌, ◌*◌, length, slice_index, All, IfOk, IfSome, not, true};
ghost use Rattle.std.specs.Prelude.{false};
ghost use Rattle.ppu_regs.specs.Picture.{IsInRange, picture_start, vram_words, zeros};
ghost use Rattle.ppu_regs.specs.Writes.{registers_written, oam_written, vram_low_set, vram_high_set, vram_low_put};
ghost use Rattle.ppu_regs.specs.Writes.{vram_high_put, vram_passed, colour_put, after_write, word_written, after_over};
ghost use Rattle.ppu_regs.specs.Writes.{after_frame, after_blank};
ghost use Rattle.ppu_regs.specs.Reads.{byte_read, after_read, latched, count_byte, status_two};
ghost use Rattle.ppu_regs.specs.Ports.{vram_place, oam_place, oam_stepped, vram_port_read, cgram_byte, cgram_port_read};

use crate::oam::{self, Oam};
use crate::reads::part_of_count;
use crate::registers::{Over, Registers};
use crate::{cgram, vram};
use snes_defs::{NoMemory, Profile, Spot};
use std::alloc::Global;
use std::marker::Model;

mod copy;

/// The number of words in VRAM.
const VRAM_WORDS: usize = 32_768;

/// The PPU: its registers and its three memories. Contracts see it as the record `Picture`.
#[derive(Drop)]
pub struct Ppu {
    registers: Registers,
    vram: Vec<u16>,
    cgram: [u16; 256],
    oam: Oam,
}

impl Model for Ppu {
    ghost use Rattle.ppu_regs.specs.Picture.{Picture, IsInRange};

    ghost Value = { Picture };

    ghost view = { λ p. record { registers = p.registers; vram = p.vram.items; cgram = p.cgram; oam = p.oam } };

    ghost invariant = { λ p. IsInRange (record {
      registers = p.registers;
      vram = p.vram.items;
      cgram = p.cgram;
      oam = p.oam;
    }) };
}

impl Ppu {
    /// Returns the PPU of a profile at its start: forced blank, all else zeros. Fails only if allocation fails.
    pub fn new(alloc: Global, profile: Profile) -> Result<Ppu, NoMemory>
        ensures start { IfOk result (λ p. p ≡ picture_start profile) }
    {
        let vram = no_words(alloc)?;
        Ok(Ppu {
            registers: Registers::start(profile),
            vram,
            cgram: no_colours(),
            oam: Oam::new(),
        })
    }

    /// Returns all registers.
    #[inline(always)]
    pub fn registers(&self) -> &Registers
        ensures { result.now ≡ self.now.registers }
    {
        &self.registers
    }

    /// Returns VRAM, 32,768 words.
    #[inline(always)]
    pub fn vram(&self) -> &[u16]
        ensures words { result.now ≡ self.now.vram }
        ensures size { length result.now ≡ 32768 }
    {
        self.vram.as_slice()
    }

    /// Returns CGRAM: 256 colours of 15 bits, red in bits 4-0, green in 9-5, blue in 14-10.
    #[inline(always)]
    pub fn cgram(&self) -> &[u16; 256]
        ensures colours { result.now ≡ self.now.cgram }
        ensures small { (k : ℕ) → slice_index result.now k < 32768 }
    {
        &self.cgram
    }

    /// Returns OAM, 544 bytes.
    #[inline(always)]
    pub fn oam(&self) -> &[u8; 544]
        ensures { result.now ≡ self.now.oam }
    {
        self.oam.bytes()
    }

    /// Returns the Y of each of OAM's 128 objects.
    #[inline(always)]
    pub fn tops(&self) -> &[u8; 128]
        ensures { (n : ℕ) → n < 128 → slice_index result.now n ≡ slice_index self.now.oam (4 * n + 1) }
    {
        self.oam.tops()
    }

    /// Gives a caller's proof the ranges of the registers. It changes nothing.
    #[inline(always)]
    pub fn in_range(&self)
        ensures { IsInRange self.now }
    {
        let _mode = self.registers.mode;
    }

    /// Writes a byte to the register 2100 plus `reg`. Returns the word of VRAM that was written, if `reg` is
    /// 2118 or 2119.
    #[inline]
    #[tactic(auto, unfolding(crate::specs::Writes::after_write, crate::specs::Writes::word_written))]
    pub fn write(&mut self, reg: u8, v: u8) -> Option<u16>
        requires { reg < 0x40 }
        ensures word { result ≡ word_written self.old reg }
        ensures within { IfSome result (λ word. word < 32768) }
        ensures after { self.new ≡ after_write self.old reg v }
    {
        match reg {
            // 2104 OAMDATA
            0x04 => self.write_oam(v),
            // 2116 VMADDL
            0x16 => self.aim_vram_low(v),
            // 2117 VMADDH
            0x17 => self.aim_vram_high(v),
            // 2118 VMDATAL
            0x18 => return Some(self.put_vram_low(v)),
            // 2119 VMDATAH
            0x19 => return Some(self.put_vram_high(v)),
            // 2122 CGDATA
            0x22 => self.put_colour(v),
            _ => self.write_register(reg, v),
        }
        None
    }

    /// Reads a byte from the register 2100 plus `reg`. `bus` is the byte last on the data bus, `spot` the place of
    /// the beam.
    #[inline]
    #[tactic(auto, unfolding(crate::specs::Reads::byte_read, crate::specs::Reads::registers_read))]
    pub fn read(&mut self, reg: u8, bus: u8, spot: Spot) -> u8
        requires { reg < 0x40 }
        ensures byte { result ≡ byte_read self.old reg bus }
        ensures after { self.new ≡ after_read self.old reg spot }
    {
        match reg {
            // 2134 MPYL
            0x34 => (self.registers.rotation.product() % 256) as u8,
            // 2135 MPYM
            0x35 => (self.registers.rotation.product() / 256 % 256) as u8,
            // 2136 MPYH
            0x36 => (self.registers.rotation.product() / 65536) as u8,
            // 2137 SLHV
            0x37 => {
                self.latch(spot);
                bus
            }
            // 2138 OAMDATAREAD
            0x38 => self.read_oam(),
            // 2139 RDVRAML
            0x39 => (self.read_vram(false) % 256) as u8,
            // 213A RDVRAMH
            0x3a => (self.read_vram(true) / 256) as u8,
            // 213B CGDATAREAD
            0x3b => self.read_colour(),
            // 213C OPHCT
            0x3c => self.read_h_count(),
            // 213D OPVCT
            0x3d => self.read_v_count(),
            // 213E STAT77
            0x3e => self.registers.over.status(),
            // 213F STAT78
            0x3f => self.read_status(),
            _ => bus,
        }
    }

    /// Makes a write of 2118 VMDATAL, or of 2119 VMDATAH if `reg` is 19h, that VRAM does not take: steps the address
    /// as such a write does, and changes nothing else.
    #[inline]
    #[tactic(auto, unfolding(crate::specs::Writes::vram_passed))]
    pub fn pass_vram(&mut self, reg: u8)
        ensures after { self.new ≡ vram_passed self.old reg }
        ensures words { self.new.vram ≡ self.old.vram }
    {
        vram::step_after(&mut self.registers.vram, reg == 0x19);
    }

    /// Keeps the place of the beam, as a read of 2137 SLHV does.
    #[inline(always)]
    pub fn latch(&mut self, spot: Spot)
        ensures { self.new ≡ latched self.old spot }
    {
        self.registers.counters.latch(spot);
    }

    /// Adds the flags of a row to those of the objects' limits.
    pub fn over(&mut self, row: Over)
        ensures { self.new ≡ after_over self.old row }
    {
        let over = &mut self.registers.over;
        over.range = over.range || row.range;
        over.time = over.time || row.time;
    }

    /// Begins a frame: clears the flags of the objects' limits.
    pub fn frame(&mut self)
        ensures { self.new ≡ after_frame self.old }
    {
        self.registers.over = Over {
            range: false,
            time: false,
        };
    }

    /// Begins vertical blank: reloads the byte address of OAM from its word address, unless forced blank is set.
    pub fn blank(&mut self)
        ensures { self.new ≡ after_blank self.old }
    {
        if self.registers.display.blanked {
            return;
        }
        self.registers.oam.address = 2 * self.registers.oam.word;
    }

    /// Writes any register that reaches no memory.
    fn write_register(&mut self, reg: u8, v: u8)
        ensures { self.new ≡ (let r = registers_written self.old.registers reg v in record self.old { registers = r }) }
    {
        self.registers.write(reg, v);
    }

    /// Writes 2104 OAMDATA.
    #[inline(always)]
    #[tactic(auto, unfolding(crate::specs::Writes::oam_written))]
    fn write_oam(&mut self, v: u8)
        ensures { self.new ≡ oam_written self.old v }
    {
        self.oam.put(&mut self.registers.oam, v);
    }

    /// Writes 2116 VMADDL.
    #[inline(always)]
    #[tactic(auto, unfolding(crate::specs::Writes::vram_low_set))]
    fn aim_vram_low(&mut self, v: u8)
        ensures { self.new ≡ vram_low_set self.old v }
    {
        vram::aim_low(self.vram.as_slice(), &mut self.registers.vram, v);
    }

    /// Writes 2117 VMADDH.
    #[inline(always)]
    #[tactic(auto, unfolding(crate::specs::Writes::vram_high_set))]
    fn aim_vram_high(&mut self, v: u8)
        ensures { self.new ≡ vram_high_set self.old v }
    {
        vram::aim_high(self.vram.as_slice(), &mut self.registers.vram, v);
    }

    /// Writes 2118 VMDATAL. Returns the word of VRAM that was written.
    #[inline(always)]
    #[tactic(auto, unfolding(crate::specs::Writes::vram_low_put))]
    fn put_vram_low(&mut self, v: u8) -> u16
        ensures word { result ≡ vram_place self.old.registers.vram }
        ensures within { result < 32768 }
        ensures after { self.new ≡ vram_low_put self.old v }
    {
        vram::put_low(self.vram.as_mut_slice(), &mut self.registers.vram, v)
    }

    /// Writes 2119 VMDATAH. Returns the word of VRAM that was written.
    #[inline(always)]
    #[tactic(auto, unfolding(crate::specs::Writes::vram_high_put))]
    fn put_vram_high(&mut self, v: u8) -> u16
        ensures word { result ≡ vram_place self.old.registers.vram }
        ensures within { result < 32768 }
        ensures after { self.new ≡ vram_high_put self.old v }
    {
        vram::put_high(self.vram.as_mut_slice(), &mut self.registers.vram, v)
    }

    /// Writes 2122 CGDATA.
    #[inline(always)]
    #[tactic(auto, unfolding(crate::specs::Writes::colour_put))]
    fn put_colour(&mut self, v: u8)
        ensures { self.new ≡ colour_put self.old v }
    {
        cgram::write_byte(&mut self.cgram, &mut self.registers.cgram, v);
    }

    /// Reads 2138 OAMDATAREAD.
    #[inline(always)]
    fn read_oam(&mut self) -> u8
        ensures byte { result ≡ slice_index self.old.oam (oam_place self.old.registers.oam.address) }
        ensures after { self.new ≡ (record self.old {
          registers = record self.old.registers {
            oam = oam_stepped self.old.registers.oam;
          };
        }) }
    {
        let byte = self.oam.bytes()[oam::place(self.registers.oam.address)];
        oam::step(&mut self.registers.oam);
        byte
    }

    /// Reads 2139 RDVRAML or 213A RDVRAMH. Returns the word that was fetched ahead.
    #[inline(always)]
    fn read_vram(&mut self, high: bool) -> u16
        ensures word { result ≡ self.old.registers.vram.fetched }
        ensures after { self.new ≡ (record self.old {
          registers = record self.old.registers {
            vram = vram_port_read self.old.vram self.old.registers.vram high;
          };
        }) }
    {
        let word = self.registers.vram.fetched;
        vram::fetch_after_read(self.vram.as_slice(), &mut self.registers.vram, high);
        word
    }

    /// Reads 213B RDCGRAM.
    #[inline(always)]
    fn read_colour(&mut self) -> u8
        ensures byte { result ≡ cgram_byte self.old.cgram self.old.registers.cgram }
        ensures after { self.new ≡ (record self.old {
          registers = record self.old.registers {
            cgram = cgram_port_read self.old.registers.cgram;
          };
        }) }
    {
        cgram::read_byte(&self.cgram, &mut self.registers.cgram)
    }

    /// Reads 213C OPHCT.
    #[inline(always)]
    fn read_h_count(&mut self) -> u8
        ensures byte { result ≡ count_byte self.old.registers.counters.h self.old.registers.counters.h_high }
        ensures after { self.new ≡ (record self.old {
          registers = record self.old.registers {
            counters = record self.old.registers.counters { h_high = not self.old.registers.counters.h_high };
          };
        }) }
    {
        let high = self.registers.counters.h_high;
        self.registers.counters.h_high = !high;
        part_of_count(self.registers.counters.h, high)
    }

    /// Reads 213D OPVCT.
    #[inline(always)]
    fn read_v_count(&mut self) -> u8
        ensures byte { result ≡ count_byte self.old.registers.counters.v self.old.registers.counters.v_high }
        ensures after { self.new ≡ (record self.old {
          registers = record self.old.registers {
            counters = record self.old.registers.counters { v_high = not self.old.registers.counters.v_high };
          };
        }) }
    {
        let high = self.registers.counters.v_high;
        self.registers.counters.v_high = !high;
        part_of_count(self.registers.counters.v, high)
    }

    /// Reads 213F STAT78, which clears the counters' flag and makes the low byte of both the next one.
    #[inline(always)]
    fn read_status(&mut self) -> u8
        ensures byte { result ≡ status_two self.old.registers.counters }
        ensures after { self.new ≡ (record self.old {
          registers = record self.old.registers {
            counters = record self.old.registers.counters { latched = false; h_high = false; v_high = false };
          };
        }) }
    {
        let status = self.registers.counters.status();
        self.registers.counters.latched = false;
        self.registers.counters.h_high = false;
        self.registers.counters.v_high = false;
        status
    }
}

#[tactic(auto, using(crate::proofs::Zeros::zeros_are))]
fn no_words(alloc: Global) -> Result<Vec<u16>, NoMemory>
    ensures { IfOk result (λ words. words.items ≡ zeros vram_words) }
{
    zeroed(alloc, VRAM_WORDS)
}

fn zeroed(alloc: Global, size: usize) -> Result<Vec<u16>, NoMemory>
    ensures size { IfOk result (λ words. length words.items ≡ size) }
    ensures zeros { IfOk result (λ words. All (λ w. w ≡ 0) words.items) }
{
    match vec![in alloc; 0u16; size] {
        Ok(words) => Ok(words),
        Err(_) => Err(NoMemory),
    }
}

#[tactic(auto, unfolding(crate::specs::Picture::zeros))]
fn no_colours() -> [u16; 256]
    ensures { result ≡ zeros 256 }
{
    [0; 256]
}
