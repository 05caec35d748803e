//! The bus as one value: reads and writes of memory, places and registers.
ghost use Rattle.std.specs.Prelude.{◌≡◌, ◌<◌, ◌≤◌, ◌+◌, ◌^◌, ◌++◌, length, IfOk, IfSome, IsTrue, List, slice_index};
ghost use Rattle.snes_defs.specs.declared.cart.Cart.{Cart};
ghost use Rattle.beam.specs.Places.{clocks_left};
ghost use Rattle.cart_map.specs.Place.{IsInside};
ghost use Rattle.console_bus.specs.BusState.{BusState, bus_start, with_pads};
ghost use Rattle.console_bus.specs.Memory.{IsMemoryAt, IsStretch, stored};
ghost use Rattle.console_bus.specs.Places.{place_at, a_side, taken_from, register_byte, register_read};
ghost use Rattle.console_bus.specs.Places.{register_written, chip_byte, chip_read, chip_written, IsStill, place_byte};
ghost use Rattle.console_bus.specs.Places.{place_read, place_written, on_bus};

use crate::address_map::{AddressMap, MemoryAccess};
use beam::Beam;
use cart_map::{Place, place_in};
use dma_hdma::Dma;
use io_math::Io;
use ppu_regs::Ppu;
use snes_defs::{NoMemory, Spans, Spot};
use std::marker::Model;
use tile_cache::TileCache;

/// The size of work RAM in bytes.
pub(crate) const WORK_RAM: usize = 131_072;

/// The console side without its processor. Contracts see it as a `BusState`.
#[derive(Drop)]
pub struct Bus {
    /// The cartridge's board, with the pages of its address map at the speed of now.
    pub(crate) map: AddressMap,
    /// The controller script.
    pub(crate) script: Spans,
    /// Work RAM, then the cartridge's RAM, then its ROM.
    pub(crate) memory: Vec<u8>,
    /// The address of 2180 WMDATA in work RAM, 17 bits.
    pub(crate) port: u32,
    /// The CPU's own registers.
    pub(crate) io: Io,
    /// The DMA channels.
    pub(crate) dma: Dma,
    /// The PPU.
    pub(crate) ppu: Ppu,
    /// The decoded tiles, in step with VRAM.
    pub(crate) tiles: TileCache,
    /// The beam.
    pub(crate) beam: Beam,
    /// The number of the frame from 0. It stays at 65,535.
    pub(crate) frame: u16,
    /// The byte last on the data bus.
    pub(crate) last: u8,
    /// Whether a refresh is due.
    pub(crate) refresh: bool,
    /// Whether a reset is due.
    pub(crate) reset: bool,
}

impl Model for Bus {
    ghost use Rattle.std.specs.Prelude.{◌≡◌, ◌<◌, ◌+◌, length};
    ghost use Rattle.tile_cache.specs.Bitplanes.{IsInStep};
    ghost use Rattle.console_bus.specs.BusState.{BusState, timer_of};

    ghost Value = { BusState };

    ghost view = { λ b. record {
      board = b.map.board;
      script = b.script;
      memory = b.memory.items;
      port = b.port;
      io = b.io;
      channels = b.dma;
      picture = b.ppu;
      beam = b.beam;
      frame = b.frame;
      last = b.last;
      refresh = b.refresh;
      reset = b.reset;
    } };

    ghost invariant = { λ b. (length b.memory.items ≡ 131072 + b.map.board.ram + b.map.board.rom)
        × (0 < b.map.board.rom) × (b.map.fast ≡ b.io.fast) × (b.port < 131072)
        × (b.beam.timer ≡ timer_of b.io) × IsInStep b.tiles b.ppu.vram };
}

impl Bus {
    /// Returns what lies at a 24-bit address.
    #[inline(always)]
    #[tactic(auto, using(crate::proofs::Addresses::same_bank, crate::proofs::Addresses::same_offset))]
    pub fn place(&self, addr: u32) -> Place
        ensures place { result ≡ place_at self.now.board addr }
        ensures inside { IsInside self.now.board.rom self.now.board.ram result }
    {
        let board = self.map.board();
        place_in(board.map, board.rom, board.ram, addr % 0x100_0000)
    }

    /// Returns the access to the memory at a 24-bit address: its byte and its clocks. None if the page of the
    /// address isn't memory.
    #[inline(always)]
    pub fn memory_at(&self, addr: u32) -> Option<MemoryAccess>
        requires { addr < 2 ^ 24 }
        ensures { IfSome result (λ access. IsMemoryAt self.now.board self.now.io.fast addr access.at access.clocks) }
    {
        self.map.memory_at(addr)
    }

    /// Returns the access to the memory at a 24-bit address, if it ends before the beam's next event. So nothing
    /// else happens in its clocks. None also if the page of the address isn't memory.
    #[inline(always)]
    pub fn memory_within(&self, addr: u32) -> Option<MemoryAccess>
        requires { addr < 2 ^ 24 }
        ensures memory { IfSome result
            (λ access. IsMemoryAt self.now.board self.now.io.fast addr access.at access.clocks) }
        ensures within { IfSome result (λ access. access.clocks < clocks_left self.now.beam) }
    {
        self.map.memory_within(addr, self.beam.clocks_left())
    }

    /// Returns the access to the memory at a 24-bit address. The addresses after it in its page of 8 KiB have the
    /// bytes after that one, at the same clocks. None if the page of the address isn't memory.
    #[inline(always)]
    pub fn stretch_at(&self, addr: u32) -> Option<MemoryAccess>
        requires { addr < 2 ^ 24 }
        ensures stretch { IfSome result
            (λ access. IsStretch self.now.board self.now.io.fast addr access.at access.clocks) }
        ensures below { IfSome result (λ access. access.at < 2 ^ 33) }
    {
        self.map.stretch_at(addr)
    }

    /// Returns a byte of the memory.
    #[inline(always)]
    pub fn load(&self, at: usize) -> u8
        requires { at < 131072 + self.now.board.ram + self.now.board.rom }
        ensures { result ≡ slice_index self.now.memory at }
    {
        self.memory[at]
    }

    /// Writes a byte of the memory. ROM stays unchanged.
    #[inline(always)]
    pub fn store(&mut self, at: usize, v: u8)
        requires { at < 131072 + self.old.board.ram + self.old.board.rom }
        ensures { self.new ≡ stored self.old at v }
    {
        if at < WORK_RAM + self.map.board().ram as usize {
            self.memory[at] = v;
        }
    }

    /// Returns the byte that a transfer takes from the A side, at a 24-bit address.
    #[inline(always)]
    pub fn take(&self, addr: u32) -> u8
        ensures { result ≡ taken_from self.now addr }
    {
        match self.place(addr) {
            Place::Wram(i) => self.memory[i as usize],
            Place::Ram(i) => self.memory[WORK_RAM + i as usize],
            Place::Rom(i) => self.memory[WORK_RAM + self.map.board().ram as usize + i as usize],
            Place::BBus(_) => self.last,
            Place::Cpu(_) => self.last,
            Place::Open => self.last,
        }
    }

    /// Writes a byte of a transfer to the A side, at a 24-bit address.
    #[inline(always)]
    pub fn give(&mut self, addr: u32, v: u8)
        ensures given { self.new ≡ place_written self.old (a_side (place_at self.old.board addr)) v }
        ensures channels { self.new.channels ≡ self.old.channels }
    {
        match self.place(addr) {
            Place::Wram(i) => self.memory[i as usize] = v,
            Place::Ram(i) => self.memory[WORK_RAM + i as usize] = v,
            Place::Rom(_) => {}
            Place::BBus(_) => {}
            Place::Cpu(_) => {}
            Place::Open => {}
        }
    }

    /// Reads a byte at a place. `got` is the byte that a port to the sound side gives.
    #[inline(always)]
    pub fn read_place(&mut self, place: Place, got: u8) -> u8
        requires { IsInside self.old.board.rom self.old.board.ram place }
        ensures byte { result ≡ place_byte self.old place got }
        ensures after { self.new ≡ place_read self.old place }
    {
        match place {
            Place::Wram(i) => self.memory[i as usize],
            Place::Ram(i) => self.memory[WORK_RAM + i as usize],
            Place::Rom(i) => self.memory[WORK_RAM + self.map.board().ram as usize + i as usize],
            Place::BBus(register) => self.read_register(register, got),
            Place::Cpu(register) => self.read_chip(register),
            Place::Open => self.last,
        }
    }

    /// Writes a byte at a place. At a port to the sound side the write is left to the caller.
    #[inline(always)]
    pub fn write_place(&mut self, place: Place, v: u8)
        requires { IsInside self.old.board.rom self.old.board.ram place }
        ensures { self.new ≡ place_written self.old place v }
    {
        match place {
            Place::Wram(i) => self.memory[i as usize] = v,
            Place::Ram(i) => self.memory[WORK_RAM + i as usize] = v,
            Place::Rom(_) => {}
            Place::BBus(register) => self.write_register(register, v),
            Place::Cpu(register) => self.write_chip(register, v),
            Place::Open => {}
        }
    }

    /// Reads a register of the B bus, 2100 plus `register`. `got` is the byte that a port to the sound side gives.
    #[tactic(auto, unfolding(crate::specs::Places::register_byte, crate::specs::Places::register_read))]
    pub fn read_register(&mut self, register: u8, got: u8) -> u8
        ensures byte { result ≡ register_byte self.old register got }
        ensures after { self.new ≡ register_read self.old register }
        ensures same { self.new.channels ≡ self.old.channels }
    {
        if register < 0x40 {
            return self.read_picture(register);
        }
        if register < 0x80 {
            return got;
        }
        if register == 0x80 {
            let byte = self.memory[self.port as usize];
            self.port = (self.port + 1) % 0x20000;
            return byte;
        }
        self.last
    }

    /// Writes a register of the B bus, 2100 plus `register`. At a port to the sound side the write is left to the
    /// caller.
    #[tactic(auto, unfolding(crate::specs::Places::register_written))]
    pub fn write_register(&mut self, register: u8, v: u8)
        ensures written { self.new ≡ register_written self.old register v }
        ensures same { self.new.channels ≡ self.old.channels }
    {
        if register < 0x40 {
            self.write_picture(register, v);
            return;
        }
        match register {
            // 2180 WMDATA
            0x80 => {
                self.memory[self.port as usize] = v;
                self.port = (self.port + 1) % 0x20000;
            }
            // 2181 WMADDL
            0x81 => {
                self.port = self.port / 0x100 * 0x100 + v as u32;
            }
            // 2182 WMADDM
            0x82 => {
                self.port = self.port / 0x10000 * 0x10000 + 0x100 * v as u32 + self.port % 0x100;
            }
            // 2183 WMADDH
            0x83 => {
                self.port = 0x10000 * (v % 2) as u32 + self.port % 0x10000;
            }
            _ => {}
        }
    }

    /// Reads a register of the CPU's chip, 4016 to 437F.
    #[tactic(auto, unfolding(crate::specs::Places::chip_byte, crate::specs::Places::chip_read), using(crate::proofs::Timers::timer_read, crate::proofs::Speeds::fast_read))]
    pub fn read_chip(&mut self, register: u16) -> u8
        ensures byte { result ≡ chip_byte self.old register }
        ensures after { self.new ≡ chip_read self.old register }
    {
        if 0x4300 <= register && register <= 0x437f {
            return self.dma.read(register, self.last);
        }
        let spot = self.beam.spot();
        self.io.read(register, self.last, spot)
    }

    /// Whether a register of the CPU's chip is 4210 RDNMI or 4211 TIMEUP, with its flag clear. A read of it changes
    /// nothing then, and gives the same byte wherever the beam stands.
    #[tactic(auto, using(crate::proofs::Stills::still_nmi, crate::proofs::Stills::still_irq))]
    pub fn is_still(&self, register: u16) -> bool
        ensures { IsTrue result → IsStill self.now register }
    {
        let (nmi, irq) = self.io.flags();
        match register {
            0x4210 => !nmi,
            0x4211 => !irq,
            _ => false,
        }
    }

    /// Writes a register of the CPU's chip, 4016 to 437F.
    #[tactic(auto, unfolding(crate::specs::Places::chip_written))]
    pub fn write_chip(&mut self, register: u16, v: u8)
        ensures { self.new ≡ chip_written self.old register v }
    {
        if 0x4300 <= register && register <= 0x437f {
            self.dma.write(register, v);
            return;
        }
        match register {
            // 420B MDMAEN
            0x420b => self.dma.start(v),
            // 420C HDMAEN
            0x420c => self.dma.enable(v),
            _ => self.write_io(register, v),
        }
    }

    /// Writes a register of multiplication or division of the CPU's chip, 4202 to 4206. Nothing else changes, so the
    /// beam's next event stays where it is.
    #[tactic(auto, using(crate::proofs::Arithmetic::arithmetic_written, crate::proofs::Arithmetic::timer_written, crate::proofs::Arithmetic::fast_written))]
    pub fn write_arithmetic(&mut self, register: u16, v: u8)
        requires first { 0x4202 ≤ register }
        requires last { register ≤ 0x4206 }
        ensures written { self.new ≡ chip_written self.old register v }
        ensures beam { self.new.beam ≡ self.old.beam }
        ensures channels { self.new.channels ≡ self.old.channels }
        ensures refresh { self.new.refresh ≡ self.old.refresh }
        ensures reset { self.new.reset ≡ self.old.reset }
    {
        self.io.write(register, v);
    }
}
