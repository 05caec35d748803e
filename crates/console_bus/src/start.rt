//! The bus at the start of a console.
ghost use Rattle.std.specs.Prelude.{◌≡◌, ◌+◌, ◌++◌, All, IfOk, length, replicate};
ghost use Rattle.console_bus.specs.BusState.{board_of, beam_start, channels_start, memory_start, bus_start, with_pads};
ghost use Rattle.io_math.specs.Registers.{registers_start};

use crate::address_map::AddressMap;
use crate::bus::{Bus, WORK_RAM};
use crate::cart_board::CartBoard;
use beam::Beam;
use dma_hdma::Dma;
use io_math::Io;
use ppu_regs::Ppu;
use snes_defs::{Cart, NoMemory, Region, Spans};
use std::alloc::Global;
use tile_cache::TileCache;

impl Bus {
    /// Makes the bus of a console at its start, with a cartridge and a script. It allocates all its memory here,
    /// and fails only if allocation fails.
    pub fn new(alloc: Global, cart: &Cart, script: &Spans, region: Region) -> Result<Bus, NoMemory>
        ensures { IfOk result (λ bus. bus ≡ bus_start cart.now script.now region) }
    {
        let memory = memory_of(alloc, cart)?;
        let mut map = AddressMap::new(alloc, board(cart))?;
        let ppu = Ppu::new(alloc, script.profile())?;
        let tiles = TileCache::new(alloc)?;
        let copied = script.copied(alloc)?;
        let io = first_io(script);
        map.set_speed(io.fast());
        let mut beam = Beam::new(region);
        beam.aim(io.irq_time());
        Ok(Bus {
            map,
            script: copied,
            memory,
            port: 0,
            io,
            dma: no_transfers(),
            ppu,
            tiles,
            beam,
            frame: 0,
            last: 0,
            refresh: false,
            reset: false,
        })
    }
}

/// Returns the cartridge's map and sizes.
fn board(cart: &Cart) -> CartBoard
    ensures { result ≡ board_of cart.now }
{
    CartBoard {
        map: cart.map,
        rom: cart.rom.get().len(),
        ram: cart.ram,
    }
}

/// Returns the registers of the CPU's chip at the start, with the pads of frame 0.
fn first_io(script: &Spans) -> Io
    ensures { result ≡ with_pads script.now 0 registers_start }
{
    let (pad1, pad2) = script.pads(0);
    let mut io = Io::new();
    io.frame(pad1, pad2);
    io
}

/// Returns channels with nothing to do.
#[tactic(auto, unfolding(crate::specs::BusState::channels_start))]
fn no_transfers() -> Dma
    ensures { result ≡ channels_start }
{
    Dma::new()
}

/// Makes the memory: work RAM and the cartridge's RAM as zeros, then its ROM.
#[tactic(auto, unfolding(crate::specs::BusState::memory_start), using(crate::proofs::Zeros::same_zeros))]
fn memory_of(alloc: Global, cart: &Cart) -> Result<Vec<u8>, NoMemory>
    ensures { IfOk result (λ memory. memory.items ≡ memory_start cart.now.ram cart.now.rom) }
{
    let mut memory = zeroed(alloc, WORK_RAM + cart.ram as usize)?;
    match memory.extend_from_slice(cart.rom.get()) {
        Ok(()) => Ok(memory),
        Err(_) => Err(NoMemory),
    }
}

/// Makes `size` zeros.
fn zeroed(alloc: Global, size: usize) -> Result<Vec<u8>, NoMemory>
    ensures size { IfOk result (λ memory. length memory.items ≡ size) }
    ensures zeros { IfOk result (λ memory. All (λ b. b ≡ 0) memory.items) }
{
    match vec![in alloc; 0u8; size] {
        Ok(memory) => Ok(memory),
        Err(_) => Err(NoMemory),
    }
}
