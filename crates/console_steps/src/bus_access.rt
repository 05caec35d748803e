// One look at an address: what an access of the processor reaches there, and how long it lasts. The page table comes
// first, then the registers of the B bus, then the rest of the address map. An access that is made at once
// (`try_plain`) asks the page table alone, or the registers.
ghost use Rattle.std.specs.Prelude.{◌≡◌, ◌<◌, ◌^◌, Bool, IfSome};
ghost use Rattle.cart_map.specs.declared.places.Place.TheVariants.{BBus, Cpu as Own};
ghost use Rattle.cart_map.specs.Clocks.{clocks_of};
ghost use Rattle.cart_map.specs.Place.{IsInside};
ghost use Rattle.console_bus.specs.declared.cart_board.CartBoard.{CartBoard};
ghost use Rattle.console_bus.specs.Places.{place_at, is_port};
ghost use Rattle.console_steps.specs.Targets.{target_at, IsWithin};

use cart_map::{Place, clocks};
use console_bus::Bus;

/// The size of work RAM in bytes. The memory begins with it.
const WORK_RAM: usize = 131_072;

/// Master clocks of an access of the B bus.
pub const REGISTER_CLOCKS: u8 = 6;

/// What an access of the processor reaches.
#[derive(Clone, Copy)]
pub enum Target {
    /// This byte of the memory: work RAM, then the cartridge's RAM, then its ROM.
    Memory(usize),
    /// A port to the sound side, 0 to 3.
    Port(u8),
    /// A register of the B bus other than a port: 2100 plus this.
    Register(u8),
    /// A register of the CPU's chip: 4016, 4017, 4200 to 421F or 4300 to 437F.
    Chip(u16),
    /// Nothing: a read gives the byte last on the data bus, a write does nothing.
    Nothing,
}

/// An access of the processor at an address: what it reaches, and its clocks.
#[derive(Clone, Copy)]
pub struct BusAccess {
    /// What the access reaches.
    pub target: Target,
    /// The master clocks that the access takes.
    pub clocks: u8,
}

/// Whether a register of the B bus, 2100 plus this, is a port to the sound side.
#[inline(always)]
pub fn is_port(register: u8) -> bool
    ensures { result ≡ is_port register }
{
    0x40 <= register && register < 0x80
}

/// Returns what an access of a register of the B bus reaches: one of the ports, or the register.
#[inline(always)]
fn register_target(register: u8) -> Target
    ensures target { (board : CartBoard) → result ≡ target_at board (BBus register) }
    ensures within { (board : CartBoard) → IsWithin board result }
{
    if is_port(register) {
        Target::Port(register % 4)
    } else {
        Target::Register(register)
    }
}

/// Returns the register of the B bus at a 24-bit address, if there is one: its number from 2100 on.
#[inline(always)]
#[tactic(auto, using(crate::proofs::BusRegisters::register_place, crate::proofs::BusRegisters::register_clocks))]
pub fn bus_register(addr: u32) -> Option<u8>
    ensures place { IfSome result (λ register. (board : CartBoard) → place_at board addr ≡ BBus register) }
    ensures lasts { IfSome result (λ register. (fast : Bool) → clocks_of addr fast ≡ 6) }
{
    if addr / 65536 % 128 < 64 && addr / 256 % 256 == 0x21 {
        return Some((addr % 256) as u8);
    }
    None
}

/// Returns the register of the CPU's chip at a 24-bit address, if it is one of 4200 to 421F.
#[inline(always)]
#[tactic(auto, using(crate::proofs::ChipRegisters::chip_place, crate::proofs::ChipRegisters::chip_clocks))]
pub(crate) fn chip_register(addr: u32) -> Option<u16>
    ensures place { IfSome result (λ register. (board : CartBoard) → place_at board addr ≡ Own register) }
    ensures lasts { IfSome result (λ register. (fast : Bool) → clocks_of addr fast ≡ 6) }
{
    if addr / 65536 % 128 < 64 && addr / 32 % 2048 == 0x210 {
        return Some((addr % 65536) as u16);
    }
    None
}

/// Returns what an access of a place reaches.
#[inline(always)]
fn place_target(bus: &Bus, place: Place) -> Target
    requires { IsInside bus.now.board.rom bus.now.board.ram place }
    ensures target { result ≡ target_at bus.now.board place }
    ensures within { IsWithin bus.now.board result }
{
    match place {
        Place::Wram(i) => Target::Memory(i as usize),
        Place::Ram(i) => Target::Memory(WORK_RAM + i as usize),
        Place::Rom(i) => Target::Memory(WORK_RAM + bus.cart_ram() as usize + i as usize),
        Place::BBus(register) => register_target(register),
        Place::Cpu(register) => Target::Chip(register),
        Place::Open => Target::Nothing,
    }
}

/// Looks an address up in the address map, without its pages.
fn look_further(bus: &Bus, addr: u32) -> BusAccess
    requires { addr < 2 ^ 24 }
    ensures target { result.target ≡ target_at bus.now.board (place_at bus.now.board addr) }
    ensures lies { IsInside bus.now.board.rom bus.now.board.ram (place_at bus.now.board addr) }
    ensures within { IsWithin bus.now.board result.target }
    ensures clocks { result.clocks ≡ clocks_of addr bus.now.io.fast }
{
    let target = place_target(bus, bus.place(addr));
    BusAccess {
        target,
        clocks: clocks(addr, bus.fast()),
    }
}

/// Looks a 24-bit address up: what an access of the processor reaches there, and how long it lasts.
#[inline(always)]
pub fn look_up(bus: &Bus, addr: u32) -> BusAccess
    requires { addr < 2 ^ 24 }
    ensures target { result.target ≡ target_at bus.now.board (place_at bus.now.board addr) }
    ensures lies { IsInside bus.now.board.rom bus.now.board.ram (place_at bus.now.board addr) }
    ensures within { IsWithin bus.now.board result.target }
    ensures clocks { result.clocks ≡ clocks_of addr bus.now.io.fast }
{
    if let Some(access) = bus.memory_at(addr) {
        return BusAccess {
            target: Target::Memory(access.at),
            clocks: access.clocks as u8,
        };
    }
    if let Some(register) = bus_register(addr) {
        return BusAccess {
            target: register_target(register),
            clocks: REGISTER_CLOCKS,
        };
    }
    look_further(bus, addr)
}
