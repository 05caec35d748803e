//! The address map: what lies at each 24-bit address.
ghost use Rattle.std.specs.Prelude.{◌≡◌, ◌^◌, ◌/◌, ◌%◌, ◌<◌, ◌≤◌, length};
ghost use Rattle.cart_map.specs.Place.{place_of, bank_place_of, system_place_of, lorom_place_of, hirom_place_of, ram_place_of, IsInside};

use crate::fold::folded;
use crate::places::Place;
use snes_defs::{Cart, MapKind};

/// Returns what lies at this 24-bit address of a console with this cartridge.
#[inline(always)]
pub fn place(cart: &Cart, addr: u32) -> Place
    requires { addr < 2 ^ 24 }
    ensures place { result ≡ place_of cart.now addr }
    ensures inside { IsInside (length cart.now.rom) cart.now.ram result }
{
    place_in(cart.map, cart.rom.get().len(), cart.ram, addr)
}

/// Returns what lies at this 24-bit address, for a cartridge with this map and the sizes of its memories.
///
/// `rom` is the number of bytes of ROM, at least one, and `ram` that of RAM.
///
/// Source: fullsnes, "SNES Memory Map".
#[inline(always)]
pub fn place_in(map: MapKind, rom: usize, ram: u32, addr: u32) -> Place
    requires addr { addr < 2 ^ 24 }
    requires some { 0 < rom }
    ensures place { result ≡ bank_place_of map rom ram (addr / 65536) (addr % 65536) }
    ensures inside { IsInside rom ram result }
{
    let bank = addr / 65536;
    let offset = addr % 65536;
    if bank == 0x7e || bank == 0x7f {
        return Place::Wram(addr % 0x20000);
    }
    if bank % 128 < 64 && offset < 0x6000 {
        return system_place(offset as u16);
    }
    match map {
        MapKind::LoRom => lorom_place(rom, ram, bank, offset),
        MapKind::HiRom => hirom_place(rom, ram, bank, offset),
    }
}

/// Returns the console's own places, at 0000 to 5FFF of banks 00 to 3F and 80 to BF.
#[inline(always)]
fn system_place(offset: u16) -> Place
    requires { offset < 32768 }
    ensures place { result ≡ system_place_of offset }
    ensures inside { IsInside 0 0 result }
{
    match offset / 256 {
        0..0x20 => Place::Wram(offset as u32),
        0x21 => Place::BBus((offset % 256) as u8),
        0x40 if offset == 0x4016 || offset == 0x4017 => Place::Cpu(offset),
        0x42 if offset < 0x4220 => Place::Cpu(offset),
        0x43 if offset < 0x4380 => Place::Cpu(offset),
        _ => Place::Open,
    }
}

/// Returns what a LoROM cartridge shows at an address.
fn lorom_place(rom: usize, ram: u32, bank: u32, offset: u32) -> Place
    requires some { 0 < rom }
    requires bank { bank < 256 }
    requires offset { offset < 65536 }
    ensures place { result ≡ lorom_place_of rom ram bank offset }
    ensures inside { IsInside rom ram result }
{
    if offset >= 0x8000 {
        return Place::Rom(folded(rom, bank % 128 * 0x8000 + offset % 0x8000));
    }
    match bank {
        0x70..=0x7d | 0xf0..=0xff => ram_place(ram, bank % 16 * 0x8000 + offset),
        _ => Place::Open,
    }
}

/// Returns what a HiROM cartridge shows at an address.
fn hirom_place(rom: usize, ram: u32, bank: u32, offset: u32) -> Place
    requires some { 0 < rom }
    requires bank { bank < 256 }
    requires offset { offset < 65536 }
    ensures place { result ≡ hirom_place_of rom ram bank offset }
    ensures inside { IsInside rom ram result }
{
    match bank {
        0x40..=0x7d | 0xc0..=0xff => return Place::Rom(folded(rom, bank % 64 * 0x1_0000 + offset)),
        _ => {}
    }
    if offset >= 0x8000 {
        return Place::Rom(folded(rom, bank % 64 * 0x1_0000 + offset));
    }
    match bank {
        0x20..=0x3f | 0xa0..=0xbf if offset >= 0x6000 => ram_place(
            ram,
            bank % 32 * 0x2000 + offset % 0x2000,
        ),
        _ => Place::Open,
    }
}

/// Returns a byte of the cartridge's RAM, if it has any.
fn ram_place(ram: u32, index: u32) -> Place
    ensures place { result ≡ ram_place_of ram index }
    ensures inside { IsInside 0 ram result }
{
    if ram == 0 {
        Place::Open
    } else {
        Place::Ram(index % ram)
    }
}
