// Accesses of the registers of the CPU's chip in whose clocks nothing else happens: reads of 4200 to 421F, and writes of
// 4202 to 4206, the registers of multiplication and division. No other write is made here, since it may begin a
// transfer or move the beam's next place. 4016 and 4017 last longer, and 4300 to 437F are few.
ghost use Rattle.std.specs.Prelude.{◌≡◌, ◌-◌, ◌<◌, ◌≤◌, [], false, IsTrue};
ghost use Rattle.cpu_tables.specs.declared.access.Access.TheVariants.{Read, Write};
ghost use Rattle.cpu_modes.specs.Plan.{gets_byte, is_write};
ghost use Rattle.cpu65816.specs.Instruction.{CpuState, moved_on};
ghost use Rattle.cpu65816.specs.Stands.{Stands, access_of};
ghost use Rattle.beam.specs.Places.{clocks_left};
ghost use Rattle.console_bus.specs.Places.{chip_byte, chip_read, chip_written, on_bus};
ghost use Rattle.console_steps.specs.ConsoleState.{with_interrupt_levels};
ghost use Rattle.console_steps.specs.AtOnce.{gone_on, passed_in, IsMadeAtOnce};
ghost use Rattle.console_steps.specs.Plain.{IsCalm};

use crate::bus_access::{REGISTER_CLOCKS, chip_register};
use crate::effects::give_interrupt_levels;
use console_bus::Bus;
use cpu65816::Cpu;

/// 4202 WRMPYA, the first register of multiplication and division that is written.
const FIRST_ARITHMETIC: u16 = 0x4202;

/// 4206 WRDIVB, the last one.
const LAST_ARITHMETIC: u16 = 0x4206;

/// Puts a byte of a register on the data bus, lets the processor take it, and advances the beam by six clocks.
#[inline(always)]
pub fn take_byte(cpu: &mut Cpu, bus: &mut Bus, got: u8)
    requires gets { IsTrue (gets_byte (access_of cpu.old)) }
    requires few { 6 < clocks_left bus.old.beam }
    ensures rest { bus.new ≡ gone_on (on_bus bus.old got) 6 }
    ensures nothing { passed_in (on_bus bus.old got) 6 ≡ [] }
    ensures processor { (s : CpuState) → Stands cpu.old s
        → Stands cpu.new (with_interrupt_levels (moved_on s got) (on_bus bus.old got)) }
    ensures left { clocks_left bus.new.beam ≡ clocks_left bus.old.beam - 6 }
    ensures calm { IsCalm bus.old → IsCalm bus.new }
{
    bus.put(got);
    cpu.took(got);
    give_interrupt_levels(cpu, bus);
    bus.go_on(REGISTER_CLOCKS as u16);
}

/// Puts the byte that the processor writes on the data bus, and advances the beam by six clocks.
#[inline(always)]
pub fn give_byte(cpu: &mut Cpu, bus: &mut Bus, v: u8)
    requires writes { IsTrue (is_write (access_of cpu.old)) }
    requires few { 6 < clocks_left bus.old.beam }
    ensures rest { bus.new ≡ gone_on (on_bus bus.old v) 6 }
    ensures nothing { passed_in (on_bus bus.old v) 6 ≡ [] }
    ensures processor { (s : CpuState) → Stands cpu.old s
        → Stands cpu.new (with_interrupt_levels (moved_on s 0) (on_bus bus.old v)) }
    ensures left { clocks_left bus.new.beam ≡ clocks_left bus.old.beam - 6 }
    ensures calm { IsCalm bus.old → IsCalm bus.new }
{
    bus.put(v);
    cpu.wrote();
    give_interrupt_levels(cpu, bus);
    bus.go_on(REGISTER_CLOCKS as u16);
}

/// Lets the processor take the byte of a register of the CPU's chip, and advances the beam.
#[inline(always)]
pub(crate) fn take_chip(cpu: &mut Cpu, bus: &mut Bus, register: u16)
    requires gets { IsTrue (gets_byte (access_of cpu.old)) }
    requires few { 6 < clocks_left bus.old.beam }
    ensures rest { bus.new ≡ gone_on (on_bus (chip_read bus.old register) (chip_byte bus.old register)) 6 }
    ensures nothing { passed_in (on_bus (chip_read bus.old register) (chip_byte bus.old register)) 6 ≡ [] }
    ensures processor { (s : CpuState) → Stands cpu.old s
        → Stands cpu.new (with_interrupt_levels (moved_on s (chip_byte bus.old register))
        (on_bus (chip_read bus.old register) (chip_byte bus.old register))) }
    ensures left { clocks_left bus.new.beam ≡ clocks_left bus.old.beam - 6 }
    ensures calm { IsCalm bus.old → IsCalm bus.new }
{
    let byte = bus.read_chip(register);
    take_byte(cpu, bus, byte);
}

/// Lets the processor write a register of multiplication or division, and advances the beam.
#[inline(always)]
fn give_arithmetic(cpu: &mut Cpu, bus: &mut Bus, register: u16, v: u8)
    requires writes { IsTrue (is_write (access_of cpu.old)) }
    requires first { 0x4202 ≤ register }
    requires last { register ≤ 0x4206 }
    requires few { 6 < clocks_left bus.old.beam }
    ensures rest { bus.new ≡ gone_on (on_bus (chip_written bus.old register v) v) 6 }
    ensures nothing { passed_in (on_bus (chip_written bus.old register v) v) 6 ≡ [] }
    ensures processor { (s : CpuState) → Stands cpu.old s
        → Stands cpu.new (with_interrupt_levels (moved_on s 0) (on_bus (chip_written bus.old register v) v)) }
    ensures left { clocks_left bus.new.beam ≡ clocks_left bus.old.beam - 6 }
    ensures calm { IsCalm bus.old → IsCalm bus.new }
{
    bus.write_arithmetic(register, v);
    give_byte(cpu, bus, v);
}

/// Lets the processor read a register of the CPU's chip, if one of 4200 to 421F is at the address. Returns whether it
/// did. Otherwise nothing has changed.
pub fn try_read_chip(cpu: &mut Cpu, bus: &mut Bus, addr: u32) -> bool
    requires gets { IsTrue (gets_byte (access_of cpu.old)) }
    requires few { 6 < clocks_left bus.old.beam }
    ensures made { IsTrue result → IsMadeAtOnce cpu.old cpu.new bus.old bus.new (Read addr) 6 }
    ensures left { IsTrue result → clocks_left bus.new.beam ≡ clocks_left bus.old.beam - 6 }
    ensures calm { IsCalm bus.old → IsCalm bus.new }
    ensures cpu_stays { result ≡ false → cpu.new ≡ cpu.old }
    ensures bus_stays { result ≡ false → bus.new ≡ bus.old }
{
    let Some(register) = chip_register(addr) else {
        return false;
    };
    take_chip(cpu, bus, register);
    true
}

/// Lets the processor write a register of multiplication or division, if one is at the address. Returns whether it did.
/// Otherwise nothing has changed.
pub fn try_write_chip(cpu: &mut Cpu, bus: &mut Bus, addr: u32, v: u8) -> bool
    requires writes { IsTrue (is_write (access_of cpu.old)) }
    requires few { 6 < clocks_left bus.old.beam }
    ensures made { IsTrue result → IsMadeAtOnce cpu.old cpu.new bus.old bus.new (Write addr v) 6 }
    ensures left { IsTrue result → clocks_left bus.new.beam ≡ clocks_left bus.old.beam - 6 }
    ensures calm { IsCalm bus.old → IsCalm bus.new }
    ensures cpu_stays { result ≡ false → cpu.new ≡ cpu.old }
    ensures bus_stays { result ≡ false → bus.new ≡ bus.old }
{
    let Some(register) = chip_register(addr) else {
        return false;
    };
    if register < FIRST_ARITHMETIC || LAST_ARITHMETIC < register {
        return false;
    }
    give_arithmetic(cpu, bus, register, v);
    true
}
