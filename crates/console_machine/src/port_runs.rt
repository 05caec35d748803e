// Accesses of memory, of the B bus and of the registers of the CPU's chip one after another, the ports to the sound side
// among them, up to the beam's next place.
ghost use Rattle.std.specs.Prelude.{◌≡◌, ◌≢◌, ◌+◌, ◌-◌, ◌*◌, ◌<◌, ◌≤◌, [], false, IsTrue};
ghost use Rattle.snes_defs.specs.declared.ports.Side.TheVariants.{Console};
ghost use Rattle.clock_ratio.specs.Stamp.{rate_of, least_of};
ghost use Rattle.side_law.specs.Gone.{Leads, IsRefused};
ghost use Rattle.cpu_tables.specs.declared.access.Access.TheVariants.{Read, Write};
ghost use Rattle.cpu_modes.specs.Plan.{gets_byte, is_write};
ghost use Rattle.cpu65816.specs.Instruction.{CpuState, moved_on};
ghost use Rattle.cpu65816.specs.Stands.{Stands, access_of};
ghost use Rattle.beam.specs.Places.{clocks_left};
ghost use Rattle.console_bus.specs.Places.{register_byte, register_read, on_bus};
ghost use Rattle.console_steps.specs.ConsoleState.{ConsoleState, access_act, with_interrupt_levels};
ghost use Rattle.console_steps.specs.AtOnce.{gone_on, passed_in};
ghost use Rattle.console_steps.specs.Plain.{IsCalm};
ghost use Rattle.console_machine.specs.PortAccesses.{HasMade, IsMade, HasPassed, IsBefore, RunsBefore, HeldBefore};
ghost use Rattle.console_machine.specs.PortAccesses.{stamp_before};

use crate::many_steps::make_all;
use crate::parts::line_stamps;
use console_bus::Bus;
use console_steps::{
    REGISTER_CLOCKS, bus_register, give_byte, is_port, take_byte, try_read_chip, try_write_chip,
};
use cpu_tables::Access;
use cpu65816::Cpu;
use side_law::Ports;
use snes_defs::{Act, Region};

/// More accesses of the B bus than a line has room for.
const MOST_RUNS: u16 = 256;

/// What came of an access of a register.
#[derive(Clone, Copy)]
pub(crate) enum Found {
    /// It was made.
    Made,
    /// It was left alone, since it is no access that is made here.
    Left,
    /// Its call was refused.
    Refused,
}

/// Returns what came of an access that was made or left alone.
#[inline(always)]
fn made_or_left(made: bool) -> Found
    ensures made { IsTrue made → result ≡ Found.Made }
    ensures left { made ≡ false → result ≡ Found.Left }
{
    if made { Found::Made } else { Found::Left }
}

/// Lets the processor take the byte of a register of the B bus other than a port, and advances the beam.
#[inline(always)]
fn take_register(cpu: &mut Cpu, bus: &mut Bus, register: u8)
    requires gets { IsTrue (gets_byte (access_of cpu.old)) }
    requires few { 6 < clocks_left bus.old.beam }
    ensures rest { bus.new ≡ gone_on (on_bus (register_read bus.old register) (register_byte bus.old register 0)) 6 }
    ensures nothing { passed_in (on_bus (register_read bus.old register) (register_byte bus.old register 0)) 6 ≡ [] }
    ensures processor { (s : CpuState) → Stands cpu.old s
        → Stands cpu.new (with_interrupt_levels (moved_on s (register_byte bus.old register 0))
        (on_bus (register_read bus.old register) (register_byte bus.old register 0))) }
    ensures left { clocks_left bus.new.beam ≡ clocks_left bus.old.beam - 6 }
    ensures calm { IsCalm bus.old → IsCalm bus.new }
{
    let byte = bus.read_register(register, 0);
    take_byte(cpu, bus, byte);
}

/// Lets the processor read a register of the B bus or of the CPU's chip at a stamp, if one is at the address.
#[inline(always)]
fn read_over<P: Ports>(cpu: &mut Cpu, bus: &mut Bus, addr: u32, at: u64, ports: &mut P) -> Found
    requires gets { IsTrue (gets_byte (access_of cpu.old)) }
    requires few { 6 < clocks_left bus.old.beam }
    requires in_order { P.clock ports.old ≤ at }
    requires in_time { at < (P.times ports.old).before }
    ensures made { result ≡ Found.Made → (p : P.State) → P.stands ports.old p
        → HasMade P.calls at (Read addr) cpu.old cpu.new bus.old bus.new (P.stands ports.new) p }
    ensures step { result ≡ Found.Made → IsMade cpu.old cpu.new bus.old bus.new (Read addr) }
    ensures passed { result ≡ Found.Made → HasPassed bus.old bus.new }
    ensures refused { result ≡ Found.Refused
        → Leads (P.stands ports.old) (P.stands ports.new) (IsRefused P.calls at (access_act bus.old (Read addr))) }
    ensures left { result ≡ Found.Left → (cpu.new ≡ cpu.old) × (bus.new ≡ bus.old) × (ports.new ≡ ports.old) }
    ensures stays { result ≡ Found.Refused → (cpu.new ≡ cpu.old) × (bus.new ≡ bus.old) }
    ensures in_order { P.clock ports.new ≤ at + (P.times ports.old).rise }
    ensures waits { result ≢ Found.Made → P.clock ports.new ≤ at }
    ensures times { P.times ports.new ≡ P.times ports.old }
{
    let Some(register) = bus_register(addr) else {
        return made_or_left(try_read_chip(cpu, bus, addr));
    };
    if !is_port(register) {
        take_register(cpu, bus, register);
        return Found::Made;
    }
    let Some(got) = ports.call(at, Act::Read(register % 4)) else {
        return Found::Refused;
    };
    take_byte(cpu, bus, got);
    Found::Made
}

/// Lets the processor write a port or a register of arithmetic at a stamp, if one is at the address.
#[inline(always)]
fn write_over<P: Ports>(
    cpu: &mut Cpu,
    bus: &mut Bus,
    addr: u32,
    v: u8,
    at: u64,
    ports: &mut P,
) -> Found
    requires writes { IsTrue (is_write (access_of cpu.old)) }
    requires few { 6 < clocks_left bus.old.beam }
    requires in_order { P.clock ports.old ≤ at }
    requires in_time { at < (P.times ports.old).before }
    ensures made { result ≡ Found.Made → (p : P.State) → P.stands ports.old p
        → HasMade P.calls at (Write addr v) cpu.old cpu.new bus.old bus.new (P.stands ports.new) p }
    ensures step { result ≡ Found.Made → IsMade cpu.old cpu.new bus.old bus.new (Write addr v) }
    ensures passed { result ≡ Found.Made → HasPassed bus.old bus.new }
    ensures refused { result ≡ Found.Refused
        → Leads (P.stands ports.old) (P.stands ports.new) (IsRefused P.calls at (access_act bus.old (Write addr v))) }
    ensures left { result ≡ Found.Left → (cpu.new ≡ cpu.old) × (bus.new ≡ bus.old) × (ports.new ≡ ports.old) }
    ensures stays { result ≡ Found.Refused → (cpu.new ≡ cpu.old) × (bus.new ≡ bus.old) }
    ensures in_order { P.clock ports.new ≤ at + (P.times ports.old).rise }
    ensures waits { result ≢ Found.Made → P.clock ports.new ≤ at }
    ensures times { P.times ports.new ≡ P.times ports.old }
{
    let Some(register) = bus_register(addr) else {
        return made_or_left(try_write_chip(cpu, bus, addr, v));
    };
    if !is_port(register) {
        return Found::Left;
    }
    let Some(_) = ports.call(at, Act::Write(register % 4, v)) else {
        return Found::Refused;
    };
    give_byte(cpu, bus, v);
    Found::Made
}

/// Makes the processor's next access at a stamp if it is of a port, with the call made by `ports`, or of another
/// register that is accessed here: a read of the B bus or of the CPU's chip, a write of a register of arithmetic.
#[inline(always)]
fn make_register<P: Ports>(cpu: &mut Cpu, bus: &mut Bus, at: u64, ports: &mut P) -> Found
    requires few { 6 < clocks_left bus.old.beam }
    requires in_order { P.clock ports.old ≤ at }
    requires in_time { at < (P.times ports.old).before }
    ensures made { result ≡ Found.Made → (p : P.State) → P.stands ports.old p
        → HasMade P.calls at (access_of cpu.old) cpu.old cpu.new bus.old bus.new (P.stands ports.new) p }
    ensures step { result ≡ Found.Made → IsMade cpu.old cpu.new bus.old bus.new (access_of cpu.old) }
    ensures passed { result ≡ Found.Made → HasPassed bus.old bus.new }
    ensures refused { result ≡ Found.Refused
        → Leads (P.stands ports.old) (P.stands ports.new)
        (IsRefused P.calls at (access_act bus.old (access_of cpu.old))) }
    ensures left { result ≡ Found.Left → (cpu.new ≡ cpu.old) × (bus.new ≡ bus.old) × (ports.new ≡ ports.old) }
    ensures stays { result ≡ Found.Refused → (cpu.new ≡ cpu.old) × (bus.new ≡ bus.old) }
    ensures in_order { P.clock ports.new ≤ at + (P.times ports.old).rise }
    ensures waits { result ≢ Found.Made → P.clock ports.new ≤ at }
    ensures times { P.times ports.new ≡ P.times ports.old }
{
    match cpu.next() {
        Access::Fetch(_) => Found::Left,
        Access::Read(addr) => read_over(cpu, bus, addr, at, ports),
        Access::Write(addr, v) => write_over(cpu, bus, addr, v, at, ports),
        Access::Inner => Found::Left,
    }
}

/// Returns the stamp of the next step, if the beam comes to its next place at `goal`.
#[inline(always)]
pub(crate) fn stamp_before(region: Region, goal: u64, bus: &Bus) -> u64
    requires { rate_of region Console * clocks_left bus.now.beam ≤ goal }
    ensures { result ≡ stamp_before region goal bus.now }
{
    goal - line_stamps(region, bus.clocks_left())
}

/// Makes the processor's accesses of memory and of registers one after another, up to the beam's next place, to which
/// it comes at `goal`. Their calls are made by `ports`. Returns whether the next call was refused.
#[inline(always)]
pub(crate) fn make_over<P: Ports>(
    cpu: &mut Cpu,
    bus: &mut Bus,
    region: Region,
    goal: u64,
    ports: &mut P,
) -> bool
    requires begun { rate_of region Console * clocks_left bus.old.beam ≤ goal }
    requires in_order { P.clock ports.old ≤ stamp_before region goal bus.old }
    requires in_time { goal ≤ (P.times ports.old).before }
    requires apart { (P.times ports.old).rise ≤ least_of region }
    ensures made { result ≡ false → RunsBefore P.calls region goal cpu.old cpu.new bus.old bus.new
        (P.stands ports.old) (P.stands ports.new) }
    ensures refused { IsTrue result → HeldBefore P.calls region goal cpu.old cpu.new bus.old bus.new
        (P.stands ports.old) (P.stands ports.new) }
    ensures some { (w : ConsoleState) → IsBefore region goal cpu.old bus.old w
        → (to : ConsoleState) × IsBefore region goal cpu.new bus.new to }
    ensures fewer { clocks_left bus.new.beam ≤ clocks_left bus.old.beam }
    ensures in_order { P.clock ports.new ≤ stamp_before region goal bus.new }
    ensures times { P.times ports.new ≡ P.times ports.old }
{
    'runs: for _ in 0..MOST_RUNS {
        make_all(cpu, bus);
        if bus.clocks_left() <= REGISTER_CLOCKS as u16 {
            return false;
        }
        let at = stamp_before(region, goal, bus);
        match make_register(cpu, bus, at, ports) {
            Found::Made => {}
            Found::Left => return false,
            Found::Refused => return true,
        }
    }
    false
}
