// An access of the processor with its clocks, if nothing else happens in these. The levels of the processor's lines are
// not given again, since they have not changed. A caller that makes many accesses checks once whether a transfer is due
// and whether the levels are those that were given.
ghost use Rattle.std.specs.Prelude.{◌≡◌, ◌+◌, ◌-◌, ◌<◌, ◌^◌, ℕ, [], None, IsTrue, IfSome, slice_index};
ghost use Rattle.cpu_tables.specs.declared.access.Access.TheVariants.{Read, Write, Inner};
ghost use Rattle.cpu_modes.specs.Plan.{gets_byte, is_write, is_inner};
ghost use Rattle.cpu65816.specs.Instruction.{CpuState, moved_on};
ghost use Rattle.cpu65816.specs.Stands.{Stands, access_of};
ghost use Rattle.beam.specs.Events.{beam_after, passed};
ghost use Rattle.beam.specs.Places.{clocks_left};
ghost use Rattle.console_bus.specs.Memory.{stored};
ghost use Rattle.console_bus.specs.Places.{register_written, on_bus};
ghost use Rattle.console_steps.specs.AtOnce.{gone_on, passed_in, IsMadeAtOnce};
ghost use Rattle.console_steps.specs.Plain.{IsWired, IsCalm, IsOfMemory};

use crate::bus_access::{REGISTER_CLOCKS, bus_register, is_port};
use console_bus::Bus;
use cpu_modes::Place;
use cpu_tables::Access;
use cpu65816::Cpu;

/// Whether the processor was given the levels that its interrupt lines have now.
#[inline(always)]
pub fn is_wired(cpu: &Cpu, bus: &Bus) -> bool
    ensures { IsTrue result → IsWired cpu.now bus.now }
{
    let (nmi, irq) = bus.interrupt_levels();
    let (given_nmi, given_irq) = cpu.levels();
    given_nmi == nmi && given_irq == irq
}

/// Whether neither a reset, nor a refresh, nor a byte of a transfer is due.
#[inline(always)]
pub fn is_calm(bus: &Bus) -> bool
    ensures { IsTrue result → IsCalm bus.now }
{
    !bus.is_busy()
}

/// Lets the processor take a byte of memory, and advances the beam.
#[inline(always)]
fn take_plainly(cpu: &mut Cpu, bus: &mut Bus, place: Place, at: usize, clocks: u16)
    requires known { cpu.old.micro.place ≡ place }
    requires gets { IsTrue (gets_byte (access_of cpu.old)) }
    requires at { at < 131072 + bus.old.board.ram + bus.old.board.rom }
    requires few { clocks < clocks_left bus.old.beam }
    ensures rest { bus.new ≡ record bus.old {
      last = slice_index bus.old.memory at;
      beam = beam_after bus.old.picture.registers.settings.overscan
          bus.old.beam clocks;
    } }
    ensures nothing { passed bus.old.picture.registers.settings.overscan bus.old.beam clocks ≡ [] }
    ensures left { clocks_left bus.new.beam ≡ clocks_left bus.old.beam - clocks }
    ensures processor { (s : CpuState) → Stands cpu.old s
        → Stands cpu.new (moved_on s (slice_index bus.old.memory at)) }
{
    let byte = bus.load(at);
    bus.put(byte);
    bus.go_on(clocks);
    cpu.took_at(place, byte);
}

/// Writes a byte of memory, and puts it on the data bus.
#[inline(always)]
fn put_plainly(bus: &mut Bus, at: usize, v: u8)
    requires { at < 131072 + bus.old.board.ram + bus.old.board.rom }
    ensures rest { bus.new ≡ record (stored bus.old at v) { last = v } }
    ensures beam { bus.new.beam ≡ bus.old.beam }
    ensures picture { bus.new.picture ≡ bus.old.picture }
    ensures channels { bus.new.channels ≡ bus.old.channels }
    ensures refresh { bus.new.refresh ≡ bus.old.refresh }
    ensures reset { bus.new.reset ≡ bus.old.reset }
{
    bus.store(at, v);
    bus.put(v);
}

/// Lets the processor write a byte of memory, and advances the beam.
#[inline(always)]
fn give_plainly(cpu: &mut Cpu, bus: &mut Bus, place: Place, at: usize, v: u8, clocks: u16)
    requires known { cpu.old.micro.place ≡ place }
    requires writes { IsTrue (is_write (access_of cpu.old)) }
    requires at { at < 131072 + bus.old.board.ram + bus.old.board.rom }
    requires few { clocks < clocks_left bus.old.beam }
    ensures rest { bus.new ≡ record (stored bus.old at v)
        { last = v; beam = beam_after bus.old.picture.registers.settings.overscan bus.old.beam clocks } }
    ensures nothing { passed bus.old.picture.registers.settings.overscan bus.old.beam clocks ≡ [] }
    ensures left { clocks_left bus.new.beam ≡ clocks_left bus.old.beam - clocks }
    ensures calm { IsCalm bus.old → IsCalm bus.new }
    ensures processor { (s : CpuState) → Stands cpu.old s → Stands cpu.new (moved_on s 0) }
{
    put_plainly(bus, at, v);
    bus.go_on(clocks);
    cpu.wrote_at(place);
}

/// Lets the processor read a byte of memory, if nothing else happens in its clocks.
#[inline(always)]
pub(crate) fn read_plainly(cpu: &mut Cpu, bus: &mut Bus, place: Place, addr: u32) -> Option<u8>
    requires known { cpu.old.micro.place ≡ place }
    requires gets { IsTrue (gets_byte (access_of cpu.old)) }
    requires addr { addr < 2 ^ 24 }
    ensures made { IsWired cpu.old bus.old
        → IfSome result (λ clocks. IsMadeAtOnce cpu.old cpu.new bus.old bus.new (Read addr) clocks) }
    ensures looks { IfSome result (λ clocks. IsOfMemory bus.old addr) }
    ensures within { IfSome result (λ clocks. clocks < clocks_left bus.old.beam) }
    ensures left { IfSome result (λ clocks. clocks_left bus.new.beam ≡ clocks_left bus.old.beam - clocks) }
    ensures calm { IsCalm bus.old → IsCalm bus.new }
    ensures bus_stays { result ≡ None → bus.new ≡ bus.old }
    ensures cpu_stays { result ≡ None → cpu.new ≡ cpu.old }
{
    let access = bus.memory_within(addr)?;
    take_plainly(cpu, bus, place, access.at, access.clocks);
    Some(access.clocks as u8)
}

/// Writes a register of the B bus, and puts the byte on the data bus.
#[inline(always)]
fn store_register(bus: &mut Bus, register: u8, v: u8)
    ensures after { bus.new ≡ on_bus (register_written bus.old register v) v }
    ensures beam { bus.new.beam ≡ bus.old.beam }
{
    bus.write_register(register, v);
    bus.put(v);
}

/// Lets the processor write a register of the B bus, and advances the beam.
#[inline(always)]
fn give_register_plainly(cpu: &mut Cpu, bus: &mut Bus, place: Place, register: u8, v: u8)
    requires known { cpu.old.micro.place ≡ place }
    requires writes { IsTrue (is_write (access_of cpu.old)) }
    requires few { 6 < clocks_left bus.old.beam }
    ensures rest { bus.new ≡ gone_on (on_bus (register_written bus.old register v) v) 6 }
    ensures nothing { passed_in (on_bus (register_written bus.old register v) v) 6 ≡ [] }
    ensures left { clocks_left bus.new.beam ≡ clocks_left bus.old.beam - 6 }
    ensures processor { (s : CpuState) → Stands cpu.old s → Stands cpu.new (moved_on s 0) }
{
    store_register(bus, register, v);
    bus.go_on(REGISTER_CLOCKS as u16);
    cpu.wrote_at(place);
}

/// Lets the processor write a register of the B bus other than a port; otherwise nothing has changed.
fn write_register_plainly(
    cpu: &mut Cpu,
    bus: &mut Bus,
    place: Place,
    addr: u32,
    v: u8,
) -> Option<u8>
    requires known { cpu.old.micro.place ≡ place }
    requires writes { IsTrue (is_write (access_of cpu.old)) }
    ensures made { IsWired cpu.old bus.old
        → IfSome result (λ clocks. IsMadeAtOnce cpu.old cpu.new bus.old bus.new (Write addr v) clocks) }
    ensures within { IfSome result (λ clocks. clocks < clocks_left bus.old.beam) }
    ensures left { IfSome result (λ clocks. clocks_left bus.new.beam ≡ clocks_left bus.old.beam - clocks) }
    ensures calm { IsCalm bus.old → IsCalm bus.new }
    ensures bus_stays { result ≡ None → bus.new ≡ bus.old }
    ensures cpu_stays { result ≡ None → cpu.new ≡ cpu.old }
{
    if bus.clocks_left() <= REGISTER_CLOCKS as u16 {
        return None;
    }
    let register = bus_register(addr)?;
    if is_port(register) {
        return None;
    }
    give_register_plainly(cpu, bus, place, register, v);
    Some(REGISTER_CLOCKS)
}

/// Lets the processor write a byte of memory or a register of the B bus, if nothing else happens in its clocks.
#[inline(always)]
pub(crate) fn write_plainly(
    cpu: &mut Cpu,
    bus: &mut Bus,
    place: Place,
    addr: u32,
    v: u8,
) -> Option<u8>
    requires known { cpu.old.micro.place ≡ place }
    requires writes { IsTrue (is_write (access_of cpu.old)) }
    requires addr { addr < 2 ^ 24 }
    ensures made { IsWired cpu.old bus.old
        → IfSome result (λ clocks. IsMadeAtOnce cpu.old cpu.new bus.old bus.new (Write addr v) clocks) }
    ensures within { IfSome result (λ clocks. clocks < clocks_left bus.old.beam) }
    ensures left { IfSome result (λ clocks. clocks_left bus.new.beam ≡ clocks_left bus.old.beam - clocks) }
    ensures calm { IsCalm bus.old → IsCalm bus.new }
    ensures bus_stays { result ≡ None → bus.new ≡ bus.old }
    ensures cpu_stays { result ≡ None → cpu.new ≡ cpu.old }
{
    let Some(access) = bus.memory_within(addr) else {
        return write_register_plainly(cpu, bus, place, addr, v);
    };
    give_plainly(cpu, bus, place, access.at, v, access.clocks);
    Some(access.clocks as u8)
}

/// Lets the processor make an internal cycle, and advances the beam.
#[inline(always)]
fn rest_plainly(cpu: &mut Cpu, bus: &mut Bus, place: Place)
    requires known { cpu.old.micro.place ≡ place }
    requires inner { IsTrue (is_inner (access_of cpu.old)) }
    requires few { 6 < clocks_left bus.old.beam }
    ensures rest { bus.new ≡ record bus.old
        { beam = beam_after bus.old.picture.registers.settings.overscan bus.old.beam 6 } }
    ensures nothing { passed bus.old.picture.registers.settings.overscan bus.old.beam 6 ≡ [] }
    ensures left { clocks_left bus.new.beam ≡ clocks_left bus.old.beam - 6 }
    ensures processor { (s : CpuState) → Stands cpu.old s → Stands cpu.new (moved_on s 0) }
{
    bus.go_on(6);
    cpu.idle_at(place);
}

/// Lets the processor make an internal cycle, if nothing else happens in its clocks.
#[inline(always)]
pub(crate) fn idle_plainly(cpu: &mut Cpu, bus: &mut Bus, place: Place) -> Option<u8>
    requires known { cpu.old.micro.place ≡ place }
    requires inner { IsTrue (is_inner (access_of cpu.old)) }
    ensures made { IsWired cpu.old bus.old
        → IfSome result (λ clocks. IsMadeAtOnce cpu.old cpu.new bus.old bus.new Inner clocks) }
    ensures within { IfSome result (λ clocks. clocks < clocks_left bus.old.beam) }
    ensures left { IfSome result (λ clocks. clocks_left bus.new.beam ≡ clocks_left bus.old.beam - clocks) }
    ensures calm { IsCalm bus.old → IsCalm bus.new }
    ensures bus_stays { result ≡ None → bus.new ≡ bus.old }
    ensures cpu_stays { result ≡ None → cpu.new ≡ cpu.old }
{
    if bus.clocks_left() <= 6 {
        return None;
    }
    rest_plainly(cpu, bus, place);
    Some(6)
}

/// Makes the processor's next access, with its clocks, if it is to memory, an internal cycle or a write of a B-bus
/// register. Nothing else may happen in these clocks. Returns how many they are. Otherwise nothing has changed.
#[inline(never)]
pub fn try_plain(cpu: &mut Cpu, bus: &mut Bus) -> Option<u8>
    ensures made { IsWired cpu.old bus.old
        → IfSome result (λ clocks. IsMadeAtOnce cpu.old cpu.new bus.old bus.new (access_of cpu.old) clocks) }
    ensures within { IfSome result (λ clocks. clocks < clocks_left bus.old.beam) }
    ensures left { IfSome result (λ clocks. clocks_left bus.new.beam ≡ clocks_left bus.old.beam - clocks) }
    ensures calm { IsCalm bus.old → IsCalm bus.new }
    ensures bus_stays { result ≡ None → bus.new ≡ bus.old }
    ensures cpu_stays { result ≡ None → cpu.new ≡ cpu.old }
{
    let place = cpu.place();
    match cpu.next() {
        Access::Fetch(addr) => read_plainly(cpu, bus, place, addr),
        Access::Read(addr) => read_plainly(cpu, bus, place, addr),
        Access::Write(addr, v) => write_plainly(cpu, bus, place, addr, v),
        Access::Inner => idle_plainly(cpu, bus, place),
    }
}
