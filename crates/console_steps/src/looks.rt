// Accesses of the processor that only look: they change nothing but the processor and the byte last on the data bus,
// and give the same byte wherever the beam stands. A loop of them is an idle loop if it comes back to where it began.
ghost use Rattle.std.specs.Prelude.{◌≡◌, ◌-◌, ◌<◌, ◌^◌, None, IsTrue, IfSome};
ghost use Rattle.cpu_tables.specs.declared.access.Access.TheVariants.{Read};
ghost use Rattle.cpu_modes.specs.Plan.{gets_byte};
ghost use Rattle.cpu65816.specs.Stands.{access_of};
ghost use Rattle.beam.specs.Places.{clocks_left};
ghost use Rattle.console_steps.specs.AtOnce.{IsMadeAtOnce};
ghost use Rattle.console_steps.specs.Plain.{IsWired, IsCalm, IsLook};

use crate::bus_access::{REGISTER_CLOCKS, chip_register};
use crate::chip_access::take_chip;
use crate::plain::{idle_plainly, read_plainly};
use console_bus::Bus;
use cpu_modes::Place;
use cpu_tables::Access;
use cpu65816::Cpu;

/// Lets the processor read 4210 RDNMI or 4211 TIMEUP, if its flag is clear and nothing else happens in the clocks of the
/// access. Returns how many these are. Otherwise nothing has changed.
fn read_still(cpu: &mut Cpu, bus: &mut Bus, addr: u32) -> Option<u8>
    requires gets { IsTrue (gets_byte (access_of cpu.old)) }
    ensures made { IfSome result (λ clocks. IsMadeAtOnce cpu.old cpu.new bus.old bus.new (Read addr) clocks) }
    ensures looks { IfSome result (λ clocks. IsLook bus.old (Read addr)) }
    ensures within { IfSome result (λ clocks. clocks < clocks_left bus.old.beam) }
    ensures left { IfSome result (λ clocks. clocks_left bus.new.beam ≡ clocks_left bus.old.beam - clocks) }
    ensures calm { IsCalm bus.old → IsCalm bus.new }
    ensures bus_stays { result ≡ None → bus.new ≡ bus.old }
    ensures cpu_stays { result ≡ None → cpu.new ≡ cpu.old }
{
    if bus.clocks_left() <= REGISTER_CLOCKS as u16 {
        return None;
    }
    let register = chip_register(addr)?;
    if !bus.is_still(register) {
        return None;
    }
    take_chip(cpu, bus, register);
    Some(REGISTER_CLOCKS)
}

/// Lets the processor read a byte of memory, or a register whose flag is clear, if nothing else happens in its clocks.
#[inline(always)]
fn look_at(cpu: &mut Cpu, bus: &mut Bus, place: Place, addr: u32) -> Option<u8>
    requires known { cpu.old.micro.place ≡ place }
    requires gets { IsTrue (gets_byte (access_of cpu.old)) }
    requires addr { addr < 2 ^ 24 }
    ensures made { IsWired cpu.old bus.old
        → IfSome result (λ clocks. IsMadeAtOnce cpu.old cpu.new bus.old bus.new (Read addr) clocks) }
    ensures looks { IfSome result (λ clocks. IsLook bus.old (Read addr)) }
    ensures within { IfSome result (λ clocks. clocks < clocks_left bus.old.beam) }
    ensures left { IfSome result (λ clocks. clocks_left bus.new.beam ≡ clocks_left bus.old.beam - clocks) }
    ensures calm { IsCalm bus.old → IsCalm bus.new }
    ensures bus_stays { result ≡ None → bus.new ≡ bus.old }
    ensures cpu_stays { result ≡ None → cpu.new ≡ cpu.old }
{
    let Some(clocks) = read_plainly(cpu, bus, place, addr) else {
        return read_still(cpu, bus, addr);
    };
    Some(clocks)
}

/// Makes the processor's next access, with its clocks, if it only looks and nothing else happens in these: a read of
/// memory or of a register whose flag is clear, or an internal cycle. Returns how many they are. Otherwise, and for
/// every write, nothing has changed.
#[inline(always)]
pub fn try_look(cpu: &mut Cpu, bus: &mut Bus) -> Option<u8>
    ensures made { IsWired cpu.old bus.old
        → IfSome result (λ clocks. IsMadeAtOnce cpu.old cpu.new bus.old bus.new (access_of cpu.old) clocks) }
    ensures looks { IfSome result (λ clocks. IsLook bus.old (access_of cpu.old)) }
    ensures within { IfSome result (λ clocks. clocks < clocks_left bus.old.beam) }
    ensures left { IfSome result (λ clocks. clocks_left bus.new.beam ≡ clocks_left bus.old.beam - clocks) }
    ensures calm { IsCalm bus.old → IsCalm bus.new }
    ensures bus_stays { result ≡ None → bus.new ≡ bus.old }
    ensures cpu_stays { result ≡ None → cpu.new ≡ cpu.old }
{
    let place = cpu.place();
    match cpu.next() {
        Access::Fetch(addr) => read_plainly(cpu, bus, place, addr),
        Access::Read(addr) => look_at(cpu, bus, place, addr),
        Access::Write(_, _) => None,
        Access::Inner => idle_plainly(cpu, bus, place),
    }
}
