// A whole step: its effect and its clocks, in general or by a fast path.
ghost use Rattle.std.specs.Prelude.{◌≡◌, ℕ, ◌+◌, ◌<◌, ◌≤◌, ◌^◌, ◌++◌, None, false, IfSome, length};
ghost use Rattle.cpu_tables.specs.declared.access.Access.TheVariants.{Write};
ghost use Rattle.cpu65816.specs.Instruction.{CpuState, moved_on};
ghost use Rattle.cpu65816.specs.Stands.{Stands, access_of};
ghost use Rattle.console_steps.specs.Targets.{gets_at};
ghost use Rattle.console_steps.specs.ConsoleState.{ConsoleState, Accesses, access_clocks, due_of, due_clocks};
ghost use Rattle.console_steps.specs.ConsoleState.{rest_after, processor_after, with_interrupt_levels, console_after};
ghost use Rattle.console_steps.specs.ConsoleState.{after_access, byte_of, bytes_after};
ghost use Rattle.console_steps.specs.AtOnce.{IsMadeAtOnce};
ghost use Rattle.console_steps.specs.Plain.{IsCalm};
ghost use Rattle.console_steps.specs.Stands.{IsAt};
ghost use Rattle.cart_map.specs.Clocks.{clocks_of};
ghost use Rattle.console_machine.specs.Dues.{due_from};
ghost use Rattle.console_machine.specs.Silent.{IsStepMade};

use circular_buffer::HeapCircularBuffer;
use console_bus::Bus;
use console_steps::{
    MOVE_CLOCKS, give_interrupt_levels, is_calm, is_wired, look_up, make_inner, make_move,
    make_read, make_reset, make_write, pass, try_move, try_plain,
};
use cpu_tables::Access;
use cpu65816::Cpu;

/// Master clocks of a refresh of work RAM.
const REFRESH_CLOCKS: u8 = 40;

/// Master clocks of an internal cycle of the processor, and of a reset.
const INNER_CLOCKS: u8 = 6;

/// Makes the processor read a byte at an address, and returns how many clocks the access lasts.
#[inline(always)]
#[tactic(auto, using(crate::proofs::Few::few_clocks, crate::proofs::Few::least_clocks))]
fn read_at(cpu: &mut Cpu, bus: &mut Bus, addr: u32, got: u8) -> u8
    requires read { gets_at (access_of cpu.old) addr }
    requires addr { addr < 2 ^ 24 }
    ensures rest { bus.new ≡ after_access bus.old (access_of cpu.old) got }
    ensures processor { (s : CpuState) → Stands cpu.old s
        → Stands cpu.new (with_interrupt_levels (moved_on s (byte_of bus.old (access_of cpu.old) got)) bus.new) }
    ensures clocks { result ≡ clocks_of addr bus.old.io.fast }
    ensures least { 6 ≤ result }
    ensures few { result ≤ 40 }
{
    let access = look_up(bus, addr);
    make_read(cpu, bus, access, got);
    access.clocks
}

/// Makes the processor write a byte at an address, and returns how many clocks the access lasts.
#[inline(always)]
#[tactic(auto, using(crate::proofs::Few::few_clocks, crate::proofs::Few::least_clocks))]
fn write_at(cpu: &mut Cpu, bus: &mut Bus, addr: u32, v: u8) -> u8
    requires write { access_of cpu.old ≡ Write addr v }
    requires addr { addr < 2 ^ 24 }
    ensures rest { (got : ℕ) → bus.new ≡ after_access bus.old (access_of cpu.old) got }
    ensures processor { (s : CpuState) → Stands cpu.old s
        → Stands cpu.new (with_interrupt_levels (moved_on s 0) bus.new) }
    ensures clocks { result ≡ clocks_of addr bus.old.io.fast }
    ensures least { 6 ≤ result }
    ensures few { result ≤ 40 }
{
    let access = look_up(bus, addr);
    make_write(cpu, bus, access, v);
    access.clocks
}

/// Makes the processor's next access, and returns how many clocks it lasts.
#[inline(always)]
fn make_access(cpu: &mut Cpu, bus: &mut Bus, got: u8) -> u8
    ensures rest { bus.new ≡ rest_after bus.old (Accesses (access_of cpu.old)) got }
    ensures processor { (s : CpuState) → Stands cpu.old s
        → Stands cpu.new (with_interrupt_levels
        (processor_after s bus.old (Accesses (access_of cpu.old)) got) bus.new) }
    ensures clocks { result ≡ access_clocks (access_of cpu.old) bus.old.io.fast }
    ensures least { 6 ≤ result }
    ensures few { result ≤ 40 }
{
    match cpu.next() {
        Access::Fetch(addr) => read_at(cpu, bus, addr, got),
        Access::Read(addr) => read_at(cpu, bus, addr, got),
        Access::Write(addr, v) => write_at(cpu, bus, addr, v),
        Access::Inner => {
            make_inner(cpu, bus);
            INNER_CLOCKS
        }
    }
}

/// Makes the effect of the step that is due, and returns how many clocks the step lasts.
#[inline(always)]
fn make_effect(cpu: &mut Cpu, bus: &mut Bus, got: u8) -> u8
    ensures rest { (s : CpuState) → Stands cpu.old s → bus.new ≡ rest_after bus.old (due_from s bus.old) got }
    ensures processor { (s : CpuState) → Stands cpu.old s
        → Stands cpu.new (with_interrupt_levels (processor_after s bus.old (due_from s bus.old) got) bus.new) }
    ensures clocks { (s : CpuState) → Stands cpu.old s → result ≡ due_clocks (due_from s bus.old) bus.old.io.fast }
    ensures least { 6 ≤ result }
    ensures few { result ≤ 40 }
{
    if bus.resets() {
        make_reset(cpu, bus);
        return INNER_CLOCKS;
    }
    if bus.refreshes() {
        bus.refreshed();
        give_interrupt_levels(cpu, bus);
        return REFRESH_CLOCKS;
    }
    if let Some(due) = bus.transfer() {
        make_move(bus, due, got);
        give_interrupt_levels(cpu, bus);
        return MOVE_CLOCKS;
    }
    make_access(cpu, bus, got)
}

/// Whether a reset or a refresh is due.
#[inline(always)]
fn is_held(bus: &Bus) -> bool
    ensures reset { result ≡ false → bus.now.reset ≡ false }
    ensures refresh { result ≡ false → bus.now.refresh ≡ false }
{
    bus.resets() || bus.refreshes()
}

/// Moves the byte of a transfer that is due, if it touches no port and nothing else happens in its clocks. Returns how
/// many these are. Otherwise nothing has changed.
#[inline(always)]
fn try_haul(cpu: &mut Cpu, bus: &mut Bus) -> Option<u8>
    ensures made { IfSome result (λ clocks. (w : ConsoleState) → IsAt cpu.old bus.old w
        → IsStepMade cpu.new bus.new w (due_of w) clocks) }
    ensures lasts { IfSome result (λ clocks. clocks ≡ 8) }
    ensures bus_stays { result ≡ None → bus.new ≡ bus.old }
    ensures cpu_stays { result ≡ None → cpu.new ≡ cpu.old }
{
    if is_held(bus) {
        return None;
    }
    let due = bus.transfer()?;
    if try_move(cpu, bus, due) {
        Some(MOVE_CLOCKS)
    } else {
        None
    }
}

/// Makes the processor's next access, with its clocks, if that is due and `try_plain` makes it. Returns how many clocks
/// it lasts. Otherwise nothing has changed.
#[inline(always)]
fn try_next(cpu: &mut Cpu, bus: &mut Bus) -> Option<u8>
    requires calm { IsCalm bus.old }
    ensures made { IfSome result (λ clocks. IsMadeAtOnce cpu.old cpu.new bus.old bus.new (access_of cpu.old) clocks) }
    ensures bus_stays { result ≡ None → bus.new ≡ bus.old }
    ensures cpu_stays { result ≡ None → cpu.new ≡ cpu.old }
{
    if !is_wired(cpu, bus) {
        return None;
    }
    try_plain(cpu, bus)
}

/// Runs the step that is due if a fast check shows that it touches no port and that nothing else happens in its clocks.
/// Returns how many clocks it lasts. Otherwise nothing has changed.
#[inline(always)]
pub(crate) fn try_make(cpu: &mut Cpu, bus: &mut Bus) -> Option<u8>
    ensures made { IfSome result (λ clocks. (w : ConsoleState) → IsAt cpu.old bus.old w
        → IsStepMade cpu.new bus.new w (due_of w) clocks) }
    ensures least { IfSome result (λ clocks. 6 ≤ clocks) }
    ensures few { IfSome result (λ clocks. clocks ≤ 40) }
    ensures bus_stays { result ≡ None → bus.new ≡ bus.old }
    ensures cpu_stays { result ≡ None → cpu.new ≡ cpu.old }
{
    if !is_calm(bus) {
        return try_haul(cpu, bus);
    }
    try_next(cpu, bus)
}

/// Runs the step that is due, and returns how many master clocks it lasts. `got` is the incoming byte of the port if
/// the step reads one. A row that is finished on the way is appended to the buffered bytes.
#[inline(always)]
pub(crate) fn make_step(
    cpu: &mut Cpu,
    bus: &mut Bus,
    waiting: &mut HeapCircularBuffer<u8>,
    got: u8,
) -> u8
    requires room { length waiting.old.items + 1024 ≤ waiting.old.capacity }
    ensures at { (w : ConsoleState) → IsAt cpu.old bus.old w → IsAt cpu.new bus.new (console_after w (due_of w) got) }
    ensures bytes { (w : ConsoleState) → IsAt cpu.old bus.old w
        → waiting.new.items ≡ waiting.old.items ++ bytes_after w (due_of w) got }
    ensures clocks { (w : ConsoleState) → IsAt cpu.old bus.old w → result ≡ due_clocks (due_of w) w.rest.io.fast }
    ensures least { 6 ≤ result }
    ensures few { result ≤ 40 }
    ensures size { length waiting.new.items ≤ length waiting.old.items + 1024 }
    ensures capacity { waiting.new.capacity ≡ waiting.old.capacity }
{
    let clocks = make_effect(cpu, bus, got);
    pass(cpu, bus, waiting, clocks as u16);
    clocks
}
