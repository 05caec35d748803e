// The effect of a step: a read, a write, an internal cycle, a byte of a transfer, a reset.
ghost use Rattle.std.specs.Prelude.{◌≡◌, ℕ, Some, IsTrue, IsSome};
ghost use Rattle.cpu_modes.specs.Plan.{is_inner};
ghost use Rattle.cpu65816.specs.Instruction.{CpuState, at_reset, moved_on};
ghost use Rattle.cpu65816.specs.Stands.{Stands, access_of};
ghost use Rattle.dma_hdma.specs.Channels.{due_of as transfer_of};
ghost use Rattle.dma_hdma.specs.declared.moves.Move.{Move};
ghost use Rattle.console_bus.specs.Places.{taken_from};
ghost use Rattle.console_bus.specs.Happenings.{was_reset};
ghost use Rattle.console_steps.specs.ConsoleState.{with_interrupt_levels, after_access, byte_of, after_move};
ghost use Rattle.console_steps.specs.Targets.{IsWithin, Reads, Writes, target_byte, target_read, target_written};

use crate::bus_access::{BusAccess, Target};
use cart_map::Place;
use console_bus::Bus;
use cpu65816::Cpu;
use dma_hdma::Move;

/// Gives the processor the levels of its NMI and IRQ lines.
#[inline(always)]
pub fn give_interrupt_levels(cpu: &mut Cpu, bus: &Bus)
    ensures { (s : CpuState) → Stands cpu.old s → Stands cpu.new (with_interrupt_levels s bus.now) }
{
    let (nmi, irq) = bus.interrupt_levels();
    cpu.signal(nmi, irq);
}

/// Reads the byte that an access reaches. `got` is the byte that a port to the sound side gives.
#[inline(always)]
fn read_target(bus: &mut Bus, target: Target, got: u8) -> u8
    requires { IsWithin bus.old.board target }
    ensures byte { result ≡ target_byte bus.old target got }
    ensures after { bus.new ≡ target_read bus.old target }
{
    match target {
        Target::Memory(at) => bus.load(at),
        Target::Port(_) => got,
        Target::Register(register) => bus.read_register(register, got),
        Target::Chip(register) => bus.read_chip(register),
        Target::Nothing => bus.read_place(Place::Open, got),
    }
}

/// Writes a byte to what an access reaches. A port keeps nothing on this side.
#[inline(always)]
fn write_target(bus: &mut Bus, target: Target, v: u8)
    requires { IsWithin bus.old.board target }
    ensures { bus.new ≡ target_written bus.old target v }
{
    match target {
        Target::Memory(at) => bus.store(at, v),
        Target::Port(_) => {}
        Target::Register(register) => bus.write_register(register, v),
        Target::Chip(register) => bus.write_chip(register, v),
        Target::Nothing => {}
    }
}

/// Makes the processor read the byte that its access reaches, as an opcode or not.
#[inline(always)]
pub fn make_read(cpu: &mut Cpu, bus: &mut Bus, access: BusAccess, got: u8)
    requires { Reads cpu.old bus.old access }
    ensures rest { bus.new ≡ after_access bus.old (access_of cpu.old) got }
    ensures processor { (s : CpuState) → Stands cpu.old s
        → Stands cpu.new (with_interrupt_levels (moved_on s (byte_of bus.old (access_of cpu.old) got)) bus.new) }
{
    let byte = read_target(bus, access.target, got);
    bus.put(byte);
    cpu.took(byte);
    give_interrupt_levels(cpu, bus);
}

/// Makes the processor write a byte to what its access reaches.
#[inline(always)]
pub fn make_write(cpu: &mut Cpu, bus: &mut Bus, access: BusAccess, v: u8)
    requires { Writes cpu.old bus.old access v }
    ensures rest { (got : ℕ) → bus.new ≡ after_access bus.old (access_of cpu.old) got }
    ensures processor { (s : CpuState) → Stands cpu.old s
        → Stands cpu.new (with_interrupt_levels (moved_on s 0) bus.new) }
{
    write_target(bus, access.target, v);
    bus.put(v);
    cpu.wrote();
    give_interrupt_levels(cpu, bus);
}

/// Makes the processor take an internal cycle.
#[inline(always)]
pub fn make_inner(cpu: &mut Cpu, bus: &Bus)
    requires { IsTrue (is_inner (access_of cpu.old)) }
    ensures { (s : CpuState) → Stands cpu.old s → Stands cpu.new (with_interrupt_levels (moved_on s 0) bus.now) }
{
    cpu.idle();
    give_interrupt_levels(cpu, bus);
}

/// Returns the byte that a transfer takes from the A side, looked up by its page if that is memory.
#[inline(always)]
fn taken(bus: &Bus, addr: u32) -> u8
    ensures { result ≡ taken_from bus.now addr }
{
    match bus.memory_at(addr % 0x100_0000) {
        Some(access) => bus.load(access.at),
        None => bus.take(addr),
    }
}

/// Moves a byte of a transfer from the A side to a register of the B bus.
#[inline(always)]
fn move_to_b(bus: &mut Bus, from: u32, port: u8)
    requires { IsSome (transfer_of bus.old.channels) }
    ensures { (got : ℕ) → bus.new ≡ after_move bus.old (Move.ToB from port) got }
{
    let byte = taken(bus, from);
    bus.put(byte);
    bus.write_register(port, byte);
    bus.transferred(byte);
}

/// Moves a byte of a transfer from a register of the B bus to the A side.
fn move_to_a(bus: &mut Bus, port: u8, to: u32, got: u8)
    requires { IsSome (transfer_of bus.old.channels) }
    ensures { bus.new ≡ after_move bus.old (Move.ToA port to) got }
{
    let byte = bus.read_register(port, got);
    bus.put(byte);
    bus.give(to, byte);
    bus.transferred(byte);
}

/// Loads a byte of an HDMA table from the A side.
fn move_load(bus: &mut Bus, from: u32)
    requires { IsSome (transfer_of bus.old.channels) }
    ensures { (got : ℕ) → bus.new ≡ after_move bus.old (Move.Load from) got }
{
    let byte = taken(bus, from);
    bus.put(byte);
    bus.transferred(byte);
}

/// Moves the byte of a transfer that is due.
#[inline(always)]
pub fn make_move(bus: &mut Bus, due: Move, got: u8)
    requires { transfer_of bus.old.channels ≡ Some due }
    ensures { bus.new ≡ after_move bus.old due got }
{
    match due {
        Move::ToB { from, port } => move_to_b(bus, from, port),
        Move::ToA { port, to } => move_to_a(bus, port, to, got),
        Move::Load { from } => move_load(bus, from),
    }
}

/// Makes the reset that is due.
pub fn make_reset(cpu: &mut Cpu, bus: &mut Bus)
    ensures rest { bus.new ≡ was_reset bus.old }
    ensures processor { Stands cpu.new (with_interrupt_levels at_reset bus.new) }
{
    bus.reset();
    *cpu = Cpu::new();
    give_interrupt_levels(cpu, bus);
}
