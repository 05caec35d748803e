// What the step that is due does at the ports.
ghost use Rattle.std.specs.Prelude.{◌≡◌, ◌<◌, ◌^◌};
ghost use Rattle.side_law.specs.Moves.{IsAtPorts};
ghost use Rattle.cpu65816.specs.Instruction.{CpuState};
ghost use Rattle.cpu65816.specs.Stands.{Stands};
ghost use Rattle.console_bus.specs.Places.{place_at};
ghost use Rattle.console_steps.specs.ConsoleState.{act_of, move_act, read_at, write_at};
ghost use Rattle.console_steps.specs.Targets.{IsWithin, read_act, write_act};
ghost use Rattle.console_machine.specs.Dues.{due_from};

use console_bus::Bus;
use console_steps::{Target, is_port, look_up};
use cpu_tables::Access;
use cpu65816::Cpu;
use dma_hdma::Move;
use snes_defs::Act;

/// Returns what a read does at the ports.
#[inline(always)]
fn read_act(bus: &Bus, target: Target) -> Act
    requires { IsWithin bus.now.board target }
    ensures value { result ≡ read_act target }
    ensures at_ports { IsAtPorts result }
{
    match target {
        Target::Port(port) => Act::Read(port),
        _ => Act::Quiet,
    }
}

/// Returns what a write does at the ports.
#[inline(always)]
fn write_act(bus: &Bus, target: Target, v: u8) -> Act
    requires { IsWithin bus.now.board target }
    ensures value { result ≡ write_act target v }
    ensures at_ports { IsAtPorts result }
{
    match target {
        Target::Port(port) => Act::Write(port, v),
        _ => Act::Quiet,
    }
}

/// Returns what a byte of a transfer does at the ports.
fn transfer_act(bus: &Bus, due: Move) -> Act
    ensures value { result ≡ move_act bus.now due }
    ensures at_ports { IsAtPorts result }
{
    match due {
        Move::ToB { from, port } => {
            // The byte is looked up only if it goes to one of the ports.
            if is_port(port) {
                Act::Write(port % 4, bus.take(from))
            } else {
                Act::Quiet
            }
        }
        Move::ToA { port, .. } => {
            if is_port(port) {
                Act::Read(port % 4)
            } else {
                Act::Quiet
            }
        }
        Move::Load { .. } => Act::Quiet,
    }
}

/// Returns what a read of an address does at the ports.
#[inline(always)]
fn read_act_at(bus: &Bus, addr: u32) -> Act
    requires { addr < 2 ^ 24 }
    ensures value { result ≡ read_at (place_at bus.now.board addr) }
    ensures at_ports { IsAtPorts result }
{
    let access = look_up(bus, addr);
    read_act(bus, access.target)
}

/// Returns what a write of an address does at the ports.
#[inline(always)]
fn write_act_at(bus: &Bus, addr: u32, v: u8) -> Act
    requires { addr < 2 ^ 24 }
    ensures value { result ≡ write_at (place_at bus.now.board addr) v }
    ensures at_ports { IsAtPorts result }
{
    let access = look_up(bus, addr);
    write_act(bus, access.target, v)
}

/// Returns what the step that is due does at the ports.
#[inline(always)]
pub(crate) fn due_act(cpu: &Cpu, bus: &Bus) -> Act
    ensures value { (s : CpuState) → Stands cpu.now s → result ≡ act_of bus.now (due_from s bus.now) }
    ensures at_ports { IsAtPorts result }
{
    if bus.resets() {
        return Act::Clear(15);
    }
    if bus.refreshes() {
        return Act::Quiet;
    }
    if let Some(due) = bus.transfer() {
        return transfer_act(bus, due);
    }
    match cpu.next() {
        Access::Fetch(addr) => read_act_at(bus, addr),
        Access::Read(addr) => read_act_at(bus, addr),
        Access::Write(addr, v) => write_act_at(bus, addr, v),
        Access::Inner => Act::Quiet,
    }
}
