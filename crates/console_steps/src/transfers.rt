// A byte of a transfer, with its clocks, if it touches no port and nothing else happens in these.
ghost use Rattle.std.specs.Prelude.{◌≡◌, ◌<◌, [], false, Some, IsTrue};
ghost use Rattle.snes_defs.specs.declared.ports.Act.TheVariants.{Quiet};
ghost use Rattle.cpu65816.specs.Instruction.{CpuState};
ghost use Rattle.cpu65816.specs.Stands.{Stands};
ghost use Rattle.beam.specs.Places.{clocks_left};
ghost use Rattle.dma_hdma.specs.Channels.{due_of as transfer_of};
ghost use Rattle.console_bus.specs.BusState.{BusState};
ghost use Rattle.console_steps.specs.ConsoleState.{move_act, after_move, with_interrupt_levels};
ghost use Rattle.console_steps.specs.AtOnce.{gone_on, passed_in, IsMovedAtOnce};

use crate::bus_access::is_port;
use crate::effects::{give_interrupt_levels, make_move};
use console_bus::Bus;
use cpu65816::Cpu;
use dma_hdma::Move;

/// Master clocks of a byte that a transfer moves.
pub const MOVE_CLOCKS: u8 = 8;

/// Whether a byte of a transfer goes to a port or comes from one.
#[inline(always)]
fn is_at_port(due: Move) -> bool
    ensures { result ≡ false → (r : BusState) → move_act r due ≡ Quiet }
{
    match due {
        Move::ToB { port, .. } => is_port(port),
        Move::ToA { port, .. } => is_port(port),
        Move::Load { .. } => false,
    }
}

/// Moves the byte of a transfer that is due.
#[inline(always)]
fn move_byte(bus: &mut Bus, due: Move)
    requires { transfer_of bus.old.channels ≡ Some due }
    ensures after { bus.new ≡ after_move bus.old due 0 }
    ensures beam { bus.new.beam ≡ bus.old.beam }
{
    make_move(bus, due, 0);
}

/// Moves the byte of a transfer that is due, and advances the beam by its clocks.
#[inline(always)]
fn haul(cpu: &mut Cpu, bus: &mut Bus, due: Move)
    requires due { transfer_of bus.old.channels ≡ Some due }
    requires few { 8 < clocks_left bus.old.beam }
    ensures rest { bus.new ≡ gone_on (after_move bus.old due 0) 8 }
    ensures nothing { passed_in (after_move bus.old due 0) 8 ≡ [] }
    ensures processor { (s : CpuState) → Stands cpu.old s
        → Stands cpu.new (with_interrupt_levels s (after_move bus.old due 0)) }
{
    move_byte(bus, due);
    give_interrupt_levels(cpu, bus);
    bus.go_on(MOVE_CLOCKS as u16);
}

/// Moves the byte of a transfer that is due, with its clocks, if it touches no port and nothing else happens in these.
/// Returns whether it did. Otherwise nothing has changed.
#[inline(always)]
pub fn try_move(cpu: &mut Cpu, bus: &mut Bus, due: Move) -> bool
    requires { transfer_of bus.old.channels ≡ Some due }
    ensures made { IsTrue result → IsMovedAtOnce cpu.old cpu.new bus.old bus.new due }
    ensures bus_stays { result ≡ false → bus.new ≡ bus.old }
    ensures cpu_stays { result ≡ false → cpu.new ≡ cpu.old }
{
    if bus.clocks_left() <= MOVE_CLOCKS as u16 {
        return false;
    }
    if is_at_port(due) {
        return false;
    }
    haul(cpu, bus, due);
    true
}
