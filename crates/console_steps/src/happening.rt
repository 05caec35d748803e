// The events of the beam other than the drawing of a row.
ghost use Rattle.std.specs.Prelude.{◌≡◌, ◌≢◌};
ghost use Rattle.beam.specs.declared.events.Event.{Event};
ghost use Rattle.beam.specs.declared.events.Event.TheVariants as events;
ghost use Rattle.cpu65816.specs.Instruction.{CpuState};
ghost use Rattle.cpu65816.specs.Stands.{Stands};
ghost use Rattle.console_bus.specs.Happenings.{happened};
ghost use Rattle.console_steps.specs.ConsoleState.{with_interrupt_levels};

use crate::effects::give_interrupt_levels;
use beam::Event;
use console_bus::Bus;
use cpu65816::Cpu;

/// Begins a line, and with line 0 a frame.
#[inline(always)]
fn begin_line(bus: &mut Bus)
    ensures { bus.new ≡ happened bus.old events.Line }
{
    if bus.scanline() == 0 {
        bus.begin_frame();
    }
}

/// Makes an event happen on the bus, other than a row being drawn.
fn happen_on_bus(bus: &mut Bus, event: Event)
    requires { event ≢ events.Draw }
    ensures { bus.new ≡ happened bus.old event }
{
    match event {
        Event::Line => begin_line(bus),
        Event::Blank => bus.begin_blank(),
        Event::HdmaFrame => bus.begin_hdma(),
        Event::Refresh => bus.begin_refresh(),
        Event::Draw => unreachable!(),
        Event::HdmaLine => bus.begin_hdma_line(),
        Event::Timer => bus.fire(),
    }
}

/// Makes an event of the beam happen, other than a row being drawn, and gives the processor the levels of its lines
/// again.
#[inline(always)]
pub fn happen(cpu: &mut Cpu, bus: &mut Bus, event: Event)
    requires { event ≢ events.Draw }
    ensures rest { bus.new ≡ happened bus.old event }
    ensures processor { (s : CpuState) → Stands cpu.old s → Stands cpu.new (with_interrupt_levels s bus.new) }
{
    happen_on_bus(bus, event);
    give_interrupt_levels(cpu, bus);
}
