// The clocks that pass after a step's effect, with the events of the beam and the rows drawn.
ghost use Rattle.std.specs.Prelude.{◌≡◌, ◌≢◌, ◌+◌, ◌*◌, ◌-◌, ◌<◌, ◌≤◌, ◌++◌, ◌==◌, ◌&&◌, ◌||◌, nat_lt, nat_le, ℕ};
ghost use Rattle.std.specs.Prelude.{Bool, IsTrue, List, [], length, if◌then◌else◌};
ghost use Rattle.beam.specs.Events.{one_if, events_of};
ghost use Rattle.beam.specs.declared.events.Event.{Event};
ghost use Rattle.beam.specs.declared.events.Event.TheVariants as events;
ghost use Rattle.console_steps.specs.ConsoleState.{ConsoleState, after_events, bytes_of_events, after_clocks, bytes_in};
ghost use Rattle.console_steps.specs.Draws.{room_for};
ghost use Rattle.console_steps.specs.Parts.{first_of, last_of};
ghost use Rattle.console_steps.specs.Stands.{IsAt};

use crate::drawing::draw_row;
use crate::effects::give_interrupt_levels;
use crate::happening::happen;
use beam::{Event, Happens};
use circular_buffer::HeapCircularBuffer;
use console_bus::Bus;
use cpu65816::Cpu;

/// Passes an event that comes or not, other than a row being drawn.
#[inline(always)]
fn pass_event(cpu: &mut Cpu, bus: &mut Bus, comes: bool, event: Event)
    requires { event ≢ events.Draw }
    ensures at { (w : ConsoleState) → IsAt cpu.old bus.old w
        → IsAt cpu.new bus.new (after_events w (one_if comes event)) }
    ensures none { (w : ConsoleState) → bytes_of_events w (one_if comes event) ≡ [] }
    ensures beam { bus.new.beam ≡ bus.old.beam }
{
    if comes {
        happen(cpu, bus, event);
    }
}

/// Passes a row that is drawn or not. After a row it gives the processor its levels again.
#[inline(always)]
fn pass_row(cpu: &mut Cpu, bus: &mut Bus, waiting: &mut HeapCircularBuffer<u8>, comes: bool)
    requires first { IsTrue comes → 1 ≤ bus.old.beam.v }
    requires last { IsTrue comes → bus.old.beam.v ≤ 239 }
    requires room { IsTrue comes → length waiting.old.items + 1024 ≤ waiting.old.capacity }
    ensures at { (w : ConsoleState) → IsAt cpu.old bus.old w
        → IsAt cpu.new bus.new (after_events w (one_if comes events.Draw)) }
    ensures row { (w : ConsoleState) → IsAt cpu.old bus.old w
        → waiting.new.items ≡ waiting.old.items ++ bytes_of_events w (one_if comes events.Draw) }
    ensures size { length waiting.new.items ≡ length waiting.old.items + (if comes then 1024 else 0) }
    ensures capacity { waiting.new.capacity ≡ waiting.old.capacity }
    ensures beam { bus.new.beam ≡ bus.old.beam }
{
    if comes {
        draw_row(bus, waiting);
        give_interrupt_levels(cpu, bus);
    }
}

/// Passes the events of a place before a row is drawn: line, blank, HDMA of a frame, refresh.
fn pass_first(cpu: &mut Cpu, bus: &mut Bus, happens: Happens)
    ensures at { (w : ConsoleState) → IsAt cpu.old bus.old w
        → IsAt cpu.new bus.new (after_events w (first_of happens)) }
    ensures none { (w : ConsoleState) → bytes_of_events w (first_of happens) ≡ [] }
    ensures beam { bus.new.beam ≡ bus.old.beam }
{
    pass_event(cpu, bus, happens.line, Event::Line);
    pass_event(cpu, bus, happens.blank, Event::Blank);
    pass_event(cpu, bus, happens.hdma_frame, Event::HdmaFrame);
    pass_event(cpu, bus, happens.refresh, Event::Refresh);
}

/// Passes the events of a place after a row is drawn: HDMA of a line, the timer.
fn pass_last(cpu: &mut Cpu, bus: &mut Bus, happens: Happens)
    ensures at { (w : ConsoleState) → IsAt cpu.old bus.old w → IsAt cpu.new bus.new (after_events w (last_of happens)) }
    ensures none { (w : ConsoleState) → bytes_of_events w (last_of happens) ≡ [] }
    ensures beam { bus.new.beam ≡ bus.old.beam }
{
    pass_event(cpu, bus, happens.hdma_line, Event::HdmaLine);
    pass_event(cpu, bus, happens.timer, Event::Timer);
}

/// Lets that many clocks pass, event by event of the beam.
#[inline(never)]
fn pass_places(cpu: &mut Cpu, bus: &mut Bus, waiting: &mut HeapCircularBuffer<u8>, clocks: u16)
    requires step { clocks ≤ 40 }
    requires room { length waiting.old.items + room_for bus.old.beam.h clocks ≤ waiting.old.capacity }
    ensures at { (w : ConsoleState) → IsAt cpu.old bus.old w → IsAt cpu.new bus.new (after_clocks w clocks) }
    ensures bytes { (w : ConsoleState) → IsAt cpu.old bus.old w
        → waiting.new.items ≡ waiting.old.items ++ bytes_in w clocks }
    ensures size { length waiting.new.items ≤ length waiting.old.items + room_for bus.old.beam.h clocks }
    ensures capacity { waiting.new.capacity ≡ waiting.old.capacity }
    ensures region { bus.new.beam.region ≡ bus.old.beam.region }
{
    let left = bus.clocks_left();
    if clocks < left {
        bus.go_on(clocks);
        return;
    }
    let happens = bus.reach();
    pass_first(cpu, bus, happens);
    pass_row(cpu, bus, waiting, happens.draw);
    pass_last(cpu, bus, happens);
    pass_places(cpu, bus, waiting, clocks - left);
}

/// Lets that many clocks pass, with the events of the beam that they bring and the rows that these emit.
#[inline(always)]
pub fn pass(cpu: &mut Cpu, bus: &mut Bus, waiting: &mut HeapCircularBuffer<u8>, clocks: u16)
    requires step { clocks ≤ 40 }
    requires room { length waiting.old.items + room_for bus.old.beam.h clocks ≤ waiting.old.capacity }
    ensures at { (w : ConsoleState) → IsAt cpu.old bus.old w → IsAt cpu.new bus.new (after_clocks w clocks) }
    ensures bytes { (w : ConsoleState) → IsAt cpu.old bus.old w
        → waiting.new.items ≡ waiting.old.items ++ bytes_in w clocks }
    ensures size { length waiting.new.items ≤ length waiting.old.items + room_for bus.old.beam.h clocks }
    ensures capacity { waiting.new.capacity ≡ waiting.old.capacity }
    ensures region { bus.new.beam.region ≡ bus.old.beam.region }
{
    if clocks < bus.clocks_left() {
        bus.go_on(clocks);
        return;
    }
    pass_places(cpu, bus, waiting, clocks);
}
