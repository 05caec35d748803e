// Compares the order in which the serial run passes on what two machines emit with that of turns of the serial console.
ghost use Rattle.std.specs.Prelude.{◌≡◌, ◌^◌, ◌≤◌, [], length};

use crate::emitter::{rows, samples};
use case_text::{hashed, no_hash};
use clock_ratio::end_stamp;
use run_drive::{Sink, pour, run_serial};
use serial_console::Serial;
use shelf::Failed;
use side_law::Machine;
use snes_defs::{NoMemory, Side};
use std::alloc::Global;
use std::test::Fail;

/// More turns than two machines of this crate take in a few frames.
const MOST_TURNS: u64 = 10_000_000;

/// The takes of a run: how many of each side, and a hash (64-bit FNV-1a) of their sides and sizes, in order.
#[derive(Clone, Copy, Debug, PartialEq, Eq)]
struct Order {
    /// The number of takes of the console.
    rows: u64,
    /// The number of takes of the sound side.
    samples: u64,
    hash: u64,
}

impl Order {
    /// Returns the order of no takes.
    fn new() -> Order {
        Order {
            rows: 0,
            samples: 0,
            hash: no_hash(),
        }
    }

    /// Adds a number to the hash, low byte first.
    fn add(&mut self, number: u64) {
        for byte in number.to_le_bytes() {
            self.hash = hashed(self.hash, byte);
        }
    }
}

impl Sink for Order {
    ghost holds = { λ _ _ _. Unit {0} };

    ghost only_takes = { λ _ _. Unit {0} };

    ghost failed = { λ _ _ _. ⊥ };

    fn take(&mut self, side: Side, bytes: &[u8]) -> Result<(), Failed> {
        match side {
            Side::Console => {
                self.rows = self.rows.wrapping_add(1);
                self.add(1);
            }
            Side::Sound => {
                self.samples = self.samples.wrapping_add(1);
                self.add(2);
            }
        }
        self.add(bytes.len() as u64);
        Ok(())
    }

    ghost takes_none = { λ _. tt };

    ghost takes_more = { λ _ _ _ _ _. tt };

    ghost failed_since = { λ _ _ _ _ _ none. none };
}

/// Runs frames of rows and samples by the serial run, and returns the order in which they are passed on.
fn by_run(alloc: Global, frames: u32) -> Result<Order, NoMemory>
    requires { frames ≤ 36000 }
{
    let console = rows(alloc)?;
    let sound = samples(alloc)?;
    let mut buffer = [0u8; 1024];
    let mut order = Order::new();
    let _ = run_serial(console, sound, end_stamp(frames), &mut buffer, &mut order);
    Ok(order)
}

/// Runs turns of the serial console up to an end stamp, with both machines drained after each, the console first.
fn turn_by_turn<C: Machine + Drop, S: Machine + Drop>(
    console: C,
    sound: S,
    end: u64,
    buffer: &mut [u8],
    order: &mut Order,
)
    requires early { end ≤ 2 ^ 62 }
    requires console_room { C.MOST ≤ C.CAP }
    requires sound_room { S.MOST ≤ S.CAP }
    requires console_fits { C.MOST ≤ length buffer.old }
    requires sound_fits { S.MOST ≤ length buffer.old }
    requires console_empty { C.waiting console ≡ [] }
    requires sound_empty { S.waiting sound ≡ [] }
{
    let mut serial = Serial::new(console, sound);
    'turns: for _ in 0..MOST_TURNS {
        if serial.finished(end) {
            break;
        }
        let _ = serial.turn();
        let _ = pour(serial.console(), Side::Console, buffer, order);
        let _ = pour(serial.sound(), Side::Sound, buffer, order);
    }
}

/// Runs frames of rows and samples by turns of the serial console, and returns the order of their takes. Both machines
/// are drained after each turn, the console first.
fn by_turns(alloc: Global, frames: u32) -> Result<Order, NoMemory>
    requires { frames ≤ 36000 }
{
    let console = rows(alloc)?;
    let sound = samples(alloc)?;
    let mut buffer = [0u8; 1024];
    let mut order = Order::new();
    turn_by_turn(console, sound, end_stamp(frames), &mut buffer, &mut order);
    Ok(order)
}

/// Two frames of 239 rows each, and a sample every 32 cycles.
#[test]
fn run_passes_on_in_the_order_of_turns(rt: HostRuntime) -> Result<(), Fail> {
    let run = by_run(rt.alloc(), 2)?;
    let turns = by_turns(rt.alloc(), 2)?;
    assert_eq!(rt; (run.rows, run.samples), (478, 1064));
    assert_eq!(rt; run, turns);
    Ok(())
}
