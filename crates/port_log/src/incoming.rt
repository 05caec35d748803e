// What the log keeps of one side: its clock, and what reaches its four incoming ports.
ghost use Rattle.std.specs.Prelude.{◌≡◌, ◌+◌, ◌/◌, ◌%◌, ◌<◌, ◌≤◌, ◌==◌, [], ℕ, IfOk, if◌then◌else◌, length, replicate, slice_get, None, Some};
ghost use Rattle.std.specs.List.{AllByRecursion};
ghost use Rattle.port_entries.specs.LastValue.{sees};
ghost use Rattle.port_log.specs.Kept.{SideValue, byte_with, found_in, later, latched, cleared_after, latches_after, after_clear, after_clock, after_write};
ghost use Rattle.port_log.specs.Held.{AreInOrder, AreUnseen, HasPort, first_stamp};

use crate::seen::{is_cleared, is_seen};
use crate::written::Written;
use circular_buffer::HeapCircularBuffer;
use snes_defs::{NoMemory, Side};
use std::alloc::Global;
use std::marker::Model;

/// For how many of the other side's writes there is room: more than lie within a window.
const ROOM: usize = 4096;

/// What is kept of one side: its published clock, its ports, and the other side's writes that it doesn't see at that
/// clock yet. For each incoming port that is the byte that the earlier writes left there, and the greatest stamp at
/// which the side cleared the port.
#[derive(Drop)]
pub struct Incoming {
    clock: u64,
    waiting: HeapCircularBuffer<Written>,
    latches: [u8; 4],
    cleared: [Option<u64>; 4],
}

impl Model for Incoming {
    ghost use Rattle.std.specs.Prelude.{◌≡◌};
    ghost use Rattle.port_log.specs.Kept.{SideValue};

    ghost Value = { SideValue };

    ghost view = { λ s. record {
      clock = s.clock;
      waiting = s.waiting.items;
      latches = s.latches;
      cleared = s.cleared;
    } };

    ghost invariant = { λ s. s.waiting.capacity ≡ 4096 };
}

/// Returns the greatest clear of a port after one more at `at`; `bit` is the port's bit of the mask.
#[inline(always)]
fn later_clear(clear: Option<u64>, mask: u8, bit: u8, at: u64) -> Option<u64>
    requires { 0 < bit }
    ensures { result ≡ (if mask / bit % 2 == 1 then Some (later clear at) else clear) }
{
    if mask / bit % 2 == 1 {
        match clear {
            Some(before) => Some(before.max(at)),
            None => Some(at),
        }
    } else {
        clear
    }
}

/// The greatest clears of the four ports after one more at `at`.
#[inline(always)]
fn later_clears(clears: [Option<u64>; 4], mask: u8, at: u64) -> [Option<u64>; 4]
    ensures { result ≡ cleared_after clears 0 mask at }
{
    let [first, second, third, fourth] = clears;
    [
        later_clear(first, mask, 1, at),
        later_clear(second, mask, 2, at),
        later_clear(third, mask, 4, at),
        later_clear(fourth, mask, 8, at),
    ]
}

/// Returns a latch after a clear; `bit` is the port's bit of the mask.
#[inline(always)]
fn zeroed_latch(latch: u8, mask: u8, bit: u8) -> u8
    requires { 0 < bit }
    ensures { result ≡ (if mask / bit % 2 == 1 then 0 else latch) }
{
    if mask / bit % 2 == 1 { 0 } else { latch }
}

/// The four latches after a clear.
#[inline(always)]
fn zeroed_latches(latches: [u8; 4], mask: u8) -> [u8; 4]
    ensures { result ≡ latches_after latches 0 mask }
{
    let [first, second, third, fourth] = latches;
    [
        zeroed_latch(first, mask, 1),
        zeroed_latch(second, mask, 2),
        zeroed_latch(third, mask, 4),
        zeroed_latch(fourth, mask, 8),
    ]
}

/// Moves a write to the latch of its port, unless a clear has zeroed it.
#[inline(always)]
fn latch(side: Side, cleared: &[Option<u64>; 4], latches: &mut [u8; 4], write: Written)
    requires { write.port < 4 }
    ensures { latches.new ≡ latched side cleared.now latches.old write }
{
    let port = write.port as usize;
    if !is_cleared(side, cleared[port], write.at) {
        latches[port] = write.byte;
    }
}

/// Returns the byte of a port at `at` after one more write; `clear` is the port's greatest clear.
#[inline(always)]
fn byte_after(side: Side, clear: Option<u64>, port: u8, at: u64, byte: u8, write: Written) -> u8
    ensures { result ≡ byte_with side clear port at byte write }
{
    if write.port == port && is_seen(side, write.at, at) && !is_cleared(side, clear, write.at) {
        write.byte
    } else {
        byte
    }
}

/// The first of the writes that wait.
#[inline(always)]
fn first(waiting: &HeapCircularBuffer<Written>) -> Option<Written>
    ensures { result ≡ slice_get waiting.now.items 0 }
{
    waiting.front().copied()
}

impl Incoming {
    /// Returns the state of a side with no write and no clear, zero bytes and a clock at 0.
    pub fn new(alloc: Global) -> Result<Incoming, NoMemory>
        ensures { IfOk result (λ s. s ≡ record {
          clock = 0;
          waiting = [];
          latches = replicate 4 0;
          cleared = replicate 4 None;
        }) }
    {
        match HeapCircularBuffer::with_capacity(alloc, ROOM) {
            Ok(waiting) => Ok(Incoming {
                clock: 0,
                waiting,
                latches: [0; 4],
                cleared: [None; 4],
            }),
            Err(_) => Err(NoMemory),
        }
    }

    /// Returns the clock that the side has published.
    #[inline(always)]
    pub fn clock(&self) -> u64
        ensures { result ≡ self.now.clock }
    {
        self.clock
    }

    /// Returns the byte that the side finds at the port at `at`. It reads the latch and the pending writes, up to the
    /// first write that the side doesn't see at `at`.
    #[inline(always)]
    pub fn found(&self, side: Side, at: u64, port: u8) -> u8
        requires port { port < 4 }
        requires order { AreInOrder self.now.waiting }
        ensures { result ≡ found_in side self.now port at }
    {
        let clear = self.cleared[port as usize];
        let mut byte = self.latches[port as usize];
        for place in 0..self.waiting.len() {
            match self.waiting.get(place) {
                Some(write) => {
                    if !is_seen(side, write.at, at) {
                        return byte;
                    }
                    byte = byte_after(side, clear, port, at, byte, *write);
                }
                None => return byte,
            }
        }
        byte
    }

    /// Publishes a clock: the writes that the side sees then move to the latches.
    #[inline(always)]
    pub fn publish(&mut self, side: Side, clock: u64)
        requires ports { AllByRecursion HasPort self.old.waiting }
        ensures { self.new ≡ after_clock side clock self.old }
    {
        self.clock = clock;
        'moving: loop {
            match first(&self.waiting) {
                None => return,
                Some(write) => {
                    if !is_seen(side, write.at, clock) {
                        return;
                    }
                    latch(side, &self.cleared, &mut self.latches, write);
                    let _moved = self.waiting.pop_front();
                }
            }
        }
    }

    /// Records a clear, at `at`, of the ports of the mask.
    #[inline(always)]
    pub fn clear(&mut self, at: u64, mask: u8)
        ensures { self.new ≡ after_clear at mask self.old }
    {
        self.latches = zeroed_latches(self.latches, mask);
        self.cleared = later_clears(self.cleared, mask, at);
    }

    /// Records a write of the other side.
    #[inline(always)]
    pub fn receive(&mut self, side: Side, write: Written)
        requires port { write.port < 4 }
        requires room { length self.old.waiting < 4096 }
        ensures { self.new ≡ after_write side write self.old }
    {
        if is_seen(side, write.at, self.clock) {
            latch(side, &self.cleared, &mut self.latches, write);
        } else {
            let _overwritten = self.waiting.push_back(write);
        }
    }
}
