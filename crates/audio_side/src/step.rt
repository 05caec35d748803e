ghost use Rattle.std.specs.Prelude.{◌≡◌, ◌≢◌, ◌/◌, false, IsTrue, MatchBool, ◌≤◌, ◌+◌, ◌%◌, ◌^◌, ◌++◌, length};
ghost use Rattle.side_law.specs.Moves.{IsAtPorts};
ghost use Rattle.snes_defs.specs.declared.ports.Act.TheVariants.{Quiet};
ghost use Rattle.spc700.specs.Instruction.{SpcState, at_reset, moved_on, next_of};
ghost use Rattle.spc700.specs.Stands.{Stands};
ghost use Rattle.audio_side.specs.HardwareState.{vector};
ghost use Rattle.audio_side.specs.Effect.{act_of, act_of_load, after_load, act_of_store, effect, emitted, given, passed, reset_hardware, stored};
ghost use Rattle.audio_side.specs.Sound.{IsRunning, hardware_before_end, processor_after, sound_act};

use crate::clock::CycleClock;
use crate::hardware::{Hardware, cleared};
use circular_buffer::HeapCircularBuffer;
use snes_defs::Act;
use spc700::{Place, Spc, SpcAccess};

/// What a fetch or a read does at the ports.
#[tactic(auto, unfolding(crate::specs::Effect::act_of_load))]
#[inline(always)]
fn load_act(at: u16) -> Act
    ensures value { result ≡ act_of_load at }
    ensures at_ports { IsAtPorts result }
{
    if at >= 0xF4 && at <= 0xF7 {
        Act::Read((at - 0xF4) as u8)
    } else {
        Act::Quiet
    }
}

/// What a write does at the ports.
#[tactic(auto, unfolding(crate::specs::Effect::act_of_store))]
#[inline(always)]
fn store_act(at: u16, byte: u8) -> Act
    ensures value { result ≡ act_of_store at byte }
    ensures at_ports { IsAtPorts result }
{
    if at >= 0xF4 && at <= 0xF7 {
        Act::Write((at - 0xF4) as u8, byte)
    } else if at == 0xF1 && cleared(byte) > 0 {
        Act::Clear(cleared(byte))
    } else {
        Act::Quiet
    }
}

/// What the next access does at the ports.
#[inline(always)]
fn access_act(spc: &Spc) -> Act
    ensures value { (s : SpcState) → Stands spc.now s → result ≡ act_of (next_of s) }
    ensures at_ports { IsAtPorts result }
{
    match spc.next() {
        SpcAccess::Fetch(at) => load_act(at),
        SpcAccess::Read(at) => load_act(at),
        SpcAccess::Write(at, byte) => store_act(at, byte),
        SpcAccess::Inner => Act::Quiet,
    }
}

/// What the next step does at the ports.
#[tactic(auto, unfolding(crate::specs::Sound::sound_act))]
#[inline(always)]
pub fn next_act(spc: &Spc, hardware: &Hardware, clock: &CycleClock) -> Act
    ensures value { (s : SpcState) → Stands spc.now s
        → result ≡ sound_act (record { processor = s; hardware = hardware.now; clock = clock.now }) }
    ensures at_ports { IsAtPorts result }
{
    let _hardware = hardware;
    if clock.is_due() {
        Act::Clear(15)
    } else {
        access_act(spc)
    }
}

/// Makes an access of any kind.
#[inline(always)]
fn other_access(spc: &mut Spc, hardware: &mut Hardware, got: u8)
    ensures processor { (s : SpcState) → Stands spc.old s → Stands spc.new (moved_on s (given hardware.old (next_of s) got)) }
    ensures hardware { (s : SpcState) → Stands spc.old s → hardware.new ≡ effect hardware.old (next_of s) }
{
    match spc.next() {
        SpcAccess::Fetch(at) | SpcAccess::Read(at) => {
            let byte = hardware.take(at, got);
            spc.took(byte);
        }
        SpcAccess::Write(at, byte) => {
            hardware.put(at, byte);
            spc.wrote();
        }
        SpcAccess::Inner => spc.idle(),
    }
}

/// Makes the processor's next access. Most that are not made among others are of a port, by the commonest modes.
#[inline(always)]
fn access(spc: &mut Spc, hardware: &mut Hardware, got: u8)
    ensures processor { (s : SpcState) → Stands spc.old s → Stands spc.new (moved_on s (given hardware.old (next_of s) got)) }
    ensures hardware { (s : SpcState) → Stands spc.old s → hardware.new ≡ effect hardware.old (next_of s) }
{
    match spc.place() {
        Place::Load => {
            let byte = hardware.take(spc.base(), got);
            spc.took_data(byte);
        }
        Place::WriteLast => {
            hardware.put(spc.base(), spc.last_byte());
            spc.wrote_last();
        }
        _ => other_access(spc, hardware, got),
    }
}

/// Whether an address is one of the registers F0 to FF.
#[inline(always)]
pub fn is_register(at: u16) -> bool
    ensures { MatchBool result (at / 16 ≡ 15) (at / 16 ≢ 15) }
{
    at / 16 == 15
}

/// Makes the processor's next access if it is an internal cycle or not at a register F0 to FF, and returns whether it
/// did. Otherwise changes nothing.
#[tactic(auto, unfolding(crate::specs::Effect::act_of_load, crate::specs::Effect::after_load, crate::specs::Effect::act_of_store, crate::specs::Effect::stored))]
#[inline(always)]
pub fn try_plain(spc: &mut Spc, hardware: &mut Hardware) -> bool
    ensures quiet { IsTrue result → (s : SpcState) → Stands spc.old s → act_of (next_of s) ≡ Quiet }
    ensures processor { IsTrue result → (s : SpcState) → Stands spc.old s → Stands spc.new (moved_on s (given hardware.old (next_of s) 0)) }
    ensures hardware { IsTrue result → (s : SpcState) → Stands spc.old s → hardware.new ≡ effect hardware.old (next_of s) }
    ensures timer { hardware.new.timer2 ≡ hardware.old.timer2 }
    ensures spc_stays { result ≡ false → spc.new ≡ spc.old }
    ensures hardware_stays { result ≡ false → hardware.new ≡ hardware.old }
{
    match spc.next() {
        SpcAccess::Fetch(at) | SpcAccess::Read(at) => {
            if is_register(at) {
                return false;
            }
            let byte = hardware.load_memory(at);
            spc.took(byte);
            true
        }
        SpcAccess::Write(at, byte) => {
            if is_register(at) {
                return false;
            }
            hardware.store_memory(at, byte);
            spc.wrote();
            true
        }
        SpcAccess::Inner => {
            spc.idle();
            true
        }
    }
}

/// A processor after a reset, whose vector is `pc`.
pub fn fresh(pc: u16) -> Spc
    ensures stands { Stands result (at_reset pc) }
    ensures runs { IsRunning result }
{
    Spc::new(pc)
}

/// Resets the processor and the hardware.
#[inline(never)]
fn restart(spc: &mut Spc, hardware: &mut Hardware)
    ensures processor { Stands spc.new (at_reset (vector hardware.old)) }
    ensures hardware { hardware.new ≡ reset_hardware hardware.old }
{
    *spc = Spc::new(hardware.entry());
    hardware.reset();
}

/// Takes the next step except its end: makes a reset or an access.
#[tactic(auto, unfolding(crate::specs::Sound::processor_after, crate::specs::Sound::hardware_before_end))]
#[inline(always)]
pub fn begin(spc: &mut Spc, hardware: &mut Hardware, clock: &CycleClock, got: u8)
    ensures processor { (s : SpcState) → Stands spc.old s
        → Stands spc.new (processor_after (record { processor = s; hardware = hardware.old; clock = clock.now }) got) }
    ensures hardware { (s : SpcState) → Stands spc.old s
        → hardware.new ≡ hardware_before_end (record { processor = s; hardware = hardware.old; clock = clock.now }) }
    ensures runs { IsRunning spc.old → IsRunning spc.new }
{
    if clock.is_due() {
        restart(spc, hardware);
    } else {
        access(spc, hardware, got);
    }
}

/// Ends every 16th step: ticks the timers, and at every second of these makes a sample, whose bytes are then pending.
#[tactic(auto, unfolding(crate::specs::Effect::passed, crate::specs::Effect::emitted))]
#[inline(never)]
fn finish_tick(hardware: &mut Hardware, cycle: u64, waiting: &mut HeapCircularBuffer<u8>)
    requires cycle { cycle ≤ 2 ^ 46 }
    requires tick { (cycle + 1) % 16 ≡ 0 }
    requires room { length waiting.old.items + 4 ≤ waiting.old.capacity }
    ensures hardware { hardware.new ≡ passed cycle hardware.old }
    ensures waiting { waiting.new.items ≡ waiting.old.items ++ emitted cycle hardware.old }
    ensures capacity { waiting.new.capacity ≡ waiting.old.capacity }
    ensures few { length waiting.new.items ≤ length waiting.old.items + 4 }
{
    hardware.tick(cycle);
    if cycle % 32 == 31 {
        let bytes = hardware.sample(cycle / 32);
        waiting.fill_from_slice(&bytes);
    }
}

/// Ends a step: ticks the timers, and after the last of every 32 cycles makes a sample, whose bytes are then pending.
#[tactic(auto, using(crate::proofs::Ticks::passes_nothing, crate::proofs::Ticks::emits_nothing))]
#[inline(always)]
pub fn finish(hardware: &mut Hardware, cycle: u64, waiting: &mut HeapCircularBuffer<u8>)
    requires cycle { cycle ≤ 2 ^ 46 }
    requires room { length waiting.old.items + 4 ≤ waiting.old.capacity }
    ensures hardware { hardware.new ≡ passed cycle hardware.old }
    ensures waiting { waiting.new.items ≡ waiting.old.items ++ emitted cycle hardware.old }
    ensures capacity { waiting.new.capacity ≡ waiting.old.capacity }
    ensures few { length waiting.new.items ≤ length waiting.old.items + 4 }
{
    if (cycle + 1) % 16 == 0 {
        finish_tick(hardware, cycle, waiting);
    }
}
