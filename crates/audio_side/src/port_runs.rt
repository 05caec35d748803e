// Many cycles in one call, with the ports and the other registers F0 to FF among their accesses.
ghost use Rattle.std.specs.Prelude.{◌≡◌, ◌≢◌, ◌+◌, ◌-◌, ◌*◌, ◌/◌, ◌^◌, ◌<◌, ◌≤◌, ℕ, List, IfSome, None, IsTrue, false};
ghost use Rattle.snes_defs.specs.declared.ports.Side.TheVariants.{Sound};
ghost use Rattle.clock_ratio.specs.Stamp.{least_of, rate_of};
ghost use Rattle.side_law.specs.Gone.{Leads, IsRefused};
ghost use Rattle.spc_tables.specs.declared.access.SpcAccess.TheVariants as Access;
ghost use Rattle.spc700.specs.Instruction.{SpcState};
ghost use Rattle.spc700.specs.Stands.{Stands};
ghost use Rattle.audio_side.specs.Clock.{stamp_now};
ghost use Rattle.audio_side.specs.Effect.{act_of_load, act_of_store, after_load, loaded, stored};
ghost use Rattle.audio_side.specs.HardwareState.{HardwareState};
ghost use Rattle.audio_side.specs.PortRuns.{Makes, MakesNext, RefusesNext, PortRun, IsHeld};
ghost use Rattle.audio_side.specs.Runs.{AreFree, later};
ghost use Rattle.audio_side.specs.Sound.{IsRunning};

use crate::clock::CycleClock;
use crate::hardware::Hardware;
use crate::instructions::make_all;
use crate::step::is_register;
use side_law::Ports;
use snes_defs::Act;
use spc700::{Place, Spc, SpcAccess};

/// What came of an access over the ports.
#[derive(Clone, Copy)]
pub enum Found {
    /// It was made.
    Made,
    /// It was left alone, since it may switch a timer on or off.
    Left,
    /// Its call was refused.
    Refused,
}

/// The port of an address, if it is one of F4 to F7 (CPUIO0 to CPUIO3).
#[tactic(auto, unfolding(crate::specs::Effect::act_of_load, crate::specs::Effect::act_of_store, crate::specs::Effect::after_load, crate::specs::Effect::loaded, crate::specs::Effect::register_shown, crate::specs::Effect::stored, crate::specs::Effect::register_stored))]
#[inline(always)]
fn port_of(address: u16) -> Option<u8>
    ensures small { IfSome result (λ port. port < 4) }
    ensures other { result ≡ None → act_of_load address ≡ Act.Quiet }
    ensures read { IfSome result (λ port. act_of_load address ≡ Act.Read port) }
    ensures shows { IfSome result (λ port. (b : HardwareState) (got : ℕ) → loaded b address got ≡ got) }
    ensures read_stays { IfSome result (λ port. (b : HardwareState) → after_load b address ≡ b) }
    ensures write { IfSome result (λ port. (byte : ℕ) → byte < 256 → act_of_store address byte ≡ Act.Write port byte) }
    ensures write_stays { IfSome result (λ port. (b : HardwareState) (byte : ℕ) → stored b address byte ≡ b) }
{
    if address >= 0xF4 && address <= 0xF7 {
        return Some((address - 0xF4) as u8);
    }
    None
}

/// The byte that a fetch or a read of a register other than a port gets.
#[tactic(auto, unfolding(crate::specs::Effect::after_load))]
#[inline(never)]
fn register_byte(hardware: &mut Hardware, address: u16) -> u8
    ensures byte { result ≡ loaded hardware.old address 0 }
    ensures hardware { hardware.new ≡ after_load hardware.old address }
    ensures on { hardware.new.timer2.on ≡ hardware.old.timer2.on }
{
    let byte = hardware.load(address, 0);
    hardware.finish_load(address);
    byte
}

/// The byte that a fetch or a read at no register gets.
#[tactic(auto, unfolding(crate::specs::Effect::act_of_load, crate::specs::Effect::after_load))]
#[inline(always)]
fn memory_byte(hardware: &Hardware, address: u16) -> u8
    requires { address / 16 ≢ 15 }
    ensures byte { result ≡ loaded hardware.now address 0 }
    ensures quiet { act_of_load address ≡ Act.Quiet }
    ensures stays { after_load hardware.now address ≡ hardware.now }
{
    hardware.load_memory(address)
}

/// The byte that a fetch or a read gets.
#[inline(always)]
fn byte_at<P: Ports>(hardware: &mut Hardware, address: u16, at: u64, ports: &mut P) -> Option<u8>
    requires in_order { P.clock ports.old ≤ at }
    requires in_time { at < (P.times ports.old).before }
    ensures made { IfSome result (λ byte. (p : P.State) → P.stands ports.old p
        → Makes P.calls at (Access.Read address) hardware.old hardware.new byte (P.stands ports.new) p) }
    ensures refused { result ≡ None
        → Leads (P.stands ports.old) (P.stands ports.new) (IsRefused P.calls at (act_of_load address)) }
    ensures stays { result ≡ None → hardware.new ≡ hardware.old }
    ensures in_order { P.clock ports.new ≤ at + (P.times ports.old).rise }
    ensures waits { result ≡ None → P.clock ports.new ≤ at }
    ensures times { P.times ports.new ≡ P.times ports.old }
{
    if is_register(address) {
        if let Some(port) = port_of(address) {
            let byte = ports.call(at, Act::Read(port))?;
            return Some(byte);
        }
        return Some(register_byte(hardware, address));
    }
    Some(memory_byte(hardware, address))
}

/// Writes at a register other than a port and F1, and returns whether it did.
#[tactic(auto, unfolding(crate::specs::Effect::act_of_load, crate::specs::Effect::act_of_store, crate::specs::Effect::stored, crate::specs::Effect::register_stored, crate::specs::Effect::dsp_written))]
#[inline(never)]
fn store_register(hardware: &mut Hardware, address: u16, byte: u8) -> bool
    requires other { act_of_load address ≡ Act.Quiet }
    ensures quiet { IsTrue result → act_of_store address byte ≡ Act.Quiet }
    ensures hardware { IsTrue result → hardware.new ≡ stored hardware.old address byte }
    ensures on { IsTrue result → hardware.new.timer2.on ≡ hardware.old.timer2.on }
    ensures stays { result ≡ false → hardware.new ≡ hardware.old }
{
    if address == 0xF1 {
        return false;
    }
    hardware.store(address, byte);
    true
}

/// Writes at no register.
#[tactic(auto, unfolding(crate::specs::Effect::act_of_store, crate::specs::Effect::stored))]
#[inline(always)]
fn store_memory(hardware: &mut Hardware, address: u16, byte: u8)
    requires { address / 16 ≢ 15 }
    ensures quiet { act_of_store address byte ≡ Act.Quiet }
    ensures hardware { hardware.new ≡ stored hardware.old address byte }
    ensures on { hardware.new.timer2.on ≡ hardware.old.timer2.on }
{
    hardware.store_memory(address, byte);
}

/// Writes a byte.
#[inline(always)]
fn store_at<P: Ports>(
    hardware: &mut Hardware,
    address: u16,
    byte: u8,
    at: u64,
    ports: &mut P,
) -> Found
    requires in_order { P.clock ports.old ≤ at }
    requires in_time { at < (P.times ports.old).before }
    ensures made { result ≡ Found.Made → (p : P.State) → P.stands ports.old p
        → Makes P.calls at (Access.Write address byte) hardware.old hardware.new 0 (P.stands ports.new) p }
    ensures refused { result ≡ Found.Refused
        → Leads (P.stands ports.old) (P.stands ports.new) (IsRefused P.calls at (act_of_store address byte)) }
    ensures left { result ≡ Found.Left → ports.new ≡ ports.old }
    ensures stays { result ≢ Found.Made → hardware.new ≡ hardware.old }
    ensures in_order { P.clock ports.new ≤ at + (P.times ports.old).rise }
    ensures waits { result ≢ Found.Made → P.clock ports.new ≤ at }
    ensures times { P.times ports.new ≡ P.times ports.old }
{
    if !is_register(address) {
        store_memory(hardware, address, byte);
        return Found::Made;
    }
    if let Some(port) = port_of(address) {
        return match ports.call(at, Act::Write(port, byte)) {
            Some(_) => Found::Made,
            None => Found::Refused,
        };
    }
    if store_register(hardware, address, byte) {
        Found::Made
    } else {
        Found::Left
    }
}

/// Makes an access of any kind.
#[inline(always)]
fn other_over<P: Ports>(spc: &mut Spc, hardware: &mut Hardware, at: u64, ports: &mut P) -> Found
    requires in_order { P.clock ports.old ≤ at }
    requires in_time { at < (P.times ports.old).before }
    ensures made { result ≡ Found.Made → MakesNext P.calls at spc.old spc.new
        hardware.old hardware.new (P.stands ports.old) (P.stands ports.new) }
    ensures refused { result ≡ Found.Refused → RefusesNext P.calls at spc.old
        (P.stands ports.old) (P.stands ports.new) }
    ensures left { result ≡ Found.Left → (spc.new ≡ spc.old) × (hardware.new ≡ hardware.old) × (ports.new ≡ ports.old) }
    ensures stays { result ≡ Found.Refused → (spc.new ≡ spc.old) × (hardware.new ≡ hardware.old) }
    ensures runs { IsRunning spc.old → IsRunning spc.new }
    ensures in_order { P.clock ports.new ≤ at + (P.times ports.old).rise }
    ensures waits { result ≢ Found.Made → P.clock ports.new ≤ at }
    ensures times { P.times ports.new ≡ P.times ports.old }
{
    match spc.next() {
        SpcAccess::Fetch(address) | SpcAccess::Read(address) => {
            let Some(byte) = byte_at(hardware, address, at, ports) else {
                return Found::Refused;
            };
            spc.took(byte);
            Found::Made
        }
        SpcAccess::Write(address, byte) => {
            let found = store_at(hardware, address, byte, at, ports);
            if let Found::Made = found {
                spc.wrote();
            }
            found
        }
        SpcAccess::Inner => {
            spc.idle();
            Found::Made
        }
    }
}

/// Makes the processor's next access at a stamp, with its call made by `ports`. Data that is read and the last write
/// are the commonest.
#[inline(always)]
fn make_any<P: Ports>(spc: &mut Spc, hardware: &mut Hardware, at: u64, ports: &mut P) -> Found
    requires in_order { P.clock ports.old ≤ at }
    requires in_time { at < (P.times ports.old).before }
    ensures made { result ≡ Found.Made → MakesNext P.calls at spc.old spc.new
        hardware.old hardware.new (P.stands ports.old) (P.stands ports.new) }
    ensures refused { result ≡ Found.Refused → RefusesNext P.calls at spc.old
        (P.stands ports.old) (P.stands ports.new) }
    ensures left { result ≡ Found.Left → (spc.new ≡ spc.old) × (hardware.new ≡ hardware.old) × (ports.new ≡ ports.old) }
    ensures stays { result ≡ Found.Refused → (spc.new ≡ spc.old) × (hardware.new ≡ hardware.old) }
    ensures runs { IsRunning spc.old → IsRunning spc.new }
    ensures in_order { P.clock ports.new ≤ at + (P.times ports.old).rise }
    ensures waits { result ≢ Found.Made → P.clock ports.new ≤ at }
    ensures times { P.times ports.new ≡ P.times ports.old }
{
    match spc.place() {
        Place::Load => {
            let Some(byte) = byte_at(hardware, spc.base(), at, ports) else {
                return Found::Refused;
            };
            spc.took_data(byte);
            Found::Made
        }
        Place::WriteLast => {
            let found = store_at(hardware, spc.base(), spc.last_byte(), at, ports);
            if let Found::Made = found {
                spc.wrote_last();
            }
            found
        }
        _ => other_over(spc, hardware, at, ports),
    }
}

/// Makes the processor's accesses one after another in the cycles from a clock's, at most `left`, and counts them off.
/// Their calls are made by `ports`. Returns whether the next call was refused. Otherwise it stops before an access that
/// may switch a timer on or off.
#[inline(always)]
pub fn run_accesses<P: Ports>(
    spc: &mut Spc,
    hardware: &mut Hardware,
    clock: &CycleClock,
    ports: &mut P,
    left: &mut u8,
) -> bool
    requires early { stamp_now clock.now + rate_of clock.now.region Sound * left.old ≤ 2 ^ 62 }
    requires in_order { P.clock ports.old ≤ stamp_now clock.now }
    requires in_time { stamp_now clock.now + rate_of clock.now.region Sound * left.old ≤ (P.times ports.old).before }
    requires apart { (P.times ports.old).rise ≤ least_of clock.now.region }
    ensures fewer { left.new ≤ left.old }
    ensures made { result ≡ false → (until : ℕ) (waits : List ℕ) (s : SpcState) (p : P.State)
        → AreFree hardware.old.timer2.on until left.old clock.now
        → Stands spc.old s → P.stands ports.old p
        → PortRun P.calls until spc.new hardware.new clock.now (left.old - left.new)
        (λ to. P.stands ports.new) waits s hardware.old p }
    ensures refused { IsTrue result → (until : ℕ) (waits : List ℕ) (s : SpcState) (p : P.State)
        → AreFree hardware.old.timer2.on until left.old clock.now
        → Stands spc.old s → P.stands ports.old p
        → PortRun P.calls until spc.new hardware.new clock.now (left.old - left.new)
        (IsHeld P.calls clock.now (left.old - left.new) (P.stands ports.new)) waits s hardware.old p }
    ensures some_left { IsTrue result → 0 < left.new }
    ensures in_order { P.clock ports.new ≤ stamp_now (later (left.old - left.new) clock.now) }
    ensures times { P.times ports.new ≡ P.times ports.old }
    ensures runs { IsRunning spc.old → IsRunning spc.new }
{
    if spc.is_halted() {
        *left = 0;
        return false;
    }
    let most = *left;
    'accesses: while *left > 0 {
        make_all(spc, hardware, left);
        if *left == 0 {
            return false;
        }
        match make_any(spc, hardware, clock.stamp_after(most - *left), ports) {
            Found::Made => *left -= 1,
            Found::Left => return false,
            Found::Refused => return true,
        }
    }
    false
}
