// Many steps of the console in one call, up to the next beam event: accesses to memory, internal cycles and writes of
// B-bus registers. An idle loop only reads, as one that waits for an interrupt does. It returns to the state that it
// started from, and so does a processor that waits. The whole iterations (*rounds*) that still fit are then skipped
// together.
ghost use Rattle.std.specs.Prelude.{◌≡◌, ℕ, ◌+◌, ◌-◌, ◌<◌, ◌≤◌, [], None, IsTrue, IfSome};
ghost use Rattle.cpu65816.specs.Instruction.{CpuState};
ghost use Rattle.cpu65816.specs.Stands.{Stands, access_of};
ghost use Rattle.beam.specs.Places.{clocks_left};
ghost use Rattle.console_steps.specs.ConsoleState.{ConsoleState};
ghost use Rattle.console_steps.specs.Stands.{IsAt};
ghost use Rattle.console_steps.specs.AtOnce.{gone_on, passed_in, IsMadeAtOnce};
ghost use Rattle.console_steps.specs.Plain.{IsWired, IsCalm, IsLook};
ghost use Rattle.console_steps.specs.PlainPlaces.{IsPlainAhead};
ghost use Rattle.console_machine.specs.Follows.{Follows};
ghost use Rattle.console_machine.specs.Runs.{HasRun, IsRounds};
ghost use Rattle.console_machine.specs.Rounds.{GoesOver, refresh_clocks};

use crate::patience::Patience;
use cart_map::Place as BusPlace;
use console_bus::Bus;
use console_steps::{is_calm, is_plain_ahead, is_wired, reach_plain_place, try_look, try_plain};
use cpu65816::Cpu;
use snes_defs::LINE_CLOCKS;
use whole_instructions::make_whole;

/// More accesses than a line has room for.
const MOST_ACCESSES: u16 = 256;

/// How many steps to the end of an instruction are made before the search for an idle loop.
const MOST_TO_END: u16 = 8;

/// The most steps that one iteration (*round*) of an idle loop may have.
const MOST_OF_ROUND: u16 = 32;

/// With fewer clocks than these to the next beam event, no idle loop is searched for.
const FEW_CLOCKS: u16 = 128;

/// How many places at most a round goes past.
const MOST_PLACES: u8 = 4;

/// The master clocks of the longest round that goes past a place: the next one is farther than these and a refresh.
const LONGEST_ROUND: u16 = 400;

/// Master clocks of a refresh of work RAM.
const REFRESH_CLOCKS: u16 = 40;

/// Makes one access, at any place in its instruction.
#[tactic(auto, using(crate::proofs::Follows::follows_same))]
#[inline(always)]
fn make_one(cpu: &mut Cpu, bus: &mut Bus) -> bool
    ensures { Follows cpu.old cpu.new bus.old bus.new }
{
    match try_plain(cpu, bus) {
        Some(_) => true,
        None => false,
    }
}

/// Makes whole instructions, and access by access what isn't made whole, as long as `try_plain` makes it: nothing else
/// happens in these clocks.
#[inline(never)]
pub(crate) fn make_all(cpu: &mut Cpu, bus: &mut Bus)
    ensures { Follows cpu.old cpu.new bus.old bus.new }
{
    'steps: for _ in 0..MOST_ACCESSES {
        make_whole(cpu, bus);
        if !make_one(cpu, bus) {
            return;
        }
    }
}

/// Makes one access that only reads, or an internal cycle.
#[inline(never)]
fn look_once(cpu: &mut Cpu, bus: &mut Bus) -> Option<u8>
    ensures made { IsWired cpu.old bus.old
        → IfSome result (λ clocks. IsMadeAtOnce cpu.old cpu.new bus.old bus.new (access_of cpu.old) clocks) }
    ensures looks { IfSome result (λ clocks. IsLook bus.old (access_of cpu.old)) }
    ensures within { IfSome result (λ clocks. clocks < clocks_left bus.old.beam) }
    ensures left { IfSome result (λ clocks. clocks_left bus.new.beam ≡ clocks_left bus.old.beam - clocks) }
    ensures calm { IsCalm bus.old → IsCalm bus.new }
    ensures bus_stays { result ≡ None → bus.new ≡ bus.old }
    ensures cpu_stays { result ≡ None → cpu.new ≡ cpu.old }
{
    try_look(cpu, bus)
}

/// Makes accesses that only read up to the end of an instruction, and returns how many clocks they last.
fn finish_instruction(cpu: &mut Cpu, bus: &mut Bus) -> u16
    ensures run { (w : ConsoleState) → IsAt cpu.old bus.old w → w.rest.beam.h < 1364 → HasRun cpu.new bus.new w result }
    ensures left { result + clocks_left bus.new.beam ≡ clocks_left bus.old.beam }
{
    if !is_calm(bus) {
        return 0;
    }
    if !is_wired(cpu, bus) {
        return 0;
    }
    let _left = bus.clocks_left();
    let mut gone: u16 = 0;
    'steps: for _ in 0..MOST_TO_END {
        if cpu.is_between() {
            return gone;
        }
        match look_once(cpu, bus) {
            Some(clocks) => gone += clocks as u16,
            None => return gone,
        }
    }
    gone
}

/// Returns the byte last on the data bus, which an address with nothing there gives.
#[inline(always)]
fn last_byte(bus: &mut Bus) -> u8
    ensures last { result ≡ bus.old.last }
    ensures stays { bus.new ≡ bus.old }
{
    bus.read_place(BusPlace::Open, 0)
}

/// Whether the processor does what another one does, and a byte is the last on the data bus.
#[inline(never)]
fn is_like_first(cpu: &Cpu, bus: &mut Bus, first: &Cpu, byte: u8) -> bool
    ensures processor { IsTrue result → (s : CpuState) → Stands cpu.now s → Stands first.now s }
    ensures last { IsTrue result → bus.new.last ≡ byte }
    ensures stays { bus.new ≡ bus.old }
{
    if !cpu.is_like(first) {
        return false;
    }
    last_byte(bus) == byte
}

/// Whether the processor does what another one does, and a byte is the last on the data bus. It returns false
/// immediately in the middle of an instruction.
#[inline(always)]
fn is_back(cpu: &Cpu, bus: &mut Bus, first: &Cpu, byte: u8) -> bool
    ensures processor { IsTrue result → (s : CpuState) → Stands cpu.now s → Stands first.now s }
    ensures last { IsTrue result → bus.new.last ≡ byte }
    ensures stays { bus.new ≡ bus.old }
{
    if !cpu.is_between() {
        return false;
    }
    is_like_first(cpu, bus, first, byte)
}

/// Returns the clocks of the rounds, of `round` clocks each, that end before the next beam event.
#[tactic(auto, using(crate::proofs::Looks::whole_rounds))]
#[inline(always)]
fn rounds_before(round: u16, left: u16) -> u16
    requires { 0 < left }
    ensures times { IsRounds round result }
    ensures within { result < left }
{
    if round == 0 {
        return 0;
    }
    (left - 1) / round * round
}

/// Advances the beam by the whole rounds, of the given clocks each, that end before the next beam event.
#[inline(always)]
fn go_rounds(bus: &mut Bus, round: u16) -> u16
    ensures times { IsRounds round result }
    ensures on { bus.new ≡ gone_on bus.old result }
    ensures nothing { passed_in bus.old result ≡ [] }
    ensures left { result + clocks_left bus.new.beam ≡ clocks_left bus.old.beam }
{
    let more = rounds_before(round, bus.clocks_left());
    bus.go_on(more);
    more
}

/// Returns the clocks of a refresh, or 0 if none is due.
#[inline(always)]
fn refresh_clocks(due: bool) -> u16
    ensures clocks { result ≡ refresh_clocks due }
    ensures few { result ≤ 40 }
{
    if due { REFRESH_CLOCKS } else { 0 }
}

/// Advances the beam by a known round that lasts to the next beam event or past it, and by a refresh due there.
/// Nothing happens at that event but a refresh or the next line. Returns how many clocks both last.
#[inline(always)]
fn go_over(bus: &mut Bus, round: u16) -> u16
    requires plain { IsPlainAhead bus.old.beam }
    requires enough { clocks_left bus.old.beam ≤ round }
    requires short { round ≤ 400 }
    ensures goes { GoesOver bus.old bus.new round result }
    ensures last { bus.new.last ≡ bus.old.last }
    ensures few { result ≤ round + 40 }
{
    let left = bus.clocks_left();
    let due = reach_plain_place(bus);
    let more = refresh_clocks(due);
    bus.go_on(round - left + more);
    round + more
}

/// Continues a known round past beam events at which nothing happens but a refresh or the next line. It runs whole
/// rounds, of which one lasts past each event, for a line's clocks at most, `before` included. Returns how many clocks
/// they last.
#[inline(always)]
fn go_beyond(bus: &mut Bus, round: u16, before: u16) -> u16
    requires few { before ≤ 1364 }
    ensures goes { GoesOver bus.old bus.new round result }
    ensures few { before + result ≤ 1364 }
{
    if round > LONGEST_ROUND {
        return 0;
    }
    let mut gone: u16 = 0;
    'places: for _ in 0..MOST_PLACES {
        if !is_plain_ahead(bus) {
            return gone;
        }
        if bus.clocks_left() > round {
            return gone;
        }
        if before + gone + round + REFRESH_CLOCKS > LINE_CLOCKS {
            return gone;
        }
        gone += go_over(bus, round);
        if before + gone + bus.clocks_left() > LINE_CLOCKS {
            return gone;
        }
        gone += go_rounds(bus, round);
    }
    gone
}

/// Makes accesses that only read. If they come back to the processor and the data-bus byte that they began with, skips
/// the rounds that fit before the next beam event. Then it continues with rounds past events at which little happens.
/// All last a line's clocks at most, `before` included. Returns how many clocks they last.
#[inline(always)]
fn make_rounds(cpu: &mut Cpu, bus: &mut Bus, patience: &mut Patience, before: u16) -> u16
    requires few { before + clocks_left bus.old.beam ≤ 1364 }
    ensures run { (w : ConsoleState) → IsAt cpu.old bus.old w → w.rest.beam.h < 1364 → HasRun cpu.new bus.new w result }
    ensures few { before + result ≤ 1364 }
{
    if !is_calm(bus) {
        return 0;
    }
    if !is_wired(cpu, bus) {
        return 0;
    }
    let _left = bus.clocks_left();
    patience.begins();
    let first = *cpu;
    let byte = last_byte(bus);
    let mut gone: u16 = 0;
    'looks: for _ in 0..MOST_OF_ROUND {
        match look_once(cpu, bus) {
            Some(clocks) => gone += clocks as u16,
            None => return gone,
        }
        if is_back(cpu, bus, &first, byte) {
            patience.found();
            let more = go_rounds(bus, gone);
            let all = gone + more;
            return all + go_beyond(bus, gone, before + all);
        }
    }
    gone
}

/// Searches for an idle loop if the next beam event is far enough and it is time for it.
pub(crate) fn look_for_rounds(cpu: &mut Cpu, bus: &mut Bus, patience: &mut Patience) -> u16
    ensures run { (w : ConsoleState) → IsAt cpu.old bus.old w → w.rest.beam.h < 1364 → HasRun cpu.new bus.new w result }
    ensures few { result ≤ 1364 }
{
    let left = bus.clocks_left();
    if left < FEW_CLOCKS {
        return 0;
    }
    if !patience.asks() {
        return 0;
    }
    let first = finish_instruction(cpu, bus);
    let rounds = make_rounds(cpu, bus, patience, first);
    first + rounds
}
