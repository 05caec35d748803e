// Accesses of an instruction one after another, each of which determines the next. Each function makes as many as are
// left and are not at a register F0 to FF. It returns `None` if it did not reach its end.
ghost use Rattle.std.specs.Prelude.{◌≡◌, ◌<◌, ◌+◌, None, IfSome, OnSome};
ghost use Rattle.spc_tables.specs.declared.access.SpcAccess.TheVariants.{Fetch, Read};
ghost use Rattle.spc_modes.specs.declared.place.Place.TheVariants.{Between, FirstByte, Load, ChangeRead, WriteCycle, BranchDistance, PullFirstCycle, CallCycle};
ghost use Rattle.snes_defs.specs.declared.ports.Act.TheVariants.{Quiet};
ghost use Rattle.spc_modes.specs.Addresses.{pulled, stack};
ghost use Rattle.audio_side.specs.Effect.{act_of_load, act_of_store, after_load, loaded, stored};
ghost use Rattle.audio_side.specs.Follows.{Follows, Gets};

use crate::hardware::Hardware;
use crate::step::{is_register, try_plain};
use spc700::{Place, Spc};

/// Takes one from the accesses left, if any is left.
#[inline(always)]
fn one_fewer(left: &mut u8) -> Option<()>
    ensures made { OnSome result (left.new + 1 ≡ left.old) }
    ensures stays { result ≡ None → left.new ≡ left.old }
{
    if *left == 0 {
        return None;
    }
    *left -= 1;
    Some(())
}

/// The byte at an address, if that is not a register and an access is left.
#[tactic(auto, unfolding(crate::specs::Effect::act_of_load, crate::specs::Effect::after_load))]
#[inline(always)]
fn byte_at(hardware: &Hardware, at: u16, left: &mut u8) -> Option<u8>
    ensures quiet { OnSome result (act_of_load at ≡ Quiet) }
    ensures still { OnSome result (after_load hardware.now at ≡ hardware.now) }
    ensures got { IfSome result (λ byte. loaded hardware.now at 0 ≡ byte) }
    ensures made { OnSome result (left.new + 1 ≡ left.old) }
    ensures stays { result ≡ None → left.new ≡ left.old }
{
    if is_register(at) {
        return None;
    }
    one_fewer(left)?;
    Some(hardware.load_memory(at))
}

/// The next byte of the program.
#[inline(always)]
fn program_byte(spc: &Spc, hardware: &Hardware, left: &mut u8) -> Option<u8>
    ensures gets { IfSome result (λ byte. Gets (Fetch spc.now.micro.here.pc) hardware.now byte) }
    ensures made { OnSome result (left.new + 1 ≡ left.old) }
    ensures stays { result ≡ None → left.new ≡ left.old }
{
    byte_at(hardware, spc.counter(), left)
}

/// The byte of the data.
#[inline(always)]
fn data_byte(spc: &Spc, hardware: &Hardware, left: &mut u8) -> Option<u8>
    ensures gets { IfSome result (λ byte. Gets (Read spc.now.micro.base) hardware.now byte) }
    ensures made { OnSome result (left.new + 1 ≡ left.old) }
    ensures stays { result ≡ None → left.new ≡ left.old }
{
    byte_at(hardware, spc.base(), left)
}

/// The byte that a pull reads.
#[inline(always)]
fn stack_byte(spc: &Spc, hardware: &Hardware, left: &mut u8) -> Option<u8>
    ensures gets { IfSome result (λ byte. Gets (Read (stack (pulled spc.now.micro.here))) hardware.now byte) }
    ensures made { OnSome result (left.new + 1 ≡ left.old) }
    ensures stays { result ≡ None → left.new ≡ left.old }
{
    byte_at(hardware, spc.pull_place(), left)
}

/// The opcode.
#[inline(always)]
fn opcode(spc: &mut Spc, hardware: &Hardware, left: &mut u8) -> Option<()>
    requires known { spc.old.micro.place ≡ Between }
    ensures follows { Follows spc.old spc.new hardware.now hardware.now left.old left.new }
    ensures made { OnSome result (left.new < left.old) }
{
    let byte = program_byte(spc, hardware, left)?;
    spc.took_opcode(byte);
    Some(())
}

/// The first byte after the opcode.
#[inline(always)]
fn first_byte(spc: &mut Spc, hardware: &Hardware, left: &mut u8) -> Option<()>
    requires known { spc.old.micro.place ≡ FirstByte }
    ensures { Follows spc.old spc.new hardware.now hardware.now left.old left.new }
{
    let byte = program_byte(spc, hardware, left)?;
    spc.took_first_byte(byte);
    Some(())
}

/// The high byte of the operand, if it has one.
#[inline(always)]
fn operand_high(spc: &mut Spc, hardware: &Hardware, left: &mut u8) -> Option<()>
    ensures { Follows spc.old spc.new hardware.now hardware.now left.old left.new }
{
    if let Place::OperandHigh = spc.place() {
        let byte = program_byte(spc, hardware, left)?;
        spc.took_operand_high(byte);
    }
    Some(())
}

/// The cycle before the data, if there is one.
#[inline(always)]
fn data_cycle(spc: &mut Spc, hardware: &Hardware, left: &mut u8) -> Option<()>
    ensures { Follows spc.old spc.new hardware.now hardware.now left.old left.new }
{
    if let Place::DataCycle = spc.place() {
        one_fewer(left)?;
        spc.passed_data_cycle();
    }
    Some(())
}

/// The read of data.
#[inline(always)]
fn load(spc: &mut Spc, hardware: &Hardware, left: &mut u8) -> Option<()>
    requires known { spc.old.micro.place ≡ Load }
    ensures { Follows spc.old spc.new hardware.now hardware.now left.old left.new }
{
    let byte = data_byte(spc, hardware, left)?;
    spc.took_data(byte);
    Some(())
}

/// The read of data that is to be changed.
#[inline(always)]
fn change_read(spc: &mut Spc, hardware: &Hardware, left: &mut u8) -> Option<()>
    requires known { spc.old.micro.place ≡ ChangeRead }
    ensures { Follows spc.old spc.new hardware.now hardware.now left.old left.new }
{
    let byte = data_byte(spc, hardware, left)?;
    spc.took_data_to_change(byte);
    Some(())
}

/// The cycle before the last write.
#[inline(always)]
fn write_cycle(spc: &mut Spc, hardware: &Hardware, left: &mut u8) -> Option<()>
    requires known { spc.old.micro.place ≡ WriteCycle }
    ensures { Follows spc.old spc.new hardware.now hardware.now left.old left.new }
{
    one_fewer(left)?;
    spc.passed_write_cycle();
    Some(())
}

/// Writes a byte at an address, if that is not a register and an access is left.
#[tactic(auto, unfolding(crate::specs::Effect::act_of_store, crate::specs::Effect::stored))]
#[inline(always)]
fn put_at(hardware: &mut Hardware, at: u16, byte: u8, left: &mut u8) -> Option<()>
    ensures quiet { OnSome result (act_of_store at byte ≡ Quiet) }
    ensures stored { OnSome result (hardware.new ≡ stored hardware.old at byte) }
    ensures timer { OnSome result (hardware.new.timer2 ≡ hardware.old.timer2) }
    ensures made { OnSome result (left.new + 1 ≡ left.old) }
    ensures hardware_stays { result ≡ None → hardware.new ≡ hardware.old }
    ensures left_stays { result ≡ None → left.new ≡ left.old }
{
    if is_register(at) {
        return None;
    }
    one_fewer(left)?;
    hardware.store_memory(at, byte);
    Some(())
}

/// The last write, if it is next.
#[inline(always)]
fn last_write(spc: &mut Spc, hardware: &mut Hardware, left: &mut u8) -> Option<()>
    ensures { Follows spc.old spc.new hardware.old hardware.new left.old left.new }
{
    if let Place::WriteLast = spc.place() {
        put_at(hardware, spc.base(), spc.last_byte(), left)?;
        spc.wrote_last();
    }
    Some(())
}

/// One of the last cycles, if it is next.
#[inline(always)]
fn cycle(spc: &mut Spc, hardware: &Hardware, left: &mut u8) -> Option<()>
    ensures { Follows spc.old spc.new hardware.now hardware.now left.old left.new }
{
    if let Place::Cycles = spc.place() {
        one_fewer(left)?;
        spc.passed_cycle();
    }
    Some(())
}

/// A branch's distance.
#[inline(always)]
fn distance(spc: &mut Spc, hardware: &Hardware, left: &mut u8, is_taken: bool) -> Option<()>
    requires known { spc.old.micro.place ≡ BranchDistance is_taken }
    ensures { Follows spc.old spc.new hardware.now hardware.now left.old left.new }
{
    let byte = program_byte(spc, hardware, left)?;
    spc.took_distance(is_taken, byte);
    Some(())
}

/// The two cycles of a branch that is taken.
#[inline(always)]
fn two_cycles(spc: &mut Spc, hardware: &Hardware, left: &mut u8) -> Option<()>
    ensures { Follows spc.old spc.new hardware.now hardware.now left.old left.new }
{
    cycle(spc, hardware, left)?;
    cycle(spc, hardware, left)
}

/// A branch from its distance on.
#[inline(always)]
fn branch(spc: &mut Spc, hardware: &Hardware, left: &mut u8, is_taken: bool) -> Option<()>
    requires known { spc.old.micro.place ≡ BranchDistance is_taken }
    ensures { Follows spc.old spc.new hardware.now hardware.now left.old left.new }
{
    distance(spc, hardware, left, is_taken)?;
    two_cycles(spc, hardware, left)
}

/// The write of data.
#[inline(always)]
fn store(spc: &mut Spc, hardware: &mut Hardware, left: &mut u8) -> Option<()>
    requires known { spc.old.micro.place ≡ WriteCycle }
    ensures { Follows spc.old spc.new hardware.old hardware.new left.old left.new }
{
    write_cycle(spc, hardware, left)?;
    last_write(spc, hardware, left)
}

/// The change of data.
#[inline(always)]
fn change(spc: &mut Spc, hardware: &mut Hardware, left: &mut u8) -> Option<()>
    requires known { spc.old.micro.place ≡ ChangeRead }
    ensures { Follows spc.old spc.new hardware.old hardware.new left.old left.new }
{
    change_read(spc, hardware, left)?;
    last_write(spc, hardware, left)
}

/// The first cycle before a pull.
#[inline(always)]
fn pull_first_cycle(spc: &mut Spc, hardware: &Hardware, left: &mut u8) -> Option<()>
    requires known { spc.old.micro.place ≡ PullFirstCycle }
    ensures { Follows spc.old spc.new hardware.now hardware.now left.old left.new }
{
    one_fewer(left)?;
    spc.passed_pull_first_cycle();
    Some(())
}

/// The second cycle before a pull.
#[inline(always)]
fn pull_cycle(spc: &mut Spc, hardware: &Hardware, left: &mut u8) -> Option<()>
    ensures { Follows spc.old spc.new hardware.now hardware.now left.old left.new }
{
    if let Place::PullCycle = spc.place() {
        one_fewer(left)?;
        spc.passed_pull_cycle();
    }
    Some(())
}

/// The low byte of the address to return to, if that is pulled.
#[inline(always)]
fn return_low(spc: &mut Spc, hardware: &Hardware, left: &mut u8) -> Option<()>
    ensures { Follows spc.old spc.new hardware.now hardware.now left.old left.new }
{
    if let Place::ReturnLow = spc.place() {
        let byte = stack_byte(spc, hardware, left)?;
        spc.took_return_low(byte);
    }
    Some(())
}

/// The high byte of the address to return to, if that is pulled.
#[inline(always)]
fn return_high(spc: &mut Spc, hardware: &Hardware, left: &mut u8) -> Option<()>
    ensures { Follows spc.old spc.new hardware.now hardware.now left.old left.new }
{
    if let Place::ReturnHigh = spc.place() {
        let byte = stack_byte(spc, hardware, left)?;
        spc.took_return_high(byte);
    }
    Some(())
}

/// A return, or a pull up to its last access.
#[inline(always)]
fn pull(spc: &mut Spc, hardware: &Hardware, left: &mut u8) -> Option<()>
    requires known { spc.old.micro.place ≡ PullFirstCycle }
    ensures { Follows spc.old spc.new hardware.now hardware.now left.old left.new }
{
    pull_first_cycle(spc, hardware, left)?;
    pull_cycle(spc, hardware, left)?;
    return_low(spc, hardware, left)?;
    return_high(spc, hardware, left)
}

/// The cycle before a call pushes.
#[inline(always)]
fn call_cycle(spc: &mut Spc, hardware: &Hardware, left: &mut u8) -> Option<()>
    requires known { spc.old.micro.place ≡ CallCycle }
    ensures { Follows spc.old spc.new hardware.now hardware.now left.old left.new }
{
    one_fewer(left)?;
    spc.passed_call_cycle();
    Some(())
}

/// The push of the program counter's high byte.
#[inline(always)]
fn push_high(spc: &mut Spc, hardware: &mut Hardware, left: &mut u8) -> Option<()>
    ensures { Follows spc.old spc.new hardware.old hardware.new left.old left.new }
{
    if let Place::PushHigh = spc.place() {
        let high = (spc.counter() / 256) as u8;
        put_at(hardware, spc.push_place(), high, left)?;
        spc.wrote_counter_high();
    }
    Some(())
}

/// The push of the program counter's low byte.
#[inline(always)]
fn push_low(spc: &mut Spc, hardware: &mut Hardware, left: &mut u8) -> Option<()>
    ensures { Follows spc.old spc.new hardware.old hardware.new left.old left.new }
{
    if let Place::PushLow = spc.place() {
        let low = (spc.counter() % 256) as u8;
        put_at(hardware, spc.push_place(), low, left)?;
        spc.wrote_counter_low();
    }
    Some(())
}

/// A call from the cycle before it pushes.
#[inline(always)]
fn call(spc: &mut Spc, hardware: &mut Hardware, left: &mut u8) -> Option<()>
    requires known { spc.old.micro.place ≡ CallCycle }
    ensures { Follows spc.old spc.new hardware.old hardware.new left.old left.new }
{
    call_cycle(spc, hardware, left)?;
    push_high(spc, hardware, left)?;
    push_low(spc, hardware, left)?;
    two_cycles(spc, hardware, left)
}

/// The data of the commonest modes, or the rest of a call.
#[inline(always)]
fn data(spc: &mut Spc, hardware: &mut Hardware, left: &mut u8) -> Option<()>
    ensures { Follows spc.old spc.new hardware.old hardware.new left.old left.new }
{
    match spc.place() {
        Place::Load => load(spc, hardware, left),
        Place::WriteCycle => store(spc, hardware, left),
        Place::ChangeRead => change(spc, hardware, left),
        Place::CallCycle => call(spc, hardware, left),
        _ => Some(()),
    }
}

/// An instruction with operands, after its opcode.
#[inline(always)]
fn with_operand(spc: &mut Spc, hardware: &mut Hardware, left: &mut u8) -> Option<()>
    requires known { spc.old.micro.place ≡ FirstByte }
    ensures { Follows spc.old spc.new hardware.old hardware.new left.old left.new }
{
    first_byte(spc, hardware, left)?;
    operand_high(spc, hardware, left)?;
    data_cycle(spc, hardware, left)?;
    data(spc, hardware, left)
}

/// All that comes after an opcode, of the commonest modes.
#[inline(always)]
fn after_opcode(spc: &mut Spc, hardware: &mut Hardware, left: &mut u8) -> Option<()>
    ensures { Follows spc.old spc.new hardware.old hardware.new left.old left.new }
{
    match spc.place() {
        Place::FirstByte => with_operand(spc, hardware, left),
        Place::BranchDistance(is_taken) => branch(spc, hardware, left, is_taken),
        Place::Cycles => cycle(spc, hardware, left),
        Place::PullFirstCycle => pull(spc, hardware, left),
        _ => Some(()),
    }
}

/// An instruction from its opcode on, or as much of it as may be made.
#[inline(always)]
fn instruction(spc: &mut Spc, hardware: &mut Hardware, left: &mut u8) -> Option<()>
    requires known { spc.old.micro.place ≡ Between }
    ensures follows { Follows spc.old spc.new hardware.old hardware.new left.old left.new }
    ensures made { OnSome result (left.new < left.old) }
{
    opcode(spc, hardware, left)?;
    after_opcode(spc, hardware, left)
}

/// An access of any kind.
#[inline(always)]
fn any_access(spc: &mut Spc, hardware: &mut Hardware, left: &mut u8) -> Option<()>
    requires any { 0 < left.old }
    ensures follows { Follows spc.old spc.new hardware.old hardware.new left.old left.new }
    ensures made { OnSome result (left.new < left.old) }
{
    if !try_plain(spc, hardware) {
        return None;
    }
    *left -= 1;
    Some(())
}

/// Makes an instruction, or what is left of it.
#[inline(always)]
fn make_some(spc: &mut Spc, hardware: &mut Hardware, left: &mut u8) -> Option<()>
    requires any { 0 < left.old }
    ensures follows { Follows spc.old spc.new hardware.old hardware.new left.old left.new }
    ensures made { OnSome result (left.new < left.old) }
{
    match spc.place() {
        Place::Between => instruction(spc, hardware, left),
        _ => any_access(spc, hardware, left),
    }
}

/// Makes accesses while any are left and the next one is not at a register F0 to FF. Its callers, one for each kind of
/// ports, share one copy, so that what follows an opcode is inlined into one place alone.
#[inline(never)]
pub fn make_all(spc: &mut Spc, hardware: &mut Hardware, left: &mut u8)
    ensures { Follows spc.old spc.new hardware.old hardware.new left.old left.new }
{
    'accesses: while *left > 0 {
        let Some(()) = make_some(spc, hardware, left) else {
            return;
        };
    }
}
