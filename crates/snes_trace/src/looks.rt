//! The next step of each machine, read from the machine before it takes the step.

ghost use Rattle.std.specs.Prelude.{◌≡◌, ◌+◌, ◌*◌, Some, None, true};
ghost use Rattle.cpu65816.specs.Instruction.{CpuState, next_of, registers_of};
ghost use Rattle.cpu65816.specs.Stands.{Stands};
ghost use Rattle.console_machine.specs.Dues.{due_from};
ghost use Rattle.snes_trace.specs.Tells.{Tells, TellsAccess, TellsMove, TellsSpcAccess, HasRegs, is_fetch, is_transfer};

use crate::step::{Instruction, Kind, Step, Way};
use audio_side::AudioSide;
use cart_map::Place;
use console_bus::Bus;
use console_machine::ConsoleSide;
use cpu_tables::{Access, Regs};
use dma_hdma::{Dma, Move};
use side_law::Machine;
use snes_defs::{Act, Side};
use spc_tables::{SpcAccess, SpcRegs};

/// An address of the B bus: a transfer reads there the byte that was last on the data bus.
const OPEN: u32 = 0x2100;

/// Returns a step that uses no bus.
fn still(side: Side, stamp: u64, kind: Kind) -> Step
    ensures stamp { result.stamp ≡ stamp }
    ensures kind { result.kind ≡ kind }
    ensures address { result.address ≡ None }
    ensures instruction { result.instruction ≡ Instruction.Nothing }
{
    Step {
        side,
        stamp,
        kind,
        address: None,
        place: None,
        way: Way::Nowhere,
        byte: None,
        instruction: Instruction::Nothing,
        by: None,
    }
}

/// Returns a step of the console at an address.
fn at(stamp: u64, kind: Kind, address: u32, way: Way) -> Step
    ensures stamp { result.stamp ≡ stamp }
    ensures kind { result.kind ≡ kind }
    ensures address { result.address ≡ Some address }
    ensures way { result.way ≡ way }
    ensures instruction { result.instruction ≡ Instruction.Nothing }
{
    Step {
        side: Side::Console,
        stamp,
        kind,
        address: Some(address),
        place: None,
        way,
        byte: None,
        instruction: Instruction::Nothing,
        by: None,
    }
}

/// Returns the kind of a byte that is moved to the B bus: DMA if the channels without HDMA would move the same byte.
fn kind_to_b(dma: &Dma, due: Move) -> Kind
    ensures { is_transfer result ≡ true }
{
    if dma.next() == Some(due) {
        Kind::Dma
    } else {
        Kind::Hdma
    }
}

/// Returns the step that moves a byte of a transfer.
fn look_at_move(dma: &Dma, due: Move, stamp: u64) -> Step
    ensures tells { TellsMove result due }
    ensures stamp { result.stamp ≡ stamp }
    ensures instruction { result.instruction ≡ Instruction.Nothing }
{
    match due {
        Move::Load { from } => at(stamp, Kind::Hdma, from, Way::Table),
        Move::ToB { from, port } => at(stamp, kind_to_b(dma, due), from, Way::To(port)),
        Move::ToA { port, to } => at(stamp, Kind::Dma, to, Way::From(port)),
    }
}

/// Returns the address of the current instruction of the 65C816.
fn opcode_address(regs: &Regs) -> u32
    ensures { result ≡ regs.now.pc + 65536 * regs.now.pbr }
{
    u32::from(regs.pc) + 65_536 * u32::from(regs.pbr)
}

/// Returns a fetch of the 65C816: of an opcode, if it is at the start of the current instruction.
fn look_at_fetch(regs: Regs, address: u32, stamp: u64) -> Step
    ensures fetch { is_fetch result.kind ≡ true }
    ensures address { result.address ≡ Some address }
    ensures regs { HasRegs result.instruction regs }
    ensures stamp { result.stamp ≡ stamp }
{
    let mut step = at(stamp, Kind::Fetch, address, Way::Nowhere);
    if address == opcode_address(&regs) {
        step.kind = Kind::Opcode;
        step.instruction = Instruction::Console(regs, [0; 4]);
    }
    step
}

/// Returns the next access of the 65C816.
fn look_at_access(console: &ConsoleSide, stamp: u64) -> Step
    ensures tells { (s : CpuState) → Stands console.now.cpu s → TellsAccess result (next_of s) }
    ensures regs { (s : CpuState) → Stands console.now.cpu s → HasRegs result.instruction (registers_of s) }
    ensures stamp { result.stamp ≡ stamp }
{
    let regs = console.processor().regs();
    match console.processor().next() {
        Access::Fetch(address) => look_at_fetch(regs, address, stamp),
        Access::Read(address) => {
            let mut step = at(stamp, Kind::Read, address, Way::Nowhere);
            step.by = Some(opcode_address(&regs));
            step
        }
        Access::Write(address, byte) => {
            let mut step = at(stamp, Kind::Write, address, Way::Nowhere);
            step.byte = Some(byte);
            step.by = Some(opcode_address(&regs));
            step
        }
        Access::Inner => still(Side::Console, stamp, Kind::Internal),
    }
}

/// Returns the console's next step, with its kind and address. Unless it is a write, its byte is known only afterwards.
pub fn look_at_console(console: &ConsoleSide, dma: &Dma) -> Step
    ensures tells { (s : CpuState) → Stands console.now.cpu s → Tells result (due_from s console.now.rest) }
    ensures regs { (s : CpuState) → Stands console.now.cpu s → HasRegs result.instruction (registers_of s) }
    ensures stamp { result.stamp ≡ console.now.stamp }
{
    let stamp = console.stamp();
    let bus = console.bus();
    if bus.resets() {
        return still(Side::Console, stamp, Kind::Reset);
    }
    if bus.refreshes() {
        return still(Side::Console, stamp, Kind::Refresh);
    }
    match bus.transfer() {
        Some(due) => look_at_move(dma, due, stamp),
        None => look_at_access(console, stamp),
    }
}

/// Returns the opcode and the three bytes after it in memory.
fn behind(bus: &Bus, regs: &Regs, opcode: u8) -> [u8; 4] {
    let bank = 65_536 * u32::from(regs.pbr);
    [
        opcode,
        bus.take(bank + u32::from(regs.pc.wrapping_add(1))),
        bus.take(bank + u32::from(regs.pc.wrapping_add(2))),
        bus.take(bank + u32::from(regs.pc.wrapping_add(3))),
    ]
}

/// Completes a step of the console that was taken, with the byte that went over the bus.
pub fn complete(console: &ConsoleSide, step: &mut Step) {
    let bus = console.bus();
    if step.address.is_some() {
        step.byte = Some(bus.take(OPEN));
    }
    if let Instruction::Console(regs, _) = step.instruction {
        step.instruction = Instruction::Console(regs, behind(bus, &regs, bus.take(OPEN)));
    }
}

/// Updates the channels by what a step of the console did to DMA.
pub fn tell_dma(dma: &mut Dma, step: &Step) {
    let byte = step.byte.unwrap_or(0);
    match (step.kind, step.place) {
        (Kind::Reset, _) => *dma = Dma::new(),
        (Kind::Dma, _) => {
            if dma.next().is_some() {
                dma.done(byte);
            }
        }
        (Kind::Write, Some(Place::Cpu(0x420B))) => dma.start(byte),
        (Kind::Write, Some(Place::Cpu(register))) => {
            if 0x4300 <= register && register <= 0x437F {
                dma.write(register, byte);
            }
        }
        _ => {}
    }
}

/// Whether the sound side's next step is a reset: it clears all ports, and no write to F1 is due.
fn sound_resets(sound: &AudioSide, access: SpcAccess) -> bool {
    let writes_control = match access {
        SpcAccess::Write(0xF1, _) => true,
        _ => false,
    };
    sound.act() == Act::Clear(15) && !writes_control
}

/// Returns the instruction of the SPC700 that an opcode begins.
fn sound_instruction(sound: &AudioSide, regs: SpcRegs, opcode: u8) -> Instruction {
    let first = sound.byte_at(regs.pc.wrapping_add(1), 0);
    let second = sound.byte_at(regs.pc.wrapping_add(2), 0);
    Instruction::Sound(regs, [opcode, first, second])
}

/// Returns a step of the sound side at an address.
fn at_sound(stamp: u64, kind: Kind, address: u16, byte: u8) -> Step
    ensures stamp { result.stamp ≡ stamp }
    ensures kind { result.kind ≡ kind }
    ensures address { result.address ≡ Some address }
    ensures byte { result.byte ≡ Some byte }
{
    Step {
        side: Side::Sound,
        stamp,
        kind,
        address: Some(u32::from(address)),
        place: None,
        way: Way::Nowhere,
        byte: Some(byte),
        instruction: Instruction::Nothing,
        by: None,
    }
}

/// Returns a fetch of the SPC700: of an opcode, if an instruction begins.
fn look_at_spc_fetch(sound: &AudioSide, address: u16, byte: u8) -> Step
    ensures fetch { is_fetch result.kind ≡ true }
    ensures address { result.address ≡ Some address }
    ensures byte { result.byte ≡ Some byte }
{
    let mut step = at_sound(sound.stamp(), Kind::Fetch, address, byte);
    if let Some(regs) = sound.processor().begins() {
        step.kind = Kind::Opcode;
        step.instruction = sound_instruction(sound, regs, byte);
    }
    step
}

/// Returns a read or a write of the SPC700.
fn look_at_spc_data(sound: &AudioSide, kind: Kind, address: u16, byte: u8) -> Step
    ensures kind { result.kind ≡ kind }
    ensures address { result.address ≡ Some address }
    ensures byte { result.byte ≡ Some byte }
{
    let mut step = at_sound(sound.stamp(), kind, address, byte);
    step.by = Some(u32::from(sound.processor().regs().pc));
    step
}

/// Returns an access of the SPC700, if an incoming port has the byte `got`.
fn look_at_spc(sound: &AudioSide, access: SpcAccess, got: u8) -> Step
    ensures { TellsSpcAccess result sound.now.hardware access got }
{
    match access {
        SpcAccess::Fetch(address) => {
            let byte = sound.byte_at(address, got);
            look_at_spc_fetch(sound, address, byte)
        }
        SpcAccess::Read(address) => {
            let byte = sound.byte_at(address, got);
            look_at_spc_data(sound, Kind::Read, address, byte)
        }
        SpcAccess::Write(address, byte) => look_at_spc_data(sound, Kind::Write, address, byte),
        SpcAccess::Inner => still(Side::Sound, sound.stamp(), Kind::Internal),
    }
}

/// Returns the sound side's next step, given the bytes of its incoming ports.
pub fn look_at_sound(sound: &AudioSide, incoming: [u8; 4]) -> Step {
    let access = sound.processor().next();
    if sound_resets(sound, access) {
        return still(Side::Sound, sound.stamp(), Kind::Reset);
    }
    let got = match sound.act() {
        Act::Read(port) => incoming[port as usize % 4],
        _ => 0,
    };
    look_at_spc(sound, access, got)
}
