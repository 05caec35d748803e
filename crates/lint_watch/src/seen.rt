//! The next step of the console side, read from the machine before it takes the step.

use cart_map::Place;
use console_machine::ConsoleSide;
use cpu_tables::{Access, Regs};
use dma_hdma::{Dma, Move};
use side_law::Machine;

/// An address of the B bus: a transfer reads there the byte that was last on the data bus.
const LAST_BYTE: u32 = 0x2100;

/// What a step does.
#[derive(Clone, Copy)]
pub enum Kind {
    /// The processor fetches an opcode.
    Opcode,
    /// The processor fetches another byte of an instruction.
    Fetch,
    /// The processor reads.
    Read,
    /// The processor writes.
    Write,
    /// The processor takes an internal cycle.
    Inner,
    /// A byte of DMA.
    Dma(Move),
    /// A byte of HDMA, or of its table.
    Hdma(Move),
    /// A reset of the script.
    Reset,
    /// The refresh of work RAM.
    Refresh,
}

/// A step of the console side.
#[derive(Clone, Copy)]
pub struct Seen {
    /// What it does.
    pub kind: Kind,
    /// The address on the bus. For a transfer, that of the A side.
    pub address: u32,
    /// What lies there.
    pub place: Place,
    /// The byte on the bus.
    pub byte: u8,
    /// The registers with which the instruction begins that makes the access.
    pub regs: Regs,
}

impl Seen {
    /// Returns the address of the instruction that makes the access.
    pub fn by(&self) -> u32 {
        opcode_address(&self.regs)
    }
}

/// Returns the address of an instruction, by the registers with which it begins.
fn opcode_address(regs: &Regs) -> u32 {
    u32::from(regs.pc) + 65_536 * u32::from(regs.pbr)
}

/// Returns the kind of a byte of a transfer: DMA if the channels without HDMA would move the same byte.
fn kind_of_move(dma: &Dma, due: Move) -> Kind {
    match due {
        Move::Load { .. } => Kind::Hdma(due),
        Move::ToA { .. } => Kind::Dma(due),
        Move::ToB { .. } => {
            if dma.next() == Some(due) {
                Kind::Dma(due)
            } else {
                Kind::Hdma(due)
            }
        }
    }
}

/// Returns the address of the A side of a byte of a transfer.
fn a_address(due: Move) -> u32 {
    match due {
        Move::Load { from } => from,
        Move::ToB { from, .. } => from,
        Move::ToA { to, .. } => to,
    }
}

/// Returns the kind of an access, its address, and the byte if it is written.
fn kind_of_access(access: Access, regs: &Regs) -> (Kind, u32, u8) {
    match access {
        Access::Fetch(address) => {
            if address == opcode_address(regs) {
                (Kind::Opcode, address, 0)
            } else {
                (Kind::Fetch, address, 0)
            }
        }
        Access::Read(address) => (Kind::Read, address, 0),
        Access::Write(address, byte) => (Kind::Write, address, byte),
        Access::Inner => (Kind::Inner, 0, 0),
    }
}

/// Returns the kind of the next step, its address, and the byte if it is written.
fn kind_of_step(console: &ConsoleSide, dma: &Dma, regs: &Regs) -> (Kind, u32, u8) {
    let bus = console.bus();
    if bus.resets() {
        return (Kind::Reset, 0, 0);
    }
    if bus.refreshes() {
        return (Kind::Refresh, 0, 0);
    }
    match bus.transfer() {
        Some(due) => (kind_of_move(dma, due), a_address(due), 0),
        None => kind_of_access(console.processor().next(), regs),
    }
}

/// Returns the console's next step. Unless it is a write, its byte is known only afterwards.
pub fn look_at(console: &ConsoleSide, dma: &Dma) -> Seen {
    let regs = console.processor().regs();
    let (kind, address, byte) = kind_of_step(console, dma, &regs);
    Seen {
        kind,
        address,
        place: console.bus().place(address),
        byte,
        regs,
    }
}

/// Completes a step that was taken, with the byte that went over the bus.
pub fn finish(console: &ConsoleSide, seen: &mut Seen) {
    seen.byte = console.bus().take(LAST_BYTE);
}

/// Updates the channels that follow DMA by a step that was taken.
pub fn tell_dma(dma: &mut Dma, seen: &Seen) {
    match (seen.kind, seen.place) {
        (Kind::Reset, _) => *dma = Dma::new(),
        (Kind::Dma(_), _) => {
            if dma.next().is_some() {
                dma.done(seen.byte);
            }
        }
        (Kind::Write, Place::Cpu(0x420B)) => dma.start(seen.byte),
        (Kind::Write, Place::Cpu(register)) => {
            if 0x4300 <= register && register <= 0x437F {
                dma.write(register, seen.byte);
            }
        }
        _ => {}
    }
}
