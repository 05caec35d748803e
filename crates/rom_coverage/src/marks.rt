//! The marks of each byte of ROM.

ghost use Rattle.std.specs.Prelude.{◌≡◌};
ghost use Rattle.rom_coverage.specs.Marks.{used_as};

use cpu_tables::{INDEX_8, MEMORY_8, Mode, Op, row};
use std::alloc::{AllocError, Global};

/// The byte was executed as an opcode.
pub const OPCODE: u8 = 1;

/// The byte was executed as a part of an operand.
pub const OPERAND: u8 = 2;

/// The processor read the byte as data.
pub const DATA: u8 = 4;

/// DMA or HDMA read the byte.
pub const TRANSFER: u8 = 8;

/// A jump or a branch led to the opcode.
pub const JUMP: u8 = 16;

/// A call led to the opcode.
pub const ENTRY: u8 = 32;

/// Flag X was set when the byte was executed last: indexes had 8 bits.
pub const INDEX: u8 = 64;

/// Flag M was set when the byte was executed last: the accumulator had 8 bits.
pub const MEMORY: u8 = 128;

/// How a byte was used. Of several ways it is the first.
#[derive(Clone, Copy, PartialEq, Eq)]
pub enum Use {
    /// It was executed.
    Executed,
    /// The processor read it.
    Data,
    /// DMA or HDMA read it.
    Transfer,
    /// Nothing touched it.
    Never,
}

/// An instruction that begins.
#[derive(Clone, Copy)]
pub struct Opcode {
    /// Its address of 24 bits.
    pub address: u32,
    /// The opcode and the bytes behind it.
    pub bytes: [u8; 4],
    /// The status byte before it.
    pub p: u8,
}

/// Where the last instruction may lead.
#[derive(Clone, Copy)]
enum Lead {
    /// To the opcode behind it, or back to a caller.
    Nowhere,
    /// To this address, or to the opcode behind it.
    To(u8, u32),
    /// To an address that it reads.
    Anywhere(u8),
}

/// Which bytes of a ROM were used, and how.
#[derive(Drop)]
pub struct Coverage {
    marks: Vec<u8>,
    lead: Lead,
    /// The marks of flags X and M of the current instruction.
    widths: u8,
}

/// Returns the address of two bytes in the bank of an address.
fn in_bank(address: u32, low: u8, high: u8) -> u32 {
    address / 65_536 * 65_536 + u32::from(low) + 256 * u32::from(high)
}

/// Returns the address that is so many bytes behind another in its bank.
fn behind(address: u32, distance: u16) -> u32 {
    let offset = (address % 65_536) as u16;
    address / 65_536 * 65_536 + u32::from(offset.wrapping_add(distance))
}

/// Returns where a branch by a signed byte leads.
fn near(address: u32, distance: u8) -> u32 {
    let next = behind(address, 2);
    if distance < 128 {
        behind(next, u16::from(distance))
    } else {
        behind(next, u16::from(distance) + 0xFF00)
    }
}

/// Returns where an instruction may lead.
fn lead_of(opcode: &Opcode) -> Lead {
    let [number, first, second, third] = opcode.bytes;
    let row = row(number);
    let word = u16::from(first) + 256 * u16::from(second);
    match (row.op, row.mode) {
        (Op::Jmp, Mode::Absolute) => Lead::To(JUMP, in_bank(opcode.address, first, second)),
        (Op::Jmp, Mode::Long) => Lead::To(JUMP, u32::from(word) + 65_536 * u32::from(third)),
        (Op::Jsr, Mode::Absolute) => Lead::To(ENTRY, in_bank(opcode.address, first, second)),
        (Op::Jsl, _) => Lead::To(ENTRY, u32::from(word) + 65_536 * u32::from(third)),
        (Op::Jmp, _) => Lead::Anywhere(JUMP),
        (Op::Jsr, _) => Lead::Anywhere(ENTRY),
        (Op::Brl, _) => Lead::To(JUMP, behind(behind(opcode.address, 3), word)),
        (_, Mode::Relative) => Lead::To(JUMP, near(opcode.address, first)),
        _ => Lead::Nowhere,
    }
}

/// Returns the mark that an opcode at an address has by the instruction before it.
fn mark_of(lead: Lead, address: u32) -> u8 {
    match lead {
        Lead::To(mark, target) if target == address => mark,
        Lead::Anywhere(mark) => mark,
        _ => 0,
    }
}

/// Returns the marks of flags X and M of a status byte.
fn widths_of(p: u8) -> u8 {
    let index = if p & INDEX_8 == 0 { 0 } else { INDEX };
    let memory = if p & MEMORY_8 == 0 { 0 } else { MEMORY };
    index | memory
}

impl Coverage {
    /// Returns the marks of a ROM of this many bytes, none of which was touched.
    pub fn new(alloc: Global, size: usize) -> Result<Coverage, AllocError> {
        Ok(Coverage {
            marks: vec![in alloc; 0u8; size]?,
            lead: Lead::Nowhere,
            widths: 0,
        })
    }

    /// Adds marks to those of a byte, in place of these others.
    fn put(&mut self, at: usize, without: u8, with: u8) {
        if at < self.marks.len() {
            self.marks[at] = (self.marks[at] & !without) | with;
        }
    }

    /// Notes that an instruction begins. Its opcode is this byte of ROM, if it lies there.
    pub fn execute(&mut self, at: Option<usize>, opcode: &Opcode) {
        let led = mark_of(self.lead, opcode.address);
        self.lead = lead_of(opcode);
        self.widths = widths_of(opcode.p);
        if let Some(at) = at {
            self.put(at, INDEX | MEMORY, OPCODE | led | self.widths);
        }
    }

    /// Notes that a byte of ROM is fetched as a part of the operand.
    pub fn fetch(&mut self, at: usize) {
        self.put(at, INDEX | MEMORY, OPERAND | self.widths);
    }

    /// Notes that an interrupt or a reset comes before the next instruction: no jump leads there.
    pub fn interrupt(&mut self) {
        self.lead = Lead::Nowhere;
    }

    /// Notes that the processor reads a byte of ROM.
    pub fn read(&mut self, at: usize) {
        self.put(at, 0, DATA);
    }

    /// Notes that DMA or HDMA reads a byte of ROM.
    pub fn transfer(&mut self, at: usize) {
        self.put(at, 0, TRANSFER);
    }

    /// Returns the marks of all bytes.
    pub fn marks(&self) -> &[u8] {
        self.marks.as_slice()
    }
}

/// Returns how a byte with these marks was used.
pub fn use_of(marks: u8) -> Use
    ensures { result ≡ used_as marks }
{
    if marks % 4 != 0 {
        Use::Executed
    } else if marks / 4 % 2 != 0 {
        Use::Data
    } else if marks / 8 % 2 != 0 {
        Use::Transfer
    } else {
        Use::Never
    }
}
