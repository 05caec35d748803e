//! An assembler for as much of the 65C816 as the scene needs.

/// The most bytes of a program, and the address of the first.
const ROOM: usize = 0x480;

const ORIGIN: u16 = 0x8000;

/// Where an instruction finds its number: in itself, at either width, in the direct page, or at an address.
#[derive(Clone, Copy)]
pub enum Operand {
    Byte(u8),
    Word(u16),
    Direct(u8),
    At(u16),
    AtX(u16),
    AtY(u16),
}

/// The instructions without an operand, by their opcodes.
#[derive(Clone, Copy)]
pub enum Plain {
    Clc = 0x18,
    Ina = 0x1a,
    Rti = 0x40,
    Pha = 0x48,
    Lsr = 0x4a,
    Phy = 0x5a,
    Rts = 0x60,
    Pla = 0x68,
    Sei = 0x78,
    Ply = 0x7a,
    Txa = 0x8a,
    Txs = 0x9a,
    Tay = 0xa8,
    Phx = 0xda,
    Inx = 0xe8,
    Nop = 0xea,
    Plx = 0xfa,
    Xce = 0xfb,
}

/// An address in the program.
#[derive(Clone, Copy)]
pub struct Label(pub u16);

/// An instruction.
#[derive(Clone, Copy)]
pub enum Step {
    Run(Plain),
    Ora(Operand),
    And(Operand),
    Eor(Operand),
    Adc(Operand),
    Sta(Operand),
    Lda(Operand),
    Ldy(Operand),
    Ldx(Operand),
    Cmp(Operand),
    Cpx(Operand),
    Inc(Operand),
    Stz(u16),
    Rep(u8),
    Sep(u8),
    /// A branch back, over at most 126 bytes.
    Bne(Label),
    Jmp(Label),
    Jsr(Label),
}

/// A program while it is being written. What doesn't fit is left out, and `fits` shows it.
#[derive(Drop)]
pub struct Code {
    bytes: [u8; ROOM],
    length: u16,
}

impl Code {
    /// Returns an empty program.
    pub fn new() -> Code {
        Code {
            bytes: [0; ROOM],
            length: 0,
        }
    }

    /// Returns the bytes of the program, with zeros after its end.
    pub fn bytes(&self) -> &[u8] {
        &self.bytes
    }

    /// Whether the whole program fits.
    pub fn fits(&self) -> bool {
        usize::from(self.length) <= ROOM
    }

    /// Returns the address of the next instruction.
    pub fn here(&self) -> Label {
        Label(ORIGIN.wrapping_add(self.length))
    }

    /// Writes instructions one after another.
    pub fn write(&mut self, steps: &[Step]) {
        for step in steps {
            self.step(*step);
        }
    }

    fn step(&mut self, step: Step) {
        match step {
            Step::Run(plain) => self.byte(plain as u8),
            Step::Ora(operand) => self.of_a(0x00, operand),
            Step::And(operand) => self.of_a(0x20, operand),
            Step::Eor(operand) => self.of_a(0x40, operand),
            Step::Adc(operand) => self.of_a(0x60, operand),
            Step::Sta(operand) => self.of_a(0x80, operand),
            Step::Lda(operand) => self.of_a(0xa0, operand),
            Step::Cmp(operand) => self.of_a(0xc0, operand),
            Step::Ldy(operand) => self.of_index(0xa0, operand),
            Step::Ldx(operand) => self.of_index(0xa2, operand),
            Step::Cpx(operand) => self.of_index(0xe0, operand),
            Step::Inc(operand) => self.of_index(0xe2, operand),
            Step::Stz(at) => self.long(0x9c, at),
            Step::Rep(flags) => self.short(0xc2, flags),
            Step::Sep(flags) => self.short(0xe2, flags),
            Step::Bne(back) => {
                let after = self.here().0.wrapping_add(2);
                self.short(0xd0, (back.0.wrapping_sub(after) % 256) as u8);
            }
            Step::Jmp(to) => self.long(0x4c, to.0),
            Step::Jsr(to) => self.long(0x20, to.0),
        }
    }

    /// Writes an instruction of A: a base opcode, with bits for the mode.
    fn of_a(&mut self, base: u8, operand: Operand) {
        match operand {
            Operand::Byte(number) => self.short(base | 0x09, number),
            Operand::Word(number) => self.long(base | 0x09, number),
            Operand::Direct(at) => self.short(base | 0x05, at),
            Operand::At(at) => self.long(base | 0x0d, at),
            Operand::AtX(at) => self.long(base | 0x1d, at),
            Operand::AtY(at) => self.long(base | 0x19, at),
        }
    }

    /// Writes an instruction of X or Y, or INC: a base opcode, with other bits for the mode.
    fn of_index(&mut self, base: u8, operand: Operand) {
        match operand {
            Operand::Byte(number) => self.short(base, number),
            Operand::Word(number) => self.long(base, number),
            Operand::Direct(at) => self.short(base | 0x04, at),
            Operand::At(at) => self.long(base | 0x0c, at),
            Operand::AtX(at) | Operand::AtY(at) => self.long(base | 0x1c, at),
        }
    }

    fn short(&mut self, opcode: u8, operand: u8) {
        self.byte(opcode);
        self.byte(operand);
    }

    fn long(&mut self, opcode: u8, operand: u16) {
        self.byte(opcode);
        self.byte((operand % 256) as u8);
        self.byte((operand / 256) as u8);
    }

    fn byte(&mut self, byte: u8) {
        if let Some(place) = self.bytes.get_mut(usize::from(self.length)) {
            *place = byte;
        }
        self.length = self.length.saturating_add(1);
    }
}
