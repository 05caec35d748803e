//! Writes the program: it sets the scene up, works in a loop as a game does, and moves the scene in each NMI.

use crate::assembler::Operand::{At, AtX, AtY, Byte, Direct, Word};
use crate::assembler::Plain::{
    Clc, Ina, Inx, Lsr, Nop, Pha, Phx, Phy, Pla, Plx, Ply, Rti, Rts, Sei, Tay, Txs, Xce,
};
use crate::assembler::Step::{
    Adc, And, Bne, Cpx, Eor, Inc, Jmp, Jsr, Lda, Ldx, Ldy, Ora, Rep, Run, Sep, Sta, Stz,
};
use crate::assembler::{Code, Label};
use crate::image::{COLOURS, NUMBERS, OBJECTS, PATHS, SKY, SUN, VIDEO, WAVES};
use crate::landscape::WAVE_PAIRS;
use crate::objects::{BALLS, GLINTS, Table};
use crate::sound::send_sound;

/// Addresses in the direct page: numbers of the sums, the frame and the slower scrolls, and two angles with a zero
/// after each.
const ROUNDS: u8 = 0x10;

const FACTOR: u8 = 0x12;

const PRODUCT: u8 = 0x14;

const MIXED: u8 = 0x20;

const FRAME: u8 = 0x30;

const HALF: u8 = 0x32;

const QUARTER: u8 = 0x34;

const ACROSS: u8 = 0x40;

const DOWN: u8 = 0x42;

/// Addresses in work RAM: the objects and the waves of the next frame, and three arrays.
const MOVED: u16 = 0x0300;

const BENT: u16 = 0x0600;

const FIRST: u16 = 0x1000;

const SECOND: u16 = 0x1100;

const SUMS: u16 = 0x1200;

/// The bytes that the PPU's registers get at the start.
static PICTURE: [(u16, u8); 22] = [
    (0x2105, 0x01), // BGMODE: mode 1
    (0x2107, 0x03), // BG1SC: map at 0000, 64 by 64
    (0x2108, 0x13), // BG2SC: map at 1000, 64 by 64
    (0x2109, 0x21), // BG3SC: map at 2000, 64 by 32
    (0x210b, 0x42), // BG12NBA: tiles at 2000 and 4000
    (0x210c, 0x06), // BG34NBA: tiles at 6000
    (0x2101, 0x63), // OBSEL: objects of 16 and 32 pixels, tiles at 6000
    (0x210e, 0xff), // BG1VOFS: one up, since the first row shows row 1
    (0x210e, 0x03),
    (0x2110, 0xff), // BG2VOFS
    (0x2110, 0x03),
    (0x2112, 0xff), // BG3VOFS
    (0x2112, 0x03),
    (0x212c, 0x17), // TM: all on the main screen
    (0x212d, 0x02), // TS: the mountains on the sub screen
    (0x2125, 0x20), // WOBJSEL: window 1 is the colour window
    (0x2130, 0x12), // CGWSEL: arithmetic inside it, with the sub screen
    (0x2131, 0x65), // CGADSUB: half of the sum, on BG1, BG3 and the backdrop
    (0x2132, 0x36), // COLDATA: the sun's red, green and blue
    (0x2132, 0x51),
    (0x2132, 0x81),
    (0x2100, 0x0f), // INIDISP: the picture on
];

/// Registers of the PPU that the scene leaves at 0, and how often each is written: a console has anything there at power on.
/// The scene that speed is measured by leaves them out.
static CLEARED: [(u16, u8); 10] = [
    (0x2106, 1), // MOSAIC
    (0x210d, 2), // BG1HOFS
    (0x210f, 2), // BG2HOFS
    (0x2111, 2), // BG3HOFS
    (0x2121, 1), // CGADD
    (0x2126, 1), // WH0
    (0x2127, 1), // WH1
    (0x212e, 1), // TMW
    (0x212f, 1), // TSW
    (0x2133, 1), // SETINI
];

/// Words of work RAM that the program reads before it writes anything else there.
static VARIABLES: [u8; 6] = [ROUNDS, FACTOR, MIXED, FRAME, ACROSS, DOWN];

/// Writes code that sets a register to a byte.
fn set(code: &mut Code, register: u16, byte: u8) {
    code.write(&[Lda(Byte(byte)), Sta(At(register))]);
}

/// Sets up a channel of DMA: its pattern, its register of page 21, and the offset in the cartridge that it reads.
fn aim(code: &mut Code, channel: u16, pattern: u8, register: u8, from: u32) {
    let (bank, at) = ((from / 0x8000 % 4) as u8, (from % 0x8000) as u16);
    aim_at(code, channel, pattern, register, bank, 0x8000 + at);
}

/// Sets up a channel of DMA: its pattern, its register of page 21, and the bank and address that it reads.
fn aim_at(code: &mut Code, channel: u16, pattern: u8, register: u8, bank: u8, at: u16) {
    let [low, high] = at.to_le_bytes();
    let mut place = 0x4300 + channel % 8 * 16;
    for byte in [pattern, register, low, high, bank] {
        set(code, place, byte);
        place = place.wrapping_add(1);
    }
}

/// Moves the given number of bytes by channel 0, as it is set up.
fn move_bytes(code: &mut Code, size: u16) {
    let [low, high] = size.to_le_bytes();
    set(code, 0x4305, low); // DAS0
    set(code, 0x4306, high);
    set(code, 0x420b, 1); // MDMAEN
}

/// Moves bytes of the cartridge into work RAM.
fn to_work_ram(code: &mut Code, to: u16, from: u32, size: u16) {
    let [low, high] = to.to_le_bytes();
    set(code, 0x2181, low); // WMADD
    set(code, 0x2182, high);
    set(code, 0x2183, 0);
    aim(code, 0, 0, 0x80, from); // WMDATA
    move_bytes(code, size);
}

/// Moves the objects of work RAM to OAM.
fn show_objects(code: &mut Code) {
    set(code, 0x2102, 0); // OAMADD
    set(code, 0x2103, 0);
    aim_at(code, 0, 0, 0x04, 0x7e, MOVED); // OAMDATA
    move_bytes(code, 0x220);
}

/// Writes code that clears the variables.
fn clear_variables(code: &mut Code) {
    code.write(&[Rep(0x20)]);
    for at in VARIABLES {
        code.write(&[Stz(u16::from(at))]);
    }
    code.write(&[Sep(0x20)]);
}

/// Writes the start: native mode, memories, registers, HDMA, and the picture on. If `clears`, it writes all registers and
/// variables that a console doesn't clear.
fn start(code: &mut Code, clears: bool) {
    code.write(&[
        Run(Sei),
        Run(Clc),
        Run(Xce),
        Rep(0x10),
        Ldx(Word(0x1fff)),
        Run(Txs),
        Sep(0x20),
    ]);
    set(code, 0x2100, 0x80); // INIDISP: forced blank
    if clears {
        for (register, times) in CLEARED {
            for _ in 0..times {
                code.write(&[Stz(register)]);
            }
        }
    } else {
        // It changes nothing, since the program runs in banks that are always slow.
        set(code, 0x420d, 1); // MEMSEL: fast ROM
    }
    set(code, 0x2115, 0x80); // VMAIN: a step after the high byte
    for half in 0..2u8 {
        set(code, 0x2116, 0); // VMADD
        set(code, 0x2117, 0x40 * half);
        aim(code, 0, 1, 0x18, VIDEO + 0x8000 * u32::from(half)); // VMDATA
        move_bytes(code, 0x8000);
    }
    if !clears {
        set(code, 0x2121, 0); // CGADD
    }
    aim(code, 0, 0, 0x22, COLOURS); // CGDATA
    move_bytes(code, 0x200);
    to_work_ram(code, MOVED, OBJECTS, 0x220);
    to_work_ram(code, BENT, WAVES, 0x80);
    to_work_ram(code, FIRST, NUMBERS, 0x200);
    show_objects(code);
    aim_at(code, 1, 2, 0x0d, 0x7e, BENT); // BG1HOFS, twice
    aim(code, 2, 3, 0x21, SKY); // CGADD and CGDATA, twice each
    aim(code, 3, 1, 0x26, SUN); // WH0 and WH1
    for (register, byte) in PICTURE {
        set(code, register, byte);
    }
    // The picture is on before: so it comes in the same row as in the scene that speed is measured by.
    if clears {
        clear_variables(code);
    }
    set(code, 0x4200, 0x81); // NMITIMEN: NMI and the pads
}

/// Writes the game's endless work: sums over arrays with a call for each, a product, and port 0. A console needs a third NOP
/// before it has the product.
fn work(code: &mut Code, mix: Label, waits: bool) {
    let round = code.here();
    code.write(&[Rep(0x30), Ldx(Word(0))]);
    let next = code.here();
    code.write(&[
        Lda(AtX(FIRST)),
        Run(Clc),
        Adc(AtX(SECOND)),
        Sta(AtX(SUMS)),
        Inc(Direct(ROUNDS)),
        Jsr(mix),
        Run(Inx),
        Run(Inx),
        Cpx(Word(0x100)),
        Bne(next),
        Sep(0x20),
        Lda(Direct(FACTOR)),
        Sta(At(0x4202)), // WRMPYA
        Sta(At(0x4203)), // WRMPYB
        Run(Nop),
        Run(Nop),
    ]);
    if waits {
        code.write(&[Run(Nop)]);
    }
    code.write(&[
        Lda(At(0x4216)), // RDMPYL
        Sta(Direct(PRODUCT)),
        Lda(At(0x2140)), // APUIO0
        Run(Ina),
        Sta(At(0x2140)),
        Jmp(round),
    ]);
}

/// Writes the subroutine of the work: it mixes the count of iterations into a word.
fn mix(code: &mut Code) -> Label {
    let label = code.here();
    code.write(&[
        Run(Pha),
        Run(Phy),
        Lda(Direct(ROUNDS)),
        Run(Lsr),
        Eor(Word(0x5a5a)),
        Run(Tay),
        Adc(Direct(MIXED)),
        Sta(Direct(MIXED)),
        Run(Ply),
        Run(Pla),
        Run(Rts),
    ]);
    label
}

/// A path that things follow: its table, how often it adds the frame to its angle, and the step of the angle from each
/// thing to the next.
#[derive(Clone, Copy)]
struct Path {
    angle: u8,
    table: Table,
    speed: u8,
    step: u8,
}

impl Path {
    fn of(angle: u8, table: Table, speed: u8, step: u8) -> Path {
        Path {
            angle,
            table,
            speed,
            step,
        }
    }
}

/// Begins a path.
fn begin(code: &mut Code, path: &Path) {
    code.write(&[Lda(Byte(0))]);
    for _ in 0..path.speed {
        code.write(&[Run(Clc), Adc(Direct(FRAME))]);
    }
    code.write(&[Sta(Direct(path.angle))]);
}

/// Reads a path, and advances to the next thing's angle.
fn follow(code: &mut Code, path: &Path) {
    code.write(&[
        Lda(Direct(path.angle)),
        Run(Clc),
        Adc(Byte(path.step)),
        Sta(Direct(path.angle)),
        Ldy(Direct(path.angle)),
        Lda(AtY(address_of(path.table))),
    ]);
}

/// Returns the address of a table.
fn address_of(table: Table) -> u16 {
    0x8000 + PATHS as u16 + 256 * table as u16
}

/// Moves objects by paths: each has one across, one down, or both. Those with both come to the front and go behind.
fn move_objects(
    code: &mut Code,
    first: u8,
    end: u8,
    across: Option<Path>,
    down: Option<Path>,
) -> Label {
    let label = code.here();
    for path in [&across, &down].into_iter().flatten() {
        begin(code, path);
    }
    code.write(&[Ldx(Word(4 * u16::from(first)))]);
    let again = code.here();
    if let Some(path) = &down {
        follow(code, path);
        code.write(&[Sta(AtX(MOVED + 1))]);
    }
    if let Some(path) = &across {
        follow(code, path);
        code.write(&[Sta(AtX(MOVED))]);
        if down.is_some() {
            code.write(&[
                Lda(AtX(MOVED + 3)),
                And(Byte(0xcf)),
                Ora(AtY(address_of(Table::BallFront))),
                Sta(AtX(MOVED + 3)),
            ]);
        }
    }
    code.write(&[
        Run(Inx),
        Run(Inx),
        Run(Inx),
        Run(Inx),
        Cpx(Word(4 * u16::from(end))),
        Bne(again),
        Run(Rts),
    ]);
    label
}

/// Bends the waves: the hills scroll with the frame, and the lake by a wave as well.
fn bend_waves(code: &mut Code) -> Label {
    let label = code.here();
    let wave = Path::of(ACROSS, Table::Wave, 2, 19);
    begin(code, &wave);
    code.write(&[
        Lda(Direct(FRAME)),
        Sta(At(BENT + 1)),
        Sta(At(BENT + 4)),
        Ldx(Word(0)),
    ]);
    let again = code.here();
    follow(code, &wave);
    code.write(&[
        Run(Clc),
        Adc(Direct(FRAME)),
        Sta(AtX(BENT + 7)),
        Run(Inx),
        Run(Inx),
        Run(Inx),
        Cpx(Word(3 * u16::from(WAVE_PAIRS))),
        Bne(again),
        Run(Rts),
    ]);
    label
}

/// Writes the NMI: the objects by DMA, the scrolls of BG2 and BG3, and then the positions of the next frame.
fn interrupt(code: &mut Code, moves: &[Label]) -> Label {
    let label = code.here();
    code.write(&[
        Rep(0x30),
        Run(Pha),
        Run(Phx),
        Run(Phy),
        Inc(Direct(FRAME)),
        Lda(Direct(FRAME)),
        Run(Lsr),
        Sta(Direct(HALF)),
        Run(Lsr),
        Sta(Direct(QUARTER)),
        Sep(0x20),
        Lda(At(0x4210)), // RDNMI
    ]);
    show_objects(code);
    // HDMAEN is written only here: a channel that is let go in mid-frame doesn't begin at its table.
    set(code, 0x420c, 0x0e);
    code.write(&[
        Lda(Direct(HALF)),
        Sta(At(0x210f)), // BG2HOFS
        Stz(0x210f),
        Lda(Direct(QUARTER)),
        Sta(At(0x2111)), // BG3HOFS
        Stz(0x2111),
    ]);
    for part in moves {
        code.write(&[Jsr(*part)]);
    }
    code.write(&[Rep(0x30), Run(Ply), Run(Plx), Run(Pla), Run(Rti)]);
    label
}

/// Writes the program, with its tune or without, and returns where a reset and an NMI begin. The one without a tune is that of
/// the scene that speed is measured by, whose bytes stay as they are.
pub fn write_program(code: &mut Code, with_tune: bool) -> (Label, Label) {
    let mix = mix(code);
    let bob = Path::of(DOWN, Table::LetterY, 3, 40);
    let letters = move_objects(code, 0, BALLS, None, Some(bob));
    let across = Path::of(ACROSS, Table::BallX, 1, 3);
    let down = Path::of(DOWN, Table::BallY, 3, 6);
    let balls = move_objects(code, BALLS, GLINTS, Some(across), Some(down));
    let dance = Path::of(ACROSS, Table::GlintX, 2, 83);
    let glints = move_objects(code, GLINTS, 128, Some(dance), None);
    let waves = bend_waves(code);
    let nmi = interrupt(code, &[letters, balls, glints, waves]);
    let reset = code.here();
    start(code, with_tune);
    // The frames are counted in each NMI by now, so the tune takes none of them.
    if with_tune {
        send_sound(code);
    }
    work(code, mix, with_tune);
    (reset, nmi)
}
