//! Runs rows of the free boot ROM: a scripted console uploads blocks by the protocol and starts a program.
//!
//! The expected output of each row comes from the protocol. Port 0 gets one write for AA, one for each order and one
//! for each byte; port 1 gets one for BB; ports 2 and 3 none. At the start address X is 00 and SP is EF. In memory,
//! 0000 and 0001 hold that address, 0002 to 00EF zeros, and the rest what was sent, where it was sent: each byte from
//! 0100 to FFBF is compared. From FFC0 on the boot ROM is still visible. That A and Y are 00 too is this boot ROM's
//! own.
//!
//! The order after a block has the last index plus 2 (or what the row says), or 01 if that is 00.

use crate::upload::sender::{Block, Fill, Manner, Missing, Sender};
use audio_side::AudioSide;
use free_files::free_boot_rom;
use snes_defs::Region;
use spc_tables::SpcRegs;
use std::alloc::{AllocError, Global};
use std::io;

mod sender;

/// The usual uploader: bytes, and a read or a store every fourth cycle.
const USUAL: Manner = Manner {
    by_words: false,
    pace: 4,
};

/// What a row sends, how, and where the program that it starts begins.
#[derive(Clone, Copy)]
struct Upload {
    title: &'static str,
    blocks: &'static [Block],
    /// The next order's byte minus the last index.
    further: u8,
    start: u16,
    manner: Manner,
}

impl Upload {
    /// Returns an upload in the usual manner.
    fn usual(title: &'static str, blocks: &'static [Block], start: u16) -> Upload {
        Upload {
            title,
            blocks,
            further: 2,
            start,
            manner: USUAL,
        }
    }

    /// Returns an upload of four blocks, with a start in the second.
    fn several(title: &'static str, further: u8, manner: Manner) -> Upload {
        Upload {
            title,
            blocks: &SEVERAL,
            further,
            start: 0x0301,
            manner,
        }
    }
}

static NONE: [Block; 0] = [];

static ONE_BYTE: [Block; 1] = [Block {
    at: 0x0200,
    size: 1,
    fill: Fill::From(0x5a),
}];

static PAGE_LESS_ONE: [Block; 1] = [Block {
    at: 0x02f0,
    size: 255,
    fill: Fill::From(0x11),
}];

static PAGE: [Block; 1] = [Block {
    at: 0x02f0,
    size: 256,
    fill: Fill::From(0x11),
}];

static PAGE_AND_ONE: [Block; 1] = [Block {
    at: 0x02f0,
    size: 257,
    fill: Fill::From(0x11),
}];

static LONG: [Block; 1] = [Block {
    at: 0x0123,
    size: 60_000,
    fill: Fill::From(0x01),
}];

static SEVERAL: [Block; 4] = [
    Block {
        at: 0x0400,
        size: 300,
        fill: Fill::From(0x20),
    },
    Block {
        at: 0x0300,
        size: 256,
        fill: Fill::From(0x40),
    },
    Block {
        at: 0xff00,
        size: 192,
        fill: Fill::From(0x60),
    },
    Block {
        at: 0x0410,
        size: 3,
        fill: Fill::From(0x80),
    },
];

/// A program that puts A5 at 0000 to 00EF and 0100 to 01FF, sets SP to 10, and jumps back to the boot ROM.
///
/// MOV X,#F0; MOV A,#A5; DEC X; MOV 00+X,A; CMP X,#00; BNE; MOV Y,#00; MOV 0100+Y,A; INC Y; BNE; MOV X,#10; MOV SP,X;
/// JMP FFC0.
const DIRTY: [u8; 25] = [
    0xcd, 0xf0, 0xe8, 0xa5, 0x1d, 0xd4, 0x00, 0xc8, 0x00, 0xd0, 0xf9, 0x8d, 0x00, 0xd6, 0x00, 0x01,
    0xfc, 0xd0, 0xfa, 0xcd, 0x10, 0xbd, 0x5f, 0xc0, 0xff,
];

static DIRTY_PROGRAM: [Block; 1] = [Block {
    at: 0x0300,
    size: 25,
    fill: Fill::Program(DIRTY),
}];

/// Puts a byte at an address of the expected memory.
fn put(bytes: &mut Vec<u8>, at: u16, byte: u8) {
    if let Some(place) = bytes.get_mut(usize::from(at)) {
        *place = byte;
    }
}

/// Returns the expected memory: the bytes of blocks, and zeros.
fn wanted(alloc: Global, blocks: &[Block]) -> Result<Vec<u8>, AllocError> {
    let mut bytes = vec![in alloc; 0u8; 65_536]?;
    for block in blocks {
        for index in 0..block.size {
            put(&mut bytes, block.at.wrapping_add(index), block.byte(index));
        }
    }
    Ok(bytes)
}

/// Runs until an instruction begins at an address, and returns the registers; `None` if that isn't soon.
fn arrive(side: &mut AudioSide, sender: &mut Sender, at: u16) -> Option<SpcRegs> {
    for _ in 0..100 {
        if let Some(regs) = side.begins()
            && regs.pc == at
        {
            return Some(regs);
        }
        sender.pass_one(side);
    }
    None
}

/// Returns how many bytes from one address up to another are not as expected.
fn differing(side: &AudioSide, from: u16, to: u16, wanted: &[u8]) -> u32 {
    let mut count = 0u32;
    for at in from..to {
        if wanted.get(usize::from(at)).copied() != Some(side.byte_at(at, 0)) {
            count = count.saturating_add(1);
        }
    }
    count
}

/// Prints the memory: what is at 0000 and 0001, and how many bytes are not as expected.
fn show_memory(rt: &impl Print, side: &AudioSide, wanted: &[u8]) -> io::Result<()> {
    let zeros = [0u8; 240];
    println!(rt;
        "  0000: {:02X} {:02X}; 0002 to 00EF: {} not zero; 0100 to FFBF: {} not as sent",
        side.byte_at(0, 0),
        side.byte_at(1, 0),
        differing(side, 0x0002, 0x00f0, &zeros),
        differing(side, 0x0100, 0xffc0, wanted),
    )?;
    let mut seen = 0u32;
    for (i, byte) in free_boot_rom().into_iter().enumerate() {
        if side.byte_at(0xffc0u16.saturating_add(i as u16), 0) == byte {
            seen = seen.saturating_add(1);
        }
    }
    println!(rt; "  boot ROM: {seen} of 64 bytes are seen")
}

/// Prints where the program begins, and with which registers.
fn show_start(
    rt: &impl Print,
    side: &mut AudioSide,
    sender: &mut Sender,
    at: u16,
    wanted: &[u8],
) -> io::Result<()> {
    let Some(regs) = arrive(side, sender, at) else {
        return println!(rt; "  nothing begins at {at:04X}");
    };
    println!(rt;
        "  begins at {:04X} with A {:02X}, X {:02X}, Y {:02X}, SP {:02X}",
        regs.pc, regs.a, regs.x, regs.y, regs.sp,
    )?;
    show_memory(rt, side, wanted)?;
    let ([zero, one, two, three], counts) = (sender.shown(), sender.counts());
    println!(rt;
        "  ports {zero:02X} {one:02X} {two:02X} {three:02X}, written {} {} {} {} times",
        counts[0], counts[1], counts[2], counts[3],
    )
}

/// Sends the blocks of a row, and the order to jump.
fn send(side: &mut AudioSide, sender: &mut Sender, upload: &Upload) -> Result<(), Missing> {
    sender.wait_for_offer(side)?;
    let mut byte = 0xcc;
    for block in upload.blocks {
        byte = sender.block(side, block, byte, upload.further)?;
    }
    sender.jump(side, upload.start, byte)
}

/// Prints what the protocol misses.
fn show_missing(rt: &impl Print, missing: &Missing) -> io::Result<()> {
    println!(rt;
        "  port {} has {:02X} and never {:02X}",
        missing.port, missing.stands, missing.byte,
    )
}

/// Returns the sound side at its start, with the free boot ROM.
fn start(alloc: Global) -> io::Result<Option<AudioSide>> {
    let job = crate::job(alloc, free_boot_rom(), Region::Ntsc, false)?;
    Ok(AudioSide::new(alloc, &job).ok())
}

/// Sends the blocks of a row to a sound side at its start, and prints what comes of it.
fn show_upload(
    rt: &impl Print,
    side: &mut AudioSide,
    upload: &Upload,
    wanted: &[u8],
) -> io::Result<()> {
    let mut sender = Sender::new(upload.manner);
    match send(side, &mut sender, upload) {
        Err(missing) => show_missing(rt, &missing),
        Ok(()) => show_start(rt, side, &mut sender, upload.start, wanted),
    }
}

/// Runs a row: an upload from reset on.
fn row(rt: &impl Print, alloc: Global, upload: &Upload) -> io::Result<()> {
    println!(rt; "{}", upload.title)?;
    let wanted = wanted(alloc, upload.blocks)?;
    let Some(mut side) = start(alloc)? else {
        return println!(rt; "no memory");
    };
    show_upload(rt, &mut side, upload, wanted.as_slice())
}

/// Sends a program that leaves the two pages full and jumps back to the boot ROM, and then a byte, to a sound side at
/// its start. Prints what comes of it.
fn show_again(rt: &impl Print, side: &mut AudioSide, wanted: &[u8]) -> io::Result<()> {
    let mut sender = Sender::new(USUAL);
    for upload in [
        Upload::usual("", &DIRTY_PROGRAM, 0x0300),
        Upload::usual("", &ONE_BYTE, 0x0200),
    ] {
        if let Err(missing) = send(side, &mut sender, &upload) {
            return show_missing(rt, &missing);
        }
    }
    show_start(rt, side, &mut sender, 0x0200, wanted)
}

/// Runs a row in which a program leaves the two pages full and jumps back to the boot ROM.
fn begin_again(rt: &impl Print, alloc: Global) -> io::Result<()> {
    println!(rt; "begun again by a program that left its pages full")?;
    let mut wanted = wanted(alloc, &DIRTY_PROGRAM)?;
    for at in 0x0100..0x0200u16 {
        put(&mut wanted, at, 0xa5);
    }
    put(&mut wanted, 0x0200, 0x5a);
    let Some(mut side) = start(alloc)? else {
        return println!(rt; "no memory");
    };
    show_again(rt, &mut side, wanted.as_slice())
}

/// Runs a row in which nothing but the offer happens, for a long time.
fn offer_alone(rt: &impl Print, alloc: Global) -> io::Result<()> {
    println!(rt; "no order for 20,000 cycles")?;
    let Some(mut side) = start(alloc)? else {
        return println!(rt; "no memory");
    };
    let mut sender = Sender::new(USUAL);
    sender.pass(&mut side, 20_000);
    let ([zero, one, two, three], counts) = (sender.shown(), sender.counts());
    println!(rt;
        "  ports {zero:02X} {one:02X} {two:02X} {three:02X}, written {} {} {} {} times",
        counts[0], counts[1], counts[2], counts[3],
    )
}

/// Runs all rows.
pub fn show(rt: &impl Print, alloc: Global) -> io::Result<()> {
    offer_alone(rt, alloc)?;
    let words = Manner {
        by_words: true,
        pace: 3,
    };
    let slow = Manner {
        by_words: false,
        pace: 90,
    };
    for upload in [
        Upload::usual("a jump alone", &NONE, 0x0400),
        Upload::usual("a block of 1 byte", &ONE_BYTE, 0x0200),
        Upload::usual(
            "a block of 255 bytes, over a page's end",
            &PAGE_LESS_ONE,
            0x02f0,
        ),
        Upload::usual("a block of 256 bytes", &PAGE, 0x02f0),
        Upload::usual("a block of 257 bytes", &PAGE_AND_ONE, 0x02f0),
        Upload::usual("a block of 60,000 bytes", &LONG, 0x1234),
        Upload::several("several blocks, the last over the first", 4, USUAL),
        Upload::several("the same by words", 3, words),
        Upload::several("the same slowly", 0x7f, slow),
    ] {
        row(rt, alloc, &upload)?;
    }
    begin_again(rt, alloc)
}
