//! Rows worked by hand.

use rom_coverage::{Coverage, Opcode, log_file, picture_file, push_table, record_file};
use std::alloc::{AllocError, Global};
use symbol_files::SourceLines;

/// A ROM of eight bytes from 008000 on: JSR 8004; NOP; BEQ 8006; RTS; a byte of data.
static ROM: [u8; 8] = [0x20, 0x04, 0x80, 0xEA, 0xF0, 0x00, 0x60, 0x55];

/// The log of its run. The CRC-32 EC558AF1 is that of Python's `zlib`. The instruction at 8004 was called, that at 8006
/// was branched to; no mark is left by the return.
static LOG: [u8; 17] = [
    b'C', b'D', b'L', b'v', b'2', 0xF1, 0x8A, 0x55, 0xEC, 0x31, 0x31, 0x31, 0x21, 0x19, 0x11, 0x15,
    0x02,
];

/// Lines of a debug file: line 3 is the byte of data, line 9 lies behind the ROM.
static SOURCE: &str = "version\tmajor=2,minor=0
file\tid=0,name=\"t.s\",size=576,mtime=0x6B0C5956,mod=0
line\tid=0,file=0,line=1,span=0
line\tid=1,file=0,line=9,span=4
line\tid=2,file=0,line=4
line\tid=3,file=0,line=3,span=3
line\tid=4,file=0,line=2,span=1+2
seg\tid=0,name=\"CODE\",start=0x008000,size=0x002C,addrsize=absolute,type=ro,oname=\"t.sfc\",ooffs=0
span\tid=0,seg=0,start=0,size=3
span\tid=1,seg=0,start=3,size=1
span\tid=2,seg=0,start=4,size=3
span\tid=3,seg=0,start=7,size=1
span\tid=4,seg=0,start=8,size=2
";

/// The run: JSR, BEQ, RTS and NOP, with flags X and M as they may be. Then the processor and DMA read the last byte.
fn coverage_of(alloc: Global) -> Result<Coverage, AllocError> {
    let mut coverage = Coverage::new(alloc, 8)?;
    let run = [
        (0x8000u32, [0x20, 0x04, 0x80, 0xEA], 0x30u8),
        (0x8004, [0xF0, 0x00, 0x60, 0x55], 0x10),
        (0x8006, [0x60, 0x55, 0x00, 0x00], 0x10),
        (0x8003, [0xEA, 0xF0, 0x00, 0x60], 0x20),
    ];
    for (address, bytes, p) in run {
        let opcode = Opcode { address, bytes, p };
        coverage.execute(Some((address % 8) as usize), &opcode);
        if address == 0x8000 {
            coverage.fetch(1);
            coverage.fetch(2);
        }
        if address == 0x8004 {
            coverage.fetch(5);
        }
    }
    coverage.read(7);
    coverage.transfer(7);
    coverage.read(8);
    Ok(coverage)
}

#[test]
fn logs(rt: HostRuntime) -> Result<(), AllocError> {
    let alloc = rt.alloc();
    let log = log_file(alloc, &coverage_of(alloc)?, &ROM)?;
    assert_eq!(rt; log.as_slice(), LOG.as_slice());
    Ok(())
}

#[test]
fn records(rt: HostRuntime) -> Result<(), AllocError> {
    let alloc = rt.alloc();
    let Ok(source) = SourceLines::read(alloc, SOURCE) else {
        assert!(rt; false, "refused");
        return Ok(());
    };
    let record = record_file(alloc, &coverage_of(alloc)?, &source)?;
    let want = "TN:\nSF:t.s\nDA:1,1\nDA:2,1\nDA:9,0\nLF:3\nLH:2\nend_of_record\n";
    assert_eq!(rt; record.as_slice(), want.as_bytes());
    Ok(())
}

#[test]
fn tabulates(rt: HostRuntime) -> Result<(), AllocError> {
    let alloc = rt.alloc();
    let coverage = coverage_of(alloc)?;
    let mut text = Vec::new(alloc);
    push_table(&mut text, &coverage, 4, false)?;
    push_table(&mut text, &coverage, 8, true)?;
    let want = "bank offset    bytes  executed      data       DMA     never
00   000000        4   100.00%     0.00%     0.00%     0.00%
01   000004        4    75.00%    25.00%     0.00%     0.00%
all                8    87.50%    12.50%     0.00%     0.00%
bank,offset,bytes,executed,data,dma,never
00,000000,8,7,1,0,0
all,,8,7,1,0,0
";
    assert_eq!(rt; text.as_slice(), want.as_bytes());
    Ok(())
}

/// The colours of the eight bytes of the cartridge.
static COLOURS: [u8; 24] = [
    0, 255, 0, 0, 144, 0, 0, 144, 0, 0, 255, 0, 0, 255, 0, 0, 144, 0, 0, 255, 0, 255, 255, 0,
];

/// The picture has one row of 256 dots: eight colours, then black.
#[test]
fn draws(rt: HostRuntime) -> Result<(), AllocError> {
    let alloc = rt.alloc();
    let picture = picture_file(alloc, &coverage_of(alloc)?)?;
    let mut dots = [0u8; 768];
    for at in 0..24usize {
        dots[at] = COLOURS[at];
    }
    let want = film_formats::png_file(alloc, 256, 1, &dots)?;
    assert_eq!(rt; picture.as_slice(), want.as_slice());
    Ok(())
}
