ghost use Rattle.std.specs.Prelude.{◌≡◌, ◌≤◌, ◌↔◌, Some, None, Err, IfOk, OnOk, length, take, drop};
ghost use Rattle.spc_player.specs.SoundFile.{image_of, refusal_of, regs_of};

use snes_defs::NoMemory;
use spc700::SpcRegs;
use std::alloc::Global;
use std::marker::Model;

/// The text that a sound file begins with.
const TEXT: &[u8; 27] = b"SNES-SPC700 Sound File Data";

/// The most bytes that a sound file has.
const MOST: usize = 1_048_576;

/// The fewest bytes that it has: up to 64 bytes after those of the S-DSP.
const LEAST: usize = 65_920;

/// The places of RAM and of the bytes of the S-DSP in a file.
const RAM: usize = 0x100;

const DSP: usize = 0x1_0100;

/// Why a file is not a sound file.
#[derive(Clone, Copy, Debug, PartialEq, Eq)]
pub enum SpcRefused {
    /// The file has more than 1,048,576 bytes.
    TooLong,
    /// The file has fewer than 65,920 bytes.
    TooShort,
    /// The file does not begin with the 27 bytes `SNES-SPC700 Sound File Data`.
    NoText,
}

/// Why a file was not read.
#[derive(Clone, Copy)]
pub enum SpcEnd {
    Refused(SpcRefused),
    NoMemory,
}

/// What an accepted sound file holds.
#[derive(Drop)]
pub struct SpcImage {
    regs: SpcRegs,
    ram: Vec<u8>,
    dsp: [u8; 128],
}

impl Model for SpcImage {
    ghost use Rattle.std.specs.Prelude.{◌≡◌, length};
    ghost use Rattle.spc_player.specs.SoundFile.{Image};

    ghost Value = { Image };

    ghost view = { λ i. record { regs = i.regs; ram = i.ram.items; dsp = i.dsp } };

    ghost invariant = { λ i. (length i.ram.items ≡ 65536) × (length i.dsp ≡ 128) };
}

impl SpcImage {
    /// The registers of the SPC700.
    pub fn regs(&self) -> SpcRegs
        ensures { result ≡ self.now.regs }
    {
        self.regs
    }

    /// The 65,536 bytes of RAM.
    pub fn ram(&self) -> &[u8]
        ensures bytes { result.now ≡ self.now.ram }
        ensures size { length result.now ≡ 65536 }
    {
        self.ram.as_slice()
    }

    /// The 128 bytes of the S-DSP.
    pub fn dsp(&self) -> &[u8]
        ensures bytes { result.now ≡ self.now.dsp }
        ensures size { length result.now ≡ 128 }
    {
        self.dsp.as_slice()
    }
}

/// Why a file is refused, if it is.
#[tactic(auto, unfolding(crate::specs::SoundFile::refusal_of))]
fn refusal(file: &[u8]) -> Option<SpcRefused>
    ensures why { result ≡ refusal_of file.now }
    ensures long { result ≡ None → 65920 ≤ length file.now }
{
    if file.len() > MOST {
        return Some(SpcRefused::TooLong);
    }
    if file.len() < LEAST {
        return Some(SpcRefused::TooShort);
    }
    if &file[..27] != TEXT.as_slice() {
        return Some(SpcRefused::NoText);
    }
    None
}

/// The registers in a file.
#[tactic(auto, unfolding(crate::specs::SoundFile::regs_of))]
fn regs(file: &[u8]) -> SpcRegs
    requires { 65920 ≤ length file.now }
    ensures { result ≡ regs_of file.now }
{
    SpcRegs {
        a: file[0x27],
        x: file[0x28],
        y: file[0x29],
        sp: file[0x2B],
        pc: u16::from(file[0x25]) + 256 * u16::from(file[0x26]),
        psw: file[0x2A],
    }
}

/// The bytes of the S-DSP in a file.
fn dsp(file: &[u8]) -> [u8; 128]
    requires { 65920 ≤ length file.now }
    ensures { result ≡ take 128 (drop 0x10100 file.now) }
{
    let Ok(bytes) = <[u8; 128]>::try_from(&file[DSP..DSP + 128]) else {
        unreachable!()
    };
    bytes
}

/// What a file holds.
#[tactic(auto, unfolding(crate::specs::SoundFile::image_of))]
fn image(alloc: Global, file: &[u8]) -> Result<SpcImage, NoMemory>
    requires { 65920 ≤ length file.now }
    ensures { IfOk result (λ image. image ≡ image_of file.now) }
{
    let Ok(ram) = Vec::from_slice(alloc, &file[RAM..DSP]) else {
        return Err(NoMemory);
    };
    Ok(SpcImage {
        regs: regs(file),
        ram,
        dsp: dsp(file),
    })
}

/// Reads a sound file. One of more than 1,048,576 bytes, of fewer than 65,920, or without the text is refused, by the
/// first of these. For an accepted file its RAM is allocated.
pub fn read_spc(alloc: Global, file: &[u8]) -> Result<SpcImage, SpcEnd>
    ensures image { IfOk result (λ image. image ≡ image_of file.now) }
    ensures accepted { OnOk result (refusal_of file.now ≡ None) }
    ensures refused { (why : SpcRefused) → result ≡ Err (SpcEnd.Refused why) ↔ refusal_of file.now ≡ Some why }
{
    if let Some(why) = refusal(file) {
        return Err(SpcEnd::Refused(why));
    }
    match image(alloc, file) {
        Ok(image) => Ok(image),
        Err(NoMemory) => Err(SpcEnd::NoMemory),
    }
}
