ghost use Rattle.std.specs.Prelude.{◌≡◌, ◌+◌, ◌/◌, ◌%◌, ◌≤◌, [], ◌∷◌, ◌++◌, length};
ghost use Rattle.sound_file.specs.Bytes.{text, register_bytes, head_of, last_of, tail_of, sound_bytes};

use audio_side::AudioSide;
use spc_tables::SpcRegs;
use state_file::{StateBytes, put_shown};

/// The bytes of a sound file without tags.
pub const SOUND_FILE_BYTES: usize = 66_048;

/// The text with its version, twice 26, 27 for a file without tags, and the minor version.
const TEXT: &[u8; 37] = b"SNES-SPC700 Sound File Data v0.30\x1A\x1A\x1B\x1E";

/// The offset of the boot ROM in what the processor sees.
const BOOT_ROM: usize = 0xFFC0;

/// What a file begins with.
#[tactic(auto, unfolding(crate::specs::Bytes::text))]
fn first_text() -> &'static [u8]
    ensures bytes { result.now ≡ text }
    ensures size { length result.now ≡ 37 }
{
    TEXT.as_slice()
}

/// The registers of the SPC700 as a file has them.
#[tactic(auto, unfolding(crate::specs::Bytes::register_bytes))]
fn registers(regs: SpcRegs) -> [u8; 7]
    ensures bytes { result ≡ register_bytes regs }
    ensures size { length result ≡ 7 }
{
    [
        (regs.pc % 256) as u8,
        (regs.pc / 256) as u8,
        regs.a,
        regs.x,
        regs.y,
        regs.psw,
        regs.sp,
    ]
}

/// Puts the text, the registers and an empty area for tags.
#[tactic(auto, using(crate::proofs::Joined::three), unfolding(crate::specs::Bytes::head_of))]
fn put_head(to: &mut StateBytes, regs: SpcRegs)
    requires { length to.old.bytes + 256 ≤ to.old.room }
    ensures bytes { to.new.bytes ≡ to.old.bytes ++ head_of regs }
    ensures size { length to.new.bytes ≡ length to.old.bytes + 256 }
    ensures room { to.new.room ≡ to.old.room }
{
    to.add(first_text());
    to.add(&registers(regs));
    to.add_zeros(212);
}

/// The last 64 bytes of RAM, which the boot ROM may hide.
#[tactic(auto, unfolding(crate::specs::Bytes::last_of))]
fn last_of_ram(sound: &AudioSide) -> &[u8]
    ensures bytes { result.now ≡ last_of sound.now.hardware.ram }
    ensures size { length result.now ≡ 64 }
{
    &sound.ram()[BOOT_ROM..]
}

/// Puts what the registers of the S-DSP show, 64 zeros, and the last 64 bytes of RAM.
#[tactic(auto, using(crate::proofs::Joined::three), unfolding(crate::specs::Bytes::tail_of))]
fn put_tail(to: &mut StateBytes, sound: &AudioSide)
    requires { length to.old.bytes + 256 ≤ to.old.room }
    ensures bytes { to.new.bytes ≡ to.old.bytes ++ tail_of sound.now.hardware }
    ensures size { length to.new.bytes ≡ length to.old.bytes + 256 }
    ensures room { to.new.room ≡ to.old.room }
{
    put_shown(to, sound);
    to.add_zeros(64);
    to.add(last_of_ram(sound));
}

/// Puts the sound file of a sound side: with these registers of its processor, and these bytes at its incoming ports.
///
/// `ram` is room for 65,536 bytes; what is in it before doesn't matter, and it holds the RAM of the file afterwards.
#[tactic(auto, using(crate::proofs::Joined::three), unfolding(crate::specs::Bytes::sound_bytes))]
pub fn put_sound_file(
    to: &mut StateBytes,
    regs: SpcRegs,
    sound: &AudioSide,
    ports: [u8; 4],
    ram: &mut [u8],
)
    requires none { to.old.bytes ≡ [] }
    requires room { 66048 ≤ to.old.room }
    requires size { length ram.old ≡ 65536 }
    ensures { to.new.bytes ≡ sound_bytes regs sound.now.hardware ports }
{
    put_head(to, regs);
    sound.keep_ram(ports, ram);
    to.add(ram);
    put_tail(to, sound);
}
