ghost use Rattle.std.specs.Prelude.{◌≡◌, ◌+◌, ◌<◌, ◌≤◌, ◌==◌, None, IfSome, length, position};
ghost use Rattle.sound_tags.specs.SoundFile.{refusal_of, up_to_zero, little4};

/// The text that a sound file begins with.
const TEXT: &[u8; 27] = b"SNES-SPC700 Sound File Data";

/// The most bytes that a sound file has.
const MOST: usize = 1_048_576;

/// The fewest bytes that it has: up to 64 bytes after the registers of the S-DSP.
const LEAST: usize = 65_920;

/// Why a file is not a sound file. The rules are those of `snes play`.
#[derive(Clone, Copy)]
pub enum NotSoundFile {
    /// The file has more than 1,048,576 bytes.
    TooLong,
    /// The file has fewer than 65,920 bytes.
    TooShort,
    /// The file does not begin with the 27 bytes `SNES-SPC700 Sound File Data`.
    NoText,
}

/// Returns why a file is not a sound file, or none if it is one.
#[tactic(auto, unfolding(crate::specs::SoundFile::refusal_of))]
pub fn refusal(file: &[u8]) -> Option<NotSoundFile>
    ensures why { result ≡ refusal_of file.now }
    ensures size { result ≡ None → 65920 ≤ length file.now }
{
    if file.len() > MOST {
        return Some(NotSoundFile::TooLong);
    }
    if file.len() < LEAST {
        return Some(NotSoundFile::TooShort);
    }
    if &file[..27] != TEXT.as_slice() {
        return Some(NotSoundFile::NoText);
    }
    None
}

/// A number of four bytes at an offset, the low byte first.
pub(crate) fn four_at(file: &[u8], at: usize) -> u32
    requires { at + 4 ≤ length file.now }
    ensures { result ≡ little4 file.now at }
{
    u32::from(file[at])
        + 0x100 * u32::from(file[at + 1])
        + 0x1_0000 * u32::from(file[at + 2])
        + 0x100_0000 * u32::from(file[at + 3])
}

/// The place of the first zero.
fn first_zero(bytes: &[u8]) -> Option<usize>
    ensures place { result ≡ position (λ byte. byte == 0) bytes.now }
    ensures inside { IfSome result (λ place. place < length bytes.now) }
{
    bytes.iter().position(|byte| *byte == 0)
}

/// The bytes before the first zero, or all if there is none.
pub(crate) fn before_zero(bytes: &[u8]) -> &[u8]
    ensures { result.now ≡ up_to_zero bytes.now }
{
    let end = first_zero(bytes).unwrap_or(bytes.len());
    &bytes[..end]
}
