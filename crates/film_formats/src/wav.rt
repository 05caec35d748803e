ghost use Rattle.std.specs.Prelude.{◌≡◌, ◌+◌, ◌<◌, ◌^◌, IfOk};
ghost use Rattle.film_formats.specs.Wav.{wav_header_of};

use crate::numbers::{push_little2, push_little4};
use std::alloc::{AllocError, Global};

/// The header of a WAV file with this many bytes of samples: 44 bytes.
pub fn wav_header(alloc: Global, bytes: u32) -> Result<Vec<u8>, AllocError>
    requires { 36 + bytes < 2 ^ 32 }
    ensures { IfOk result (λ v. v.items ≡ wav_header_of bytes) }
{
    let mut out = Vec::new(alloc);
    out.extend_from_slice(b"RIFF")?;
    push_little4(&mut out, 36 + bytes)?;
    out.extend_from_slice(b"WAVEfmt ")?;
    push_little4(&mut out, 16)?;
    push_little2(&mut out, 1)?;
    push_little2(&mut out, 2)?;
    push_little4(&mut out, 32_000)?;
    push_little4(&mut out, 128_000)?;
    push_little2(&mut out, 4)?;
    push_little2(&mut out, 16)?;
    out.extend_from_slice(b"data")?;
    push_little4(&mut out, bytes)?;
    Ok(out)
}
