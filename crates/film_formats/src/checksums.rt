ghost use Rattle.std.specs.Prelude.{◌≡◌, ◌<◌, ◌^◌, ◌-◌, ◌+◌, ◌*◌};
ghost use Rattle.film_formats.specs.Checksums.{crc_bit, crc_byte, crc_over, crc_of};

/// One bit of the division by the polynomial of CRC-32.
#[inline(always)]
fn divided(crc: u32) -> u32
    ensures { result ≡ crc_bit crc }
{
    if crc % 2 == 1 {
        (crc / 2) ^ 0xedb8_8320
    } else {
        crc / 2
    }
}

/// A CRC after one more byte.
#[inline(always)]
#[tactic(auto, unfolding(crate::specs::Checksums::crc_byte))]
fn fed(crc: u32, byte: u8) -> u32
    ensures { result ≡ crc_byte crc byte }
{
    let first = crc ^ byte as u32;
    divided(divided(divided(divided(divided(divided(divided(divided(first))))))))
}

/// A CRC after these bytes too.
pub fn crc_fed(crc: u32, bytes: &[u8]) -> u32
    ensures { result ≡ crc_over crc bytes.now }
{
    bytes.iter().fold(crc, |crc, byte| fed(crc, *byte))
}

/// The CRC-32 of a chunk of PNG, over its kind and its bytes.
pub fn crc_of_chunk(kind: &[u8], bytes: &[u8]) -> u32
    ensures { result ≡ crc_of kind.now bytes.now }
{
    u32::MAX - crc_fed(crc_fed(u32::MAX, kind), bytes)
}
