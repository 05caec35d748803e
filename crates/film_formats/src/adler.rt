/// The two sums of Adler-32, of all bytes so far.
#[derive(Clone, Copy)]
pub struct Adler {
    /// 1 and the bytes, modulo 65521.
    pub plain: u16,
    /// The plain sums after each byte, modulo 65521.
    pub summed: u16,
}

impl Adler {
    ghost use Rattle.std.specs.Prelude.{◌≡◌};
    ghost use Rattle.film_formats.specs.Checksums.{adler_byte, adler_over, adler_start, adler_number};

    /// The sums of no bytes.
    pub fn new() -> Adler
        ensures { result ≡ adler_start }
    {
        Adler {
            plain: 1,
            summed: 0,
        }
    }

    /// The sums after one more byte.
    #[inline(always)]
    #[tactic(auto, unfolding(crate::specs::Checksums::adler_byte))]
    fn fed(self, byte: u8) -> Adler
        ensures { result ≡ adler_byte self byte }
    {
        let plain = (self.plain as u32 + byte as u32) % 65_521;
        Adler {
            plain: plain as u16,
            summed: ((self.summed as u32 + plain) % 65_521) as u16,
        }
    }

    /// The sums after these bytes too.
    pub fn fed_all(self, bytes: &[u8]) -> Adler
        ensures { result ≡ adler_over self bytes.now }
    {
        bytes.iter().fold(self, |sums, byte| sums.fed(*byte))
    }

    /// The number that is stored.
    pub fn number(self) -> u32
        ensures { result ≡ adler_number self }
    {
        65_536 * self.summed as u32 + self.plain as u32
    }
}
