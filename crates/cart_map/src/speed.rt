//! The master clocks of an access at each 24-bit address.
ghost use Rattle.std.specs.Prelude.{◌≡◌, ◌^◌, ◌<◌};
ghost use Rattle.cart_map.specs.Clocks.{clocks_of};

/// Returns the master clocks of an access at this 24-bit address: 6, 8 or 12.
///
/// `fast` is bit 0 of MEMSEL (420D). Source: fullsnes, "SNES Memory Speed"; the equal clocks of
/// reads and writes are those of the bus.
#[inline(always)]
pub fn clocks(addr: u32, fast: bool) -> u8
    requires { addr < 2 ^ 24 }
    ensures { result ≡ clocks_of addr fast }
{
    let bank = addr / 65536;
    let offset = addr % 65536;
    if bank % 128 >= 64 || offset >= 0x8000 {
        return if bank >= 128 && fast { 6 } else { 8 };
    }
    match offset / 0x1000 {
        0 | 1 => 8,
        2 | 3 => 6,
        4 => { if offset < 0x4200 { 12 } else { 6 } }
        5 => 6,
        _ => 8,
    }
}
