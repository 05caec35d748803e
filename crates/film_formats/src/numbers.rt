ghost use Rattle.std.specs.Prelude.{◌≡◌, ◌++◌, OnOk};
ghost use Rattle.film_formats.specs.Numbers.{little2, little4, little8, big4};

use std::alloc::AllocError;

/// Adds the two bytes of a number, low byte first.
pub fn push_little2(out: &mut Vec<u8>, number: u16) -> Result<(), AllocError>
    ensures { OnOk result (out.new.items ≡ out.old.items ++ little2 number) }
{
    out.extend_from_slice(&[(number % 256) as u8, (number / 256 % 256) as u8])
}

/// Adds the four bytes of a number, low byte first.
pub fn push_little4(out: &mut Vec<u8>, number: u32) -> Result<(), AllocError>
    ensures { OnOk result (out.new.items ≡ out.old.items ++ little4 number) }
{
    out.extend_from_slice(&[
        (number % 256) as u8,
        (number / 256 % 256) as u8,
        (number / 65_536 % 256) as u8,
        (number / 16_777_216 % 256) as u8,
    ])
}

/// Adds the four bytes of a number, high byte first.
pub fn push_big4(out: &mut Vec<u8>, number: u32) -> Result<(), AllocError>
    ensures { OnOk result (out.new.items ≡ out.old.items ++ big4 number) }
{
    out.extend_from_slice(&[
        (number / 16_777_216 % 256) as u8,
        (number / 65_536 % 256) as u8,
        (number / 256 % 256) as u8,
        (number % 256) as u8,
    ])
}

/// Adds the low four bytes of a number, low byte first.
pub fn push_low4(out: &mut Vec<u8>, number: u64) -> Result<(), AllocError>
    ensures { OnOk result (out.new.items ≡ out.old.items ++ little4 number) }
{
    out.extend_from_slice(&[
        (number % 256) as u8,
        (number / 256 % 256) as u8,
        (number / 65_536 % 256) as u8,
        (number / 16_777_216 % 256) as u8,
    ])
}

/// Adds the eight bytes of a number, low byte first.
pub fn push_little8(out: &mut Vec<u8>, number: u64) -> Result<(), AllocError>
    ensures { OnOk result (out.new.items ≡ out.old.items ++ little8 number) }
{
    out.extend_from_slice(&[
        (number % 256) as u8,
        (number / 256 % 256) as u8,
        (number / 65_536 % 256) as u8,
        (number / 16_777_216 % 256) as u8,
        (number / 4_294_967_296 % 256) as u8,
        (number / 1_099_511_627_776 % 256) as u8,
        (number / 281_474_976_710_656 % 256) as u8,
        (number / 72_057_594_037_927_936 % 256) as u8,
    ])
}
