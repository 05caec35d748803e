//! The checksum of an image, and the size byte that goes with it.
ghost use Rattle.std.specs.Prelude.{◌≡◌, ◌*◌, ◌%◌, ◌^◌, ◌≤◌, sum};
ghost use Rattle.header_writer.specs.Checksum.{doublings, size_byte, seen_sum, checksum};

/// Returns how often 32 KiB are doubled until an image of `size` bytes fits in.
#[tactic(auto, unfolding(crate::specs::Checksum::doublings))]
fn doublings(size: usize) -> u8
    ensures doublings { result ≡ doublings size }
    ensures most { result ≤ 7 }
{
    if size <= 0x8000 {
        0
    } else if size <= 0x1_0000 {
        1
    } else if size <= 0x2_0000 {
        2
    } else if size <= 0x4_0000 {
        3
    } else if size <= 0x8_0000 {
        4
    } else if size <= 0x10_0000 {
        5
    } else if size <= 0x20_0000 {
        6
    } else {
        7
    }
}

/// Returns the ROM size byte for an image of `size` bytes.
pub(crate) fn size_byte(size: usize) -> u8
    ensures { result ≡ size_byte size }
{
    5 + doublings(size)
}

/// Returns the bytes of 32 KiB that are doubled so many times.
fn window(doubled: u8) -> usize
    requires { doubled ≤ 7 }
    ensures { result ≡ 32768 * 2 ^ doubled }
{
    match doubled {
        0 => 0x8000,
        1 => 0x1_0000,
        2 => 0x2_0000,
        3 => 0x4_0000,
        4 => 0x8_0000,
        5 => 0x10_0000,
        6 => 0x20_0000,
        7 => 0x40_0000,
        _ => unreachable!(),
    }
}

/// Returns the sum of bytes, modulo 65,536.
fn sum_of(bytes: &[u8]) -> u16
    ensures { result ≡ sum bytes.now % 65536 }
{
    let mut total = 0u16;
    for byte in bytes {
        total = total.wrapping_add(u16::from(*byte));
    }
    total
}

/// Returns the sum, modulo 65,536, of all bytes that are seen through a window that is 32 KiB, doubled so many times.
#[tactic(auto, using(crate::proofs::Sums::seen_sum_at, crate::proofs::Sums::seen_sum_page))]
fn seen_sum(doubled: u8, window: usize, bytes: &[u8]) -> u16
    ensures { result ≡ seen_sum doubled window bytes.now % 65536 }
{
    if doubled == 0 {
        return sum_of(bytes);
    }
    let half = window / 2;
    if bytes.len() <= half {
        let once = seen_sum(doubled - 1, half, bytes);
        return once.wrapping_add(once);
    }
    let (first, rest) = bytes.split_at(half);
    sum_of(first).wrapping_add(seen_sum(doubled - 1, half, rest))
}

/// Returns the checksum of an image, as a header states it.
#[tactic(auto, unfolding(crate::specs::Checksum::checksum))]
pub(crate) fn checksum(image: &[u8]) -> u16
    ensures { result ≡ checksum image.now }
{
    let doubled = doublings(image.len());
    seen_sum(doubled, window(doubled), image)
}
