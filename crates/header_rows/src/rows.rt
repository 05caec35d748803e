//! What a file has afterwards, and why one is refused.

use cart_map::accept;
use header_writer::{HeaderRefused, write_header, write_least};
use snes_defs::MapKind;
use std::alloc::{AllocError, Global};

const SPACES: [u8; 21] = [b' '; 21];

/// Sets a byte of a file, if the file has it.
fn set(file: &mut [u8], place: usize, value: u8) {
    if let Some(byte) = file.get_mut(place) {
        *byte = value;
    }
}

/// A file of zeros, whose reset vector is 8000, behind a front of AA.
fn bare(alloc: Global, front: usize, size: usize) -> Result<Vec<u8>, AllocError> {
    let mut file = vec![in alloc; 0xaau8; front]?;
    file.resize(front.saturating_add(size), 0)?;
    set(file.as_mut_slice(), front.saturating_add(0x7ffd), 0x80);
    Ok(file)
}

/// The first place from which on two files differ, by at least one byte.
fn first_difference(one: &[u8], other: &[u8]) -> Option<usize> {
    (0..one.len().max(other.len())).find(|place| one.get(*place) != other.get(*place))
}

/// Whether a file has these bytes at a place.
fn has(file: &[u8], place: usize, bytes: &[u8]) -> bool {
    for (i, byte) in bytes.iter().enumerate() {
        if file.get(place.saturating_add(i)) != Some(byte) {
            return false;
        }
    }
    true
}

#[test]
fn a_whole_header(rt: HostRuntime) -> Result<(), AllocError> {
    // 80 of the vector, 21 spaces (2A0), 20, 05 and 01 of the fields, and FF twice: 544.
    for front in [0usize, 512] {
        let mut file = bare(rt.alloc(), front, 0x8000)?;
        let mut expected = file.clone()?;
        for (i, byte) in [0x20u8, 0, 5, 0, 1, 0, 0, 0xbb, 0xfa, 0x44, 0x05]
            .iter()
            .enumerate()
        {
            set(
                expected.as_mut_slice(),
                front.saturating_add(0x7fd5).saturating_add(i),
                *byte,
            );
        }
        for i in 0..21usize {
            set(
                expected.as_mut_slice(),
                front.saturating_add(0x7fc0).saturating_add(i),
                b' ',
            );
        }
        assert!(rt; write_header(file.as_mut_slice(), &SPACES) == Ok(()));
        assert!(rt; first_difference(file.as_slice(), expected.as_slice()).is_none());
        let Ok(cart) = accept(file) else {
            assert!(rt; false, "not accepted");
            return Ok(());
        };
        assert!(rt; cart.map == MapKind::LoRom && cart.ram == 0);
    }
    Ok(())
}

#[test]
fn four_bytes(rt: HostRuntime) -> Result<(), AllocError> {
    let mut file = vec![in rt.alloc(); 0x99u8; 0x8000]?;
    let before = file.clone()?;
    assert!(rt; write_header(file.as_mut_slice(), &SPACES) == Err(HeaderRefused::InUse));
    assert!(rt; first_difference(file.as_slice(), before.as_slice()).is_none());
    assert!(rt; write_least(file.as_mut_slice()) == Ok(()));
    assert!(rt; has(file.as_slice(), 0x7fd4, &[0x99, 0x20, 0, 5, 0, 0x99]));
    for place in 0x7fd5..0x7fd9usize {
        set(file.as_mut_slice(), place, 0x99);
    }
    assert!(rt; first_difference(file.as_slice(), before.as_slice()).is_none());
    Ok(())
}

#[test]
fn sizes_and_mirrors(rt: HostRuntime) -> Result<(), AllocError> {
    // The size, its byte, a place that has 01, and how often a console sees it. All else adds to 53F and the size byte.
    let rows = [
        (0x8000usize, 5u8, 0usize, 1u16),
        (0x8001, 6, 0x8000, 1),
        (0x1_0000, 6, 0x8000, 1),
        (0x1_8000, 7, 0xffff, 1),
        (0x1_8000, 7, 0x1_0000, 2),
        (0x2_8000, 8, 0x2_7fff, 4),
        (0x3_8000, 8, 0x2_0000, 1),
        (0x3_8000, 8, 0x3_0000, 2),
        (0x8_0000, 9, 0x7_ffff, 1),
        (0x10_0000, 10, 0xf_ffff, 1),
        (0x18_0000, 11, 0x17_ffff, 2),
        (0x30_0000, 12, 0x1f_ffff, 1),
        (0x30_0000, 12, 0x20_0000, 2),
        (0x40_0000, 12, 0x3f_ffff, 1),
    ];
    for (size, byte, place, seen) in rows {
        let mut file = bare(rt.alloc(), 0, size)?;
        set(file.as_mut_slice(), place, 1);
        assert!(rt; write_header(file.as_mut_slice(), &SPACES) == Ok(()));
        let sum = 0x53fu16.wrapping_add(u16::from(byte)).wrapping_add(seen);
        let low = (sum % 256) as u8;
        let high = (sum / 256) as u8;
        assert!(rt; has(file.as_slice(), 0x7fd7, &[byte]), "size {size}");
        assert!(rt;
            has(file.as_slice(), 0x7fdc, &[255 - low, 255 - high, low, high]),
            "sum {size} {place}"
        );
    }
    Ok(())
}

/// Why neither call writes into a file, if both agree.
fn refused(file: &mut [u8]) -> Option<HeaderRefused> {
    let least = write_least(file);
    let whole = write_header(file, &SPACES);
    match (least, whole) {
        (Err(one), Err(other)) if one == other => Some(one),
        _ => None,
    }
}

#[test]
fn lengths_and_the_vector(rt: HostRuntime) -> Result<(), AllocError> {
    for size in [0usize, 511, 512, 0x7fff, 0x8000 + 512 - 1024] {
        let mut file = bare(rt.alloc(), 0, size)?;
        assert!(rt;
            refused(file.as_mut_slice()) == Some(HeaderRefused::TooShort),
            "size {size}"
        );
    }
    for size in [0x40_0001usize, 0x40_0401] {
        let mut file = bare(rt.alloc(), 0, size)?;
        assert!(rt;
            refused(file.as_mut_slice()) == Some(HeaderRefused::TooLong),
            "size {size}"
        );
    }
    let mut file = bare(rt.alloc(), 512, 0x40_0000)?;
    assert!(rt; write_least(file.as_mut_slice()) == Ok(()));
    let mut file = bare(rt.alloc(), 0, 0x8000)?;
    set(file.as_mut_slice(), 0x7ffd, 0x7f);
    assert!(rt; refused(file.as_mut_slice()) == Some(HeaderRefused::Reset(0x7f)));
    Ok(())
}

#[test]
fn a_header_that_is_there(rt: HostRuntime) -> Result<(), AllocError> {
    // The size, the place of the map byte, the byte, and whether that is a header.
    let rows = [
        (0x8000usize, 0x7fd5usize, 0x20u8, true),
        (0x8000, 0x7fd5, 0x30, true),
        (0x8000, 0x7fd5, 0x21, false),
        (0x1_0000, 0xffd5, 0x21, true),
        (0x1_0000, 0xffd5, 0x31, true),
        (0x1_0000, 0xffd5, 0x20, false),
        (0xffd6, 0xffd5, 0x21, true),
    ];
    for (size, place, byte, is_header) in rows {
        let mut file = bare(rt.alloc(), 0, size)?;
        set(file.as_mut_slice(), place, byte);
        if is_header {
            assert!(rt;
                refused(file.as_mut_slice()) == Some(HeaderRefused::HasHeader),
                "{place} {byte}"
            );
        } else {
            assert!(rt;
                write_least(file.as_mut_slice()) == Ok(()),
                "{place} {byte}"
            );
        }
    }
    Ok(())
}
