use cart_map::{CartEnd, accept};
use demo_files::{demo_boot_rom, demo_table, image};
use input_files::{ScriptEnd, read_boot, read_script, read_table};
use snes_defs::{MapKind, NoMemory, Profile, Region, Spans};
use std::alloc::Global;
use std::process::Abort;
use std::test::Fail;

/// Returns the line at which a script is refused, or 0 if it is accepted.
fn refused_at(alloc: Global, text: &str) -> Option<u32> {
    match read_script(alloc, text.as_bytes()) {
        Ok(_) => Some(0),
        Err(ScriptEnd::Line(line)) => Some(line),
        Err(ScriptEnd::NoMemory) => None,
    }
}

/// Asserts the line at which each of these scripts is refused, 0 if it is accepted.
fn expect_refused<R: Abort>(rt: &R, alloc: Global, rows: &[(&str, u32)]) {
    for (text, line) in rows {
        assert_eq!(rt; refused_at(alloc, text), Some(*line), "{text:?}");
    }
}

/// Returns the script of a text that is accepted.
fn script(alloc: Global, text: &str) -> Option<Spans> {
    read_script(alloc, text.as_bytes()).ok()
}

/// Returns the region and the profile of a script that is accepted.
fn kind_of(alloc: Global, text: &str) -> Option<(Region, Profile)> {
    let read = script(alloc, text)?;
    Some((read.region(), read.profile()))
}

#[test]
fn a_boot_rom_has_64_bytes(rt: HostRuntime) {
    let found = [
        read_boot(&[0xefu8; 63]),
        read_boot(&[0xefu8; 64]),
        read_boot(&[0xefu8; 65]),
    ];
    assert_eq!(rt; found, [None, Some([0xefu8; 64]), None]);
}

/// Returns the entry at which a table is refused.
fn refused_entry(file: &[u8]) -> Option<u16> {
    read_table(file).err()
}

#[test]
fn a_table_is_refused_at_its_first_large_entry(rt: HostRuntime) {
    let mut file = [0u8; 1024];
    file[1022] = 0xff;
    file[1023] = 0x07;
    let largest = read_table(&file).map(|table| table.at(511)).unwrap_or(0);
    file[1022] = 0x00;
    file[1023] = 0x08;
    let last = refused_entry(&file);
    file[9] = 0x80;
    let found = [last, refused_entry(&file), refused_entry(&file[..1023])];
    assert_eq!(rt; (largest, found), (2047, [Some(511), Some(4), Some(512)]));
}

#[test]
fn spans_follow_one_another(rt: HostRuntime) -> Result<(), Fail> {
    let read = script(rt.alloc(), "2 8000 0000\n1 00F0 0000").ok_or("refused")?;
    let pads = [read.pads(0), read.pads(1), read.pads(2), read.pads(3)];
    assert_eq!(rt;
        (read.region(), pads),
        (
            Region::Ntsc,
            [(0x8000, 0), (0x8000, 0), (0x00f0, 0), (0, 0)]
        )
    );
    Ok(())
}

#[test]
fn low_bits_of_a_pad_count_as_0(rt: HostRuntime) -> Result<(), Fail> {
    let read = script(rt.alloc(), "1   abcF  FFFF\r\n").ok_or("refused")?;
    assert_eq!(rt; read.pads(0), (0xabc0, 0xfff0));
    Ok(())
}

#[test]
fn the_first_bad_line_is_told(rt: HostRuntime) {
    let rows = [
        ("", 0),
        ("\n\r\n36000 0000 0000\n", 0),
        ("1 80 0", 1),
        ("20000 0000 0000\n20000 0000 0000", 2),
        ("1 0000 0000\n 1 0000 0000", 2),
        ("1 0000 0000 ", 1),
        ("1 0000 0000\r", 1),
        ("1\t0000 0000", 1),
        ("000001 0000 0000", 1),
        ("\n\n  ", 3),
        ("0 0000 0000", 0),
    ];
    expect_refused(&rt, rt.alloc(), &rows);
}

#[test]
fn a_first_line_names_version_and_region(rt: HostRuntime) -> Result<(), Fail> {
    let rows = [
        ("\nversion 2 pal", 2),
        ("version 2 Ntsc", 1),
        ("version 2 ntsc\nversion 2 ntsc", 2),
    ];
    expect_refused(&rt, rt.alloc(), &rows);
    let pal = script(rt.alloc(), "version 2 pal").ok_or("refused")?;
    assert_eq!(rt; pal.region(), Region::Pal);
    Ok(())
}

#[test]
fn version_3_names_the_second_profile(rt: HostRuntime) -> Result<(), Fail> {
    let alloc = rt.alloc();
    let text = "version 3 pal\r\n2 8000 0000\nreset\n";
    let rows = [
        ("", Region::Ntsc, Profile::First),
        ("version 2 pal", Region::Pal, Profile::First),
        ("version 3 ntsc", Region::Ntsc, Profile::Second),
        (text, Region::Pal, Profile::Second),
    ];
    for (text, region, profile) in rows {
        assert_eq!(rt; kind_of(alloc, text), Some((region, profile)), "{text:?}");
    }
    let pal = script(alloc, text).ok_or("refused")?;
    assert_eq!(rt; (pal.pads(1), pal.resets(2)), ((0x8000, 0), true));
    Ok(())
}

#[test]
fn a_version_has_one_form(rt: HostRuntime) {
    let rows = [
        ("version 3", 1),
        ("version 4 ntsc", 1),
        ("version 1 ntsc", 1),
        ("version 3 PAL", 1),
        ("version  3 ntsc", 1),
        ("version 3 ntsc ", 1),
        ("\nversion 3 ntsc", 2),
        ("version 3 ntsc\nversion 3 ntsc", 2),
        ("version 3 ntsc\nreset", 2),
    ];
    expect_refused(&rt, rt.alloc(), &rows);
}

#[test]
fn resets_stand_at_new_sums_above_0(rt: HostRuntime) -> Result<(), Fail> {
    let rows = [
        ("version 2 ntsc\nreset", 2),
        ("reset", 1),
        ("version 2 pal\n1 0000 0000\nreset\n0 0000 0000\nreset", 5),
    ];
    expect_refused(&rt, rt.alloc(), &rows);
    let read = script(
        rt.alloc(),
        "version 2 ntsc\n1 0000 0000\nreset\n2 0000 0000\nreset",
    )
    .ok_or("refused")?;
    let resets = [
        read.resets(0),
        read.resets(1),
        read.resets(2),
        read.resets(3),
    ];
    assert_eq!(rt; resets, [false, true, false, true]);
    Ok(())
}

#[test]
fn the_image_of_a_number_is_a_cartridge(rt: HostRuntime) -> Result<(), Fail> {
    let bytes = image(rt.alloc(), 0).map_err(|_: NoMemory| "no memory")?;
    let found = (bytes.len(), bytes[0], bytes[0x8000]);
    let cart = accept(bytes).map_err(|_: CartEnd| "refused")?;
    assert_eq!(rt;
        (found, cart.map, cart.ram),
        ((524_288, 0x78, 0x3c), MapKind::LoRom, 0)
    );
    Ok(())
}

#[test]
fn the_demo_has_a_boot_rom_and_a_ramp(rt: HostRuntime) {
    let boot = demo_boot_rom();
    let ends = [boot[0], boot[62], boot[63]];
    assert_eq!(rt; (ends, demo_table().at(511)), ([0x8f, 0xc0, 0xff], 1022));
}
