// What differs between the two profiles in the picture, in cases computed by hand.
use picture_scenes::renew;
use ppu_line::draw;
use ppu_objects::obj_row;
use ppu_regs::{Dot, Ppu};
use snes_defs::{NoMemory, Profile, Spot};
use std::alloc::Global;
use std::test::Fail;
use tile_cache::TileCache;

const NOTHING: Dot = Dot {
    on: false,
    prio: 0,
    colour: 0,
    math: false,
};

fn unit(alloc: Global, profile: Profile) -> Result<Ppu, Fail> {
    match Ppu::new(alloc, profile) {
        Ok(p) => Ok(p),
        Err(NoMemory) => Err(Fail::from("no memory for a unit")),
    }
}

fn writes(p: &mut Ppu, pairs: &[(u8, u8)]) {
    for pair in pairs {
        let _word = p.write(pair.0 % 64, pair.1);
    }
}

/// Sets up one object at the top left, turned top to bottom. Its line 11 has value 1, its line 27 value 2, in their
/// first eight pixels: line 3 of tile 10h is at word 103h, line 3 of tile 30h at word 303h. Value 1 has the colour
/// 1111, value 2 the colour 2222. The other objects are on row 200 and below.
fn put_turned_object(p: &mut Ppu, size_code: u8, large: bool) {
    writes(p, &[(0x01, 32 * (size_code % 8)), (0x02, 0), (0x03, 0)]);
    writes(p, &[(0x04, 0), (0x04, 0), (0x04, 0), (0x04, 0x80)]);
    for _ in 1..128u8 {
        writes(p, &[(0x04, 0), (0x04, 200), (0x04, 0), (0x04, 0)]);
    }
    writes(p, &[(0x02, 0), (0x03, 1)]);
    writes(p, &[(0x04, if large { 2 } else { 0 }), (0x04, 0)]);
    writes(p, &[(0x15, 0x80), (0x16, 0x03), (0x17, 1)]);
    writes(p, &[(0x18, 0xff), (0x19, 0), (0x16, 0x03), (0x17, 3)]);
    writes(p, &[(0x18, 0), (0x19, 0xff), (0x21, 129)]);
    writes(p, &[(0x22, 0x11), (0x22, 0x11), (0x22, 0x22), (0x22, 0x22)]);
}

/// Returns the colour at the left of a row of objects, if an object shows anything there.
fn colour_at_left(p: &Ppu, row: u16) -> Option<u16> {
    if row >= 239 {
        return None;
    }
    let mut dots = [NOTHING; 256];
    let _over = obj_row(p, row, &mut dots);
    if dots[0].on {
        Some(dots[0].colour)
    } else {
        None
    }
}

/// Sets up the object (`put_turned_object`), and returns the colours at the left of four rows.
fn colours_of_turned_object(
    p: &mut Ppu,
    size_code: u8,
    large: bool,
    rows: [u16; 4],
) -> [Option<u16>; 4] {
    put_turned_object(p, size_code, large);
    [
        colour_at_left(p, rows[0]),
        colour_at_left(p, rows[1]),
        colour_at_left(p, rows[2]),
        colour_at_left(p, rows[3]),
    ]
}

/// In the first profile an object of 16 by 32 is turned over as a whole: row r shows line 31 - r.
#[test]
fn first_profile_turns_an_upright_object_as_a_whole(rt: HostRuntime) -> Result<(), Fail> {
    let mut p = unit(rt.alloc(), Profile::First)?;
    for size_code in 6..8u8 {
        let colours = colours_of_turned_object(&mut p, size_code, false, [4, 20, 11, 27]);
        assert_eq!(rt; colours, [Some(0x2222), Some(0x1111), None, None]);
    }
    Ok(())
}

/// In the second profile its halves are turned in their places. Row r shows line 15 - r, from row 16 on line 47 - r.
#[test]
fn second_profile_turns_each_half_of_an_upright_object(rt: HostRuntime) -> Result<(), Fail> {
    let mut p = unit(rt.alloc(), Profile::Second)?;
    for size_code in 6..8u8 {
        let colours = colours_of_turned_object(&mut p, size_code, false, [4, 20, 11, 27]);
        assert_eq!(rt; colours, [Some(0x1111), Some(0x2222), None, None]);
    }
    Ok(())
}

/// A large object of code 6 has 32 by 64 pixels. Turned as a whole, line 11 is on row 52 and line 27 on row 36. Turned
/// by halves, they are on rows 20 and 4.
#[test]
fn an_object_of_32_by_64_is_turned_by_the_profile(rt: HostRuntime) -> Result<(), Fail> {
    let rows = [52, 36, 20, 4];
    let first = [Some(0x1111), Some(0x2222), None, None];
    let second = [None, None, Some(0x1111), Some(0x2222)];
    for (profile, wanted) in [(Profile::First, first), (Profile::Second, second)] {
        let mut p = unit(rt.alloc(), profile)?;
        let colours = colours_of_turned_object(&mut p, 6, true, rows);
        assert_eq!(rt; colours, wanted, "{profile:?}");
    }
    Ok(())
}

/// A large object of code 7 has 32 by 32 pixels, and is turned over as a whole in both profiles.
#[test]
fn a_square_object_is_turned_as_a_whole(rt: HostRuntime) -> Result<(), Fail> {
    for profile in [Profile::First, Profile::Second] {
        let mut p = unit(rt.alloc(), profile)?;
        let colours = colours_of_turned_object(&mut p, 7, true, [4, 20, 11, 27]);
        assert_eq!(rt; colours, [Some(0x2222), Some(0x1111), None, None]);
    }
    Ok(())
}

/// Draws the first row, and returns its dots 100 and 101: an even one and an odd one.
fn two_dots(alloc: Global, p: &Ppu) -> Result<(u16, u16), Fail> {
    let mut tiles = match TileCache::new(alloc) {
        Ok(tiles) => tiles,
        Err(NoMemory) => return Err(Fail::from("no memory for a cache")),
    };
    renew(p, &mut tiles);
    let mut out = [0u16; 512];
    let _over = draw(p, &tiles, 1, &mut out);
    Ok((out[100], out[101]))
}

/// Sets up a picture without layers at full brightness: CGRAM 0 is 1234 (red 20, green 17, blue 4), the fixed colour is
/// blue 31.
fn put_no_layers(p: &mut Ppu) {
    writes(p, &[(0x00, 0x0f), (0x21, 0), (0x22, 0x34), (0x22, 0x12)]);
    writes(p, &[(0x32, 0x9f)]);
}

/// Returns the two dots of a picture without layers, in this profile and with these settings.
fn dots_of_no_layer(
    alloc: Global,
    profile: Profile,
    settings: &[(u8, u8)],
) -> Result<(u16, u16), Fail> {
    let mut p = unit(alloc, profile)?;
    put_no_layers(&mut p);
    writes(&mut p, settings);
    two_dots(alloc, &p)
}

/// Where the sub screen is empty an even dot has the fixed colour in the first profile, CGRAM 0 in the second: with
/// half dots, and in modes 5 and 6.
#[test]
fn an_even_dot_of_no_layer_has_the_profiles_colour(rt: HostRuntime) -> Result<(), Fail> {
    for setting in [(0x33u8, 0x08u8), (0x05, 5), (0x05, 6)] {
        let first = dots_of_no_layer(rt.alloc(), Profile::First, &[setting])?;
        let second = dots_of_no_layer(rt.alloc(), Profile::Second, &[setting])?;
        assert_eq!(rt; [first, second], [(0x7c00, 0x1234), (0x1234, 0x1234)]);
    }
    Ok(())
}

/// Arithmetic on an odd dot has the fixed colour as its operand in both profiles, even if it asks for the sub screen:
/// blue becomes 4 + 31, cut to 31.
#[test]
fn an_odd_dot_takes_the_fixed_colour_in_both_profiles(rt: HostRuntime) -> Result<(), Fail> {
    let settings = [(0x33, 0x08), (0x30, 0x02), (0x31, 0x20)];
    let first = dots_of_no_layer(rt.alloc(), Profile::First, &settings)?;
    let second = dots_of_no_layer(rt.alloc(), Profile::Second, &settings)?;
    assert_eq!(rt; [first, second], [(0x7c00, 0x7e34), (0x1234, 0x7e34)]);
    Ok(())
}

/// Puts BG1 on the sub screen alone, with half dots: all of its tile 0 in colour 3, which is 5555.
fn put_layer_below(p: &mut Ppu) {
    writes(p, &[(0x33, 0x08), (0x2d, 1), (0x07, 4), (0x15, 0x80)]);
    writes(p, &[(0x16, 0), (0x17, 0)]);
    for _ in 0..8u8 {
        writes(p, &[(0x18, 0xff), (0x19, 0xff)]);
    }
    writes(p, &[(0x21, 3), (0x22, 0x55), (0x22, 0x55)]);
}

/// Returns the two dots of a picture with a layer on its sub screen alone, in this profile.
fn dots_of_a_layer_below(alloc: Global, profile: Profile) -> Result<(u16, u16), Fail> {
    let mut p = unit(alloc, profile)?;
    put_no_layers(&mut p);
    put_layer_below(&mut p);
    two_dots(alloc, &p)
}

/// Pixels of one colour on the sub screen hide CGRAM 0 from the even dots.
#[test]
fn an_even_dot_of_a_layer_has_its_colour_in_both_profiles(rt: HostRuntime) -> Result<(), Fail> {
    for profile in [Profile::First, Profile::Second] {
        let dots = dots_of_a_layer_below(rt.alloc(), profile)?;
        assert_eq!(rt; dots, (0x5555, 0x1234));
    }
    Ok(())
}

/// Makes four writes of VRAM, each right after one that VRAM does not take, and returns the words that they change. The
/// address is 5 at first. It steps by 1 after a low byte, and then by 32 after a high one.
fn words_after_passed_writes(p: &mut Ppu) -> [Option<u16>; 4] {
    writes(p, &[(0x15, 0x00), (0x16, 5), (0x17, 0)]);
    p.pass_vram(0x18);
    let first = p.write(0x18, 0x77);
    p.pass_vram(0x19);
    let second = p.write(0x18, 0x77);
    writes(p, &[(0x15, 0x81)]);
    p.pass_vram(0x18);
    let third = p.write(0x19, 0x66);
    p.pass_vram(0x19);
    let fourth = p.write(0x19, 0x66);
    [first, second, third, fourth]
}

/// A write that VRAM does not take steps the address by bit 7 of 2115, and writes no word.
#[test]
fn a_passed_write_steps_the_address_alone(rt: HostRuntime) -> Result<(), Fail> {
    let mut p = unit(rt.alloc(), Profile::Second)?;
    let words = words_after_passed_writes(&mut p);
    let vram = p.vram();
    let low = [vram[5], vram[6], vram[7], vram[8]];
    let high = [vram[40], vram[72], vram[104]];
    assert_eq!(rt;
        (words, low, high),
        (
            [Some(6), Some(7), Some(8), Some(72)],
            [0, 0x77, 0x77, 0x6600],
            [0, 0x6600, 0]
        )
    );
    Ok(())
}

/// Latches dot 100 and line 257, and returns what is read then: both counters twice, and bit 6 of 213F twice.
fn reads_after_latch(p: &mut Ppu) -> [u8; 6] {
    let then = Spot {
        h: 400,
        v: 257,
        blank: true,
    };
    let now = Spot {
        h: 0,
        v: 0,
        blank: false,
    };
    p.latch(then);
    [
        p.read(0x3c, 0, now),
        p.read(0x3c, 0, now),
        p.read(0x3d, 0, now),
        p.read(0x3d, 0, now),
        p.read(0x3f, 0, now) / 64 % 2,
        p.read(0x3f, 0, now) / 64 % 2,
    ]
}

/// A latch keeps the dot 400 / 4 and line 257, and sets bit 6 of 213F.
#[test]
fn a_latch_keeps_both_counters(rt: HostRuntime) -> Result<(), Fail> {
    let mut p = unit(rt.alloc(), Profile::Second)?;
    let found = reads_after_latch(&mut p);
    assert_eq!(rt; found, [100, 0, 1, 1, 1, 0]);
    Ok(())
}
