use color_window::{inside, mix};
use picture_scenes::renew;
use ppu_line::draw;
use ppu_mode7::rotated_row;
use ppu_objects::obj_row;
use ppu_regs::{Dot, Ppu};
use snes_defs::{NoMemory, Profile};
use std::alloc::Global;
use std::test::Fail;
use tile_cache::TileCache;

const NOTHING: Dot = Dot {
    on: false,
    prio: 0,
    colour: 0,
    math: false,
};

fn unit(alloc: Global) -> Result<Ppu, Fail> {
    match Ppu::new(alloc, Profile::First) {
        Ok(p) => Ok(p),
        Err(NoMemory) => Err(Fail::from("no memory for a unit")),
    }
}

fn write(p: &mut Ppu, register: u8, v: u8) {
    let _word = p.write(register % 64, v);
}

fn writes(p: &mut Ppu, pairs: &[(u8, u8)]) {
    for pair in pairs {
        write(p, pair.0, pair.1);
    }
}

/// Writes an object's four bytes.
fn put_object(p: &mut Ppu, x: u8, y: u8) {
    writes(p, &[(0x04, x), (0x04, y), (0x04, 0), (0x04, 0)]);
}

/// Objects 0 to 2 of eight pixels and 3 to 6 of 64 on one row have 35 slivers, so the first object loses its one.
#[test]
fn thirty_five_slivers_lose_the_first_object(rt: HostRuntime) -> Result<(), Fail> {
    let mut p = unit(rt.alloc())?;
    writes(&mut p, &[(0x01, 0x40), (0x02, 0), (0x03, 0)]);
    put_object(&mut p, 200, 0);
    put_object(&mut p, 208, 0);
    put_object(&mut p, 216, 0);
    for _ in 3..7u8 {
        put_object(&mut p, 0, 0);
    }
    for _ in 7..128u8 {
        put_object(&mut p, 0, 240);
    }
    writes(&mut p, &[(0x04, 0x80), (0x04, 0x2a)]);
    writes(&mut p, &[(0x15, 0), (0x16, 0), (0x17, 0), (0x18, 0xff)]);
    let mut dots = [NOTHING; 256];
    let over = obj_row(&p, 0, &mut dots);
    let shown = [dots[200].on, dots[208].on, dots[216].on];
    assert_eq!(rt;
        ([over.time, over.range], shown),
        ([true, false], [false, true, true])
    );
    Ok(())
}

/// An unturned plane with one pixel of colour 5 in tile 0: every eighth pixel of the first row.
#[test]
fn mode_7_repeats_its_tile(rt: HostRuntime) -> Result<(), Fail> {
    let mut p = unit(rt.alloc())?;
    writes(
        &mut p,
        &[(0x05, 7), (0x1b, 0), (0x1b, 1), (0x1e, 0), (0x1e, 1)],
    );
    writes(
        &mut p,
        &[(0x15, 0x80), (0x16, 8), (0x17, 0), (0x18, 0), (0x19, 5)],
    );
    writes(&mut p, &[(0x21, 5), (0x22, 0x34), (0x22, 0x12)]);
    let mut dots = [NOTHING; 256];
    if p.registers().mode == 7 {
        rotated_row(&p, 1, 0, &mut dots);
    }
    for x in 0..256usize {
        let wanted = if x % 8 == 0 {
            (true, 0x1234)
        } else {
            (false, 0)
        };
        assert_eq!(rt; (dots[x].on, dots[x].colour), wanted);
    }
    Ok(())
}

/// A window from 10h to 20h holds both edges, and with its edges exchanged nothing.
#[test]
fn a_window_holds_its_edges(rt: HostRuntime) -> Result<(), Fail> {
    let mut p = unit(rt.alloc())?;
    // Between edges in the other order there is nothing.
    for (left, right) in [(0x10, 0x20), (0x20, 0x10)] {
        writes(&mut p, &[(0x23, 0x02), (0x26, left), (0x27, right)]);
        for x in 0..=255u8 {
            assert_eq!(rt; inside(&p, 1, x), x >= left && x <= right);
        }
    }
    Ok(())
}

/// Red 31 with the fixed colour blue 31, added and halved.
#[test]
fn half_of_red_and_blue(rt: HostRuntime) -> Result<(), Fail> {
    let mut p = unit(rt.alloc())?;
    writes(&mut p, &[(0x31, 0x41), (0x32, 0x9f)]);
    let red = Dot {
        on: true,
        prio: 0,
        colour: 0x001f,
        math: true,
    };
    assert_eq!(rt; mix(&p, 0, Some((1, red)), None), 0x3c0f);
    Ok(())
}

/// A tile whose left column is set, on every place of the map: every eighth pixel of the first row is white.
#[test]
fn the_first_row_of_text(rt: HostRuntime) -> Result<(), Fail> {
    let mut p = unit(rt.alloc())?;
    let mut tiles = match TileCache::new(rt.alloc()) {
        Ok(tiles) => tiles,
        Err(NoMemory) => return Err(Fail::from("no memory for a cache")),
    };
    writes(
        &mut p,
        &[(0x2c, 1), (0x07, 4), (0x15, 0x80), (0x16, 1), (0x17, 0)],
    );
    writes(
        &mut p,
        &[
            (0x18, 0x80),
            (0x19, 0),
            (0x21, 1),
            (0x22, 0xff),
            (0x22, 0x7f),
            (0x00, 0x0f),
        ],
    );
    renew(&p, &mut tiles);
    let mut out = [0u16; 512];
    let _first = draw(&p, &tiles, 1, &mut out);
    let first_row = out;
    let _second = draw(&p, &tiles, 2, &mut out);
    let mut wanted = [0u16; 512];
    for e in 0..512usize {
        if e / 2 % 8 == 0 {
            wanted[e] = 0x7fff;
        }
    }
    assert_eq!(rt; [first_row, out], [wanted, [0; 512]]);
    Ok(())
}
