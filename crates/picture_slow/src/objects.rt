//! Draws the objects of a row.

ghost use Rattle.std.specs.Prelude.{◌≡◌, ◌<◌, ◌≤◌};

use crate::memory::{Seen, palette_colour, tile_pixel};
use ppu_regs::{Over, Ppu};
use snes_defs::Profile;

/// The most objects of a row, and the most slivers of eight pixels.
const MOST_OBJECTS: usize = 32;

const MOST_PIECES: u32 = 34;

/// Width and height in pixels.
#[derive(Clone, Copy)]
struct Size {
    width: u32,
    height: u32,
}

fn square(side: u32) -> Size
    requires { side ≤ 64 }
    ensures width { result.width ≤ 64 }
    ensures height { result.height ≤ 64 }
{
    Size {
        width: side,
        height: side,
    }
}

fn upright(width: u32) -> Size
    requires { width ≤ 32 }
    ensures width { result.width ≤ 64 }
    ensures height { result.height ≤ 64 }
{
    Size {
        width,
        height: 2 * width,
    }
}

/// Returns the size of small or large objects by the size code.
fn size_of(code: u8, is_large: bool) -> Size
    ensures width { result.width ≤ 64 }
    ensures height { result.height ≤ 64 }
{
    match (code, is_large) {
        (0 | 1 | 2, false) => square(8),
        (3 | 4, false) => square(16),
        (5, false) => square(32),
        (_, false) => upright(16),
        (0, true) => square(16),
        (1 | 3 | 7, true) => square(32),
        (6, true) => upright(32),
        (_, true) => square(64),
    }
}

/// An object as OAM has it.
#[derive(Clone, Copy)]
struct Object {
    /// The column of its left edge in nine bits: from 256 on it begins left of the screen, at `x - 512`.
    x: u32,
    /// The row of its first line; below row 255 it continues at row 0.
    y: u32,
    size: Size,
    tile: u32,
    /// Bits: 7 turned over top to bottom, 6 left to right, 5-4 priority, 3-1 palette, 0 second table.
    attributes: u32,
}

/// Returns the object of a number, 0 to 127.
fn object_of(p: &Ppu, number: u32) -> Object
    ensures x { result.x < 512 }
    ensures y { result.y < 256 }
    ensures width { result.size.width ≤ 64 }
    ensures height { result.size.height ≤ 64 }
    ensures tile { result.tile < 256 }
    ensures attributes { result.attributes < 256 }
{
    let oam = p.oam();
    let at = 4 * (number % 128) as usize;
    let both_bits = (oam[512 + at / 16] >> (2 * (number % 4))) as u32;
    Object {
        x: oam[at] as u32 + 256 * (both_bits % 2),
        y: oam[at + 1] as u32,
        size: size_of(p.registers().object_tiles.size, both_bits / 2 % 2 == 1),
        tile: oam[at + 2] as u32,
        attributes: oam[at + 3] as u32,
    }
}

/// Returns the line of the object that is on a row, if one is.
fn line_on(object: &Object, row: u32) -> Option<u32>
    requires y { object.now.y < 256 }
    requires row { row < 256 }
{
    let line = (row + 256 - object.y) % 256;
    if line < object.size.height {
        Some(line)
    } else {
        None
    }
}

/// Whether any pixel of a sliver of eight is on the screen.
fn is_on_screen(object: &Object, sliver: u32) -> bool
    requires x { object.now.x < 512 }
    requires sliver { sliver < 8 }
{
    let left = object.x + 8 * sliver;
    left < 256 || object.x >= 256 && left + 7 >= 512
}

/// Returns how many of the first `sliver` slivers of an object are on the screen.
fn slivers_before(object: &Object, sliver: u32) -> u32
    requires x { object.now.x < 512 }
    requires sliver { sliver ≤ 8 }
{
    let mut count = 0u32;
    for earlier in 0..8u32 {
        if earlier < sliver && is_on_screen(object, earlier) {
            count = count.saturating_add(1);
        }
    }
    count
}

fn slivers_of(object: &Object) -> u32
    requires x { object.now.x < 512 }
    requires width { object.now.size.width ≤ 64 }
{
    slivers_before(object, object.size.width / 8)
}

/// An object that a row shows, and how many of its slivers on the screen, from the left.
#[derive(Clone, Copy)]
struct Shown {
    number: u32,
    slivers: u32,
}

/// The objects of a row, the front one first.
#[derive(Clone, Copy)]
struct Objects {
    shown: [Shown; MOST_OBJECTS],
    count: usize,
    over: Over,
}

/// What the objects of a row show at each pixel, and which limits they exceed.
#[derive(Clone, Copy)]
pub struct ObjectRow {
    /// What the objects show at each pixel, if anything.
    pub seen: [Option<Seen>; 256],
    /// The limits that they exceed.
    pub over: Over,
}

/// Returns the first objects, in turn, that are on a row.
fn standing(p: &Ppu, row: u32) -> Objects
    requires { row < 256 }
{
    let mut objects = Objects {
        shown: [Shown {
            number: 0,
            slivers: 0,
        }; MOST_OBJECTS],
        count: 0,
        over: Over {
            range: false,
            time: false,
        },
    };
    let oam = p.registers().oam;
    let first = if oam.rotates { oam.word as u32 / 2 } else { 0 };
    for turn in 0..128u32 {
        let number = (first + turn) % 128;
        let object = object_of(p, number);
        let slivers = slivers_of(&object);
        if line_on(&object, row).is_some() && slivers > 0 {
            if objects.count < MOST_OBJECTS {
                objects.shown[objects.count] = Shown { number, slivers };
                objects.count += 1;
            } else {
                objects.over.range = true;
            }
        }
    }
    objects
}

/// Returns the objects of a row with the slivers that are left to each: the last object takes its own first.
fn objects_of(p: &Ppu, row: u16) -> Objects
    requires { row < 239 }
{
    let mut objects = standing(p, row as u32);
    let mut left = MOST_PIECES;
    for back in 0..MOST_OBJECTS {
        let place = MOST_OBJECTS - 1 - back;
        if place < objects.count {
            let wanted = objects.shown[place].slivers;
            let taken = wanted.min(left);
            objects.shown[place].slivers = taken;
            left = left.saturating_sub(taken);
            if taken < wanted {
                objects.over.time = true;
            }
        }
    }
    objects
}

/// Returns a line of an object of a size, turned top to bottom. In the second profile an upright object is two
/// squares, each turned in its place: width and height are powers of two.
fn turned_line(profile: Profile, size: Size, line: u32) -> u32
    requires width { 0 < size.width }
    requires line { line < size.height }
{
    match profile {
        Profile::First => size.height - 1 - line,
        Profile::Second => line ^ (size.width - 1),
    }
}

/// Returns the value of an object at a column and line of it, after its flips.
fn value_at(p: &Ppu, object: &Object, column: u32, line: u32) -> u8
    requires column { column < object.now.size.width }
    requires line { line < object.now.size.height }
    requires width { object.now.size.width ≤ 64 }
    requires height { object.now.size.height ≤ 64 }
    requires tile { object.now.tile < 256 }
{
    let tiles = p.registers().object_tiles;
    let x = if object.attributes & 0x40 != 0 {
        object.size.width - 1 - column
    } else {
        column
    };
    let y = if object.attributes & 0x80 != 0 {
        turned_line(p.registers().profile, object.size, line)
    } else {
        line
    };
    let low = (object.tile + x / 8) % 16;
    let high = (object.tile / 16 + y / 8) % 16;
    let table = if object.attributes % 2 == 1 {
        0x1000 * (tiles.gap as u32 + 1)
    } else {
        0
    };
    let tile_at = tiles.base as u32 + table + 16 * (16 * high + low);
    tile_pixel(p, tile_at, 4, x % 8, y % 8)
}

/// Returns what an object shows at a pixel of a row, if anything.
fn shown_at(p: &Ppu, shown: Shown, row: u32, x: u32) -> Option<Seen>
    requires row { row < 256 }
    requires x { x < 256 }
{
    let object = object_of(p, shown.number);
    let column = (x + 512 - object.x) % 512;
    let line = line_on(&object, row)?;
    if column >= object.size.width || slivers_before(&object, column / 8) >= shown.slivers {
        return None;
    }
    if line >= object.size.height {
        return None;
    }
    let value = value_at(p, &object, column, line);
    if value == 0 {
        return None;
    }
    let palette = object.attributes / 2 % 8;
    Some(Seen {
        colour: palette_colour(p, ((128 + 16 * palette + value as u32) % 256) as u8),
        priority: (object.attributes / 16 % 4) as u8,
        in_arithmetic: palette >= 4,
    })
}

/// Returns what the first of a row's objects that shows anything at a pixel shows there.
fn first_at(p: &Ppu, objects: &Objects, row: u32, x: u32) -> Option<Seen>
    requires row { row < 256 }
    requires x { x < 256 }
{
    for (place, shown) in objects.shown.iter().enumerate() {
        if place < objects.count {
            let seen = shown_at(p, *shown, row, x);
            if seen.is_some() {
                return seen;
            }
        }
    }
    None
}

/// Draws the objects of a row at each pixel.
pub fn object_row(p: &Ppu, row: u16) -> ObjectRow
    requires { row < 239 }
{
    let objects = objects_of(p, row);
    let mut seen = [None; 256];
    for x in 0..256usize {
        seen[x] = first_at(p, &objects, row as u32, x as u32);
    }
    ObjectRow {
        seen,
        over: objects.over,
    }
}
