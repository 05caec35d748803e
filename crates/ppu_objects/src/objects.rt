//! One object of OAM, and the objects on a row.

ghost use Rattle.std.specs.Prelude.{◌≡◌, ℕ, ◌+◌, ◌*◌, ◌/◌, ◌%◌, ◌<◌, ◌≤◌, Bool, false, List, [], take, length, nat_lt};
ghost use Rattle.std.specs.Prelude.{slice_index};
ghost use Rattle.ppu_objects.specs.Objects.{pair_at, object_of, height_of, line_in, stands_on, first_object};
ghost use Rattle.ppu_objects.specs.Objects.{place_in_turn, object_in_turn, grown, on_row, drawn_objects, passes_range};
ghost use Rattle.ppu_objects.specs.Near.{near_mark};
ghost use Rattle.ppu_objects.specs.declared.objects.Object.{Object};

use crate::sizes::Sizes;
use arrayvec::ArrayVec;
use ppu_regs::Ppu;

/// One object, as OAM has it.
#[derive(Clone, Copy, Default)]
pub struct Object {
    /// The X of its left column: nine bits, the top one the sign.
    pub x: u16,
    /// The Y of its top, as OAM has it.
    pub y: u8,
    /// The number of the tile at its top left.
    pub tile: u8,
    /// Whether it is mirrored top to bottom.
    pub flip_y: bool,
    /// Whether it is mirrored left to right.
    pub flip_x: bool,
    /// The priority, 0 to 3.
    pub priority: u8,
    /// The palette, 0 to 7.
    pub palette: u8,
    /// The table of tiles, 0 or 1.
    pub table: u8,
    /// Whether it has the larger of the two sizes.
    pub large: bool,
}

#[inline(always)]
fn pair(byte: u8, k: u8) -> u8
    requires { k < 4 }
    ensures value { result ≡ pair_at byte k }
    ensures small { result < 4 }
{
    (byte >> (2 * k)) % 4
}

/// Returns object `n` of OAM.
#[inline(always)]
#[tactic(auto, unfolding(crate::specs::Objects::object_of))]
pub fn read_object(oam: &[u8; 544], n: u8) -> Object
    requires { n < 128 }
    ensures value { result ≡ object_of oam.now n }
    ensures x { result.x < 512 }
    ensures palette { result.palette < 8 }
    ensures priority { result.priority < 4 }
    ensures table { result.table < 2 }
{
    let at = 4 * n as usize;
    let high = pair(oam[512 + n as usize / 4], n % 4);
    let attributes = oam[at + 3];
    Object {
        x: oam[at] as u16 + 256 * (high as u16 % 2),
        y: oam[at + 1],
        tile: oam[at + 2],
        flip_y: attributes / 128 == 1,
        flip_x: attributes / 64 % 2 == 1,
        priority: attributes / 16 % 4,
        palette: attributes / 2 % 8,
        table: attributes % 2,
        large: high / 2 == 1,
    }
}

/// Returns the line of a row in an object with this Y, counted from the object's top, modulo 256.
#[inline(always)]
#[tactic(auto, unfolding(crate::specs::Objects::line_in))]
pub fn line_of_object(y: u8, row: u16) -> u16
    requires { row < 239 }
    ensures value { result ≡ line_in y row }
    ensures small { result < 256 }
{
    (row + 256 - y as u16) % 256
}

#[inline(always)]
#[tactic(auto, unfolding(crate::specs::Objects::stands_on))]
fn stands(sizes: &Sizes, o: &Object, row: u16) -> bool
    requires { row < 239 }
    ensures { result ≡ stands_on sizes.now o.now row }
{
    line_of_object(o.y, row) < sizes.height(o.large)
        && (o.x < 256 || o.x as u32 + sizes.width(o.large) as u32 > 512)
}

#[inline(always)]
#[tactic(auto, unfolding(crate::specs::Objects::first_object))]
fn first(p: &Ppu) -> u8
    ensures value { result ≡ first_object p.now }
    ensures small { result < 128 }
{
    let oam = &p.registers().oam;
    if oam.rotates {
        (oam.word / 2 % 128) as u8
    } else {
        0
    }
}

#[inline(always)]
#[tactic(auto, unfolding(crate::specs::Objects::place_in_turn))]
fn in_turn(first: u8, k: u8) -> u8
    requires first { first < 128 }
    requires k { k < 128 }
    ensures value { result ≡ place_in_turn first k }
    ensures small { result < 128 }
{
    (first + k) % 128
}

#[inline(always)]
#[tactic(auto, unfolding(crate::specs::Objects::object_in_turn))]
fn nth_in_turn(p: &Ppu, first: u8, k: u8) -> Object
    requires first { first ≡ first_object p.now }
    requires k { k < 128 }
    requires small { first < 128 }
    ensures { result ≡ object_in_turn p.now k }
{
    read_object(p.oam(), in_turn(first, k))
}

/// Appends an object to a list of 32 if it is on the row and there is room. Returns whether there are more than 32.
#[inline(always)]
#[tactic(auto, unfolding(crate::specs::Objects::grown))]
fn note(list: &mut ArrayVec<Object, 32>, more: bool, does: bool, o: Object) -> bool
    ensures items { (xs : List Object) → list.old.items ≡ take 32 xs → list.new.items ≡ take 32 (grown does o xs) }
    ensures more { (xs : List Object) → list.old.items ≡ take 32 xs → more ≡ nat_lt 32 (length xs)
        → result ≡ nat_lt 32 (length (grown does o xs)) }
{
    if does {
        if list.len() < 32 {
            list.push(o);
        } else {
            return true;
        }
    }
    more
}

/// Returns the height of the taller of both kinds of objects.
#[inline(always)]
fn tallest(sizes: &Sizes) -> u8
    ensures { (large : Bool) → height_of sizes.now large ≤ result }
{
    sizes.height(false).max(sizes.height(true)) as u8
}

/// Returns whether an object with this Y may be on a row, if none is taller than `tall`: 1 or 0.
#[inline(always)]
#[tactic(auto, unfolding(crate::specs::Near::near_mark, crate::specs::Objects::line_in))]
fn mark(tall: u8, row: u8, y: u8) -> u8
    requires { row < 239 }
    ensures { result ≡ near_mark tall row y }
{
    (row.wrapping_sub(y) < tall) as u8
}

/// Marks the objects that may be on a row. It writes the marks twice, side by side, so that from any first object on
/// they follow in turn.
fn look(tops: &[u8; 128], tall: u8, row: u8, near: &mut [u8; 256])
    requires { row < 239 }
    ensures { (n : ℕ) → n < 256 → slice_index near.new n ≡ near_mark tall row (slice_index tops.now (n % 128)) }
{
    for n in 0..128usize {
        let mark = mark(tall, row, tops[n]);
        near[n] = mark;
        near[n + 128] = mark;
    }
}

/// Returns four bytes as one number.
#[inline(always)]
fn four(near: &[u8; 256], at: usize) -> u64
    requires { at + 4 ≤ 256 }
    ensures value { result ≡ slice_index near.now at + 256 * slice_index near.now (at + 1)
        + 65536 * slice_index near.now (at + 2) + 16777216 * slice_index near.now (at + 3) }
    ensures small { result < 4294967296 }
{
    near[at] as u64
        + 256 * near[at + 1] as u64
        + 65_536 * near[at + 2] as u64
        + 16_777_216 * near[at + 3] as u64
}

/// Returns whether any of eight marks is set. As the bytes of one number they are tested together.
#[inline(always)]
#[tactic(auto, using(crate::proofs::Marks::marks))]
fn is_any(near: &[u8; 256], at: usize) -> bool
    requires { at + 8 ≤ 256 }
    ensures { (j : ℕ) → j < 8 → result ≡ false → slice_index near.now (at + j) ≡ 0 }
{
    four(near, at) + 4_294_967_296 * four(near, at + 4) != 0
}

/// Tests the object `k` in turn, and appends it if it is on the row.
#[inline(always)]
#[tactic(auto, using(crate::proofs::Marks::far))]
fn note_nth(
    p: &Ppu,
    sizes: &Sizes,
    row: u16,
    tall: u8,
    first: u8,
    k: u8,
    mark: u8,
    list: &mut ArrayVec<Object, 32>,
    more: bool,
) -> bool
    requires sizes { sizes.now ≡ p.now.registers.object_tiles.size }
    requires row { row < 239 }
    requires tall { (large : Bool) → height_of p.now.registers.object_tiles.size large ≤ tall }
    requires first { first ≡ first_object p.now }
    requires small { first < 128 }
    requires k { k < 128 }
    requires mark { mark ≡ near_mark tall row (object_in_turn p.now k).y }
    ensures items { (xs : List Object) → list.old.items ≡ take 32 xs →
        list.new.items ≡ take 32 (grown (stands_on p.now.registers.object_tiles.size (object_in_turn p.now k) row)
        (object_in_turn p.now k) xs) }
    ensures more { (xs : List Object) → list.old.items ≡ take 32 xs → more ≡ nat_lt 32 (length xs) →
        result ≡ nat_lt 32 (length (grown (stands_on p.now.registers.object_tiles.size (object_in_turn p.now k) row)
        (object_in_turn p.now k) xs)) }
{
    if mark == 0 {
        return more;
    }
    let o = nth_in_turn(p, first, k);
    note(list, more, stands(sizes, &o, row), o)
}

/// Tests eight objects in turn, from `8 * group` on.
#[inline(always)]
fn note_group(
    p: &Ppu,
    sizes: &Sizes,
    row: u16,
    tall: u8,
    first: u8,
    group: usize,
    near: &[u8; 256],
    list: &mut ArrayVec<Object, 32>,
    over: bool,
) -> bool
    requires sizes { sizes.now ≡ p.now.registers.object_tiles.size }
    requires row { row < 239 }
    requires tall { (large : Bool) → height_of p.now.registers.object_tiles.size large ≤ tall }
    requires first { first ≡ first_object p.now }
    requires small { first < 128 }
    requires group { group < 16 }
    requires near { (n : ℕ) → n < 256 → slice_index near.now n ≡
        near_mark tall row (slice_index p.now.oam (4 * (n % 128) + 1)) }
    requires items { list.old.items ≡ take 32 (on_row p.now row (8 * group)) }
    requires more { over ≡ nat_lt 32 (length (on_row p.now row (8 * group))) }
    ensures items { list.new.items ≡ take 32 (on_row p.now row (8 * group + 8)) }
    ensures more { result ≡ nat_lt 32 (length (on_row p.now row (8 * group + 8))) }
{
    let mut more = over;
    for j in 0..8usize {
        let k = 8 * group + j;
        let mark = near[first as usize + k];
        more = note_nth(p, sizes, row, tall, first, k as u8, mark, list, more);
    }
    more
}

/// Tests eight objects in turn, from `8 * group` on, unless none of them may be on the row or more than 32 are
/// already.
#[inline(always)]
fn note_some(
    p: &Ppu,
    sizes: &Sizes,
    row: u16,
    tall: u8,
    first: u8,
    group: usize,
    near: &[u8; 256],
    list: &mut ArrayVec<Object, 32>,
    over: bool,
) -> bool
    requires sizes { sizes.now ≡ p.now.registers.object_tiles.size }
    requires row { row < 239 }
    requires tall { (large : Bool) → height_of p.now.registers.object_tiles.size large ≤ tall }
    requires first { first ≡ first_object p.now }
    requires small { first < 128 }
    requires group { group < 16 }
    requires near { (n : ℕ) → n < 256 → slice_index near.now n ≡
        near_mark tall row (slice_index p.now.oam (4 * (n % 128) + 1)) }
    requires items { list.old.items ≡ take 32 (on_row p.now row (8 * group)) }
    requires more { over ≡ nat_lt 32 (length (on_row p.now row (8 * group))) }
    ensures items { list.new.items ≡ take 32 (on_row p.now row (8 * group + 8)) }
    ensures more { result ≡ nat_lt 32 (length (on_row p.now row (8 * group + 8))) }
{
    if over || !is_any(near, first as usize + 8 * group) {
        return over;
    }
    note_group(p, sizes, row, tall, first, group, near, list, over)
}

/// Returns whether any object may be on the row.
fn is_any_near(near: &[u8; 256]) -> bool
    ensures { (n : ℕ) → n < 256 → result ≡ false → slice_index near.now n ≡ 0 }
{
    let mut most = 0u8;
    for n in 0..256usize {
        most = near[n].max(most);
    }
    most != 0
}

/// Tests all objects in turn, and skips each eight of which none may be on the row.
fn note_near(
    p: &Ppu,
    sizes: &Sizes,
    row: u16,
    tall: u8,
    first: u8,
    near: &[u8; 256],
    list: &mut ArrayVec<Object, 32>,
) -> bool
    requires sizes { sizes.now ≡ p.now.registers.object_tiles.size }
    requires row { row < 239 }
    requires tall { (large : Bool) → height_of p.now.registers.object_tiles.size large ≤ tall }
    requires first { first ≡ first_object p.now }
    requires small { first < 128 }
    requires near { (n : ℕ) → n < 256 → slice_index near.now n ≡
        near_mark tall row (slice_index p.now.oam (4 * (n % 128) + 1)) }
    requires empty { list.old.items ≡ [] }
    ensures objects { list.new.items ≡ take 32 (on_row p.now row 128) }
    ensures range { result ≡ nat_lt 32 (length (on_row p.now row 128)) }
{
    let mut more = false;
    for g in 0..16usize {
        more = note_some(p, sizes, row, tall, first, g, near, list, more);
    }
    more
}

/// Gathers the first 32 objects on a row, in turn, in an empty list. Returns whether there are more. It first marks
/// all objects by their Y in one pass, and then tests them eight at a time.
#[tactic(auto, unfolding(crate::specs::Objects::drawn_objects, crate::specs::Objects::passes_range))]
pub fn gather_in_range(p: &Ppu, row: u16, list: &mut ArrayVec<Object, 32>) -> bool
    requires row { row < 239 }
    requires empty { list.old.items ≡ [] }
    ensures objects { list.new.items ≡ drawn_objects p.now row }
    ensures range { result ≡ passes_range p.now row }
{
    let sizes = Sizes::of(p.registers().object_tiles.size);
    let tall = tallest(&sizes);
    let first = first(p);
    let mut near = [0u8; 256];
    look(p.tops(), tall, row as u8, &mut near);
    if is_any_near(&near) {
        note_near(p, &sizes, row, tall, first, &near, list)
    } else {
        false
    }
}
