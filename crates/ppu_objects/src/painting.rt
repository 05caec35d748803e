//! Painting slivers over a row.

ghost use Rattle.std.specs.Prelude.{◌≡◌, ℕ, ◌+◌, ◌-◌, ◌*◌, ◌/◌, ◌%◌, ◌<◌, ◌≤◌, ◌==◌, nat_le, length, slice_index};
ghost use Rattle.std.specs.Prelude.{slice_index_or, if◌then◌else◌};
ghost use Rattle.tile_cache.specs.Bitplanes.{eight};
ghost use Rattle.ppu_objects.specs.Covering.{covers, no_sliver, sliver_pixel};
ghost use Rattle.ppu_objects.specs.Slivers.{turned_line, shown_line, shown_column, tile_number, tile_word, sliver_word};
ghost use Rattle.ppu_objects.specs.Slivers.{pixel_value, sliver_layer_dot};
ghost use Rattle.ppu_objects.specs.Ranks.{rank_byte, object_rank};

use crate::objects::{Object, line_of_object};
use crate::sizes::Sizes;
use crate::slivers::{Sliver, left_of, on_screen};
use ppu_regs::{ObjectTiles, Ppu, Registers};
use scanline_ops::choose;
use snes_defs::Profile;
use tile_cache::line_of_words;

/// Returns a line of an object that is turned top to bottom.
#[inline(always)]
#[tactic(auto, unfolding(crate::specs::Slivers::turned_line))]
fn turn_line(profile: Profile, width: u16, height: u16, line: u16) -> u16
    requires wide { 8 ≤ width }
    requires narrow { width ≤ 64 }
    requires tall { 8 ≤ height }
    ensures { result ≡ turned_line profile width height line }
{
    match profile {
        Profile::First => (height - 1).saturating_sub(line),
        Profile::Second => {
            if line < width {
                width - 1 - line
            } else {
                width + (width - 1).saturating_sub(line - width)
            }
        }
    }
}

#[inline(always)]
#[tactic(auto, unfolding(crate::specs::Slivers::shown_line))]
fn line_shown(profile: Profile, sizes: &Sizes, o: &Object, row: u16) -> u16
    requires { row < 239 }
    ensures { result ≡ shown_line profile sizes.now o.now row }
{
    let line = line_of_object(o.y, row);
    let turned = turn_line(profile, sizes.width(o.large), sizes.height(o.large), line);
    if o.flip_y { turned } else { line }
}

#[inline(always)]
#[tactic(auto, unfolding(crate::specs::Slivers::shown_column))]
fn column_shown(sizes: &Sizes, o: &Object, column: u8) -> u16
    ensures { result ≡ shown_column sizes.now o.now column }
{
    let turned = (sizes.width(o.large) / 8 - 1).saturating_sub(column as u16);
    if o.flip_x { turned } else { column as u16 }
}

#[inline(always)]
#[tactic(auto, unfolding(crate::specs::Slivers::tile_number))]
fn tile(tile: u8, column: u16, line: u16) -> u32
    ensures value { result ≡ tile_number tile column line }
    ensures small { result < 256 }
{
    let tile = tile as u32;
    (tile % 16 + column as u32) % 16 + 16 * ((tile / 16 + line as u32 / 8) % 16)
}

#[inline(always)]
#[tactic(auto, unfolding(crate::specs::Slivers::tile_word))]
fn word(tiles: &ObjectTiles, table: u8, tile: u32, line: u16) -> usize
    requires { tile < 256 }
    ensures value { result ≡ tile_word tiles.now table tile line }
    ensures small { result < 32768 }
{
    let base = tiles.base as u32 + table as u32 * (4096 * (tiles.gap as u32 + 1));
    ((base + 16 * tile + line as u32 % 8) % 32768) as usize
}

#[inline(always)]
#[tactic(auto, unfolding(crate::specs::Slivers::sliver_word))]
fn word_of_sliver(r: &Registers, sizes: &Sizes, sliver: &Sliver, row: u16) -> usize
    requires row { row < 239 }
    requires sizes { sizes.now ≡ r.now.object_tiles.size }
    ensures value { result ≡ sliver_word r.now sliver.now.object sliver.now.column row }
    ensures small { result < 32768 }
{
    let o = &sliver.object;
    let line = line_shown(r.profile, sizes, o, row);
    let column = column_shown(sizes, o, sliver.column);
    word(&r.object_tiles, o.table, tile(o.tile, column, line), line)
}

/// Returns the rank byte of an object's pixels.
#[inline(always)]
#[tactic(auto, unfolding(crate::specs::Ranks::rank_byte))]
fn rank_of_object(bases: &[u8; 4], named: bool, o: &Object) -> u8
    requires { (k : ℕ) → slice_index bases.now k ≤ 240 }
    ensures { result ≡ rank_byte bases.now named (o.now.priority % 4) (nat_le 4 o.now.palette) }
{
    let base = bases[o.priority as usize % 4];
    let bit = if named && o.palette >= 4 { 8 } else { 0 };
    base + bit
}

/// Returns the eight pixels of a sliver on a row, left to right on the screen.
#[inline(always)]
fn line_of_sliver(p: &Ppu, sizes: &Sizes, row: u16, sliver: &Sliver) -> [u8; 8]
    requires row { row < 239 }
    requires sizes { sizes.now ≡ p.now.registers.object_tiles.size }
    ensures { result ≡ eight (pixel_value p.now.vram p.now.registers sliver.now.object sliver.now.column row) }
{
    let vram = p.vram();
    let at = word_of_sliver(p.registers(), sizes, sliver, row);
    line_of_words(vram[at], vram[(at + 8) % 32768], sliver.object.flip_x)
}

/// Puts eight bytes into the lines.
#[inline(always)]
fn put_bytes(lines: &mut [u8; 272], at: usize, bytes: &[u8; 8])
    requires { at + 8 ≤ 272 }
    ensures put { (k : ℕ) → k < 8 → slice_index lines.new (at + k) ≡ slice_index bytes.now k }
    ensures below { (k : ℕ) → k < at → slice_index lines.new k ≡ slice_index lines.old k }
{
    for k in 0..8usize {
        lines[at + k] = bytes[k];
    }
}

/// Writes the pixels of slivers side by side, for `paint` to read from memory. Pixels taken directly from a
/// number's bytes would be handled one by one.
#[inline(always)]
pub fn put_lines(p: &Ppu, row: u16, slivers: &[Sliver], lines: &mut [u8; 272])
    requires row { row < 239 }
    requires most { length slivers.now ≤ 34 }
    ensures { (i k : ℕ) → i < length slivers.now → k < 8 →
        slice_index lines.new (8 * i + k) ≡ sliver_pixel p.now row (slice_index_or slivers.now i no_sliver) k }
{
    let sizes = Sizes::of(p.registers().object_tiles.size);
    for i in 0..slivers.len() {
        let line = line_of_sliver(p, &sizes, row, &slivers[i]);
        put_bytes(lines, 8 * i, &line);
    }
}

/// Returns a pixel's byte if its value isn't 0, else the byte under it.
#[inline(always)]
#[tactic(auto, unfolding(scanline_ops::specs::RankedPixels::chosen))]
fn over(value: u8, taken: u8, under: u8) -> u8
    ensures { result ≡ (if value == 0 then under else taken) }
{
    choose(value != 0, taken, under)
}

/// Draws eight pixels over two rows, from the place `at` on.
#[inline(always)]
#[tactic(auto, unfolding(crate::specs::Covering::covers))]
fn cover(
    lines: &[u8; 272],
    from: usize,
    at: usize,
    rank: u8,
    colours: u8,
    ranks: &mut [u8; 272],
    numbers: &mut [u8; 272],
)
    requires line { from + 8 ≤ 272 }
    requires room { at + 8 ≤ 272 }
    ensures ranks { (x : ℕ) → x < 272 → slice_index ranks.new x ≡
        (if covers lines.now from at x then rank else slice_index ranks.old x) }
    ensures numbers { (x : ℕ) → x < 272 → slice_index numbers.new x ≡
        (if covers lines.now from at x then (colours + slice_index lines.now (from + (x - at))) % 256
        else slice_index numbers.old x) }
{
    for k in 0..8usize {
        let value = lines[from + k];
        ranks[at + k] = over(value, rank, ranks[at + k]);
        numbers[at + k] = over(value, colours.wrapping_add(value), numbers[at + k]);
    }
}

/// Draws a sliver over a row in two planes, whose pixel x is at place x + 8. `lines` has the sliver's pixels.
///
/// `bases` are the rank bytes of the four priorities. Bit 3 is set if `named` and the palette may take part in
/// arithmetic.
#[inline(always)]
pub fn paint(
    p: &Ppu,
    row: u16,
    sliver: &Sliver,
    lines: &[u8; 272],
    from: usize,
    bases: &[u8; 4],
    named: bool,
    ranks: &mut [u8; 272],
    numbers: &mut [u8; 272],
)
    requires row { row < 239 }
    requires bases { (k : ℕ) → slice_index bases.now k ≤ 240 }
    requires room { from + 8 ≤ 272 }
    requires line { (k : ℕ) → k < 8 → slice_index lines.now (from + k) ≡ sliver_pixel p.now row sliver.now k }
    ensures ranks { (x : ℕ) → x < 256 → slice_index ranks.new (x + 8) ≡
        (if (sliver_layer_dot p.now row sliver.now x).on
        then object_rank bases.now named (sliver_layer_dot p.now row sliver.now x)
        else slice_index ranks.old (x + 8)) }
    ensures numbers { (x : ℕ) → x < 256 → slice_index numbers.new (x + 8) ≡
        (if (sliver_layer_dot p.now row sliver.now x).on then (sliver_layer_dot p.now row sliver.now x).number
        else slice_index numbers.old (x + 8)) }
{
    let o = &sliver.object;
    let left = left_of(o, sliver.column);
    if on_screen(left) {
        let rank = rank_of_object(bases, named, o);
        let colours = 128 + 16 * (o.palette % 8);
        cover(
            lines,
            from,
            (left as usize + 8) % 512,
            rank,
            colours,
            ranks,
            numbers,
        );
    }
}
