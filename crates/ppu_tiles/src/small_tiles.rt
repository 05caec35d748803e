//! A row of tiles of 8 by 8 pixels, in modes whose columns have no scrolls of their own. Each thing that a column
//! needs is taken for all 33 columns in a pass of its own, which the compiler makes vector code of.

ghost use Rattle.std.specs.Prelude.{◌≡◌, ℕ, List, true, false, ◌<◌, ◌≤◌, ◌+◌, ◌-◌, ◌*◌, ◌/◌, ◌%◌, ◌==◌, ◌&&◌, length};
ghost use Rattle.std.specs.Prelude.{slice_index, if◌then◌else◌};
ghost use Rattle.ppu_regs.specs.Reads.{bit_of};
ghost use Rattle.ppu_regs.specs.Picture.{background_of};
ghost use Rattle.tile_cache.specs.Bitplanes.{IsInStep, value_of, eight};
ghost use Rattle.ppu_tiles.specs.Modes.{depth_of, is_hires, has_offsets};
ghost use Rattle.ppu_tiles.specs.Backgrounds.{own_scroll, map_word, background_layer_dot};
ghost use Rattle.ppu_regs.specs.Dots.{rank_of};
ghost use Rattle.ppu_tiles.specs.Columns.{IsDepth, base_of, half_word, attribute_of, column_entry};

use crate::columns::{first_number, half_place, put_bytes, put_same, start};
use crate::entries::{block, entry, map_place, take_blocks};
use crate::scrolls::{Scroll, in_column, own};
use ppu_regs::{Background, Ppu};
use tile_cache::TileCache;

/// Returns the map entry of a column.
#[inline(always)]
fn entry_in_column(p: &Ppu, b: &Background, mode: u8, layer: u8, own: Scroll, y: u16, c: u16) -> u16
    requires mode { mode ≡ p.now.registers.mode }
    requires own { own ≡ own_scroll b.now }
    requires across { own.across < 1024 }
    requires down { own.down < 1024 }
    requires background { b.now ≡ background_of p.now.registers layer }
    requires c { c ≤ 32 }
    requires y { y ≤ 239 }
    ensures { result ≡ column_entry p.now layer y c }
{
    let s = in_column(p, mode, layer, own, c);
    entry(p, mode, b, start(mode, c + s.across / 8), y + 1 + s.down)
}

/// Copies map entries that are side by side in VRAM.
#[inline(always)]
fn copy_entries(vram: &[u16], from: usize, at: usize, count: usize, entries: &mut [u16; 33])
    requires size { length vram.now ≡ 32768 }
    requires from { from + count ≤ 32768 }
    requires room { at + count ≤ 33 }
    ensures put { (k : ℕ) → k < count → slice_index entries.new (at + k) ≡ slice_index vram.now (from + k) }
    ensures below { (k : ℕ) → k < at → slice_index entries.new k ≡ slice_index entries.old k }
{
    for k in 0..count {
        entries[at + k] = vram[from + k];
    }
}

/// Copies the 33 entries of a row of the map from column `first` on, which are in two screens of 32 side by side.
/// Returns false if it could not, since a screen's line may lie over the end of VRAM.
#[inline(always)]
#[tactic(auto, using(crate::proofs::SmallSteps::near, crate::proofs::SmallSteps::far))]
fn copy_row(vram: &[u16], b: &Background, first: u16, row: u16, entries: &mut [u16; 33]) -> bool
    requires size { length vram.now ≡ 32768 }
    requires first { first < 128 }
    ensures { (c : ℕ) → c < 33 → result ≡ true
        → slice_index entries.new c ≡ slice_index vram.now (map_word b.now (first + c) row) }
{
    let left = map_place(b, first / 32 * 32, row);
    let right = map_place(b, first / 32 * 32 + 32, row);
    let inner = (first % 32) as usize;
    if left > 32736 || right > 32736 {
        return false;
    }
    copy_entries(vram, left + inner, 0, 32 - inner, entries);
    copy_entries(vram, right, 32 - inner, 1 + inner, entries);
    true
}

/// Reads the map entries of a row, one by one.
fn find_entries(
    p: &Ppu,
    b: &Background,
    mode: u8,
    layer: u8,
    own: Scroll,
    y: u16,
    entries: &mut [u16; 33],
)
    requires mode { mode ≡ p.now.registers.mode }
    requires own { own ≡ own_scroll b.now }
    requires across { own.across < 1024 }
    requires down { own.down < 1024 }
    requires background { b.now ≡ background_of p.now.registers layer }
    requires y { y ≤ 239 }
    ensures { (c : ℕ) → c < 33 → slice_index entries.new c ≡ column_entry p.now layer y c }
{
    for c in 0..33usize {
        entries[c] = entry_in_column(p, b, mode, layer, own, y, c as u16);
    }
}

/// Reads the map entries of a row.
#[inline(always)]
#[tactic(auto, using(crate::proofs::SmallSteps::entry_is))]
fn take_entries(
    p: &Ppu,
    b: &Background,
    mode: u8,
    layer: u8,
    own: Scroll,
    y: u16,
    entries: &mut [u16; 33],
)
    requires mode { mode ≡ p.now.registers.mode }
    requires small { b.now.large ≡ false }
    requires halves { is_hires mode ≡ false }
    requires offsets { has_offsets mode ≡ false }
    requires own { own ≡ own_scroll b.now }
    requires across { own.across < 1024 }
    requires down { own.down < 1024 }
    requires background { b.now ≡ background_of p.now.registers layer }
    requires y { y ≤ 239 }
    ensures { (c : ℕ) → c < 33 → slice_index entries.new c ≡ column_entry p.now layer y c }
{
    let row = (y + 1 + own.down) / 8;
    if !copy_row(p.vram(), b, own.across / 8, row, entries) {
        find_entries(p, b, mode, layer, own, y, entries);
    }
}

/// Returns the attributes of a map entry, as `take_attributes` has them.
#[inline(always)]
#[tactic(auto, unfolding(crate::specs::Columns::attribute_of))]
fn attribute(mode: u8, layer: u8, bits: u8, entry: u16) -> u8
    requires first { 1 ≤ layer }
    requires last { layer ≤ 4 }
    ensures { result ≡ attribute_of mode layer bits entry }
{
    let palette = (entry / 1024 % 8) as u8;
    let priority = (entry / 8192 % 2) as u8;
    first_number(mode, layer, bits, palette) + 128 * priority
}

/// Takes the attributes of map entries, a byte each. Bits 6-0 are the number from which an entry's values are
/// counted, and bit 7 is its priority.
fn take_attributes(mode: u8, layer: u8, bits: u8, entries: &[u16; 33], attributes: &mut [u8; 33])
    requires first { 1 ≤ layer }
    requires last { layer ≤ 4 }
    ensures { (c : ℕ) → c < 33 → slice_index attributes.new c ≡
        attribute_of mode layer bits (slice_index entries.now c) }
{
    for c in 0..33usize {
        attributes[c] = attribute(mode, layer, bits, entries[c]);
    }
}

/// Takes the words of VRAM at which the lines of map entries begin, at row `py` of the map.
fn take_words(b: &Background, bits: u8, py: u16, entries: &[u16; 33], words: &mut [u16; 33])
    requires depth { bits ≤ 8 }
    ensures words { (c : ℕ) → c < 33 → slice_index words.new c ≡ half_word b.now bits (slice_index entries.now c) 0 py }
    ensures within { (c : ℕ) → c < 33 → slice_index words.new c < 32768 }
{
    for c in 0..33usize {
        words[c] = half_place(b, bits, entries[c], 0, py) as u16;
    }
}

/// Writes each byte eight times.
#[inline(never)]
fn spread(bytes: &[u8; 33], row: &mut [u8; 264])
    ensures { (k : ℕ) → k < 264 → slice_index row.new k ≡ slice_index bytes.now (k / 8) }
{
    for c in 0..33usize {
        put_same(row, 8 * c, bytes[c]);
    }
}

/// Returns whether any of a row of map entries is mirrored.
#[inline(always)]
fn is_any_turned(entries: &[u16; 33]) -> bool
    ensures { (c : ℕ) → c < 33 → result ≡ false → slice_index entries.now c / 16384 % 2 ≡ 0 }
{
    let mut most = 0u16;
    for c in 0..33usize {
        most = (entries[c] / 16384 % 2).max(most);
    }
    most != 0
}

/// Puts the pixels of a row of map entries whose lines begin at these words, each mirrored if its entry says so. A row
/// with no mirrored entry has a loop of its own.
#[inline(always)]
fn put_pixels(
    tiles: &TileCache,
    bits: u8,
    entries: &[u16; 33],
    words: &[u16; 33],
    values: &mut [u8; 264],
)
    requires depth { IsDepth bits }
    requires within { (c : ℕ) → c < 33 → slice_index words.now c < 32768 }
    ensures { (vram : List ℕ) → IsInStep tiles.now vram → (k : ℕ) → k < 264 → slice_index values.new k ≡
        value_of vram (slice_index words.now (k / 8)) bits
        (if slice_index entries.now (k / 8) / 16384 % 2 == 1 then 7 - k % 8 else k % 8) }
{
    if is_any_turned(entries) {
        for c in 0..33usize {
            let line = tiles.turned_line(words[c] as usize, bits, entries[c] / 16384 % 2 == 1);
            put_bytes(values, 8 * c, &line);
        }
    } else {
        for c in 0..33usize {
            let line = tiles.turned_line(words[c] as usize, bits, false);
            put_bytes(values, 8 * c, &line);
        }
    }
}

/// Returns the byte of a pixel in the plane of ranks.
#[inline(always)]
fn rank(value: u8, attribute: u8, low: u8, high: u8) -> u8
    ensures { result ≡ (if value == 0 then 0 else (if attribute / 128 == 1 then high else low)) }
{
    let base = if attribute / 128 == 1 { high } else { low };
    if value == 0 { 0 } else { base }
}

/// Makes the two planes from a painted row, from one of its first eight pixels on.
#[inline(always)]
fn rank_pixels(
    values: &[u8; 264],
    attributes: &[u8; 264],
    from: usize,
    low: u8,
    high: u8,
    ranks: &mut [u8; 256],
    numbers: &mut [u8; 256],
)
    requires { from < 8 }
    ensures ranks { (x : ℕ) → x < 256 → slice_index ranks.new x ≡
        (if slice_index values.now (x + from) == 0 then 0
        else (if slice_index attributes.now (x + from) / 128 == 1 then high else low)) }
    ensures numbers { (x : ℕ) → x < 256 → slice_index numbers.new x ≡
        (slice_index attributes.now (x + from) % 128 + slice_index values.now (x + from)) % 256 }
{
    for x in 0..256usize {
        let value = values[x + from];
        let attribute = attributes[x + from];
        ranks[x] = rank(value, attribute, low, high);
        numbers[x] = (attribute % 128).wrapping_add(value);
    }
}

/// Writes a row of small tiles of 2 or 4 bits as `ranked_row` does. What each of its 33 columns needs is taken first.
/// Then come the pixels, their two planes, and the blocks of mosaic.
#[inline(always)]
pub fn small_row(
    p: &Ppu,
    tiles: &TileCache,
    b: &Background,
    mode: u8,
    bits: u8,
    layer: u8,
    row: u16,
    odd: bool,
    low: u8,
    high: u8,
    ranks: &mut [u8; 256],
    numbers: &mut [u8; 256],
)
    requires first { 1 ≤ layer }
    requires last { layer ≤ 4 }
    requires mode { mode ≡ p.now.registers.mode }
    requires small { b.now.large ≡ false }
    requires halves { is_hires mode ≡ false }
    requires offsets { has_offsets mode ≡ false }
    requires background { b.now ≡ background_of p.now.registers layer }
    requires bits { bits ≡ depth_of p.now.registers.mode layer }
    requires depth { IsDepth bits }
    requires few { bits ≤ 4 }
    requires step { IsInStep tiles.now p.now.vram }
    requires row { row < 239 }
    ensures ranks { (x : ℕ) → x < 256 → slice_index ranks.new x ≡
        (let c = background_layer_dot p.now layer row (2 * x + bit_of odd) in rank_of (base_of low high c) c) }
    ensures numbers { (x : ℕ) → x < 256 → slice_index numbers.new x ≡
        (background_layer_dot p.now layer row (2 * x + bit_of odd)).number }
{
    p.in_range();
    let r = p.registers();
    let y = block(r, b, row);
    let own = own(b);
    let mut entries = [0u16; 33];
    take_entries(p, b, mode, layer, own, y, &mut entries);
    let mut bytes = [0u8; 33];
    take_attributes(mode, layer, bits, &entries, &mut bytes);
    let mut attributes = [0u8; 264];
    spread(&bytes, &mut attributes);
    let mut words = [0u16; 33];
    take_words(b, bits, y + 1 + own.down, &entries, &mut words);
    let mut values = [0u8; 264];
    put_pixels(tiles, bits, &entries, &words, &mut values);
    let from = (b.scroll_x % 8) as usize;
    rank_pixels(&values, &attributes, from, low, high, ranks, numbers);
    take_blocks(r, b, ranks);
    take_blocks(r, b, numbers);
}
