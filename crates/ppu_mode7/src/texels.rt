//! The values at places of the plane, a row at a time: first their words of the map, then the tiles, then the pixels.

ghost use Rattle.std.specs.Prelude.{◌≡◌, ℕ, ◌+◌, ◌*◌, ◌/◌, ◌%◌, ◌<◌, ◌≤◌, ◌==◌, ◌||◌, length, slice_index};
ghost use Rattle.std.specs.Prelude.{if◌then◌else◌};
ghost use Rattle.ppu_mode7.specs.Rotated.{place_at, value_at, pixel_of};
ghost use Rattle.ppu_mode7.specs.Lines.{map_word, fine_of, outside_mark};

use crate::places::{Line, place};
use ppu_regs::Outside;
use scanline_ops::choose;

#[inline(always)]
fn pixel(place: u32) -> u32
    ensures value { result ≡ pixel_of place }
    ensures small { result < 1024 }
{
    place / 256 % 1024
}

/// Returns the word of the map at a place.
#[inline(always)]
#[tactic(auto, unfolding(crate::specs::Lines::map_word))]
fn word_at(x: u32, y: u32) -> u16
    ensures value { result ≡ map_word x y }
    ensures small { result < 16384 }
{
    (128 * (pixel(y) / 8) + pixel(x) / 8) as u16
}

/// Returns the pixel of its tile, 0 to 63, at a place.
#[inline(always)]
#[tactic(auto, unfolding(crate::specs::Lines::fine_of))]
fn fine_at(x: u32, y: u32) -> u8
    ensures value { result ≡ fine_of x y }
    ensures small { result < 64 }
{
    (8 * (pixel(y) % 8) + pixel(x) % 8) as u8
}

/// Finds the columns of a line in the plane: the words of the map, and the pixels in their tiles.
fn look(along: &Line, words: &mut [u16; 256], fine: &mut [u8; 256])
    ensures words { (c : ℕ) → c < 256 → slice_index words.new c ≡
        map_word (place_at along.now.start_x along.now.a c) (place_at along.now.start_y along.now.c c) }
    ensures fine { (c : ℕ) → c < 256 → slice_index fine.new c ≡
        fine_of (place_at along.now.start_x along.now.a c) (place_at along.now.start_y along.now.c c) }
{
    let along = *along;
    for c in 0..256usize {
        let x = place(along.start_x, along.a, c as u32);
        let y = place(along.start_y, along.c, c as u32);
        words[c] = word_at(x, y);
        fine[c] = fine_at(x, y);
    }
}

#[inline(always)]
#[tactic(auto, unfolding(crate::specs::Lines::outside_mark))]
fn mark(x: u32, y: u32) -> u8
    ensures { result ≡ outside_mark x y }
{
    (x >= 262_144 || y >= 262_144) as u8
}

/// Marks the columns that are outside of the plane.
fn mark_outside(along: &Line, marks: &mut [u8; 256])
    ensures { (c : ℕ) → c < 256 → slice_index marks.new c ≡
        outside_mark (place_at along.now.start_x along.now.a c) (place_at along.now.start_y along.now.c c) }
{
    let along = *along;
    for c in 0..256usize {
        let x = place(along.start_x, along.a, c as u32);
        let y = place(along.start_y, along.c, c as u32);
        marks[c] = mark(x, y);
    }
}

/// Reads the tiles of words of the map.
fn take_tiles(vram: &[u16], words: &[u16; 256], tiles: &mut [u8; 256])
    requires size { length vram.now ≡ 32768 }
    requires small { (c : ℕ) → c < 256 → slice_index words.now c < 16384 }
    ensures { (c : ℕ) → c < 256 → slice_index tiles.new c ≡ slice_index vram.now (slice_index words.now c) % 256 }
{
    for c in 0..256usize {
        tiles[c] = (vram[words[c] as usize] % 256) as u8;
    }
}

/// Reads the values of pixels of tiles.
fn take_values(vram: &[u16], tiles: &[u8; 256], fine: &[u8; 256], out: &mut [u8; 256])
    requires size { length vram.now ≡ 32768 }
    requires small { (c : ℕ) → c < 256 → slice_index fine.now c < 64 }
    ensures { (c : ℕ) → c < 256 → slice_index out.new c ≡
        slice_index vram.now (64 * slice_index tiles.now c + slice_index fine.now c) / 256 }
{
    for c in 0..256usize {
        out[c] = (vram[64 * tiles[c] as usize + fine[c] as usize] / 256) as u8;
    }
}

/// Reads the tiles of words of the map, and from these the values of pixels, sixteen columns after another.
fn take_both(vram: &[u16], words: &[u16; 256], fine: &[u8; 256], out: &mut [u8; 256])
    requires size { length vram.now ≡ 32768 }
    requires small_words { (c : ℕ) → c < 256 → slice_index words.now c < 16384 }
    requires small_pixels { (c : ℕ) → c < 256 → slice_index fine.now c < 64 }
    ensures { (c : ℕ) → c < 256 → slice_index out.new c ≡ slice_index vram.now
        (64 * (slice_index vram.now (slice_index words.now c) % 256) + slice_index fine.now c) / 256 }
{
    'groups: for group in 0..16usize {
        'columns: for column in 0..16usize {
            let c = 16 * group + column;
            let tile = vram[words[c] as usize] % 256;
            out[c] = (vram[64 * tile as usize + fine[c] as usize] / 256) as u8;
        }
    }
}

#[inline(always)]
#[tactic(auto, unfolding(scanline_ops::specs::RankedPixels::chosen))]
fn unless_marked(mark: u8, v: u8) -> u8
    ensures { result ≡ (if mark == 0 then v else 0) }
{
    choose(mark == 0, v, 0)
}

/// Clears the bytes whose mark is set.
fn clear_marked(marks: &[u8; 256], row: &mut [u8; 256])
    ensures { (c : ℕ) → c < 256 → slice_index row.new c ≡
        (if slice_index marks.now c == 0 then slice_index row.old c else 0) }
{
    for c in 0..256usize {
        row[c] = unless_marked(marks[c], row[c]);
    }
}

/// Writes the values, 0 to 255, of the 256 columns of a line.
pub fn values(code: Outside, vram: &[u16], along: &Line, out: &mut [u8; 256])
    requires { length vram.now ≡ 32768 }
    ensures { (c : ℕ) → c < 256 → slice_index out.new c ≡
        value_at code vram.now (place_at along.now.start_x along.now.a c) (place_at along.now.start_y along.now.c c) }
{
    let mut words = [0u16; 256];
    let mut fine = [0u8; 256];
    look(along, &mut words, &mut fine);
    match code {
        Outside::Wrap => take_both(vram, &words, &fine, out),
        Outside::Nothing => {
            take_both(vram, &words, &fine, out);
            let mut marks = [0u8; 256];
            mark_outside(along, &mut marks);
            clear_marked(&marks, out);
        }
        Outside::TileZero => {
            let mut tiles = [0u8; 256];
            take_tiles(vram, &words, &mut tiles);
            let mut marks = [0u8; 256];
            mark_outside(along, &mut marks);
            clear_marked(&marks, &mut tiles);
            take_values(vram, &tiles, &fine, out);
        }
    }
}
