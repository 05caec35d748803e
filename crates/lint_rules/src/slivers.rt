//! The lines of objects: which rows and columns have them, and the words of VRAM that they are drawn from.

ghost use Rattle.std.specs.Prelude.{◌≡◌, ◌<◌, ◌≤◌};
ghost use Rattle.lint_rules.specs.Slivers.{width_of, height_of, line_on, has_row, left_of, has_column, line_shown, column_shown, object_tile, object_word, sliver_word, object_colour};

use crate::objects::Object;

/// Where the tiles of objects begin, by 2101.
#[derive(Clone, Copy)]
pub struct ObjectTiles {
    /// The word of VRAM at which the first 256 tiles begin.
    pub base: u16,
    /// Bits 4-3: the other 256 begin `(gap + 1) * 1000h` words after it.
    pub gap: u8,
}

/// Returns the tile at a column and a line of an object whose first tile is this.
fn tile_at(tile: u8, column: u16, line: u16) -> u32
    ensures tile { result ≡ object_tile tile column line }
    ensures within { result < 256 }
{
    let tile = u32::from(tile);
    let (column, line) = (u32::from(column), u32::from(line));
    (tile % 16 + column) % 16 + 16 * ((tile / 16 + line / 8) % 16)
}

impl Object {
    /// Returns the pixels from left to right: 8 to 64.
    fn width(&self) -> u16
        ensures width { result ≡ width_of self.now.size self.now.large }
        ensures least { 8 ≤ result }
        ensures most { result ≤ 64 }
    {
        match (self.size, self.large) {
            (0, true) => 16,
            (2 | 4 | 5, true) => 64,
            (_, true) => 32,
            (0 | 1 | 2, false) => 8,
            (5, false) => 32,
            (_, false) => 16,
        }
    }

    /// Returns the pixels from top to bottom: 8 to 64.
    fn height(&self) -> u16
        ensures height { result ≡ height_of self.now.size self.now.large }
        ensures least { 8 ≤ result }
        ensures most { result ≤ 64 }
    {
        match (self.size, self.large) {
            (0, true) => 16,
            (1 | 3 | 7, true) => 32,
            (_, true) => 64,
            (0 | 1 | 2, false) => 8,
            (3 | 4, false) => 16,
            (_, false) => 32,
        }
    }

    /// Returns the line of an object on a row, from its top, modulo 256.
    fn line_on(&self, row: u16) -> u16
        ensures line { result ≡ line_on self.now row }
        ensures within { result < 256 }
    {
        let object = *self;
        (row % 256 + 256 - u16::from(object.y)) % 256
    }

    /// Whether an object has pixels on a row, from 0, modulo 256.
    pub fn has_row(&self, row: u16) -> bool
        ensures { result ≡ has_row self.now row }
    {
        self.line_on(row) < self.height()
    }

    /// Whether an object has this column of eight pixels, from its left side, and one of them is on the screen.
    pub fn has_column(&self, column: u8) -> bool
        ensures { result ≡ has_column self.now column }
    {
        let left = (u32::from(self.x) + 8 * u32::from(column)) % 512;
        u16::from(column) < self.width() / 8 && (left < 256 || 504 < left)
    }

    /// Returns the line of the tiles that a row shows.
    fn line_shown(&self, row: u16) -> u16
        ensures { result ≡ line_shown self.now row }
    {
        let line = self.line_on(row);
        if self.attributes / 128 == 1 {
            (self.height() - 1).saturating_sub(line)
        } else {
            line
        }
    }

    /// Returns the column of the tiles that a column shows.
    fn column_shown(&self, column: u8) -> u16
        ensures { result ≡ column_shown self.now column }
    {
        if self.attributes / 64 % 2 == 1 {
            (self.width() / 8 - 1).saturating_sub(u16::from(column))
        } else {
            u16::from(column)
        }
    }

    /// Returns the word of VRAM of a column and a line of the tiles.
    fn word_of(&self, tiles: ObjectTiles, column: u16, line: u16) -> u16
        ensures word { result ≡ object_word self.now tiles.base tiles.gap column line }
        ensures within { result < 32768 }
    {
        let table = u32::from(self.attributes % 2) * (4096 * (u32::from(tiles.gap) + 1));
        let tile = tile_at(self.tile, column, line);
        let word = u32::from(tiles.base) + table + 16 * tile + u32::from(line % 8);
        (word % 32_768) as u16
    }

    /// Returns the first word of VRAM of eight pixels on a row, by their column. The second is 8 words on.
    pub fn sliver_word(&self, tiles: ObjectTiles, column: u8, row: u16) -> u16
        ensures word { result ≡ sliver_word self.now tiles.base tiles.gap column row }
        ensures within { result < 32768 }
    {
        self.word_of(tiles, self.column_shown(column), self.line_shown(row))
    }

    /// Returns the colour of a value of its pixels, by its number.
    pub fn colour_of(&self, value: u8) -> u8
        ensures { result ≡ object_colour self.now value }
    {
        128 + 16 * (self.attributes / 2 % 8) + value % 16
    }
}
