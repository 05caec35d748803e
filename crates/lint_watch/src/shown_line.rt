//! What a line of the picture is drawn from, as the registers are when it begins: words of VRAM, colours, and bytes of OAM.

ghost use Rattle.std.specs.Prelude.{◌<◌};

use crate::lines::object_of;
use crate::shown::{ShownMemories, Tally};
use crate::watch::Watch;
use lint_moments::Now;
use lint_rules::{
    Cause, Depth, Finding, Findings, Object, ObjectTiles, Plane, Rule, Screen, Scroll, Turned,
    Unit, colour_of, depth_of, is_outside, turned_map_word, turned_tile_word, value_of,
};
use ppu_regs::{Background, Outside, Ppu, Registers};
use std::alloc::AllocError;

/// A line when it begins.
#[derive(Clone, Copy)]
struct Line<'a> {
    picture: &'a Ppu,
    registers: &'a Registers,
    screen: Screen,
    /// The row of the picture, from 0.
    row: u16,
}

/// Returns a background of a mode, as its decider has it.
fn plane_of(mode: u8, depth: Depth, background: &Background) -> Plane {
    Plane {
        depth,
        broad: background.large || mode == 5 || mode == 6,
        high: background.large,
        map: background.map_base,
        wide: background.wide,
        tall: background.tall,
        tiles: background.tile_base,
    }
}

/// Returns the scrolls of a background's registers.
fn scroll_of(background: &Background) -> Scroll {
    Scroll {
        across: background.scroll_x % 1024,
        down: background.scroll_y % 1024,
    }
}

/// Returns the first row of the block of mosaic that a row is in.
fn block_row(line: &Line<'_>, has_mosaic: bool) -> u16
    ensures { result < 256 }
{
    let row = line.row % 256;
    if has_mosaic {
        row - row % (u16::from(line.registers.mosaic % 16) + 1)
    } else {
        row
    }
}

/// Returns a word of VRAM.
fn word_at(line: &Line<'_>, word: u16) -> u16 {
    match line.picture.vram().get(usize::from(word)) {
        Some(found) => *found,
        None => 0,
    }
}

/// Returns the registers that turn the plane of mode 7.
fn turned_of(registers: &Registers) -> Turned {
    let rotation = &registers.rotation;
    Turned {
        a: rotation.a,
        b: rotation.b,
        c: rotation.c,
        d: rotation.d,
        center_x: rotation.center_x,
        center_y: rotation.center_y,
        scroll_x: rotation.scroll_x,
        scroll_y: rotation.scroll_y,
    }
}

/// Whether colours of 8 bits are direct: then they are not in CGRAM.
fn is_direct(line: &Line<'_>) -> bool {
    let mode = line.screen.mode;
    line.registers.colour.direct && (mode == 3 || mode == 4 || mode == 7)
}

/// Whether entries of BG3's map move columns of a mode.
fn moves_columns(mode: u8) -> bool {
    mode == 2 || mode == 4 || mode == 6
}

impl ShownMemories {
    /// Shows the colours of the eight pixels of a background's words.
    fn show_colours(
        &mut self,
        line: &Line<'_>,
        layer: u8,
        depth: Depth,
        entry: u16,
        words: &[u16; 4],
    ) {
        if self.cgram.is_whole() || depth == Depth::Eight && is_direct(line) {
            return;
        }
        for k in 0u8..8 {
            let value = value_of(words, k);
            if value != 0 {
                let colour = colour_of(line.screen.mode, layer, depth, entry, value);
                let _is_known = self.cgram.show(usize::from(colour));
            }
        }
    }

    /// Shows the line of a tile.
    fn show_tile(&mut self, line: &Line<'_>, layer: u8, depth: Depth, entry: u16, first: u16) {
        let mut words = [0u16; 4];
        let mut is_known = true;
        for k in 0u16..4 {
            if k < depth.words() {
                let word = (first % 32_768 + 8 * k) % 32_768;
                is_known = self.show_word(word) && is_known;
                words[usize::from(k)] = word_at(line, word);
            }
        }
        if is_known {
            self.show_colours(line, layer, depth, entry, &words);
        }
    }

    /// Shows the entry at a pixel of a background's map, and the line of its tile.
    fn show_entry(&mut self, line: &Line<'_>, layer: u8, plane: &Plane, x: u16, y: u16) {
        let word = plane.map_word(x, y);
        if self.show_word(word) {
            let entry = word_at(line, word);
            let first = plane.line_word(entry, x, y);
            self.show_tile(line, layer, plane.depth, entry, first);
        }
    }

    /// Returns the scrolls of a column that has entries in BG3's map, which are shown.
    fn scroll_in(&mut self, line: &Line<'_>, layer: u8, own: Scroll, column: u16) -> Scroll {
        let background = &line.registers.bg3;
        let map = plane_of(line.screen.mode, Depth::Two, background);
        let scroll = scroll_of(background);
        let x = 8 * (column % 64) + scroll.across % 1024 / 8 * 8;
        let y = scroll.down % 1024;
        let first = map.map_word(x, y);
        let second = map.map_word(x, y + 8);
        let _is_known = self.show_word(first);
        if line.screen.mode != 4 {
            let _is_known = self.show_word(second);
        }
        own.moved(
            line.screen.mode,
            layer,
            word_at(line, first),
            word_at(line, second),
        )
    }

    /// Shows a column of a background: 8 pixels of the screen.
    fn show_column(
        &mut self,
        line: &Line<'_>,
        layer: u8,
        plane: &Plane,
        background: &Background,
        column: u16,
    ) {
        let mode = line.screen.mode;
        let mut scroll = scroll_of(background);
        if moves_columns(mode) && 0 < column {
            scroll = self.scroll_in(line, layer, scroll, column - 1);
        }
        let x = 8 * (column % 64 + scroll.across % 1024 / 8);
        let y = block_row(line, background.mosaic) + 1 + scroll.down % 1024;
        if mode == 5 || mode == 6 {
            self.show_entry(line, layer, plane, 2 * x, y);
            self.show_entry(line, layer, plane, 2 * x + 8, y);
        } else {
            self.show_entry(line, layer, plane, x, y);
        }
    }

    /// Shows a background, by its number from 0, if the screen has it.
    fn show_background(&mut self, line: &Line<'_>, layer: u8) {
        let mode = line.screen.mode;
        if !line.screen.shows_layer(layer) {
            return;
        }
        if let Some(depth) = depth_of(mode, layer) {
            let background = line.registers.background(layer % 4 + 1);
            let plane = plane_of(mode, depth, background);
            for column in 0u16..33 {
                if column < 32 || background.scroll_x % 8 != 0 {
                    self.show_column(line, layer, &plane, background, column);
                }
            }
        }
    }

    /// Shows a pixel of the plane of mode 7, by its tile.
    fn show_pixel(&mut self, line: &Line<'_>, tile: u8, across: u32, down: u32) {
        let word = turned_tile_word(tile, across, down);
        if !self.vram.show(2 * usize::from(word) + 1) {
            return;
        }
        let value = word_at(line, word) / 256;
        if value != 0 && line.screen.shows_plane(false) && !is_direct(line) {
            let _is_known = self.cgram.show(usize::from(value));
        }
        if value % 128 != 0 && line.screen.shows_plane(true) {
            let _is_known = self.cgram.show(usize::from(value % 128));
        }
    }

    /// Shows a place of the plane of mode 7: its tile, and its pixel.
    fn show_place(&mut self, line: &Line<'_>, across: u32, down: u32) {
        let outside = is_outside(across, down);
        match line.registers.rotation.outside {
            Outside::Nothing if outside => {}
            Outside::TileZero if outside => self.show_pixel(line, 0, across, down),
            _ => {
                let word = turned_map_word(across, down);
                if self.vram.show(2 * usize::from(word)) {
                    let tile = (word_at(line, word) % 256) as u8;
                    self.show_pixel(line, tile, across, down);
                }
            }
        }
    }

    /// Shows the plane of mode 7.
    fn show_plane(&mut self, line: &Line<'_>) {
        let turned = turned_of(line.registers);
        let rotation = &line.registers.rotation;
        let row = u32::from(block_row(line, line.registers.bg1.mosaic)) + 1;
        let y = if rotation.flip_y {
            255u32.saturating_sub(row)
        } else {
            row
        };
        for column in 0u32..256 {
            let x = if rotation.flip_x {
                255 - column
            } else {
                column
            };
            self.show_place(line, turned.place_across(x, y), turned.place_down(x, y));
        }
    }

    /// Shows eight pixels of an object on a row, by their column.
    fn show_sliver(&mut self, line: &Line<'_>, object: &Object, column: u8) {
        let tiles = ObjectTiles {
            base: line.registers.object_tiles.base,
            gap: line.registers.object_tiles.gap,
        };
        let first = object.sliver_word(tiles, column, line.row);
        let second = (first % 32_768 + 8) % 32_768;
        let is_known = self.show_word(first);
        if !self.show_word(second) || !is_known || self.cgram.is_whole() {
            return;
        }
        let words = [word_at(line, first), word_at(line, second), 0, 0];
        for k in 0u8..8 {
            let value = value_of(&words, k);
            if value != 0 {
                let _is_known = self.cgram.show(usize::from(object.colour_of(value)));
            }
        }
    }

    /// Shows an object, by its number, of which OAM's bytes for its place have been written.
    fn show_placed(&mut self, line: &Line<'_>, object: &Object, number: u8) {
        let at = 4 * usize::from(number % 128);
        let mut is_shown = false;
        for column in 0u8..8 {
            is_shown = is_shown || object.has_column(column);
        }
        if !is_shown {
            return;
        }
        let has_tile = self.oam.show(at + 2);
        if !self.oam.show(at + 3) || !has_tile {
            return;
        }
        for column in 0u8..8 {
            if object.has_column(column) {
                self.show_sliver(line, object, column);
            }
        }
    }

    /// Shows an object, by its number from 0 to 127, if the row may have it.
    fn show_object(&mut self, line: &Line<'_>, number: u8) {
        let at = 4 * usize::from(number % 128);
        let high = 512 + usize::from(number % 128 / 4);
        let size = line.registers.object_tiles.size;
        let Some(object) = object_of(line.picture.oam(), number % 128, size) else {
            return;
        };
        let other = Object {
            large: !object.large,
            ..object
        };
        if !self.oam.show(at + 1) {
            let _is_known = self.oam.show(at);
        } else if !self.oam.has(high) {
            if object.has_row(line.row) || other.has_row(line.row) {
                let _is_known = self.oam.show(high);
            }
        } else if object.has_row(line.row) {
            self.show_placed(line, &object, number);
        }
    }

    /// Shows a line.
    fn show_line(&mut self, line: &Line<'_>) {
        self.begin_line();
        let _is_known = self.cgram.show(0);
        for layer in 0u8..4 {
            self.show_background(line, layer);
        }
        if line.screen.shows_seven() {
            self.show_plane(line);
        }
        if line.screen.shows_objects() {
            for number in 0u8..128 {
                self.show_object(line, number);
            }
        }
    }
}

/// Adds what a line shows of a memory, if anything is told of it.
fn tell_shown(
    findings: &mut Findings,
    rule: Rule,
    by: u32,
    tally: Tally,
    now: &Now,
) -> Result<(), AllocError> {
    if tally.count == 0 {
        return Ok(());
    }
    let cause = Cause {
        unit: Unit::Console,
        address: by,
    };
    let mut found = Finding::new(rule, cause, tally.first, now.moment());
    found.count = tally.count;
    findings.add(found)
}

impl Watch {
    /// Checks what the line of a row is drawn from, unless all memories of the picture unit have been written.
    pub fn see_memories(
        &mut self,
        findings: &mut Findings,
        picture: &Ppu,
        screen: &Screen,
        row: u16,
        now: &Now,
    ) -> Result<(), AllocError> {
        if self.shown.is_whole() {
            return Ok(());
        }
        let line = Line {
            picture,
            registers: picture.registers(),
            screen: *screen,
            row,
        };
        self.shown.show_line(&line);
        let by = self.writes.screen_by;
        let mut vram = self.shown.vram.tally;
        vram.first = vram.first / 2;
        tell_shown(findings, Rule::VramShownBeforeWrite, by, vram, now)?;
        let cgram = self.shown.cgram.tally;
        tell_shown(findings, Rule::CgramShownBeforeWrite, by, cgram, now)?;
        let oam = self.shown.oam.tally;
        tell_shown(findings, Rule::OamShownBeforeWrite, by, oam, now)
    }
}
