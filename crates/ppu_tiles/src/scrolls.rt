//! The scrolls of a background, for all columns or for each (offset per tile).
ghost use Rattle.std.specs.Prelude.{◌≡◌, ◌<◌, ◌≤◌, ◌%◌, ◌/◌, ◌*◌, ◌+◌, ◌==◌};
ghost use Rattle.ppu_regs.specs.Picture.{background_of};
ghost use Rattle.ppu_tiles.specs.Backgrounds.{own_scroll, offset_entry, acts_on, across_by, two_offsets, one_offset};
ghost use Rattle.ppu_tiles.specs.Backgrounds.{column_scroll};

use crate::entries::entry;
use crate::modes::offsets;
use ppu_regs::{Background, Ppu};

/// The scrolls of a layer at one place, ten bits each.
#[derive(Clone, Copy)]
pub struct Scroll {
    /// The scroll to the right.
    pub across: u16,
    /// The scroll downwards.
    pub down: u16,
}

/// Returns the scrolls of a layer's registers.
#[inline(always)]
#[tactic(auto, unfolding(crate::specs::Backgrounds::own_scroll))]
pub fn own(b: &Background) -> Scroll
    ensures scroll { result ≡ own_scroll b.now }
    ensures across { result.across < 1024 }
    ensures down { result.down < 1024 }
{
    Scroll {
        across: b.scroll_x % 1024,
        down: b.scroll_y % 1024,
    }
}

/// Returns BG3's entry for a column, 1 to 32, or the entry `lower` pixels below it.
#[inline(always)]
#[tactic(auto, unfolding(crate::specs::Backgrounds::offset_entry))]
fn offset(p: &Ppu, mode: u8, c: u16, lower: u16) -> u16
    requires mode { mode ≡ p.now.registers.mode }
    requires first { 0 < c }
    requires last { c ≤ 32 }
    requires lower { lower ≤ 8 }
    ensures { result ≡ offset_entry p.now c lower }
{
    let b = &p.registers().bg3;
    entry(
        p,
        mode,
        b,
        8 * (c - 1) + b.scroll_x / 8 % 128 * 8,
        b.scroll_y % 1024 + lower,
    )
}

/// Returns whether an entry acts on BG1 or BG2.
#[inline(always)]
fn acts(layer: u8, entry: u16) -> bool
    ensures { result ≡ acts_on layer entry }
{
    let bit = if layer == 1 {
        entry / 8192 % 2
    } else {
        entry / 16384 % 2
    };
    bit == 1
}

/// Returns the scrolls of modes 2 and 6, by an entry for across and one for down.
#[inline(always)]
#[tactic(auto, unfolding(crate::specs::Backgrounds::two_offsets))]
fn two(layer: u8, own: Scroll, first: u16, second: u16) -> Scroll
    requires across { own.across < 1024 }
    requires down { own.down < 1024 }
    ensures scroll { result ≡ two_offsets layer own first second }
    ensures across { result.across < 1024 }
    ensures down { result.down < 1024 }
{
    Scroll {
        across: if acts(layer, first) {
            first / 8 % 128 * 8 + own.across % 8
        } else {
            own.across
        },
        down: if acts(layer, second) {
            second % 1024
        } else {
            own.down
        },
    }
}

/// Returns the scrolls of mode 4, by one entry. Its bit 15 says whether it is for down.
#[inline(always)]
#[tactic(auto, unfolding(crate::specs::Backgrounds::one_offset))]
fn one(layer: u8, own: Scroll, entry: u16) -> Scroll
    requires across { own.across < 1024 }
    requires down { own.down < 1024 }
    ensures scroll { result ≡ one_offset layer own entry }
    ensures across { result.across < 1024 }
    ensures down { result.down < 1024 }
{
    if !acts(layer, entry) {
        return own;
    }
    if entry / 32768 == 1 {
        Scroll {
            across: own.across,
            down: entry % 1024,
        }
    } else {
        Scroll {
            across: entry / 8 % 128 * 8 + own.across % 8,
            down: own.down,
        }
    }
}

/// Returns the scrolls of a layer in a column of tiles.
#[inline(always)]
#[tactic(auto, unfolding(crate::specs::Backgrounds::column_scroll))]
pub fn in_column(p: &Ppu, mode: u8, layer: u8, own: Scroll, c: u16) -> Scroll
    requires mode { mode ≡ p.now.registers.mode }
    requires own { own ≡ own_scroll (background_of p.now.registers layer) }
    requires across { own.across < 1024 }
    requires down { own.down < 1024 }
    requires c { c ≤ 32 }
    ensures scroll { result ≡ column_scroll p.now layer c }
    ensures across { result.across < 1024 }
    ensures down { result.down < 1024 }
{
    if !offsets(mode) || c == 0 {
        own
    } else if mode == 4 {
        one(layer, own, offset(p, mode, c, 0))
    } else {
        two(layer, own, offset(p, mode, c, 0), offset(p, mode, c, 8))
    }
}
