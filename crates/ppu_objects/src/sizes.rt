//! The sizes of objects in pixels, by the size code of 2101 OBSEL.

ghost use Rattle.std.specs.Prelude.{◌≡◌, ℕ, ◌≤◌, Bool, true, false};
ghost use Rattle.ppu_objects.specs.Objects.{width_of, height_of};

use std::marker::Model;

/// Returns the width of an object in pixels, 8 to 64.
#[inline(always)]
#[tactic(auto, unfolding(crate::specs::Objects::width_of))]
fn width(code: u8, large: bool) -> u16
    ensures value { result ≡ width_of code large }
    ensures least { 8 ≤ result }
    ensures most { result ≤ 64 }
{
    if large {
        if code == 0 {
            16
        } else if code == 2 || code == 4 || code == 5 {
            64
        } else {
            32
        }
    } else if code <= 2 {
        8
    } else if code == 5 {
        32
    } else {
        16
    }
}

/// Returns the height of an object in pixels, 8 to 64.
#[inline(always)]
#[tactic(auto, unfolding(crate::specs::Objects::height_of))]
fn height(code: u8, large: bool) -> u16
    ensures value { result ≡ height_of code large }
    ensures least { 8 ≤ result }
    ensures most { result ≤ 64 }
{
    if large {
        if code == 0 {
            16
        } else if code == 1 || code == 3 || code == 7 {
            32
        } else {
            64
        }
    } else if code <= 2 {
        8
    } else if code <= 4 {
        16
    } else {
        32
    }
}

/// The sizes of small and of large objects, found once for a row. Contracts see them as their size code, bits 7-5 of
/// 2101.
#[derive(Drop)]
pub struct Sizes {
    code: u8,
    small_width: u16,
    large_width: u16,
    small_height: u16,
    large_height: u16,
}

impl Model for Sizes {
    ghost use Rattle.std.specs.Prelude.{◌≡◌, ℕ, ◌≤◌, true, false};
    ghost use Rattle.ppu_objects.specs.Objects.{width_of, height_of};

    ghost Value = { ℕ };

    ghost view = { λ s. s.code };

    ghost invariant = { λ s. (s.small_width ≡ width_of s.code false) × (8 ≤ s.small_width) × (s.small_width ≤ 64)
        × (s.large_width ≡ width_of s.code true) × (8 ≤ s.large_width) × (s.large_width ≤ 64)
        × (s.small_height ≡ height_of s.code false) × (8 ≤ s.small_height) × (s.small_height ≤ 64)
        × (s.large_height ≡ height_of s.code true) × (8 ≤ s.large_height) × (s.large_height ≤ 64) };
}

impl Sizes {
    /// Returns the sizes of a size code, 0 to 7.
    #[inline(always)]
    pub fn of(code: u8) -> Sizes
        ensures { result ≡ code }
    {
        Sizes {
            code,
            small_width: width(code, false),
            large_width: width(code, true),
            small_height: height(code, false),
            large_height: height(code, true),
        }
    }

    /// Returns the width of a small or a large object in pixels, 8 to 64.
    #[inline(always)]
    pub fn width(&self, large: bool) -> u16
        ensures value { result ≡ width_of self.now large }
        ensures least { 8 ≤ result }
        ensures most { result ≤ 64 }
    {
        if large {
            self.large_width
        } else {
            self.small_width
        }
    }

    /// Returns the height of a small or a large object in pixels, 8 to 64.
    #[inline(always)]
    pub fn height(&self, large: bool) -> u16
        ensures value { result ≡ height_of self.now large }
        ensures least { 8 ≤ result }
        ensures most { result ≤ 64 }
    {
        if large {
            self.large_height
        } else {
            self.small_height
        }
    }
}
