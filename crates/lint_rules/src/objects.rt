//! Objects that are not square: a console turns each of their square halves by itself.

ghost use Rattle.std.specs.Prelude.{◌≡◌};
ghost use Rattle.lint_rules.specs.Screens.{is_tall, object_width, object_height, is_on_rows, is_on_columns, flip_broken};

use crate::rule::Rule;

/// What OAM and 2101 say of an object.
#[derive(Clone, Copy)]
pub struct Object {
    /// 2101 bits 7-5: the size code.
    pub size: u8,
    /// Whether it is one of the large ones.
    pub large: bool,
    /// X, nine bits.
    pub x: u16,
    /// Y.
    pub y: u8,
    /// The number of its first tile.
    pub tile: u8,
    /// The attributes: bit 7 turns it over from top to bottom, bit 6 from left to right. Bits 3-1 are the palette, bit 0 the
    /// table of tiles.
    pub attributes: u8,
}

/// Whether an object is twice as high as wide.
fn is_tall(object: Object) -> bool
    ensures { result ≡ is_tall object }
{
    object.size == 6 || object.size == 7 && !object.large
}

/// Returns the pixels of such an object from left to right.
fn object_width(object: Object) -> u64
    ensures { result ≡ object_width object }
{
    if object.large { 32 } else { 16 }
}

/// Returns the pixels of such an object from top to bottom.
fn object_height(object: Object) -> u64
    ensures { result ≡ object_height object }
{
    if object.large { 64 } else { 32 }
}

/// Whether such an object is on one of the first `rows` rows. Rows count modulo 256.
fn is_on_rows(object: Object, rows: u64) -> bool
    ensures { result ≡ is_on_rows object rows }
{
    let y = u64::from(object.y);
    y < rows || 256 < y + object_height(object)
}

/// Whether such an object has a pixel in columns 0 to 255. X has nine bits, signed.
fn is_on_columns(object: Object) -> bool
    ensures { result ≡ is_on_columns object }
{
    let x = u64::from(object.x);
    x < 256 || 512 < x + object_width(object)
}

/// Returns the rule that an object breaks in a picture of so many rows.
///
/// A console turns each of the two square halves over by itself. Here the whole is turned over.
pub fn flip_rule(object: Object, rows: u64) -> Option<Rule>
    ensures { result ≡ flip_broken object rows }
{
    let is_turned = is_tall(object) && 128 <= object.attributes;
    if is_turned && is_on_rows(object, rows) && is_on_columns(object) {
        Some(Rule::VerticalFlipOfHalves)
    } else {
        None
    }
}
