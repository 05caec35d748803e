//! Makes the three backgrounds, by rules that repeat after 256 pixels, and the HDMA tables of the sky, sun and waves.

ghost use Rattle.std.specs.Prelude.{◌<◌, ◌≤◌};

use crate::graphics::{Layer, SHORE, blend, dots, put_colours, put_layer};
use crate::image::{Image, SKY, SUN, WAVES};

/// The number of pairs of rows of the lake; the two rows of a pair share a scroll.
pub const WAVE_PAIRS: u8 = 28;

static HILLS: Layer = Layer {
    map: 0x0000,
    screens: 4,
    word: 0x2800,
    tile: 0x80,
    pairs: 2,
    top: 16,
    down: 12,
    palette: 2,
};

static MOUNTAINS: Layer = Layer {
    map: 0x1000,
    screens: 4,
    word: 0x4000,
    tile: 0,
    pairs: 2,
    top: 12,
    down: 16,
    palette: 4,
};

static HEAVEN: Layer = Layer {
    map: 0x2000,
    screens: 2,
    word: 0x7000,
    tile: 0x200,
    pairs: 1,
    top: 0,
    down: 16,
    palette: 0,
};

/// Colours RRGGBB of stars and clouds, hills, and the lake from its far end with its strokes.
static CLOUD_COLOURS: [u32; 4] = [0, 0xffc8c8, 0xd078a8, 0x904898];

static HILL_COLOURS: [u32; 6] = [0, 0x683058, 0x281840, 0x201038, 0x181030, 0x100828];

static LAKE_COLOURS: [u32; 10] = [
    0, 0xd08090, 0xa06098, 0x785098, 0x584090, 0x403888, 0x282878, 0x182068, 0xf8c8a0, 0x8878c8,
];
/// Colours RRGGBB of snow and rock in light and in shade, the rock from above down; then those of the mountains and
/// the sky in the lake.
static MOUNTAIN_COLOURS: [u32; 11] = [
    0, 0xf8e0e0, 0x9880c8, 0x804888, 0x905088, 0xa86088, 0xc07888, 0x402870, 0x583078, 0x704080,
    0x905880,
];

static REFLECTED_COLOURS: [u32; 15] = [
    0, 0xc0a0c0, 0x7060a8, 0x583078, 0x683878, 0x804878, 0x985878, 0x302060, 0x402868, 0x503070,
    0x704070, 0xf89848, 0xe07060, 0xa84870, 0x703080,
];
/// Colours RRGGBB of the sky from above down, in steps of 42 rows.
static SKY_COLOURS: [u32; 5] = [0x101048, 0x381878, 0x883888, 0xd85868, 0xf8a848];

/// The puffs of the clouds: x, y and radius.
static PUFFS: [(u8, u8, u8); 11] = [
    (20, 66, 9),
    (32, 62, 13),
    (47, 65, 10),
    (60, 68, 7),
    (120, 92, 8),
    (132, 89, 11),
    (146, 92, 8),
    (196, 52, 8),
    (208, 47, 14),
    (224, 50, 12),
    (238, 54, 8),
];

/// Returns a wave with straight sides: 0 at 0, 128 at 128, and 0 again at 256.
fn fold(angle: u32) -> u32
    ensures { result ≤ 128 }
{
    let turned = angle % 256;
    turned.min(256 - turned)
}

/// Returns a number that looks random.
fn thrown(seed: u8) -> u8 {
    let mixed = u32::from(seed).wrapping_mul(0x9e37_79b1);
    ((mixed ^ mixed / 0x8000).wrapping_mul(0x85eb_ca6b) / 0x100_0000) as u8
}

/// Returns the square of a distance.
pub fn square(distance: u8) -> u32
    ensures { result ≤ 65025 }
{
    u32::from(distance) * u32::from(distance)
}

/// Returns the height of the mountains at an x, 5 to 62.
fn ridge(x: u32) -> u32
    ensures { result ≤ 64 }
{
    let x = x % 256;
    let (broad, fine) = (
        20 * fold(x + 20) + 15 * fold(3 * x + 200),
        4 * fold(11 * x + 90) + 2 * fold(29 * x),
    );
    5 + (broad + 9 * fold(5 * x) + fine) / 112
}

/// Returns a mountain's pixel: 0 above the ridge.
fn mountain(x: u8, height: u8) -> u8
    ensures { result ≤ 10 }
{
    let (x, height) = (u32::from(x), u32::from(height));
    let depth = ridge(x).saturating_sub(height);
    if depth == 0 {
        return 0;
    }
    let side = x + 256 - depth / 3;
    let lit = ridge(side + 1) > ridge(side) || ridge(side + 3) > ridge(side);
    if height > 34 + fold(16 * x) / 12 {
        return if lit { 1 } else { 2 };
    }
    let level = 3 - (height / 12).min(3) as u8;
    level + if lit { 3 } else { 7 }
}

/// Returns a pixel of BG2: the mountains, and below the shore what the lake shows of them and of the sky.
fn mountains(x: u8, y: u8) -> u8 {
    if y < 72 {
        return mountain(x, 71 - y);
    }
    let deep = y - 72;
    let seen = mountain(x, deep.saturating_add(deep / 4));
    if seen != 0 {
        seen
    } else {
        11 + (deep / 14).min(3)
    }
}

/// Returns a pixel of BG1: hills with trees, and the lake.
fn hills(x: u8, y: u8) -> u8 {
    if y >= 40 {
        return lake(u32::from(x), u32::from(y - 40));
    }
    let ground = 5 + (fold(u32::from(x) + 40) + fold(2 * u32::from(x))) / 22;
    let tree = (4 + thrown(x / 8) % 10).saturating_sub((x % 8).abs_diff(4) * 4);
    let top = ground + u32::from(tree);
    let height = 39 - u32::from(y);
    match top.saturating_sub(height) {
        0 => 0,
        1 => 1,
        2..=5 => 2,
        6..=11 => 3,
        _ => if height < 3 { 5 } else { 4 },
    }
}

/// Returns a pixel of the lake: bands that grow towards the near end, with bright and dark strokes.
fn lake(x: u32, y: u32) -> u8
    requires across { x < 256 }
    requires down { y < 256 }
{
    let stroke = fold(x + 151 * y) + fold(3 * x + 83 * y) + fold(2 * x + 197 * y);
    match (stroke, y) {
        (310.., _) => 8,
        (285..=309, _) => 9,
        (_, 0..=1) => 1,
        (_, 2..=5) => 2,
        (_, 6..=11) => 3,
        (_, 12..=20) => 4,
        (_, 21..=31) => 5,
        (_, 32..=43) => 6,
        _ => 7,
    }
}

/// Returns a pixel of BG3: stars, and clouds below them. The first tile is empty.
fn heaven(x: u8, y: u8) -> u8 {
    if y >= 40 {
        return cloud(x, y);
    }
    let cell = (y / 8 * 32).wrapping_add(x / 8);
    let chance = thrown(cell.wrapping_mul(7).wrapping_add(3));
    let is_here = y % 8 * 8 + x % 8 == thrown(cell) % 64;
    if is_here && cell != 0 && chance < 70 {
        1 + chance % 3
    } else {
        0
    }
}

/// Returns the light of a cloud: that of the brightest puff there; each is flat below.
fn cloud(x: u8, y: u8) -> u8 {
    let mut light = 0u8;
    for (middle, height, radius) in PUFFS {
        let (across, down) = (x.abs_diff(middle), y.abs_diff(height));
        let is_low = y > height && down > radius / 3;
        if square(across) + 3 * square(down) < square(radius) && !is_low {
            let shade = if y > height {
                3
            } else if down < radius / 3 {
                2
            } else {
                1
            };
            light = if light == 0 { shade } else { light.min(shade) };
        }
    }
    light
}

/// Returns the greatest half width of a circle at a distance from its middle.
fn half_width(radius: u8, distance: u8) -> u8 {
    let mut widest = 0;
    for width in 0..=radius {
        if square(width) + square(distance) <= square(radius) {
            widest = width;
        }
    }
    widest
}

/// Puts the sky's table: every two lines it names colour 0 and sets it again.
fn put_sky(image: &mut Image) {
    for (part, colours) in SKY_COLOURS.windows(2).enumerate() {
        if let [above, below] = colours {
            for step in 0..21u32 {
                let at = SKY + 5 * (21 * (part % 4) as u32 + step);
                image.put(at, &[2, 0, 0]);
                image.put_word(at + 3, dots(blend(*above, *below, 3 * step)));
            }
        }
    }
}

/// Puts the table of the window's edges: none, the sun in 80 lines with gaps below its middle, none, the whole lake.
fn put_sun(image: &mut Image) {
    image.put(SUN, &[44, 1, 0, 0x80 + 80]);
    for line in 0..80u8 {
        let half = half_width(40, line.abs_diff(40));
        let is_gap = line > 40 && line % 8 < (line - 32) / 10;
        let edges = if is_gap {
            [1, 0]
        } else {
            [128u8.saturating_sub(half), 127u8.saturating_add(half)]
        };
        image.put(SUN + 4 + 2 * u32::from(line), &edges);
    }
    image.put(SUN + 164, &[8 * SHORE - 124, 1, 0, 1, 0, 255]);
}

/// Puts everything that the backgrounds need.
pub fn put_landscape(image: &mut Image) {
    put_layer(image, &HILLS, hills);
    put_layer(image, &MOUNTAINS, mountains);
    put_layer(image, &HEAVEN, heaven);
    put_colours(image, 0, &CLOUD_COLOURS);
    put_colours(image, 32, &HILL_COLOURS);
    put_colours(image, 48, &LAKE_COLOURS);
    put_colours(image, 64, &MOUNTAIN_COLOURS);
    put_colours(image, 80, &REFLECTED_COLOURS);
    put_sky(image);
    put_sun(image);
    // The waves before they bend: the rows down to the shore, and pairs of rows of the lake.
    image.put(WAVES, &[127, 0, 0, 8 * SHORE - 127]);
    for pair in 0..u32::from(WAVE_PAIRS) {
        image.put(WAVES + 6 + 3 * pair, &[2]);
    }
}
