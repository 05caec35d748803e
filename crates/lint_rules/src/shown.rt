//! What a line of a background is drawn from: words of its map, lines of its tiles, and colours.

ghost use Rattle.std.specs.Prelude.{◌≡◌, ◌<◌, ◌≤◌};
ghost use Rattle.lint_rules.specs.Shown.{words_of, by_layer, depth_at, side_of, turned, entry_word, map_word, tile_at, tile_word, line_word_by, line_word, moves_layer, across_by, moved_by_two, moved_by_one, moved, of_planes, weight_at, value_of, colour_by, colour_of};

/// The bits a pixel of a background.
#[derive(Clone, Copy, PartialEq, Eq)]
pub enum Depth {
    /// Four colours.
    Two,
    /// Sixteen colours.
    Four,
    /// 256 colours.
    Eight,
}

impl Depth {
    /// Returns how many words a line of a tile has. They are 8 words apart.
    pub fn words(self) -> u16
        ensures words { result ≡ words_of self }
        ensures most { result ≤ 4 }
    {
        match self {
            Depth::Two => 1,
            Depth::Four => 2,
            Depth::Eight => 4,
        }
    }
}

/// Returns one of four depths, by the background from 0.
fn by_layer(
    layer: u8,
    first: Option<Depth>,
    second: Option<Depth>,
    third: Option<Depth>,
    fourth: Option<Depth>,
) -> Option<Depth>
    ensures { result ≡ by_layer layer first second third fourth }
{
    match layer {
        0 => first,
        1 => second,
        2 => third,
        3 => fourth,
        _ => None,
    }
}

/// Returns the depth of a background, from 0, in a mode. `None` if the mode doesn't have it.
pub fn depth_of(mode: u8, layer: u8) -> Option<Depth>
    ensures { result ≡ depth_at mode layer }
{
    let (two, four, eight) = (Some(Depth::Two), Some(Depth::Four), Some(Depth::Eight));
    match mode {
        0 => by_layer(layer, two, two, two, two),
        1 => by_layer(layer, four, four, two, None),
        2 => by_layer(layer, four, four, None, None),
        3 => by_layer(layer, eight, four, None, None),
        4 => by_layer(layer, eight, two, None, None),
        5 => by_layer(layer, four, two, None, None),
        6 => by_layer(layer, four, None, None, None),
        _ => None,
    }
}

/// Returns the pixels of a side of a tile.
fn side_of(is_large: bool) -> u16
    ensures side { result ≡ side_of is_large }
    ensures least { 8 ≤ result }
    ensures most { result ≤ 16 }
{
    if is_large { 16 } else { 8 }
}

/// Returns the place in a tile of this side, counted from the other end if it is turned over.
fn turned(flip: bool, side: u16, n: u16) -> u16
    requires { 0 < side }
    ensures place { result ≡ turned flip side n }
    ensures within { result < side }
{
    if flip { side - 1 - n % side } else { n % side }
}

/// Returns the tile of 8 by 8 pixels at a place in the tile of an entry.
fn tile_at(entry: u16, x: u16, y: u16) -> u16
    requires x { x < 16 }
    requires y { y < 16 }
    ensures tile { result ≡ tile_at entry x y }
    ensures within { result < 1024 }
{
    (entry % 1024 + x / 8 + 16 * (y / 8)) % 1024
}

/// A background of modes 0 to 6.
#[derive(Clone, Copy)]
pub struct Plane {
    /// The bits a pixel.
    pub depth: Depth,
    /// Whether its tiles are 16 pixels wide: by 2105, or in modes 5 and 6.
    pub broad: bool,
    /// Whether its tiles are 16 pixels high, by 2105.
    pub high: bool,
    /// 2107 to 210A: the word of VRAM at which its map begins.
    pub map: u16,
    /// Whether its map is 64 entries wide.
    pub wide: bool,
    /// Whether its map is 64 entries high.
    pub tall: bool,
    /// 210B and 210C: the word of VRAM at which its tiles begin.
    pub tiles: u16,
}

impl Plane {
    /// Returns the word of VRAM with the entry of a column and a row of the map.
    fn entry_word(&self, column: u16, row: u16) -> u16
        ensures word { result ≡ entry_word self.now column row }
        ensures within { result < 32768 }
    {
        let right = if self.wide { column / 32 % 2 * 1024 } else { 0 };
        let screens = if self.wide { 2048 } else { 1024 };
        let below = if self.tall { row / 32 % 2 * screens } else { 0 };
        (self.map % 32_768 + row % 32 * 32 + column % 32 + right + below) % 32_768
    }

    /// Returns the word of VRAM with the entry of a pixel of the map.
    pub fn map_word(&self, x: u16, y: u16) -> u16
        ensures word { result ≡ map_word self.now x y }
        ensures within { result < 32768 }
    {
        self.entry_word(x / side_of(self.broad), y / side_of(self.high))
    }

    /// Returns the first word of VRAM of a line of a tile.
    fn tile_word(&self, tile: u16, y: u16) -> u16
        requires { tile < 1024 }
        ensures word { result ≡ tile_word self.now tile y }
        ensures within { result < 32768 }
    {
        (self.tiles % 32_768 + tile * (8 * self.depth.words()) + y % 8) % 32_768
    }

    /// Returns the first word of VRAM of the line of a tile in which a pixel of the map lies, by the entry there. Further words
    /// are 8 words apart.
    pub fn line_word(&self, entry: u16, x: u16, y: u16) -> u16
        ensures word { result ≡ line_word self.now entry x y }
        ensures within { result < 32768 }
    {
        let x = turned(entry / 16_384 % 2 == 1, side_of(self.broad), x);
        let y = turned(entry / 32_768 == 1, side_of(self.high), y);
        self.tile_word(tile_at(entry, x, y), y)
    }
}

/// The scrolls of a background at a place, ten bits each.
#[derive(Clone, Copy)]
pub struct Scroll {
    /// To the right.
    pub across: u16,
    /// Downwards.
    pub down: u16,
}

/// Whether an entry of BG3's map moves BG1 (0) or BG2 (1).
fn moves_layer(layer: u8, entry: u16) -> bool
    ensures { result ≡ moves_layer layer entry }
{
    let bit = if layer == 0 {
        entry / 8192 % 2
    } else {
        entry / 16_384 % 2
    };
    bit == 1
}

impl Scroll {
    /// Returns the scroll across that an entry gives.
    fn across_by(&self, entry: u16) -> u16
        ensures across { result ≡ across_by self.now entry }
        ensures within { result < 1024 }
    {
        entry / 8 % 128 * 8 + self.across % 8
    }

    /// Returns the scrolls by two entries, one for each direction.
    fn moved_by_two(&self, layer: u8, first: u16, second: u16) -> Scroll
        ensures { result ≡ moved_by_two layer self.now first second }
    {
        Scroll {
            across: if moves_layer(layer, first) {
                self.across_by(first)
            } else {
                self.across
            },
            down: if moves_layer(layer, second) {
                second % 1024
            } else {
                self.down
            },
        }
    }

    /// Returns the scrolls by one entry, whose bit 15 says for which direction it is.
    fn moved_by_one(&self, layer: u8, entry: u16) -> Scroll
        ensures { result ≡ moved_by_one layer self.now entry }
    {
        if !moves_layer(layer, entry) {
            return *self;
        }
        if entry / 32_768 == 1 {
            Scroll {
                across: self.across,
                down: entry % 1024,
            }
        } else {
            Scroll {
                across: self.across_by(entry),
                down: self.down,
            }
        }
    }

    /// Returns the scrolls of BG1 (0) or BG2 (1) in a column, which entries of BG3's map move in modes 2, 4 and 6.
    pub fn moved(&self, mode: u8, layer: u8, first: u16, second: u16) -> Scroll
        ensures { result ≡ moved mode layer self.now first second }
    {
        match mode {
            4 => self.moved_by_one(layer, first),
            2 | 6 => self.moved_by_two(layer, first, second),
            _ => *self,
        }
    }
}

/// Returns the weight of the bit of a pixel, from the left.
fn weight_at(k: u8) -> u16
    ensures weight { result ≡ weight_at k }
    ensures least { 0 < result }
    ensures most { result ≤ 128 }
{
    match k % 8 {
        0 => 128,
        1 => 64,
        2 => 32,
        3 => 16,
        4 => 8,
        5 => 4,
        6 => 2,
        _ => 1,
    }
}

/// Returns the two bits of a pixel in a word of two planes.
fn of_planes(word: u16, weight: u16) -> u16
    requires least { 0 < weight }
    requires most { weight ≤ 128 }
    ensures value { result ≡ of_planes word weight }
    ensures within { result ≤ 3 }
{
    word / weight % 2 + 2 * (word / (256 * weight) % 2)
}

/// Returns the value of a pixel, from the left, of the words of a tile's line. Words that it doesn't have are 0.
pub fn value_of(words: &[u16; 4], k: u8) -> u8
    ensures { result ≡ value_of words.now k }
{
    let weight = weight_at(k);
    let low = of_planes(words[0], weight) + 4 * of_planes(words[1], weight);
    let high = 16 * of_planes(words[2], weight) + 64 * of_planes(words[3], weight);
    (low + high) as u8
}

/// Returns the colour of a background's value, by its number from 0 to 255.
pub fn colour_of(mode: u8, layer: u8, depth: Depth, entry: u16, value: u8) -> u8
    ensures { result ≡ colour_of mode layer depth entry value }
{
    let first = if mode == 0 {
        32 * u16::from(layer % 4)
    } else {
        0
    };
    let palette = entry / 1024 % 8;
    match depth {
        Depth::Two => ((first + 4 * palette + u16::from(value)) % 256) as u8,
        Depth::Four => ((16 * palette + u16::from(value)) % 256) as u8,
        Depth::Eight => value,
    }
}
