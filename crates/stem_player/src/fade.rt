// The level of a sample in a fade, and a sample at a level.
ghost use Rattle.std.specs.Prelude.{◌≡◌, ◌≤◌, ◌+◌, ◌*◌, ◌<◌};
ghost use Rattle.std.specs.Int.{w16, cast_signed};
ghost use Rattle.stem_player.specs.Heard.{at_level, faded, level, number_at};

/// The level of a sample in parts of 65,536, when `left` samples remain, this one included.
#[tactic(auto, unfolding(crate::specs::Heard::level))]
pub fn level_of(fade: u32, left: u32) -> u32
    ensures value { result ≡ level fade left }
    ensures small { result ≤ 65536 }
{
    if fade <= left {
        65536
    } else {
        (65536 * left as u64 / fade as u64) as u32
    }
}

/// A signed number by its two bytes.
fn number(low: u8, high: u8) -> i16
    ensures { result ≡ cast_signed w16 (low + 256 * high) }
{
    (low as u16 + 256 * high as u16).cast_signed()
}

/// A number at a level: the product, rounded down.
#[tactic(auto, unfolding(crate::specs::Heard::faded))]
fn fade_number(level: u32, number: i16) -> i16
    requires { level ≤ 65536 }
    ensures { result ≡ faded level number }
{
    ((number as i64 * level as i64) >> 16) as i16
}

/// The four bytes of a sample at a level.
#[tactic(auto, unfolding(crate::specs::Heard::at_level))]
pub fn fade_sample(level: u32, bytes: [u8; 4]) -> [u8; 4]
    requires { level ≤ 65536 }
    ensures { result ≡ at_level level bytes }
{
    let [left_low, left_high, right_low, right_high] = bytes;
    let left = fade_number(level, number(left_low, left_high)).cast_unsigned();
    let right = fade_number(level, number(right_low, right_high)).cast_unsigned();
    [
        (left % 256) as u8,
        (left / 256) as u8,
        (right % 256) as u8,
        (right / 256) as u8,
    ]
}
