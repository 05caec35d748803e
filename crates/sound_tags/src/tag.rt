//! All tags of a sound file. The extended tags are longer and more exact, so they come before those of the header.

ghost use Rattle.std.specs.Prelude.{◌≡◌, ◌≤◌, length};
ghost use Rattle.std.specs.Option.{option_copied};
ghost use Rattle.sound_tags.specs.Header.{header_text};
ghost use Rattle.sound_tags.specs.Chunks.{chunk_text};
ghost use Rattle.sound_tags.specs.AllTags.{or_else, date_digits, chunk_date, text_of, number_of};

use crate::chunk::{chunk_number, chunk_text};
use crate::field::Field;
use crate::header::{
    header_date, header_emulator, header_fade, header_length, header_muted, header_text,
};

/// A tag that is a text.
#[derive(Clone, Copy)]
pub enum TextTag {
    /// The title of the tune.
    Title,
    /// The game.
    Game,
    /// The composer.
    Artist,
    /// Who took the file out of the game.
    Dumper,
    /// The date of the header in its text form.
    Date,
    /// A comment.
    Comment,
    /// The title of the album.
    Soundtrack,
    /// The publisher of the game.
    Publisher,
}

/// A tag that is a number.
#[derive(Clone, Copy)]
pub enum NumberTag {
    /// The day when the file was taken, in eight decimal digits: year, month, day.
    Date,
    /// How many seconds the tune is played before it fades.
    Length,
    /// For how many milliseconds it fades.
    Fade,
    /// The number of the emulator that the file was taken with.
    Emulator,
    /// The voices that are muted: bit n is voice n.
    Muted,
    /// The disc of the album.
    Disc,
    /// The track of the album in the high byte, and a letter behind it or 0 in the low byte.
    Track,
    /// The year of the copyright.
    Year,
    /// How long the part before the loop is, in 1/64,000 s, as are the next three.
    Intro,
    /// How long the loop is.
    Loop,
    /// How long the part behind the loop is.
    End,
    /// How long the tune fades.
    FadeTicks,
    /// How often the loop is played.
    Loops,
    /// The loudness; 65,536 is that of the file.
    Amplification,
}

/// A text of a chunk, or else one of the header.
fn chunk_or_header(file: &[u8], id: u8, field: Field) -> Option<&[u8]>
    requires { 256 ≤ length file.now }
    ensures { option_copied result ≡ or_else (chunk_text file.now id) (header_text file.now field) }
{
    match chunk_text(file, id) {
        Some(text) => Some(text),
        None => header_text(file, field),
    }
}

/// Returns a text of a sound file. It has a byte at least, and none that is 0.
#[tactic(auto, unfolding(crate::specs::AllTags::text_of))]
pub fn text_of(file: &[u8], tag: TextTag) -> Option<&[u8]>
    requires { 65920 ≤ length file.now }
    ensures { option_copied result ≡ text_of file.now tag }
{
    match tag {
        TextTag::Title => chunk_or_header(file, 0x01, Field::Title),
        TextTag::Game => chunk_or_header(file, 0x02, Field::Game),
        TextTag::Artist => chunk_or_header(file, 0x03, Field::Artist),
        TextTag::Dumper => chunk_or_header(file, 0x04, Field::Dumper),
        TextTag::Date => header_text(file, Field::Date),
        TextTag::Comment => chunk_or_header(file, 0x07, Field::Comment),
        TextTag::Soundtrack => chunk_text(file, 0x10),
        TextTag::Publisher => chunk_text(file, 0x13),
    }
}

/// A number, or else another one.
fn or_else(first: Option<u32>, second: Option<u32>) -> Option<u32>
    ensures { result ≡ or_else first second }
{
    match first {
        Some(number) => Some(number),
        None => second,
    }
}

/// The number that eight hexadecimal digits spell if they are read as decimal digits.
fn date_digits(date: u32) -> u32
    ensures { result ≡ date_digits date }
{
    date % 16
        + 10 * (date / 0x10 % 16)
        + 100 * (date / 0x100 % 16)
        + 1_000 * (date / 0x1000 % 16)
        + 10_000 * (date / 0x1_0000 % 16)
        + 100_000 * (date / 0x10_0000 % 16)
        + 1_000_000 * (date / 0x100_0000 % 16)
        + 10_000_000 * (date / 0x1000_0000 % 16)
}

/// The date of the extended tags.
fn chunk_date(file: &[u8]) -> Option<u32>
    ensures { result ≡ chunk_date file.now }
{
    let date = chunk_number(file, 0x05)?;
    Some(date_digits(date))
}

/// Returns a number of a sound file.
#[tactic(auto, unfolding(crate::specs::AllTags::number_of))]
pub fn number_of(file: &[u8], tag: NumberTag) -> Option<u32>
    requires { 65920 ≤ length file.now }
    ensures { result ≡ number_of file.now tag }
{
    match tag {
        NumberTag::Date => or_else(chunk_date(file), header_date(file)),
        NumberTag::Length => header_length(file),
        NumberTag::Fade => header_fade(file),
        NumberTag::Emulator => or_else(chunk_number(file, 0x06), header_emulator(file)),
        NumberTag::Muted => or_else(chunk_number(file, 0x34), header_muted(file)),
        NumberTag::Disc => chunk_number(file, 0x11),
        NumberTag::Track => chunk_number(file, 0x12),
        NumberTag::Year => chunk_number(file, 0x14),
        NumberTag::Intro => chunk_number(file, 0x30),
        NumberTag::Loop => chunk_number(file, 0x31),
        NumberTag::End => chunk_number(file, 0x32),
        NumberTag::FadeTicks => chunk_number(file, 0x33),
        NumberTag::Loops => chunk_number(file, 0x35),
        NumberTag::Amplification => chunk_number(file, 0x36),
    }
}
