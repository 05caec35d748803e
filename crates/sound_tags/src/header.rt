//! The tags in the header: ID666 in its two forms.

ghost use Rattle.std.specs.Prelude.{◌≡◌, ◌≤◌, ◌==◌, length};
ghost use Rattle.std.specs.Char.{is_ascii_digit};
ghost use Rattle.std.specs.List.{list_all};
ghost use Rattle.std.specs.Option.{option_copied};
ghost use Rattle.sound_tags.specs.SoundFile.{part_at};
ghost use Rattle.sound_tags.specs.Fields.{offset_of, size_of};
ghost use Rattle.sound_tags.specs.Number.{spelled};
ghost use Rattle.sound_tags.specs.Put.{is_printable};
ghost use Rattle.sound_tags.specs.Header.{is_digits, is_text, form_of, filled, counted, digit_or_byte, header_text, header_length, header_fade, header_date, header_muted, header_emulator};

use crate::field::{Field, Form};
use crate::sound_file::{before_zero, four_at};

/// The offset of the byte that says whether a file has tags, and what it is if the file has them.
const HAS_TAGS: usize = 0x23;

const YES: u8 = 26;

/// Whether all bytes are decimal digits.
pub(crate) fn all_digits(bytes: &[u8]) -> bool
    ensures { result ≡ list_all is_ascii_digit bytes.now }
{
    bytes.iter().all(|byte| byte.is_ascii_digit())
}

/// Whether all bytes are printable ASCII characters.
pub(crate) fn all_printable(bytes: &[u8]) -> bool
    ensures { result ≡ list_all is_printable bytes.now }
{
    bytes.iter().all(|byte| *byte >= 0x20 && *byte <= 0x7E)
}

/// Whether all bytes are zeros.
fn all_zeros(bytes: &[u8]) -> bool
    ensures { result ≡ list_all (λ byte. byte == 0) bytes.now }
{
    bytes.iter().all(|byte| *byte == 0)
}

/// Whether a field is decimal digits and then zeros alone.
#[tactic(auto, unfolding(crate::specs::Header::is_digits))]
fn is_digits(field: &[u8]) -> bool
    ensures { result ≡ is_digits field.now }
{
    let text = before_zero(field);
    all_digits(text) && all_zeros(&field[text.len()..])
}

/// Whether a field is printable characters and then zeros alone.
#[tactic(auto, unfolding(crate::specs::Header::is_text))]
fn is_text(field: &[u8]) -> bool
    ensures { result ≡ is_text field.now }
{
    let text = before_zero(field);
    all_printable(text) && all_zeros(&field[text.len()..])
}

/// Returns the form of the tags in a header, or none if it has no tags. It needs the first 256 bytes of a sound file.
#[tactic(auto, unfolding(crate::specs::Header::form_of))]
pub fn form_of(file: &[u8]) -> Option<Form>
    requires { 256 ≤ length file.now }
    ensures { result ≡ form_of file.now }
{
    if file[HAS_TAGS] != YES {
        return None;
    }
    if is_text(&file[0x9E..0xA9]) && is_digits(&file[0xA9..0xAC]) && is_digits(&file[0xAC..0xB1]) {
        return Some(Form::Text);
    }
    Some(Form::Binary)
}

/// A text, if it has a byte.
pub(crate) fn filled(text: &[u8]) -> Option<&[u8]>
    ensures { option_copied result ≡ filled text.now }
{
    if text.is_empty() { None } else { Some(text) }
}

/// The bytes of a field.
fn part(file: &[u8], form: Form, field: Field) -> &[u8]
    requires { 256 ≤ length file.now }
    ensures part { result.now ≡ part_at file.now (offset_of form field) (size_of form field) }
    ensures size { length result.now ≡ size_of form field }
{
    let at = field.offset(form);
    &file[at..at + field.size(form)]
}

/// The text of a field of the header. A date in the binary form has none.
#[tactic(auto, unfolding(crate::specs::Header::header_text))]
pub(crate) fn header_text(file: &[u8], field: Field) -> Option<&[u8]>
    requires { 256 ≤ length file.now }
    ensures { option_copied result ≡ header_text file.now field }
{
    let form = form_of(file)?;
    if field == Field::Date && form == Form::Binary {
        return None;
    }
    filled(before_zero(part(file, form, field)))
}

/// The number that at most five decimal digits spell, up to the first other character.
fn spelled(digits: &[u8]) -> Option<u32>
    requires { length digits.now ≤ 5 }
    ensures { result ≡ spelled digits.now }
{
    if digits.is_empty() {
        return None;
    }
    let mut number = 0u32;
    for digit in digits {
        if !digit.is_ascii_digit() {
            return None;
        }
        number = 10 * number + u32::from(*digit - b'0');
    }
    Some(number)
}

/// A number of the binary form, where 0 stands for none.
fn counted(number: u32) -> Option<u32>
    ensures { result ≡ counted number }
{
    if number == 0 { None } else { Some(number) }
}

/// The seconds that a tune is played before it fades.
#[tactic(auto, unfolding(crate::specs::Header::header_length))]
pub(crate) fn header_length(file: &[u8]) -> Option<u32>
    requires { 256 ≤ length file.now }
    ensures { result ≡ header_length file.now }
{
    match form_of(file)? {
        Form::Text => spelled(before_zero(&file[0xA9..0xAC])),
        Form::Binary => counted(
            u32::from(file[0xA9])
                + 0x100 * u32::from(file[0xAA])
                + 0x1_0000 * u32::from(file[0xAB]),
        ),
    }
}

/// The milliseconds for which it fades.
#[tactic(auto, unfolding(crate::specs::Header::header_fade))]
pub(crate) fn header_fade(file: &[u8]) -> Option<u32>
    requires { 256 ≤ length file.now }
    ensures { result ≡ header_fade file.now }
{
    match form_of(file)? {
        Form::Text => spelled(before_zero(&file[0xAC..0xB1])),
        Form::Binary => counted(four_at(file, 0xAC)),
    }
}

/// The date of the binary form as a number of eight decimal digits: year, month, day.
#[tactic(auto, unfolding(crate::specs::Header::header_date))]
pub(crate) fn header_date(file: &[u8]) -> Option<u32>
    requires { 256 ≤ length file.now }
    ensures { result ≡ header_date file.now }
{
    match form_of(file)? {
        Form::Text => None,
        Form::Binary => {
            let year = u32::from(file[0xA0]) + 0x100 * u32::from(file[0xA1]);
            counted(10_000 * year + 100 * u32::from(file[0x9F]) + u32::from(file[0x9E]))
        }
    }
}

/// The voices that are muted: bit n is voice n.
#[tactic(auto, unfolding(crate::specs::Header::header_muted))]
pub(crate) fn header_muted(file: &[u8]) -> Option<u32>
    requires { 256 ≤ length file.now }
    ensures { result ≡ header_muted file.now }
{
    match form_of(file)? {
        Form::Text => counted(u32::from(file[0xD1])),
        Form::Binary => counted(u32::from(file[0xD0])),
    }
}

/// The number of a byte that may be a decimal digit.
fn digit_or_byte(byte: u8) -> u32
    ensures { result ≡ digit_or_byte byte }
{
    if byte.is_ascii_digit() {
        u32::from(byte - b'0')
    } else {
        u32::from(byte)
    }
}

/// The number of the emulator that the file was taken with.
#[tactic(auto, unfolding(crate::specs::Header::header_emulator))]
pub(crate) fn header_emulator(file: &[u8]) -> Option<u32>
    requires { 256 ≤ length file.now }
    ensures { result ≡ header_emulator file.now }
{
    match form_of(file)? {
        Form::Text => counted(digit_or_byte(file[0xD2])),
        Form::Binary => counted(u32::from(file[0xD1])),
    }
}
