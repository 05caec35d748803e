ghost use Rattle.std.specs.Prelude.{◌≡◌, ◌≤◌, ◌↔◌, Some, None, Err, OnOk, OnErr, length, take, drop};
ghost use Rattle.sound_tags.specs.Fields.{size_of};
ghost use Rattle.sound_tags.specs.Put.{refusal_of, text_bytes, number_bytes, bytes_of, no_tags, with_field, with_tags};

use crate::field::{Field, Form};
use crate::header::{all_digits, all_printable};
use std::marker::Model;

/// The offset of the first tag in a file.
const FIRST: usize = 0x2E;

/// The bytes of all tags, from 2E to FF in a file.
const AREA: usize = 210;

/// The offset of the byte that says whether a file has tags, and what it is if the file has them.
const HAS_TAGS: usize = 0x23;

const YES: u8 = 26;

/// Why a text is refused as the content of a field.
#[derive(Clone, Copy)]
pub enum FieldRefused {
    /// The text has more bytes than the field, or the number more digits: 3 for a length in seconds, 5 for a fade in
    /// milliseconds.
    TooLong,
    /// The text has a byte outside 20 to 7E. The format names no encoding, so players show such bytes differently.
    NotPrintable,
    /// The number is empty, or has something else than decimal digits.
    NotANumber,
}

/// The tags of a sound file in the text form of ID666.
#[derive(Drop)]
pub struct Tags {
    area: [u8; AREA],
}

impl Model for Tags {
    ghost use Rattle.std.specs.Prelude.{◌≡◌, List, ℕ, length};

    ghost Value = { List ℕ };

    ghost view = { λ t. t.area };

    ghost invariant = { λ t. length t.area ≡ 210 };
}

/// Writes a text into a field: the text, then zeros.
#[tactic(auto, unfolding(crate::specs::Put::text_bytes))]
fn lay_text(field: &mut [u8], text: &[u8])
    requires { length text.now ≤ length field.old }
    ensures { field.new ≡ text_bytes (length field.old) text.now }
{
    let count = text.len();
    field[..count].copy_from_slice(text);
    field[count..].fill(0);
}

/// Writes a number into a field: its digits at the end, zeros in front.
#[tactic(auto, unfolding(crate::specs::Put::number_bytes))]
fn lay_number(field: &mut [u8], digits: &[u8])
    requires { length digits.now ≤ length field.old }
    ensures { field.new ≡ number_bytes (length field.old) digits.now }
{
    let lead = field.len() - digits.len();
    field[..lead].fill(b'0');
    field[lead..].copy_from_slice(digits);
}

/// Writes a text or a number into its field.
fn lay(field: &mut [u8], is_number: bool, text: &[u8])
    requires { length text.now ≤ length field.old }
    ensures { field.new ≡ bytes_of is_number (length field.old) text.now }
{
    if is_number {
        lay_number(field, text);
    } else {
        lay_text(field, text);
    }
}

/// Returns why a text is refused as the content of a field, or none if it is accepted.
#[tactic(auto, unfolding(crate::specs::Put::refusal_of))]
fn field_refusal(field: Field, text: &[u8]) -> Option<FieldRefused>
    ensures why { result ≡ refusal_of field text.now }
    ensures short { result ≡ None → length text.now ≤ size_of Form.Text field }
{
    if field.is_number() {
        if text.is_empty() || !all_digits(text) {
            return Some(FieldRefused::NotANumber);
        }
        if text.len() > field.size(Form::Text) {
            return Some(FieldRefused::TooLong);
        }
        return None;
    }
    if text.len() > field.size(Form::Text) {
        return Some(FieldRefused::TooLong);
    }
    if !all_printable(text) {
        return Some(FieldRefused::NotPrintable);
    }
    None
}

impl Tags {
    /// No tags: each field is empty.
    #[tactic(auto, unfolding(crate::specs::Put::no_tags))]
    pub fn none() -> Tags
        ensures { result ≡ no_tags }
    {
        Tags { area: [0; AREA] }
    }

    /// Sets a field. A text has at most the field's bytes, each from 20 to 7E. A length is a number of seconds of 1 to 3
    /// decimal digits, a fade one of milliseconds of 1 to 5. A refused text changes nothing.
    pub fn set(&mut self, field: Field, text: &str) -> Result<(), FieldRefused>
        ensures set { OnOk result (self.new ≡ with_field self.old field text.now) }
        ensures kept { OnErr result (self.new ≡ self.old) }
        ensures refused { (why : FieldRefused) → result ≡ Err why ↔ refusal_of field text.now ≡ Some why }
    {
        let text = text.as_bytes();
        if let Some(why) = field_refusal(field, text) {
            return Err(why);
        }
        self.lay_field(field, text);
        Ok(())
    }

    /// Sets a field to a text that is accepted.
    #[tactic(auto, unfolding(crate::specs::Put::with_field))]
    fn lay_field(&mut self, field: Field, text: &[u8])
        requires { length text.now ≤ size_of Form.Text field }
        ensures { self.new ≡ with_field self.old field text.now }
    {
        let size = field.size(Form::Text);
        let at = field.offset(Form::Text) - FIRST;
        lay(&mut self.area[at..at + size], field.is_number(), text);
    }
}

/// Writes the tags into a sound file, or into its header of 256 bytes: the byte at 23 says that there are tags, and the
/// bytes from 2E to FF are the tags. All other bytes stay.
#[tactic(auto, unfolding(crate::specs::Put::with_tags))]
pub fn put_tags(tags: &Tags, file: &mut [u8])
    requires { 256 ≤ length file.old }
    ensures bytes { file.new ≡ with_tags tags.now file.old }
    // the text and the version
    ensures before { take 0x23 file.new ≡ take 0x23 file.old }
    // the registers
    ensures registers { take 10 (drop 0x24 file.new) ≡ take 10 (drop 0x24 file.old) }
    // RAM, the S-DSP and all behind them
    ensures after { drop 0x100 file.new ≡ drop 0x100 file.old }
{
    file[HAS_TAGS] = YES;
    file[FIRST..FIRST + AREA].copy_from_slice(&tags.area);
}
