ghost use Rattle.std.specs.Prelude.{◌≡◌, ◌≤◌, ◌<◌, nat_eq, not, length, position, IfSome};
ghost use Rattle.input_files.specs.Fields.{number_of, count_of, is_hex_digit, hex_value, pad_of, word_of, behind, first_place, span_of};

use snes_defs::Span;

/// The span that a line `COUNT PAD1 PAD2` spells, with one or more spaces between. COUNT has 1 to 5 decimal digits.
/// Each pad is a word of four hexadecimal digits, whose last counts as 0.
#[tactic(auto, unfolding(crate::specs::Fields::span_of))]
pub(crate) fn span_of(line: &[u8]) -> Option<Span>
    ensures { result ≡ span_of line.now }
{
    let (count, rest) = split_word(line);
    let (first, second) = split_word(rest);
    Some(Span {
        count: count_of(count)?,
        pad1: pad_of(first)?,
        pad2: pad_of(second)?,
    })
}

/// The bytes up to the first space, and those after the spaces that follow.
#[tactic(auto, unfolding(crate::specs::Fields::word_of, crate::specs::Fields::behind))]
pub(crate) fn split_word(text: &[u8]) -> (&[u8], &[u8])
    ensures word { result.0.now ≡ word_of text.now }
    ensures rest { result.1.now ≡ behind text.now }
{
    let (word, rest) = text.split_at(end_of_word(text));
    let (_gap, rest) = rest.split_at(end_of_gap(rest));
    (word, rest)
}

/// The place of the first space, or the end.
fn end_of_word(text: &[u8]) -> usize
    ensures place { result ≡ first_place (λ b. nat_eq b 32) text.now }
    ensures inside { result ≤ length text.now }
{
    first_space(text).unwrap_or(text.len())
}

fn first_space(text: &[u8]) -> Option<usize>
    ensures place { result ≡ position (λ b. nat_eq b 32) text.now }
    ensures inside { IfSome result (λ i. i < length text.now) }
{
    text.iter().position(|b| *b == b' ')
}

/// The place of the first byte that is not a space, or the end.
fn end_of_gap(text: &[u8]) -> usize
    ensures place { result ≡ first_place (λ b. not (nat_eq b 32)) text.now }
    ensures inside { result ≤ length text.now }
{
    first_other(text).unwrap_or(text.len())
}

fn first_other(text: &[u8]) -> Option<usize>
    ensures place { result ≡ position (λ b. not (nat_eq b 32)) text.now }
    ensures inside { IfSome result (λ i. i < length text.now) }
{
    text.iter().position(|b| *b != b' ')
}

/// A number of 1 to 5 decimal digits.
#[tactic(auto, unfolding(crate::specs::Fields::count_of))]
fn count_of(digits: &[u8]) -> Option<u32>
    ensures { result ≡ count_of digits.now }
{
    if digits.is_empty() || digits.len() > 5 {
        return None;
    }
    number_of(digits)
}

/// The number that at most five decimal digits spell.
fn number_of(digits: &[u8]) -> Option<u32>
    requires { length digits.now ≤ 5 }
    ensures { result ≡ number_of digits.now }
{
    let mut number = 0u32;
    for digit in digits {
        if !digit.is_ascii_digit() {
            return None;
        }
        number = 10 * number + u32::from(*digit - b'0');
    }
    Some(number)
}

/// A pad's word of four hexadecimal digits, with its low four bits as 0.
fn pad_of(digits: &[u8]) -> Option<u16>
    ensures { result ≡ pad_of digits.now }
{
    match digits {
        [a, b, c, d] => {
            let spelled = is_hex_digit(*a)
                && is_hex_digit(*b)
                && is_hex_digit(*c)
                && is_hex_digit(*d);
            if !spelled {
                return None;
            }
            Some(4096 * hex_value(*a) + 256 * hex_value(*b) + 16 * hex_value(*c))
        }
        _ => None,
    }
}

/// Whether a byte is a hexadecimal digit in either case.
#[tactic(auto, unfolding(crate::specs::Fields::is_hex_digit))]
fn is_hex_digit(byte: u8) -> bool
    ensures { result ≡ is_hex_digit byte }
{
    matches!(byte, b'0'..=b'9' | b'A'..=b'F' | b'a'..=b'f')
}

/// The value of a hexadecimal digit.
#[tactic(auto, unfolding(crate::specs::Fields::hex_value))]
fn hex_value(digit: u8) -> u16
    ensures value { result ≡ hex_value digit }
    ensures small { result < 16 }
{
    match digit {
        b'0'..=b'9' => u16::from(digit - b'0'),
        b'A'..=b'F' => u16::from(digit - b'A') + 10,
        b'a'..=b'f' => u16::from(digit - b'a') + 10,
        _ => 0,
    }
}
