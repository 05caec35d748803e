ghost use Rattle.std.specs.Prelude.{◌≡◌, ◌<◌, ◌≤◌, ◌^◌, ℕ, List, length, true, IfSome};
ghost use Rattle.shelf.specs.declared.shelves.Out.{Out};
ghost use Rattle.run_io.specs.Number.{number_of};
ghost use Rattle.run_io.specs.Words.{word_behind, is_value, input_name, output_name, number_in};
ghost use Rattle.run_io.specs.Form.{IsName};

use crate::options::{option_of_input, option_of_output};
use crate::words::Word;
use shelf::{Input, Out};

/// Returns the value of an option, given pairs of an option and its value; empty if the option is missing.
pub(crate) fn word_behind<'a>(pairs: &'a [Word], option: &str) -> &'a str
    ensures { result.now ≡ word_behind pairs.now option.now }
{
    let Some((name, rest)) = pairs.split_first() else {
        return "";
    };
    let Some((value, rest)) = rest.split_first() else {
        return "";
    };
    if name.text() == option {
        return value.text();
    }
    word_behind(rest, option)
}

/// Whether a word is a value: 1 to 4,096 bytes, the first of which is not a dash.
pub(crate) fn is_value(word: &str) -> bool
    ensures test { result ≡ is_value word.now }
{
    !word.is_empty() && word.len() <= 4096 && word.as_bytes()[0] != b'-'
}

/// Returns the name that the pairs of options and values give an input; empty if its option is missing.
#[tactic(auto, unfolding(crate::specs::Words::input_name))]
pub fn input_name(pairs: &[Word], input: Input) -> &str
    ensures { result.now ≡ input_name pairs.now input }
{
    word_behind(pairs, option_of_input(input))
}

/// Returns the name that the pairs of options and values give an output; empty if its option is missing.
#[tactic(auto, unfolding(crate::specs::Words::output_name))]
pub fn output_name(pairs: &[Word], out: Out) -> &str
    ensures { result.now ≡ output_name pairs.now out }
{
    word_behind(pairs, option_of_output(out))
}

/// Reads a number that has at most `digits` decimal digits and is at most `most`.
#[tactic(auto, unfolding(crate::specs::Words::number_in))]
pub(crate) fn number_in(word: &str, digits: usize, most: u32) -> Option<u32>
    requires { digits ≤ 10 }
    ensures number { result ≡ number_in digits most word.now }
    ensures within { IfSome result (λ number. number ≤ most) }
{
    let word = word.as_bytes();
    if word.is_empty() || word.len() > digits {
        return None;
    }
    let number = number_of(word)?;
    if number > u64::from(most) {
        return None;
    }
    Some(number as u32)
}

/// Returns the number that at most ten decimal digits spell.
fn number_of(digits: &[u8]) -> Option<u64>
    requires { length digits.now ≤ 10 }
    ensures number { result ≡ number_of digits.now }
{
    let mut number = 0u64;
    for digit in digits {
        if !digit.is_ascii_digit() {
            return None;
        }
        number = 10 * number + u64::from(*digit - b'0');
    }
    Some(number)
}

/// Returns the argument after the option of an input, in a command line; empty if there is none.
pub fn input_given(words: &[Word], input: Input) -> &str {
    word_after(words, option_of_input(input))
}

/// Returns the argument after the option of an output, in a command line; empty if there is none.
pub fn output_given(words: &[Word], out: Out) -> &str {
    word_after(words, option_of_output(out))
}

/// Returns the value of an option in a command line; empty if there is none. The pairs of an option and its value follow
/// the name of the command, or a number after it.
fn word_after<'a>(words: &'a [Word], option: &str) -> &'a str {
    let first = 2 - words.len() % 2;
    if first > words.len() {
        return "";
    }
    word_behind(&words[first..], option)
}
