ghost use Rattle.std.specs.Prelude.{◌≡◌, ◌≤◌, length, IfSome};
ghost use Rattle.std.specs.List.{list_any};
ghost use Rattle.std.specs.Str.{bytes_eq};
ghost use Rattle.run_io.specs.Options.{input_option, output_option, setting_option};
ghost use Rattle.run_io.specs.Form.{form_by};
ghost use Rattle.run_io.specs.Mistakes.{is_option, is_count_option, refuses, IsAtFault, IsMistake};

use crate::forms::{Form, in_seconds};
use crate::options::{Count, is_optional, option_of_input, option_of_output, option_of_seconds};
use crate::pairs::{is_value, number_in, output_name, word_behind};
use crate::words::Word;
use shelf::Out;
use std::fmt::{self, Display, Formatter};

/// The kinds of mistake in the arguments of a command line.
#[derive(Clone, Copy)]
pub enum Fault {
    /// There are no arguments.
    NoCommand,
    /// The first argument is not the name of a command.
    NotACommand,
    /// The number after the command's name is missing.
    NoNumber,
    /// The argument after the command's name is not a number that it takes.
    NotTheNumber,
    /// An argument is where an option belongs, and is not an option of the command.
    NotAnOption,
    /// An option is given twice.
    Twice,
    /// A number is given in seconds too.
    TwoNumbers,
    /// Nothing follows an option.
    NoValue,
    /// What follows an option is empty, longer than 4,096 bytes, or begins with a dash.
    NotAValue,
    /// An option is missing.
    Missing,
    /// What follows an option is not a number that it takes.
    NotItsNumber,
    /// What follows `--seconds` is not a number of at most 600.
    NotItsSeconds,
    /// What follows the option of a setting is not what it takes.
    NotItsSetting,
    /// Two outputs have the same name.
    SameName,
    /// The arguments do not have the form of the command.
    Formless,
}

/// A mistake in the arguments, and the option and the argument at fault. Each of the two is empty if none is at fault.
#[derive(Clone, Copy)]
pub struct Mistake<'a> {
    /// The kind of the mistake.
    pub fault: Fault,
    /// The option that is at fault, or empty.
    pub option: &'a str,
    /// The argument that is at fault, or empty.
    pub word: &'a str,
}

impl<'a> Mistake<'a> {
    /// Returns a mistake of this kind, with the option and the argument at fault.
    pub fn of(fault: Fault, option: &'a str, word: &'a str) -> Mistake<'a>
        ensures fault { result.fault ≡ fault }
        ensures option { result.option.now ≡ option.now }
        ensures word { result.word.now ≡ word.now }
    {
        Mistake {
            fault,
            option,
            word,
        }
    }
}

/// Finds the mistake in the arguments after a command's name, if they do not have its form.
pub fn mistake_in<'a>(form: &Form, words: &'a [Word]) -> Mistake<'a>
    ensures { IsMistake (form_by form.now) result }
{
    if !form.numbered {
        return mistake_in_pairs(form, words);
    }
    let Some((word, pairs)) = words.split_first() else {
        return Mistake::of(Fault::NoNumber, "", "");
    };
    if number_in(word.text(), 10, u32::MAX).is_none() {
        return Mistake::of(Fault::NotTheNumber, "", word.text());
    }
    mistake_in_pairs(form, pairs)
}

/// Finds the mistake in words that are to be pairs of an option and its value.
fn mistake_in_pairs<'a>(form: &Form, pairs: &'a [Word]) -> Mistake<'a>
    ensures { IsMistake (form_by form.now) result }
{
    if let Some(mistake) = wrong_pair(form, pairs) {
        return mistake;
    }
    if let Some(option) = missing_option(form, pairs) {
        return Mistake::of(Fault::Missing, option, "");
    }
    if let Some(mistake) = two_numbers(form, pairs) {
        return mistake;
    }
    if let Some(mistake) = wrong_number(form, pairs) {
        return mistake;
    }
    match same_name(pairs, form.outputs) {
        Some(out) => Mistake::of(
            Fault::SameName,
            option_of_output(out),
            output_name(pairs, out),
        ),
        None => Mistake::of(Fault::Formless, "", ""),
    }
}

/// Finds the first pair whose option is unknown or repeated, or whose value is missing or invalid.
fn wrong_pair<'a>(form: &Form, pairs: &'a [Word]) -> Option<Mistake<'a>>
    ensures { IfSome result (IsMistake (form_by form.now)) }
{
    let mut at = 0;
    while at < pairs.len() {
        let option = pairs[at].text();
        if !is_option(form, option) {
            return Some(Mistake::of(Fault::NotAnOption, "", option));
        }
        if is_given(&pairs[..at], option) {
            return Some(Mistake::of(Fault::Twice, option, ""));
        }
        if at + 1 == pairs.len() {
            return Some(Mistake::of(Fault::NoValue, option, ""));
        }
        if let Some(mistake) = wrong_value(form, option, pairs[at + 1].text()) {
            return Some(mistake);
        }
        at += 2;
    }
    None
}

/// Returns the mistake in the value of an option of the form, if it is no name of a file and no value of a setting.
fn wrong_value<'a>(form: &Form, option: &'a str, value: &'a str) -> Option<Mistake<'a>>
    ensures { IfSome result (IsMistake (form_by form.now)) }
{
    if is_setting_option(form, option) {
        if refuses(form, option, value) {
            return Some(Mistake::of(Fault::NotItsSetting, option, value));
        }
        return None;
    }
    if is_value(value) {
        return None;
    }
    Some(Mistake::of(Fault::NotAValue, option, value))
}

/// Whether a word is an option of the form.
fn is_option(form: &Form, word: &str) -> bool
    ensures { result ≡ is_option (form_by form.now) word.now }
{
    is_input_option(form, word)
        || is_output_option(form, word)
        || is_count_option(form, word)
        || is_setting_option(form, word)
}

fn is_input_option(form: &Form, word: &str) -> bool
    ensures { result ≡ list_any (λ input. bytes_eq (input_option input) word.now) form.now.inputs.now }
{
    form.inputs
        .iter()
        .any(|input| option_of_input(*input) == word)
}

fn is_output_option(form: &Form, word: &str) -> bool
    ensures { result ≡ list_any (λ out. bytes_eq (output_option out) word.now) form.now.outputs.now }
{
    form.outputs
        .iter()
        .any(|out| option_of_output(*out) == word)
}

fn is_count_option(form: &Form, word: &str) -> bool
    ensures { result ≡ is_count_option form.now.count word.now }
{
    match form.count {
        Some(count) => {
            count.option() == word || count.takes_seconds() && option_of_seconds() == word
        }
        None => false,
    }
}

fn is_setting_option(form: &Form, word: &str) -> bool
    ensures { result ≡ list_any (λ setting. bytes_eq (setting_option setting) word.now) form.now.settings.now }
{
    form.settings.iter().any(|setting| setting.option() == word)
}

/// Whether the setting of an option does not take a word.
fn refuses(form: &Form, option: &str, word: &str) -> bool
    ensures { result ≡ refuses (form_by form.now) option.now word.now }
{
    form.settings.iter().any(|setting| setting.option() == option && !setting.accepts(word))
}

/// Whether an option is one of those in pairs of an option and its value.
fn is_given(pairs: &[Word], option: &str) -> bool {
    let Some((name, rest)) = pairs.split_first() else {
        return false;
    };
    if name.text() == option {
        return true;
    }
    match rest.split_first() {
        Some((_value, rest)) => is_given(rest, option),
        None => false,
    }
}

/// Returns the first option of the form that is missing and may not be left out.
fn missing_option(form: &Form, pairs: &[Word]) -> Option<&'static str> {
    for input in form.inputs {
        if !is_optional(form.optional, *input) && !is_given(pairs, option_of_input(*input)) {
            return Some(option_of_input(*input));
        }
    }
    if let Some(count) = form.count {
        if !is_count_given(count, pairs) {
            return Some(count.option());
        }
    }
    for out in form.outputs {
        if !is_given(pairs, option_of_output(*out)) {
            return Some(option_of_output(*out));
        }
    }
    None
}

/// Whether the option of a number is given, or that of seconds in its place.
fn is_count_given(count: Count, pairs: &[Word]) -> bool {
    is_given(pairs, count.option()) || count.takes_seconds() && is_given(pairs, option_of_seconds())
}

/// Returns the mistake of a number that is given twice: by its own option, and in seconds.
fn two_numbers(form: &Form, pairs: &[Word]) -> Option<Mistake<'static>>
    ensures { IfSome result (IsMistake (form_by form.now)) }
{
    let count = form.count?;
    if is_given(pairs, count.option()) && is_given(pairs, option_of_seconds()) {
        return Some(Mistake::of(Fault::TwoNumbers, option_of_seconds(), count.option()));
    }
    None
}

/// Returns the mistake in the number that is the value of an option, if it is not one that the form takes.
fn wrong_number<'a>(form: &Form, pairs: &'a [Word]) -> Option<Mistake<'a>>
    ensures { IfSome result (IsMistake (form_by form.now)) }
{
    let count = form.count?;
    if in_seconds(count, pairs) {
        let word = word_behind(pairs, option_of_seconds());
        if number_in(word, 3, 600).is_some() {
            return None;
        }
        return Some(Mistake::of(Fault::NotItsSeconds, option_of_seconds(), word));
    }
    let word = word_behind(pairs, count.option());
    if number_in(word, count.digits(), count.most()).is_some() {
        return None;
    }
    Some(Mistake::of(Fault::NotItsNumber, count.option(), word))
}

/// Returns an output that has the same name as an earlier one.
fn same_name(pairs: &[Word], outputs: &[Out]) -> Option<Out> {
    for out in outputs {
        for other in outputs {
            if out != other && output_name(pairs, *out) == output_name(pairs, *other) {
                return Some(*other);
            }
        }
    }
    None
}

/// Describes for the user what an option takes.
fn taken_by(option: &str) -> &'static str {
    match option {
        "--frames" => "a number of at most 36000",
        "--samples" => "a number of at most 19200000",
        "--seconds" => "a number of at most 600",
        "--title" => "a text of at most 32 printable characters",
        "--game" => "a text of at most 32 printable characters",
        "--artist" => "a text of at most 32 printable characters",
        "--comment" => "a text of at most 32 printable characters",
        "--length" => "a number of seconds of at most 3 digits",
        "--fade" => "a number of milliseconds of at most 5 digits",
        "--voices" => "a list like 0,3,echo",
        _ => "a file",
    }
}

impl Display for Mistake<'_> {
    fn fmt<W: fmt::Write>(&self, f: &mut Formatter<W>) -> fmt::Result {
        let option = self.option;
        let word = self.word;
        match self.fault {
            Fault::NoCommand => f.write_str("no command is given"),
            Fault::NotACommand => write!(f, "{word:?} is not a command"),
            Fault::NoNumber => f.write_str("the number behind the command is missing"),
            Fault::NotTheNumber => write!(f, "{word:?} is not a number of at most 4294967295"),
            Fault::NotAnOption => write!(f, "{word:?} is not an option of this command"),
            Fault::Twice => write!(f, "{option} is given twice"),
            Fault::TwoNumbers => write!(f, "{option} and {word} are both given"),
            Fault::NoValue => write!(f, "{option} needs {}", taken_by(option)),
            Fault::NotAValue => write!(f, "{option} needs {}, not {word:?}", taken_by(option)),
            Fault::Missing => write!(f, "{option} is missing"),
            Fault::NotItsNumber | Fault::NotItsSeconds | Fault::NotItsSetting => {
                write!(f, "{option} needs {}, not {word:?}", taken_by(option))
            }
            Fault::SameName => write!(f, "{option} names the output {word:?} again"),
            Fault::Formless => f.write_str("the arguments do not fit the command"),
        }
    }
}
