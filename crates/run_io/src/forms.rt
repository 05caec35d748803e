ghost use Rattle.std.specs.Prelude.{◌≡◌, ◌≤◌, ◌+◌, ◌*◌, ◌||◌, ℕ, Bool, true, not, List, Some, None, IfSome, MatchOption, length};
ghost use Rattle.std.specs.List.{list_all};
ghost use Rattle.std.specs.Str.{bytes_eq};
ghost use Rattle.run_io.specs.Options.{most_of};
ghost use Rattle.run_io.specs.Words.{is_value, input_name, output_name};
ghost use Rattle.run_io.specs.Lists.{AllOf};
ghost use Rattle.run_io.specs.Settings.{IsTaken};
ghost use Rattle.run_io.specs.Form.{number_first, in_seconds, count_in, count_options, is_left_out, count_named, has_pairs, differ, has_values, order_in, form_by, order_by, IsName, Fits};

use crate::options::{Count, Setting, is_optional, option_of_seconds};
use crate::pairs::{input_name, is_value, number_in, output_name, word_behind};
use crate::settings::{are_taken, count_set};
use crate::words::Word;
use shelf::{Input, Out};

/// The form of the arguments after a command's name.
#[derive(Clone, Copy)]
pub struct Form {
    /// Whether the first argument is a number of 1 to 10 decimal digits, at most 4,294,967,295.
    pub numbered: bool,
    /// The inputs, each with its option, in the order in which they are loaded.
    pub inputs: &'static [Input],
    /// Those of the inputs that may be left out.
    pub optional: &'static [Input],
    /// The number that is the value of an option, if there is one.
    pub count: Option<Count>,
    /// The settings, each with its option. Each may be left out.
    pub settings: &'static [Setting],
    /// The outputs, each with its option, in the order in which they are created.
    pub outputs: &'static [Out],
}

/// The arguments of a command, as read by its form.
#[derive(Clone, Copy)]
pub struct Asked<'a> {
    /// The number that comes first; 0 if the form has none.
    pub number: u32,
    /// The number that is the value of an option; 0 if the form has none.
    pub count: u32,
    /// The pairs of an option and its value, one word after the other.
    pub pairs: &'a [Word],
}

/// Reads the arguments after a command's name, if they have its form.
///
/// First comes a number, if the form has one. Then come pairs of an option and its value, each option of the form once,
/// in any order. Options of inputs that are left out are missing, and so are those of settings that are unset. The name
/// of a file has 1 to 4,096 bytes and does not begin with a dash. No two outputs have the same name. A setting takes its
/// value.
#[tactic(auto, unfolding(crate::specs::Form::order_in))]
pub fn read_form<'a>(form: &Form, words: &'a [Word]) -> Option<Asked<'a>>
    ensures order { MatchOption result (order_in (form_by form.now) words.now ≡ None) (λ asked. order_in (form_by form.now) words.now ≡ Some (order_by asked)) }
    ensures fits { IfSome result (λ asked. Fits (form_by form.now) (order_by asked)) }
{
    let (number, pairs) = first_number(form.numbered, words)?;
    if !has_values(form, pairs) {
        return None;
    }
    let count = count_of(form.count, pairs)?;
    Some(Asked {
        number,
        count,
        pairs,
    })
}

/// Returns the number that comes first (0 if there is to be none), and the words after it.
fn first_number(numbered: bool, words: &[Word]) -> Option<(u32, &[Word])>
    ensures { MatchOption result (number_first numbered words.now ≡ None) (λ first. number_first numbered words.now ≡ Some (first.0, first.1.now)) }
{
    if !numbered {
        return Some((0, words));
    }
    let (word, words) = words.split_first()?;
    let number = number_in(word.text(), 10, u32::MAX)?;
    Some((number, words))
}

/// Returns the number that is the value of an option; 0 if there is to be none.
fn count_of(count: Option<Count>, pairs: &[Word]) -> Option<u32>
    ensures number { result ≡ count_in count pairs.now }
    ensures within { IfSome result (λ number. (some : Count) → count ≡ Some some → number ≤ most_of some) }
{
    let Some(count) = count else {
        return Some(0);
    };
    if in_seconds(count, pairs) {
        let seconds = number_in(word_behind(pairs, option_of_seconds()), 3, 600)?;
        return Some(32_000 * seconds);
    }
    number_in(
        word_behind(pairs, count.option()),
        count.digits(),
        count.most(),
    )
}

/// Whether a number is given in seconds: it may be, and its own option is missing.
pub(crate) fn in_seconds(count: Count, pairs: &[Word]) -> bool
    ensures { result ≡ in_seconds count pairs.now }
{
    count.takes_seconds() && word_behind(pairs, count.option()).is_empty()
}

/// Whether there are as many pairs as the form has options, each input and output has a value, no two outputs have the
/// same name, and each setting takes its value. Inputs that are left out do not count, nor do settings that are unset.
fn has_values(form: &Form, pairs: &[Word]) -> bool
    ensures test { result ≡ has_values (form_by form.now) pairs.now }
    ensures names { result ≡ true → AllOf (λ out. IsName (output_name pairs.now out)) form.now.outputs.now }
    ensures taken { result ≡ true → AllOf (IsTaken pairs.now) form.now.settings.now }
{
    has_pairs(form, pairs)
        && are_inputs_named(pairs, form.optional, form.inputs)
        && are_outputs_named(pairs, form.outputs)
        && differ(pairs, form.outputs)
        && are_taken(pairs, form.settings)
}

/// Whether there are as many pairs as the form has options, but for inputs that are left out and settings that are unset.
fn has_pairs(form: &Form, pairs: &[Word]) -> bool
    ensures { result ≡ has_pairs (form_by form.now) pairs.now }
{
    let counts = if form.count.is_some() { 1 } else { 0 };
    let inputs = count_named(pairs, form.optional, form.inputs);
    let settings = count_set(pairs, form.settings);
    let count = pairs.len() / 2;
    pairs.len() % 2 == 0
        && settings <= count
        && count - settings == inputs + form.outputs.len() + counts
}

/// How many of these inputs are not left out.
fn count_named(pairs: &[Word], optional: &[Input], inputs: &[Input]) -> usize
    ensures count { result ≡ count_named pairs.now optional.now inputs.now }
    ensures within { result ≤ length inputs.now }
{
    let Some((input, rest)) = inputs.split_first() else {
        return 0;
    };
    let others = count_named(pairs, optional, rest);
    if is_left_out(pairs, optional, *input) {
        others
    } else {
        others + 1
    }
}

/// Whether an input that may be left out is left out.
fn is_left_out(pairs: &[Word], optional: &[Input], input: Input) -> bool
    ensures { result ≡ is_left_out pairs.now optional.now input }
{
    is_optional(optional, input) && input_name(pairs, input).is_empty()
}

/// Whether each of these inputs is left out, or its option has a value.
fn are_inputs_named(pairs: &[Word], optional: &[Input], inputs: &[Input]) -> bool
    ensures { result ≡ list_all (λ input. is_left_out pairs.now optional.now input || is_value (input_name pairs.now input)) inputs.now }
{
    inputs.iter().all(|input| is_left_out(pairs, optional, *input)
        || is_value(input_name(pairs, *input)))
}

/// Whether the option of each of these outputs has a value.
#[tactic(auto, using(crate::proofs::PairLemmas::are_names))]
fn are_outputs_named(pairs: &[Word], outputs: &[Out]) -> bool
    ensures test { result ≡ list_all (λ out. is_value (output_name pairs.now out)) outputs.now }
    ensures names { result ≡ true → AllOf (λ out. IsName (output_name pairs.now out)) outputs.now }
{
    outputs.iter().all(|out| is_value(output_name(pairs, *out)))
}

/// Whether no two outputs have the same name.
fn differ(pairs: &[Word], outputs: &[Out]) -> bool
    ensures { result ≡ differ pairs.now outputs.now }
{
    let Some((out, rest)) = outputs.split_first() else {
        return true;
    };
    is_other_name(pairs, output_name(pairs, *out), rest) && differ(pairs, rest)
}

/// Whether none of these outputs has this name.
fn is_other_name(pairs: &[Word], name: &str, outputs: &[Out]) -> bool
    ensures { result ≡ list_all (λ out. not (bytes_eq name.now (output_name pairs.now out))) outputs.now }
{
    outputs.iter().all(|out| name != output_name(pairs, *out))
}
