ghost use Rattle.std.specs.Prelude.{◌≡◌};
ghost use Rattle.run_io.specs.Options.{is_optional, input_option, output_option, count_option, digits_of, most_of, takes_seconds, seconds_option, setting_option};

use shelf::{Input, Out};

/// The kinds of number that an option takes.
#[derive(Clone, Copy)]
pub enum Count {
    /// Frames of a run: 1 to 5 decimal digits, at most 36,000.
    Frames,
    /// Samples of a sound file: 1 to 8 decimal digits, at most 19,200,000. Or seconds: 1 to 3 digits, at most 600.
    Samples,
}

/// The kinds of setting: what an option takes that may be left out, besides an input.
#[derive(Clone, Copy)]
pub enum Setting {
    /// The title of a tune: 1 to 32 characters from 20 to 7E.
    Title,
    /// The game that it is from: a text like the title.
    Game,
    /// Its composer: a text like the title.
    Artist,
    /// A comment: a text like the title.
    Comment,
    /// How many seconds it is played before it fades: 1 to 3 decimal digits.
    Length,
    /// For how many milliseconds it fades: 1 to 5 decimal digits.
    Fade,
    /// The parts of the sound that are heard: voices 0 to 7 and the word `echo`, separated by commas.
    Voices,
}

/// The option of a number of samples that is given in seconds.
pub(crate) fn option_of_seconds() -> &'static str
    ensures { result.now ≡ seconds_option }
{
    "--seconds"
}

/// The option of an input.
pub(crate) fn option_of_input(input: Input) -> &'static str
    ensures { result.now ≡ input_option input }
{
    match input {
        Input::Cart => "--cart",
        Input::Boot => "--boot",
        Input::Spc => "--spc",
        Input::Table => "--table",
        Input::Script => "--script",
        Input::Plan => "--plan",
        Input::Sums => "--sums",
    }
}

/// Whether an input is one of those that may be left out.
pub(crate) fn is_optional(optional: &[Input], input: Input) -> bool
    ensures { result ≡ is_optional optional.now input }
{
    optional
        .iter()
        .any(|one| option_of_input(*one) == option_of_input(input))
}

/// The option of an output; empty for the lines, which have none.
pub(crate) fn option_of_output(out: Out) -> &'static str
    ensures { result.now ≡ output_option out }
{
    match out {
        Out::Video => "--video",
        Out::Sound => "--audio",
        Out::Image => "--out",
        Out::Sums => "--sums",
        Out::State => "--state",
        Out::Spc => "--spc",
        Out::Say => "",
    }
}

impl Count {
    /// The option that takes this number.
    pub(crate) fn option(self) -> &'static str
        ensures { result.now ≡ count_option self }
    {
        match self {
            Count::Frames => "--frames",
            Count::Samples => "--samples",
        }
    }

    /// The most decimal digits that the number has.
    pub(crate) fn digits(self) -> usize
        ensures { result ≡ digits_of self }
    {
        match self {
            Count::Frames => 5,
            Count::Samples => 8,
        }
    }

    /// The greatest value of the number.
    pub(crate) fn most(self) -> u32
        ensures { result ≡ most_of self }
    {
        match self {
            Count::Frames => 36_000,
            Count::Samples => 19_200_000,
        }
    }

    /// Whether the number may be given in seconds.
    pub(crate) fn takes_seconds(self) -> bool
        ensures { result ≡ takes_seconds self }
    {
        match self {
            Count::Frames => false,
            Count::Samples => true,
        }
    }
}

impl Setting {
    /// The option of this setting.
    pub(crate) fn option(self) -> &'static str
        ensures { result.now ≡ setting_option self }
    {
        match self {
            Setting::Title => "--title",
            Setting::Game => "--game",
            Setting::Artist => "--artist",
            Setting::Comment => "--comment",
            Setting::Length => "--length",
            Setting::Fade => "--fade",
            Setting::Voices => "--voices",
        }
    }
}
