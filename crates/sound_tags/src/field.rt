ghost use Rattle.std.specs.Prelude.{◌≡◌, ◌+◌, ◌≤◌};
ghost use Rattle.sound_tags.specs.Fields.{offset_of, size_of, is_number};

/// The two forms of ID666.
#[derive(Clone, Copy, PartialEq, Eq)]
pub enum Form {
    /// Lengths are decimal digits, the date is a text.
    Text,
    /// Lengths and date are numbers, the low byte first.
    Binary,
}

/// A field of ID666.
#[derive(Clone, Copy, PartialEq, Eq)]
pub enum Field {
    /// The title of the tune: 32 bytes at 2E.
    Title,
    /// The game: 32 bytes at 4E.
    Game,
    /// Who took the file out of the game: 16 bytes at 6E.
    Dumper,
    /// A comment: 32 bytes at 7E.
    Comment,
    /// The day when the file was taken: 11 bytes at 9E; in the binary form day, month and the two bytes of the year.
    Date,
    /// How many seconds the tune is played before it fades: 3 bytes at A9.
    Length,
    /// For how many milliseconds the tune fades: 5 bytes at AC, 4 in the binary form.
    Fade,
    /// The composer: 32 bytes at B1, in the binary form at B0.
    Artist,
}

impl Field {
    /// The offset of the field in a file.
    pub(crate) fn offset(self, form: Form) -> usize
        ensures { result ≡ offset_of form self }
    {
        match self {
            Field::Title => 0x2E,
            Field::Game => 0x4E,
            Field::Dumper => 0x6E,
            Field::Comment => 0x7E,
            Field::Date => 0x9E,
            Field::Length => 0xA9,
            Field::Fade => 0xAC,
            Field::Artist => match form {
                Form::Text => 0xB1,
                Form::Binary => 0xB0,
            },
        }
    }

    /// The bytes of the field.
    pub(crate) fn size(self, form: Form) -> usize
        ensures size { result ≡ size_of form self }
        ensures within { offset_of form self + result ≤ 256 }
        ensures behind { 46 ≤ offset_of form self }
    {
        match self {
            Field::Title | Field::Game | Field::Comment | Field::Artist => 32,
            Field::Dumper => 16,
            Field::Date => match form {
                Form::Text => 11,
                Form::Binary => 4,
            },
            Field::Length => 3,
            Field::Fade => match form {
                Form::Text => 5,
                Form::Binary => 4,
            },
        }
    }

    /// Whether the field is a number.
    pub(crate) fn is_number(self) -> bool
        ensures { result ≡ is_number self }
    {
        matches!(self, Field::Length | Field::Fade)
    }
}
