// The tags of a sound file (`.spc`): title, game, artist, lengths and more. No file is opened here, and no memory is
// allocated.
//
// A sound file has its tags in two places. ID666 is part of the header, in a text form or in a binary form; `Tags` and
// `put_tags` write the text form. The extended tags (`xid6`) follow the 64 KiB of RAM and the registers. `text_of` and
// `number_of` read all three, of a file that `refusal` accepts. docs/use/SPC-FILES.md has the formats as tables.
#![tactic(auto)]

mod area;
mod chunk;
mod field;
mod header;
mod sound_file;
mod tag;

pub use area::{FieldRefused, Tags, put_tags};
pub use field::{Field, Form};
pub use header::form_of;
pub use sound_file::{NotSoundFile, refusal};
pub use tag::{NumberTag, TextTag, number_of, text_of};
