// The bytes of a sound file, as the command `spc` writes them.
//
// Stands on the sound side. `specs/Bytes.antt` says which bytes they are, and `docs/use/SPC-FILES.md` has the same as a
// table of offsets. `a_sound_file_is_read` is the law that the player of sound files accepts them and reads them back.
// The caller allocates all memory (`StateBytes::with_room`).
#![tactic(auto)]

mod file;
mod read_back;

pub use file::{SOUND_FILE_BYTES, put_sound_file};
pub use read_back::a_sound_file_is_read;
