//! Laws of the S-DSP, of stems and of sound files.
//!
//! The S-DSP (`voice`, `echo`), each a call of `sdsp_voice` or `sdsp_echo` with the law as its contract: a muted unit is
//! silent. A filter without taps adds nothing. A voice that is started forgets what it sounded before. An envelope stays
//! in its eleven bits. By the second profile no voice is heard in its last block.
//!
//! The other laws have no code. Each is the contract of a function that does nothing. Stems (`sums`, `whole`), over
//! `stem_player`: all parts together are the ordinary sound, and the voices add up. Sound files (`resumed`), over
//! `spc_player`: what a sound file plays, compared with the job that it was taken from. `specs/PlaysOn.antt` says which
//! file gives back all that is heard of a sound side.
#![tactic(auto)]

mod echo;
mod resumed;
mod sums;
mod voice;
mod whole;

pub use echo::{mix_muted, mix_without_taps};
pub use resumed::a_file_plays_on;
pub use sums::the_voices_add_up;
pub use voice::{sample_and_cut, start_both, step_within};
pub use whole::all_parts_are_the_output;
