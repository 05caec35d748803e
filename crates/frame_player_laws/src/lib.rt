//! Frames that were played one by one, compared with scripts whose lines last many frames, and their sizes.
//!
//! Builds on `frame_player`, on the runs of `snapshot` and on the definition of a job's output in `job_player`, and has
//! no code. Each law is the contract of a function that does nothing. `specs/Scripts.antt` says which scripts have the
//! same pads, and which have the pads of some frames.
#![tactic(auto)]

mod scripts;
mod sizes;

pub use scripts::{
    frames_are_what_a_job_emits, frames_are_what_any_script_emits, held_pads_are_one_span,
    only_the_pads_count,
};
pub use sizes::{a_frame_has_its_size, a_recording_has_its_size, such_rooms_serve_every_frame};
