//! Rows of the whole program: command lines over shelves in memory and over real files, with the console itself.
//!
//! Each row is printed with the exit status, the line, and the outputs that were created. Of an output the name, the
//! length, and the bytes are printed as runs of equal units of two bytes, or their sum if there are many runs. The
//! expected `stdout` was computed by hand from the rules of `docs/use/COMMANDS.md`; the sums of the demo are those of
//! two other programs.
//!
//! A line that begins with `#` is printed. Lines that say what a row is run with:
//!
//! - `file NAME` begins a file. The lines after it add to it: `fill COUNT BYTE`, `hex BYTES`, `text TEXT`,
//!   `line TEXT` (with LF), `copy NAME` (a file), `ramp STEP` (512 numbers of two bytes), `noise NUMBER COUNT`
//!   (the generator of cartridges). `put OFFSET BYTES` changes it. Counts and numbers are decimal, the rest
//!   hexadecimal. A row's shelf holds the files that its words name; an image or a sound file that was made is one.
//! - `room COUNT`: how many bytes a shelf keeps of each output, from here on.
//! - `fail load N`, `create`, `put`, `video`, `sound`, `image`, `sums`, `state`, `spc`, `say`: in the next row the Nth
//!   call of that kind fails; `video` to `say` are puts to one output.
//!
//! Lines that run something:
//!
//! - `$ WORDS`: these words, with one space between two of them. `*N` stands for a word of N letters.
//! - `both WORDS`, `alike WORDS`: the command line `run WORDS`, and `serial WORDS` and `lockless WORDS`, which must
//!   leave the same; of `alike` only the lengths are printed.
//! - `opening WORDS`: prints the line up to its sums.
//! - `each WORDS`: each put fails in turn.
//! - `part WORDS`: prints the status, and whether it left a prefix of what the row leaves without a failure, with a
//!   byte at least of the output that failed.
//! - `disk WORDS`: runs the row over real files: prints the status, and whether the outputs are those in memory.
//! - `look NAME`: a file's length, and its byte at 8000.

pub mod answer;
mod compare;
mod disk;
mod files;
pub mod follow;
pub mod rows;
mod show;
