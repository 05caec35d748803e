// The tags of a sound file as lines of text, as `look tags` prints them.
//
// `report` returns the whole text of a file. `specs/Report.antt` says which bytes it has. Each tag that is there is one
// line, so scripts can read the text; characters that could end a line or move a terminal's cursor are escaped.
#![tactic(auto)]

mod line;
mod lines;
mod shown;

pub use lines::{ReportEnd, report};
