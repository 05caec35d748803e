//! The reports on the cases of a bench file: lines for people, TAP, JUnit's XML, and a page.
//!
//! A page has the pictures of what failed side by side, and the sound to play. Text of the bench file is escaped in XML
//! and HTML, and takes one line in TAP. `bench_checks` has the verdicts that are reported.
#![tactic(auto)]

mod escape;
mod page;
mod report;

pub use escape::push_escaped;
pub use page::Page;
pub use report::{junit_text, print_case, print_counts};
