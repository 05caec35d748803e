//! The command line of `lint`, as a table.

use companion_words::{Kind, Program, Word, words};

/// The values of a format.
const FORMATS: &[&str] = &["people", "json", "sarif", "tap"];

/// What makes the status 1.
const WEIGHTS: &[&str] = &["warning", "note", "never"];

/// The words, in the help's order.
static WORDS: [Word; 11] = words![
    "" Kind::Placed, "cart" "CART" "" "the cartridge";
    "" Kind::Text, "boot" "FILE" "" "the SPC700's boot ROM; if left out, the free one";
    "" Kind::Text, "table" "FILE" "" "the S-DSP's interpolation table; if left out, the free one";
    "" Kind::Text, "script" "FILE" "" "the controller script; if left out, no button is pressed";
    "" Kind::Number, "frames" "COUNT" "600" "how many frames are run";
    "" Kind::Text, "symbols" "FILE" "" "a symbol file: labels, and lines of source from a debug file of ld65";
    "" Kind::Text, "allow" "RULES" "" "rules that may be broken, with commas between them";
    "" Kind::Text, "allowed" "FILE" "" "rules that may be broken, and where (below)";
    "" Kind::Choice(WEIGHTS), "fail-on" "WEIGHT" "warning" "what makes the status 1: warning, note (and warnings) or never";
    "" Kind::Choice(FORMATS), "format" "FORMAT" "people" "people, json, sarif (2.1.0) or tap";
    "" Kind::Flag, "progress" "" "" "print on standard error how many frames are done";
];

/// What the help says last.
static AFTER: &str =
    "docs/use/LINT.md has the rules: what a console does, what snes does, and how to mend it.

A file of --allowed has one rule a line, and behind it, if wanted, the address of the instruction (four to six
hexadecimal digits) or the last label at it or before it. # begins a comment.

Statuses: 0 there is nothing to warn of; 1 there is; 2 a file could not be read or is refused, the report could
not be written, or the command line is at fault: standard error says which.";

/// The command line.
pub fn program() -> Program {
    Program {
        name: "lint",
        about: "Warns of what a cartridge does in a run of snes that a console would not forgive",
        commands: &[],
        words: &WORDS,
        needs_words: true,
        after: AFTER,
    }
}
