//! The command line of `bench`, as a table.

use companion_words::{Kind, Program, Word, words};

/// The words.
static WORDS: [Word; 7] = words![
    "" Kind::Placed, "FILE" "" "" "the cases: a TOML file (docs/use/BENCH.md has its form)";
    "" Kind::Text, "case" "NAME" "" "runs only the case of this name";
    "" Kind::Positive, "jobs" "N" "1" "runs N cases at once, 64 at most; what is printed is the same";
    "" Kind::Flag, "tap" "" "" "prints TAP in place of lines for people";
    "" Kind::Text, "junit" "OUT" "" "writes the results as JUnit's XML too";
    "" Kind::Text, "out" "FOLDER" "" "makes FOLDER, and in it index.html, which shows what failed: pictures, and the sound to play";
    "" Kind::Flag, "update" "" "" "writes the golden sums of each case in place of comparing them";
];

/// What the help says last.
static AFTER: &str =
    "Statuses: 0 each case is as expected; 1 one is not; 2 FILE or a file that it names could not be read, a file
could not be written, or the command line is at fault: the report, or standard error, says which.";

/// The command line.
pub fn program() -> Program {
    Program {
        name: "bench",
        about: "Runs the cases of a file, and says which is not as expected",
        commands: &[],
        words: &WORDS,
        needs_words: true,
        after: AFTER,
    }
}
