//! The command line of `header`, as a table.

use companion_words::{Kind, Program, Word, words};

/// The words, in the help's order.
static WORDS: [Word; 4] = words![
    "" Kind::Placed, "in" "IN" "" "a cartridge without a header";
    "" Kind::Placed, "out" "OUT" "" "where its copy with a header goes";
    "" Kind::Text, "title" "TEXT" "" against &["least"], "the title in the header, of at most 21 printable ASCII characters; if left out, spaces";
    "" Kind::Flag, "least" "" "" "write four bytes of a header only, 7FD5 to 7FD8, whatever they were";
];

/// What the help says last.
static AFTER: &str =
    "A file without a header is taken for a LoROM cartridge without RAM, if its image has 32 KiB to 4 MiB, and its reset
vector leads to 8000 or above (byte 7FFD is at least 80). The image begins behind the 512 bytes that a copier may have
put in front. The 32 bytes of a header, 7FC0 to 7FDF, are written only if they are all 00 or all FF. Nothing else
changes. docs/use/CARTRIDGES.md says more.

Statuses: 0 OUT is written; 1 IN is refused, and OUT is left as it was; 2 a file could not be read or written, or the
command line is at fault. The line that is printed says which, and what to do.";

/// The command line.
pub fn program() -> Program {
    Program {
        name: "header",
        about: "Writes a LoROM header into a copy of a cartridge that has none, so that snes takes it",
        commands: &[],
        words: &WORDS,
        needs_words: true,
        after: AFTER,
    }
}
