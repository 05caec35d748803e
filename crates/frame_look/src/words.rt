//! The command line of `look`, as a table.

use companion_words::{About, Kind, Program, Word, words};

/// The commands.
static COMMANDS: [About; 9] = [
    About {
        name: "png",
        text: "One frame as PNG, as a television shows it: 512 by 478, each row twice",
    },
    About {
        name: "wav",
        text: "The sound as WAV: 32,000 samples a second, left and right, 16 bits",
    },
    About {
        name: "sums",
        text: "SHA-256 of each frame's picture and samples, and of both files: CSV",
    },
    About {
        name: "diff",
        text: "Whether two videos, sounds or states are alike, or a frame and a PNG, and where they differ. Status 0: alike; 1: different; 2: one can't be read",
    },
    About {
        name: "sheet",
        text: "A sheet of small pictures with their numbers, as PNG",
    },
    About {
        name: "cut",
        text: "COUNT frames from frame FROM on, as raw frames or raw samples",
    },
    About {
        name: "avi",
        text: "Picture and sound as AVI, uncompressed: 512 by 478, at the region's exact rate",
    },
    About {
        name: "state",
        text: "What a state of snes dump holds: registers, and the lines of each memory that have a byte other than 0",
    },
    About {
        name: "tags",
        text: "The tags of a sound file (.spc), a line for each that is there: title, game, artist, length and more",
    },
];

/// The names of the regions.
const REGIONS: &[&str] = &["ntsc", "pal"];

/// The names of the memories of a state.
const MEMORIES: &[&str] = &["dsp", "cgram", "oam", "wram", "vram", "aram", "sram"];

/// The words of all commands.
static WORDS: [Word; 35] = words![
    "png" Kind::Placed, "VIDEO" "" "" "raw frames; - is standard input";
    "png" Kind::PlacedNumber, "FRAME" "" "" "its number, from 0";
    "png" Kind::Placed, "OUT" "" "" "the PNG";
    "png" Kind::Flag, "raw" "" "" "512 by 239, each row once";
    "wav" Kind::Placed, "AUDIO" "" "" "raw samples; - is standard input";
    "wav" Kind::Placed, "OUT" "" "" "the WAV";
    "sums" Kind::Placed, "VIDEO" "" "" "raw frames; - is standard input";
    "sums" Kind::MayBePlaced, "AUDIO" "" "" "raw samples; if left out, only the pictures are summed";
    "sums" Kind::Choice(REGIONS), "region" "REGION" "" "ntsc or pal; if left out, as the lengths of the two files show, and ntsc for pipes";
    "sums" Kind::Flag, "json" "" "" "JSON instead of CSV";
    "diff" Kind::Placed, "A" "" "" "raw frames, or samples with --audio";
    "diff" Kind::Placed, "B" "" "" "the same; with --frame a PNG";
    "diff" Kind::Number, "frame" "FRAME" "" against &["audio", "state"], "compare frame FRAME of A, from 0, with the PNG B: 512 or 256 by 478, 448, 239 or 224";
    "diff" Kind::Text, "png" "OUT" "" "a picture of the first frame that differs: red where it does";
    "diff" Kind::Flag, "audio" "" "" "A and B are raw samples";
    "diff" Kind::Flag, "state" "" "" against &["audio", "png"], "A and B are states of snes dump";
    "diff" Kind::Number, "lines" "COUNT" "20" "with --state: how many differences are printed at most";
    "sheet" Kind::Placed, "VIDEO" "" "" "raw frames; - is standard input";
    "sheet" Kind::Placed, "OUT" "" "" "the PNG";
    "sheet" Kind::Positive, "every" "FRAMES" "60" "a picture every FRAMES frames, from frame 0 on";
    "cut" Kind::Placed, "FILM" "" "" "raw frames, or samples with --audio; - is standard input";
    "cut" Kind::PlacedNumber, "FROM" "" "" "the first frame, from 0";
    "cut" Kind::PlacedNumber, "COUNT" "" "" "how many frames";
    "cut" Kind::Placed, "OUT" "" "" "the raw frames or samples";
    "cut" Kind::Flag, "audio" "" "" "FILM and OUT are raw samples";
    "cut" Kind::Choice(REGIONS), "region" "REGION" "" "with --audio: ntsc or pal; if left out, as the length of the file shows";
    "avi" Kind::Placed, "VIDEO" "" "" "raw frames; - is standard input";
    "avi" Kind::Placed, "AUDIO" "" "" "raw samples";
    "avi" Kind::Placed, "OUT" "" "" "the AVI";
    "avi" Kind::Choice(REGIONS), "region" "REGION" "" "ntsc or pal; if left out, as the lengths of the two files show, and ntsc for pipes";
    "state" Kind::Placed, "FILE" "" "" "the state; - is standard input";
    "state" Kind::Choice(MEMORIES), "memory" "NAME" "" "one memory alone, with its lines of zeros";
    "state" Kind::Text, "from" "ADDRESS" "" "with --memory: the first address, decimal, or hexadecimal after 0x; 0 if left out";
    "state" Kind::Text, "count" "COUNT" "" "with --memory: how many bytes; all if left out";
    "tags" Kind::Placed, "FILE" "" "" "the sound file; - is standard input";
];

/// What the help says last.
static AFTER: &str =
    "Statuses: 0 done, and of diff: alike; 1 diff found a difference; 2 a file could not be read or written, is cut,
or the command line is at fault: standard error says which.";

/// The command line.
pub fn program() -> Program {
    Program {
        name: "look",
        about: "Looks at the raw frames, the samples and the states that snes wrote, and at sound files",
        commands: &COMMANDS,
        words: &WORDS,
        needs_words: true,
        after: AFTER,
    }
}
