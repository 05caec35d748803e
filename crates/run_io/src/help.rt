ghost use Rattle.std.specs.Prelude.{◌≡◌};
ghost use Rattle.run_io.specs.Line.{line_of, help_text, version_text};

use crate::lines::{Line, whole};

/// The version. The head of CHANGELOG.md has it too, and a check compares them.
const VERSION: &str = "snes 1.1\n";

/// THE HELP: each command with its arguments.
static HELP: &str = "\
snes run    --cart FILE --boot FILE --table FILE --script FILE --frames N --video FILE --audio FILE\n\
snes serial --cart FILE --boot FILE --table FILE --script FILE --frames N --video FILE --audio FILE\n\
snes lockless (the same arguments)\n\
\x20           run a cartridge for N frames (at most 36000) and write raw frames and raw samples;\n\
\x20           run: on two workers, serial: in one, lockless: on two without a lock; the bytes are the same\n\
snes play --spc FILE --table FILE --samples N | --seconds N [--voices LIST] [--fade N] --audio FILE\n\
\x20           play a sound file for N samples, 32000 a second (at most 19200000), or N seconds (at most 600),\n\
\x20           and write raw samples; with voices 0 to 7 and the echo of a LIST alone, like 0,3,echo;\n\
\x20           its last N milliseconds fade out\n\
snes make NUMBER --out FILE\n\
\x20           write the cartridge that a number makes\n\
snes demo NUMBER --frames N\n\
\x20           run that cartridge in memory, and print the sums of what it put out\n\
snes rewind --cart FILE --boot FILE --table FILE --plan FILE --video FILE --audio FILE\n\
\x20           play a plan: lines go COUNT PAD1 PAD2, keep SLOT, back SLOT, reset, and first region pal\n\
\x20           for a PAL console (docs/use/REWIND.md)\n\
snes sums --cart FILE [--boot FILE] [--table FILE] [--script FILE] --frames N --sums FILE\n\
\x20           run a cartridge as serial does, and write the SHA-256 of each picture, of its samples and of all\n\
snes check --cart FILE [--boot FILE] [--table FILE] [--script FILE] --frames N --sums FILE\n\
\x20           run it likewise, and compare its sums with those of a file: 6 and the first difference, if there is one\n\
snes dump --cart FILE [--boot FILE] [--table FILE] [--script FILE] --frames N --state FILE\n\
\x20           run a cartridge, and write the registers and memories at its end (docs/use/STATE.md)\n\
snes spc --cart FILE [--boot FILE] [--table FILE] [--script FILE] --frames N [--title TEXT] [--game TEXT] [--artist TEXT] [--comment TEXT] [--length N] [--fade N] --spc FILE\n\
\x20           run a cartridge, and write a sound file of its music at the end (docs/use/SPC-FILES.md), with tags:\n\
\x20           four texts of at most 32 characters, N seconds before the fade, N milliseconds of fade\n\
snes --help, snes -h, snes --version\n\
\x20           print this text, or the version\n\
./snes --quiet ..\n\
\x20           the same without a word on how far a run is\n\
\n\
\x20 --cart    a raw LoROM or HiROM image        --boot    the sound processor's boot ROM, 64 bytes\n\
\x20 --table   512 numbers of 16 bits            --script  lines of frames and pads; may be empty\n\
\x20 --spc     a sound file\n\
\x20 The first line of a script may be version 2 or 3, and ntsc or pal; 3 is the second profile, nearer to a\n\
\x20 console (docs/machine/PROFILES.md).\n\
\x20 What stands in brackets may be left out: the free boot ROM, the free table, an empty script,\n\
\x20 all voices, no fade, no tags.\n\
\x20 ./scene FOLDER writes two free cartridges, a boot ROM, a table and an empty script.\n\
\n\
Statuses: 0 done, 1 invalid arguments, 2 an input could not be read, 3 an input was refused, 4 an output could\n\
not be written, 5 out of memory, 6 the sums differ; of the script ./snes: 70 the program could not be built.\n\
docs/use/COMMANDS.md has the formats, and the cause of each answer.\n";

/// Returns the help: each command with its arguments, the options, and the exit statuses.
pub fn help_line() -> Line
    ensures text { result ≡ help_text }
{
    whole(HELP)
}

/// Returns the version: `snes 1.1`.
pub fn version_line() -> Line
    ensures text { result ≡ version_text }
{
    whole(VERSION)
}
