// Where the words of each side are in the table.
ghost use Rattle.std.specs.Prelude.{◌≡◌, ◌<◌};
ghost use Rattle.port_entries.specs.Entry.{WriteAt};
ghost use Rattle.port_log.specs.Kept.{other_side};
ghost use Rattle.word_log.specs.Layout.{first_word, clock_word, count_word, entry_word, entry_number, end_of_stamps};

use snes_defs::Side;

/// How many words there are: for each side a clock and a count, each on cache lines of its own, and 8,192 entries.
pub const WORDS: usize = 16448;

/// How many entry words a side has.
const RING: u64 = 8192;

/// Returns the side across the ports.
#[inline(always)]
pub fn across(side: Side) -> Side
    ensures { result ≡ other_side side }
{
    match side {
        Side::Console => Side::Sound,
        Side::Sound => Side::Console,
    }
}

/// Returns the first word of a side.
#[inline(always)]
fn first_place(side: Side) -> usize
    ensures { result ≡ first_word side }
{
    match side {
        Side::Console => 0,
        Side::Sound => 8224,
    }
}

/// Returns the index of the word in which a side publishes its clock.
#[inline(always)]
pub fn clock_place(side: Side) -> usize
    ensures { result ≡ clock_word side }
{
    first_place(side)
}

/// Returns the index of the word that counts a side's writes.
#[inline(always)]
pub fn count_place(side: Side) -> usize
    ensures { result ≡ count_word side }
{
    match side {
        Side::Console => 16,
        Side::Sound => 8240,
    }
}

/// Returns the index of the word that a side's write of a number goes to.
#[inline(always)]
pub fn entry_place(side: Side, number: u64) -> usize
    ensures { result ≡ entry_word side number }
{
    let place = (number % RING) as usize;
    match side {
        Side::Console => 32 + place,
        Side::Sound => 8256 + place,
    }
}

/// Returns the entry word of a write: its stamp above ten bits for the port and the byte.
#[inline(always)]
pub fn packed(at: u64, port: u8, v: u8) -> u64
    requires stamp { at < end_of_stamps }
    requires port { port < 4 }
    ensures { result ≡ entry_number (WriteAt at port v) }
{
    at * 1024 + port as u64 * 256 + v as u64
}
