// The rules of the two tables, and their steps.
//
// The lock table has one slot and the turn word: 0 if the log is free, otherwise the number of the side that has it.
// Its only steps are `Take` and `Give`. The list table has a word for each side, which counts the entries of its list.
// Its steps are `Look` and `Tell`. In both a seat can be cut and joined.
ghost use Rattle.std.specs.Prelude.{◌≡◌, ℕ, List, []};
ghost use Rattle.port_entries.specs.Entry.{Entry};
ghost use Rattle.port_log.specs.Known.{Here, Book, spent_lock, spent_list};
ghost use Rattle.port_log.specs.LockRule.{LockHolds, Tries, given_back, console_part, sound_part, both_parts};
ghost use Rattle.port_log.specs.ListRule.{ListHolds, IsTrueTo, IsOrderly, logged, told_by, side_of, book_in};
ghost use Rattle.port_log.specs.ListRule.{without_book, note_of, console_half, sound_half, joined, first_view};

use crate::kept::Kept;
use crate::views::{ListView, LockView};
use atomic_table::{Join, Play, Seat, Split, TableRule};
use snes_defs::Region;
use std::marker::{Brand, PhantomData};

/// A seat of the lock table, whose slot holds the log.
pub type LockSeat = Seat<Option<Kept>, LockView>;

/// A seat of the list table, which has no slot.
pub type ListSeat = Seat<(), ListView>;

/// What the lock table is made with: a seat of the list table, which names that table, and the region of the log.
#[derive(Drop)]
pub struct LockKey {
    /// The seat of the list table.
    pub list: ListSeat,
    /// The region of the log.
    pub region: Region,
}

/// The rule of the lock table: one side at most holds the log, and the turn word says which.
pub struct LockRule;

impl TableRule<Option<Kept>, LockView, LockKey> for LockRule {
    ghost holds = { λ key. LockHolds key.list.table_id key.region };

    ghost first = { λ key. record {
      console = Here;
      sound = Here;
      missed = 0;
      list = key.list.table_id;
      region = key.region;
    } };
}

/// The step that takes the log: if the turn word is 0, it becomes a side's number, and the slot leaves its home.
pub struct Take;

impl Play<Option<Kept>, LockView> for Take {
    ghost then = { λ st m r n. Tries st.second m.0 r n };
}

/// The step that gives the log back: the turn word becomes 0, and the slot returns.
pub struct Give;

impl Play<Option<Kept>, LockView> for Give {
    ghost then = { λ st m r n. n ≡ (given_back m.0, []) };
}

/// The split of a seat of both sides into one seat for each side, and its join.
pub struct BySide;

impl Split<LockView> for BySide {
    ghost left = { console_part };

    ghost right = { sound_part };
}

impl Join<LockView> for BySide {
    ghost both = { both_parts };

    ghost spent = { spent_lock };
}

/// The rule of the list table: one book of both sides' entries and clocks.
pub struct ListRule;

impl TableRule<(), ListView, ()> for ListRule {
    ghost holds = { λ _. ListHolds };

    ghost first = { λ _. first_view };
}

/// The step that only loads: it changes nothing, and shows the seat what the book is.
pub struct Look;

impl Play<(), ListView> for Look {
    ghost then = { λ st m r n. (n ≡ m) × ((b : Book) × IsTrueTo b m.0 × IsOrderly b) };
}

/// What a step adds to the book: entries of the side of its word, and a clock of that side.
pub trait Telling {
    ghost entries: { List Entry };

    ghost clock: { ℕ };
}

impl Telling for Brand {
    ghost entries = { [] };

    ghost clock = { 0 };
}

/// The step that adds a call's entries and clock to the book.
pub struct Tell<T> {
    marker: PhantomData<T>,
}

impl<T: Telling> Play<(), ListView> for Tell<T> {
    ghost then = { λ st m r n. n ≡
        (told_by (logged (side_of st.word) T.entries T.clock (book_in m.0)) m.0, []) };
}

/// The split that gives the book to a note.
pub struct Note;

impl Split<ListView> for Note {
    ghost left = { without_book };

    ghost right = { note_of };
}

/// The split that gives the sound side's half to a seat of its own.
pub struct Halves;

impl Split<ListView> for Halves {
    ghost left = { console_half };

    ghost right = { sound_half };
}

/// The join of two seats into one.
pub struct Joined;

impl Join<ListView> for Joined {
    ghost both = { joined };

    ghost spent = { spent_list };
}
