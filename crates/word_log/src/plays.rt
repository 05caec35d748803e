// The rule of the table, and the steps of its seats.
//
// Each side has a clock word, a count word and a ring of entry words, which that side alone changes. A seat that stands
// for a side loads the other side's words, and stores its own. The number of a step's word says which side's view it
// changes.
ghost use Rattle.std.specs.Prelude.{◌≡◌, ℕ, List, []};
ghost use Rattle.port_entries.specs.Entry.{Entry};
ghost use Rattle.word_log.specs.Layout.{owner_of, entry_in};
ghost use Rattle.port_log.specs.Kept.{other_side};
ghost use Rattle.word_log.specs.Known.{half_in, changed, spent, first_view, console_half, sound_half, joined};
ghost use Rattle.word_log.specs.Rule.{WordsHold};
ghost use Rattle.word_log.specs.Steps.{after_put, after_count, after_publish};
ghost use Rattle.word_log.specs.Steps.{TellsClock, TellsLength, TellsEntry, TellsAll};

use crate::views::View;
use atomic_table::{Join, Play, Seat, Split, TableRule};
use snes_defs::Region;
use std::marker::{Brand, PhantomData};

/// A seat of the table of words, which has no slot.
pub type WordSeat = Seat<(), View>;

/// The rule of the table: what its words say of the two sides, and what each knows of the other.
pub struct WordRule;

impl TableRule<(), View, Region> for WordRule {
    ghost holds = { λ region. WordsHold region };

    ghost first = { λ region. first_view region };
}

/// What a side logs at a load of the other's clock: a clear, if the clock found settles it, or nothing.
pub trait Logging {
    ghost logs: { ℕ → List Entry };
}

impl Logging for Brand {
    ghost logs = { λ _. [] };
}

/// A load of the other side's clock.
pub struct Clock<T> {
    marker: PhantomData<T>,
}

impl<T: Logging> Play<(), View> for Clock<T> {
    ghost then = { λ st m r n. (n.1 ≡ []) × TellsClock (other_side (owner_of st.word)) m.0 T.logs r n.0 };
}

/// A load of the other side's count.
pub struct Length;

impl Play<(), View> for Length {
    ghost then = { λ st m r n. (n.1 ≡ []) × TellsLength (other_side (owner_of st.word)) m.0 r n.0 };
}

/// A load of one entry word of the other side.
pub struct Taking;

impl Play<(), View> for Taking {
    ghost then = { λ st m r n. (n.1 ≡ []) × TellsEntry (other_side (owner_of st.word)) m.0 r n.0 };
}

/// A store of one own entry word.
pub struct Put;

impl Play<(), View> for Put {
    ghost then = { λ st m r n.
        n ≡ (changed (owner_of st.word) (after_put (entry_in r) (half_in (owner_of st.word) m.0)) m.0, []) };
}

/// A store of the own count word, raised by one.
pub struct Count;

impl Play<(), View> for Count {
    ghost then = { λ st m r n.
        n ≡ (changed (owner_of st.word) (after_count (half_in (owner_of st.word) m.0)) m.0, []) };
}

/// A store of the own clock word.
pub struct Publish;

impl Play<(), View> for Publish {
    ghost then = { λ st m r n.
        n ≡ (changed (owner_of st.word) (after_publish r (half_in (owner_of st.word) m.0)) m.0, []) };
}

/// A load that changes nothing, and shows what the rule knows of the two sides.
pub struct Look;

impl Play<(), View> for Look {
    ghost then = { λ st m r n. (n.1 ≡ []) × TellsAll m.0 n.0 };
}

/// The split that gives the sound side's half to a seat of its own, and the join of the two seats.
pub struct BySide;

impl Split<View> for BySide {
    ghost left = { console_half };

    ghost right = { sound_half };
}

/// Two seats are made one.
impl Join<View> for BySide {
    ghost both = { joined };

    ghost spent = { spent };
}
