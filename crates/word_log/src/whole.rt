// Both passes in one, before and after a turn of two threads.
ghost use Rattle.std.specs.Prelude.{◌≡◌, [], IfOk};
ghost use Rattle.snes_defs.specs.declared.ports.Side.TheVariants.{Console, Sound};
ghost use Rattle.port_wire.specs.Seen.{AreReunited};
ghost use Rattle.word_log.specs.Known.{has};
ghost use Rattle.word_log.specs.Steps.{TellsAll};
ghost use Rattle.word_log.specs.Passes.{IsPassOf};
ghost use Rattle.word_log.specs.Wholes.{IsWholeOf, new_whole, console_pass, sound_pass, FewUnheard};

use crate::desk::Desk;
use crate::layout::WORDS;
use crate::pass::Pass;
use crate::plays::{BySide, Look, WordSeat};
use crate::words::Words;
use atomic_table::Table;
use port_wire::Counts;
use snes_defs::{NoMemory, Region, Side};
use std::alloc::Global;
use std::marker::Model;

/// Both sides' access to the words, in one hand, with the tallies that their passes had. No call over a whole changes
/// these.
#[derive(Drop)]
pub struct Whole {
    pub(crate) seat: WordSeat,
    pub(crate) console: Desk,
    pub(crate) sound: Desk,
    console_counts: Counts,
    sound_counts: Counts,
}

impl Model for Whole {
    ghost use Rattle.word_log.specs.Wholes.{WholeValue, whole_of, StandForBoth};

    ghost Value = { WholeValue };

    ghost view = { λ w. whole_of w.seat.table_id w.seat.me.0 w.console_counts w.sound_counts };

    ghost invariant = { λ w. StandForBoth w.seat.me w.console w.sound };
}

impl Words {
    /// Returns new words for two machines of a region, with their whole. They allocate all the memory that they ever
    /// need, and fail only if allocation fails.
    pub fn open(alloc: Global, region: Region) -> Result<(Words, Whole), NoMemory>
        ensures region { IfOk result (λ opened. opened.0.region ≡ region) }
        ensures whole { IfOk result (λ opened. opened.1 ≡ new_whole opened.0) }
    {
        let console = Desk::new(alloc, region)?;
        let sound = Desk::new(alloc, region)?;
        let Ok(zeros) = vec![in alloc; 0u64; WORDS] else {
            return Err(NoMemory);
        };
        let Ok((table, seat)) = Table::of_words(alloc, zeros.as_slice(), &region) else {
            return Err(NoMemory);
        };
        let words = Words { table, region };
        let whole = Whole {
            seat,
            console,
            sound,
            console_counts: Counts::none(),
            sound_counts: Counts::none(),
        };
        Ok((words, whole))
    }

    /// Cuts a whole into the console's pass and the sound side's. Their tallies begin again.
    pub fn part(&self, whole: Whole) -> (Pass, Pass)
        requires { IsWholeOf self.now whole }
        ensures console { result.0 ≡ console_pass whole }
        ensures sound { result.1 ≡ sound_pass whole }
    {
        let Whole {
            mut seat,
            console,
            sound,
            console_counts: _,
            sound_counts: _,
        } = whole;
        let sound_seat = self.table.shared.split_seat::<BySide>(&mut seat);
        let console_pass = Pass {
            side: Side::Console,
            seat,
            desk: console,
            counts: Counts::none(),
        };
        let sound_pass = Pass {
            side: Side::Sound,
            seat: sound_seat,
            desk: sound,
            counts: Counts::none(),
        };
        (console_pass, sound_pass)
    }

    /// Loads a word, which shows what holds of the two sides.
    pub(crate) fn look(&self, seat: &mut WordSeat)
        requires seat { seat.old.table_id ≡ self.now.table }
        requires no_slot { seat.old.me.1 ≡ [] }
        requires place { seat.old.me.0.region ≡ self.now.region }
        ensures table { seat.new.table_id ≡ seat.old.table_id }
        ensures no_slot { seat.new.me.1 ≡ [] }
        ensures told { TellsAll seat.old.me.0 seat.new.me.0 }
    {
        let _word = self.table.shared.load::<Look>(seat, 0);
    }

    /// Makes a whole of the console's pass and the sound side's.
    pub fn reunite(&self, console: Pass, sound: Pass) -> Whole
        requires console_of { IsPassOf self.now console }
        requires sound_of { IsPassOf self.now sound }
        requires console_side { console.side ≡ Console }
        requires sound_side { sound.side ≡ Sound }
        ensures of { IsWholeOf self.now result }
        ensures console { result.console ≡ console.half }
        ensures sound { result.sound ≡ sound.half }
        ensures reunited { AreReunited console.half sound.half }
        ensures few { FewUnheard console.half sound.half }
    {
        let Pass {
            side: _,
            mut seat,
            desk: console_desk,
            counts: console_counts,
        } = console;
        let Pass {
            side: _,
            seat: sound_seat,
            desk: sound_desk,
            counts: sound_counts,
        } = sound;
        self.table.shared.join_seat::<BySide>(&mut seat, sound_seat);
        self.look(&mut seat);
        Whole {
            seat,
            console: console_desk,
            sound: sound_desk,
            console_counts,
            sound_counts,
        }
    }
}
