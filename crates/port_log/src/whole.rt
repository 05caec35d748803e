// Both passes in one, before and after a turn of two threads.
ghost use Rattle.std.specs.Prelude.{◌≡◌, IfOk};
ghost use Rattle.snes_defs.specs.declared.ports.Side.TheVariants.{Console, Sound};
ghost use Rattle.port_log.specs.Passes.{IsPassOf};
ghost use Rattle.port_log.specs.Wholes.{IsWholeOf, new_whole, console_pass, sound_pass, IsReunited};

use crate::kept::Kept;
use crate::pass::Pass;
use crate::plays::{BySide, Halves, Joined, LockKey, Look, Note};
use crate::port_log::PortLog;
use crate::ports::Ports;
use crate::seats::{Clocks, Seats};
use atomic_table::{Refused, Table};
use port_wire::Counts;
use snes_defs::{NoMemory, Region, Side};
use std::alloc::Global;
use std::marker::Model;

/// Both sides' access to the ports, in one hand, with the tallies that their passes had. No call over a whole changes
/// these.
#[derive(Drop)]
pub struct Whole {
    // The clocks of the seats are the console's.
    pub(crate) seats: Seats,
    pub(crate) sound: Clocks,
    console_counts: Counts,
    sound_counts: Counts,
}

impl Model for Whole {
    ghost use Rattle.port_log.specs.Wholes.{WholeValue, whole_of, StandForBoth};

    ghost Value = { WholeValue };

    ghost view = { λ w. whole_of w.seats w.console_counts w.sound_counts };

    ghost invariant = { λ w. StandForBoth w.seats w.sound };
}

impl Ports {
    /// Cuts a whole into the console's pass and the sound side's. Their tallies begin again.
    pub fn part(&self, whole: Whole) -> (Pass, Pass)
        requires { IsWholeOf self.now whole }
        ensures console { result.0 ≡ console_pass whole }
        ensures sound { result.1 ≡ sound_pass whole }
    {
        let Whole {
            seats,
            sound: sound_clocks,
            console_counts: _,
            sound_counts: _,
        } = whole;
        let Seats {
            mut lock,
            mut list,
            clocks,
        } = seats;
        let sound_lock = self.lock.shared.split_seat::<BySide>(&mut lock);
        let sound_list = self.list.shared.split_seat::<Halves>(&mut list);
        let console = Pass {
            side: Side::Console,
            seats: Seats { lock, list, clocks },
            counts: Counts::none(),
        };
        let sound = Pass {
            side: Side::Sound,
            seats: Seats {
                lock: sound_lock,
                list: sound_list,
                clocks: sound_clocks,
            },
            counts: Counts::none(),
        };
        (console, sound)
    }

    /// Makes a whole of the console's pass and the sound side's.
    pub fn reunite(&self, console: Pass, sound: Pass) -> Whole
        requires console_of { IsPassOf self.now console }
        requires sound_of { IsPassOf self.now sound }
        requires console_side { console.side ≡ Console }
        requires sound_side { sound.side ≡ Sound }
        ensures of { IsWholeOf self.now result }
        ensures console { result.console ≡ console.half }
        ensures sound { result.sound ≡ sound.half }
        ensures reunited { IsReunited result }
    {
        let Pass {
            side: _,
            seats,
            counts: console_counts,
        } = console;
        let Seats {
            mut lock,
            mut list,
            clocks,
        } = seats;
        let Pass {
            side: _,
            seats,
            counts: sound_counts,
        } = sound;
        let Seats {
            lock: sound_lock,
            list: sound_list,
            clocks: sound_clocks,
        } = seats;
        self.lock.shared.join_seat::<BySide>(&mut lock, sound_lock);
        self.list.shared.join_seat::<Joined>(&mut list, sound_list);
        let _count = self.list.shared.load::<Look>(&mut list, 0);
        Whole {
            seats: Seats { lock, list, clocks },
            sound: sound_clocks,
            console_counts,
            sound_counts,
        }
    }

    /// Returns new ports for two machines of a region, with their whole. They allocate all the memory that they ever
    /// need, and fail only if allocation fails.
    pub fn open(alloc: Global, region: Region) -> Result<(Ports, Whole), NoMemory>
        ensures region { IfOk result (λ opened. opened.0.region ≡ region) }
        ensures whole { IfOk result (λ opened. opened.1 ≡ new_whole opened.0) }
    {
        let log = PortLog::new(alloc, region)?;
        let Ok(log) = Box::new(alloc, log) else {
            return Err(NoMemory);
        };
        let Ok((list, mut list_seat)) = Table::of_words(alloc, &[0, 0], &()) else {
            return Err(NoMemory);
        };
        let note = list.shared.split_seat::<Note>(&mut list_seat).into_badge();
        let key = LockKey {
            list: list_seat,
            region,
        };
        let Ok(mut slots) = Vec::with_capacity(alloc, 1) else {
            return Err(NoMemory);
        };
        slots.push_reserved(Some(Kept { log, note }));
        match Table::new(alloc, &[0], slots, &key) {
            Ok((lock, lock_seat)) => {
                let LockKey {
                    list: list_seat,
                    region: _,
                } = key;
                let clocks = Clocks { own: 0, known: 0 };
                let ports = Ports { lock, list, region };
                let whole = Whole {
                    seats: Seats {
                        lock: lock_seat,
                        list: list_seat,
                        clocks,
                    },
                    sound: clocks,
                    console_counts: Counts::none(),
                    sound_counts: Counts::none(),
                };
                Ok((ports, whole))
            }
            Err(Refused { slots: _ }) => Err(NoMemory),
        }
    }
}
