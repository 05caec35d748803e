use crate::counts::Counts;
use crate::thread_number::thread_number;
use snes_defs::Side;
use std::rt::Files;
use std::sync::atomic::{AtomicU64, Ordering};
use std::thread::yield_now;
use worker_gate::Gate;

/// How many times a worker looks for the other one as it starts a turn.
const LOOKS: u32 = 1_000_000;

/// The watch's record of one worker. Turns count from 1 here, so 0 is none.
#[derive(Drop)]
struct Worker {
    /// The turn that it started last, and the thread in which it did.
    turn: AtomicU64,
    thread: AtomicU64,
    /// The last turn in which it saw the other one start before its own leg began.
    saw: AtomicU64,
    /// 1 if a turn was not the one after the last.
    jumped: AtomicU64,
}

impl Worker {
    fn new() -> Worker {
        Worker {
            turn: AtomicU64::new(0),
            thread: AtomicU64::new(0),
            saw: AtomicU64::new(0),
            jumped: AtomicU64::new(0),
        }
    }

    /// Clears the record.
    fn forget(&self) {
        self.turn.store(0, Ordering::SeqCst);
        self.thread.store(0, Ordering::SeqCst);
        self.saw.store(0, Ordering::SeqCst);
        self.jumped.store(0, Ordering::SeqCst);
    }
}

/// A gate that records, for each turn, whether both workers started it, in which threads, and whether both legs
/// overlapped. Both see each other in one turn only if neither leg had begun before the other worker started.
#[derive(Drop)]
pub struct Watch<'a, R> {
    rt: &'a R,
    console: Worker,
    sound: Worker,
    /// How often a worker started a turn: the second one of a turn gets an odd number.
    arrivals: AtomicU64,
    on_two_threads: AtomicU64,
    /// The last turn in which both saw each other, and how many there were.
    met: AtomicU64,
    overlapped: AtomicU64,
}

impl<'a, R: Files> Watch<'a, R> {
    /// Returns a watch that has counted nothing.
    pub fn new(rt: &'a R) -> Watch<'a, R> {
        Watch {
            rt,
            console: Worker::new(),
            sound: Worker::new(),
            arrivals: AtomicU64::new(0),
            on_two_threads: AtomicU64::new(0),
            met: AtomicU64::new(0),
            overlapped: AtomicU64::new(0),
        }
    }

    /// Starts to count again, for a run that has not begun.
    pub fn begin(&self) {
        self.console.forget();
        self.sound.forget();
        self.arrivals.store(0, Ordering::SeqCst);
        self.on_two_threads.store(0, Ordering::SeqCst);
        self.met.store(0, Ordering::SeqCst);
        self.overlapped.store(0, Ordering::SeqCst);
    }

    /// Returns the counts, once the run is over. They have no turns if those were not numbered from 0 on, each once and
    /// in order, and alike for both workers.
    pub fn counts(&self) -> Counts {
        let turns = self.console.turn.load(Ordering::SeqCst);
        let jumped = self.console.jumped.load(Ordering::SeqCst) != 0
            || self.sound.jumped.load(Ordering::SeqCst) != 0;
        if jumped || self.sound.turn.load(Ordering::SeqCst) != turns {
            return Counts::none();
        }
        Counts {
            turns,
            on_two_threads: self.on_two_threads.load(Ordering::SeqCst),
            overlapped: self.overlapped.load(Ordering::SeqCst),
        }
    }

    /// Records the turn that a worker starts, and its thread. The second worker of a turn compares both threads.
    fn set_out(&self, own: &Worker, other: &Worker, turn: u64) {
        let thread = thread_number(self.rt);
        own.thread.store(thread, Ordering::SeqCst);
        if own.turn.swap(turn, Ordering::SeqCst) != turn.wrapping_sub(1) {
            own.jumped.store(1, Ordering::SeqCst);
        }
        if self.arrivals.fetch_add(1, Ordering::SeqCst) % 2 == 1
            && other.turn.load(Ordering::SeqCst) == turn
            && other.thread.load(Ordering::SeqCst) != thread
        {
            self.on_two_threads.fetch_add(1, Ordering::SeqCst);
        }
    }

    /// Looks once for the other worker, and returns whether it has started the same turn.
    fn looks(&self, own: &Worker, other: &Worker, turn: u64) -> bool {
        if other.turn.load(Ordering::SeqCst) != turn {
            return false;
        }
        own.saw.store(turn, Ordering::SeqCst);
        if other.saw.load(Ordering::SeqCst) == turn
            && self.met.swap(turn, Ordering::SeqCst) != turn
        {
            self.overlapped.fetch_add(1, Ordering::SeqCst);
        }
        true
    }
}

impl<R: Files + Sync> Gate for Watch<'_, R> {
    fn arrive(&self, side: Side, turn: u64) {
        let (own, other) = match side {
            Side::Console => (&self.console, &self.sound),
            Side::Sound => (&self.sound, &self.console),
        };
        let turn = turn.saturating_add(1);
        self.set_out(own, other, turn);
        for look in 0..LOOKS {
            if self.looks(own, other, turn) {
                return;
            }
            if look % 64 == 63 {
                yield_now();
            }
        }
    }
}
