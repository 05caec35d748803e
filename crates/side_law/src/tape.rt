// A machine for tests, which plays a list of beats.
ghost use Rattle.std.specs.Prelude.{◌≡◌, ◌+◌, ◌^◌, ◌<◌, ◌≤◌, [], IfOk, length};
ghost use Rattle.side_law.specs.Tape.{AreBeats, IsBeat, tape_of, first_beat, after_beat};

use crate::beat::Beat;
use crate::machine::Machine;
use circular_buffer::HeapCircularBuffer;
use clock_ratio::least;
use snes_defs::{Act, NoMemory, Region};
use std::alloc::Global;
use std::marker::Model;

/// A machine that plays a list of beats, one per step, and emits the byte got at each read. After the last beat it is
/// quiet and rises by the least of its region. It shows that the laws of `Machine` can be met, and serves tests.
#[derive(Drop)]
pub struct Tape {
    region: Region,
    beats: Vec<Beat>,
    /// How many beats were played.
    played: usize,
    stamp: u64,
    waiting: HeapCircularBuffer<u8>,
}

impl Model for Tape {
    ghost use Rattle.std.specs.Prelude.{◌≡◌, ◌≤◌, length, drop};
    ghost use Rattle.side_law.specs.Tape.{TapeValue, AreBeats};

    ghost Value = { TapeValue };

    ghost view = { λ t. record {
      state = record { region = t.region; beats = drop t.played t.beats.items; stamp = t.stamp };
      waiting = t.waiting.items;
    } };

    ghost invariant = { λ t. (t.played ≤ length t.beats.items) × AreBeats t.region (drop t.played t.beats.items)
        × (t.waiting.capacity ≡ 4096) × (length t.waiting.items ≤ 4096) };
}

impl Tape {
    /// Returns a tape of a region at stamp 0 that plays these beats, with no byte buffered. It allocates the buffer,
    /// and fails only if allocation fails.
    pub fn new(alloc: Global, region: Region, beats: Vec<Beat>) -> Result<Tape, NoMemory>
        requires { AreBeats region beats.items }
        ensures starts { IfOk result (λ t. t.state ≡ tape_of region beats.items) }
        ensures empty { IfOk result (λ t. t.waiting ≡ []) }
    {
        match HeapCircularBuffer::with_capacity(alloc, 4096) {
            Ok(waiting) => Ok(Tape {
                region,
                beats,
                played: 0,
                stamp: 0,
                waiting,
            }),
            Err(_) => Err(NoMemory),
        }
    }

    /// The beat of the next step.
    #[tactic(auto, using(crate::specs::TapeLaws::first_is_beat))]
    fn beat(&self) -> Beat
        ensures beat { result ≡ first_beat self.now.state.region self.now.state.beats }
        ensures in_range { IsBeat self.now.state.region result }
    {
        if self.played < self.beats.len() {
            self.beats[self.played]
        } else {
            Beat {
                rise: least(self.region),
                act: Act::Quiet,
            }
        }
    }

    /// Goes past a beat, which is the next one.
    #[tactic(auto, using(crate::specs::TapeLaws::tape_steps))]
    fn pass(&mut self, beat: Beat)
        requires next { beat ≡ first_beat self.old.state.region self.old.state.beats }
        requires in_range { IsBeat self.old.state.region beat }
        requires early { self.old.state.stamp ≤ 2 ^ 62 }
        ensures state { self.new.state ≡ after_beat self.old.state }
        ensures waiting { self.new.waiting ≡ self.old.waiting }
    {
        self.stamp += beat.rise;
        if self.played < self.beats.len() {
            self.played += 1;
        }
    }
}

impl Machine for Tape {
    ghost use Rattle.std.proofs.Common.{rules};
    ghost use Rattle.side_law.specs.Tape.{TapeState, IsTape, tape_moves, StandsAt};
    ghost use Rattle.side_law.specs.TapeLaws.{tape_is_lawful, state_is_tape};

    const CAP: usize = 4096;

    const MOST: usize = 1;

    ghost CAP = { 4096 };

    ghost MOST = { 1 };

    ghost State = { TapeState };

    ghost valid = { IsTape };

    ghost moves = { tape_moves };

    ghost stands = { StandsAt };

    ghost region_of = { λ t. t.state.region };

    ghost stamp_of = { λ t. t.state.stamp };

    ghost waiting = { λ t. t.waiting };

    fn region(&self) -> Region {
        self.region
    }

    fn stamp(&self) -> u64 {
        self.stamp
    }

    fn act(&self) -> Act {
        self.beat().act
    }

    fn step(&mut self, got: u8) {
        let beat = self.beat();
        self.pass(beat);
        if let Act::Read(_) = beat.act {
            self.waiting.push_back(got);
        }
    }

    fn pending(&self) -> usize {
        self.waiting.len()
    }

    fn pieces(&self) -> (&[u8], &[u8]) {
        self.waiting.as_slices()
    }

    fn forget(&mut self) {
        self.waiting.clear();
    }

    fn drain(&mut self, into: &mut [u8]) -> usize {
        self.waiting.read_into(into)
    }

    ghost stands_valid = { λ x m h. state_is_tape x.state m h.0 h.1 };

    ghost stands_stamp = { λ x m h. Prim.search rules };

    ghost lawful = { tape_is_lawful };
}
