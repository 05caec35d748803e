ghost use Rattle.std.specs.Prelude.{◌≡◌, ◌≤◌, [], IfOk, length};
ghost use Rattle.clock_ratio.specs.Stamp.{least_of, most_of};
ghost use Rattle.snes_defs.specs.declared.region.Region.TheVariants.{Ntsc};

use circular_buffer::HeapCircularBuffer;
use side_law::Machine;
use snes_defs::{Act, NoMemory, Region};
use std::alloc::Global;
use std::marker::Model;

/// The rhythm of an emitter.
#[derive(Clone, Copy)]
pub struct Rhythm {
    /// Stamps of a step.
    pub rise: u64,
    /// Steps between two rows, which emit nothing.
    pub period: u64,
    /// Rows before the pause, not counting the first one.
    pub rows: u64,
    /// Steps of the pause, which emit nothing.
    pub pause: u64,
}

/// A machine that is always quiet and emits rows of at most `SIZE` bytes; it has room for `ROOM` bytes of them.
#[derive(Drop)]
pub struct Emitter<const ROOM: usize, const SIZE: usize> {
    region: Region,
    rhythm: Rhythm,
    row: Vec<u8>,
    left: u64,
    rows: u64,
    stamp: u64,
    waiting: HeapCircularBuffer<u8>,
}

impl<const ROOM: usize, const SIZE: usize> Model for Emitter<ROOM, SIZE> {
    ghost use Rattle.std.specs.Prelude.{◌≡◌, ◌≤◌, length};
    ghost use Rattle.clock_ratio.specs.Stamp.{least_of, most_of};
    ghost use Rattle.turn_rows.specs.Emitter.{EmitterValue};

    ghost Value = { EmitterValue };

    ghost view = { λ e. record {
      state = record { region = e.region; rhythm = e.rhythm; row = e.row.items; left = e.left; rows = e.rows; stamp = e.stamp };
      waiting = e.waiting.items;
    } };

    ghost invariant = { λ e. (e.waiting.capacity ≡ ROOM) × (length e.waiting.items ≤ ROOM)
        × (least_of e.region ≤ e.rhythm.rise) × (e.rhythm.rise ≤ most_of e.region) × (length e.row.items ≤ SIZE) };
}

impl<const ROOM: usize, const SIZE: usize> Emitter<ROOM, SIZE> {
    /// Returns an emitter at stamp 0 that emits this row again and again, with no byte pending.
    pub fn new(
        alloc: Global,
        region: Region,
        rhythm: Rhythm,
        row: Vec<u8>,
    ) -> Result<Emitter<ROOM, SIZE>, NoMemory>
        requires least { least_of region ≤ rhythm.rise }
        requires most { rhythm.rise ≤ most_of region }
        requires short { length row.items ≤ SIZE }
        ensures region { IfOk result (λ e. e.state.region ≡ region) }
        ensures starts { IfOk result (λ e. e.state.stamp ≡ 0) }
        ensures empty { IfOk result (λ e. e.waiting ≡ []) }
    {
        match HeapCircularBuffer::with_capacity(alloc, ROOM) {
            Ok(waiting) => Ok(Emitter {
                region,
                rhythm,
                row,
                left: rhythm.period,
                rows: rhythm.rows,
                stamp: 0,
                waiting,
            }),
            Err(_) => Err(NoMemory),
        }
    }
}

impl<const ROOM: usize, const SIZE: usize> Machine for Emitter<ROOM, SIZE> {
    ghost use Rattle.std.proofs.Common.{rules};
    ghost use Rattle.turn_rows.specs.Emitter.{EmitterState, IsEmitter, emitter_moves, StandsAt};
    ghost use Rattle.turn_rows.specs.EmitterLaws.{emitter_is_lawful, state_is_emitter};

    const CAP: usize = ROOM;

    const MOST: usize = SIZE;

    ghost CAP = { ROOM };

    ghost MOST = { SIZE };

    ghost State = { EmitterState };

    ghost valid = { IsEmitter SIZE };

    ghost moves = { emitter_moves };

    ghost stands = { StandsAt SIZE };

    ghost region_of = { λ e. e.state.region };

    ghost stamp_of = { λ e. e.state.stamp };

    ghost waiting = { λ e. e.waiting };

    fn region(&self) -> Region {
        self.region
    }

    fn stamp(&self) -> u64 {
        self.stamp
    }

    fn act(&self) -> Act {
        Act::Quiet
    }

    fn step(&mut self, _got: u8) {
        self.stamp += self.rhythm.rise;
        if self.left > 0 {
            self.left -= 1;
            return;
        }
        if self.rows > 0 {
            self.rows -= 1;
            self.left = self.rhythm.period;
        } else {
            self.rows = self.rhythm.rows;
            self.left = self.rhythm.pause;
        }
        self.waiting.fill_from_slice(self.row.as_slice());
    }

    fn pending(&self) -> usize {
        self.waiting.len()
    }

    fn pieces(&self) -> (&[u8], &[u8]) {
        self.waiting.as_slices()
    }

    fn forget(&mut self) {
        self.waiting.clear();
    }

    fn drain(&mut self, into: &mut [u8]) -> usize {
        self.waiting.read_into(into)
    }

    ghost stands_valid = { λ x m h. state_is_emitter SIZE x.state m h.0 h.1 };

    ghost stands_stamp = { λ x m h. Prim.search rules };

    ghost lawful = { emitter_is_lawful SIZE };
}

/// A machine that emits as the console does.
pub type Rows = Emitter<65536, 1024>;

/// A machine that emits as the sound side does.
pub type Samples = Emitter<4096, 4>;

/// Returns a machine that emits rows of 1,024 bytes as the console does. It takes a step every 22 master clocks, so 62
/// a line, and emits a row at each of the first 239 of a frame's 262 lines.
pub fn rows(alloc: Global) -> Result<Rows, NoMemory>
    ensures region { IfOk result (λ e. e.state.region ≡ Ntsc) }
    ensures starts { IfOk result (λ e. e.state.stamp ≡ 0) }
    ensures empty { IfOk result (λ e. e.waiting ≡ []) }
{
    let Ok(row) = vec![in alloc; 0u8; 1024] else {
        return Err(NoMemory);
    };
    let rhythm = Rhythm {
        rise: 22 * 5632,
        period: 61,
        rows: 238,
        pause: 24 * 62 - 1,
    };
    Emitter::new(alloc, Region::Ntsc, rhythm, row)
}

/// Returns a machine that emits samples of four bytes as the sound side does, one every 32 cycles.
pub fn samples(alloc: Global) -> Result<Samples, NoMemory>
    ensures region { IfOk result (λ e. e.state.region ≡ Ntsc) }
    ensures starts { IfOk result (λ e. e.state.stamp ≡ 0) }
    ensures empty { IfOk result (λ e. e.waiting ≡ []) }
{
    let Ok(row) = vec![in alloc; 0u8; 4] else {
        return Err(NoMemory);
    };
    let rhythm = Rhythm {
        rise: 118_125,
        period: 31,
        rows: 0,
        pause: 31,
    };
    Emitter::new(alloc, Region::Ntsc, rhythm, row)
}
