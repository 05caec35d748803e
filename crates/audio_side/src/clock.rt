ghost use Rattle.std.specs.Prelude.{◌≡◌, ◌<◌, ◌≤◌, ◌+◌, ◌*◌, ◌/◌, ◌%◌, ◌^◌, IsTrue};
ghost use Rattle.snes_defs.specs.declared.ports.Side.TheVariants.{Sound};
ghost use Rattle.snes_defs.specs.Script.{is_reset};
ghost use Rattle.clock_ratio.specs.Stamp.{frame_of, rate_of};
ghost use Rattle.audio_side.specs.Clock.{gone_on, is_reset_due, stamp_now};
ghost use Rattle.audio_side.specs.Runs.{AreFree, IsFarFromReset, beat_of, later};

use clock_ratio::{FRAME_STAMPS, PAL_FRAME_STAMPS, PAL_SOUND_RATE, SOUND_RATE};
use snes_defs::Region;
use std::marker::Model;

mod copy;

/// The clock of the sound side.
#[derive(Drop)]
pub struct CycleClock {
    /// The region, which says how long a frame and a cycle last.
    pub region: Region,
    /// The frames that begin with a reset, in order.
    pub resets: Vec<u32>,
    /// The number of the next cycle, from 0.
    pub cycle: u64,
    /// Stamps per cycle.
    rate: u64,
    /// The stamp of the next cycle, kept so that no product is computed.
    stamp: u64,
    /// For how many resets there is memory.
    room: usize,
}

impl Model for CycleClock {
    ghost use Rattle.std.specs.Prelude.{◌≡◌, ◌≤◌, ◌+◌, ◌*◌, ◌^◌, vec_capacity};
    ghost use Rattle.snes_defs.specs.declared.ports.Side.TheVariants.{Sound};
    ghost use Rattle.clock_ratio.specs.Stamp.{rate_of};
    ghost use Rattle.audio_side.specs.Clock.{Clock};

    ghost Value = { Clock };

    ghost view = { λ s. record { region = s.region; resets = s.resets.items; cycle = s.cycle; room = s.room } };

    ghost invariant = { λ s. (s.cycle ≤ 2 ^ 46) × (s.rate ≡ rate_of s.region Sound) × (s.stamp ≡ rate_of s.region Sound * s.cycle) × (s.stamp ≤ 2 ^ 62 + rate_of s.region Sound) × (s.room ≤ vec_capacity s.resets) };
}

impl CycleClock {
    /// The clock before the first cycle.
    pub fn new(region: Region, resets: Vec<u32>) -> CycleClock
        ensures { result ≡ record { region = region; resets = resets.items; cycle = 0; room = 0 } }
    {
        let rate = match region {
            Region::Ntsc => SOUND_RATE,
            Region::Pal => PAL_SOUND_RATE,
        };
        CycleClock {
            region,
            resets,
            cycle: 0,
            rate,
            stamp: 0,
            room: 0,
        }
    }

    /// Stamps per cycle.
    #[inline(always)]
    fn rate(&self) -> u64
        ensures { result ≡ rate_of self.now.region Sound }
    {
        self.rate
    }

    /// The stamp of the next cycle.
    #[inline(always)]
    pub fn stamp(&self) -> u64
        ensures { result ≡ stamp_now self.now }
    {
        self.stamp
    }

    /// The frame in which the next cycle lies.
    #[inline(always)]
    fn frame(&self) -> u64
        ensures { result ≡ stamp_now self.now / frame_of self.now.region }
    {
        let stamp = self.stamp();
        match self.region {
            Region::Ntsc => stamp / FRAME_STAMPS,
            Region::Pal => stamp / PAL_FRAME_STAMPS,
        }
    }

    /// How many stamps of that frame have passed.
    #[inline(always)]
    fn passed(&self) -> u64
        ensures { result ≡ stamp_now self.now % frame_of self.now.region }
    {
        let stamp = self.stamp();
        match self.region {
            Region::Ntsc => stamp % FRAME_STAMPS,
            Region::Pal => stamp % PAL_FRAME_STAMPS,
        }
    }

    /// Whether a frame begins with a reset.
    #[inline(never)]
    fn has_reset(&self, frame: u64) -> bool
        ensures { result ≡ is_reset self.now.resets frame }
    {
        for reset in self.resets.as_slice() {
            if *reset as u64 == frame {
                return true;
            }
        }
        false
    }

    /// Whether the next step is a reset.
    #[inline(always)]
    pub fn is_due(&self) -> bool
        ensures { result ≡ is_reset_due self.now }
    {
        if self.resets.is_empty() {
            false
        } else {
            self.passed() < self.rate() && self.has_reset(self.frame())
        }
    }

    /// The number of the next cycle, from 0.
    #[inline(always)]
    pub fn number(&self) -> u64
        ensures value { result ≡ self.now.cycle }
        ensures small { result ≤ 2 ^ 46 }
    {
        self.cycle
    }

    /// Moves the clock on to the next cycle.
    #[inline(always)]
    pub fn go_on(&mut self)
        requires { stamp_now self.old ≤ 2 ^ 62 }
        ensures { self.new ≡ gone_on self.old }
    {
        self.cycle += 1;
        self.stamp += self.rate;
    }

    /// The stamps of a frame.
    #[inline(always)]
    fn frame_stamps(&self) -> u64
        ensures { result ≡ frame_of self.now.region }
    {
        match self.region {
            Region::Ntsc => FRAME_STAMPS,
            Region::Pal => PAL_FRAME_STAMPS,
        }
    }

    /// Whether a quick test shows that none of the next 32 cycles is a reset. Either there are no resets, or the frame
    /// has begun and lasts for longer.
    #[inline(always)]
    fn is_far_from_reset(&self) -> bool
        ensures { IsTrue result → IsFarFromReset self.now }
    {
        if self.resets.is_empty() {
            return true;
        }
        let passed = self.passed();
        if passed < self.rate() {
            return false;
        }
        passed + 32 * self.rate() <= self.frame_stamps()
    }

    /// Cycles before the next one at whose end something may come. Timer 2, if it is on (`fast`), ticks every 16
    /// cycles. The others tick, and a sample comes, only at the ends of 32.
    #[inline(always)]
    fn cycles_to_end(&self, fast: bool) -> u8
        ensures { result + self.now.cycle % beat_of fast + 1 ≡ beat_of fast }
    {
        if fast {
            15 - (self.cycle % 16) as u8
        } else {
            31 - (self.cycle % 32) as u8
        }
    }

    /// How many cycles end by a stamp.
    #[inline(always)]
    fn cycles_until(&self, before: u64) -> u64
        ensures { 0 < result → stamp_now self.now + rate_of self.now.region Sound * result ≤ before }
    {
        let left = before.saturating_sub(self.stamp());
        match self.region {
            Region::Ntsc => left / SOUND_RATE,
            Region::Pal => left / PAL_SOUND_RATE,
        }
    }

    /// Returns a number of cycles, each ended by the stamp `before`, that a quick test shows to be free. None of them
    /// is a reset, and nothing comes at their ends.
    #[inline(always)]
    pub fn free_cycles(&self, before: u64, fast: bool) -> u8
        ensures free { AreFree fast before result self.now }
        ensures early { 0 < result → stamp_now self.now + rate_of self.now.region Sound * result ≤ before }
    {
        if !self.is_far_from_reset() {
            return 0;
        }
        let until = self.cycles_until(before);
        let most = self.cycles_to_end(fast);
        if until < most as u64 {
            until as u8
        } else {
            most
        }
    }

    /// The stamp of the cycle that is this many later.
    #[inline(always)]
    pub fn stamp_after(&self, cycles: u8) -> u64
        requires { stamp_now self.now + rate_of self.now.region Sound * cycles ≤ 2 ^ 62 }
        ensures { result ≡ stamp_now (later cycles self.now) }
    {
        self.stamp + self.rate * cycles as u64
    }

    /// Moves the clock on by this many cycles.
    #[inline(always)]
    pub fn go_on_by(&mut self, cycles: u8)
        requires { stamp_now self.old + rate_of self.old.region Sound * cycles ≤ 2 ^ 62 }
        ensures { self.new ≡ later cycles self.old }
    {
        self.cycle += cycles as u64;
        self.stamp += self.rate * cycles as u64;
    }
}
