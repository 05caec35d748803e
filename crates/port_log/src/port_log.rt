// The log of the four ports with its calls: read, clear, write and advance.
ghost use Rattle.std.specs.Prelude.{◌≡◌, ◌+◌, ◌<◌, ◌≤◌, ◌++◌, ◌∷◌, ℕ, [], IfOk, IfErr, OnOk, OnErr, IsOk, IsErr, ◌↔◌};
ghost use Rattle.port_entries.specs.Entry.{WriteAt, ClearAt};
ghost use Rattle.port_entries.specs.Window.{IsSettled, IsWithinWindow};
ghost use Rattle.clock_ratio.specs.Stamp.{window_of, least_of};
ghost use Rattle.port_log.specs.Kept.{LogValue, clock_of, other_clock, other_side, unseen_by, answer, published, with_clear, with_write};
ghost use Rattle.port_log.specs.Held.{IsKept};
ghost use Rattle.port_log.specs.Entries.{Entries, no_entries, with_entry, value_by, StandsFor};
ghost use Rattle.port_log.specs.Refused.{IsBehind, IsAhead};

use crate::incoming::Incoming;
use crate::late::Late;
use crate::seen::{across, is_ahead, is_behind};
use crate::written::Written;
use clock_ratio::window;
use snes_defs::{NoMemory, Region, Side};
use std::alloc::Global;
use std::marker::Model;

/// The log of the four ports: each side's writes with their stamps, what it has cleared, and the clock that it has
/// published.
///
/// A log stands for the two whole lists of entries, one for each side. Each call returns by these lists and the two
/// clocks, and the log then stands for the lists with the call's entry appended. It keeps only what can still be read.
#[derive(Drop)]
pub struct PortLog {
    region: Region,
    console: Incoming,
    sound: Incoming,
}

impl Model for PortLog {
    ghost use Rattle.port_log.specs.Kept.{LogValue};
    ghost use Rattle.port_log.specs.Held.{IsKept};

    ghost Value = { LogValue };

    ghost view = { λ p. record { region = p.region; console = p.console; sound = p.sound } };

    ghost invariant = { λ p. IsKept (record {
      region = p.region;
      console = p.console;
      sound = p.sound;
    }) };
}

impl PortLog {
    /// Returns a log with no write, zero bytes and both clocks at 0, for two machines of the region. It allocates all
    /// the memory that it ever needs, and fails only if allocation fails.
    pub fn new(alloc: Global, region: Region) -> Result<PortLog, NoMemory>
        ensures stands { IfOk result (λ log. StandsFor log no_entries) }
        ensures region { IfOk result (λ log. log.region ≡ region) }
        ensures console_clock { IfOk result (λ log. clock_of Side.Console log ≡ 0) }
        ensures sound_clock { IfOk result (λ log. clock_of Side.Sound log ≡ 0) }
    {
        let console = Incoming::new(alloc)?;
        let sound = Incoming::new(alloc)?;
        Ok(PortLog {
            region,
            console,
            sound,
        })
    }

    /// Returns the clock that a side has published.
    #[inline(always)]
    pub fn clock(&self, side: Side) -> u64
        ensures { result ≡ clock_of side self.now }
    {
        match side {
            Side::Console => self.console.clock(),
            Side::Sound => self.sound.clock(),
        }
    }

    /// Returns the byte that the side finds at the port at `at`, if nothing is held back.
    #[inline(always)]
    fn found(&self, side: Side, at: u64, port: u8) -> u8
        requires { port < 4 }
        ensures { result ≡ answer self.now side port at }
    {
        match side {
            Side::Console => self.console.found(Side::Console, at, port),
            Side::Sound => self.sound.found(Side::Sound, at, port),
        }
    }

    /// Publishes a clock of the side.
    #[inline(always)]
    fn publish(&mut self, side: Side, clock: u64)
        requires { clock_of side self.old ≤ clock }
        ensures kept { self.new ≡ published side clock self.old }
        ensures was_kept { IsKept self.old }
    {
        match side {
            Side::Console => self.console.publish(Side::Console, clock),
            Side::Sound => self.sound.publish(Side::Sound, clock),
        }
    }

    /// Keeps a clear of the side.
    #[inline(always)]
    fn keep_clear(&mut self, side: Side, at: u64, mask: u8)
        requires { IsSettled side at (other_clock side self.old) }
        ensures kept { self.new ≡ with_clear side at mask self.old }
        ensures was_kept { IsKept self.old }
    {
        match side {
            Side::Console => self.console.clear(at, mask),
            Side::Sound => self.sound.clear(at, mask),
        }
    }

    /// Keeps a write of the side, and publishes a clock of it.
    #[inline(always)]
    fn keep_write(&mut self, side: Side, write: Written, clock: u64)
        requires port { write.port < 4 }
        requires own_clock { clock_of side self.old ≤ write.at }
        requires rises { write.at + least_of self.old.region ≤ clock }
        requires within { IsWithinWindow (window_of self.old.region) write.at (other_clock side self.old) }
        ensures kept { self.new ≡ with_write side write (published side clock self.old) }
        ensures was_kept { IsKept self.old }
        ensures few { unseen_by (other_side side) self.new ≤ 3638 }
    {
        match side {
            Side::Console => {
                self.console.publish(Side::Console, clock);
                self.sound.receive(Side::Sound, write);
            }
            Side::Sound => {
                self.sound.publish(Side::Sound, clock);
                self.console.receive(Side::Console, write);
            }
        }
    }

    /// Returns the byte that `side` finds at its incoming port `port`, 0 to 3, at the stamp `at`. That is the last byte
    /// that the other side wrote there as far as `side` sees it then. It is 0 if the other side wrote none or a clear
    /// of `side` has zeroed it. The console sees what was written before `at`, the sound side also what was written at
    /// `at`.
    ///
    /// It is refused as `Behind` if the other side may still write what is seen at `at`. A read publishes nothing.
    #[inline(always)]
    pub fn read(&mut self, side: Side, at: u64, port: u8) -> Result<u8, Late>
        requires port { port < 4 }
        requires own_clock { clock_of side self.old ≤ at }
        ensures behind { IsErr result ↔ IsBehind side at (other_clock side self.old) }
        ensures cause { IfErr result (λ e. e ≡ Late.Behind at (other_clock side self.old)) }
        ensures settled { OnOk result (IsSettled side at (other_clock side self.old)) }
        ensures value { (entries : Entries) → StandsFor self.old entries
            → IfOk result (λ byte. byte ≡ value_by entries side port at) }
        ensures unchanged { self.new ≡ self.old }
    {
        let other = self.clock(across(side));
        if is_behind(side, at, other) {
            Err(Late::Behind { need: at, other })
        } else {
            Ok(self.found(side, at, port))
        }
    }

    /// Zeroes the incoming ports of `side` that the mask covers, 1 to 15, bit `p` for port `p`. At these ports what
    /// `side` sees at `at` counts no more, and what it doesn't see yet stays.
    ///
    /// It is refused as `Behind` if a read at `at` is, and does not allocate. A clear publishes nothing.
    #[inline(always)]
    pub fn clear(&mut self, side: Side, at: u64, mask: u8) -> Result<(), Late>
        requires mask { (1 ≤ mask) × (mask ≤ 15) }
        requires own_clock { clock_of side self.old ≤ at }
        ensures behind { IsErr result ↔ IsBehind side at (other_clock side self.old) }
        ensures cause { IfErr result (λ e. e ≡ Late.Behind at (other_clock side self.old)) }
        ensures settled { OnOk result (IsSettled side at (other_clock side self.old)) }
        ensures stands { (entries : Entries) → StandsFor self.old entries
            → OnOk result (StandsFor self.new (with_entry side (ClearAt at mask) entries)) }
        ensures refused { OnErr result (self.new ≡ self.old) }
        ensures clock_stays { clock_of side self.new ≡ clock_of side self.old }
        ensures other_stays { other_clock side self.new ≡ other_clock side self.old }
        ensures region_stays { self.new.region ≡ self.old.region }
    {
        let other = self.clock(across(side));
        if is_behind(side, at, other) {
            return Err(Late::Behind { need: at, other });
        }
        self.keep_clear(side, at, mask);
        Ok(())
    }

    /// Logs that `side` wrote the byte `v` to its outgoing port `port`, 0 to 3, at the stamp `at`. Publishes `next`,
    /// the stamp of its next step.
    ///
    /// It is refused as `Ahead` exactly when `at` lies more than the region's window past the other side's clock.
    #[inline(always)]
    pub fn write(&mut self, side: Side, at: u64, port: u8, v: u8, next: u64) -> Result<(), Late>
        requires port { port < 4 }
        requires own_clock { clock_of side self.old ≤ at }
        requires rises { at + least_of self.old.region ≤ next }
        ensures ahead { IsErr result ↔ IsAhead (window_of self.old.region) at (other_clock side self.old) }
        ensures cause { IfErr result (λ e. e ≡ Late.Ahead at (other_clock side self.old)) }
        ensures within { OnOk result
            (IsWithinWindow (window_of self.old.region) at (other_clock side self.old)) }
        ensures stands { (entries : Entries) → StandsFor self.old entries
            → OnOk result (StandsFor self.new (with_entry side (WriteAt at port v) entries)) }
        ensures refused { OnErr result (self.new ≡ self.old) }
        ensures publishes { OnOk result (clock_of side self.new ≡ next) }
        ensures other_stays { other_clock side self.new ≡ other_clock side self.old }
        ensures region_stays { self.new.region ≡ self.old.region }
        ensures few { OnOk result (unseen_by (other_side side) self.new ≤ 3638) }
    {
        let other = self.clock(across(side));
        if is_ahead(window(self.region), at, other) {
            return Err(Late::Ahead { at, other });
        }
        let write = Written { at, port, byte: v };
        self.keep_write(side, write, next);
        Ok(())
    }

    /// Publishes that each later step of `side` is at `at` or later, and returns the clock that the other side has
    /// published. It is never refused.
    #[inline(always)]
    pub fn advance(&mut self, side: Side, at: u64) -> u64
        requires { clock_of side self.old ≤ at }
        ensures other { result ≡ other_clock side self.old }
        ensures stands { (entries : Entries) → StandsFor self.old entries
            → StandsFor self.new entries }
        ensures publishes { clock_of side self.new ≡ at }
        ensures other_stays { other_clock side self.new ≡ other_clock side self.old }
        ensures region_stays { self.new.region ≡ self.old.region }
    {
        self.publish(side, at);
        self.clock(across(side))
    }
}
