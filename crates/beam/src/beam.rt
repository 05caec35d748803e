//! The beam, and the table of what happens at its places.
ghost use Rattle.std.specs.Prelude.{◌≡◌, ◌-◌, ◌+◌, ◌==◌, ◌<◌, ◌≤◌, Bool, [], false, if◌then◌else◌};
ghost use Rattle.beam.specs.Events.{BeamValue, lines_of, fires, next_v, next_h, happens_at, events_of, happens_next, beam_next, blank_after, beam_after, passed};
ghost use Rattle.beam.specs.Places.{table_place, timer_place, next_place, clocks_left, one_row, stop_of};

use crate::events::Happens;
use snes_defs::{BLANK_CLOCK, IrqTime, LINE_CLOCKS, Region, Spot};
use std::marker::Model;

mod copy;

/// The beam. It is `left` master clocks before the next place of its line at which something may happen.
#[derive(Drop)]
pub struct Beam {
    region: Region,
    v: u16,
    /// The line clock of the next place, 1,364 for the start of the next line.
    place: u16,
    left: u16,
    blank: bool,
    timer: IrqTime,
}

impl Model for Beam {
    ghost use Rattle.std.specs.Prelude.{◌≡◌, ◌-◌, ◌<◌, ◌≤◌};
    ghost use Rattle.beam.specs.Events.{BeamValue, lines_of};
    ghost use Rattle.beam.specs.Places.{next_place};

    ghost Value = { BeamValue };

    ghost view = { λ b. record { region = b.region; v = b.v; h = b.place - b.left; blank = b.blank; timer = b.timer } };

    ghost invariant = { λ b. (b.v < lines_of b.region) × (0 < b.left) × (b.left ≤ b.place) × (b.place ≤ 1364) × (b.place ≡ next_place b.timer b.blank b.v (b.place - b.left)) };
}

impl Beam {
    /// Returns the beam at line 0, line clock 0, after the events of that place. The timer is off.
    pub fn new(region: Region) -> Beam
        ensures { result ≡ record { region = region; v = 0; h = 0; blank = false; timer = record { kind = 0; h = 511; v = 511 } } }
    {
        let timer = IrqTime {
            kind: 0,
            h: 511,
            v: 511,
        };
        let place = next_place(timer, false, 0, 0);
        Beam {
            region,
            v: 0,
            place,
            left: place,
            blank: false,
            timer,
        }
    }

    /// Returns the place of the beam.
    #[inline(always)]
    pub fn spot(&self) -> Spot
        ensures { result ≡ record { h = self.now.h; v = self.now.v; blank = self.now.blank } }
    {
        Spot {
            h: self.place - self.left,
            v: self.v,
            blank: self.blank,
        }
    }

    /// Returns the region whose lines it counts.
    #[inline(always)]
    pub fn region(&self) -> Region
        ensures { result ≡ self.now.region }
    {
        self.region
    }

    /// Returns the master clocks, at least 1, to the next place of the line at which something may happen.
    #[inline(always)]
    pub fn clocks_left(&self) -> u16
        ensures clocks { result ≡ clocks_left self.now }
        ensures some { 0 < result }
        ensures on_line { self.now.h + result ≤ 1364 }
    {
        self.left
    }

    /// Gives the timer another setting, which is in force from the next master clock on.
    pub fn aim(&mut self, timer: IrqTime)
        ensures { self.new ≡ record self.old { timer = timer } }
    {
        let h = self.place - self.left;
        let place = next_place(timer, self.blank, self.v, h);
        self.place = place;
        self.left = place - h;
        self.timer = timer;
    }

    /// Advances the beam by fewer clocks than are left, in which nothing happens.
    #[inline(always)]
    pub fn go_on(&mut self, clocks: u16)
        requires { clocks < clocks_left self.old }
        ensures moved { (overscan : Bool) → self.new ≡ beam_after overscan self.old clocks }
        ensures none { (overscan : Bool) → passed overscan self.old clocks ≡ [] }
        ensures closer { clocks_left self.new ≡ clocks_left self.old - clocks }
        ensures clock { self.new.h ≡ self.old.h + clocks }
        ensures same_timer { self.new.timer ≡ self.old.timer }
        ensures same_region { self.new.region ≡ self.old.region }
    {
        self.left -= clocks;
    }

    /// Advances the beam to the next place at which something may happen, and returns what happens there.
    /// `overscan` is bit 2 of 2133.
    pub fn reach(&mut self, overscan: bool) -> Happens
        ensures moved { self.new ≡ beam_after overscan self.old (clocks_left self.old) }
        ensures happened { passed overscan self.old (clocks_left self.old) ≡ events_of result }
        ensures none_before { passed overscan self.old (clocks_left self.old - 1) ≡ [] }
        ensures last { result ≡ happens_next overscan (beam_after overscan self.old (clocks_left self.old - 1)) }
        ensures last_moved { self.new ≡ beam_next overscan (beam_after overscan self.old (clocks_left self.old - 1)) }
        ensures clock { self.new.h ≡ (if self.old.h + clocks_left self.old == 1364 then 0 else self.old.h + clocks_left self.old) }
        ensures same_timer { self.new.timer ≡ self.old.timer }
        ensures same_region { self.new.region ≡ self.old.region }
    {
        let stop = stop_at(
            self.region,
            self.timer,
            overscan,
            self.blank,
            self.v,
            self.place,
        );
        self.blank = stop.blank;
        self.v = stop.v;
        self.place = stop.next;
        self.left = stop.next - stop.h;
        stop.happens
    }
}

/// Where the beam stops, and what happens there.
#[derive(Drop)]
struct Stop {
    happens: Happens,
    v: u16,
    h: u16,
    /// Whether vertical blank has begun, after what happens.
    blank: bool,
    /// The line clock of the next place of the line.
    next: u16,
}

/// Returns the line and the line clock of a place, 1 to 1,364, on line `v`.
#[tactic(auto, unfolding(crate::specs::Events::next_v, crate::specs::Events::next_h))]
fn place_of(region: Region, v: u16, place: u16) -> (u16, u16)
    requires line { v < lines_of region }
    requires low { 0 < place }
    requires high { place ≤ 1364 }
    ensures line { result.0 ≡ next_v region v (place - 1) }
    ensures clock { result.1 ≡ next_h (place - 1) }
    ensures line_within { result.0 < lines_of region }
    ensures clock_within { result.1 < 1364 }
{
    if place < LINE_CLOCKS {
        return (v, place);
    }
    let lines = match region {
        Region::Ntsc => 262,
        Region::Pal => 312,
    };
    if v + 1 == lines { (0, 0) } else { (v + 1, 0) }
}

/// Returns whether vertical blank has begun, after what happens at a place.
#[tactic(auto, unfolding(crate::specs::Events::blank_after))]
#[inline(always)]
fn blank_after(blank: bool, happens: Happens, v: u16, h: u16) -> bool
    ensures { result ≡ blank_after blank happens v h }
{
    !(h == 0 && v == 0) && (blank || happens.blank)
}

/// Returns whether the timer fires at a line and a line clock.
#[tactic(auto, unfolding(crate::specs::Events::fires))]
#[inline(always)]
fn fires(timer: IrqTime, v: u16, h: u16) -> bool
    ensures { result ≡ fires timer v h }
{
    (timer.kind == 1 && h as u32 == 4 * timer.h as u32)
        || ((timer.kind == 2 && v == timer.v) && h == 0)
        || ((timer.kind == 3 && v == timer.v) && h as u32 == 4 * timer.h as u32)
}

/// Returns the row of the table at a line and a line clock.
#[tactic(auto, unfolding(crate::specs::Events::happens_at, crate::specs::Events::is_blank_line))]
#[inline(always)]
fn happens(timer: IrqTime, overscan: bool, blank: bool, v: u16, h: u16) -> Happens
    ensures { result ≡ happens_at timer overscan blank v h }
{
    Happens {
        line: h == 0,
        blank: h == 0 && ((v == 225 && !overscan) || (v == 240 && !blank)),
        hdma_frame: h == 24 && v == 0,
        refresh: h == 536,
        draw: h == BLANK_CLOCK && 1 <= v && v <= 239,
        hdma_line: h == 1104 && !blank,
        timer: fires(timer, v, h),
    }
}

/// Returns the next line clock after this one at which the table has a row on line `v`.
#[tactic(auto, unfolding(crate::specs::Places::table_place))]
#[inline(always)]
fn table_place(blank: bool, v: u16, h: u16) -> u16
    requires { h < 1364 }
    ensures place { result ≡ table_place blank v h }
    ensures later { h < result }
    ensures within { result ≤ 1364 }
{
    if h < 24 && v == 0 {
        24
    } else if h < 536 {
        536
    } else if h < BLANK_CLOCK && 1 <= v && v <= 239 {
        BLANK_CLOCK
    } else if h < 1104 && !blank {
        1104
    } else {
        LINE_CLOCKS
    }
}

/// Returns the line clock inside line `v` at which the timer fires, or 1,364.
#[tactic(auto, unfolding(crate::specs::Places::timer_place))]
#[inline(always)]
fn timer_place(timer: IrqTime, v: u16) -> u16
    ensures place { result ≡ timer_place timer v }
    ensures within { result ≤ 1364 }
{
    if (timer.kind == 1 || (timer.kind == 3 && v == timer.v)) && timer.h <= 340 {
        4 * timer.h
    } else {
        LINE_CLOCKS
    }
}

/// Returns the next line clock after this one at which anything may happen.
#[tactic(auto, unfolding(crate::specs::Places::next_place, crate::specs::Places::timer_place))]
fn next_place(timer: IrqTime, blank: bool, v: u16, h: u16) -> u16
    requires { h < 1364 }
    ensures place { result ≡ next_place timer blank v h }
    ensures later { h < result }
    ensures within { result ≤ 1364 }
{
    let table = table_place(blank, v, h);
    let fires = timer_place(timer, v);
    if h < fires && fires < table {
        fires
    } else {
        table
    }
}

/// Returns where the beam stops at a place, 1 to 1,364, of line `v`, by the whole table.
#[tactic(auto, unfolding(crate::specs::Places::stop_of))]
#[inline(never)]
fn any_stop(region: Region, timer: IrqTime, overscan: bool, blank: bool, v: u16, place: u16) -> Stop
    requires line { v < lines_of region }
    requires low { 0 < place }
    requires high { place ≤ 1364 }
    ensures stop { result ≡ stop_of region timer overscan blank v (place - 1) }
    ensures next { result.next ≡ next_place timer result.blank result.v result.h }
    ensures line { result.v < lines_of region }
    ensures later { result.h < result.next }
    ensures within { result.next ≤ 1364 }
{
    let (v, h) = place_of(region, v, place);
    let happens = happens(timer, overscan, blank, v, h);
    let blank = blank_after(blank, happens, v, h);
    let next = next_place(timer, blank, v, h);
    Stop {
        happens,
        v,
        h,
        blank,
        next,
    }
}

/// Returns a stop with one row of the table: a line, a refresh, a row of the picture, or HDMA.
#[inline(always)]
fn one_row(v: u16, h: u16, blank: bool, next: u16) -> Stop
    ensures { result ≡ one_row v h blank next }
{
    let happens = Happens {
        line: h == 0,
        blank: false,
        hdma_frame: false,
        refresh: h == 536,
        draw: h == BLANK_CLOCK,
        hdma_line: h == 1104,
        timer: false,
    };
    Stop {
        happens,
        v,
        h,
        blank,
        next,
    }
}

/// The same as `any_stop`. If the timer is off, most places have one row of the table. These are looked for first.
#[tactic(auto, unfolding(crate::specs::Places::stop_of, crate::specs::Events::next_v, crate::specs::Events::next_h, crate::specs::Events::happens_at, crate::specs::Events::is_blank_line, crate::specs::Events::fires, crate::specs::Events::blank_after, crate::specs::Places::next_place, crate::specs::Places::timer_place, crate::specs::Places::table_place))]
#[inline(always)]
fn stop_at(region: Region, timer: IrqTime, overscan: bool, blank: bool, v: u16, place: u16) -> Stop
    requires line { v < lines_of region }
    requires low { 0 < place }
    requires high { place ≤ 1364 }
    ensures stop { result ≡ stop_of region timer overscan blank v (place - 1) }
    ensures next { result.next ≡ next_place timer result.blank result.v result.h }
    ensures line { result.v < lines_of region }
    ensures later { result.h < result.next }
    ensures within { result.next ≤ 1364 }
{
    if timer.kind == 0 {
        if place == 536 {
            return one_row(v, 536, blank, table_place(blank, v, 536));
        }
        if place == BLANK_CLOCK && 1 <= v && v <= 239 {
            return one_row(v, BLANK_CLOCK, blank, table_place(blank, v, BLANK_CLOCK));
        }
        if place == 1104 && !blank {
            return one_row(v, 1104, blank, LINE_CLOCKS);
        }
        if place == LINE_CLOCKS && v < 224 {
            return one_row(v + 1, 0, blank, 536);
        }
    }
    any_stop(region, timer, overscan, blank, v, place)
}
