// A turn: two legs, the reunion of their passes, and one step of the earlier side.
ghost use Rattle.std.specs.Prelude.{◌≡◌, ◌^◌, ◌<◌, ◌≤◌, ◌⊎◌};
ghost use Rattle.commute_laws.specs.History.{History};
ghost use Rattle.commute_laws.specs.OnRun.{IsOnRun};
ghost use Rattle.port_wire.specs.Reach.{IsInReach};
ghost use Rattle.pair_run.specs.Leg.{IsReady, HasMadeLeg};
ghost use Rattle.pair_run.specs.Turn.{HasPublished, IsAfterTurn, HasGone, HasTurned, tries_of_turn};

use crate::apart::Apart;
use crate::ends::LegEnd;
use crate::legs::leg;
use crate::stepped::{Stepped, step_earlier};
use port_wire::{Gate, Wire};
use side_law::Machine;
use snes_defs::Side;
use std::thread::{Threads, join_mut};

/// What a turn returns besides the two machines.
pub struct Turned<T> {
    /// The ports, whole again.
    pub whole: T,
    /// How the console's leg ended.
    pub console: LegEnd,
    /// How the sound side's leg ended.
    pub sound: LegEnd,
    /// Which side the caller's step moved.
    pub stepped: Stepped,
}

/// Runs two legs, each in a thread of its own.
fn both_legs<R: Threads, W: Wire, C: Machine, S: Machine, G: Gate>(
    rt: &R,
    wire: &W,
    console_pass: &mut W::Pass,
    sound_pass: &mut W::Pass,
    console: &mut C,
    sound: &mut S,
    gate: &G,
    number: u64,
    end: u64,
) -> (LegEnd, LegEnd)
    requires console_pass { W.is_pass_of wire.now console_pass.old }
    requires sound_pass { W.is_pass_of wire.now sound_pass.old }
    requires console { IsReady (W.region_of wire.now) (C.region_of console.old) C.MOST C.CAP (C.stamp_of console.old)
        (W.seen console_pass.old).half (C.waiting console.old) }
    requires sound { IsReady (W.region_of wire.now) (S.region_of sound.old) S.MOST S.CAP (S.stamp_of sound.old)
        (W.seen sound_pass.old).half (S.waiting sound.old) }
    requires end { end ≤ 2 ^ 51 }
    ensures console_pass { W.is_pass_of wire.now console_pass.new }
    ensures sound_pass { W.is_pass_of wire.now sound_pass.new }
    ensures console { HasMadeLeg (W.region_of wire.now) (C.region_of console.new) C.moves C.MOST C.CAP end tries_of_turn
        (C.stands console.old) (C.stands console.new) (C.stamp_of console.new)
        (W.seen console_pass.old) (W.seen console_pass.new) (C.waiting console.old) (C.waiting console.new) result.0 }
    ensures sound { HasMadeLeg (W.region_of wire.now) (S.region_of sound.new) S.moves S.MOST S.CAP end tries_of_turn
        (S.stands sound.old) (S.stands sound.new) (S.stamp_of sound.new)
        (W.seen sound_pass.old) (W.seen sound_pass.new) (S.waiting sound.old) (S.waiting sound.new) result.1 }
{
    // The console has most of the work. It stays in the caller's thread, which is running, next to what it left in that
    // processor's caches, while the other thread begins.
    let (sound_end, console_end) = join_mut(
        rt,
        &mut || -> LegEnd
            requires { (W.is_pass_of wire.now sound_pass.now) × (end ≤ 2 ^ 51)
                × IsReady (W.region_of wire.now) (S.region_of sound.now) S.MOST S.CAP (S.stamp_of sound.now)
                (W.seen sound_pass.now).half (S.waiting sound.now) }
        { leg(wire, sound_pass, sound, gate, number, end, 4096) },
        &mut || -> LegEnd
            requires { (W.is_pass_of wire.now console_pass.now) × (end ≤ 2 ^ 51)
                × IsReady (W.region_of wire.now) (C.region_of console.now) C.MOST C.CAP (C.stamp_of console.now)
                (W.seen console_pass.now).half (C.waiting console.now) }
        { leg(wire, console_pass, console, gate, number, end, 4096) },
    );
    (console_end, sound_end)
}

/// Publishes the clocks of both sides and gives each the other's. The console advances a second time for what the sound
/// side has published.
fn publish_both<W: Wire>(wire: &W, whole: &mut W::Whole, console_at: u64, sound_at: u64)
    requires of { W.is_whole_of wire.now whole.old }
    requires console_clock { (W.both whole.old).console.at ≤ console_at }
    requires sound_clock { (W.both whole.old).sound.at ≤ sound_at }
    requires console_reach { IsInReach (W.region_of wire.now) console_at (W.both whole.old).console }
    requires sound_reach { IsInReach (W.region_of wire.now) sound_at (W.both whole.old).sound }
    ensures still_of { W.is_whole_of wire.now whole.new }
    ensures console { HasPublished (W.region_of wire.now) console_at sound_at
        (W.both whole.old).console (W.both whole.new).console }
    ensures sound { HasPublished (W.region_of wire.now) sound_at console_at
        (W.both whole.old).sound (W.both whole.new).sound }
{
    wire.advance_whole(whole, Side::Console, console_at);
    wire.advance_whole(whole, Side::Sound, sound_at);
    let _sound_clock = wire.advance_whole(whole, Side::Console, console_at);
}

/// Lets both machines run by themselves, each over its pass, until each has reached `end` or can't advance. Then their
/// passes are reunited, both clocks published, and the earlier side makes a step.
pub fn turn<R: Threads, W: Wire, C: Machine, S: Machine, G: Gate>(
    rt: &R,
    wire: &W,
    whole: W::Whole,
    console: &mut C,
    sound: &mut S,
    gate: &G,
    number: u64,
    end: u64,
) -> Turned<W::Whole>
    requires of { W.is_whole_of wire.now whole }
    requires console { IsReady (W.region_of wire.now) (C.region_of console.old) C.MOST C.CAP (C.stamp_of console.old)
        (W.both whole).console (C.waiting console.old) }
    requires sound { IsReady (W.region_of wire.now) (S.region_of sound.old) S.MOST S.CAP (S.stamp_of sound.old)
        (W.both whole).sound (S.waiting sound.old) }
    requires end { end ≤ 2 ^ 51 }
    requires before_end { (C.stamp_of console.old < end) ⊎ (S.stamp_of sound.old < end) }
    ensures still_of { W.is_whole_of wire.now result.whole }
    ensures console { IsAfterTurn (W.region_of wire.now) (C.region_of console.new) C.MOST C.CAP end
        (C.stamp_of console.new) result.console (W.both result.whole).console (C.waiting console.new) }
    ensures sound { IsAfterTurn (W.region_of wire.now) (S.region_of sound.new) S.MOST S.CAP end
        (S.stamp_of sound.new) result.sound (W.both result.whole).sound (S.waiting sound.new) }
    ensures turned { (console_start : C.State) (sound_start : S.State)
        → C.valid (W.region_of wire.now) console_start → S.valid (W.region_of wire.now) sound_start
        → (c : History C.State) (s : History S.State) → IsOnRun C.moves S.moves console_start sound_start c s
        → C.stands console.old c.now → S.stands sound.old s.now
        → c.entries ≡ (W.both whole).console.mine → s.entries ≡ (W.both whole).sound.mine
        → HasTurned C.moves S.moves console_start sound_start end (C.stands console.new) (S.stands sound.new)
        (W.both whole) (W.both result.whole) (C.waiting console.old) (C.waiting console.new)
        (S.waiting sound.old) (S.waiting sound.new) result.console result.sound result.stepped c s }
    ensures gone { (c : History C.State) (s : History S.State) → C.stands console.old c.now → S.stands sound.old s.now
        → c.entries ≡ (W.both whole).console.mine → s.entries ≡ (W.both whole).sound.mine
        → HasGone C.moves S.moves end C.MOST C.CAP S.MOST S.CAP (C.stands console.new) (S.stands sound.new)
        (W.both whole) (W.both result.whole) (C.waiting console.old) (C.waiting console.new)
        (S.waiting sound.old) (S.waiting sound.new) result.console result.sound result.stepped c s }
{
    let (console_pass, sound_pass) = wire.part(whole);
    let mut console_way = Apart {
        before: [0; 8],
        value: console_pass,
        after: [0; 8],
    };
    let mut sound_way = Apart {
        before: [0; 8],
        value: sound_pass,
        after: [0; 8],
    };
    let (console_end, sound_end) = both_legs(
        rt,
        wire,
        &mut console_way.value,
        &mut sound_way.value,
        console,
        sound,
        gate,
        number,
        end,
    );
    let mut whole = wire.reunite(console_way.value, sound_way.value);
    publish_both(wire, &mut whole, console.stamp(), sound.stamp());
    let stepped = step_earlier(wire, &mut whole, console, sound, end);
    Turned {
        whole,
        console: console_end,
        sound: sound_end,
        stepped,
    }
}
