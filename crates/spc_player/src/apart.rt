// The samples of a stem, one after another.
ghost use Rattle.std.specs.Prelude.{◌≡◌, ◌+◌, ◌-◌, ◌*◌, ◌/◌, ◌%◌, ◌^◌, ◌<◌, ◌≤◌, ◌==◌, ◌++◌, ℕ, [], IsTrue, if◌then◌else◌, length};
ghost use Rattle.side_law.specs.Moves.{IsAtPorts};
ghost use Rattle.side_law.specs.Serial.{cleared_from, got_of, incoming_after};
ghost use Rattle.audio_side.specs.Effect.{is_sampling};
ghost use Rattle.audio_side.specs.Stem.{stem_emitted};
ghost use Rattle.spc_player.specs.Apart.{stem_sample};
ghost use Rattle.spc_player.specs.Play.{Playing, after_steps, step_emits, stepped, to_sample};
ghost use Rattle.spc_player.specs.Player.{IsPlaying, stamp_of, waiting_of};

use crate::player::{Player, run_before};
use clock_ratio::SOUND_RATE;
use side_law::Machine;
use snes_defs::Act;

/// The byte that a step gets at the incoming ports.
fn got(act: Act, ports: &[u8; 4]) -> u8
    requires { IsAtPorts act }
    ensures { result ≡ got_of act ports.now }
{
    match act {
        Act::Read(port) => ports[port as usize],
        Act::Quiet => 0,
        Act::Write(_, _) => 0,
        Act::Clear(_) => 0,
    }
}

/// Returns the byte of a port under a clear; `bit` is the port's bit of the mask.
fn kept(mask: u8, bit: u8, byte: u8) -> u8
    requires { 0 < bit }
    ensures { result ≡ (if mask / bit % 2 == 1 then 0 else byte) }
{
    if mask / bit % 2 == 1 { 0 } else { byte }
}

/// The four bytes with those of the mask zeroed.
fn cleared(mask: u8, bytes: [u8; 4]) -> [u8; 4]
    ensures { result ≡ cleared_from 0 mask bytes }
{
    let [first, second, third, fourth] = bytes;
    [
        kept(mask, 1, first),
        kept(mask, 2, second),
        kept(mask, 4, third),
        kept(mask, 8, fourth),
    ]
}

/// The bytes at the incoming ports after a step.
fn left_by(act: Act, ports: [u8; 4]) -> [u8; 4]
    ensures { result ≡ incoming_after act ports }
{
    match act {
        Act::Clear(mask) => cleared(mask, ports),
        Act::Quiet => ports,
        Act::Read(_) => ports,
        Act::Write(_, _) => ports,
    }
}

/// The stamp of the step that makes the next sample: the last of its 32 cycles.
fn last_step(stamp: u64) -> u64
    requires { stamp ≤ 2 ^ 61 }
    ensures near { result ≤ stamp + 3661875 }
    ensures whole { (cycle : ℕ) → stamp ≡ 118125 * cycle → result ≡ 118125 * (32 * (cycle / 32) + 31) }
{
    stamp / (32 * SOUND_RATE) * (32 * SOUND_RATE) + 31 * SOUND_RATE
}

impl Player {
    /// Takes one step. If it makes a sample, returns the four bytes that it would emit for a stem.
    #[tactic(auto, using(serial_console::proofs::Taken::taken_got))]
    fn turn_apart(&mut self, stem: u16) -> [u8; 4]
        requires room { length (waiting_of self.old) + 4 ≤ 4096 }
        requires early { stamp_of self.old ≤ 2 ^ 62 }
        ensures next { (w : Playing) → IsPlaying self.old w → IsPlaying self.new (stepped w) }
        ensures emits { (w : Playing) → IsPlaying self.old w → waiting_of self.new ≡ waiting_of self.old ++ step_emits w }
        ensures stem { (w : Playing) → IsPlaying self.old w → IsTrue (is_sampling w.sound.clock.cycle) → result ≡ stem_emitted stem w.sound }
        ensures rises { stamp_of self.new ≡ stamp_of self.old + 118125 }
        ensures emits_at_most { length (waiting_of self.new) ≤ length (waiting_of self.old) + 4 }
    {
        let act = self.side.act();
        let bytes = self.side.step_apart(got(act, &self.ports), stem);
        self.ports = left_by(act, self.ports);
        bytes
    }

    /// Takes all steps before the one that makes the next sample. They emit nothing.
    fn to_last_step(&mut self)
        requires empty { waiting_of self.old ≡ [] }
        requires early { stamp_of self.old ≤ 2 ^ 61 }
        ensures next { (w : Playing) → IsPlaying self.old w → IsPlaying self.new (after_steps w (to_sample w - 1)) }
        ensures none { waiting_of self.new ≡ [] }
        ensures late { stamp_of self.new ≤ stamp_of self.old + 3661875 }
    {
        let last = last_step(self.side.stamp());
        self.ports = run_before(&mut self.side, self.ports, last);
    }

    /// Drops the pending bytes of one sample.
    fn drop_sample(&mut self)
        requires few { length (waiting_of self.old) ≤ 4 }
        ensures none_left { waiting_of self.new ≡ [] }
        ensures same_place { (w : Playing) → IsPlaying self.old w → IsPlaying self.new w }
        ensures same_stamp { stamp_of self.new ≡ stamp_of self.old }
    {
        let mut unheard = [0; 4];
        self.drain(&mut unheard);
    }

    /// Takes all steps up to the next sample, and that one. Returns the four bytes that a stem emits there.
    ///
    /// A stem is a set of parts: bits 0 to 7 are voices 0 to 7, bit 8 is the echo. The sound side itself goes on with
    /// all of them, and its own bytes are dropped.
    pub fn next_stem(&mut self, stem: u16) -> [u8; 4]
        requires empty { waiting_of self.old ≡ [] }
        requires early { stamp_of self.old ≤ 2 ^ 61 }
        ensures next { (w : Playing) → IsPlaying self.old w → IsPlaying self.new (after_steps w (to_sample w)) }
        ensures bytes { (w : Playing) → IsPlaying self.old w → result ≡ stem_sample stem w }
        ensures none_left { waiting_of self.new ≡ [] }
        ensures late { stamp_of self.new ≤ stamp_of self.old + 3780000 }
    {
        self.to_last_step();
        let bytes = self.turn_apart(stem);
        self.drop_sample();
        bytes
    }
}
