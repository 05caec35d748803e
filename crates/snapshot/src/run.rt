// The machines of a path: how they are stepped and copied. Nothing else steps or copies them, so the count of a run
// shows how far its machines were stepped.
ghost use Rattle.std.specs.Prelude.{◌≡◌, ◌+◌, ◌*◌, ◌^◌, ◌<◌, ◌≤◌, ◌++◌, ℕ, List, [], ◌∷◌, length, max, min, IfOk, IfErr, OnOk, OnErr};
ghost use Rattle.snes_defs.specs.declared.ports.Side.{Side};
ghost use Rattle.snes_defs.specs.Script.{RiseWithin, frames_of, is_reset};
ghost use Rattle.clock_ratio.specs.Stamp.{frame_of, end_stamp_of};
ghost use Rattle.side_law.specs.Serial.{serial_of};
ghost use Rattle.serial_console.specs.Lead.{IsLed};
ghost use Rattle.console_steps.specs.ConsoleState.{ConsoleState, console_moves};
ghost use Rattle.console_machine.specs.Side as console_side;
ghost use Rattle.console_machine.specs.Playing.{console_played, console_pressed, value_played, value_pressed};
ghost use Rattle.audio_side.specs.Sound as sound_side;
ghost use Rattle.audio_side.specs.Sound.{SoundState, sound_moves};
ghost use Rattle.audio_side.specs.Clock.{stamp_now};
ghost use Rattle.audio_side.specs.Playing.{audio_pressed, sound_pressed};
ghost use Rattle.plan_drive.specs.Paths.{empty_path, path_script};
ghost use Rattle.run_drive.specs.Run.{TookFirst};
ghost use Rattle.run_drive.specs.Driven.{Since, TookOn, Ends};
ghost use Rattle.snapshot.specs.Positions.{CanCopy, IsDone, copy_of};
ghost use Rattle.snapshot.specs.Stepped.{counted, rise_from, rise_of};

use audio_side::AudioSide;
use clock_ratio::{FRAME_STAMPS, PAL_FRAME_STAMPS, end_stamp_in};
use console_machine::ConsoleSide;
use run_drive::{Sink, drive};
use serial_console::Serial;
use side_law::Machine;
use snes_defs::{Job, MOST_FRAMES, NoMemory, Region, Side, Span};
use std::alloc::Global;

/// The two machines of a path's job, the stamp at which the path ends, and a count of how far they were stepped.
#[derive(Drop)]
pub struct Run {
    serial: Serial<ConsoleSide, AudioSide>,
    end: u64,
    /// The stamps by which the two machines were stepped since they were made, added up. It stays at its highest
    /// number.
    stepped: u64,
}

/// The number of resets for which a path of `spans` spans has memory, or that for which the script of the job has.
fn room_for(job: &Job, spans: usize) -> usize
    ensures { result ≡ max job.now.script.room spans }
{
    job.script.room().max(spans)
}

/// Returns the machines of a job at their start, with an empty path and memory for `spans` spans and resets. Fails only if
/// allocation fails.
pub fn first_run(alloc: Global, job: &Job, spans: usize) -> Result<Run, NoMemory>
    requires { job.now.script ≡ path_script job.now.region job.now.script.room empty_path }
    ensures done { IfOk result (λ r. IsDone job.now (max job.now.script.room spans) empty_path r [] []) }
    ensures stepped { IfOk result (λ r. r.stepped ≡ 0) }
{
    let mut console = ConsoleSide::new(alloc, job)?;
    console.reserve(spans)?;
    let mut sound = AudioSide::new(alloc, job)?;
    sound.reserve(room_for(job, spans))?;
    Ok(Run {
        serial: Serial::new(console, sound),
        end: 0,
        stepped: 0,
    })
}

/// Copies a run over another one: both machines, the bytes between them, and the end. The other's count stays.
/// Nothing is allocated.
pub fn copy_run(from: &Run, into: &mut Run)
    requires { CanCopy from.now into.old }
    ensures { into.new ≡ copy_of from.now into.old.serial.console.rest.script.room into.old.serial.sound.clock.room into.old.stepped }
{
    let (console, sound) = from.serial.machines();
    console.copy_into(into.serial.console());
    sound.copy_into(into.serial.sound());
    let (to_sound, to_console) = from.serial.ports();
    into.serial.set_ports(to_sound, to_console);
    into.end = from.end;
}

/// Returns how many frames of a region end by a stamp, of those that a job may have.
fn count_frames(region: Region, end: u64) -> u32
    ensures { (frames : ℕ) → frames ≤ 36000 → end ≡ end_stamp_of region frames → result ≡ frames }
{
    let frames = match region {
        Region::Ntsc => end / FRAME_STAMPS,
        Region::Pal => end / PAL_FRAME_STAMPS,
    };
    frames.min(MOST_FRAMES as u64) as u32
}

impl Run {
    /// The stamps by which the two machines were stepped, added up.
    pub fn stepped(&self) -> u64
        ensures { result ≡ self.now.stepped }
    {
        self.stepped
    }

    /// The stamps of the two machines.
    fn stamps(&self) -> (u64, u64)
        ensures console { result.0 ≡ self.now.serial.console.stamp }
        ensures sound { result.1 ≡ stamp_now self.now.serial.sound.clock }
    {
        let (console, sound) = self.serial.machines();
        (console.stamp(), sound.stamp())
    }

    /// Counts the steps taken since both machines were at these stamps.
    fn count_from(&mut self, console: u64, sound: u64)
        ensures { self.new ≡ record self.old { stepped = counted self.old.stepped (rise_from console sound self.old.serial.console.stamp (stamp_now self.old.serial.sound.clock)) } }
    {
        let (later_console, later_sound) = self.stamps();
        self.stepped = self
            .stepped
            .saturating_add(later_console.saturating_sub(console))
            .saturating_add(later_sound.saturating_sub(sound));
    }

    /// Puts a span at the end of the path, whose end moves on by the span's frames of the machines' region. Nothing is
    /// allocated.
    pub fn play(&mut self, span: Span)
        requires room { length self.old.serial.console.rest.script.spans < self.old.serial.console.rest.script.room }
        requires frames { frames_of self.old.serial.console.rest.script.spans + span.count ≤ 36000 }
        requires early { self.old.end + frame_of self.old.serial.console.region * span.count ≤ 2 ^ 62 }
        ensures played { self.new ≡ record self.old { serial = record self.old.serial { console = value_played self.old.serial.console span }; end = self.old.end + frame_of self.old.serial.console.region * span.count } }
        ensures stands { (w : ConsoleState) → console_side.StandsAt self.old.serial.console w → console_side.StandsAt self.new.serial.console (console_played w span) }
    {
        let (console, _) = self.serial.machines();
        let region = console.region();
        self.serial.console().play(span);
        self.end += end_stamp_in(region, span.count);
    }

    /// Whether a frame begins with a reset.
    pub fn is_reset_in(&self, frame: u32) -> bool
        ensures { result ≡ is_reset self.now.serial.console.rest.script.resets frame }
    {
        let (console, _) = self.serial.machines();
        console.bus().begins_with_reset(frame)
    }

    /// Presses the reset button at the end of the path, on both sides. Nothing is allocated.
    pub fn press(&mut self, frame: u32)
        requires room { length self.old.serial.console.rest.script.resets < self.old.serial.console.rest.script.room }
        requires rises { RiseWithin 1 36000 (self.old.serial.console.rest.script.resets ++ frame ∷ []) }
        requires sound_room { length self.old.serial.sound.clock.resets < self.old.serial.sound.clock.room }
        ensures pressed { self.new ≡ record self.old {
          serial = record self.old.serial {
            console = value_pressed self.old.serial.console frame;
            sound = audio_pressed self.old.serial.sound frame;
          };
        } }
        ensures stands { (w : ConsoleState) → console_side.StandsAt self.old.serial.console w
            → console_side.StandsAt self.new.serial.console (console_pressed w frame) }
        ensures sound_stands { (m : SoundState) → sound_side.StandsAt self.old.serial.sound m
            → sound_side.StandsAt self.new.serial.sound (sound_pressed m frame) }
    {
        self.serial.console().press(frame);
        self.serial.sound().press(frame);
    }

    /// The number of frames that the path lasts.
    pub fn frames(&self) -> u32
        ensures { (frames : ℕ) → frames ≤ 36000 → self.now.end ≡ end_stamp_of self.now.serial.console.region frames → result ≡ frames }
    {
        let (console, _) = self.serial.machines();
        count_frames(console.region(), self.end)
    }

    /// Takes all steps to the end of the path, and passes the sink what they emit (`drive`).
    pub fn go_on<K: Sink>(&mut self, buffer: &mut [u8], sink: &mut K) -> Result<(), Side>
        requires early { self.old.end ≤ 2 ^ 62 }
        requires fits { 1024 ≤ length buffer.old }
        requires no_video { self.old.serial.console.waiting ≡ [] }
        requires no_audio { self.old.serial.sound.waiting ≡ [] }
        ensures whole { OnOk result ((c : ConsoleState) (s : SoundState) (base first : Side → List ℕ) → IsLed console_moves sound_moves console_side.StandsAt sound_side.StandsAt self.old.end (serial_of c s) self.old.serial (first Side.Console) (first Side.Sound)
            → K.holds sink.old Side.Console (base Side.Console) → K.holds sink.old Side.Sound (base Side.Sound)
            → TookOn console_moves sound_moves console_side.StandsAt sound_side.StandsAt c s self.old.end self.new.serial (Since (K.holds sink.new) base first)) }
        ensures part { OnErr result ((c : ConsoleState) (s : SoundState) (base first : Side → List ℕ) → IsLed console_moves sound_moves console_side.StandsAt sound_side.StandsAt self.old.end (serial_of c s) self.old.serial (first Side.Console) (first Side.Sound)
            → K.holds sink.old Side.Console (base Side.Console) → K.holds sink.old Side.Sound (base Side.Sound) → Ends console_moves sound_moves c s self.old.end
            → TookFirst console_moves sound_moves c s self.old.end (Since (K.holds sink.new) base first)) }
        ensures console_past { OnOk result (self.old.end ≤ self.new.serial.console.stamp) }
        ensures sound_past { OnOk result (self.old.end ≤ stamp_now self.new.serial.sound.clock) }
        ensures no_video { OnOk result (self.new.serial.console.waiting ≡ []) }
        ensures no_audio { OnOk result (self.new.serial.sound.waiting ≡ []) }
        ensures end { self.new.end ≡ self.old.end }
        ensures stepped { self.new.stepped ≡ counted self.old.stepped (rise_of self.old self.new) }
        ensures failed { IfErr result (K.failed sink.old sink.new) }
        ensures only { K.only_takes sink.old sink.new }
    {
        let (console, sound) = self.stamps();
        let answer = drive(&mut self.serial, self.end, buffer, sink);
        self.count_from(console, sound);
        answer
    }
}
