// Many steps of one side in one call: those that it may run before the other side continues.
ghost use Rattle.std.specs.Prelude.{◌≡◌, ◌+◌, ◌^◌, ◌<◌, ◌≤◌, ◌++◌, ℕ, List, length};
ghost use Rattle.side_law.specs.Serial.{SerialState};
ghost use Rattle.serial_console.specs.Serial.{console_of, sound_of};
ghost use Rattle.serial_console.specs.Lead.{IsLed};

use crate::bytes::lead_by;
use crate::rest::lead_over;
use crate::serial::Serial;
use side_law::Machine;

impl<C: Machine, S: Machine> Serial<C, S> {
    /// Runs the console's steps before `end` in one call, up to the first that emits a byte. The sound side runs up to
    /// each call of the console at its ports. Once bytes of it are buffered it stays behind, and so the call ends too.
    ///
    /// Returns a stamp of each side: that of the console's step that emitted, or else of its next step, and that of the
    /// sound side's step that emitted. If bytes of a side were buffered before, its stamp is the one that was held. If
    /// bytes of the console were, no step is run.
    #[inline(always)]
    pub fn console_leads(&mut self, end: u64, held: u64, sound_held: u64) -> (u64, u64)
        requires room { (C.MOST ≤ C.CAP) × (S.MOST ≤ S.CAP) }
        requires few { (length (C.waiting (console_of self.old)) ≤ C.MOST)
            × (length (S.waiting (sound_of self.old)) ≤ S.MOST) }
        requires held { 0 < length (C.waiting (console_of self.old))
            → (held < C.stamp_of (console_of self.old)) × (held < end) }
        requires sound_held { 0 < length (S.waiting (sound_of self.old))
            → (sound_held < S.stamp_of (sound_of self.old)) × (sound_held < end) }
        requires early { end ≤ 2 ^ 62 }
        ensures led { (from : SerialState C.State S.State) (video audio : List ℕ)
            → IsLed C.moves S.moves C.stands S.stands end from self.old
            (video ++ C.waiting (console_of self.old)) (audio ++ S.waiting (sound_of self.old))
            → IsLed C.moves S.moves C.stands S.stands end from self.new
            (video ++ C.waiting (console_of self.new)) (audio ++ S.waiting (sound_of self.new)) }
        ensures few { (length (C.waiting (console_of self.new)) ≤ C.MOST)
            × (length (S.waiting (sound_of self.new)) ≤ S.MOST) }
        ensures waits { (0 < length (C.waiting (console_of self.old)) → 0 < length (C.waiting (console_of self.new)))
            × (0 < length (S.waiting (sound_of self.old)) → 0 < length (S.waiting (sound_of self.new))) }
        ensures silent { length (C.waiting (console_of self.new)) ≡ 0 → result.0 ≡ C.stamp_of (console_of self.new) }
        ensures emitted { 0 < length (C.waiting (console_of self.new))
            → (result.0 < C.stamp_of (console_of self.new)) × (result.0 < end) }
        ensures sound_emitted { 0 < length (S.waiting (sound_of self.new))
            → (result.1 < S.stamp_of (sound_of self.new)) × (result.1 < end) }
        ensures forward { (C.stamp_of (console_of self.old) ≤ C.stamp_of (console_of self.new))
            × (S.stamp_of (sound_of self.old) ≤ S.stamp_of (sound_of self.new)) }
        ensures begins { (length (C.waiting (console_of self.old)) ≡ 0 → 0 < length (C.waiting (console_of self.new))
            → (C.stamp_of (console_of self.old) < end)
            × (C.stamp_of (console_of self.old) < C.stamp_of (console_of self.new)))
            × (length (S.waiting (sound_of self.old)) ≡ 0 → 0 < length (S.waiting (sound_of self.new))
            → (S.stamp_of (sound_of self.old) < end)
            × (S.stamp_of (sound_of self.old) < S.stamp_of (sound_of self.new))) }
        ensures stops { length (C.waiting (console_of self.new)) ≡ 0 → C.stamp_of (console_of self.new) < end
            → (0 < length (S.waiting (sound_of self.new)))
            × (S.stamp_of (sound_of self.new) < C.stamp_of (console_of self.new)) }
        ensures region { C.region_of (console_of self.new) ≡ C.region_of (console_of self.old) }
    {
        if self.console.pending() > 0 {
            return (held, sound_held);
        }
        let waited = self.rest.sound.pending();
        self.rest.end = end;
        lead_over(&mut self.console, &mut self.rest);
        let video_at = if self.console.pending() > 0 {
            self.rest.last
        } else {
            self.console.stamp()
        };
        let audio_at = if waited > 0 {
            sound_held
        } else {
            self.rest.bytes.last
        };
        (video_at, audio_at)
    }

    /// Runs the sound side's steps before `end` in one call, up to the first that emits a byte: any while it is the
    /// earlier side, then quiet ones. Returns the stamp of the step that emitted, or else of the next step. If bytes of
    /// the sound side are buffered already, it runs none and returns `held`.
    #[inline(always)]
    pub fn sound_leads(&mut self, end: u64, held: u64) -> u64
        requires room { S.MOST ≤ S.CAP }
        requires few { length (S.waiting (sound_of self.old)) ≤ S.MOST }
        requires held { 0 < length (S.waiting (sound_of self.old))
            → (held < S.stamp_of (sound_of self.old)) × (held < end) }
        requires early { end ≤ 2 ^ 62 }
        ensures led { (from : SerialState C.State S.State) (video audio : List ℕ)
            → IsLed C.moves S.moves C.stands S.stands end from self.old video (audio ++ S.waiting (sound_of self.old))
            → IsLed C.moves S.moves C.stands S.stands end from self.new video (audio ++ S.waiting (sound_of self.new)) }
        ensures few { length (S.waiting (sound_of self.new)) ≤ S.MOST }
        ensures waits { 0 < length (S.waiting (sound_of self.old)) → 0 < length (S.waiting (sound_of self.new)) }
        ensures silent { length (S.waiting (sound_of self.new)) ≡ 0 → result ≡ S.stamp_of (sound_of self.new) }
        ensures emitted { 0 < length (S.waiting (sound_of self.new))
            → (result < S.stamp_of (sound_of self.new)) × (result < end) }
        ensures forward { S.stamp_of (sound_of self.old) ≤ S.stamp_of (sound_of self.new) }
        ensures goes_on { length (S.waiting (sound_of self.old)) ≡ 0
            → S.stamp_of (sound_of self.old) < C.stamp_of (console_of self.old) → S.stamp_of (sound_of self.old) < end
            → S.stamp_of (sound_of self.old) < S.stamp_of (sound_of self.new) }
        ensures begins { length (S.waiting (sound_of self.old)) ≡ 0 → 0 < length (S.waiting (sound_of self.new))
            → (S.stamp_of (sound_of self.old) < end)
            × (S.stamp_of (sound_of self.old) < S.stamp_of (sound_of self.new)) }
        ensures region { S.region_of (sound_of self.new) ≡ S.region_of (sound_of self.old) }
        ensures console_stays { console_of self.new ≡ console_of self.old }
    {
        if self.rest.sound.pending() > 0 {
            return held;
        }
        let begun = self.rest.sound.stamp();
        if begun >= end {
            return begun;
        }
        // No step emits while bytes are buffered, so the call ends after the first that does.
        self.rest.bytes.first = self.console.stamp();
        self.rest.bytes.hold = 0;
        let _stop = lead_by(&mut self.rest.sound, &mut self.rest.bytes, end);
        if self.rest.sound.pending() > 0 {
            return self.rest.bytes.last;
        }
        self.rest.sound.stamp()
    }
}
