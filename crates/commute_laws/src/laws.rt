// Why the steps of two machines commute, and what that says of two that run apart, for any two machines
// of one region.
//
// Each law is the contract of a function that does nothing: its clause speaks of every region, every start
// and every run, by the definitions in `specs/` alone.
ghost use Rattle.std.specs.Prelude.{◌≡◌, ◌+◌, ◌<◌, ◌≤◌, ℕ, List, ◌++◌};
ghost use Rattle.snes_defs.specs.declared.region.Region.{Region};
ghost use Rattle.snes_defs.specs.declared.ports.Side.{Side};
ghost use Rattle.snes_defs.specs.declared.ports.Side.TheVariants.{Console, Sound};
ghost use Rattle.port_entries.specs.Entry.{Entry, CarryBytes};
ghost use Rattle.port_entries.specs.Window.{IsSettled};
ghost use Rattle.side_law.specs.SerialRun.{IsOutput};
ghost use Rattle.side_law.specs.Serial.{SerialState, serial_of};
ghost use Rattle.commute_laws.specs.History.{History, history_of, history_after};
ghost use Rattle.commute_laws.specs.Heard.{RanAlone, HeardRun, IsHeard, OnLook, StepsBelow, heard_step};
ghost use Rattle.commute_laws.specs.Leg.{IsLeg};
ghost use Rattle.commute_laws.specs.OnRun.{IsOnRun, IsOfRun, StaysBelow};

use side_law::Machine;

/// Law of two sides that ran by themselves from a pair on the serial run: the pair that they reach is on the serial
/// run. Each ran against the prefix of the other's list of entries that it had heard by then. What each read was
/// settled, by the stamp up to which it had heard all, and the other side had published that stamp.
#[tactic(none)]
pub fn heard_is_serial<C: Machine, S: Machine>()
    ensures { (region : Region) (console : C.State) (sound : S.State) → C.valid region console → S.valid region sound
        → (c after_c : History C.State) (s after_s : History S.State) (console_clock sound_clock : ℕ)
        → IsOnRun C.moves S.moves console sound c s
        → RanAlone Console C.moves c after_c after_s.entries sound_clock
        → RanAlone Sound S.moves s after_s after_c.entries console_clock
        → console_clock ≤ C.moves.stamp after_c.now
        → sound_clock ≤ S.moves.stamp after_s.now
        → IsOnRun C.moves S.moves console sound after_c after_s }
{}

/// Law of a run by itself: it continues by a step whose read is settled, and against a longer list. All that is added
/// to the list is stamped at or after the stamp up to which was heard.
#[tactic(none)]
pub fn heard_runs_go_on<M: Machine>()
    ensures begins { (side : Side) (heard : List Entry) (upto : ℕ) (h : History M.State)
        → HeardRun side M.moves heard upto h h }
    ensures steps { (side : Side) (heard : List Entry) (upto : ℕ) (before after : History M.State)
        → HeardRun side M.moves heard upto before after
        → OnLook (M.moves.act after.now) (IsSettled side (M.moves.stamp after.now) upto)
        → HeardRun side M.moves heard upto before (heard_step side M.moves heard after) }
    ensures longer { (side : Side) (heard more : List Entry) (upto later : ℕ) (before after : History M.State)
        → HeardRun side M.moves heard upto before after → IsHeard heard more upto → upto ≤ later
        → HeardRun side M.moves more later before after }
{}

/// Law of a leg: it continues by a step below the end whose read is settled, and against a longer list. All that is
/// added to the list is stamped at or after the stamp up to which was heard.
#[tactic(none)]
pub fn legs_go_on<M: Machine>()
    ensures begins { (side : Side) (heard : List Entry) (upto end : ℕ) (h : History M.State)
        → IsLeg side M.moves heard upto end h h }
    ensures steps { (side : Side) (heard : List Entry) (upto end : ℕ) (before after : History M.State)
        → IsLeg side M.moves heard upto end before after
        → M.moves.stamp after.now < end
        → OnLook (M.moves.act after.now) (IsSettled side (M.moves.stamp after.now) upto)
        → IsLeg side M.moves heard upto end before (heard_step side M.moves heard after) }
    ensures longer { (side : Side) (heard more : List Entry) (upto later end : ℕ) (before after : History M.State)
        → IsLeg side M.moves heard upto end before after → IsHeard heard more upto → upto ≤ later
        → IsLeg side M.moves more later end before after }
{}

/// Law of step counts: two pairs on the serial run with as many steps of each side are one pair. They have the same
/// states, entries and emitted bytes.
#[tactic(none)]
pub fn as_many_steps_are_one_pair<C: Machine, S: Machine>()
    ensures { (region : Region) (console : C.State) (sound : S.State) → C.valid region console → S.valid region sound
        → (c d : History C.State) (s t : History S.State)
        → IsOnRun C.moves S.moves console sound c s → IsOnRun C.moves S.moves console sound d t
        → c.steps ≡ d.steps → s.steps ≡ t.steps → (c ≡ d) × (s ≡ t) }
{}

/// Law of histories: the run with its history is the run. It has the same states and bytes after as many turns.
#[tactic(none)]
pub fn history_is_of_the_run<C: Machine, S: Machine>()
    ensures { (console : C.State) (sound : S.State) (turns : ℕ) → IsOfRun C.moves S.moves console sound turns }
{}

/// Law of serial runs: each one reaches its end, and emits one video and one audio.
#[tactic(none)]
pub fn serial_runs_end<C: Machine, S: Machine>()
    ensures ends { (region : Region) (console : C.State) (sound : S.State) → C.valid region console → S.valid region sound → (end : ℕ)
        → (video : List ℕ) × (audio : List ℕ) × IsOutput C.moves S.moves (serial_of console sound) end video audio }
    ensures once { (w : SerialState C.State S.State) (end : ℕ) (video audio other_video other_audio : List ℕ)
        → IsOutput C.moves S.moves w end video audio → IsOutput C.moves S.moves w end other_video other_audio
        → (video ≡ other_video) × (audio ≡ other_audio) }
{}

/// Law of end stamps: a pair on the serial run stays below an end stamp at each step below it, of either side. It also
/// does if both ran by themselves.
#[tactic(none)]
pub fn pairs_stay_below<C: Machine, S: Machine>()
    ensures begins { (region : Region) (console : C.State) (sound : S.State) → C.valid region console → S.valid region sound → (end : ℕ)
        → StaysBelow C.moves S.moves console sound end (history_of console) (history_of sound) }
    ensures console { (region : Region) (console : C.State) (sound : S.State) → C.valid region console → S.valid region sound
        → (end : ℕ) (c : History C.State) (s : History S.State)
        → IsOnRun C.moves S.moves console sound c s → StaysBelow C.moves S.moves console sound end c s
        → C.moves.stamp c.now < end → (got : ℕ)
        → StaysBelow C.moves S.moves console sound end (history_after C.moves c got) s }
    ensures sound { (region : Region) (console : C.State) (sound : S.State) → C.valid region console → S.valid region sound
        → (end : ℕ) (c : History C.State) (s : History S.State)
        → IsOnRun C.moves S.moves console sound c s → StaysBelow C.moves S.moves console sound end c s
        → S.moves.stamp s.now < end → (got : ℕ)
        → StaysBelow C.moves S.moves console sound end c (history_after S.moves s got) }
    ensures alone { (region : Region) (console : C.State) (sound : S.State) → C.valid region console → S.valid region sound
        → (end : ℕ) (c after_c : History C.State) (s after_s : History S.State) (console_clock sound_clock : ℕ)
        → IsOnRun C.moves S.moves console sound c s
        → (by_console : RanAlone Console C.moves c after_c after_s.entries sound_clock)
        → (by_sound : RanAlone Sound S.moves s after_s after_c.entries console_clock)
        → console_clock ≤ C.moves.stamp after_c.now
        → sound_clock ≤ S.moves.stamp after_s.now
        → StepsBelow Console C.moves by_console.heard end by_console.ran.steps c
        → StepsBelow Sound S.moves by_sound.heard end by_sound.ran.steps s
        → StaysBelow C.moves S.moves console sound end c s
        → StaysBelow C.moves S.moves console sound end after_c after_s }
{}

/// Law of finished pairs: a pair whose machines have both reached `end` has emitted the output of the run. The pair is
/// on the serial run, and no step of it was made at `end` or later.
#[tactic(none)]
pub fn done_is_output<C: Machine, S: Machine>()
    ensures { (region : Region) (console : C.State) (sound : S.State) → C.valid region console → S.valid region sound
        → (end : ℕ) (c : History C.State) (s : History S.State)
        → IsOnRun C.moves S.moves console sound c s → StaysBelow C.moves S.moves console sound end c s
        → end ≤ C.moves.stamp c.now → end ≤ S.moves.stamp s.now
        → IsOutput C.moves S.moves (serial_of console sound) end c.emitted s.emitted }
{}

/// Law of unfinished pairs: a pair has emitted a prefix of the output of the run to `end`. The pair is on the serial
/// run, and no step of it was made at `end` or later.
#[tactic(none)]
pub fn pairs_emit_first_bytes<C: Machine, S: Machine>()
    ensures { (region : Region) (console : C.State) (sound : S.State) → C.valid region console → S.valid region sound
        → (end : ℕ) (c : History C.State) (s : History S.State)
        → IsOnRun C.moves S.moves console sound c s → StaysBelow C.moves S.moves console sound end c s
        → (video audio : List ℕ) → IsOutput C.moves S.moves (serial_of console sound) end video audio
        → ((rest : List ℕ) × (c.emitted ++ rest ≡ video)) × ((rest : List ℕ) × (s.emitted ++ rest ≡ audio)) }
{}

/// Law of entries: those of a pair on the serial run carry bytes.
#[tactic(none)]
pub fn entries_carry_bytes<C: Machine, S: Machine>()
    ensures { (region : Region) (console : C.State) (sound : S.State) → C.valid region console → S.valid region sound
        → (c : History C.State) (s : History S.State) → IsOnRun C.moves S.moves console sound c s
        → CarryBytes c.entries × CarryBytes s.entries }
{}
