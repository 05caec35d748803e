// Which orders of the steps of two machines are equivalent to the serial one, and how many turns a run has. The
// machines are any two of one region.
//
// Each law is the contract of a function that does nothing. Its clause speaks of every region, every start and every
// list of moves, by the definitions in `specs/` alone.
ghost use Rattle.std.specs.Prelude.{◌≡◌, ◌+◌, ◌*◌, ◌<◌, ◌≤◌, ℕ, List, ◌++◌, length};
ghost use Rattle.snes_defs.specs.declared.region.Region.{Region};
ghost use Rattle.snes_defs.specs.declared.ports.Side.TheVariants.{Console, Sound};
ghost use Rattle.clock_ratio.specs.Stamp.{stamp_of, end_stamp_of};
ghost use Rattle.side_law.specs.Serial.{serial_of};
ghost use Rattle.side_law.specs.SerialRun.{RunsFor};
ghost use Rattle.commute_laws.specs.OnRun.{serial_run};
ghost use Rattle.run_laws.specs.Legal.{Halves, halves_of, Move, MayStep, IsLegal, after_moves, steps_of};
ghost use Rattle.run_laws.specs.Place.{IsSerialAt};
ghost use Rattle.run_laws.specs.SerialMoves.{serial_moves};
ghost use Rattle.run_laws.specs.TurnBound.{Made, AreBelow, EachSteps, steps_in, most_turns};

use side_law::Machine;

/// Law of legal lists: every legal list of moves leads along the serial run. After it each side has the state, entries
/// and emitted bytes that it has in the run after as many steps. No published clock is above its machine's stamp.
#[tactic(none)]
pub fn legal_is_serial<C: Machine, S: Machine>()
    ensures { (region : Region) (console : C.State) (sound : S.State) → C.valid region console → S.valid region sound
        → (moves : List Move) → IsLegal region C.moves S.moves moves (halves_of console sound)
        → IsSerialAt C.moves S.moves console sound (steps_of Console moves) (steps_of Sound moves)
        (after_moves C.moves S.moves moves (halves_of console sound)) }
{}

/// Law of the earlier side: if both published clocks are the machines' stamps, it isn't refused, whatever its step
/// does. The state need not be one that a legal list reaches.
#[tactic(none)]
pub fn earlier_is_free<C: Machine, S: Machine>()
    ensures { (region : Region) (h : Halves C.State S.State)
        → h.console.clock ≡ C.moves.stamp h.console.history.now
        → h.sound.clock ≡ S.moves.stamp h.sound.history.now
        → (C.moves.stamp h.console.history.now ≤ S.moves.stamp h.sound.history.now
        → MayStep region Console (C.moves.stamp h.console.history.now) h.sound.clock (C.moves.act h.console.history.now))
        × (S.moves.stamp h.sound.history.now < C.moves.stamp h.console.history.now
        → MayStep region Sound (S.moves.stamp h.sound.history.now) h.console.clock (S.moves.act h.sound.history.now)) }
{}

/// Law of progress: a legal list can always continue, and by a step. Both sides publish their stamps, and the earlier
/// one steps.
#[tactic(none)]
pub fn legal_goes_on<C: Machine, S: Machine>()
    ensures { (region : Region) (console : C.State) (sound : S.State) → C.valid region console → S.valid region sound
        → (moves : List Move) → IsLegal region C.moves S.moves moves (halves_of console sound)
        → (more : List Move) × IsLegal region C.moves S.moves (moves ++ more) (halves_of console sound)
        × (steps_of Console more + steps_of Sound more ≡ 1) }
{}

/// Law of the serial order: it is a legal list, however long. In each turn both sides publish their stamps, and the
/// earlier one steps. After the moves of the first turns both histories are those of the serial run after as many
/// turns.
#[tactic(none)]
pub fn serial_order_is_legal<C: Machine, S: Machine>()
    ensures legal { (region : Region) (console : C.State) (sound : S.State) → C.valid region console → S.valid region sound → (turns : ℕ)
        → IsLegal region C.moves S.moves (serial_moves C.moves S.moves console sound turns) (halves_of console sound) }
    ensures leads { (region : Region) (console : C.State) (sound : S.State) → C.valid region console → S.valid region sound → (turns : ℕ)
        → ((after_moves C.moves S.moves (serial_moves C.moves S.moves console sound turns) (halves_of console sound)).console.history
        ≡ (serial_run C.moves S.moves console sound turns).console)
        × ((after_moves C.moves S.moves (serial_moves C.moves S.moves console sound turns) (halves_of console sound)).sound.history
        ≡ (serial_run C.moves S.moves console sound turns).sound) }
{}

/// Law of step counts: two legal lists that make as many steps of each side end alike, with the same states, entries
/// and emitted bytes.
#[tactic(none)]
pub fn as_many_steps_end_alike<C: Machine, S: Machine>()
    ensures { (region : Region) (console : C.State) (sound : S.State) → C.valid region console → S.valid region sound
        → (moves others : List Move)
        → IsLegal region C.moves S.moves moves (halves_of console sound)
        → IsLegal region C.moves S.moves others (halves_of console sound)
        → steps_of Console moves ≡ steps_of Console others → steps_of Sound moves ≡ steps_of Sound others
        → ((after_moves C.moves S.moves moves (halves_of console sound)).console.history
        ≡ (after_moves C.moves S.moves others (halves_of console sound)).console.history)
        × ((after_moves C.moves S.moves moves (halves_of console sound)).sound.history
        ≡ (after_moves C.moves S.moves others (halves_of console sound)).sound.history) }
{}

/// Law of fairness: in the serial run from stamp 0 each side has made `i` steps after at most `8 * (i + 1)` turns. So
/// "after its first `i` steps in the run" is always some state.
#[tactic(none)]
pub fn steps_come_in_time<C: Machine, S: Machine>()
    ensures console { (region : Region) (console : C.State) (sound : S.State) → C.valid region console → S.valid region sound
        → C.moves.stamp console ≡ 0 → S.moves.stamp sound ≡ 0
        → (i : ℕ) → (n : ℕ) × (n ≤ 8 * (i + 1)) × ((serial_run C.moves S.moves console sound n).console.steps ≡ i) }
    ensures sound { (region : Region) (console : C.State) (sound : S.State) → C.valid region console → S.valid region sound
        → C.moves.stamp console ≡ 0 → S.moves.stamp sound ≡ 0
        → (i : ℕ) → (n : ℕ) × (n ≤ 8 * (i + 1)) × ((serial_run C.moves S.moves console sound n).sound.steps ≡ i) }
{}

/// Law of turns: a run of turns, each of at least one step below the end of `frames` frames, has a bounded number of
/// turns. There are at most `76602 * frames + 2` in Ntsc and `91406 * frames + 2` in Pal. The bound holds if each step
/// of the sound side raises its stamp by one sound cycle.
#[tactic(none)]
pub fn turns_end<C: Machine, S: Machine>()
    ensures { (region : Region) (console : C.State) (sound : S.State) → C.valid region console
        → C.moves.stamp console ≡ 0 → S.moves.stamp sound ≡ 0
        → (frames : ℕ) (turns : List (List Made)) → EachSteps turns
        → AreBelow region C.moves S.moves (end_stamp_of region frames) (steps_in turns) console sound
        → length turns ≤ most_turns region frames }
{}

/// Law of serial turns: the serial run from stamp 0 to the end of `frames` frames has a bounded number of turns. There
/// are at most `76602 * frames + 2` in Ntsc and `91406 * frames + 2` in Pal. The bound holds if each step of the sound
/// side from a valid state raises its stamp by one sound cycle.
#[tactic(none)]
pub fn runs_are_bounded<C: Machine, S: Machine>()
    ensures { (region : Region) (console : C.State) (sound : S.State) → C.valid region console → S.valid region sound
        → C.moves.stamp console ≡ 0 → S.moves.stamp sound ≡ 0
        → ((m : S.State) (got : ℕ) → S.valid region m → got < 256
        → S.moves.stamp (S.moves.next m got) ≡ S.moves.stamp m + stamp_of region Sound 1)
        → (frames turns : ℕ) → RunsFor C.moves S.moves (serial_of console sound) (end_stamp_of region frames) turns
        → turns ≤ most_turns region frames }
{}
