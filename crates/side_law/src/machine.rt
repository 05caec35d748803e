// The trait of both halves of the console: a machine that runs by steps, with its laws as members.
ghost use Rattle.std.specs.Prelude.{◌≡◌, ◌+◌, ◌*◌, ◌^◌, ◌<◌, ◌≤◌, ◌↔◌, ℕ, IsTrue};
ghost use Rattle.std.specs.Prelude.{List, [], ◌++◌, length, min, take, drop};
ghost use Rattle.snes_defs.specs.declared.region.Region.{Region};
ghost use Rattle.clock_ratio.specs.Stamp.{least_of, most_of};
ghost use Rattle.side_law.specs.Moves.{Moves, IsLawful, IsAtPorts, taken};
ghost use Rattle.side_law.specs.Gone.{HasGone};

use crate::ports::{Ports, Stop};
use snes_defs::{Act, Region};

/// A machine that runs by steps, each at a stamp, and touches four ports that another machine shares.
///
/// Apart from the emitted bytes that it buffers, a machine has one plain state, which only proofs know: `State`, with
/// the `moves` from it. The code may forget what the state keeps, such as the list of an instruction's accesses. So
/// `stands` relates a value to each state that it can be in, and the clauses hold of every one of them. A constructor
/// says which state its value stands for, and `stamp` that there is always one.
///
/// A machine is of one region, whose numbers say by how much a step raises its stamp.
pub trait Machine: Send {
    /// How many emitted bytes the buffer holds.
    const CAP: usize;

    /// The most bytes that one step emits.
    const MOST: usize;

    ghost CAP: { ℕ };

    ghost MOST: { ℕ };

    // What the machine is apart from the bytes that wait.
    ghost State: { Type 0 };

    // The states of a machine of a region, of which the laws speak.
    ghost valid: { Region → State → Type 0 };

    // Stamp and act of a state, and the state after a step and the bytes that it emits.
    ghost moves: { Moves State };

    // The value is a machine in this state.
    ghost stands: { Self → State → Type 0 };

    // The region of the value.
    ghost region_of: { Self → Region };

    // The stamp of the value's next step.
    ghost stamp_of: { Self → ℕ };

    // The emitted bytes that wait, the first one first.
    ghost waiting: { Self → List ℕ };

    /// Returns the region, which no call changes.
    fn region(&self) -> Region
        ensures { result ≡ region_of self.now };

    /// Returns the stamp of the next step.
    fn stamp(&self) -> u64
        ensures stamp { result ≡ stamp_of self.now }
        ensures of_the_state { (m : State) → stands self.now m → moves.stamp m ≡ result }
        ensures stands { ∥ ((m : State) × stands self.now m) ∥₁ };

    /// Returns what the next step does at the ports.
    fn act(&self) -> Act
        ensures at_ports { IsAtPorts result }
        ensures of_the_state { (m : State) → stands self.now m → moves.act m ≡ result };

    /// Runs the next step. `got` is the incoming byte of the port if the act is a read; otherwise it doesn't matter.
    fn step(&mut self, got: u8)
        requires room { length (waiting self.old) + MOST ≤ CAP }
        requires early { stamp_of self.old ≤ 2 ^ 62 }
        ensures next { (m : State) → stands self.old m → stands self.new (moves.next m (taken (moves.act m) got)) }
        ensures emits { (m : State) → stands self.old m
            → waiting self.new ≡ waiting self.old ++ moves.bytes m (taken (moves.act m) got) }
        ensures rises { stamp_of self.old + least_of (region_of self.old) ≤ stamp_of self.new }
        ensures rises_at_most { stamp_of self.new ≤ stamp_of self.old + most_of (region_of self.old) }
        ensures emits_at_most { length (waiting self.new) ≤ length (waiting self.old) + MOST }
        ensures same_region { region_of self.new ≡ region_of self.old };

    /// Returns how many emitted bytes are buffered.
    fn pending(&self) -> usize
        ensures { result ≡ length (waiting self.now) };

    /// Whether the buffer has room for the bytes of two steps.
    #[inline(always)]
    fn ready(&self) -> bool
        ensures { IsTrue result ↔ (length (waiting self.now) + 2 * MOST ≤ CAP) }
    {
        let waiting = self.pending();
        waiting <= Self::CAP
            && Self::MOST <= Self::CAP - waiting
            && Self::MOST <= Self::CAP - waiting - Self::MOST
    }

    /// Whether the buffer has room for the bytes of one step.
    #[inline(always)]
    fn has_room(&self) -> bool
        ensures { IsTrue result ↔ (length (waiting self.now) + MOST ≤ CAP) }
    {
        let waiting = self.pending();
        waiting <= Self::CAP && Self::MOST <= Self::CAP - waiting
    }

    /// Lends the buffered bytes, the first one first, in two pieces. The second piece has those that lie round the end of
    /// the buffer; mostly it is empty.
    fn pieces(&self) -> (&[u8], &[u8])
        ensures { result.0.now ++ result.1.now ≡ waiting self.now };

    /// Forgets the buffered bytes.
    fn forget(&mut self)
        ensures none { waiting self.new ≡ [] }
        ensures same_state { (m : State) → stands self.old m → stands self.new m }
        ensures same_stamp { stamp_of self.new ≡ stamp_of self.old }
        ensures same_region { region_of self.new ≡ region_of self.old };

    /// Moves out the first of the buffered bytes, all or as many as fit, and returns how many.
    fn drain(&mut self, into: &mut [u8]) -> usize
        ensures count { result ≡ min (length (waiting self.old)) (length into.old) }
        ensures moved { into.new ≡ take result (waiting self.old) ++ drop result into.old }
        ensures left { waiting self.new ≡ drop result (waiting self.old) }
        ensures same_state { (m : State) → stands self.old m → stands self.new m }
        ensures same_stamp { stamp_of self.new ≡ stamp_of self.old }
        ensures same_region { region_of self.new ≡ region_of self.old };

    /// Runs steps in order, each begun before the stamp `until`, and its call at the ports made by `ports`. Returns why
    /// it stopped. How many it runs is left to the machine. It runs none after one whose call is refused, and none that
    /// may emit without room for its bytes (`Ports::room`, `CAP`).
    ///
    /// Each stop has a cause, so a caller that calls again gets on. `Stop::Until` comes only at `until` or without
    /// room. `Stop::Refused` comes only if the ports refuse the next step's call.
    #[inline(always)]
    fn advance<P: Ports>(&mut self, until: u64, ports: &mut P) -> Stop
        requires early { until ≤ 2 ^ 62 }
        requires in_order { P.clock ports.old ≤ stamp_of self.old }
        requires in_time { until ≤ (P.times ports.old).before }
        requires apart { (P.times ports.old).rise ≤ least_of (region_of self.old) }
        ensures gone { (m : State) (p : P.State) → stands self.old m → P.stands ports.old p
            → HasGone moves P.calls until MOST CAP (stands self.new) (P.stands ports.new)
            (waiting self.old) (waiting self.new) result m p }
        ensures forward { stamp_of self.old ≤ stamp_of self.new }
        ensures emitted { (at : ℕ) → result ≡ Stop.Emitted at → (stamp_of self.old ≤ at) × (at < until)
            × (at < stamp_of self.new) }
        ensures fits { length (waiting self.old) ≤ CAP → length (waiting self.new) ≤ CAP }
        ensures in_order { P.clock ports.new ≤ stamp_of self.new }
        ensures times { P.times ports.new ≡ P.times ports.old }
        ensures same_region { region_of self.new ≡ region_of self.old }
    {
        'steps: while self.stamp() < until {
            let at = self.stamp();
            let waited = self.pending();
            if at >= ports.room(waited) || !self.has_room() {
                return Stop::Until;
            }
            let Some(got) = ports.call(at, self.act()) else {
                return Stop::Refused;
            };
            self.step(got);
            let waits = self.pending();
            if waits > waited {
                ports.emitted(at, waits);
                return Stop::Emitted(at);
            }
        }
        Stop::Until
    }

    // The state of a value is valid in its region, and has its stamp.
    ghost stands_valid: { (x : Self) (m : State) → stands x m → valid (region_of x) m };

    ghost stands_stamp: { (x : Self) (m : State) → stands x m → moves.stamp m ≡ stamp_of x };

    ghost lawful: { (region : Region) → IsLawful region (valid region) MOST moves };
}
