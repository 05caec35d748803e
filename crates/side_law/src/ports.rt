// What is behind the ports of a machine, and why a machine stops that advances over them.
ghost use Rattle.std.specs.Prelude.{◌≡◌, ◌+◌, ◌<◌, ◌≤◌, ℕ, IfSome, None};
ghost use Rattle.side_law.specs.Moves.{IsAtPorts};
ghost use Rattle.side_law.specs.Gone.{Calls, Times, Leads, IsAnswered, IsRefused};

use snes_defs::Act;

/// Why a machine has stopped.
#[derive(Clone, Copy)]
pub enum Stop {
    /// The next step does not begin before the given stamp, or there is no room for what it may emit.
    Until,
    /// Its last step emitted, and began at this stamp.
    Emitted(u64),
    /// The call of the next step was refused.
    Refused,
}

/// What is behind the four ports of a machine while it advances. A call is answered or refused. If it is refused, the
/// step that made it is not run.
///
/// As of a machine, only proofs know the states of ports (`State`), and what their calls mean (`calls`). A refused call
/// may change them too: what is behind the ports may have advanced by itself.
///
/// Calls come in the order of their stamps (`clock`), all before a stamp and a least rise apart (`times`).
pub trait Ports {
    // What the ports are.
    ghost State: { Type 0 };

    // What a call does to a state of them.
    ghost calls: { Calls State };

    // The value is ports in this state.
    ghost stands: { Self → State → Type 0 };

    // No call comes at an earlier stamp.
    ghost clock: { Self → ℕ };

    ghost times: { Self → Times };

    /// Makes the call of a step by its act, at a stamp. Returns the byte that the step gets, 0 unless it reads, or None
    /// if the call is refused. A quiet step makes no call.
    fn call(&mut self, at: u64, act: Act) -> Option<u8>
        requires at_ports { IsAtPorts act }
        requires in_order { clock self.old ≤ at }
        requires in_time { at < (times self.old).before }
        ensures answered { IfSome result (λ got.
            Leads (stands self.old) (stands self.new) (IsAnswered calls at act got)) }
        ensures refused { result ≡ None → Leads (stands self.old) (stands self.new) (IsRefused calls at act) }
        ensures clock { clock self.new ≤ at + (times self.old).rise }
        ensures waits { result ≡ None → clock self.new ≤ at }
        ensures times { times self.new ≡ times self.old };

    /// Returns the stamp before which a step that emits may begin, if this many bytes are buffered.
    fn room(&self, waiting: usize) -> u64
        ensures { (p : State) → stands self.now p → calls.room p waiting ≡ result };

    /// A step that began at a stamp has emitted, and this many bytes are buffered now.
    fn emitted(&mut self, at: u64, waiting: usize)
        ensures told { Leads (stands self.old) (stands self.new) (calls.told at waiting) }
        ensures clock { clock self.new ≤ clock self.old }
        ensures times { times self.new ≡ times self.old };
}
