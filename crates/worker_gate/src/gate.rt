// What a worker reports to as it starts a leg.
use snes_defs::Side;

/// What a worker reports to as it starts a leg: it is given the worker's side and the turn's number, from 0 on.
///
/// It promises nothing but that its call returns, and returns nothing. So no caller can distinguish one gate from
/// another: what runs behind a test's gate, which counts the workers, is what runs behind the program's.
pub trait Gate: Sync {
    fn arrive(&self, side: Side, turn: u64);
}

/// A gate of any kind is passed as itself.
impl Gate for &dyn Gate {
    #[inline(always)]
    fn arrive(&self, side: Side, turn: u64) {
        (**self).arrive(side, turn);
    }
}

/// The program's gate, which does nothing.
#[derive(Drop)]
pub struct OpenGate;

impl Gate for OpenGate {
    #[inline(always)]
    fn arrive(&self, _side: Side, _turn: u64) {}
}
