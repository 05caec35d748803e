// What a seat of each table knows: facts for proofs alone. No value of these types is ever made.
use std::marker::Model;

/// The view of a seat of the lock table.
#[derive(Drop)]
pub struct LockView {
    nothing: u8,
}

impl Model for LockView {
    ghost use Rattle.port_log.specs.Known.{LockKnown, spent_lock};

    ghost Value = { LockKnown };

    ghost view = { λ _. spent_lock };
}

/// The view of a seat of the list table.
#[derive(Drop)]
pub struct ListView {
    nothing: u8,
}

impl Model for ListView {
    ghost use Rattle.port_log.specs.Known.{ListKnown, spent_list};

    ghost Value = { ListKnown };

    ghost view = { λ _. spent_list };
}
