// What a seat of the table knows: facts for proofs alone. No value of this type is ever made.
use std::marker::Model;

/// The view of a seat.
#[derive(Drop)]
pub struct View {
    nothing: u8,
}

impl Model for View {
    ghost use Rattle.word_log.specs.Known.{Known, spent};

    ghost Value = { Known };

    ghost view = { λ _. spent };
}
