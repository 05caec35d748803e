// What is in the slot of the lock table.
use crate::port_log::PortLog;
use crate::views::ListView;
use atomic_table::Badge;
use std::marker::Model;

/// The log, and a note: a seat of the list table that knows the book. The log stands for the two lists of the book. It
/// is behind a pointer, so that taking it out of the slot moves few bytes.
#[derive(Drop)]
pub struct Kept {
    /// The log of the ports.
    pub log: Box<PortLog>,
    /// The note that knows the book.
    pub note: Badge<ListView>,
}

impl Model for Kept {
    ghost use Rattle.port_log.specs.Known.{KeptValue};

    ghost Value = { KeptValue };

    ghost use Rattle.port_log.specs.KeptBook.{book_on, IsNoted};

    ghost view = { λ k. record {
      book = book_on k.note.views;
      list = k.note.table_id;
      region = k.log.value.region;
    } };

    ghost invariant = { λ k. IsNoted k.log.value k.note.views };
}
