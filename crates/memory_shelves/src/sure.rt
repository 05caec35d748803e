ghost use Rattle.std.specs.Prelude.{◌≡◌, ◌<◌, ◌≤◌, ◌↔◌, [], length, OnOk, OnErr, IfOk, IsOk, IsErrOf, vec_len, unwrap_or};
ghost use Rattle.memory_shelves.specs.Stored.{Stored, holding, held_in, blank, added, output_of, with_output, nothing_stored};
ghost use Rattle.memory_shelves.specs.Shelves.{shown_by_sure};

use crate::store::Store;
use shelf::{Failed, LoadEnd, Out, Shelf};
use snes_defs::NoMemory;
use std::alloc::Global;
use std::marker::Model;

/// A shelf in memory that never fails.
///
/// It keeps the first `room` bytes of each output, and shows what was written as long as no more were put. A name of
/// which it holds no file has no bytes.
#[derive(Drop)]
pub struct SureShelf {
    store: Store,
}

impl Model for SureShelf {
    ghost use Rattle.memory_shelves.specs.Stored.{Stored};

    ghost Value = { Stored };

    ghost view = { λ s. s.store };
}

impl SureShelf {
    /// A shelf that holds nothing. It allocates `room` bytes and a name for each output.
    pub fn new(alloc: Global, room: usize) -> Result<SureShelf, NoMemory>
        ensures empty { IfOk result (λ shelf. shelf ≡ nothing_stored room) }
    {
        match Store::new(alloc, room) {
            Ok(store) => Ok(SureShelf { store }),
            Err(_) => Err(NoMemory),
        }
    }

    /// Gives the shelf a file, which replaces any former one of that name.
    pub fn hold(&mut self, name: &str, bytes: &[u8]) -> Result<(), NoMemory>
        ensures ok { OnOk result (self.new ≡ holding self.old name.now bytes.now) }
        ensures err { OnErr result (self.new ≡ self.old) }
    {
        match self.store.hold(name, bytes) {
            Ok(()) => Ok(()),
            Err(_) => Err(NoMemory),
        }
    }

    /// The first `room` bytes that were put to an output since it was created.
    pub fn written(&self, out: Out) -> &[u8]
        ensures kept { result.now ≡ (output_of self.now out).bytes }
    {
        self.store.written(out)
    }

    /// The name of an output, empty before its first `create`.
    pub fn named(&self, out: Out) -> &str
        ensures name { result.now ≡ (output_of self.now out).name }
    {
        self.store.named(out)
    }
}

impl Shelf for SureShelf {
    ghost shown = { shown_by_sure };

    fn load(&mut self, name: &str, limit: usize, into: &mut Vec<u8>) -> Result<(), LoadEnd>
        requires { into.old.items ≡ [] }
        ensures whole { OnOk result (into.new.items ≡ unwrap_or (held_in self.old.files name.now) []) }
        ensures within { OnOk result (vec_len into.new ≤ limit) }
        ensures too_long { IsErrOf result LoadEnd.TooLong ↔ (limit < length (unwrap_or (held_in self.old.files name.now) [])) }
        ensures sure { IsErrOf result LoadEnd.Failed → ⊥ }
        ensures same { self.new ≡ self.old }
    {
        let Some(bytes) = self.store.held(name) else {
            return Ok(());
        };
        if bytes.len() > limit {
            return Err(LoadEnd::TooLong);
        }
        match into.extend_from_slice(bytes) {
            Ok(()) => Ok(()),
            Err(_) => Err(LoadEnd::NoMemory),
        }
    }

    fn create(&mut self, out: Out, name: &str) -> Result<(), Failed>
        requires not_empty { 0 < length name.now }
        requires fits { length name.now ≤ 4096 }
        ensures sure { IsOk result }
        ensures created { self.new ≡ with_output self.old out (blank name.now (output_of self.old out).room) }
    {
        self.store.create(out, name);
        Ok(())
    }

    fn put(&mut self, out: Out, bytes: &[u8]) -> Result<(), Failed>
        ensures sure { IsOk result }
        ensures put { self.new ≡ with_output self.old out (added (output_of self.old out) bytes.now) }
    {
        self.store.put(out, bytes);
        Ok(())
    }

    fn flush(&mut self, _out: Out) -> Result<(), Failed>
        ensures sure { IsOk result }
        ensures same { self.new ≡ self.old }
    {
        Ok(())
    }
}
