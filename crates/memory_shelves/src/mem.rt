ghost use Rattle.std.specs.Prelude.{◌≡◌, ℕ, ◌<◌, ◌≤◌, ◌↔◌, List, [], ◌∷◌, false, length, drop, Some, None, OnOk, OnErr, IfOk, IsOk, IsErr, IsErrOf, IsSomeAnd, IsTrue, vec_len};
ghost use Rattle.std.specs.Option.{ForSome};
ghost use Rattle.memory_shelves.specs.Memory.{fault_count, raised, faults_of, load_failing, loaded, created, filled, given, planned, empty_memory};
ghost use Rattle.memory_shelves.specs.Plan.{create_fails, put_fails};
ghost use Rattle.shelf.specs.Told.{HasRisen, Appends, AppendsSome};
ghost use Rattle.shelf.specs.Shown.{IsUntouched, IsCreated, OnlyCreates, OnlyPuts};
ghost use Rattle.shelf.specs.Counts.{count_of};
ghost use Rattle.memory_shelves.specs.Shelves.{shown_by_memory};
ghost use Rattle.memory_shelves.specs.Stored.{held_in, output_of};

use crate::plan::{Plan, ShelfCall};
use crate::store::Store;
use shelf::{Counts, Failed, LoadEnd, Out, Shelf};
use snes_defs::NoMemory;
use std::alloc::{AllocError, Global};
use std::marker::Model;

/// The faults of loads: a count for each file, in the order of the files, and one shared by all names that are not
/// held.
#[derive(Drop)]
struct LoadFaults {
    held: Vec<u64>,
    shared: u64,
}

impl Model for LoadFaults {
    ghost use Rattle.memory_shelves.specs.Memory.{LoadFaults as Faults};

    ghost Value = { Faults };

    ghost view = { λ f. record { held = f.held.items; shared = f.shared } };
}

impl LoadFaults {
    fn of(&self, place: Option<usize>) -> u64
        requires within { ForSome place (λ i. i < length self.now.held) }
        ensures count { result ≡ fault_count self.now place }
    {
        match place {
            None => self.shared,
            Some(i) => self.held[i],
        }
    }

    fn raise(&mut self, place: Option<usize>)
        requires within { ForSome place (λ i. i < length self.old.held) }
        ensures raised { self.new ≡ raised self.old place }
    {
        match place {
            None => self.shared = self.shared.saturating_add(1),
            Some(i) => self.held[i] = self.held[i].saturating_add(1),
        }
    }

    fn insert(&mut self, count: u64) -> Result<(), AllocError>
        ensures ok { OnOk result (self.new ≡ record self.old { held = count ∷ self.old.held }) }
        ensures err { OnErr result (self.new ≡ self.old) }
    {
        self.held.insert(0, count)?;
        Ok(())
    }

    fn remove_first(&mut self)
        requires some { 0 < length self.old.held }
        ensures rest { self.new ≡ record self.old { held = drop 1 self.old.held } }
    {
        self.held.remove(0);
    }
}

/// A shelf in memory whose calls fail when planned.
///
/// A load, a create or a put fails if and only if that was planned. A load also fails if no file of that name is held.
/// A call that fails changes no output. The shelf keeps the first `room` bytes of each output, and shows what was
/// written as long as no more were put.
#[derive(Drop)]
pub struct MemShelf {
    store: Store,
    plan: Plan,
    load_faults: LoadFaults,
    write_faults: Counts,
}

impl Model for MemShelf {
    ghost use Rattle.std.specs.Prelude.{◌≡◌, length};
    ghost use Rattle.memory_shelves.specs.Memory.{Memory};

    ghost Value = { Memory };

    ghost view = { λ s. record { stored = s.store; plan = s.plan; load_faults = s.load_faults; write_faults = s.write_faults } };

    ghost invariant = { λ s. length s.load_faults.held ≡ length s.store.files };
}

impl MemShelf {
    /// A shelf that holds nothing, with no failure planned and all counts 0. It allocates `room` bytes and a name for
    /// each output.
    pub fn new(alloc: Global, room: usize) -> Result<MemShelf, NoMemory>
        ensures empty { IfOk result (λ shelf. shelf ≡ empty_memory room) }
    {
        let Ok(store) = Store::new(alloc, room) else {
            return Err(NoMemory);
        };
        Ok(MemShelf {
            store,
            plan: Plan::new(alloc),
            load_faults: LoadFaults {
                held: Vec::new(alloc),
                shared: 0,
            },
            write_faults: Counts::new(),
        })
    }

    /// Gives the shelf a file, which replaces any former one of that name. Its count of faults begins at that of its
    /// name.
    pub fn hold(&mut self, name: &str, bytes: &[u8]) -> Result<(), NoMemory>
        ensures ok { OnOk result (self.new ≡ given self.old name.now bytes.now) }
        ensures err { OnErr result (self.new ≡ self.old) }
    {
        let count = self.load_faults.of(self.store.place(name));
        if self.load_faults.insert(count).is_err() {
            return Err(NoMemory);
        }
        if self.store.hold(name, bytes).is_err() {
            self.load_faults.remove_first();
            return Err(NoMemory);
        }
        Ok(())
    }

    /// Plans that the nth call of this kind fails, counted from 1. All calls count, also those made before.
    pub fn fail(&mut self, call: ShelfCall, nth: u32) -> Result<(), NoMemory>
        ensures ok { OnOk result (self.new ≡ planned self.old call nth) }
        ensures err { OnErr result (self.new ≡ self.old) }
    {
        match self.plan.fail(call, nth) {
            Ok(()) => Ok(()),
            Err(_) => Err(NoMemory),
        }
    }

    /// The first `room` bytes that were put to an output since it was created.
    pub fn written(&self, out: Out) -> &[u8]
        ensures kept { result.now ≡ (output_of self.now.stored out).bytes }
    {
        self.store.written(out)
    }

    /// The name of an output, empty before its first `create`.
    pub fn named(&self, out: Out) -> &str
        ensures name { result.now ≡ (output_of self.now.stored out).name }
    {
        self.store.named(out)
    }
}

impl Shelf for MemShelf {
    ghost shown = { shown_by_memory };

    fn load(&mut self, name: &str, limit: usize, into: &mut Vec<u8>) -> Result<(), LoadEnd>
        requires { into.old.items ≡ [] }
        ensures whole { OnOk result (held_in self.old.stored.files name.now ≡ Some into.new.items) }
        ensures within { OnOk result (vec_len into.new ≤ limit) }
        ensures failed { IsErrOf result LoadEnd.Failed ↔ IsTrue (load_failing self.old name.now) }
        ensures too_long { IsErrOf result LoadEnd.TooLong ↔ ((load_failing self.old name.now ≡ false)
            × IsSomeAnd (held_in self.old.stored.files name.now) (λ bytes. limit < length bytes)) }
        ensures after { self.new ≡ loaded self.old name.now }
        ensures counted { IsErrOf result LoadEnd.Failed → HasRisen (faults_of self.old name.now) (faults_of self.new name.now) }
        ensures no_count_falls { (any : List ℕ) → faults_of self.old any ≤ faults_of self.new any }
    {
        let fails = self.plan.load();
        let bytes = match self.store.held(name) {
            Some(bytes) if !fails => bytes,
            _ => {
                self.load_faults.raise(self.store.place(name));
                return Err(LoadEnd::Failed);
            }
        };
        if bytes.len() > limit {
            return Err(LoadEnd::TooLong);
        }
        match into.extend_from_slice(bytes) {
            Ok(()) => Ok(()),
            Err(_) => Err(LoadEnd::NoMemory),
        }
    }

    fn create(&mut self, out: Out, name: &str) -> Result<(), Failed>
        requires not_empty { 0 < length name.now }
        requires fits { length name.now ≤ 4096 }
        ensures failed { IsErr result ↔ IsTrue (create_fails self.old.plan) }
        ensures after { self.new ≡ created self.old out name.now }
        ensures created { OnOk result (IsCreated (shown_by_memory self.new) out name.now) }
        ensures risen { OnErr result (HasRisen (count_of self.old.write_faults out) (count_of self.new.write_faults out)) }
        ensures untouched { OnErr result (IsUntouched (shown_by_memory self.old) (shown_by_memory self.new) out) }
        ensures only { OnlyCreates (shown_by_memory self.old) (shown_by_memory self.new) out }
    {
        if self.plan.create() {
            self.write_faults.raise(out);
            return Err(Failed);
        }
        self.store.create(out, name);
        Ok(())
    }

    fn put(&mut self, out: Out, bytes: &[u8]) -> Result<(), Failed>
        ensures failed { IsErr result ↔ IsTrue (put_fails self.old.plan out) }
        ensures after { self.new ≡ filled self.old out bytes.now }
        ensures appended { OnOk result (Appends ((shown_by_memory self.old).written out) ((shown_by_memory self.new).written out) bytes.now) }
        ensures risen { OnErr result (HasRisen (count_of self.old.write_faults out) (count_of self.new.write_faults out)) }
        ensures prefix { OnErr result (AppendsSome ((shown_by_memory self.old).written out) ((shown_by_memory self.new).written out) bytes.now) }
        ensures only { OnlyPuts (shown_by_memory self.old) (shown_by_memory self.new) out }
    {
        if self.plan.put(out) {
            self.write_faults.raise(out);
            return Err(Failed);
        }
        self.store.put(out, bytes);
        Ok(())
    }

    fn flush(&mut self, _out: Out) -> Result<(), Failed>
        ensures ok { IsOk result }
        ensures same { self.new ≡ self.old }
    {
        Ok(())
    }
}
