ghost use Rattle.std.specs.Prelude.{◌≡◌, ◌≤◌, ◌<◌, ℕ, List, [], ◌++◌, length, OnOk, IfOk, IfErr, Option, None, IfSome};
ghost use Rattle.shelf.specs.Told.{Holds};
ghost use Rattle.shelf.specs.Shown.{OnlyLoads};
ghost use Rattle.run_io.specs.Lists.{AllOf};
ghost use Rattle.snes_commands.specs.Kinds.{input_of, AreRefused};
ghost use Rattle.snes_commands.specs.Loads.{free_in, told_in, ShowsAccepted, EndsInput, EndsInputs};

use crate::free::free_of;
use crate::status::{Status, Why};
use run_io::{Word, input_name};
use shelf::{Input, LoadEnd, Shelf};
use snes_defs::NoMemory;
use std::alloc::Global;

/// Inputs that are loaded and accepted in their order, and what is read from them. A kind of input implements it, and
/// so does a pair of implementors, of which the first is loaded first.
pub trait Loads {
    ghost use Rattle.std.specs.Prelude.{ℕ, List, Option};
    ghost use Rattle.shelf.specs.declared.shelves.Input.{Input};

    type Value: Drop;

    // The inputs, in their order.
    ghost inputs: { List Input };

    // This is what is read of the bytes that are told of them.
    ghost reads: { (Input → Option (List ℕ)) → Self.Value → Type 0 };

    /// Loads the inputs under the names that the arguments give them. An input that they leave out has the free bytes.
    fn load<H: Shelf>(alloc: Global, pairs: &[Word], shelf: &mut H) -> Result<Self::Value, Status>
        ensures read { IfOk result (reads (told_in (H.shown shelf.old) pairs.now)) }
        ensures accepted { OnOk result (AllOf (ShowsAccepted (told_in (H.shown shelf.old) pairs.now)) inputs) }
        ensures ends { IfErr result (EndsInputs pairs.now (H.shown shelf.old) (H.shown shelf.new) inputs) }
        ensures only { OnlyLoads (H.shown shelf.old) (H.shown shelf.new) }
        ensures none { inputs ≡ [] → (H.shown shelf.new).load_faults ≡ (H.shown shelf.old).load_faults };
}

impl<A: Loads, B: Loads> Loads for (A, B) {
    type Value = (A::Value, B::Value);

    ghost inputs = { A.inputs ++ B.inputs };

    ghost reads = { λ told value. A.reads told value.0 × B.reads told value.1 };

    fn load<H: Shelf>(
        alloc: Global,
        pairs: &[Word],
        shelf: &mut H,
    ) -> Result<(A::Value, B::Value), Status> {
        let first = A::load(alloc, pairs, shelf)?;
        let then = B::load(alloc, pairs, shelf)?;
        Ok((first, then))
    }
}

/// No inputs.
impl Loads for () {
    ghost use Rattle.std.specs.Prelude.{[]};

    type Value = ();

    ghost inputs = { [] };

    ghost reads = { λ told value. Unit {0} };

    fn load<H: Shelf>(_alloc: Global, _pairs: &[Word], _shelf: &mut H) -> Result<(), Status> {
        Ok(())
    }
}

/// Loads a whole input, or returns the free bytes of one that the arguments leave out. If it is longer than its limit,
/// it is refused for this cause.
#[tactic(auto, using(crate::proofs::Loading::fetches))]
pub fn fetch<H: Shelf>(
    alloc: Global,
    shelf: &mut H,
    pairs: &[Word],
    input: Input,
    limit: usize,
    too_long: Why,
) -> Result<Vec<u8>, Status>
    requires of { input_of too_long ≡ input }
    requires longer { (bytes : List ℕ) → limit < length bytes → AreRefused bytes too_long }
    ensures whole { IfOk result (λ bytes. Holds (told_in (H.shown shelf.old) pairs.now input) bytes.items) }
    ensures within { IfOk result (λ bytes. length bytes.items ≤ limit) }
    ensures ends { IfErr result (λ status. EndsInput pairs.now (H.shown shelf.old) (H.shown shelf.new) status input) }
    ensures only { OnlyLoads (H.shown shelf.old) (H.shown shelf.new) }
{
    match free_of(alloc, pairs, input) {
        Ok(None) => fetch_held(alloc, shelf, pairs, input, limit, too_long),
        Ok(Some(bytes)) => {
            if bytes.len() > limit {
                Err(Status::Refused(too_long))
            } else {
                Ok(bytes)
            }
        }
        Err(NoMemory) => Err(Status::NoMemory),
    }
}

/// Loads a whole input that has no free bytes, or whose name the arguments give.
#[tactic(auto, using(crate::proofs::Loading::fetches_held))]
fn fetch_held<H: Shelf>(
    alloc: Global,
    shelf: &mut H,
    pairs: &[Word],
    input: Input,
    limit: usize,
    too_long: Why,
) -> Result<Vec<u8>, Status>
    requires held { free_in pairs.now input ≡ None }
    requires of { input_of too_long ≡ input }
    requires longer { (bytes : List ℕ) → limit < length bytes → AreRefused bytes too_long }
    ensures whole { IfOk result (λ bytes. Holds (told_in (H.shown shelf.old) pairs.now input) bytes.items) }
    ensures within { IfOk result (λ bytes. length bytes.items ≤ limit) }
    ensures ends { IfErr result (λ status. EndsInput pairs.now (H.shown shelf.old) (H.shown shelf.new) status input) }
    ensures only { OnlyLoads (H.shown shelf.old) (H.shown shelf.new) }
{
    let mut bytes = Vec::new(alloc);
    match shelf.load(input_name(pairs, input), limit, &mut bytes) {
        Ok(()) => Ok(bytes),
        Err(LoadEnd::Failed) => Err(Status::LoadFault(input)),
        Err(LoadEnd::TooLong) => Err(Status::Refused(too_long)),
        Err(LoadEnd::NoMemory) => Err(Status::NoMemory),
    }
}
