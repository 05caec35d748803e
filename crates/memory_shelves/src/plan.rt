ghost use Rattle.std.specs.Prelude.{◌≡◌, ◌++◌, ◌∷◌, [], OnOk, OnErr};
ghost use Rattle.memory_shelves.specs.Plan.{nothing_planned, same_call, is_failure, load_fails, create_fails, put_fails, after_load, after_create, after_put};
ghost use Rattle.shelf.specs.Outs.{same_out};

use shelf::{Counts, Out};
use std::alloc::{AllocError, Global};
use std::marker::Model;

/// A kind of call of a shelf.
#[derive(Clone, Copy)]
pub enum ShelfCall {
    /// A load of any name.
    Load,
    /// A create of any output.
    Create,
    /// A put on this output, or on any.
    Put(Option<Out>),
}

/// A plan that the nth call of this kind, from 1, fails.
#[derive(Clone, Copy)]
pub(crate) struct Failure {
    call: ShelfCall,
    nth: u32,
}

/// Which calls are to fail, and the calls made so far.
#[derive(Drop)]
pub(crate) struct Plan {
    failures: Vec<Failure>,
    loads: u64,
    creates: u64,
    puts: u64,
    own_puts: Counts,
}

impl Model for Plan {
    ghost use Rattle.memory_shelves.specs.Plan.{Planned};

    ghost Value = { Planned };

    ghost view = { λ p. record { failures = p.failures.items; loads = p.loads; creates = p.creates; puts = p.puts; own_puts = p.own_puts } };
}

impl Plan {
    pub(crate) fn new(alloc: Global) -> Plan
        ensures none { result ≡ nothing_planned }
    {
        Plan {
            failures: Vec::new(alloc),
            loads: 0,
            creates: 0,
            puts: 0,
            own_puts: Counts::new(),
        }
    }

    pub(crate) fn fail(&mut self, call: ShelfCall, nth: u32) -> Result<(), AllocError>
        ensures ok { OnOk result (self.new ≡ record self.old { failures = self.old.failures ++ record { call = call; nth = nth } ∷ [] }) }
        ensures err { OnErr result (self.new ≡ self.old) }
    {
        self.failures.push(Failure { call, nth })?;
        Ok(())
    }

    /// Counts a load, and returns whether it is to fail.
    pub(crate) fn load(&mut self) -> bool
        ensures fails { result ≡ load_fails self.old }
        ensures after { self.new ≡ after_load self.old }
    {
        self.loads = self.loads.saturating_add(1);
        is_planned(self.failures.as_slice(), ShelfCall::Load, self.loads)
    }

    /// Counts a create, and returns whether it is to fail.
    pub(crate) fn create(&mut self) -> bool
        ensures fails { result ≡ create_fails self.old }
        ensures after { self.new ≡ after_create self.old }
    {
        self.creates = self.creates.saturating_add(1);
        is_planned(self.failures.as_slice(), ShelfCall::Create, self.creates)
    }

    /// Counts a put on an output, and returns whether it is to fail.
    pub(crate) fn put(&mut self, out: Out) -> bool
        ensures fails { result ≡ put_fails self.old out }
        ensures after { self.new ≡ after_put self.old out }
    {
        self.puts = self.puts.saturating_add(1);
        self.own_puts.raise(out);
        is_planned(self.failures.as_slice(), ShelfCall::Put(None), self.puts)
            || is_planned(
                self.failures.as_slice(),
                ShelfCall::Put(Some(out)),
                self.own_puts.of(out),
            )
    }
}

fn is_planned(failures: &[Failure], call: ShelfCall, nth: u64) -> bool
    ensures planned { result ≡ is_failure failures.now call nth }
{
    failures.iter().any(|failure| is_same_call(failure.call, call) && u64::from(failure.nth) == nth)
}

fn is_same_call(call: ShelfCall, other: ShelfCall) -> bool
    ensures same { result ≡ same_call call other }
{
    match (call, other) {
        (ShelfCall::Load, ShelfCall::Load) => true,
        (ShelfCall::Create, ShelfCall::Create) => true,
        (ShelfCall::Put(None), ShelfCall::Put(None)) => true,
        (ShelfCall::Put(Some(out)), ShelfCall::Put(Some(other))) => is_same_out(out, other),
        _ => false,
    }
}

fn is_same_out(out: Out, other: Out) -> bool
    ensures same { result ≡ same_out out other }
{
    match (out, other) {
        (Out::Video, Out::Video) => true,
        (Out::Sound, Out::Sound) => true,
        (Out::Image, Out::Image) => true,
        (Out::Sums, Out::Sums) => true,
        (Out::State, Out::State) => true,
        (Out::Spc, Out::Spc) => true,
        (Out::Say, Out::Say) => true,
        _ => false,
    }
}
