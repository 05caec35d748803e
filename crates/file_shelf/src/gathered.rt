ghost use Rattle.std.specs.Prelude.{◌≡◌, ℕ, ◌+◌, ◌<◌, ◌≤◌, ◌++◌, List, [], length, take, drop, OnOk, OnErr};

use shelf::Failed;
use std::marker::Model;

/// How many bytes are gathered before they are written: 16 rows of a frame.
const MOST_GATHERED: usize = 16_384;

/// Bytes waiting to be written, in the order in which they came. Once written they are dropped by their count alone.
/// Zeroing 16 KiB at every write of 16 rows would be a tenth of the cost of an idle program.
#[derive(Drop)]
pub(crate) struct Gathered {
    bytes: [u8; MOST_GATHERED],
    count: usize,
}

impl Model for Gathered {
    ghost Value = { List ℕ };

    ghost view = { λ g. take g.count g.bytes };

    ghost invariant = { λ g. g.count ≤ 16384 };
}

impl Gathered {
    /// No bytes yet.
    pub(crate) fn new() -> Gathered
        ensures { result ≡ [] }
    {
        Gathered {
            bytes: [0; MOST_GATHERED],
            count: 0,
        }
    }

    /// All pending bytes.
    pub(crate) fn as_slice(&self) -> &[u8]
        ensures { result.now ≡ self.now }
    {
        &self.bytes[..self.count]
    }

    /// Appends bytes to those that are pending. Fails if and only if there is no room for them.
    #[tactic(auto, using(crate::proofs::GatheredLemmas::behind))]
    pub(crate) fn add(&mut self, bytes: &[u8]) -> Result<(), Failed>
        ensures added { OnOk result (self.new ≡ self.old ++ bytes.now) }
        ensures room { OnOk result (length self.old + length bytes.now ≤ 16384) }
        ensures full { OnErr result (16384 < length self.old + length bytes.now) }
        ensures stays { OnErr result (self.new ≡ self.old) }
    {
        if bytes.len() > MOST_GATHERED - self.count {
            return Err(Failed);
        }
        let end = self.count + bytes.len();
        self.bytes[self.count..end].copy_from_slice(bytes);
        self.count = end;
        Ok(())
    }

    /// Drops all bytes.
    pub(crate) fn clear(&mut self)
        ensures { self.new ≡ [] }
    {
        self.count = 0;
    }

    /// Drops the first `count` bytes.
    pub(crate) fn forget_first(&mut self, count: usize)
        requires { count ≤ length self.old }
        ensures { self.new ≡ drop count self.old }
    {
        self.bytes.copy_within(count..self.count, 0);
        self.count -= count;
    }
}
