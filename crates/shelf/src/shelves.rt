ghost use Rattle.std.specs.Prelude.{◌≡◌, ◌+◌, ◌<◌, ◌≤◌, [], length, vec_len, OnOk, OnErr, IfSome, IsErrOf};
ghost use Rattle.shelf.specs.Told.{Holds, Appends, AppendsSome, HasRisen};
ghost use Rattle.shelf.specs.Shown.{Shown, IsUntouched, IsCreated, OnlyLoads, OnlyCreates, OnlyPuts};

/// The kinds of files that the program loads.
#[derive(Clone, Copy, PartialEq, Eq)]
pub enum Input {
    /// The cartridge.
    Cart,
    /// The boot ROM of the sound side.
    Boot,
    /// The sound file that is played.
    Spc,
    /// The interpolation table of the S-DSP.
    Table,
    /// The script of pads.
    Script,
    /// The plan of a rewinder.
    Plan,
    /// The sums that a run is compared with.
    Sums,
}

/// The seven places that the program writes to.
#[derive(Clone, Copy, PartialEq, Eq)]
pub enum Out {
    /// The frames of a run.
    Video,
    /// The samples of a run, or of a sound file.
    Sound,
    /// A cartridge that the program makes.
    Image,
    /// The sums of the frames of a run.
    Sums,
    /// Registers and memories at the end of a run.
    State,
    /// The sound file of the end of a run.
    Spc,
    /// The line for the user, standard output.
    Say,
}

/// Why a file was not loaded.
#[derive(Clone, Copy, PartialEq, Eq)]
pub enum LoadEnd {
    /// The shelf failed, and counted a fault of that name.
    Failed,
    /// More bytes are held than the limit allows.
    TooLong,
    /// The allocation for the bytes failed.
    NoMemory,
}

/// A failure of the shelf to write, which it counted as a fault of that output.
#[derive(Clone, Copy, Debug, PartialEq, Eq)]
pub struct Failed;

/// A shelf of files: named files that can be loaded, and seven outputs that can be written.
///
/// Contracts see what a shelf holds and what was written as far as the shelf shows it. One in memory does; one over
/// real files shows nothing. Each shelf shows how many of the bytes that were put to an output are not yet written.
/// These are the last ones: the output has all before them, and never loses one.
///
/// Each shelf counts its faults, so every failure that it returns has a cause which the program cannot make up. A
/// count of 2^64 - 1 stays there.
pub trait Shelf {
    // All that the shelf shows.
    ghost shown: { Self → Shown };

    /// Loads the whole file of that name, of at most `limit` bytes, into `into`.
    fn load(&mut self, name: &str, limit: usize, into: &mut Vec<u8>) -> Result<(), LoadEnd>
        requires { into.old.items ≡ [] }
        ensures whole { OnOk result (Holds ((shown self.old).held name.now) into.new.items) }
        ensures within { OnOk result (vec_len into.new ≤ limit) }
        ensures too_long { IsErrOf result LoadEnd.TooLong → IfSome ((shown self.old).held name.now) (λ bytes. limit < length bytes) }
        ensures failed { IsErrOf result LoadEnd.Failed → HasRisen ((shown self.old).load_faults name.now) ((shown self.new).load_faults name.now) }
        ensures only { OnlyLoads (shown self.old) (shown self.new) };

    /// Empties an output and gives it this name. `Out::Say` needs no such call.
    fn create(&mut self, out: Out, name: &str) -> Result<(), Failed>
        requires not_empty { 0 < length name.now }
        requires fits { length name.now ≤ 4096 }
        ensures created { OnOk result (IsCreated (shown self.new) out name.now) }
        ensures failed { OnErr result (HasRisen ((shown self.old).write_faults out) ((shown self.new).write_faults out)) }
        ensures untouched { OnErr result (IsUntouched (shown self.old) (shown self.new) out) }
        ensures only { OnlyCreates (shown self.old) (shown self.new) out };

    /// Appends these bytes to what was put to an output. Some may be held back, and be written later.
    fn put(&mut self, out: Out, bytes: &[u8]) -> Result<(), Failed>
        ensures appended { OnOk result (Appends ((shown self.old).written out) ((shown self.new).written out) bytes.now) }
        ensures failed { OnErr result (HasRisen ((shown self.old).write_faults out) ((shown self.new).write_faults out)) }
        ensures prefix { OnErr result (AppendsSome ((shown self.old).written out) ((shown self.new).written out) bytes.now) }
        ensures held_back { OnOk result ((shown self.new).unwritten out ≤ (shown self.old).unwritten out + length bytes.now) }
        ensures no_more_held_back { OnErr result ((shown self.new).unwritten out ≤ (shown self.old).unwritten out) }
        ensures only { OnlyPuts (shown self.old) (shown self.new) out };

    /// Writes the bytes of an output that the shelf still holds back, after the last put to it.
    fn flush(&mut self, out: Out) -> Result<(), Failed>
        ensures written { (shown self.new).written ≡ (shown self.old).written }
        ensures whole { OnOk result ((shown self.new).unwritten out ≡ 0) }
        ensures no_more_held_back { OnErr result ((shown self.new).unwritten out ≤ (shown self.old).unwritten out) }
        ensures failed { OnErr result (HasRisen ((shown self.old).write_faults out) ((shown self.new).write_faults out)) }
        ensures only { OnlyPuts (shown self.old) (shown self.new) out };
}
