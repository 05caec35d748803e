ghost use Rattle.std.specs.Prelude.{◌≡◌, ◌≢◌, ◌<◌, ◌≤◌, ◌+◌, [], length, vec_len, OnOk, OnErr, IfSome, IsErrOf};
ghost use Rattle.std.specs.Io.KnownBytes.{Appends as AppendsKnown, Keeps};
ghost use Rattle.file_shelf.specs.Given.{held_after};
ghost use Rattle.file_shelf.specs.Shelves.{shown_by_files};
ghost use Rattle.shelf.specs.Shown.{IsUntouched, IsCreated, OnlyCreates, OnlyLoads, OnlyPuts};
ghost use Rattle.shelf.specs.Told.{Holds, Appends, AppendsSome, HasRisen};
ghost use Rattle.shelf.specs.Counts.{next, count_of};
ghost use Rattle.file_shelf.specs.Edge.{new_edge, kept_of, kept_in, faulted, IsNew, Took, TookSome, Wrote, WroteSome};

use crate::buffered::{Buffered, write_whole};
use crate::cause::Cause;
use crate::known::{Identity, KnownFiles};
use crate::opened::{create_apart, identity_at, open_known};
use shelf::{Counts, Failed, LoadEnd, Out, Shelf};
use std::io::{self, Read, Write};
use std::marker::Model;
use std::rt::Files;

/// How many bytes one read asks for.
const READ: usize = 8192;

/// The shelf over real files, with standard output as `Out::Say`: the edge of what is proved.
///
/// It shows nothing of what it holds or has written. It counts the faults of all names together, and those of each
/// output. Every error of the system is a fault, and so is a write that takes nothing. A run comes in many small
/// puts, so the bytes of a file are gathered before they are written. After a fault an output takes nothing until it
/// is created again.
///
/// An output is refused, before anything of it is lost, if it is a regular file already in use, whatever its names.
/// In use is a file that was loaded, that another output is written to, or that standard output or standard error
/// goes to. A terminal, a pipe or a device is never refused.
#[derive(Drop)]
pub struct FileShelf<'a, R: Files + Print> {
    rt: &'a R,
    video: Option<Buffered<R::File>>,
    sound: Option<Buffered<R::File>>,
    image: Option<Buffered<R::File>>,
    sums: Option<Buffered<R::File>>,
    state: Option<Buffered<R::File>>,
    spc: Option<Buffered<R::File>>,
    load_faults: u64,
    write_faults: Counts,
    known: KnownFiles,
    first_fault: Option<Cause>,
}

impl<'a, R: Files + Print> Model for FileShelf<'a, R> {
    ghost use Rattle.file_shelf.specs.Edge.{Edge, kept_of};

    ghost Value = { Edge };

    ghost view = { λ s. record { loads = s.load_faults; writes = s.write_faults; video = kept_of R.File.contents s.video; sound = kept_of R.File.contents s.sound; image = kept_of R.File.contents s.image; sums = kept_of R.File.contents s.sums; state = kept_of R.File.contents s.state; spc = kept_of R.File.contents s.spc } };
}

impl<'a, R: Files + Print> FileShelf<'a, R> {
    /// A shelf over the files of this runtime, with all counts 0.
    pub fn new(rt: &'a R) -> FileShelf<'a, R>
        ensures new { result ≡ new_edge }
    {
        FileShelf {
            rt,
            video: None,
            sound: None,
            image: None,
            sums: None,
            state: None,
            spc: None,
            load_faults: 0,
            write_faults: Counts::new(),
            known: KnownFiles::of_streams(
                identity_at(rt, "/dev/stdout"),
                identity_at(rt, "/dev/stderr"),
            ),
            first_fault: None,
        }
    }

    /// The cause of the first call that failed, for the user.
    pub fn first_fault(&self) -> Option<Cause> {
        self.first_fault
    }

    /// Counts a fault of a load.
    fn count_load(&mut self, cause: Cause)
        ensures { self.new ≡ record self.old { loads = next self.old.loads } }
    {
        self.load_faults = self.load_faults.saturating_add(1);
        self.first_fault = self.first_fault.or(Some(cause));
    }

    /// Notes a file that was loaded.
    fn note_loaded(&mut self, file: Option<Identity>)
        ensures { self.new ≡ self.old }
    {
        self.known.add_loaded(file);
    }

    /// Counts a fault of an output.
    fn count_write(&mut self, out: Out, cause: Cause)
        ensures { self.new ≡ faulted self.old out }
    {
        self.write_faults.raise(out);
        self.first_fault = self.first_fault.or(Some(cause));
    }

    /// Puts bytes to an output, and counts nothing.
    fn put_to(&mut self, out: Out, bytes: &[u8]) -> Result<(), Cause>
        ensures took { OnOk result (Took (kept_in self.old out) (kept_in self.new out) bytes.now) }
        ensures unwritten { OnOk result (out ≢ Out.Say → (kept_in self.new out).unwritten ≡ held_after (kept_in self.old out).unwritten (length bytes.now)) }
        ensures some { OnErr result (out ≢ Out.Say → TookSome (kept_in self.old out) (kept_in self.new out) bytes.now) }
        ensures no_more_held_back { OnErr result ((kept_in self.new out).unwritten ≤ (kept_in self.old out).unwritten) }
        ensures loads { self.new.loads ≡ self.old.loads }
        ensures writes { self.new.writes ≡ self.old.writes }
        ensures others { (other : Out) → other ≢ out → kept_in self.new other ≡ kept_in self.old other }
    {
        match out {
            Out::Video => put_created(&mut self.video, bytes),
            Out::Sound => put_created(&mut self.sound, bytes),
            Out::Image => put_created(&mut self.image, bytes),
            Out::Sums => put_created(&mut self.sums, bytes),
            Out::State => put_created(&mut self.state, bytes),
            Out::Spc => put_created(&mut self.spc, bytes),
            Out::Say => say(self.rt, bytes),
        }
    }
}

impl<R: Files + Print> Shelf for FileShelf<'_, R> {
    ghost shown = { shown_by_files };

    fn load(&mut self, name: &str, limit: usize, into: &mut Vec<u8>) -> Result<(), LoadEnd>
        requires { into.old.items ≡ [] }
        ensures within { OnOk result (vec_len into.new ≤ limit) }
        ensures failed { IsErrOf result LoadEnd.Failed → HasRisen self.old.loads self.new.loads }
        ensures no_count_falls { self.old.loads ≤ self.new.loads }
        ensures outputs { self.new ≡ record self.old { loads = self.new.loads } }
        ensures whole { OnOk result (Holds ((shown_by_files self.old).held name.now) into.new.items) }
        ensures only { OnlyLoads (shown_by_files self.old) (shown_by_files self.new) }
    {
        let (mut file, identity) = match open_known(self.rt, name) {
            Ok(opened) => opened,
            Err(cause) => {
                self.count_load(cause);
                return Err(LoadEnd::Failed);
            }
        };
        match read_whole(&mut file, limit, into) {
            Ok(()) => {
                self.note_loaded(identity);
                Ok(())
            }
            Err(ReadEnd::Fault(kind)) => {
                self.count_load(Cause::System(kind));
                Err(LoadEnd::Failed)
            }
            Err(ReadEnd::TooLong) => Err(LoadEnd::TooLong),
            Err(ReadEnd::NoMemory) => Err(LoadEnd::NoMemory),
        }
    }

    fn create(&mut self, out: Out, name: &str) -> Result<(), Failed>
        requires not_empty { 0 < length name.now }
        requires fits { length name.now ≤ 4096 }
        ensures created { OnOk result (IsNew (kept_in self.new out)) }
        ensures no_fault { OnOk result (self.new.writes ≡ self.old.writes) }
        ensures faulted { OnErr result (self.new ≡ faulted self.old out) }
        ensures loads { self.new.loads ≡ self.old.loads }
        ensures others { (other : Out) → other ≢ out → kept_in self.new other ≡ kept_in self.old other }
        ensures is_created { OnOk result (IsCreated (shown_by_files self.new) out name.now) }
        ensures risen { OnErr result (HasRisen (count_of self.old.writes out) (count_of self.new.writes out)) }
        ensures untouched { OnErr result (IsUntouched (shown_by_files self.old) (shown_by_files self.new) out) }
        ensures only { OnlyCreates (shown_by_files self.old) (shown_by_files self.new) out }
    {
        let (file, identity) = match create_apart(self.rt, &self.known, out, name) {
            Ok(created) => created,
            Err(cause) => {
                self.count_write(out, cause);
                return Err(Failed);
            }
        };
        self.known.set_created(out, identity);
        match out {
            Out::Video => self.video = Some(Buffered::new(file)),
            Out::Sound => self.sound = Some(Buffered::new(file)),
            Out::Image => self.image = Some(Buffered::new(file)),
            Out::Sums => self.sums = Some(Buffered::new(file)),
            Out::State => self.state = Some(Buffered::new(file)),
            Out::Spc => self.spc = Some(Buffered::new(file)),
            Out::Say => {}
        }
        Ok(())
    }

    fn put(&mut self, out: Out, bytes: &[u8]) -> Result<(), Failed>
        ensures took { OnOk result (Took (kept_in self.old out) (kept_in self.new out) bytes.now) }
        ensures unwritten { OnOk result (out ≢ Out.Say → (kept_in self.new out).unwritten ≡ held_after (kept_in self.old out).unwritten (length bytes.now)) }
        ensures some { OnErr result (out ≢ Out.Say → TookSome (kept_in self.old out) (kept_in self.new out) bytes.now) }
        ensures no_fault { OnOk result (self.new.writes ≡ self.old.writes) }
        ensures fault { OnErr result (self.new.writes ≡ (faulted self.old out).writes) }
        ensures loads { self.new.loads ≡ self.old.loads }
        ensures others { (other : Out) → other ≢ out → kept_in self.new other ≡ kept_in self.old other }
        ensures risen { OnErr result (HasRisen (count_of self.old.writes out) (count_of self.new.writes out)) }
        ensures appended { OnOk result (Appends ((shown_by_files self.old).written out) ((shown_by_files self.new).written out) bytes.now) }
        ensures prefix { OnErr result (AppendsSome ((shown_by_files self.old).written out) ((shown_by_files self.new).written out) bytes.now) }
        ensures held_back { OnOk result ((kept_in self.new out).unwritten ≤ (kept_in self.old out).unwritten + length bytes.now) }
        ensures no_more_held_back { OnErr result ((kept_in self.new out).unwritten ≤ (kept_in self.old out).unwritten) }
        ensures only { OnlyPuts (shown_by_files self.old) (shown_by_files self.new) out }
    {
        match self.put_to(out, bytes) {
            Ok(()) => Ok(()),
            Err(cause) => {
                self.count_write(out, cause);
                Err(Failed)
            }
        }
    }

    fn flush(&mut self, out: Out) -> Result<(), Failed>
        ensures wrote { OnOk result (Wrote (kept_in self.old out) (kept_in self.new out)) }
        ensures some { OnErr result (WroteSome (kept_in self.old out) (kept_in self.new out)) }
        ensures whole { OnOk result ((kept_in self.new out).unwritten ≡ 0) }
        ensures no_more_held_back { OnErr result ((kept_in self.new out).unwritten ≤ (kept_in self.old out).unwritten) }
        ensures no_fault { OnOk result (self.new.writes ≡ self.old.writes) }
        ensures fault { OnErr result (self.new.writes ≡ (faulted self.old out).writes) }
        ensures loads { self.new.loads ≡ self.old.loads }
        ensures others { (other : Out) → other ≢ out → kept_in self.new other ≡ kept_in self.old other }
        ensures risen { OnErr result (HasRisen (count_of self.old.writes out) (count_of self.new.writes out)) }
        ensures only { OnlyPuts (shown_by_files self.old) (shown_by_files self.new) out }
    {
        let end = match out {
            Out::Video => flush_created(&mut self.video),
            Out::Sound => flush_created(&mut self.sound),
            Out::Image => flush_created(&mut self.image),
            Out::Sums => flush_created(&mut self.sums),
            Out::State => flush_created(&mut self.state),
            Out::Spc => flush_created(&mut self.spc),
            Out::Say => Ok(()),
        };
        match end {
            Ok(()) => Ok(()),
            Err(cause) => {
                self.count_write(out, cause);
                Err(Failed)
            }
        }
    }
}

/// Why a file was not read whole.
#[derive(Clone, Copy)]
enum ReadEnd {
    Fault(io::ErrorKind),
    TooLong,
    NoMemory,
}

/// Reads all that is left, up to a read that gives nothing.
fn read_whole<F: Read>(file: &mut F, limit: usize, into: &mut Vec<u8>) -> Result<(), ReadEnd>
    requires { into.old.items ≡ [] }
    ensures whole { OnOk result (IfSome (F.remaining file.old) (λ bytes. into.new.items ≡ bytes)) }
    ensures within { OnOk result (vec_len into.new ≤ limit) }
    ensures too_long { IsErrOf result ReadEnd.TooLong → IfSome (F.remaining file.old) (λ bytes. limit < length bytes) }
{
    let mut part = [0u8; READ];
    loop {
        let count = match file.read(&mut part) {
            Ok(count) => count,
            Err(error) => return Err(ReadEnd::Fault(error.kind())),
        };
        if count == 0 {
            return Ok(());
        }
        if count > limit - into.len() {
            return Err(ReadEnd::TooLong);
        }
        if into.extend_from_slice(&part[..count]).is_err() {
            return Err(ReadEnd::NoMemory);
        }
    }
}

/// Writes to standard output immediately.
fn say<R: Print>(rt: &R, bytes: &[u8]) -> Result<(), Cause> {
    match write_whole(&mut io::writer(rt), bytes) {
        Ok(()) => Ok(()),
        Err(stopped) => Err(stopped.cause),
    }
}

/// Puts to an output, which takes bytes from its creation to a fault.
fn put_created<F: Write + Drop>(file: &mut Option<Buffered<F>>, bytes: &[u8]) -> Result<(), Cause>
    ensures took { OnOk result (Took (kept_of F.contents file.old) (kept_of F.contents file.new) bytes.now) }
    ensures unwritten { OnOk result ((kept_of F.contents file.new).unwritten ≡ held_after (kept_of F.contents file.old).unwritten (length bytes.now)) }
    ensures some { OnErr result (TookSome (kept_of F.contents file.old) (kept_of F.contents file.new) bytes.now) }
{
    match file {
        Some(file) => file.put(bytes),
        None => Err(Cause::Closed),
    }
}

/// Writes what is held back of an output that was created.
fn flush_created<F: Write + Drop>(file: &mut Option<Buffered<F>>) -> Result<(), Cause>
    ensures wrote { OnOk result (Wrote (kept_of F.contents file.old) (kept_of F.contents file.new)) }
    ensures some { OnErr result (WroteSome (kept_of F.contents file.old) (kept_of F.contents file.new)) }
{
    match file {
        Some(file) => file.flush(),
        None => Err(Cause::Closed),
    }
}
