use crate::program::answer::answer;
use crate::program::files::Files;
use memory_shelves::{MemShelf, ShelfCall, SureShelf};
use port_wire::{Gate, OpenGate};
use run_io::Argv;
use shelf::Out;
use snes_commands::Status;
use std::alloc::Global;
use std::str;
use std::thread::Threads;

/// What is printed of a row whose line is invalid, or for which allocation failed.
pub const NO_ROW: &str = "no memory, or no row";

/// A planned failure: the nth call of this kind fails.
#[derive(Clone, Copy)]
pub struct Failure {
    /// The kind of call.
    pub call: ShelfCall,
    /// The number of the call, from 1.
    pub nth: u32,
}

/// The settings of rows: their files, how many bytes a shelf keeps of each output, and the failures of the next row.
#[derive(Drop)]
pub struct Rows {
    /// The files that rows may name.
    pub files: Files,
    room: usize,
    failures: Vec<Failure>,
}

/// The status that the program returned, and the shelf that it left. A function that owns one has one end and lends it
/// to others, since a proof reads all that is dropped again at each end.
#[derive(Drop)]
pub struct Outcome {
    /// The status that the program returned.
    pub status: Status,
    /// The shelf that the program left.
    pub shelf: MemShelf,
}

impl Rows {
    /// Returns settings without files, room and failures.
    pub fn new(alloc: Global) -> Rows {
        Rows {
            files: Files::new(alloc),
            room: 0,
            failures: Vec::new(alloc),
        }
    }

    /// Begins another file of rows, of which no line was followed.
    pub fn begin(&mut self, alloc: Global) {
        *self = Rows::new(alloc);
    }

    /// Follows a line that says what rows are run with.
    pub fn line(&mut self, line: &str) -> Option<()> {
        if let Some(count) = line.strip_prefix("room ") {
            self.room = count.parse().ok()?;
            return Some(());
        }
        match line.strip_prefix("fail ") {
            Some(failure) => self.failures.push(failure_of(failure)?).ok(),
            None => self.files.line(line),
        }
    }

    /// Forgets the failures.
    pub fn mend(&mut self) {
        self.failures.clear();
    }

    /// Gives a shelf the files that the arguments name, the planned failures, and the one given here.
    fn fill(&self, shelf: &mut MemShelf, words: &str, here: Option<Failure>) -> Option<()> {
        for word in words.split(' ') {
            if let Some(bytes) = self.files.find(word) {
                shelf.hold(word, bytes).ok()?;
            }
        }
        for failure in self.failures.as_slice() {
            shelf.fail(failure.call, failure.nth).ok()?;
        }
        if let Some(failure) = here {
            shelf.fail(failure.call, failure.nth).ok()?;
        }
        Some(())
    }

    /// Returns a shelf with the files that the arguments name, which fails as planned and as given here.
    fn shelf(&self, alloc: Global, words: &str, here: Option<Failure>) -> Option<MemShelf> {
        let mut shelf = MemShelf::new(alloc, self.room).ok()?;
        self.fill(&mut shelf, words, here)?;
        Some(shelf)
    }

    /// Gives a shelf that never fails the files that the arguments name.
    fn hold(&self, shelf: &mut SureShelf, words: &str) -> Option<()> {
        for word in words.split(' ') {
            if let Some(bytes) = self.files.find(word) {
                shelf.hold(word, bytes).ok()?;
            }
        }
        Some(())
    }

    /// Returns a shelf that never fails, with the files that the arguments name.
    pub fn sure_shelf(&self, alloc: Global, words: &str) -> Option<SureShelf> {
        let mut shelf = SureShelf::new(alloc, self.room).ok()?;
        self.hold(&mut shelf, words)?;
        Some(shelf)
    }
}

/// Reads a failure: a kind of call, and the number of the call from 1.
fn failure_of(text: &str) -> Option<Failure> {
    let mut words = text.split_whitespace();
    let call = match words.next()?.as_bytes() {
        b"load" => ShelfCall::Load,
        b"create" => ShelfCall::Create,
        b"put" => ShelfCall::Put(None),
        b"video" => ShelfCall::Put(Some(Out::Video)),
        b"sound" => ShelfCall::Put(Some(Out::Sound)),
        b"image" => ShelfCall::Put(Some(Out::Image)),
        b"sums" => ShelfCall::Put(Some(Out::Sums)),
        b"state" => ShelfCall::Put(Some(Out::State)),
        b"spc" => ShelfCall::Put(Some(Out::Spc)),
        b"say" => ShelfCall::Put(Some(Out::Say)),
        _ => return None,
    };
    let nth = words.next()?.parse().ok()?;
    Some(Failure { call, nth })
}

/// Adds an argument. A star and a number N stand for N letters.
fn push(alloc: Global, argv: &mut Argv, word: &str) -> Option<()> {
    let Some(count) = word.strip_prefix("*") else {
        return argv.push(word).ok();
    };
    let count = count.parse().ok()?;
    let letters = vec![in alloc; b'v'; count].ok()?;
    argv.push(str::from_utf8(letters.as_slice()).ok()?).ok()
}

/// Returns the arguments in a line, with one space between two of them.
pub fn words_of(alloc: Global, line: &str) -> Option<Argv> {
    let mut argv = Argv::new(alloc);
    if line.is_empty() {
        return Some(argv);
    }
    for word in line.split(' ') {
        push(alloc, &mut argv, word)?;
    }
    Some(argv)
}

/// Calls the program with the arguments of a line, with this gate for its workers, over a shelf that fails as planned
/// and as given here. Returns `None` if allocation of the shelf or the arguments fails.
pub fn performed_through<R: AllocGlobal + Threads>(
    rt: &R,
    gate: &dyn Gate,
    rows: &Rows,
    line: &str,
    here: Option<Failure>,
) -> Option<Outcome> {
    let alloc = rt.alloc();
    let words = words_of(alloc, line)?;
    let mut shelf = rows.shelf(alloc, line, here)?;
    let status = answer(rt, gate, &words, &mut shelf);
    Some(Outcome { status, shelf })
}

/// Calls the program with the arguments of a line, over a shelf that fails as planned and as given here. Its gate is
/// that of `snes`, which does nothing.
pub fn performed<R: AllocGlobal + Threads>(
    rt: &R,
    rows: &Rows,
    line: &str,
    here: Option<Failure>,
) -> Option<Outcome> {
    performed_through(rt, &OpenGate, rows, line, here)
}
