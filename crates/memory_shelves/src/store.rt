ghost use Rattle.std.specs.Prelude.{◌≡◌, ◌<◌, ◌≤◌, [], length, Some, None, OnOk, OnErr, IfOk, IfSome, MatchOption, find};
ghost use Rattle.std.specs.Option.{option_copied};
ghost use Rattle.std.specs.Str.{bytes_eq};
ghost use Rattle.memory_shelves.specs.Stored.{NamedBytes, Written, Stored, holding, held_in, place_of, blank, added, output_of, with_output, nothing_stored};

use shelf::Out;
use std::alloc::{AllocError, Global};
use std::marker::Model;

/// The most bytes of a name.
const NAME_ROOM: usize = 4096;

/// A file that a shelf in memory holds.
#[derive(Drop)]
struct HeldFile {
    name: String,
    bytes: Vec<u8>,
}

impl Model for HeldFile {
    ghost use Rattle.std.specs.Prelude.{string_bytes};
    ghost use Rattle.memory_shelves.specs.Stored.{NamedBytes};

    ghost Value = { NamedBytes };

    ghost view = { λ f. record { name = string_bytes f.name; bytes = f.bytes.items } };
}

impl HeldFile {
    fn is_named(&self, name: &str) -> bool
        ensures same { result ≡ bytes_eq self.now.name name.now }
    {
        self.name.as_str() == name
    }

    fn bytes(&self) -> &[u8]
        ensures all { result.now ≡ self.now.bytes }
    {
        self.bytes.as_slice()
    }
}

/// The bytes and the name that a shelf in memory keeps of one output. All of it is allocated when it is made.
#[derive(Drop)]
struct Output {
    name: String,
    room: usize,
    bytes: Vec<u8>,
    overrun: bool,
}

impl Model for Output {
    ghost use Rattle.std.specs.Prelude.{◌≤◌, string_bytes, vec_capacity, vec_len};
    ghost use Rattle.std.specs.String.{string_capacity};
    ghost use Rattle.memory_shelves.specs.Stored.{Written};

    ghost Value = { Written };

    ghost view = { λ o. record { name = string_bytes o.name; room = o.room; bytes = o.bytes.items; overrun = o.overrun } };

    ghost invariant = { λ o. (4096 ≤ string_capacity o.name) × (o.room ≤ vec_capacity o.bytes) × (vec_len o.bytes ≤ o.room) };
}

impl Output {
    fn new(alloc: Global, room: usize) -> Result<Output, AllocError>
        ensures empty { IfOk result (λ output. output ≡ blank [] room) }
    {
        Ok(Output {
            name: String::with_capacity(alloc, NAME_ROOM)?,
            room,
            bytes: Vec::with_capacity(alloc, room)?,
            overrun: false,
        })
    }

    fn create(&mut self, name: &str)
        requires fits { length name.now ≤ 4096 }
        ensures empty { self.new ≡ blank name.now self.old.room }
    {
        self.name.clear();
        let _ = self.name.push_str(name);
        self.bytes.clear();
        self.overrun = false;
    }

    fn put(&mut self, bytes: &[u8])
        ensures added { self.new ≡ added self.old bytes.now }
    {
        let left = self.room - self.bytes.len();
        if bytes.len() <= left {
            let _ = self.bytes.extend_from_slice(bytes);
        } else {
            let _ = self.bytes.extend_from_slice(&bytes[..left]);
            self.overrun = true;
        }
    }

    fn name(&self) -> &str
        ensures same { result.now ≡ self.now.name }
    {
        self.name.as_str()
    }

    fn bytes(&self) -> &[u8]
        ensures same { result.now ≡ self.now.bytes }
    {
        self.bytes.as_slice()
    }
}

/// The files and outputs of a shelf in memory.
#[derive(Drop)]
pub(crate) struct Store {
    alloc: Global,
    files: Vec<HeldFile>,
    video: Output,
    sound: Output,
    image: Output,
    sums: Output,
    state: Output,
    spc: Output,
    say: Output,
}

impl Model for Store {
    ghost use Rattle.memory_shelves.specs.Stored.{Stored};

    ghost Value = { Stored };

    ghost view = { λ s. record { files = s.files.items; video = s.video; sound = s.sound; image = s.image; sums = s.sums; state = s.state; spc = s.spc; say = s.say } };
}

impl Store {
    /// A store in which nothing is held or written yet. It allocates `room` bytes and a name for each output.
    pub(crate) fn new(alloc: Global, room: usize) -> Result<Store, AllocError>
        ensures empty { IfOk result (λ store. store ≡ nothing_stored room) }
    {
        Ok(Store {
            alloc,
            files: Vec::new(alloc),
            video: Output::new(alloc, room)?,
            sound: Output::new(alloc, room)?,
            image: Output::new(alloc, room)?,
            sums: Output::new(alloc, room)?,
            state: Output::new(alloc, room)?,
            spc: Output::new(alloc, room)?,
            say: Output::new(alloc, room)?,
        })
    }

    /// Gives a file, which replaces any former one of that name.
    pub(crate) fn hold(&mut self, name: &str, bytes: &[u8]) -> Result<(), AllocError>
        ensures ok { OnOk result (self.new ≡ holding self.old name.now bytes.now) }
        ensures err { OnErr result (self.new ≡ self.old) }
    {
        let file = HeldFile {
            name: String::from_str(self.alloc, name)?,
            bytes: Vec::from_slice(self.alloc, bytes)?,
        };
        self.files.insert(0, file)?;
        Ok(())
    }

    /// The place of the file of that name.
    pub(crate) fn place(&self, name: &str) -> Option<usize>
        ensures place { result ≡ place_of self.now.files name.now }
        ensures within { IfSome result (λ i. i < length self.now.files) }
    {
        self.files.iter().position(|file| file.is_named(name))
    }

    /// The bytes of the file of that name.
    pub(crate) fn held(&self, name: &str) -> Option<&[u8]>
        ensures bytes { MatchOption result (held_in self.now.files name.now ≡ None) (λ bytes. held_in self.now.files name.now ≡ Some bytes.now) }
    {
        let file = self.file(name)?;
        Some(file.bytes())
    }

    fn file(&self, name: &str) -> Option<&HeldFile>
        ensures first { option_copied result ≡ find (λ file. bytes_eq file.name name.now) self.now.files }
    {
        self.files.iter().find(|file| file.is_named(name))
    }

    /// Empties an output and names it.
    pub(crate) fn create(&mut self, out: Out, name: &str)
        requires fits { length name.now ≤ 4096 }
        ensures created { self.new ≡ with_output self.old out (blank name.now (output_of self.old out).room) }
    {
        match out {
            Out::Video => self.video.create(name),
            Out::Sound => self.sound.create(name),
            Out::Image => self.image.create(name),
            Out::Sums => self.sums.create(name),
            Out::State => self.state.create(name),
            Out::Spc => self.spc.create(name),
            Out::Say => self.say.create(name),
        }
    }

    /// Appends bytes to an output.
    pub(crate) fn put(&mut self, out: Out, bytes: &[u8])
        ensures put { self.new ≡ with_output self.old out (added (output_of self.old out) bytes.now) }
    {
        match out {
            Out::Video => self.video.put(bytes),
            Out::Sound => self.sound.put(bytes),
            Out::Image => self.image.put(bytes),
            Out::Sums => self.sums.put(bytes),
            Out::State => self.state.put(bytes),
            Out::Spc => self.spc.put(bytes),
            Out::Say => self.say.put(bytes),
        }
    }

    fn output(&self, out: Out) -> &Output
        ensures same { result.now ≡ output_of self.now out }
    {
        match out {
            Out::Video => &self.video,
            Out::Sound => &self.sound,
            Out::Image => &self.image,
            Out::Sums => &self.sums,
            Out::State => &self.state,
            Out::Spc => &self.spc,
            Out::Say => &self.say,
        }
    }

    /// What an output keeps of what was put.
    pub(crate) fn written(&self, out: Out) -> &[u8]
        ensures kept { result.now ≡ (output_of self.now out).bytes }
    {
        self.output(out).bytes()
    }

    /// The name of an output.
    pub(crate) fn named(&self, out: Out) -> &str
        ensures name { result.now ≡ (output_of self.now out).name }
    {
        self.output(out).name()
    }
}
