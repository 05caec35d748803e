ghost use Rattle.std.specs.Prelude.{◌≡◌};
ghost use Rattle.std.specs.List.{list_any};
ghost use Rattle.file_shelf.specs.Known.{is_same, is_loaded, is_created_otherwise, clash_of, none_known};

use shelf::Out;

/// How many loads are remembered: more than any command has inputs.
const MOST_LOADED: usize = 8;

/// The file that a name leads to, whatever names it has: its device, and its number there.
#[derive(Clone, Copy)]
pub(crate) struct Identity {
    pub(crate) device: u64,
    pub(crate) node: u64,
}

/// The other use of a file to be written.
#[derive(Clone, Copy, PartialEq, Eq)]
pub enum Clash {
    /// A file that was loaded.
    Loaded,
    /// Another output that was created.
    Created,
    /// What standard output or standard error goes to.
    Stream,
}

/// The regular files that a shelf already uses. They are the last eight that were loaded, the outputs, and those that
/// standard output and standard error go to.
#[derive(Clone, Copy)]
pub(crate) struct KnownFiles {
    loaded: [Option<Identity>; MOST_LOADED],
    next: usize,
    video: Option<Identity>,
    sound: Option<Identity>,
    image: Option<Identity>,
    sums: Option<Identity>,
    state: Option<Identity>,
    spc: Option<Identity>,
    said: Option<Identity>,
    warned: Option<Identity>,
}

impl KnownFiles {
    /// The files that the two streams go to, and no others.
    pub(crate) fn of_streams(said: Option<Identity>, warned: Option<Identity>) -> KnownFiles
        ensures { result ≡ none_known said warned }
    {
        KnownFiles {
            loaded: [None; MOST_LOADED],
            next: 0,
            video: None,
            sound: None,
            image: None,
            sums: None,
            state: None,
            spc: None,
            said,
            warned,
        }
    }

    /// What else a file to be written is, if the shelf already uses it.
    pub(crate) fn clash(&self, out: Out, file: Identity) -> Option<Clash>
        ensures { result ≡ clash_of self.now out file }
    {
        if self.is_loaded(file) {
            return Some(Clash::Loaded);
        }
        if self.is_created_otherwise(out, file) {
            return Some(Clash::Created);
        }
        if is_same(self.said, file) || is_same(self.warned, file) {
            return Some(Clash::Stream);
        }
        None
    }

    /// Whether this file was loaded.
    fn is_loaded(&self, file: Identity) -> bool
        ensures { result ≡ is_loaded self.now file }
    {
        self.loaded.iter().any(|known| is_same(*known, file))
    }

    /// Whether another output is written to this file.
    fn is_created_otherwise(&self, out: Out, file: Identity) -> bool
        ensures { result ≡ is_created_otherwise self.now out file }
    {
        match out {
            Out::Video => is_one_of(
                [self.sound, self.image, self.sums, self.state, self.spc],
                file,
            ),
            Out::Sound => is_one_of(
                [self.video, self.image, self.sums, self.state, self.spc],
                file,
            ),
            Out::Image => is_one_of(
                [self.video, self.sound, self.sums, self.state, self.spc],
                file,
            ),
            Out::Sums => is_one_of(
                [self.video, self.sound, self.image, self.state, self.spc],
                file,
            ),
            Out::State => is_one_of(
                [self.video, self.sound, self.image, self.sums, self.spc],
                file,
            ),
            Out::Spc => is_one_of(
                [self.video, self.sound, self.image, self.sums, self.state],
                file,
            ),
            Out::Say => false,
        }
    }

    /// Records a file that was loaded.
    pub(crate) fn add_loaded(&mut self, file: Option<Identity>) {
        let place = self.next % MOST_LOADED;
        self.loaded[place] = file;
        self.next = (place + 1) % MOST_LOADED;
    }

    /// Records the file to which an output is now written.
    pub(crate) fn set_created(&mut self, out: Out, file: Option<Identity>) {
        match out {
            Out::Video => self.video = file,
            Out::Sound => self.sound = file,
            Out::Image => self.image = file,
            Out::Sums => self.sums = file,
            Out::State => self.state = file,
            Out::Spc => self.spc = file,
            Out::Say => {}
        }
    }
}

/// Whether a file is one of five that may be known.
fn is_one_of(known: [Option<Identity>; 5], file: Identity) -> bool
    ensures { result ≡ list_any (λ one. is_same one file) known }
{
    known.iter().any(|one| is_same(*one, file))
}

/// Whether a file is known, and this one.
fn is_same(known: Option<Identity>, file: Identity) -> bool
    ensures { result ≡ is_same known file }
{
    match known {
        Some(known) => known.device == file.device && known.node == file.node,
        None => false,
    }
}
