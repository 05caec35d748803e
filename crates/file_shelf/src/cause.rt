use crate::known::Clash;
use std::fmt::{self, Display, Formatter};
use std::io::{Error, ErrorKind};

/// Why a call of a shelf over real files failed.
#[derive(Clone, Copy, PartialEq, Eq)]
pub enum Cause {
    /// The system returned an error of this kind.
    System(ErrorKind),
    /// A write took nothing.
    TookNothing,
    /// The output is a file that the program already uses.
    Same(Clash),
    /// The output was not created, or took no more bytes after a fault.
    Closed,
}

impl From<Error> for Cause {
    fn from(error: Error) -> Cause {
        Cause::System(error.kind())
    }
}

impl Display for Cause {
    /// Writes what the system said, or what else was wrong, for the user.
    fn fmt<W: fmt::Write>(&self, f: &mut Formatter<W>) -> fmt::Result {
        match *self {
            Cause::System(ErrorKind::NotFound) => f.write_str("no such file or folder"),
            Cause::System(ErrorKind::StorageFull) => f.write_str("no space left"),
            Cause::System(ErrorKind::FileTooLarge) => f.write_str("the file is too large"),
            Cause::System(ErrorKind::Uncategorized) => f.write_str("the system refused it"),
            Cause::System(kind) => write!(f, "{kind}"),
            Cause::TookNothing => f.write_str("it took no bytes"),
            Cause::Same(Clash::Loaded) => f.write_str("this run reads the same file"),
            Cause::Same(Clash::Created) => f.write_str("another output is the same file"),
            Cause::Same(Clash::Stream) => {
                f.write_str("standard output or standard error is the same file")
            }
            Cause::Closed => f.write_str("it is closed"),
        }
    }
}
