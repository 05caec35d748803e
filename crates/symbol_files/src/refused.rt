//! Why a file is refused.

use std::alloc::{AllocError, AllocFailed};
use std::error::Error;
use std::fmt;

/// Why a file is refused.
#[derive(Clone, Copy, Debug, PartialEq, Eq)]
pub enum Refused {
    /// There is no memory for it.
    NoMemory,
    /// No line has the form of a symbol.
    Empty,
    /// This line, from 1, is not of a form that is known.
    Unknown(u64),
    /// This line, from 1, is not of the form that the lines before it have. The text names that form.
    Line(u64, &'static str),
}

impl fmt::Display for Refused {
    fn fmt<W: fmt::Write>(&self, f: &mut fmt::Formatter<W>) -> fmt::Result {
        match self {
            Refused::NoMemory => write!(f, "no memory"),
            Refused::Empty => write!(f, "it has no symbol"),
            Refused::Unknown(line) => write!(f, "line {line} has no form of a symbol file"),
            Refused::Line(line, form) => write!(f, "line {line} is no line of {form}"),
        }
    }
}

impl Error for Refused {}

impl From<AllocError> for Refused {
    fn from(_error: AllocError) -> Refused {
        Refused::NoMemory
    }
}

impl<T: Drop> From<AllocFailed<T>> for Refused {
    fn from(_error: AllocFailed<T>) -> Refused {
        Refused::NoMemory
    }
}
