//! Why a case has no answer.

use pc_syntax::{EditError, ReadError};
use std::alloc::{AllocError, AllocFailed};
use std::fmt;

/// Why a case has no answer.
#[derive(Clone, Copy, Debug, PartialEq, Eq)]
pub enum Trouble {
    /// Its input hasn't the form of its topic.
    BadInput,
    /// A text from which it starts writes no tree, or a place that it speaks of isn't there.
    NoTree,
    /// No answer stands behind its input.
    NoAnswer,
    NoMemory,
}

impl fmt::Display for Trouble {
    fn fmt<W: fmt::Write>(&self, f: &mut fmt::Formatter<W>) -> fmt::Result {
        match self {
            Trouble::BadInput => f.write_str("the input is none of this topic"),
            Trouble::NoTree => f.write_str("the text writes no tree to start from"),
            Trouble::NoAnswer => f.write_str("the file has no answer to this"),
            Trouble::NoMemory => f.write_str("no memory"),
        }
    }
}

impl From<AllocError> for Trouble {
    fn from(_error: AllocError) -> Trouble {
        Trouble::NoMemory
    }
}

impl<T: Drop> From<AllocFailed<T>> for Trouble {
    fn from(_error: AllocFailed<T>) -> Trouble {
        Trouble::NoMemory
    }
}

impl From<ReadError> for Trouble {
    fn from(_error: ReadError) -> Trouble {
        Trouble::BadInput
    }
}

impl From<EditError> for Trouble {
    fn from(_error: EditError) -> Trouble {
        Trouble::NoTree
    }
}
