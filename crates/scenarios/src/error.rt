// Why a line can't be read or done.

use kb_world::{PathError, WorldError};
use std::alloc::AllocError;
use thiserror::Error;

/// Why a line can't be read, or can't be done where it stands.
#[derive(Debug, Drop, Error)]
pub enum LineError {
    #[error("no such line")]
    Unknown,
    #[error("not UTF-8")]
    NotText,
    #[error("a field is missing")]
    TooShort,
    #[error("a field too many")]
    TooLong,
    #[error("no such escape")]
    BadEscape,
    #[error("an empty word is written \\e")]
    EmptyWord,
    #[error("not the text of a path")]
    NotAPath,
    #[error("not a number that can stand here")]
    NotANumber,
    #[error("the setting and the children stand before the nodes and the runs")]
    TooLate,
    #[error("a part of no child")]
    NoChild,
    #[error("a part that the child has already")]
    Twice,
    #[error("the child above has no code")]
    NoCode,
    #[error("something stands there")]
    Stands,
    #[error("nothing stands there")]
    Absent,
    #[error("it holds something")]
    NotEmpty,
    #[error("a file or a link stands above it")]
    NoDirectory,
    #[error("no directory that can be copied there")]
    NoCopy,
    #[error("no such choice")]
    NotAChoice,
    #[error("a call of the world failed")]
    World,
    #[error(transparent)]
    Memory(#[from(alloc)] AllocError),
}

impl From<PathError> for LineError {
    fn from(error: PathError) -> Self {
        match error {
            PathError::NotAPath => LineError::NotAPath,
            PathError::NoMemory => LineError::Memory(AllocError),
        }
    }
}

impl From<WorldError> for LineError {
    fn from(error: WorldError) -> Self {
        match error {
            WorldError::Failed => LineError::World,
            WorldError::NoMemory => LineError::Memory(AllocError),
        }
    }
}

/// The first line that is bad, counted from 1, and why.
#[derive(Debug, Drop, Error)]
#[error("line {line}: {cause}")]
pub struct BadLine {
    pub line: u64,
    pub cause: LineError,
}
