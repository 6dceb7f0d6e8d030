// What stands at a path of the tree.
ghost use Rattle.std.specs.Prelude.{◌≡◌};

use crate::path::Path;
use crate::text::{Bytes, Text};
use std::alloc::AllocError;

/// A directory, a file or a link. A link is a value: it is never followed.
#[derive(Debug, Drop)]
pub enum Node {
    Dir,
    /// `exec` is the execute bit, the only part of the mode that counts.
    File { bytes: Bytes, exec: bool },
    /// What the link says, whether or not it is the text of a path.
    Link { text: Text },
}

impl Clone for Node {
    ghost is_clone = { λ node made. made ≡ node };

    fn clone(&self) -> Result<Self, AllocError> {
        match self {
            Node::Dir => Ok(Node::Dir),
            Node::File { bytes, exec } => Ok(Node::File {
                bytes: bytes.clone()?,
                exec: *exec,
            }),
            Node::Link { text } => Ok(Node::Link {
                text: text.clone()?,
            }),
        }
    }
}

/// What comes to stand at a path, if anything.
#[derive(Debug, Drop)]
pub struct Edit {
    pub path: Path,
    pub at: Option<Node>,
}

/// What a look at a path tells. A file's length is in bytes.
#[derive(Clone, Copy, Debug, PartialEq, Eq)]
pub enum Kind {
    Absent,
    Dir,
    File { len: u64, exec: bool },
    Link,
}
