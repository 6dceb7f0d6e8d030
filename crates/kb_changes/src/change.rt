// The changes of a transaction, and what a journal says.
ghost use Rattle.std.specs.Prelude.{◌≡◌};

use kb_world::{Path, Reply, Request, Sequence, Texts};
use std::alloc::AllocError;

/// A root below which files are staged and put: what the tool keeps, sources, installed modules, and the boot
/// partition.
#[derive(Clone, Copy, Debug, PartialEq, Eq)]
pub enum RootName {
    Dkms,
    Src,
    Modules,
    Boot,
}

/// One change of a transaction. Done a second time it does nothing, but for a run, which is then run again.
#[derive(Debug, Drop)]
pub enum Change {
    /// A directory is made, where nothing stands.
    Dir(Path),
    /// The staged file or link of this number is moved from the root's staging directory to the target.
    Put {
        root: RootName,
        number: u64,
        target: Path,
    },
    /// A file or a link goes.
    Drop(Path),
    /// A directory without entries goes.
    DropDir(Path),
    /// What stands at the path goes, with all below it.
    Wipe(Path),
    /// A child program is run.
    Run(Request),
}

impl Clone for Change {
    ghost is_clone = { λ change made. made ≡ change };

    fn clone(&self) -> Result<Self, AllocError> {
        match self {
            Change::Dir(path) => Ok(Change::Dir(path.clone()?)),
            Change::Put {
                root,
                number,
                target,
            } => Ok(Change::Put {
                root: *root,
                number: *number,
                target: target.clone()?,
            }),
            Change::Drop(path) => Ok(Change::Drop(path.clone()?)),
            Change::DropDir(path) => Ok(Change::DropDir(path.clone()?)),
            Change::Wipe(path) => Ok(Change::Wipe(path.clone()?)),
            Change::Run(request) => Ok(Change::Run(request.clone()?)),
        }
    }
}

/// What a journal says: the words of the command that began the transaction, and its changes in their order.
#[derive(Debug, Drop)]
pub struct Intent {
    pub words: Texts,
    pub changes: Sequence<Change>,
}

/// What a recovery did: the words of the command whose transaction it ended, the child programs that it ran, and their
/// replies.
#[derive(Debug, Drop)]
pub struct Recovered {
    pub words: Texts,
    pub requests: Sequence<Request>,
    pub replies: Sequence<Reply>,
}
