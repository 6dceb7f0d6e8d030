// What words can ask for.

use kb_world::{Filter, Key, Path};

/// A command that words can be.
#[derive(Debug, Drop)]
pub enum Command {
    Help,
    /// The journal's transaction is ended, and nothing else is done.
    Recover,
    Add { key: Key },
    /// The package is the one of the `dkms.conf` in the directory at this path.
    AddTree { path: Path },
    /// The lines that the filter wants are printed.
    Status { filter: Filter },
}
