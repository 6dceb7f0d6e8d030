//! What a transaction of the journal is: its changes, what doing them makes of a tree, when they are valid, and the
//! text of a journal.
#![tactic(auto)]

mod change;
mod counts;
mod group;
mod ordered;
mod patch_changes;
mod patch_laws;
mod patch_paths;
mod path_set;
mod placed;
mod roots;
mod runs;
mod valid;

pub use change::{Change, Intent, Recovered, RootName};
pub use counts::Counts;
pub use patch_changes::changes_of;
pub use patch_laws::{a_patch_is_done, a_patch_is_valid, an_add_fits, own_paths_may_stand};
pub use patch_paths::PatchPaths;
pub use roots::staged_path;
pub use valid::is_valid;
