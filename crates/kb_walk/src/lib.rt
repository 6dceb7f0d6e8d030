//! Every entry below a directory: met in the order of paths, within limits or without, taken away, and copied.
#![tactic(auto)]

mod copying;
mod meeting;
mod private;
mod walking;
mod wiping;

pub use copying::{copy_tree, place_copied};
pub use meeting::meet_to_copy;
pub use walking::{Everything, LIMITS, Limits, Met, Skips, Walk, walk_all, walk_below};
pub use wiping::wipe;
