//! What stands below the dkms root, read as a store: the added packages, the builds, the installed versions and the
//! kept files. Also the file `targets` of a build.
#![tactic(auto)]

mod chests;
mod entries;
mod laws;
mod notes;
mod place;
mod private;
mod read;
mod store;
mod targets;

pub use laws::{a_store_tells_its_parts, the_lists_of_a_store_rise};
pub use place::Places;
pub use store::{Build, Claim, Store};
pub use targets::{read_targets, write_targets};
