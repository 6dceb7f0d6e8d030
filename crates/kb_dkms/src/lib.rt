//! The actions of dkms on packages.
#![tactic(auto)]

mod adding;
mod adding_tree;
mod copying;
mod places;
mod preparing;
mod preparing_copy;
mod scripts;
mod staging;

pub use adding::add;
pub use adding_tree::add_tree;
