//! A disk in memory: what stands where, which areas are soft, and what undoes each change, so that it tells what a crash
//! might have left at each moment before.
#![tactic(auto)]

mod disk;
mod nodes;

pub use disk::Disk;
pub use nodes::Nodes;
