//! The order in which modules are built and installed: each behind its dependencies.
#![tactic(auto)]

mod laws;
mod names;
mod placing;
mod turns;
mod web;

use kb_world::{Text, Texts};
pub use laws::{
    each_module_is_placed_once, modules_stand_behind_their_dependencies,
    none_is_cyclic_without_a_ring,
};
pub use names::{first_doubled, names_differ};
pub use placing::order;

/// A module, with the names of those that are to stand before it.
#[derive(Debug, Drop, Clone)]
pub struct Listed {
    pub name: Text,
    pub depends: Texts,
}

/// A module at its place. One that is cyclic stands there though a dependency of it is still to
/// come.
#[derive(Debug, Drop, Clone)]
pub struct Placed {
    pub name: Text,
    pub cyclic: bool,
}
