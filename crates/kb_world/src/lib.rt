//! The outside of kmodboot, as the layers above see it: a tree of files and child programs, a place to write text,
//! and the names, paths and refusals that all layers share. A world and a sink are traits, so that the same program runs over a
//! world in memory, which tells its tree, and over the real one, which doesn't.
#![tactic(auto)]

mod child;
mod job;
mod laws;
mod links;
mod names;
mod package_paths;
mod patch_laws;
mod path;
mod path_tests;
mod refusal;
mod rel_path;
mod roots;
mod sequence;
mod sink;
mod stop;
mod store_laws;
mod store_path;
mod text;
mod tree;
mod world;

pub use child::{Area, Effect, EffectRow, Reply, Request};
pub use job::{Filter, HookKind, Host, Job, Key, Report, Spot, Spots, TokenChoice};
pub use laws::add_adds_one_package;
pub use names::{is_arch, is_boot_word, is_kernel, is_name, is_version, is_word};
pub use patch_laws::{a_patch_names_its_paths, an_old_index_goes};
pub use path::{Path, PathError, text_tells_path};
pub use path_tests::{is_index, is_private};
pub use refusal::{Refusal, bad_boot_line, bad_root_line, fault_line, message, no_memory_line};
pub use rel_path::RelPath;
pub use roots::Roots;
pub use sequence::Sequence;
pub use sink::{Sink, SinkError};
pub use stop::Stop;
pub use store_laws::{
    layout_is_the_store, no_step_damages, store_paths_are_read_back, targets_are_read_back,
};
pub use store_path::StorePath;
pub use text::{Bytes, Text, Texts};
pub use tree::{Edit, Kind, Node};
pub use world::{World, WorldError};
