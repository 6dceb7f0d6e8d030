//! A world and a sink in memory, for tests and for what is proved of whole programs: both tell what they hold, and
//! both can be made to fail at chosen calls. The world can be halted at a call, and lose what a crash may lose.
#![tactic(auto)]

mod calls;
mod failures;
mod laws;
mod lose;
mod script;
mod sink;
mod world;

pub use laws::{
    a_halted_call_leaves_either_tree, a_halted_put_leaves_each_prefix, each_effect_names_its_paths,
    each_named_path_can_be_lost, no_call_passes_after_a_halt,
};
pub use lose::has_few_effects;
pub use sink::MemorySink;
pub use world::MemoryWorld;
