//! The boot facts: machine ID, entry token, layout, title, sort key, command line and tries, as
//! kernel-install(8) finds them in its sources.
#![tactic(auto)]

mod facts;
mod found;
mod laws;
mod layout;
mod lines;
mod options;
mod release;
mod sources;
mod token;
mod tries;
mod variable;
mod warnings;

pub use facts::{BootFacts, boot_facts};
pub use laws::variables_are_spelled;
pub use layout::{Layout, choose_layout};
pub use variable::{Variable, read_variable};
