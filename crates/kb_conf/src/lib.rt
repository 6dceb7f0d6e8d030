//! `dkms.conf`: its grammar, what its values say of a package, and its refusals.
#![tactic(auto)]

mod bad;
mod bytes;
mod checks;
mod conf;
mod fields;
mod given;
mod laws;
mod line;
mod line_position;
mod load;
mod name;
mod path_value;
mod pattern;
mod piece;
mod read;
mod reading;
mod rule;
mod spans;
mod table;
mod targets;
mod value;
mod values;

pub use conf::{Conf, Patch, Patches, Scripts, Target, Targets};
pub use given::Given;
pub use laws::{assigns_text, meaning_is_computed, one_meaning};
pub use load::load_conf;
pub use pattern::{is_pattern, matches};
pub use read::read_conf;
pub use reading::{ReadError, read_text, without_returns};
pub use table::{Assignment, Table};
