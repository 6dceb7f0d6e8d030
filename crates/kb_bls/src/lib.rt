//! Boot entries: Type #1 entries of the Boot Loader Specification, the names of their files, which
//! count tries, and the order in which a boot menu shows them.
#![tactic(auto)]

mod entry;
mod laws;
mod line;
mod name;
mod order;
mod parse;
mod print;

pub use entry::Entry;
pub use laws::{name_is_read_one_way, text_is_one_entry};
pub use name::{Counter, entry_name, read_entry_name};
pub use order::{Named, sort_entries};
pub use parse::{EntryError, parse_entry};
pub use print::{can_be_printed, print_entry};
