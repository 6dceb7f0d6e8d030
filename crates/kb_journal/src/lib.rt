//! The text of a journal: an intent is written, and read again. What is read is valid, and what is refused is no journal.
#![tactic(auto)]

mod error;
mod fields;
mod laws;
mod read;
mod read_change;
mod read_list;
mod spell;
mod spell_change;
mod write;

pub use error::IntentError;
pub use laws::a_text_has_one_intent;
pub use read::read_intent;
pub use write::write_intent;
