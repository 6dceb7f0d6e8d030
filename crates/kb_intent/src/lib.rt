//! Transactions that survive a power cut. One is put together aside, with what it stages, and then
//! committed. Once its journal stands, a transaction's changes are done in their order, what its
//! children left is settled, what was staged for it goes, and the journal goes last. Where a journal
//! still stands, a recovery ends its transaction from whatever a crash left: the store is then the
//! one that an uncut transaction makes. The types of changes and the text of a journal are handed on.
#![tactic(auto)]

mod changing;
mod committing;
mod doing;
mod finishing;
mod recovering;
mod staging;
mod standing;
mod txn;

pub use changing::{Ran, do_change, do_changes};
pub use committing::commit;
pub use kb_changes::{Change, Intent, PatchPaths, Recovered, RootName};
pub use kb_journal::{IntentError, read_intent, write_intent};
pub use recovering::recover;
pub use txn::Txn;
