//! The text of `dkms status`: a line for each build of a store and for each added version that has
//! none, as far as a filter wants them, in their order.
#![tactic(auto)]

mod built;
mod filter;
mod laws;
mod line;
mod lines;
mod order;
mod status;

pub use laws::{a_store_has_one_status, lines_are_those_of_the_store, the_order_of_lines_is_total};
pub use line::{Line, State};
pub use status::status_text;
