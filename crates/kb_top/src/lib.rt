//! The top call: the words of a command line go in, and its answer comes out.
#![tactic(auto)]

mod adding;
mod call;
mod end;
mod laws;
mod recovery;
mod roots;
mod serve;
mod setting;
mod status;
mod tell;

pub use call::{run, start};
pub use end::End;
pub use laws::{repeating_comes_to_the_same_store, settings_are_good_or_bad, what_stands_is_ready};
pub use setting::{Setting, SettingError, host_of};
