//! Words of a command line, read as the command that they are.
#![tactic(auto)]

mod command;
mod laws;
mod package;
mod parts;
mod progress;
mod read;

pub use command::Command;
pub use laws::words_are_their_command_line;
pub use read::read_words;
