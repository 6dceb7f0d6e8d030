//! The real outside: the system's files, its child programs, and standard output and error. This is the trusted edge.
//! No proof knows what the system holds or takes, so a world and a sink of this crate tell nothing but how often they
//! failed.
#![tactic(auto)]

mod changes;
mod children;
mod faults;
mod files;
mod host;
mod listing;
mod outputs;
mod pieces;
mod settle;
mod sink;

pub use host::HostWorld;
pub use sink::StdSink;

#[cfg(test)]
mod tests;
