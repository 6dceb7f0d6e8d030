//! Plays a text of scenarios over worlds in memory, and prints what came about. docs/SCENARIOS.md has the lines.
//!
//! It ends with 0 where each line could be read and done, and else names the first that couldn't.
#![tactic(auto)]

mod ask;
mod conf;
mod edit;
mod entry;
mod error;
mod facts;
mod fields;
mod journal;
mod line;
mod parts;
mod plain;
mod play;
mod refusal;
mod run;
mod scene;
mod show;
mod stage;
mod store;
mod text;
mod world_calls;

use play::play;
use std::io::{self, Read, Write};
use std::process::ExitCode;
use text::Page;

fn main(rt: HostRuntime) -> io::Result<ExitCode> {
    let mut input = Vec::new(rt.alloc());
    rt.reader().read_to_end(&mut input)?;
    let mut page = Page::new(rt.alloc());
    let played = play(rt.alloc(), &input, &mut page);
    io::writer(&rt).write_all(page.bytes())?;
    match played {
        Ok(()) => Ok(ExitCode::from(0)),
        Err(bad) => {
            eprintln!(rt; "scenarios: {bad}")?;
            Ok(ExitCode::from(1))
        }
    }
}
