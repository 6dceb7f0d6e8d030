//! The program: it hands the words of its command line, its setting, the real files and the two standard streams to the
//! top call, and ends with the code of the end.
#![tactic(auto)]

mod setting;
mod words;

use kb_real::{HostWorld, StdSink};
use kb_top::{End, Setting, start};
use kb_world::{Sink, Text, no_memory_line};
use setting::read_setting;
use std::alloc::AllocError;
use std::process::ExitCode;
use words::{LONGEST_WORD, collect_words};

// The words and the setting.
fn read_all(rt: HostRuntime) -> Result<(Vec<Text>, Setting), AllocError> {
    let mut buffer = vec![in rt.alloc(); 0u8; LONGEST_WORD]?;
    let words = collect_words(&rt, rt.alloc(), &mut buffer)?;
    let setting = read_setting(rt, &mut buffer)?;
    Ok((words, setting))
}

fn main(rt: HostRuntime) -> ExitCode {
    let mut world = HostWorld::new(rt);
    let mut out = StdSink::out(rt);
    let mut err = StdSink::err(rt);
    let end = match read_all(rt) {
        Ok((words, setting)) => start(rt.alloc(), &words, &setting, &mut world, &mut out, &mut err),
        Err(_) => {
            let _ = err.write(no_memory_line().as_bytes());
            End::NoMemory
        }
    };
    ExitCode::from(end.code())
}
