// What the program is told of its surroundings.
use crate::words::text_told;
use kb_real::HostWorld;
use kb_top::Setting;
use kb_world::{Area, Path, Request, Sequence, Text, Texts, World, WorldError};
use std::alloc::{AllocError, Global};
use std::env::Env;
use std::str;

// The variable of the environment, where it is set.
fn variable<R: Env>(
    rt: &R,
    alloc: Global,
    name: &str,
    buffer: &mut [u8],
) -> Result<Option<Text>, AllocError> {
    let told = rt.var(name, buffer);
    text_told(alloc, told, buffer)
}

// The first line, if it is text and there is any.
fn first_line(alloc: Global, out: &[u8]) -> Result<Option<Text>, AllocError> {
    let end = out.iter().position(|c| *c == b'\n').unwrap_or(out.len());
    match str::from_utf8(&out[..end]) {
        Ok(line) if !line.is_empty() => Ok(Some(Text::of(alloc, line)?)),
        _ => Ok(None),
    }
}

fn uname_request(alloc: Global, option: &str) -> Result<Request, AllocError> {
    let mut args = Texts::new(alloc);
    args.push(Text::of(alloc, option)?)?;
    Ok(Request {
        program: Text::of(alloc, "uname")?,
        args,
        env: Sequence::new(alloc),
        dir: Path::root(alloc),
        area: Area::Nothing,
        seen: Sequence::new(alloc),
    })
}

// The first line that uname(1) prints with this option, if it can be had.
fn uname_line(rt: HostRuntime, option: &str) -> Result<Option<Text>, AllocError> {
    let request = uname_request(rt.alloc(), option)?;
    match HostWorld::new(rt).run(rt.alloc(), &request) {
        Ok(reply) if reply.code == 0 => first_line(rt.alloc(), reply.out.as_slice()),
        Ok(_) | Err(WorldError::Failed) => Ok(None),
        Err(WorldError::NoMemory) => Err(AllocError),
    }
}

/// The setting, by the environment's `KMODBOOT_ROOT` and `KMODBOOT_BOOT` and by uname(1).
pub fn read_setting(rt: HostRuntime, buffer: &mut [u8]) -> Result<Setting, AllocError> {
    Ok(Setting {
        root: variable(&rt, rt.alloc(), "KMODBOOT_ROOT", buffer)?,
        boot: variable(&rt, rt.alloc(), "KMODBOOT_BOOT", buffer)?,
        release: uname_line(rt, "-r")?,
        machine: uname_line(rt, "-m")?,
    })
}
