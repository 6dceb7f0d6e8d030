// The children's rows: the parts of a child, each on a line of its own.

use crate::error::LineError;
use crate::fields::{field_path, last_bytes, last_field, last_path, number, split_field};
use crate::line::split_word;
use kb_world::{Bytes, Effect, EffectRow, Path, Sequence, Text, Texts};
use std::alloc::Global;

/// A part of a child's row.
#[derive(Drop)]
pub enum Part {
    Code(u8),
    Out(Bytes),
    Err(Bytes),
    Needs(Path),
    Effect(Effect),
}

fn code(rest: Option<&str>) -> Result<Part, LineError> {
    match u8::try_from(number(last_field(rest)?)?) {
        Ok(code) => Ok(Part::Code(code)),
        Err(_) => Err(LineError::NotANumber),
    }
}

fn write(alloc: Global, rest: Option<&str>, exec: bool) -> Result<Part, LineError> {
    let (field, last) = split_field(rest)?;
    Ok(Part::Effect(Effect::Write {
        path: field_path(alloc, field)?,
        bytes: last_bytes(alloc, Some(last))?,
        exec,
    }))
}

fn copy(alloc: Global, rest: Option<&str>) -> Result<Part, LineError> {
    let (from, to) = split_field(rest)?;
    Ok(Part::Effect(Effect::Copy {
        from: field_path(alloc, from)?,
        to: last_path(alloc, Some(to))?,
    }))
}

/// The part that a line behind its first space says.
pub fn read_part(alloc: Global, line: &str) -> Result<Part, LineError> {
    let (word, rest) = split_word(line);
    match word {
        "code" => code(rest),
        "out" => Ok(Part::Out(last_bytes(alloc, rest)?)),
        "err" => Ok(Part::Err(last_bytes(alloc, rest)?)),
        "needs" => Ok(Part::Needs(last_path(alloc, rest)?)),
        "write" => write(alloc, rest, false),
        "write-exec" => write(alloc, rest, true),
        "copy" => copy(alloc, rest),
        "remove" => Ok(Part::Effect(Effect::Remove(last_path(alloc, rest)?))),
        _ => Err(LineError::Unknown),
    }
}

/// A child's row, as far as its parts are read.
#[derive(Drop)]
pub struct Child {
    program: Text,
    args: Texts,
    needs: Sequence<Path>,
    code: Option<u8>,
    out: Option<Bytes>,
    err: Option<Bytes>,
    effects: Sequence<Effect>,
}

// Sets what may be said once.
fn set_once<T: Drop>(place: &mut Option<T>, value: T) -> Result<(), LineError> {
    if place.is_some() {
        return Err(LineError::Twice);
    }
    *place = Some(value);
    Ok(())
}

impl Child {
    pub fn new(alloc: Global, program: Text, args: Texts) -> Child {
        Child {
            program,
            args,
            needs: Sequence::new(alloc),
            code: None,
            out: None,
            err: None,
            effects: Sequence::new(alloc),
        }
    }

    pub fn add(&mut self, part: Part) -> Result<(), LineError> {
        match part {
            Part::Code(code) => set_once(&mut self.code, code),
            Part::Out(bytes) => set_once(&mut self.out, bytes),
            Part::Err(bytes) => set_once(&mut self.err, bytes),
            Part::Needs(path) => Ok(self.needs.push(path)?),
            Part::Effect(effect) => Ok(self.effects.push(effect)?),
        }
    }

    /// The row, where all that must be said of it is said.
    pub fn row(self, alloc: Global) -> Result<EffectRow, LineError> {
        let Child {
            program,
            args,
            needs,
            code,
            out,
            err,
            effects,
        } = self;
        Ok(EffectRow {
            program,
            args,
            needs,
            code: code.ok_or(LineError::NoCode)?,
            out: out.unwrap_or(Bytes::new(alloc)),
            err: err.unwrap_or(Bytes::new(alloc)),
            effects,
        })
    }
}
