// Child programs: what one is asked to do, and what it answers.
ghost use Rattle.std.specs.Prelude.{◌≡◌};

use crate::path::Path;
use crate::sequence::Sequence;
use crate::text::{Bytes, Text, Texts};
use std::alloc::AllocError;

/// What a child program may change: nothing, a directory with all below it, or files and links of these names in a
/// directory.
#[derive(Debug, Drop)]
pub enum Area {
    Nothing,
    Under(Path),
    Names(Path, Texts),
}

impl Clone for Area {
    ghost is_clone = { λ area made. made ≡ area };

    fn clone(&self) -> Result<Self, AllocError> {
        match self {
            Area::Nothing => Ok(Area::Nothing),
            Area::Under(path) => Ok(Area::Under(path.clone()?)),
            Area::Names(path, names) => Ok(Area::Names(path.clone()?, names.clone()?)),
        }
    }
}

/// A child program to be run: its name or path and its arguments, the variables of its environment, each a name and
/// a value, its working directory, what it may change, and the paths whose files it reads.
#[derive(Debug, Drop)]
pub struct Request {
    pub program: Text,
    pub args: Texts,
    pub env: Sequence<(Text, Text)>,
    pub dir: Path,
    pub area: Area,
    pub seen: Sequence<Path>,
}

impl Clone for Request {
    ghost is_clone = { λ request made. made ≡ request };

    fn clone(&self) -> Result<Self, AllocError> {
        Ok(Request {
            program: self.program.clone()?,
            args: self.args.clone()?,
            env: self.env.clone()?,
            dir: self.dir.clone()?,
            area: self.area.clone()?,
            seen: self.seen.clone()?,
        })
    }
}

/// How a child program ended, 0 where it did its work, and what it wrote to its two outputs.
#[derive(Debug, Drop)]
pub struct Reply {
    pub code: u8,
    pub out: Bytes,
    pub err: Bytes,
}

/// What a child program of a script does to the tree: it writes a file, copies one that it sees, or takes a file or
/// a link away.
#[derive(Debug, Drop)]
pub enum Effect {
    Write {
        path: Path,
        bytes: Bytes,
        exec: bool,
    },
    Copy {
        from: Path,
        to: Path,
    },
    Remove(Path),
}

/// One row of a script: what the program with these arguments answers and does, where it sees a file at each path
/// that it needs.
#[derive(Debug, Drop)]
pub struct EffectRow {
    pub program: Text,
    pub args: Texts,
    pub needs: Sequence<Path>,
    pub code: u8,
    pub out: Bytes,
    pub err: Bytes,
    pub effects: Sequence<Effect>,
}
