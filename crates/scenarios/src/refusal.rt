// The refusals that no command gives yet, each with a sample of what it carries: what their numbers and lines are.

use kb_world::{Key, Path, PathError, Refusal, Spot, Text};
use std::alloc::{AllocError, Global};

fn key(alloc: Global) -> Result<Key, AllocError> {
    Ok(Key {
        module: Text::of(alloc, "hello")?,
        version: Text::of(alloc, "1.0")?,
    })
}

fn path(alloc: Global) -> Result<Path, AllocError> {
    match Path::parse(alloc, "/lib/modules/6.1.0/updates/dkms/hello.ko") {
        Ok(path) => Ok(path),
        Err(PathError::NotAPath | PathError::NoMemory) => Err(AllocError),
    }
}

fn excluded(alloc: Global) -> Result<Refusal, AllocError> {
    let spot = Spot {
        kernel: Text::of(alloc, "6.1.0")?,
        arch: Text::of(alloc, "x86_64")?,
    };
    Ok(Refusal::Excluded {
        key: key(alloc)?,
        spot,
    })
}

// The refusals of packages and their builds.
fn of_package(alloc: Global, number: u64) -> Result<Option<Refusal>, AllocError> {
    Ok(Some(match number {
        3 => Refusal::NotAdded { key: key(alloc)? },
        11 => excluded(alloc)?,
        13 => Refusal::AlreadyBuilt { key: key(alloc)? },
        14 => Refusal::NotBuilt { key: key(alloc)? },
        15 => Refusal::AlreadyInstalled { key: key(alloc)? },
        16 => Refusal::NotInstalled { key: key(alloc)? },
        17 => Refusal::NoModule {
            name: Text::of(alloc, "hello")?,
        },
        21 => Refusal::ChildFailed {
            which: Text::of(alloc, "patch 0")?,
            code: 1,
        },
        _ => return Ok(None),
    }))
}

// The refusals of paths.
fn of_path(alloc: Global, number: u64) -> Result<Option<Refusal>, AllocError> {
    Ok(Some(match number {
        6 => Refusal::SourceThere { path: path(alloc)? },
        12 => Refusal::NoKernel { path: path(alloc)? },
        18 => Refusal::Claimed {
            path: path(alloc)?,
            module: Text::of(alloc, "hello")?,
        },
        19 => Refusal::Changed { path: path(alloc)? },
        22 => Refusal::NoImage { path: path(alloc)? },
        23 => Refusal::NoToken,
        24 => Refusal::ImageInside { path: path(alloc)? },
        _ => return Ok(None),
    }))
}

/// The sample of this number, where no command gives that refusal yet.
pub fn sample(alloc: Global, number: u64) -> Result<Option<Refusal>, AllocError> {
    match of_package(alloc, number)? {
        Some(refusal) => Ok(Some(refusal)),
        None => of_path(alloc, number),
    }
}
