// What a world changes in the system's files. A path is its text, which begins with `/`. Each change is on the disk
// before it answers.
ghost use Rattle.std.specs.Prelude.{◌≡◌, ◌≢◌, IfOk, IfErr};
ghost use Rattle.std.specs.IoError.{error_kind};
ghost use Rattle.kb_real.specs.Modes.{file_mode};

use crate::files::is_absence;
use crate::pieces::write_whole;
use std::fs::{Files, Metadata, OpenFile, OpenOptions, Permissions};
use std::io::ErrorKind;
use std::os::unix::fs::{MetadataExt, OpenOptionsExt, PermissionsExt};
use std::path::Path;
use std::{fs, io};

// What a new directory lets its owner, its group and others do, as far as the umask leaves it.
const DIRECTORY_MODE: u32 = 0o755;

/// The path of the directory that the path stands in; the root's is the root.
pub fn parent_of(path: &str) -> Path<'_> {
    match Path::new(path).parent() {
        Some(parent) => parent,
        None => Path::new("/"),
    }
}

// What came of a step behind a change. Want of memory is to say that nothing was changed, so here it is told as another
// error.
fn after_change<T>(answer: io::Result<T>) -> io::Result<T>
    ensures ok { IfOk answer (λ value. result ≡ Ok value) }
    ensures err { IfErr answer (λ error. error_kind error ≢ ErrorKind.OutOfMemory → result ≡ answer) }
    ensures no_memory { IfErr result (λ error. error_kind error ≢ ErrorKind.OutOfMemory) }
{
    match answer {
        Err(error) if error.kind() == ErrorKind::OutOfMemory => Err(io::Error::from(
            ErrorKind::Other,
        )),
        answer => answer,
    }
}

fn open_and_sync<R: Files>(rt: &R, path: Path<'_>) -> io::Result<()> {
    fs::open(rt, path)?.sync_all()
}

// Waits until what the directory lists is on the disk. What it lists was changed before.
fn sync_directory<R: Files>(rt: &R, path: Path<'_>) -> io::Result<()>
    ensures { IfErr result (λ error. error_kind error ≢ ErrorKind.OutOfMemory) }
{
    after_change(open_and_sync(rt, path))
}

/// Makes a directory, and waits until it and its place in its parent are on the disk.
pub fn make_directory<R: Files>(rt: &R, path: &str) -> io::Result<()> {
    rt.create_dir_with_mode(path, DIRECTORY_MODE)?;
    sync_directory(rt, Path::new(path))?;
    sync_directory(rt, parent_of(path))
}

/// Makes a link with this text, and waits until its place in its directory is on the disk.
pub fn make_link<R: Files>(rt: &R, path: &str, text: &str) -> io::Result<()> {
    rt.symlink(text, path)?;
    sync_directory(rt, parent_of(path))
}

// What a new file lets its owner, its group and others do.
fn file_mode(exec: bool) -> u32
    ensures { result ≡ file_mode exec }
{
    if exec { 0o755 } else { 0o644 }
}

// Makes a file of these bytes, and waits until it is on the disk. Its mode is set once more when it is open, since the
// umask may have taken the execute bit.
fn create_file<R: Files>(rt: &R, path: &str, bytes: &[u8], mode: u32) -> io::Result<()> {
    let mut options = OpenOptions::new();
    options.write(true).create_new(true).mode(mode);
    let mut file = options.open(rt, path)?;
    file.set_permissions(Permissions::from_mode(mode))?;
    write_whole(&mut file, bytes)?;
    file.sync_all()
}

/// Makes a file of these bytes, and waits until it and its place in its directory are on the disk. An error may leave
/// a file of a part of them. Want of memory is told as another error, since the file may be there already.
pub fn put_file<R: Files>(rt: &R, path: &str, bytes: &[u8], exec: bool) -> io::Result<()>
    ensures { IfErr result (λ error. error_kind error ≢ ErrorKind.OutOfMemory) }
{
    after_change(create_file(rt, path, bytes, file_mode(exec)))?;
    sync_directory(rt, parent_of(path))
}

// What stands at the path, which must be a regular file or a link.
fn leaf_at<R: Files>(rt: &R, path: &str) -> io::Result<Metadata> {
    let metadata = fs::symlink_metadata(rt, path)?;
    if metadata.is_file() || metadata.is_symlink() {
        Ok(metadata)
    } else {
        Err(io::Error::from(ErrorKind::Unsupported))
    }
}

// What stands at the path, if anything.
fn leaf_if_any<R: Files>(rt: &R, path: &str) -> io::Result<Option<Metadata>> {
    match leaf_at(rt, path) {
        Ok(metadata) => Ok(Some(metadata)),
        Err(error) if is_absence(&error) => Ok(None),
        Err(error) => Err(error),
    }
}

/// Moves a file or a link to the place of nothing, a file or a link, and waits until both directories are on the disk.
/// Two names of one file are an error: rename(2) would leave both.
pub fn move_leaf<R: Files>(rt: &R, from: &str, to: &str) -> io::Result<()> {
    let source = leaf_at(rt, from)?;
    if let Some(target) = leaf_if_any(rt, to)? {
        let is_one = source.dev() == target.dev() && source.ino() == target.ino();
        if is_one && from != to {
            return Err(io::Error::from(ErrorKind::Unsupported));
        }
    }
    fs::rename(rt, from, to)?;
    sync_directory(rt, parent_of(to))?;
    sync_directory(rt, parent_of(from))
}

/// Takes a file or a link away, and waits until its directory is on the disk.
pub fn remove_leaf<R: Files>(rt: &R, path: &str) -> io::Result<()> {
    leaf_at(rt, path)?;
    fs::remove_file(rt, path)?;
    sync_directory(rt, parent_of(path))
}

/// Takes an empty directory away, and waits until its parent is on the disk.
pub fn remove_directory<R: Files>(rt: &R, path: &str) -> io::Result<()> {
    fs::remove_dir(rt, path)?;
    sync_directory(rt, parent_of(path))
}
