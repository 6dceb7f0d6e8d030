// What a world reads of the system's files. A path is its text, which begins with `/`.
ghost use Rattle.std.specs.Prelude.{◌≡◌, ◌≢◌, ◌⊎◌, ◌↔◌, ℕ, IfErr, IfOk, IsErr, IsTrue};
ghost use Rattle.std.specs.List.{list_all};
ghost use Rattle.std.specs.IoError.{error_kind};
ghost use Rattle.std.specs.Fs.{metadata_len, metadata_mode, file_type, IsDir, IsFile, IsSymlink};
ghost use Rattle.kb_world.specs.Names.{is_name};
ghost use Rattle.kb_real.specs.Modes.{owner_executes};

use crate::listing::names_in;
use crate::pieces::{bytes_to_end, length_to_end};
use kb_world::{Bytes, Kind, Text};
use std::alloc::Global;
use std::fs::{Files, Metadata};
use std::io::ErrorKind;
use std::os::unix::fs::MetadataExt;
use std::{fs, io};

// The bit of a file's mode that lets its owner run it.
const OWNER_EXECUTES: u32 = 0o100;

/// Nothing stands at the path: it isn't there, or what it should stand in is no directory.
pub fn is_absence(error: &io::Error) -> bool
    ensures { IsTrue result ↔ ((error_kind error.now ≡ ErrorKind.NotFound) ⊎ (error_kind error.now ≡ ErrorKind.NotADirectory)) }
{
    matches!(error.kind(), ErrorKind::NotFound | ErrorKind::NotADirectory)
}

// The length of a file in bytes. The system gives 0 for files that it makes up as they are read, such as those below
// /proc, so a length of 0 is counted by reading.
fn file_length<R: Files>(rt: &R, path: &str, metadata: &Metadata) -> io::Result<u64>
    ensures { metadata_len metadata.now ≢ 0 → result ≡ Ok (metadata_len metadata.now) }
{
    match metadata.len() {
        0 => length_to_end(&mut fs::open(rt, path)?),
        len => Ok(len),
    }
}

// What the system told of the thing at the path, as a kind.
fn kind_told<R: Files>(rt: &R, path: &str, metadata: &Metadata) -> io::Result<Kind>
    ensures dir { IsDir (file_type metadata.now) → result ≡ Ok Kind.Dir }
    ensures link { IsSymlink (file_type metadata.now) → result ≡ Ok Kind.Link }
    ensures file { IsFile (file_type metadata.now) → metadata_len metadata.now ≢ 0
        → result ≡ Ok (Kind.File (metadata_len metadata.now) (owner_executes (metadata_mode metadata.now))) }
    ensures file_to_count { IsFile (file_type metadata.now)
        → IfOk result (λ kind. (len : ℕ) × (kind ≡ Kind.File len (owner_executes (metadata_mode metadata.now)))) }
    ensures other { ¬ IsDir (file_type metadata.now) → ¬ IsSymlink (file_type metadata.now) → ¬ IsFile (file_type metadata.now) → IsErr result }
    ensures no_want { ¬ IsDir (file_type metadata.now) → ¬ IsSymlink (file_type metadata.now) → ¬ IsFile (file_type metadata.now)
        → IfErr result (λ error. error_kind error ≡ ErrorKind.Unsupported) }
{
    if metadata.is_dir() {
        Ok(Kind::Dir)
    } else if metadata.is_symlink() {
        Ok(Kind::Link)
    } else if metadata.is_file() {
        Ok(Kind::File {
            len: file_length(rt, path, metadata)?,
            exec: metadata.mode() & OWNER_EXECUTES != 0,
        })
    } else {
        Err(io::Error::from(ErrorKind::Unsupported))
    }
}

/// What stands at the path; a link at its end isn't followed, one above it is. A thing that is neither a directory, a
/// regular file nor a link is an error. A file has its execute bit where its owner may run it.
pub fn kind_at<R: Files>(rt: &R, path: &str) -> io::Result<Kind> {
    match fs::symlink_metadata(rt, path) {
        Ok(metadata) => kind_told(rt, path, &metadata),
        Err(error) if is_absence(&error) => Ok(Kind::Absent),
        Err(error) => Err(error),
    }
}

/// What the link at the path says. A text that isn't UTF-8 is an error.
pub fn link_text_at<R: Files>(rt: &R, alloc: Global, path: &str) -> io::Result<Text> {
    let text = rt.read_link(alloc, path)?;
    Ok(Text::from_string(text.into_string()))
}

/// All that the regular file at the path holds. Any other thing is an error, and is never opened: to open a named pipe
/// is to wait for its writer.
pub fn bytes_at<R: Files>(rt: &R, alloc: Global, path: &str) -> io::Result<Bytes> {
    if !fs::symlink_metadata(rt, path)?.is_file() {
        return Err(io::Error::from(ErrorKind::Unsupported));
    }
    bytes_to_end(alloc, &mut fs::open(rt, path)?)
}

/// The names of the entries of the directory at the path, each once, by bytes. A link at its end isn't followed.
pub fn names_at<R: Files>(rt: &R, alloc: Global, path: &str) -> io::Result<Vec<Text>>
    ensures { IfOk result (λ names. IsTrue (list_all is_name names.items)) }
{
    let listing = bytes_to_end(alloc, &mut rt.open_dir(path)?)?;
    names_in(alloc, listing.as_slice())
}
