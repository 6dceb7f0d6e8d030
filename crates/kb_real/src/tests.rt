// Calls against the real system, each test in a folder of its own, which it takes away again, and loops over readers
// and writers that halt.
ghost use Rattle.std.specs.Prelude.{◌≤◌, IfOk};

use crate::StdSink;
use crate::pieces::{length_to_end, write_whole};
use crate::tests::calls::Host;
use kb_world::{Kind, Path, Sink, SinkError, WorldError};
use std::alloc::Global;
use std::fs::{OpenOptions, Permissions};
use std::io::{ErrorKind, Read, Write};
use std::os::unix::fs::PermissionsExt;
use std::test::Fail;
use std::{env, fs, io, process};

mod calls;
mod children;
mod files;
mod settle;

pub fn make_folder(rt: HostRuntime, name: &str) -> Result<Path, Fail> {
    let temporary = env::temp_dir(&rt)?;
    let id = process::id(rt.process());
    let text = format!(in rt.alloc(); "{}/kmodboot-{id}-{name}", temporary.as_str())?;
    fs::create_dir(&rt, text.as_str())?;
    Ok(Path::parse(rt.alloc(), text.as_str())?)
}

pub fn remove_folder(rt: HostRuntime, folder: &Path) -> Result<(), Fail> {
    fs::remove_dir_all(&rt, folder.text(rt.alloc())?.as_str())?;
    Ok(())
}

// A path below the folder.
pub fn below(alloc: Global, folder: &Path, rest: &str) -> Result<Path, Fail> {
    let text = format!(in alloc; "{folder}/{rest}")?;
    Ok(Path::parse(alloc, text.as_str())?)
}

#[test]
fn makes_a_directory(rt: HostRuntime) -> Result<(), Fail> {
    let alloc = rt.alloc();
    let folder = make_folder(rt, "makes_a_directory")?;
    let mut world = Host::new(rt);
    let path = below(alloc, &folder, "entry")?;
    assert_eq!(rt; world.look(alloc, &path), Ok(Kind::Absent));
    assert_eq!(rt; world.make_dir(alloc, &path), Ok(()));
    assert_eq!(rt; world.look(alloc, &path), Ok(Kind::Dir));
    assert_eq!(rt; world.make_dir(alloc, &path), Err(WorldError::Failed));
    let orphan = below(alloc, &folder, "absent/entry")?;
    assert_eq!(rt; world.make_dir(alloc, &orphan), Err(WorldError::Failed));
    assert_eq!(rt; world.look(alloc, &orphan), Ok(Kind::Absent));
    remove_folder(rt, &folder)
}

#[test]
fn reads_the_link_that_it_made(rt: HostRuntime) -> Result<(), Fail> {
    let alloc = rt.alloc();
    let folder = make_folder(rt, "reads_the_link_that_it_made")?;
    let mut world = Host::new(rt);
    let path = below(alloc, &folder, "entry")?;
    assert_eq!(rt;
        world.read_link(alloc, &path).err(),
        Some(WorldError::Failed)
    );
    assert_eq!(rt; world.put_link(alloc, &path, "/usr/src/hello-1.0"), Ok(()));
    assert_eq!(rt; world.look(alloc, &path), Ok(Kind::Link));
    assert_eq!(rt;
        world.read_link(alloc, &path)?.as_str(),
        "/usr/src/hello-1.0"
    );
    assert_eq!(rt; world.put_link(alloc, &path, "/"), Err(WorldError::Failed));
    assert_eq!(rt;
        world.read_link(alloc, &folder).err(),
        Some(WorldError::Failed)
    );
    let orphan = below(alloc, &folder, "absent/entry")?;
    assert_eq!(rt;
        world.put_link(alloc, &orphan, "/"),
        Err(WorldError::Failed)
    );
    remove_folder(rt, &folder)
}

#[test]
fn looks_at_files(rt: HostRuntime) -> Result<(), Fail> {
    let alloc = rt.alloc();
    let folder = make_folder(rt, "looks_at_files")?;
    let mut world = Host::new(rt);
    let path = below(alloc, &folder, "entry")?;
    let text = path.text(alloc)?;
    for (bytes, mode, exec) in [
        ("", 0o644, false),
        ("hello", 0o744, true),
        ("hello", 0o655, false),
    ] {
        fs::write(&rt, text.as_str(), bytes)?;
        fs::set_permissions(&rt, text.as_str(), Permissions::from_mode(mode))?;
        let len = bytes.len() as u64;
        assert_eq!(rt;
            world.look(alloc, &path),
            Ok(Kind::File { len, exec }),
            "{mode}"
        );
    }
    let inside = below(alloc, &folder, "entry/inside")?;
    assert_eq!(rt; world.look(alloc, &inside), Ok(Kind::Absent));
    assert_eq!(rt; world.make_dir(alloc, &inside), Err(WorldError::Failed));
    remove_folder(rt, &folder)
}

// The system tells 0 as the length of a file below /proc.
#[test]
fn counts_the_bytes_of_a_file_below_proc(rt: HostRuntime) -> Result<(), Fail> {
    let alloc = rt.alloc();
    assert_eq!(rt; fs::metadata(&rt, "/proc/version")?.len(), 0);
    let len = fs::read(&rt, "/proc/version")?.len() as u64;
    assert!(rt; len > 0);
    let path = Path::parse(alloc, "/proc/version")?;
    let kind = Kind::File { len, exec: false };
    assert_eq!(rt; Host::new(rt).look(alloc, &path), Ok(kind));
    Ok(())
}

#[test]
fn a_device_is_a_fault(rt: HostRuntime) -> Result<(), Fail> {
    let path = Path::parse(rt.alloc(), "/dev/null")?;
    assert_eq!(rt;
        Host::new(rt).look(rt.alloc(), &path),
        Err(WorldError::Failed)
    );
    Ok(())
}

#[test]
fn writes_to_both_standard_streams(rt: HostRuntime) {
    assert_eq!(rt; StdSink::out(rt).write(b"to standard output\n"), Ok(()));
    assert_eq!(rt; StdSink::err(rt).write(b"to standard error\n"), Ok(()));
    assert_eq!(rt; StdSink::out(rt).write(b""), Ok(()));
}

#[test]
fn a_full_device_is_a_fault(rt: HostRuntime) -> Result<(), Fail> {
    let device = OpenOptions::new().write(true).open(&rt, "/dev/full")?;
    assert_eq!(rt;
        StdSink::new(device).write(b"hello"),
        Err(SinkError::Failed)
    );
    Ok(())
}

// Takes or gives one byte, is interrupted, and then takes or gives one more and fails, or no more.
#[derive(Drop)]
struct Halting {
    calls: u8,
    fails: bool,
}

impl Halting {
    fn next(&mut self, room: usize) -> io::Result<usize>
        ensures { IfOk result (λ n. n ≤ room) }
    {
        self.calls = self.calls.saturating_add(1);
        match self.calls {
            1 | 3 => Ok(room.min(1)),
            2 => Err(io::Error::from(ErrorKind::Interrupted)),
            _ if self.fails => Err(io::Error::from(ErrorKind::BrokenPipe)),
            _ => Ok(0),
        }
    }
}

impl Read for Halting {
    fn read(&mut self, buf: &mut [u8]) -> io::Result<usize> {
        self.next(buf.len())
    }
}

impl Write for Halting {
    fn write(&mut self, buf: &[u8]) -> io::Result<usize> {
        self.next(buf.len())
    }

    fn flush(&mut self) -> io::Result<()> {
        Ok(())
    }
}

#[test]
fn halts_where_its_reader_or_writer_does(rt: HostRuntime) -> Result<(), Fail> {
    let halting = |fails| Halting { calls: 0, fails };
    assert_eq!(rt; length_to_end(&mut halting(false))?, 2);
    let failed = length_to_end(&mut halting(true)).err().map(|e| e.kind());
    assert_eq!(rt; failed, Some(ErrorKind::BrokenPipe));
    assert!(rt; write_whole(&mut halting(false), b"ab").is_ok());
    let refused = write_whole(&mut halting(false), b"abc")
        .err()
        .map(|e| e.kind());
    assert_eq!(rt; refused, Some(ErrorKind::WriteZero));
    let failed = write_whole(&mut halting(true), b"abc")
        .err()
        .map(|e| e.kind());
    assert_eq!(rt; failed, Some(ErrorKind::BrokenPipe));
    Ok(())
}
