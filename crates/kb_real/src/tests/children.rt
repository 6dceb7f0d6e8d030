// Real child programs.
use crate::tests::calls::Host;
use crate::tests::{below, make_folder, remove_folder};
use kb_world::{Area, Path, Request, Sequence, Text, Texts, WorldError};
use std::alloc::Global;
use std::fs;
use std::process::Abort;
use std::test::Fail;

fn texts(alloc: Global, all: &[&str]) -> Result<Texts, Fail> {
    let mut texts = Texts::new(alloc);
    for text in all {
        texts.push(Text::of(alloc, text)?)?;
    }
    Ok(texts)
}

// A request that may change its directory.
pub fn request(
    alloc: Global,
    directory: &Path,
    program: &str,
    args: &[&str],
) -> Result<Request, Fail> {
    Ok(Request {
        program: Text::of(alloc, program)?,
        args: texts(alloc, args)?,
        env: Sequence::new(alloc),
        dir: directory.clone()?,
        area: Area::Under(directory.clone()?),
        seen: Sequence::new(alloc),
    })
}

/// The code of a line of the shell that was run in the directory.
pub fn shell(alloc: Global, world: &mut Host, directory: &Path, line: &str) -> Result<u8, Fail> {
    let request = request(alloc, directory, "sh", &["-c", line])?;
    Ok(world.run(alloc, &request)?.code)
}

fn run_lines(
    rt: &impl Abort,
    alloc: Global,
    world: &mut Host,
    directory: &Path,
) -> Result<(), Fail> {
    for (line, code, out, err) in [
        ("printf out; printf err >&2; exit 3", 3, "out", "err"),
        ("cat", 0, "", ""),
        ("printf out; kill -KILL $$", 137, "out", ""),
        ("kill -TERM $$", 143, "", ""),
    ] {
        let request = request(alloc, directory, "/bin/sh", &["-c", line])?;
        let reply = world.run(alloc, &request)?;
        assert_eq!(rt; reply.code, code, "{line}");
        assert_eq!(rt; reply.out.as_slice(), out.as_bytes(), "{line}");
        assert_eq!(rt; reply.err.as_slice(), err.as_bytes(), "{line}");
    }
    Ok(())
}

#[test]
fn tells_how_a_child_ended(rt: HostRuntime) -> Result<(), Fail> {
    let folder = make_folder(rt, "tells_how_a_child_ended")?;
    run_lines(&rt, rt.alloc(), &mut Host::new(rt), &folder)?;
    remove_folder(rt, &folder)
}

// The child prints to one output alone until that is read whole, and then to the other.
#[test]
fn keeps_the_first_of_much_output(rt: HostRuntime) -> Result<(), Fail> {
    let alloc = rt.alloc();
    let folder = make_folder(rt, "keeps_the_first_of_much_output")?;
    let line =
        "printf err >&2; head -c 10485760 /dev/zero >&2; printf out; head -c 10485760 /dev/zero";
    let request = request(alloc, &folder, "sh", &["-c", line])?;
    let reply = Host::new(rt).run(alloc, &request)?;
    assert_eq!(rt; reply.code, 0);
    assert_eq!(rt; reply.out.as_slice().len(), 4_194_304);
    assert!(rt; reply.out.as_slice().starts_with(b"out"));
    assert_eq!(rt; reply.err.as_slice().len(), 4_194_304);
    assert!(rt; reply.err.as_slice().starts_with(b"err"));
    remove_folder(rt, &folder)
}

#[test]
fn a_child_that_cannot_be_started_is_a_fault(rt: HostRuntime) -> Result<(), Fail> {
    let alloc = rt.alloc();
    let folder = make_folder(rt, "a_child_that_cannot_be_started_is_a_fault")?;
    let absent = below(alloc, &folder, "absent")?;
    for (directory, program) in [
        (&folder, "kmodboot-absent"),
        (&folder, "/"),
        (&absent, "true"),
    ] {
        let request = request(alloc, directory, program, &[])?;
        let reply = Host::new(rt).run(alloc, &request);
        assert_eq!(rt; reply.err(), Some(WorldError::Failed), "{program}");
    }
    remove_folder(rt, &folder)
}

#[test]
fn a_child_has_its_environment_and_directory(rt: HostRuntime) -> Result<(), Fail> {
    let alloc = rt.alloc();
    let folder = make_folder(rt, "a_child_has_its_environment_and_directory")?;
    let mut request = request(alloc, &folder, "env", &[])?;
    for (name, value) in [("ONE", "1"), ("TWO", "a b"), ("PATH", "/nowhere")] {
        request
            .env
            .push((Text::of(alloc, name)?, Text::of(alloc, value)?))?;
    }
    let reply = Host::new(rt).run(alloc, &request)?;
    assert_eq!(rt;
        reply.out.as_slice(),
        b"ONE=1\nPATH=/usr/sbin:/usr/bin:/sbin:/bin\nTWO=a b\n".as_slice()
    );
    request.program = Text::of(alloc, "pwd")?;
    let reply = Host::new(rt).run(alloc, &request)?;
    let real = fs::canonicalize(&rt, folder.text(alloc)?.as_str())?;
    let line = format!(in alloc; "{}\n", real.as_str())?;
    assert_eq!(rt; reply.out.as_slice(), line.as_bytes());
    remove_folder(rt, &folder)
}
