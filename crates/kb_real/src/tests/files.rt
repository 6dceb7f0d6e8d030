// Files, links and directories of the real file system.
use crate::tests::calls::Host;
use crate::tests::children::shell;
use crate::tests::{below, make_folder, remove_folder};
use kb_world::{Kind, Path, WorldError};
use std::alloc::Global;
use std::process::Abort;
use std::test::Fail;

const FAILED: Result<(), WorldError> = Err(WorldError::Failed);

fn put_files(rt: &impl Abort, alloc: Global, world: &mut Host, folder: &Path) -> Result<(), Fail> {
    for (name, bytes, exec) in [("a", "", false), ("b", "hello", true)] {
        let path = below(alloc, folder, name)?;
        assert_eq!(rt; world.put(alloc, &path, bytes.as_bytes(), exec), Ok(()));
        let len = bytes.len() as u64;
        assert_eq!(rt; world.look(alloc, &path), Ok(Kind::File { len, exec }));
        assert_eq!(rt; world.read(alloc, &path)?.as_slice(), bytes.as_bytes());
    }
    let modes = "test \"$(stat -c %a a b | tr '\\n' ,)\" = 644,755,";
    assert_eq!(rt; shell(alloc, world, folder, modes)?, 0);
    assert_eq!(rt; world.put(alloc, folder, b"", false), FAILED);
    for name in ["a", "absent/a", "a/a"] {
        let path = below(alloc, folder, name)?;
        assert_eq!(rt; world.put(alloc, &path, b"", false), FAILED, "{name}");
    }
    Ok(())
}

#[test]
fn puts_files(rt: HostRuntime) -> Result<(), Fail> {
    let folder = make_folder(rt, "puts_files")?;
    put_files(&rt, rt.alloc(), &mut Host::new(rt), &folder)?;
    remove_folder(rt, &folder)
}

fn refuse_reads(
    rt: &impl Abort,
    alloc: Global,
    world: &mut Host,
    folder: &Path,
) -> Result<(), Fail> {
    assert_eq!(rt;
        shell(
            alloc,
            world,
            folder,
            "mkdir directory; mkfifo pipe; touch file; ln -s file link; ln -s directory way"
        )?,
        0
    );
    for name in ["directory", "pipe", "link", "absent", "file/inside"] {
        let path = below(alloc, folder, name)?;
        assert_eq!(rt;
            world.read(alloc, &path).err(),
            Some(WorldError::Failed),
            "{name}"
        );
    }
    for name in ["pipe", "file", "way", "absent"] {
        let path = below(alloc, folder, name)?;
        assert_eq!(rt;
            world.list(alloc, &path).err(),
            Some(WorldError::Failed),
            "{name}"
        );
    }
    let pipe = below(alloc, folder, "pipe")?;
    assert_eq!(rt; world.look(alloc, &pipe).err(), Some(WorldError::Failed));
    Ok(())
}

#[test]
fn reads_files_and_lists_directories_alone(rt: HostRuntime) -> Result<(), Fail> {
    let folder = make_folder(rt, "reads_files_and_lists_directories_alone")?;
    refuse_reads(&rt, rt.alloc(), &mut Host::new(rt), &folder)?;
    remove_folder(rt, &folder)
}

fn list_names(rt: &impl Abort, alloc: Global, world: &mut Host, folder: &Path) -> Result<(), Fail> {
    assert!(rt; world.list(alloc, folder)?.is_empty());
    assert_eq!(rt;
        shell(
            alloc,
            world,
            folder,
            "touch b .c 'a b'; mkdir a; ln -s nowhere B"
        )?,
        0
    );
    let names = world.list(alloc, folder)?;
    let mut told = String::new(alloc);
    for name in &names {
        told.push_str(name.as_str())?;
        told.push_str("/")?;
    }
    assert_eq!(rt; told.as_str(), ".c/B/a/a b/b/");
    assert_eq!(rt;
        shell(alloc, world, folder, "touch \"$(printf '\\377')\"")?,
        0
    );
    assert_eq!(rt; world.list(alloc, folder).err(), Some(WorldError::Failed));
    Ok(())
}

#[test]
fn lists_names_by_bytes(rt: HostRuntime) -> Result<(), Fail> {
    let folder = make_folder(rt, "lists_names_by_bytes")?;
    list_names(&rt, rt.alloc(), &mut Host::new(rt), &folder)?;
    remove_folder(rt, &folder)
}

// Each row is done in the directory as the rows before it left it.
fn move_files(rt: &impl Abort, alloc: Global, world: &mut Host, folder: &Path) -> Result<(), Fail> {
    assert_eq!(rt;
        shell(
            alloc,
            world,
            folder,
            "mkdir d e; mkfifo p; printf 1 > f; printf 2 > g; ln g h; ln -s f l"
        )?,
        0
    );
    for (from, to, done) in [
        ("f", "d/f", true),
        ("g", "d/f", true),
        ("l", "d/f", true),
        ("d/f", "f", true),
        ("absent", "f", false),
        ("f", "absent/f", false),
        ("f", "h/f", false),
        ("f", "e", false),
        ("d", "i", false),
        ("p", "i", false),
        ("f", "p", false),
    ] {
        let (source, target) = (below(alloc, folder, from)?, below(alloc, folder, to)?);
        let wanted = if done { Ok(()) } else { FAILED };
        assert_eq!(rt;
            world.rename(alloc, &source, &target),
            wanted,
            "{from} {to}"
        );
    }
    let (link, moved) = (below(alloc, folder, "f")?, below(alloc, folder, "l")?);
    assert_eq!(rt; world.read_link(alloc, &link)?.as_str(), "f");
    assert_eq!(rt; world.look(alloc, &moved), Ok(Kind::Absent));
    assert_eq!(rt; shell(alloc, world, folder, "ln h i")?, 0);
    let (first, second) = (below(alloc, folder, "h")?, below(alloc, folder, "i")?);
    assert_eq!(rt; world.rename(alloc, &first, &second), FAILED);
    Ok(())
}

#[test]
fn moves_files_and_links(rt: HostRuntime) -> Result<(), Fail> {
    let folder = make_folder(rt, "moves_files_and_links")?;
    move_files(&rt, rt.alloc(), &mut Host::new(rt), &folder)?;
    remove_folder(rt, &folder)
}

fn remove_all(rt: &impl Abort, alloc: Global, world: &mut Host, folder: &Path) -> Result<(), Fail> {
    assert_eq!(rt;
        shell(
            alloc,
            world,
            folder,
            "mkdir d e; mkfifo p; touch f d/f; ln -s e l"
        )?,
        0
    );
    for (name, done) in [
        ("f", true),
        ("f", false),
        ("d", false),
        ("p", false),
        ("d/f", true),
    ] {
        let path = below(alloc, folder, name)?;
        let wanted = if done { Ok(()) } else { FAILED };
        assert_eq!(rt; world.unlink(alloc, &path), wanted, "{name}");
    }
    assert_eq!(rt; shell(alloc, world, folder, "touch d/f")?, 0);
    for (name, done) in [
        ("d", false),
        ("l", false),
        ("d/f", false),
        ("e", true),
        ("e", false),
    ] {
        let path = below(alloc, folder, name)?;
        let wanted = if done { Ok(()) } else { FAILED };
        assert_eq!(rt; world.remove_dir(alloc, &path), wanted, "{name}");
    }
    let link = below(alloc, folder, "l")?;
    assert_eq!(rt; world.unlink(alloc, &link), Ok(()));
    assert_eq!(rt; world.look(alloc, &link), Ok(Kind::Absent));
    Ok(())
}

#[test]
fn takes_away_files_links_and_empty_directories(rt: HostRuntime) -> Result<(), Fail> {
    let folder = make_folder(rt, "takes_away_files_links_and_empty_directories")?;
    remove_all(&rt, rt.alloc(), &mut Host::new(rt), &folder)?;
    remove_folder(rt, &folder)
}
