// Areas of the real file system.
use crate::tests::calls::Host;
use crate::tests::children::shell;
use crate::tests::{below, make_folder, remove_folder};
use kb_world::{Area, Path, Text, Texts, WorldError};
use std::alloc::Global;
use std::process::Abort;
use std::test::Fail;

fn settle_areas(
    rt: &impl Abort,
    alloc: Global,
    world: &mut Host,
    folder: &Path,
) -> Result<(), Fail> {
    assert_eq!(rt;
        shell(
            alloc,
            world,
            folder,
            "mkdir -p a/b; touch a/b/file file; ln -s .. a/link; mkfifo a/pipe pipe"
        )?,
        0
    );
    for name in ["a", "file", "absent", "absent/entry", "file/entry"] {
        let path = below(alloc, folder, name)?;
        assert_eq!(rt;
            world.settle(alloc, &Area::Under(path.clone()?)),
            Ok(()),
            "{name}"
        );
        let mut names = Texts::new(alloc);
        for name in ["file", "pipe", "absent", "a/b", ""] {
            names.push(Text::of(alloc, name)?)?;
        }
        assert_eq!(rt;
            world.settle(alloc, &Area::Names(path, names)),
            Ok(()),
            "{name}"
        );
    }
    assert_eq!(rt; world.settle(alloc, &Area::Nothing), Ok(()));
    assert_eq!(rt;
        shell(alloc, world, folder, "touch \"$(printf 'a/b/\\377')\"")?,
        0
    );
    let path = below(alloc, folder, "a")?;
    assert_eq!(rt;
        world.settle(alloc, &Area::Under(path)),
        Err(WorldError::Failed)
    );
    Ok(())
}

#[test]
fn settles_what_children_left(rt: HostRuntime) -> Result<(), Fail> {
    let folder = make_folder(rt, "settles_what_children_left")?;
    settle_areas(&rt, rt.alloc(), &mut Host::new(rt), &folder)?;
    remove_folder(rt, &folder)
}
