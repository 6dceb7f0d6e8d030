// The calls of the real world without their clauses: a test shows what came to stand on the disk and proves nothing, so
// no clause has to be carried from one call to the next.
use crate::HostWorld;
use kb_world::{Area, Bytes, Kind, Path, Reply, Request, Text, World, WorldError};
use std::alloc::Global;

#[derive(Drop)]
pub struct Host {
    world: HostWorld<HostRuntime>,
}

impl Host {
    pub fn new(rt: HostRuntime) -> Host {
        Host {
            world: HostWorld::new(rt),
        }
    }

    pub fn look(&mut self, alloc: Global, path: &Path) -> Result<Kind, WorldError> {
        self.world.look(alloc, path)
    }

    pub fn list(&mut self, alloc: Global, path: &Path) -> Result<Vec<Text>, WorldError> {
        self.world.list(alloc, path)
    }

    pub fn read(&mut self, alloc: Global, path: &Path) -> Result<Bytes, WorldError> {
        self.world.read(alloc, path)
    }

    pub fn read_link(&mut self, alloc: Global, path: &Path) -> Result<Text, WorldError> {
        self.world.read_link(alloc, path)
    }

    pub fn make_dir(&mut self, alloc: Global, path: &Path) -> Result<(), WorldError> {
        self.world.make_dir(alloc, path)
    }

    pub fn put(
        &mut self,
        alloc: Global,
        path: &Path,
        bytes: &[u8],
        exec: bool,
    ) -> Result<(), WorldError> {
        self.world.put(alloc, path, bytes, exec)
    }

    pub fn put_link(&mut self, alloc: Global, path: &Path, text: &str) -> Result<(), WorldError> {
        self.world.put_link(alloc, path, text)
    }

    pub fn rename(&mut self, alloc: Global, from: &Path, to: &Path) -> Result<(), WorldError> {
        self.world.rename(alloc, from, to)
    }

    pub fn unlink(&mut self, alloc: Global, path: &Path) -> Result<(), WorldError> {
        self.world.unlink(alloc, path)
    }

    pub fn remove_dir(&mut self, alloc: Global, path: &Path) -> Result<(), WorldError> {
        self.world.remove_dir(alloc, path)
    }

    pub fn run(&mut self, alloc: Global, request: &Request) -> Result<Reply, WorldError> {
        self.world.run(alloc, request)
    }

    pub fn settle(&mut self, alloc: Global, area: &Area) -> Result<(), WorldError> {
        self.world.settle(alloc, area)
    }
}
