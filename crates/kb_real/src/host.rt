// The system's files and child programs as a world.
ghost use Rattle.std.specs.Prelude.{◌≡◌, ◌≢◌, ◌≤◌, IfOk, IfErr, IsTrue};
ghost use Rattle.std.specs.List.{list_all};
ghost use Rattle.std.specs.IoError.{error_kind};
ghost use Rattle.kb_world.specs.Names.{is_name};
ghost use Rattle.kb_real.specs.Faults.{faults_after};
ghost use Rattle.kb_real.specs.Untold.{untold};

use crate::children::run_child;
use crate::faults::Faults;
use crate::settle::sync_area;
use crate::{changes, files};
use kb_world::{Area, Bytes, Kind, Path, Reply, Request, Text, World, WorldError};
use std::alloc::Global;
use std::fs::Files;
use std::io;
use std::io::ErrorKind;
use std::process::{Processes, SystemProcess};

/// The files of the system that the program runs on, and child programs. It doesn't tell its tree: a condition that
/// isn't met, as of a directory that is made where something stands, is a fault. `R` is the runtime, which `main` is
/// given. Its children are the system's own, since their outputs are waited for by their descriptors.
#[derive(Drop)]
pub struct HostWorld<R> {
    rt: R,
    faults: Faults,
}

impl<R: Files + Processes<Started = SystemProcess>> HostWorld<R> {
    /// The files as they are, and no fault so far.
    pub fn new(rt: R) -> HostWorld<R>
        ensures { ⟦<HostWorld<R> as World>⟧.state result ≡ untold 0 }
    {
        HostWorld {
            rt,
            faults: Faults::none(),
        }
    }

    // What a call of the system came to. Want of memory is told as such, and anything else that failed is counted.
    fn tell<T>(&mut self, answer: io::Result<T>) -> Result<T, WorldError>
        ensures ok { IfOk answer (λ value. result ≡ Ok value) }
        ensures no_memory { IfErr answer (λ error. error_kind error ≡ ErrorKind.OutOfMemory → result ≡ Err WorldError.NoMemory) }
        ensures failed { IfErr answer (λ error. error_kind error ≢ ErrorKind.OutOfMemory → result ≡ Err WorldError.Failed) }
        ensures faults { self.new.faults ≡ faults_after result self.old.faults }
        ensures later { self.old.faults ≤ self.new.faults }
    {
        match answer {
            Ok(value) => Ok(value),
            Err(error) if error.kind() == ErrorKind::OutOfMemory => Err(WorldError::NoMemory),
            Err(_) => {
                self.faults.rise();
                Err(WorldError::Failed)
            }
        }
    }

    fn kind_at(&self, alloc: Global, path: &Path) -> io::Result<Kind> {
        files::kind_at(&self.rt, path.text(alloc)?.as_str())
    }

    fn names_at(&self, alloc: Global, path: &Path) -> io::Result<Vec<Text>>
        ensures { IfOk result (λ names. IsTrue (list_all is_name names.items)) }
    {
        files::names_at(&self.rt, alloc, path.text(alloc)?.as_str())
    }

    fn bytes_at(&self, alloc: Global, path: &Path) -> io::Result<Bytes> {
        files::bytes_at(&self.rt, alloc, path.text(alloc)?.as_str())
    }

    fn link_text_at(&self, alloc: Global, path: &Path) -> io::Result<Text> {
        files::link_text_at(&self.rt, alloc, path.text(alloc)?.as_str())
    }

    fn make_directory(&self, alloc: Global, path: &Path) -> io::Result<()> {
        changes::make_directory(&self.rt, path.text(alloc)?.as_str())
    }

    fn put_file(&self, alloc: Global, path: &Path, bytes: &[u8], exec: bool) -> io::Result<()> {
        changes::put_file(&self.rt, path.text(alloc)?.as_str(), bytes, exec)
    }

    fn make_link(&self, alloc: Global, path: &Path, text: &str) -> io::Result<()> {
        changes::make_link(&self.rt, path.text(alloc)?.as_str(), text)
    }

    fn move_leaf(&self, alloc: Global, from: &Path, to: &Path) -> io::Result<()> {
        let from = from.text(alloc)?;
        changes::move_leaf(&self.rt, from.as_str(), to.text(alloc)?.as_str())
    }

    fn remove_leaf(&self, alloc: Global, path: &Path) -> io::Result<()> {
        changes::remove_leaf(&self.rt, path.text(alloc)?.as_str())
    }

    fn remove_directory(&self, alloc: Global, path: &Path) -> io::Result<()> {
        changes::remove_directory(&self.rt, path.text(alloc)?.as_str())
    }
}

impl<R: Files + Processes<Started = SystemProcess>> World for HostWorld<R> {
    ghost use Rattle.std.proofs.lemmas.Option.{none-some};
    ghost use Rattle.kb_real.specs.Untold.{untold};

    ghost state = { λ world. untold world.faults };

    ghost formed = { λ world tree told. absurd (none-some tree told) };

    fn look(&mut self, alloc: Global, path: &Path) -> Result<Kind, WorldError> {
        let kind = self.kind_at(alloc, path);
        self.tell(kind)
    }

    fn list(&mut self, alloc: Global, path: &Path) -> Result<Vec<Text>, WorldError> {
        let names = self.names_at(alloc, path);
        self.tell(names)
    }

    fn read(&mut self, alloc: Global, path: &Path) -> Result<Bytes, WorldError> {
        let bytes = self.bytes_at(alloc, path);
        self.tell(bytes)
    }

    fn read_link(&mut self, alloc: Global, path: &Path) -> Result<Text, WorldError> {
        let text = self.link_text_at(alloc, path);
        self.tell(text)
    }

    fn make_dir(&mut self, alloc: Global, path: &Path) -> Result<(), WorldError> {
        let made = self.make_directory(alloc, path);
        self.tell(made)
    }

    fn put(
        &mut self,
        alloc: Global,
        path: &Path,
        bytes: &[u8],
        exec: bool,
    ) -> Result<(), WorldError> {
        let made = self.put_file(alloc, path, bytes, exec);
        self.tell(made)
    }

    fn put_link(&mut self, alloc: Global, path: &Path, text: &str) -> Result<(), WorldError> {
        let made = self.make_link(alloc, path, text);
        self.tell(made)
    }

    fn rename(&mut self, alloc: Global, from: &Path, to: &Path) -> Result<(), WorldError> {
        let moved = self.move_leaf(alloc, from, to);
        self.tell(moved)
    }

    fn unlink(&mut self, alloc: Global, path: &Path) -> Result<(), WorldError> {
        let gone = self.remove_leaf(alloc, path);
        self.tell(gone)
    }

    fn remove_dir(&mut self, alloc: Global, path: &Path) -> Result<(), WorldError> {
        let gone = self.remove_directory(alloc, path);
        self.tell(gone)
    }

    fn run(&mut self, alloc: Global, request: &Request) -> Result<Reply, WorldError> {
        let reply = run_child(&self.rt, alloc, request);
        self.tell(reply)
    }

    fn settle(&mut self, alloc: Global, area: &Area) -> Result<(), WorldError> {
        let synced = sync_area(&self.rt, alloc, area);
        self.tell(synced)
    }
}
